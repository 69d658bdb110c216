// The state that the lock of a node's mailbox guards.
ghost use Rattle.std.specs.Prelude.{◌≡◌, ◌≤◌, ◌-◌, ◌||◌, IfNone, false, is_some, length, nat_lt, true};
ghost use Rattle.node_schedule.specs.Resuming.{ResumesAt};
ghost use Rattle.node_schedule.specs.Turns.{MayTake};
ghost use Rattle.node_agenda.specs.Hearing.{HearsOf, IsAnswered, IsAskedNow, IsDueFrom, IsLetGo, IsListed, IsNoted, IsPut, IsPutIn, IsPutLast, IsReturned, is_harmless, pace_of};
ghost use Rattle.node_agenda.specs.Since.{PausesEach};
ghost use Rattle.node_agenda.specs.Backlogs.{ended_of, is_kept, is_owed, is_queued, not_returned};
ghost use Rattle.node_agenda.specs.Moments.{earlier_of};
ghost use Rattle.node_agenda.specs.Mail.{after_news, counted, empty_mail, hastened, is_any, is_anyone, learnt, to_count, with_asking, with_calls, with_end, with_end_of, with_hold, with_hurry, with_known, with_opening, with_sweeps, with_wanted};
ghost use Rattle.node_agenda.specs.Noted.{Notes, with_news};
ghost use Rattle.node_agenda.specs.Sweeps.{IsSeen, fill_of, left_by, turned, with_full};
ghost use Rattle.state_ids.specs.Fronts.{count};
ghost use Rattle.state_ids.specs.declared.TheConstants.{MAX_NODES};
ghost use Rattle.node_agenda.specs.Starts.{IsOpened, claim_of, claimed_by, heard_by, own_awaited, patient};
ghost use Rattle.node_agenda.specs.Resting.{IsIdleFor, has_task, is_occupied, looks_at, next_at, rests_until, tries_or};
ghost use Rattle.node_agenda.specs.Tasks.{Does, IsNextKind, IsNextTask, has, is_spared, may_enter};
ghost use Rattle.node_agenda.specs.declared.task.OperatorWant.TheVariants.{Nothing};

use crate::asking::Asking;
use crate::backlog::Backlog;
use crate::census::STATUSES;
use crate::effects::{Effects, NewlyDue};
use crate::heard_since::{HeardSince, pause_each};
use crate::known_fronts::KnownFronts;
use crate::start_state::StartState;
use crate::sweep::{Fill, Purged};
use crate::sweeping::Sweeping;
use crate::task::{OperatorWant, Task};
use crate::turn::{KINDS, Turn};
use node_inbox::{Letter, Telling, Unheard};
use node_schedule::{Called, Pace, Plight, Schedule, StartedCall};
use state_ids::{Act, Front, LraId, LraStatus, NodeId, Outcome};
use std::alloc::Global;
use std::collections::VecDeque;
use std::marker::Model;
use std::time::Duration;
use wire_callbacks::{Duties, Duty, Heard, Kind};

/// How long a call must take to count as late, in nanoseconds.
const SLOW_NANOS: u128 = 1_000_000_000;

/// Whether finishing this duty makes no other duty due: it is a completion, or the notification of
/// an end.
fn makes_none_due(duty: &Duty) -> bool
    ensures { result ≡ is_harmless duty.now.kind duty.now.act }
{
    match duty.kind {
        Kind::After => true,
        Kind::Forget => false,
        Kind::Complete | Kind::Compensate | Kind::Status => duty.act == Act::Complete,
    }
}

/// Returns the pace of a host whose call took this long, and was heard or failed.
fn pace_of(time: Duration, is_heard: bool) -> Pace
    ensures { result ≡ pace_of time is_heard }
{
    match (is_heard, time.as_nanos() < SLOW_NANOS) {
        (true, true) => Pace::Quick,
        (true, false) => Pace::Slow,
        (false, true) => Pace::Refusing,
        (false, false) => Pace::Hanging,
    }
}

/// Returns the earlier of two moments.
fn earlier_of(one: Duration, other: Duration) -> Duration
    ensures { result ≡ earlier_of one other }
{
    if other.as_nanos() < one.as_nanos() {
        other
    } else {
        one
    }
}

/// What the threads of a node hand to one another, and when what is to be done with it.
#[derive(Drop)]
pub struct MailboxState {
    calls: Schedule,
    letters: VecDeque<Letter>,
    /// What other nodes sent that isn't stored yet.
    backlog: Backlog,
    known: KnownFronts,
    opening: StartState,
    asking: Asking,
    /// Until when nothing is stored, because the journal failed.
    held_until: Duration,
    /// The kind of task that had its turn last.
    last: Turn,
    /// Whether the writer thread is to check whether the run is over.
    is_hurried: bool,
    has_ended: bool,
    /// What operators want.
    wanted: OperatorWant,
    /// The LRAs that have ended and are to be purged.
    sweeping: Sweeping,
    /// The participants that were heard from since the pending list of duties was asked for.
    since: HeardSince,
}

impl Model for MailboxState {
    ghost use Rattle.node_agenda.specs.Mail.{Mail};

    ghost Value = { Mail };

    ghost view = { λ m. record {
      calls = m.calls;
      letters = m.letters.items;
      backlog = m.backlog;
      known = m.known;
      opening = m.opening;
      asking = m.asking;
      held_until = m.held_until;
      last = m.last;
      is_hurried = m.is_hurried;
      has_ended = m.has_ended;
      wanted = m.wanted;
      sweeps = m.sweeping;
      since = m.since;
    } };
}

impl MailboxState {
    /// Makes an empty mailbox for a node in a group of `nodes` nodes. Nothing is known yet about
    /// its own front. If the others are in processes of their own, the front is asked for first,
    /// and then the others are heard from before commands are accepted: for a second, or until all
    /// were heard from.
    pub fn new(
        alloc: Global,
        me: NodeId,
        nodes: u8,
        are_apart: bool,
        waits_for_all: bool,
        sweeping: Sweeping,
    ) -> MailboxState
        requires { (1 ≤ nodes) × (nodes ≤ MAX_NODES) }
        ensures { result ≡ empty_mail me nodes are_apart waits_for_all sweeping }
    {
        MailboxState {
            calls: Schedule::new(alloc),
            letters: VecDeque::new(alloc),
            backlog: Backlog::new(me),
            known: KnownFronts::new(nodes, are_apart),
            opening: StartState::new(me, nodes, are_apart, waits_for_all),
            asking: Asking::new(),
            held_until: Duration::ZERO,
            last: Turn::OfDuties,
            is_hurried: false,
            has_ended: false,
            wanted: OperatorWant::Nothing,
            sweeping,
            since: HeardSince::new(alloc),
        }
    }

    /// Returns the participants that the threads are to call.
    pub fn calls(&self) -> &Schedule
        ensures { result.now ≡ self.now.calls }
    {
        &self.calls
    }

    /// Asks for a new list of duties: at once or, if nothing new is due by what happened and others
    /// still wait, when deadlines are next checked. A list of all duties may be long.
    pub fn stir(&mut self, makes_none_due: bool)
        ensures { self.new ≡ after_news makes_none_due self.old }
    {
        if makes_none_due && self.calls.is_any_due() {
            self.asking.put_off();
        } else {
            self.asking.stir();
        }
    }

    /// Asks for a new list of duties, if a participant may be due.
    fn hear_news(&mut self, news: NewlyDue)
        ensures { self.new ≡ with_news news self.old }
    {
        match news {
            NewlyDue::Nobody => {}
            NewlyDue::OfCompletion => self.stir(true),
            NewlyDue::Others => self.stir(false),
        }
    }

    /// Records the effects of a call at the desk.
    pub fn note(&mut self, noted: &Effects, now: Duration)
        ensures { Notes noted.now now self.old self.new }
    {
        self.hear_news(noted.news);
        self.since.mention(noted.heard);
        self.sweeping.note_call(noted.became);
        if noted.took {
            self.sweeping.hasten(now);
        } else if let Some(id) = noted.freed {
            self.sweeping.free(id);
        }
    }

    /// Shows the sweep an LRA on a page: what it shows, and what its tree shows.
    pub fn see(&mut self, now: Duration, id: LraId, shown: LraStatus, seen: LraStatus)
        ensures seen { IsSeen now id shown seen self.old.sweeps self.new.sweeps }
        ensures rest { self.new ≡ with_sweeps self.new.sweeps self.old }
    {
        self.sweeping.see(now, id, shown, seen);
    }

    /// Tells the sweep that the page is over, and whether more pages follow.
    pub fn turn(&mut self, more: bool)
        ensures { self.new ≡ with_sweeps (turned more self.old.sweeps) self.old }
    {
        self.sweeping.turn(more);
    }

    /// Tells the sweep the result of a purge.
    pub fn purged(&mut self, now: Duration, id: LraId, purged: Purged)
        ensures { self.new ≡ with_sweeps (left_by purged id now self.old.sweeps) self.old }
    {
        self.sweeping.purged(now, id, purged);
    }

    /// Returns how many LRAs of the home showed each status at the last look, in the order of their
    /// ranks.
    pub fn held(&self) -> [u64; STATUSES]
        ensures { result ≡ self.now.sweeps.counts.held }
    {
        self.sweeping.held()
    }

    /// Returns how full the home is, and whether an LRA couldn't be begun because of that since
    /// this was last asked.
    pub fn fill(&mut self) -> Fill
        ensures fill { result ≡ fill_of self.old.sweeps }
        ensures told { self.new ≡ with_sweeps (with_full false self.old.sweeps) self.old }
    {
        self.sweeping.fill()
    }

    /// Whether a new list of duties is to be asked for now.
    pub fn is_stirred(&self) -> bool
        ensures { result ≡ self.now.asking.is_stirred }
    {
        self.asking.is_stirred
    }

    /// Makes nothing be stored until this moment.
    pub fn hold_until(&mut self, until: Duration)
        ensures { self.new ≡ with_hold until self.old }
    {
        self.held_until = until;
    }

    /// Whether nothing is to be stored at this moment, because the journal failed.
    pub fn is_spared(&self, now: Duration) -> bool
        ensures { result ≡ is_spared now self.now }
    {
        now.as_nanos() < self.held_until.as_nanos()
    }

    /// Whether commands are accepted, as far as other nodes are concerned.
    pub fn is_open(&self) -> bool
        ensures { result ≡ self.now.opening.is_open }
    {
        self.opening.is_open
    }

    /// Makes the next request for a task return none, so that the writer thread checks whether the
    /// run is over.
    pub fn hurry(&mut self)
        ensures { self.new ≡ with_hurry true self.old }
    {
        self.is_hurried = true;
    }

    /// Records what operators want.
    pub fn want(&mut self, wanted: OperatorWant)
        ensures { self.new ≡ with_wanted wanted self.old }
    {
        self.wanted = wanted;
    }

    /// Withdraws the call that operators want. Returns whether one was still wanted: otherwise it
    /// was made, or is being made.
    pub fn take_back(&mut self) -> bool
        ensures back { result ≡ is_any self.old.wanted }
        ensures rest { self.new ≡ with_wanted Nothing self.old }
    {
        let is_back = self.wanted.is_any();
        self.wanted = OperatorWant::Nothing;
        is_back
    }

    /// Records that the program is to end.
    pub fn end(&mut self)
        ensures { self.new ≡ with_end self.old }
    {
        self.has_ended = true;
    }

    /// Whether the program is to end.
    pub fn has_ended(&self) -> bool
        ensures { result ≡ self.now.has_ended }
    {
        self.has_ended
    }

    /// Records that this node has at least these facts of each node.
    pub fn learn(&mut self, front: &Front)
        ensures { self.new ≡ with_known (learnt front.now self.old.known) self.old }
    {
        self.known.learn(front);
    }

    /// Returns how many facts of each node this one has at least.
    pub fn front(&self) -> Front
        ensures { result ≡ self.now.known.front }
    {
        self.known.front
    }

    /// Records that it is known how many facts the node has.
    pub fn note_counted(&mut self)
        ensures { self.new ≡ with_known (counted self.old.known) self.old }
    {
        self.known.is_counted = true;
    }

    /// Whether it is known how many facts the node has.
    pub fn is_counted(&self) -> bool
        ensures { result ≡ self.now.known.is_counted }
    {
        self.known.is_counted
    }

    /// Records that the number of the node's facts is to be asked for.
    pub fn want_count(&mut self)
        ensures { self.new ≡ with_known (to_count self.old.known) self.old }
    {
        self.known.is_to_count = true;
    }

    /// Records that another node answered, and what it sent. A start waits until that is taken.
    pub fn note_heard(&mut self, other: NodeId, telling: &Telling)
        ensures { self.new ≡ with_opening
            (heard_by other telling.now.frame.front self.old.known.front self.old.opening) self.old }
    {
        let (told, known) = (telling.front(), self.known.front);
        self.opening.hear(other, &told, &known);
    }

    /// Puts a telling of another node to be taken, in place of the one of that node that waits,
    /// unless that counts more facts of the node. Returns the one that then doesn't wait, if there
    /// are two. Errors: the telling, if nothing in it is new.
    pub fn put_telling(&mut self, telling: Telling) -> Result<Option<Telling>, Telling>
        ensures { IsPutIn telling self.old self.new result }
    {
        let told = telling.front();
        if told.nodes() != self.known.front.nodes() || told.below(&self.known.front) {
            return Err(telling);
        }
        Ok(self.backlog.put(telling))
    }

    /// Records the end of the telling that is being taken, which has this front: it was taken, or is
    /// given up.
    pub fn end_telling(&mut self, front: &Front, is_taken: bool)
        ensures { self.new ≡ with_end_of is_taken front.now self.old }
    {
        if is_taken {
            self.known.learn(front);
        }
        self.backlog.end(is_taken);
    }

    /// Makes the telling that is being taken wait again, because the journal couldn't take it, unless
    /// its node sent one meanwhile that counts as many facts of the node. What that node sent is
    /// tried again after a pause, which doubles each time. Returns the telling that then doesn't
    /// wait, if there are two.
    pub fn keep_telling(&mut self, telling: Telling, now: Duration) -> Option<Telling>
        ensures kept { IsReturned now telling self.old self.new }
        ensures left { result ≡ not_returned telling self.old.backlog }
    {
        self.backlog.keep(telling, now)
    }

    /// Whether what a node sent waits because the journal couldn't take it.
    pub fn keeps(&self, node: NodeId) -> bool
        ensures { result ≡ is_kept node self.now.backlog }
    {
        self.backlog.is_kept(node)
    }

    /// Whether what a node sent waits for its turn: the journal hasn't failed to take it.
    pub fn queues(&self, node: NodeId) -> bool
        ensures { result ≡ is_queued node self.now.backlog }
    {
        self.backlog.is_queued(node)
    }

    /// Returns how many tellings of a node were taken, put back or given up.
    pub fn ended(&self, node: NodeId) -> u64
        ensures { result ≡ ended_of node self.now.backlog }
    {
        self.backlog.ended(node)
    }

    /// Records that another node, which asks this one, counts this many facts of this node. A start
    /// waits for them until that node has answered this one twice since.
    pub fn hear_claim(&mut self, other: NodeId, count: u64)
        ensures { self.new ≡ with_opening (claimed_by other count self.old.opening) self.old }
    {
        self.opening.hear_claim(other, count);
    }

    /// Makes this node store nothing before it has this many facts of its own.
    pub fn wait_for_own(&mut self, count: u64)
        ensures { self.new ≡ with_opening (own_awaited count self.old.opening) self.old }
    {
        self.opening.wait_for_own(count);
    }

    /// Returns how many facts of this node, for which a start waits, another node claims to have.
    pub fn claim_of(&self, other: NodeId) -> u64
        ensures { result ≡ claim_of other self.now.opening }
    {
        self.opening.claim_of(other)
    }

    /// Whether a node that asks is owed facts of its own: it sent more of them than it counts, and
    /// they wait here to be stored. It is answered once they are stored or are given up, so that a
    /// node whose journal is older learns of each number that it gave.
    pub fn is_owed(&self, from: NodeId, asks: &Front) -> bool
        ensures { result ≡ is_owed from asks.now self.now.known.front self.now.backlog }
    {
        self.backlog.is_owed(from, asks, &self.known.front)
    }

    /// Makes a start wait for all others, however long that takes.
    pub fn wait_for_all(&mut self)
        ensures { self.new ≡ with_opening (patient self.old.opening) self.old }
    {
        self.opening.wait_for_all();
    }

    /// Whether a start has waited for the others as long as it may, and didn't open.
    pub fn is_late(&self) -> bool
        ensures { result ≡ self.now.opening.is_late }
    {
        self.opening.is_late
    }

    /// Makes deadlines be checked at once.
    pub fn tick(&mut self)
        ensures { self.new ≡ with_asking (hastened self.old.asking) self.old }
    {
        self.asking.hasten();
    }

    /// Accepts commands from here on, if all others were heard from and what they sent is taken, or
    /// the time for that is over. Returns whether this begins now.
    pub fn open_if_due(&mut self, now: Duration) -> bool
        ensures opened { IsOpened now self.old.known.front self.old.opening self.new.opening result }
        ensures rest { self.new ≡ with_opening self.new.opening self.old }
    {
        let front = self.known.front;
        self.opening.open_if_due(now, &front)
    }

    /// Queues each participant whose pause is over. Returns whether some participant may be called.
    pub fn resume_calls(&mut self, now: Duration) -> bool
        ensures resumed { ResumesAt self.old.calls.resumes_at now self.old.calls self.new.calls result }
        ensures rest { self.new ≡ with_calls self.new.calls self.old }
    {
        self.calls.resume(now)
    }

    /// Whether facts of the node's own may be stored at this moment.
    fn may_enter(&self, now: Duration) -> bool
        ensures { result ≡ may_enter now self.now }
    {
        self.opening.is_open && !self.is_spared(now)
    }

    /// Whether there is a task of a kind at this moment. Before commands are accepted, tellings are
    /// taken, facts are counted and operators' questions are answered, but nothing else. While
    /// nothing may be stored because the journal failed, only operators' questions are.
    fn has(&self, kind: Turn, now: Duration) -> bool
        ensures { result ≡ has now self.now kind }
    {
        match kind {
            Turn::OfDeadlines => self.may_enter(now) && self.asking.is_tick_due(now),
            Turn::OfCount => !self.is_spared(now) && self.known.is_due(now),
            Turn::OfLetters => self.may_enter(now) && !self.letters.is_empty(),
            Turn::OfTelling => !self.is_spared(now) && self.backlog.is_due(now),
            Turn::OfDuties => self.may_enter(now) && self.asking.is_stirred,
            Turn::OfChores => self.may_enter(now) && self.sweeping.is_due(now),
            Turn::OfErrand => self.wanted.is_there(self.may_enter(now)),
        }
    }

    /// Whether the writer thread has something to do.
    fn has_task(&self, now: Duration) -> bool
        ensures { result ≡ has_task now self.now }
    {
        self.has(Turn::OfDeadlines, now)
            || (self.has(Turn::OfCount, now)
                || (self.has(Turn::OfLetters, now)
                    || (self.has(Turn::OfTelling, now)
                        || (self.has(Turn::OfDuties, now)
                            || (self.has(Turn::OfChores, now) || self.has(Turn::OfErrand, now))))))
    }

    /// Returns when deadlines are next checked; before commands are accepted, when they are at the
    /// latest.
    fn looks_at(&self) -> Duration
        ensures { result ≡ looks_at self.now }
    {
        if self.opening.is_open {
            return self.asking.ticks_at;
        }
        match self.opening.opens_at {
            Some(until) => until,
            None => self.asking.ticks_at,
        }
    }

    /// Returns when the next timer fires.
    fn next_at(&self, now: Duration) -> Duration
        ensures { result ≡ next_at now self.now }
    {
        if self.is_spared(now) {
            return self.held_until;
        }
        let next = if self.known.is_to_count {
            earlier_of(self.looks_at(), self.known.counts_at)
        } else {
            self.looks_at()
        };
        if self.backlog.retry_at.as_nanos() <= now.as_nanos() {
            next
        } else {
            earlier_of(next, self.backlog.retry_at)
        }
    }

    /// Whether the writer thread must not wait at this moment.
    fn is_occupied(&self, now: Duration) -> bool
        ensures { result ≡ is_occupied now self.now }
    {
        self.has_task(now) || self.is_hurried
    }

    /// Returns how long the writer thread may wait at this moment for something to do; `None` if it
    /// has a task or is in a hurry. A chore may come due before that: the home is to be swept a
    /// quarter of a second later at the latest.
    pub fn idle_time(&self, now: Duration) -> Option<Duration>
        ensures { IsIdleFor now self.now result }
    {
        if self.is_occupied(now) {
            return None;
        }
        let until = self.calls.resumes_by(self.next_at(now));
        Some(until.saturating_sub(now))
    }

    /// Returns the kind of task whose turn it is, of the kinds that have a task.
    fn next_kind(&self, now: Duration) -> Option<Turn>
        ensures { IsNextKind self.now.last (has now self.now) result }
    {
        let mut kind = self.last;
        for turn in 0..KINDS {
            kind = kind.next();
            if self.has(kind, now) {
                return Some(kind);
            }
        }
        None
    }

    /// Takes the task of this kind.
    fn take(&mut self, kind: Turn, now: Duration) -> Task
        requires { has now self.old kind ≡ true }
        ensures { Does now kind self.old self.new result }
    {
        self.last = kind;
        match kind {
            Turn::OfDeadlines => {
                let is_anyone = !self.calls.is_empty();
                self.asking.tick(now, is_anyone);
                Task::Tick
            }
            Turn::OfCount => {
                self.known.begin(now);
                Task::Count
            }
            Turn::OfLetters => match self.letters.pop_front() {
                Some(letter) => Task::Enter(letter),
                None => Task::Rest,
            },
            Turn::OfTelling => match self.backlog.next(now) {
                Some(telling) => Task::Take(telling),
                None => Task::Rest,
            },
            Turn::OfDuties => {
                self.asking.ask(now);
                Task::Ask
            }
            Turn::OfChores => match self.sweeping.next(now) {
                Some(chore) => Task::Sweep(chore),
                None => Task::Rest,
            },
            Turn::OfErrand => {
                let wanted = self.wanted;
                self.wanted = OperatorWant::Nothing;
                Task::Errand(wanted)
            }
        }
    }

    /// Returns what the writer thread does now. It checks whether the run is over if it is in a
    /// hurry or has nothing to do. The kinds of tasks take turns, so that none waits for ever for
    /// others whose calls each take long.
    pub fn next_task(&mut self, now: Duration) -> Task
        ensures { IsNextTask now self.old self.new result }
    {
        if self.is_hurried {
            self.is_hurried = false;
            return Task::Rest;
        }
        match self.next_kind(now) {
            Some(kind) => self.take(kind, now),
            None => Task::Rest,
        }
    }

    /// Pauses the participants whose pause was put off until a list is put.
    fn pause_busy(&mut self, now: Duration)
        ensures pauses { PausesEach now self.old.since.busy self.old.calls self.new.calls }
        ensures rest { self.new ≡ with_calls self.new.calls self.old }
    {
        pause_each(&mut self.calls, self.since.busy(), now);
    }

    /// Records that a list of duties is asked for now. The list is pending until it is put
    /// (`put_duties`), which may be later: participants that are heard from meanwhile aren't called
    /// by it.
    pub fn begin_list(&mut self, now: Duration)
        ensures { IsAskedNow now self.old self.new }
    {
        self.pause_busy(now);
        self.since.begin();
    }

    /// Puts the duties of a list whose participants weren't heard from since it was asked for.
    fn put_unheard(&mut self, duties: Duties, now: Duration)
        ensures { IsPut duties now self.old self.new }
    {
        let left = self.since.unheard(duties);
        let is_whole = self.calls.put_all(left, now);
        pause_each(&mut self.calls, self.since.busy(), now);
        self.since.end();
        if !is_whole {
            self.asking.put_off();
        }
    }

    /// Discards a list, and asks for a new one at once.
    fn let_go(&mut self, now: Duration)
        ensures { IsLetGo now self.old self.new }
    {
        self.pause_busy(now);
        self.since.end();
        self.asking.stir();
    }

    /// Puts a list of duties, without those of participants that were heard from since it was asked
    /// for. If memory runs out for one of them, a new list is asked for when deadlines are next
    /// checked. If memory ran out for marking a participant as heard from, the list is discarded,
    /// and a new one is asked for.
    pub fn put_duties(&mut self, duties: Duties, now: Duration)
        ensures { IsListed duties now self.old self.new }
    {
        if self.since.is_whole() {
            self.put_unheard(duties, now);
        } else {
            self.let_go(now);
        }
    }

    /// Whether there is a participant whose host may be called.
    pub fn may_call(&self) -> bool
        ensures { MayTake self.now.calls.now result }
    {
        self.calls.may_take()
    }

    /// Takes the participant that is to be called next, if there is one; `None` once the program is
    /// to end.
    pub fn take_due(&mut self) -> Option<StartedCall>
        ensures { IsDueFrom self.old self.new result }
    {
        if self.has_ended {
            return None;
        }
        self.calls.take()
    }

    /// Puts a letter last. If memory runs out, the letter is lost, and the participant is called
    /// again.
    pub fn put_letter(&mut self, letter: Letter)
        ensures { IsPutLast letter self.old self.new }
    {
        if let Err(refused) = self.letters.push_back(letter) {
            self.calls.forget(Called::of(refused.value.duty()));
            self.asking.put_off();
        }
    }

    /// Records the result of a call that took this long. A participant that is to be called again
    /// pauses first. Returns what is to be logged of failing calls.
    pub fn hear(
        &mut self,
        time: Duration,
        came: Result<Letter, Unheard>,
        now: Duration,
    ) -> Option<Plight>
        ensures { HearsOf time now came self.old self.new result }
    {
        match came {
            Err(Unheard { due, came }) => {
                self.calls.end(due.duty(), pace_of(time, false));
                self.calls.vain(due, came, now)
            }
            Ok(letter) => {
                self.calls.end(letter.duty(), pace_of(time, true));
                let plight = self.calls.heard(letter.duty(), now);
                self.put_letter(letter);
                plight
            }
        }
    }

    /// Pauses a participant that is busy; forgets that any other was called.
    fn answer(&mut self, who: Called, heard: Heard, now: Duration)
        ensures answered { IsAnswered heard who now self.old.calls self.new.calls }
        ensures rest { self.new ≡ with_calls self.new.calls self.old }
    {
        match heard {
            Heard::Outcome(Outcome::Busy) => self.calls.pause(who, now),
            _ => self.calls.forget(who),
        }
    }

    /// Records that an answer is stored. A participant that is busy is called again after a pause;
    /// if a list is pending, the pause begins once the list is put.
    pub fn note_entered(&mut self, letter: &Letter, now: Duration)
        ensures { IsNoted letter.now now self.old self.new }
    {
        let (who, heard) = (Called::of(letter.duty()), letter.heard());
        let waits = self.since.note_answer(&who, heard);
        if !waits {
            self.answer(who, heard, now);
        }
        self.stir(makes_none_due(letter.duty()));
    }
}
