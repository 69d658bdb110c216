// The state of a node from a start to the next stop.

mod copies;
mod pulls;

use crate::call_summary::CallSummary;
use crate::due::host_of;
use crate::listings::Listings;
use crate::start::Start;
use crate::wants::Wants;
use node_agenda::{Keep, OperatorWant, Task};
use node_core::{Admission, CallResult, Caller, NodeState};
use node_effects::purged_by;
use node_inbox::{Letter, Telling, Unheard};
use node_schedule::StartedCall;
use sim_env::{DueCall, Halt};
use sim_runs::Runs;
use state_book::{Call, Reply, Survey};
use state_facts::Refusal;
use state_ids::{Front, LraId, NodeId};
use std::alloc::Global;
use std::time::Duration;
use wire_callbacks::Duties;

/// The number of caller threads of a node.
const CALLERS: usize = 4;

/// How long operators wait for a call, in milliseconds.
const ERRAND_MS: u64 = 5_000;

/// A participant that is being called.
#[derive(Drop)]
struct InFlight {
    due: StartedCall,
    began: u64,
}

/// A call that operators want.
#[derive(Drop)]
struct PlannedCall {
    call: Call,
    until: u64,
}

/// What another node sent that waits in the mailbox, or is being taken.
#[derive(Clone, Copy, PartialEq, Eq)]
struct Awaited {
    from: NodeId,
    front: Front,
}

/// The state of a node from a start to the next stop.
#[derive(Drop)]
pub struct Life<R: Runs> {
    me: NodeId,
    run: Option<R>,
    /// What it knows besides its journal. The server drives the same type.
    state: NodeState,
    /// What the writer thread is about to do.
    task: Option<Task>,
    calls: Vec<InFlight>,
    /// The call that operators want, and until when they wait for it.
    errand: Option<PlannedCall>,
    /// What others sent that is neither taken nor given up, as the checks know it.
    awaited: Vec<Awaited>,
    listings: Listings,
    start: Start,
}

/// Returns a moment of the monotonic clock.
pub fn at(now: u64) -> Duration {
    Duration::from_millis(now)
}

impl<R: Runs> Life<R> {
    /// Begins the life of a node in a group of `nodes` nodes.
    pub fn new(
        alloc: Global,
        me: NodeId,
        keep: Keep,
        nodes: u8,
        run: R,
        now: u64,
        is_anew: bool,
        wants: Wants,
    ) -> Life<R> {
        let front = run.front();
        let is_empty = wants.any() && front.count(me) == 0;
        let mut state = wants.new_state(alloc, me, nodes, keep, is_anew);
        state.start(&front);
        Life {
            me,
            run: Some(run),
            state,
            task: None,
            calls: Vec::new(alloc),
            errand: None,
            awaited: Vec::new(alloc),
            listings: Listings::new(alloc),
            start: Start::new(alloc, now, is_anew || is_empty),
        }
    }

    /// Returns what it knows besides its journal.
    pub fn state(&self) -> &NodeState {
        &self.state
    }

    /// Whether the journal is closed.
    pub fn is_shut(&self) -> bool {
        self.run.is_none()
    }

    /// Whether the node may store something of its own.
    pub fn is_open(&self) -> bool {
        self.state.mail.is_open()
    }

    /// Returns when the life began.
    pub fn began_at(&self) -> u64 {
        self.start.at
    }

    /// Whether the node, at this place of a group, may store something: the others have been heard
    /// from or, after a second, none of them has more facts of this node than the node itself.
    pub fn may_enter(&self, own: u64, place: usize, count: usize, now: u64) -> bool {
        self.start.may_enter(own, place, count, now)
    }

    /// Takes the run of the journal, which is closed after that.
    pub fn take_run(&mut self, now: u64) -> Option<R> {
        let run = self.run.take()?;
        self.state.followers.note_end(at(now));
        Some(run)
    }

    /// Goes on with the next run.
    pub fn put_run(&mut self, run: R, now: u64) {
        self.state.followers.note_begun(at(now));
        self.run = Some(run);
    }

    /// Goes on with a run over a journal that was opened again. Nothing is stored until the given
    /// moment.
    pub fn reopen(&mut self, run: R, now: u64, until: u64) {
        self.state.mail.hold_until(at(until));
        self.put_run(run, now);
    }

    /// Admits a call by the thread with this pass, of a worker or of the writer thread, unless the
    /// call is refused.
    pub fn admit(&mut self, caller: usize, asked: &CallSummary, now: u64) -> Option<Admission> {
        let whose = if caller > 0 {
            Caller::Worker
        } else {
            Caller::Writer
        };
        self.state.admit(whose, asked.notes.asked, caller, at(now))
    }

    /// Records that an admitted call is over, and had this result. Returns the ticket that the
    /// answer of a worker waits for, or 0, if there is an answer.
    pub fn settle(&mut self, admission: Admission, came: &CallResult, now: u64) -> Option<u64> {
        self.state.settle(admission, came, at(now))
    }

    /// Records that an admitted call is over that was refused, or wasn't made.
    pub fn give_up(&mut self, admission: Admission, has_failed: bool) {
        self.state.give_up(admission, has_failed);
    }

    /// Makes a call. Returns no reply if the journal is closed.
    pub fn make(&mut self, caller: usize, call: Call, unix: u64) -> Result<Option<Reply>, Refusal> {
        let Some(run) = self.run.as_mut() else {
            return Ok(None);
        };
        match run.call(caller, call, unix) {
            Ok(reply) => Ok(Some(reply)),
            Err(refusal) => Err(refusal),
        }
    }

    /// Returns how many facts of a node have been received and not taken yet.
    pub fn heard_of(&self, other: NodeId) -> u64 {
        let mut most = 0;
        for one in self.awaited.iter() {
            most = one.front.count(other).max(most);
        }
        most
    }
}

/// The work of the writer thread.
impl<R: Runs> Life<R> {
    /// Takes the task that it is about to do.
    pub fn take_task(&mut self) -> Option<Task> {
        self.task.take()
    }

    /// Stores the task that it does at the next step.
    pub fn put_task(&mut self, task: Task) {
        self.task = Some(task);
    }

    /// Returns what it does next, if the journal is open.
    pub fn next_task(&mut self, now: u64) -> Task {
        self.ready(now);
        self.state.next_task(at(now))
    }

    /// Readies what is due by now.
    fn ready(&mut self, now: u64) {
        let followers = &self.state.followers;
        let (was_held, late) = (followers.holds_calls(), followers.late());
        let readied = self.state.ready(at(now));
        let followers = &self.state.followers;
        let (is_let_go, is_late) = (
            was_held && !followers.holds_calls(),
            followers.late() > late,
        );
        self.listings.note_ready(&readied, is_let_go, is_late);
    }

    /// Ends a letter: the answer is stored, or the letter waits again.
    pub fn end_letter(&mut self, letter: Letter, who: &DueCall, is_entered: bool, now: u64) {
        if !is_entered {
            self.state.mail.put_letter(letter);
            return;
        }
        self.state.mail.note_entered(&letter, at(now));
        self.listings.end(who);
    }

    /// Ends a telling of another node: it was taken here, or is given up.
    pub fn end_telling(&mut self, from: NodeId, front: &Front, known: &Front, is_taken: bool) {
        self.forget_awaited(from, front);
        self.state
            .end_telling(front, known.count(self.me), is_taken);
    }

    /// Makes a telling wait again that couldn't be taken.
    pub fn keep_telling(&mut self, telling: Telling, now: u64) {
        let left = self.state.mail.keep_telling(telling, at(now));
        self.forget_left(left);
    }

    /// Shows the sweep what a page lists.
    pub fn see_survey(&mut self, survey: &Survey, now: u64) {
        for row in survey.rows() {
            self.state.mail.see(at(now), row.id, row.status, row.tree);
        }
        self.state.mail.turn(survey.more());
    }

    /// Ends the purge of a root that is purged on its own, and that had this reply.
    pub fn end_sweep(&mut self, root: LraId, reply: &Reply, now: u64) {
        self.state.mail.purged(at(now), root, purged_by(reply));
    }

    /// Makes the number of the node's facts be asked for again.
    pub fn want_count(&mut self) {
        self.state.mail.want_count();
    }

    /// Records that a list of duties is asked for now.
    pub fn begin_list(&mut self, now: u64) {
        self.state.mail.begin_list(at(now));
    }

    /// Makes a new list of duties be asked for.
    pub fn stir(&mut self) {
        self.state.mail.stir(false);
    }

    /// Records that an LRA was cancelled for its deadline, so another may be overdue.
    pub fn tick(&mut self) {
        self.state.mail.tick();
    }

    /// Takes the newest list of duties, which has these calls and may show `own` facts. It is put
    /// once other nodes have these.
    pub fn put_duties(&mut self, duties: Duties, listed: Vec<DueCall>, own: u64, now: u64) {
        let is_put = self.state.put_duties(duties, at(now));
        self.listings.keep(listed, own, is_put);
    }
}

/// What operators want.
impl<R: Runs> Life<R> {
    /// Records that operators want a call. If they already want one and their time is over, they
    /// withdraw it, and it isn't made any more, unless it is already being made.
    pub fn want(&mut self, call: Call, wanted: OperatorWant, now: u64) {
        match &self.errand {
            None => {
                self.errand = Some(PlannedCall {
                    call,
                    until: now.saturating_add(ERRAND_MS),
                });
                self.state.mail.want(wanted);
            }
            Some(errand) => {
                if now >= errand.until && self.state.mail.take_back() {
                    self.errand = None;
                }
            }
        }
    }

    /// Takes the call that operators want, which is made now.
    pub fn take_errand(&mut self) -> Option<Call> {
        match self.errand.take() {
            Some(errand) => Some(errand.call),
            None => None,
        }
    }
}

/// The calls of participants.
impl<R: Runs> Life<R> {
    /// Returns how many calls are under way.
    pub fn calls(&self) -> usize {
        self.calls.len()
    }

    /// Returns how many calls to a host are under way.
    pub fn calls_to(&self, host: usize) -> usize {
        let mut count = 0usize;
        for call in self.calls.iter() {
            if host_of(call.due.duty()) == host {
                count = count.saturating_add(1);
            }
        }
        count
    }

    /// Whether the newest list has this call.
    pub fn is_listed(&self, who: &DueCall) -> bool {
        self.listings.has(who)
    }

    /// Takes the participant that is called next, if a thread is free.
    pub fn take_due(&mut self) -> Option<StartedCall> {
        if self.calls.len() >= CALLERS || !self.state.mail.may_call() {
            return None;
        }
        self.state.mail.take_due()
    }

    /// Begins a call.
    pub fn begin_call(&mut self, due: StartedCall, began: u64) -> Result<(), Halt> {
        self.calls.push(InFlight { due, began })?;
        Ok(())
    }

    /// Returns the host of the call at a place, and when the call began.
    pub fn call_at(&self, place: usize) -> Option<(usize, u64)> {
        match self.calls.get(place) {
            Some(call) => Some((host_of(call.due.duty()), call.began)),
            None => None,
        }
    }

    /// Ends the call at a place.
    pub fn end_call(&mut self, place: usize) -> Option<StartedCall> {
        if place >= self.calls.len() {
            return None;
        }
        let InFlight { due, began: _ } = self.calls.remove(place);
        Some(due)
    }

    /// Records the result of a call that took this many milliseconds.
    pub fn hear(&mut self, time: u64, came: Result<Letter, Unheard>, now: u64) {
        let _plight = self.state.mail.hear(at(time), came, at(now));
    }
}
