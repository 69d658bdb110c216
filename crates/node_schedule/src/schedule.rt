// Schedules callbacks: which participants wait for a caller thread, which are being called, and
// which pause before they are called again.
ghost use Rattle.std.specs.Prelude.{◌≡◌, ◌<◌, ◌≤◌, ◌↔◌, ◌∷◌, [], Bool, IfSome, IsTrue, None, false, filter, length, map};
ghost use Rattle.std.specs.Duration.{as_nanos};
ghost use Rattle.std.specs.List.{list_any};
ghost use Rattle.node_schedule.specs.Calling.{IsTakenFrom};
ghost use Rattle.node_schedule.specs.Entering.{IsEntered};
ghost use Rattle.wire_callbacks.specs.declared.duty.Duty.{Duty};
ghost use Rattle.node_schedule.specs.InVain.{count_in_vain, longest_in_vain};
ghost use Rattle.node_schedule.specs.Listing.{IsBrought, IsPlaced, PutsOne, PutsSome, recalled_all, remembered};
ghost use Rattle.node_schedule.specs.Named.{AllKept, AllWaiting, IsKept, NamesNoOther, NamesOnly, Passes};
ghost use Rattle.node_schedule.specs.Once.{HasEachOnce, MayBeCalled, NamesNobodyTwice, calls_of, current_of, dues_of, duties_for, slips_of};
ghost use Rattle.node_schedule.specs.Pausing.{IsBusyAt, IsFound, IsMissed, earlier, next_of, vain_of};
ghost use Rattle.node_schedule.specs.Resuming.{IsFirstPause, ResumesAll, ResumesAt, ResumesOne};
ghost use Rattle.node_schedule.specs.Slips.{called_of, is_remembered, place_of, taken_back, without};
ghost use Rattle.node_schedule.specs.declared.slip.Called.{Called as TheCalled};
ghost use Rattle.node_schedule.specs.Turns.{MayTake, changed_at, is_due, with_end, with_hosts};
ghost use Rattle.node_schedule.specs.Turns.{place_of as host_place};

use crate::Pace;
use crate::hosts::Hosts;
use crate::plight::{CallFailure, Plight, Vain};
use crate::slip::{
    Called, Slip, StartedCall, begin_each, count_in_vain, forget_each, longest_in_vain, place_from,
    place_of,
};
use std::alloc::Global;
use std::marker::Model;
use std::time::Duration;
use wire_callbacks::Duty;

/// Records a duty of a list. If the participant is being called or still pauses, the duty is kept:
/// the participant is called for it next. Otherwise the duty is queued at its host, and the
/// participant waits for a thread from now on. Returns false if memory ran out.
fn enter(slip: &mut Slip, hosts: &mut Hosts, duty: Duty, now: Duration) -> bool
    ensures entered { IsEntered now duty slip.old slip.new hosts.old hosts.new result }
    ensures named { (test : Duty → Bool) → Passes test duty → IsKept test slip.old → AllWaiting test hosts.old.hosts →
        IsKept test slip.new × AllWaiting test hosts.new.hosts }
{
    slip.is_listed = true;
    if !slip.is_over(now) {
        hosts.note(&duty);
        slip.kept = Some(duty);
        return true;
    }
    let is_put = hosts.put(duty);
    slip.wait(is_put);
    is_put
}

/// Returns the earlier of two moments, or the only one.
fn earlier(one: Option<Duration>, other: Duration) -> Duration
    ensures { result ≡ earlier one other }
{
    match one {
        Some(one) => {
            if other.as_nanos() < one.as_nanos() {
                other
            } else {
                one
            }
        }
        None => other,
    }
}

/// Queues a participant for the next free caller thread if its pause is over. Returns when the next
/// pause ends, of this participant and those before.
fn resume_one(
    slip: &mut Slip,
    hosts: &mut Hosts,
    now: Duration,
    next: Option<Duration>,
) -> Option<Duration>
    ensures resumed { ResumesOne now slip.old slip.new hosts.old hosts.new next result }
    ensures named { (test : Duty → Bool) → IsKept test slip.old → AllWaiting test hosts.old.hosts →
        IsKept test slip.new × AllWaiting test hosts.new.hosts }
{
    if slip.is_over(now) {
        if let Some(duty) = slip.kept.take() {
            let _ = enter(slip, hosts, duty, now);
        }
        return next;
    }
    match slip.until() {
        Some(until) => Some(earlier(next, until)),
        None => next,
    }
}

/// Queues each participant whose pause is over, and returns when the next pause ends.
fn resume_all(slips: &mut [Slip], hosts: &mut Hosts, now: Duration) -> Option<Duration>
    ensures resumed { ResumesAll now slips.old slips.new hosts.old.hosts hosts.new.hosts }
    ensures next { IsFirstPause now (length slips.old) slips.old result }
    ensures named { (test : Duty → Bool) → AllKept test slips.old → AllWaiting test hosts.old.hosts →
        AllKept test slips.new × AllWaiting test hosts.new.hosts }
{
    let mut next: Option<Duration> = None;
    for slip in slips.iter_mut() {
        next = resume_one(slip, hosts, now, next);
    }
    next
}

/// Takes back all participants that wait for a thread.
fn recall_each(slips: &mut [Slip])
    ensures exact { slips.new ≡ map taken_back slips.old }
    ensures kept { (test : Duty → Bool) → AllKept test slips.old → AllKept test slips.new }
{
    for slip in slips.iter_mut() {
        slip.recall();
    }
}

/// Forgets each participant that is not on the list, unless it is being called.
fn forget_unlisted(slips: &mut Vec<Slip>)
    ensures exact { slips.new.items ≡ filter is_remembered slips.old.items }
    ensures kept { (test : Duty → Bool) → AllKept test slips.old.items → AllKept test slips.new.items }
{
    slips.retain(|slip| slip.is_listed || slip.is_called());
}

/// Returns the place of a participant's slip at or behind `from`, or of a new slip if there is
/// none. Returns `None` if memory ran out.
fn place_or_new(slips: &mut Vec<Slip>, from: usize, who: Called) -> Option<usize>
    ensures kept { (test : Duty → Bool) → AllKept test slips.old.items → AllKept test slips.new.items }
    ensures within { IfSome result (λ place. place < length slips.new.items) }
    ensures placed { IsPlaced from who slips.old.items slips.new.items result }
{
    if let Some(found) = place_from(slips.as_slice(), from, &who) {
        return Some(found);
    }
    let place = slips.len();
    match slips.push(Slip::of(who)) {
        Ok(()) => Some(place),
        Err(_) => None,
    }
}

/// Moves a participant's slip to a place of the list. Returns false if memory ran out.
fn bring(slips: &mut Vec<Slip>, place: usize, who: Called) -> bool
    ensures kept { (test : Duty → Bool) → AllKept test slips.old.items → AllKept test slips.new.items }
    ensures within { IsTrue result → place < length slips.new.items }
    ensures brought { IsBrought place who slips.old.items slips.new.items result }
{
    let Some(found) = place_or_new(slips, place, who) else {
        return false;
    };
    if place >= slips.len() {
        return false;
    }
    slips.swap(place, found);
    true
}

/// The participants that the caller threads are to call. The full list of due calls is asked for
/// only when something may have changed it; a participant that is to be called again is called
/// after a pause, without another list.
#[derive(Drop)]
pub struct Schedule {
    alloc: Global,
    hosts: Hosts,
    /// In the order of the last list, as far as they are on it. So one pass over slips and list
    /// finds nearly every slip at once.
    slips: Vec<Slip>,
    /// When the first pause ends.
    resumes_at: Option<Duration>,
}

impl Model for Schedule {
    ghost use Rattle.node_schedule.specs.Calling.{Calling};

    ghost Value = { Calling };

    ghost view = { λ c. record {
      now = c.hosts;
      slips = c.slips.items;
      resumes_at = c.resumes_at;
    } };
}

impl Schedule {
    pub fn new(alloc: Global) -> Schedule
        ensures { result ≡ record { now = record { hosts = []; turns = 0; is_for_new = false }; slips = []; resumes_at = None } }
    {
        Schedule {
            alloc,
            hosts: Hosts::new(alloc),
            slips: Vec::new(alloc),
            resumes_at: None,
        }
    }

    /// Whether no participant is to be called, is being called, or pauses.
    pub fn is_empty(&self) -> bool
        ensures { IsTrue result ↔ (self.now.slips ≡ []) }
    {
        self.slips.is_empty()
    }

    /// Returns the number of participants that are to be called, are being called, or pause.
    pub fn len(&self) -> usize
        ensures { result ≡ length self.now.slips }
    {
        self.slips.len()
    }

    /// Whether some participant waits for a thread.
    pub fn is_any_due(&self) -> bool
        ensures { result ≡ list_any is_due self.now.now.hosts }
    {
        self.hosts.is_any_due()
    }

    /// Whether a thread may call some participant now.
    pub fn may_take(&self) -> bool
        ensures { MayTake self.now.now result }
    {
        self.hosts.may_take()
    }

    /// Takes the duty to call for next, if a call may begin. Its call counts as begun.
    pub fn take(&mut self) -> Option<StartedCall>
        ensures { IsTakenFrom self.old self.new result }
    {
        let duty = self.hosts.take()?;
        begin_each(&mut self.slips, &Called::of(&duty));
        Some(StartedCall::new(duty))
    }

    /// Places a duty at a position of the list and moves its participant's slip there. Returns
    /// false if memory ran out.
    fn put_at(&mut self, place: usize, duty: Duty, now: Duration) -> bool
        ensures named { NamesNoOther self.old self.new (duty ∷ []) }
        ensures puts { (who : TheCalled) → place ≤ length self.old.slips →
            PutsOne now duty place who self.old self.new result }
    {
        if !bring(&mut self.slips, place, Called::of(&duty)) {
            return false;
        }
        enter(&mut self.slips[place], &mut self.hosts, duty, now)
    }

    /// Takes back all duties that no thread has begun.
    fn recall(&mut self)
        ensures named { NamesNoOther self.old self.new [] }
        ensures exact { self.new ≡ recalled_all self.old }
    {
        self.hosts.recall();
        recall_each(&mut self.slips);
    }

    /// Places duties at the first positions of the list, in their order. Returns false if memory
    /// ran out for one.
    fn put_each(&mut self, duties: Vec<Duty>, now: Duration) -> bool
        ensures named { NamesNoOther self.old self.new duties.items }
        ensures puts { (who : TheCalled) →
            PutsSome now who (duties_for who duties.items) 0 self.old self.new result }
    {
        let (mut place, mut is_whole) = (0usize, true);
        for duty in duties {
            if self.put_at(place, duty, now) {
                place = place.saturating_add(1);
            } else {
                is_whole = false;
            }
        }
        is_whole
    }

    /// Forgets each participant that is no longer on the list, unless it is being called, and the
    /// hosts of those that are forgotten.
    fn forget_others(&mut self)
        ensures named { NamesNoOther self.old self.new [] }
        ensures exact { self.new ≡ remembered self.old }
    {
        forget_unlisted(&mut self.slips);
        self.hosts.forget();
    }

    /// Queues all due calls, in the order of the list, in place of those that no thread has begun.
    /// A participant that is no longer among them is forgotten, unless it is being called: then it
    /// is forgotten when its call fails. Returns false if memory ran out for one.
    pub fn put_all(&mut self, duties: Vec<Duty>, now: Duration) -> bool
        ensures named { NamesNoOther self.old self.new duties.items }
        ensures once { NamesNobodyTwice duties.items →
            HasEachOnce self.old → HasEachOnce self.new }
        ensures called { (who : TheCalled) → calls_of who self.new.slips ≡ calls_of who self.old.slips }
        ensures put { IsTrue result → NamesNobodyTwice duties.items → (who : TheCalled) →
            0 < duties_for who duties.items → MayBeCalled now who self.old →
            0 < dues_of who self.new.now.hosts }
        ensures forgotten { (who : TheCalled) → duties_for who duties.items ≡ 0 →
            calls_of who self.old.slips ≡ 0 → slips_of who self.new.slips ≡ 0 }
        ensures only { NamesOnly self.new duties.items }
        ensures outdated { (who : TheCalled) → current_of who self.new.slips ≡ 0 }
    {
        self.recall();
        let is_whole = self.put_each(duties, now);
        self.forget_others();
        is_whole
    }

    /// Queues each participant whose pause is over by now, and returns whether some participant may
    /// be called.
    pub fn resume(&mut self, now: Duration) -> bool
        ensures named { NamesNoOther self.old self.new [] }
        ensures resumed { ResumesAt self.old.resumes_at now self.old self.new result }
    {
        let Some(at) = self.resumes_at else {
            return false;
        };
        if at.as_nanos() > now.as_nanos() {
            return false;
        }
        self.resumes_at = resume_all(&mut self.slips, &mut self.hosts, now);
        self.hosts.may_take()
    }

    /// Returns when the first pause ends, or the given moment if that is earlier.
    pub fn resumes_by(&self, moment: Duration) -> Duration
        ensures { result ≡ earlier self.now.resumes_at moment }
    {
        earlier(self.resumes_at, moment)
    }

    /// Counts a call that is over, and records how its host answered.
    pub fn end(&mut self, duty: &Duty, pace: Pace)
        ensures { self.new ≡ record { now = with_hosts (changed_at (host_place duty.now self.old.now.hosts) (with_end pace) self.old.now.hosts) self.old.now; slips = self.old.slips; resumes_at = self.old.resumes_at } }
    {
        self.hosts.end(duty, pace);
    }

    /// Records that a pause ends at this moment.
    fn resume_by(&mut self, until: Duration)
        ensures hosts { self.new.now ≡ self.old.now }
        ensures slips { self.new.slips ≡ self.old.slips }
        ensures resumes { self.new.resumes_at ≡ Some (earlier self.old.resumes_at until) }
    {
        self.resumes_at = Some(self.resumes_by(until));
    }

    /// Pauses a participant that is busy before it is called again, each time for longer, for
    /// whatever the next list has. Its call doesn't count as failed.
    pub fn pause(&mut self, who: Called, now: Duration)
        ensures named { NamesNoOther self.old self.new [] }
        ensures busy { IsBusyAt (place_of who self.old.slips) now self.old self.new }
    {
        let Some(place) = place_of(&self.slips, &who) else {
            return;
        };
        let slip = &mut self.slips[place];
        slip.kept = None;
        slip.vain = None;
        let until = slip.pause_from(now);
        self.resume_by(until);
    }

    /// Pauses a participant whose call for this duty failed before it is called again, each time
    /// for longer. It is called next for what a list has brought meanwhile, or otherwise for this
    /// duty again. If the last list doesn't name it, it is forgotten. Returns what is to be logged
    /// of such calls: once a minute has passed since the first failed call in a row, and again
    /// every ten minutes.
    pub fn vain(&mut self, due: StartedCall, came: CallFailure, now: Duration) -> Option<Plight>
        ensures named { NamesNoOther self.old self.new (due ∷ []) }
        ensures missed { IsMissed (place_of (called_of due) self.old.slips) due came now
            self.old self.new result }
    {
        let duty = due.into_duty();
        let place = place_of(&self.slips, &Called::of(&duty))?;
        if !self.slips[place].is_listed {
            self.forget(Called::of(&duty));
            return None;
        }
        let mut vain = Vain::after(self.slips[place].vain, came, now);
        let plight = vain.tell(self.alloc, &duty, now);
        let until = self.slips[place].pause_in_vain(duty, vain, now);
        self.resume_by(until);
        plight
    }

    /// Ends the count of a participant's failed calls, because its answer counted. Returns what is
    /// to be logged of that, if the failed calls were logged.
    pub fn heard(&mut self, duty: &Duty, now: Duration) -> Option<Plight>
        ensures named { NamesNoOther self.old self.new [] }
        ensures found { IsFound (place_of (called_of duty.now) self.old.slips) duty.now now
            self.old self.new result }
    {
        let place = place_of(&self.slips, &Called::of(duty))?;
        let vain = self.slips[place].vain.take()?;
        vain.tell_end(self.alloc, duty, now)
    }

    /// Returns the failed calls of a participant, if its last call failed.
    pub fn vain_of(&self, who: &Called) -> Option<Vain>
        ensures { result ≡ vain_of who.now self.now.slips }
    {
        let place = place_of(&self.slips, who)?;
        self.slips[place].vain
    }

    /// Returns how many participants have failing calls now, and for how long the worst of them
    /// has: the time since its first failed call in a row was over.
    pub fn in_vain(&self, now: Duration) -> (u64, Duration)
        ensures count { result.0 ≡ count_in_vain self.now.slips }
        ensures longest { as_nanos result.1 ≡ longest_in_vain now self.now.slips }
    {
        (
            count_in_vain(&self.slips),
            longest_in_vain(&self.slips, now),
        )
    }

    /// Returns when a participant is called next; `None` while it waits for a thread or is being
    /// called, or if nothing is remembered of it.
    pub fn next_of(&self, who: &Called) -> Option<Duration>
        ensures { result ≡ next_of who.now self.now.slips }
    {
        let place = place_of(&self.slips, who)?;
        self.slips[place].until()
    }

    /// Forgets that a participant was called.
    pub fn forget(&mut self, who: Called)
        ensures { self.new ≡ record { now = self.old.now; slips = without who self.old.slips; resumes_at = self.old.resumes_at } }
    {
        forget_each(&mut self.slips, &who);
    }
}
