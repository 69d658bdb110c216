// What is remembered of a participant that is to be called, is being called, or is called again
// after a pause.
ghost use Rattle.std.specs.Prelude.{◌≡◌, ◌+◌, ◌*◌, ◌<◌, ◌≤◌, IfNone, IfSome, None, Some, length, map, max, min, take, true};
ghost use Rattle.std.specs.Duration.{as_nanos, max_nanos};
ghost use Rattle.node_schedule.specs.InVain.{count_in_vain, is_in_vain, longest_in_vain, time_in_vain};
ghost use Rattle.node_schedule.specs.Once.{slips_of};
ghost use Rattle.node_schedule.specs.Pausing.{missed, newest, slip_at};
ghost use Rattle.node_schedule.specs.Slips.{IsPaused, IsRecalled, begun_to, called_of, fresh, is_called, is_over, made_to_wait, place_of, same_called, taken_back, until_in, without};
ghost use Rattle.node_schedule.specs.Entering.{IsMadeToWait};

use crate::plight::Vain;
use state_ids::LraId;
use std::marker::Model;
use std::time::Duration;
use wire_callbacks::{Duty, Kind};

/// The first pause before a participant is called again, in milliseconds.
const FIRST_PAUSE: u64 = 250;

/// The longest pause, in milliseconds.
const LAST_PAUSE: u64 = 30_000;

/// A duty whose call has begun. Only `Schedule::take` makes one.
#[derive(Drop)]
pub struct StartedCall {
    duty: Duty,
}

impl Model for StartedCall {
    ghost use Rattle.wire_callbacks.specs.declared.duty.Duty.{Duty};

    ghost Value = { Duty };

    ghost view = { λ d. d.duty };
}

impl StartedCall {
    pub(crate) fn new(duty: Duty) -> StartedCall
        ensures { result ≡ duty }
    {
        StartedCall { duty }
    }

    /// Returns the duty.
    pub fn duty(&self) -> &Duty
        ensures { result.now ≡ self.now }
    {
        &self.duty
    }

    /// Returns the duty by value.
    pub fn into_duty(self) -> Duty
        ensures { result ≡ self }
    {
        self.duty
    }
}

/// The participant that is called. Its notification of the end counts as a callee of its own, so
/// that a forget link that never answers doesn't hold that up.
#[derive(Clone, Copy)]
pub struct Called {
    pub id: LraId,
    pub member: u8,
    pub of_end: bool,
}

impl Called {
    /// Returns whom a duty calls.
    pub fn of(duty: &Duty) -> Called
        ensures { result ≡ called_of duty.now }
    {
        Called {
            id: duty.id,
            member: duty.member,
            of_end: matches!(duty.kind, Kind::After),
        }
    }

    /// Whether both are the same.
    pub fn is(&self, other: &Called) -> bool
        ensures { result ≡ same_called self.now other.now }
    {
        let is_same_end = if self.of_end {
            other.of_end
        } else {
            !other.of_end
        };
        self.id == other.id && (self.member == other.member && is_same_end)
    }
}

/// The state of a participant that is to be called.
#[derive(Clone, Copy)]
pub(crate) enum SlipState {
    /// It waits for a thread.
    Waits,
    /// It is being called, or what its answer means isn't recorded yet.
    IsCalled,
    /// It may be called again at this moment.
    Pauses(Duration),
}

/// Returns what a participant is called for again: what a list has brought meanwhile, or otherwise
/// this duty.
fn newest(brought: Option<Duty>, duty: Duty) -> Duty
    ensures { result ≡ newest brought duty }
{
    match brought {
        Some(newer) => newer,
        None => duty,
    }
}

/// What is remembered of a participant that is to be called, is being called, or is called again
/// after a pause.
#[derive(Drop)]
pub(crate) struct Slip {
    pub(crate) who: Called,
    pub(crate) pause: u64,
    pub(crate) stand: SlipState,
    /// What it is called for after the pause. While it is being called: what a list has brought
    /// since the call began.
    pub(crate) kept: Option<Duty>,
    /// Whether the last list named it.
    pub(crate) is_listed: bool,
    /// Its failed calls, if its last call failed.
    pub(crate) vain: Option<Vain>,
}

impl Slip {
    /// Makes the slip of a participant that may be called at once.
    pub(crate) fn of(who: Called) -> Slip
        ensures who { result.who ≡ who }
        ensures kept { result.kept ≡ None }
        ensures fresh { result ≡ fresh who }
    {
        Slip {
            who,
            pause: 0,
            stand: SlipState::Pauses(Duration::ZERO),
            kept: None,
            is_listed: false,
            vain: None,
        }
    }

    /// Pauses the participant, longer than the last time. Returns when the pause ends.
    pub(crate) fn pause_from(&mut self, now: Duration) -> Duration
        ensures paused { IsPaused result self.old self.new }
        ensures time { as_nanos result ≡ min (as_nanos now + self.new.pause * 1_000_000) max_nanos }
    {
        let pause = self.pause.saturating_mul(2).clamp(FIRST_PAUSE, LAST_PAUSE);
        let until = now.saturating_add(Duration::from_millis(pause));
        self.pause = pause;
        self.stand = SlipState::Pauses(until);
        until
    }

    /// Pauses the participant in the same way, because its call for this duty failed. It is called
    /// next for what a list has brought meanwhile, or otherwise for this duty again. Returns when
    /// the pause ends.
    pub(crate) fn pause_in_vain(&mut self, duty: Duty, vain: Vain, now: Duration) -> Duration
        ensures kept { self.new.kept ≡ Some (newest self.old.kept duty) }
        ensures vain { self.new.vain ≡ Some vain }
        ensures who { self.new.who ≡ self.old.who }
        ensures paused { IsPaused result (missed duty vain self.old) self.new }
        ensures time { as_nanos result ≡ min (as_nanos now + self.new.pause * 1_000_000) max_nanos }
    {
        self.vain = Some(vain);
        self.kept = Some(newest(self.kept.take(), duty));
        self.pause_from(now)
    }

    /// Whether it is being called, or what its answer means isn't recorded yet.
    pub(crate) fn is_called(&self) -> bool
        ensures { result ≡ is_called self.now }
    {
        matches!(self.stand, SlipState::IsCalled)
    }

    /// Returns when it may be called again; `None` while it waits for a thread or is being called.
    pub(crate) fn until(&self) -> Option<Duration>
        ensures { result ≡ until_in self.now.stand }
    {
        match self.stand {
            SlipState::Pauses(until) => Some(until),
            SlipState::Waits | SlipState::IsCalled => None,
        }
    }

    /// Whether its pause is over, so that it may be called again.
    pub(crate) fn is_over(&self, now: Duration) -> bool
        ensures { result ≡ is_over now self.now }
    {
        match self.stand {
            SlipState::Pauses(until) => until.as_nanos() <= now.as_nanos(),
            SlipState::Waits | SlipState::IsCalled => false,
        }
    }

    /// Records that its call begins, if this slip is the callee's.
    pub(crate) fn begin(&mut self, who: &Called)
        ensures { self.new ≡ begun_to who.now self.old }
    {
        if self.who.is(who) {
            self.stand = SlipState::IsCalled;
        }
    }

    /// Makes the participant wait for a thread or, if memory for that ran out, for the next list.
    pub(crate) fn wait(&mut self, is_put: bool)
        requires { self.old.is_listed ≡ true }
        ensures made { IsMadeToWait is_put self.old self.new }
        ensures exact { self.new ≡ made_to_wait is_put self.old }
    {
        self.kept = None;
        self.stand = if is_put {
            SlipState::Waits
        } else {
            SlipState::Pauses(Duration::ZERO)
        };
    }

    /// Takes the participant back from those that wait for a thread. The length of its pause is
    /// kept; what it was to be called for isn't.
    pub(crate) fn recall(&mut self)
        ensures recalled { IsRecalled self.old self.new }
        ensures exact { self.new ≡ taken_back self.old }
    {
        if matches!(self.stand, SlipState::Waits) {
            self.stand = SlipState::Pauses(Duration::ZERO);
        }
        self.kept = None;
        self.is_listed = false;
    }

    /// Whether its last call failed.
    fn is_in_vain(&self) -> bool
        ensures { result ≡ is_in_vain self.now }
    {
        self.vain.is_some()
    }

    /// Returns for how long its calls have failed: zero if its last call didn't fail.
    fn time_in_vain(&self, now: Duration) -> Duration
        ensures { as_nanos result ≡ time_in_vain now self.now }
    {
        match self.vain {
            Some(vain) => now.saturating_sub(vain.since),
            None => Duration::ZERO,
        }
    }
}

/// Returns how many participants have failing calls.
pub(crate) fn count_in_vain(slips: &[Slip]) -> u64
    ensures { result ≡ count_in_vain slips.now }
{
    slips.iter().filter(|slip| slip.is_in_vain()).count() as u64
}

/// Returns the longer of two times.
fn longer(one: Duration, other: Duration) -> Duration
    ensures { as_nanos result ≡ max (as_nanos one) (as_nanos other) }
{
    if one.as_nanos() < other.as_nanos() {
        other
    } else {
        one
    }
}

/// Returns for how long the calls of the worst participant have failed.
pub(crate) fn longest_in_vain(slips: &[Slip], now: Duration) -> Duration
    ensures { as_nanos result ≡ longest_in_vain now slips.now }
{
    let mut longest = Duration::ZERO;
    for place in 0..slips.len() {
        longest = longer(longest, slips[place].time_in_vain(now));
    }
    longest
}

/// Returns the place of a participant's slip at or behind `from`.
pub(crate) fn place_from(slips: &[Slip], from: usize, who: &Called) -> Option<usize>
    ensures within { IfSome result (λ place. place < length slips.now) }
    ensures found { IfSome result (λ place. (from ≤ place) × ((slip_at slips.now place).who ≡ who.now)) }
    ensures none { IfNone result (slips_of who.now (take from slips.now) ≡ slips_of who.now slips.now) }
{
    for place in from..slips.len() {
        if slips[place].who.is(who) {
            return Some(place);
        }
    }
    None
}

/// Returns the place of a participant's first slip, if there is one.
pub(crate) fn place_of(slips: &[Slip], who: &Called) -> Option<usize>
    ensures place { result ≡ place_of who.now slips.now }
    ensures within { IfSome result (λ place. place < length slips.now) }
{
    slips.iter().position(|slip| slip.who.is(who))
}

/// Records that the call of a participant begins.
pub(crate) fn begin_each(slips: &mut [Slip], who: &Called)
    ensures { slips.new ≡ map (begun_to who.now) slips.old }
{
    for slip in slips.iter_mut() {
        slip.begin(who);
    }
}

/// Forgets what is remembered of a participant.
pub(crate) fn forget_each(slips: &mut Vec<Slip>, who: &Called)
    ensures { slips.new.items ≡ without who.now slips.old.items }
{
    slips.retain(|slip| !slip.who.is(who));
}
