// Participants whose calls fail, and what is logged of them.
ghost use Rattle.std.specs.Prelude.{◌≡◌, IfNone, IfSome, IsSome, false, true};
ghost use Rattle.node_schedule.specs.Plights.{Tells, is_told_at, told_at, vain_after};

use crate::host::host_of;
use state_ids::LraId;
use std::alloc::Global;
use std::fmt;
use std::time::Duration;
use wire_callbacks::{Duty, Kind};

/// How long a participant's calls must fail before that is logged, in nanoseconds.
const FIRST_TOLD: u128 = 60_000_000_000;

/// How long after that it is logged again, in nanoseconds.
const TOLD_AGAIN: u128 = 600_000_000_000;

/// The result of a call after which the participant is called again.
#[derive(Clone, Copy, Debug, PartialEq, Eq)]
pub enum CallFailure {
    /// Its host couldn't be reached.
    NoConnection,
    /// The connection ended, or time ran out, before the answer was whole.
    Broken,
    /// An answer with this status, after which it is called again.
    Code(u16),
}

impl fmt::Display for CallFailure {
    fn fmt<W: fmt::Write>(&self, f: &mut fmt::Formatter<W>) -> fmt::Result {
        match *self {
            CallFailure::NoConnection => f.write_str("no connection"),
            CallFailure::Broken => f.write_str("no whole answer"),
            CallFailure::Code(code) => write!(f, "{}", code),
        }
    }
}

/// What is to be logged of a participant whose calls fail, or failed until now.
#[derive(Debug, Drop)]
pub struct Plight {
    pub id: LraId,
    pub member: u8,
    /// What it was last called for.
    pub kind: Kind,
    /// The host at which it is called, with its port.
    pub host: String,
    /// How many of its calls in a row failed.
    pub calls: u32,
    /// How long ago the first of these calls was over.
    pub time: Duration,
    /// The result of the last call.
    pub came: CallFailure,
    /// Whether an answer now counted, so that this is over.
    pub is_over: bool,
}

/// The failed calls of a participant.
#[derive(Clone, Copy, Debug, PartialEq, Eq)]
pub struct Vain {
    /// How many in a row.
    pub calls: u32,
    /// When the first of these calls was over.
    pub since: Duration,
    /// The result of the last call.
    pub came: CallFailure,
    /// When that was last logged, if it was.
    pub told: Option<Duration>,
}

impl Vain {
    /// Returns the count with one more failed call.
    pub(crate) fn after(earlier: Option<Vain>, came: CallFailure, now: Duration) -> Vain
        ensures { result ≡ vain_after earlier came now }
    {
        match earlier {
            Some(vain) => Vain {
                calls: vain.calls.saturating_add(1),
                since: vain.since,
                came,
                told: vain.told,
            },
            None => Vain {
                calls: 1,
                since: now,
                came,
                told: None,
            },
        }
    }

    /// Whether it is to be logged now.
    fn is_to_be_told(&self, now: Duration) -> bool
        ensures { result ≡ is_told_at now self.now }
    {
        match self.told {
            Some(told) => now.saturating_sub(told).as_nanos() >= TOLD_AGAIN,
            None => now.saturating_sub(self.since).as_nanos() >= FIRST_TOLD,
        }
    }

    /// Returns what is logged of it, or `None` if memory ran out.
    fn plight(&self, alloc: Global, duty: &Duty, now: Duration, is_over: bool) -> Option<Plight>
        ensures { IfSome result (Tells self.now duty.now now is_over) }
    {
        let host = String::from_str(alloc, host_of(duty)).ok()?;
        Some(Plight {
            id: duty.id,
            member: duty.member,
            kind: duty.kind,
            host,
            calls: self.calls,
            time: now.saturating_sub(self.since),
            came: self.came,
            is_over,
        })
    }

    /// Returns what is to be logged of it now, if anything. If memory runs out, it is logged later.
    pub(crate) fn tell(&mut self, alloc: Global, duty: &Duty, now: Duration) -> Option<Plight>
        ensures due { IsSome result → is_told_at now self.old ≡ true }
        ensures told { IfSome result (λ plight. Tells self.old duty.now now false plight × (self.new ≡ told_at now self.old)) }
        ensures untold { IfNone result (self.new ≡ self.old) }
    {
        if !self.is_to_be_told(now) {
            return None;
        }
        let plight = self.plight(alloc, duty, now, false)?;
        self.told = Some(now);
        Some(plight)
    }

    /// Returns what is to be logged of its end, if the failed calls were logged.
    pub(crate) fn tell_end(&self, alloc: Global, duty: &Duty, now: Duration) -> Option<Plight>
        ensures { IfSome result (λ plight. IsSome self.now.told × Tells self.now duty.now now true plight) }
    {
        let _ = self.told?;
        self.plight(alloc, duty, now, true)
    }
}
