// Signals to the threads of a node that its run is over.
ghost use Rattle.std.specs.Prelude.{◌≡◌};
ghost use Rattle.node_sockets.specs.Stops.{weight, weightier};

use std::sync::{Condvar, CondvarTimeouts, Mutex, Wait};
use std::time::{Clock, Duration};

/// Why a run is over. It doesn't hold a `Refusal`, because no enum value with a `Refusal` in it can
/// be made under `Mutex::new` (a bug of this kit).
#[derive(Clone, Copy, PartialEq, Eq, Debug)]
pub enum StopReason {
    /// The program is to end.
    Program,
    /// The run has little room left.
    Full,
    /// A call met E18.
    JournalFailed,
    /// A call met E19.
    Stopped,
    /// A call met E20.
    RunFull,
    /// A call met E21 with this number.
    TrailLost(u64),
    /// No thread or no memory was to be had.
    Starved,
}

impl StopReason {
    fn weight(self) -> u8
        ensures { result ≡ weight self }
    {
        match self {
            StopReason::Full | StopReason::RunFull | StopReason::TrailLost(_) => 0,
            StopReason::Stopped => 1,
            StopReason::JournalFailed => 2,
            StopReason::Starved => 3,
            StopReason::Program => 4,
        }
    }
}

/// Returns which cause stands, given one that may stand already.
fn weightier(was: Option<StopReason>, why: StopReason) -> StopReason
    ensures { result ≡ weightier was why }
{
    match was {
        Some(was) if was.weight() >= why.weight() => was,
        _ => why,
    }
}

/// Says whether the run is over, and why. The signal outlives the runs of its node.
#[derive(Drop)]
pub struct Signal {
    reason: Mutex<Option<StopReason>>,
    /// Wakes a node that rests, at the program's end.
    told: Condvar,
}

impl Signal {
    /// Makes the signal of a run that goes on.
    pub fn new() -> Signal {
        Signal {
            reason: Mutex::new(None),
            told: Condvar::new(),
        }
    }

    /// Ends the run, and returns whether it wasn't already ended. Of several causes the weightiest
    /// stands, in whatever order they come.
    pub fn end<R: Wait>(&self, rt: &R, why: StopReason) -> bool {
        let mut reason = self.reason.lock(rt);
        let was = *reason;
        *reason = Some(weightier(was, why));
        self.told.notify_all();
        was.is_none()
    }

    /// Rests for this long, or until the program is to end.
    pub fn rest<R: Wait + Clock>(&self, rt: &R, time: Duration) {
        let _rested = self
            .told
            .wait_timeout_while(rt, self.reason.lock(rt), time, |reason| {
                *reason != Some(StopReason::Program)
            });
    }

    /// Returns why the run is over, if it is.
    pub fn stop_reason<R: Wait>(&self, rt: &R) -> Option<StopReason> {
        *self.reason.lock(rt)
    }

    /// Whether the program is to end.
    pub fn has_ended<R: Wait>(&self, rt: &R) -> bool {
        self.stop_reason(rt) == Some(StopReason::Program)
    }

    /// Lets the next run begin, unless the program is to end. Returns whether it may begin.
    pub fn begin<R: Wait>(&self, rt: &R) -> bool {
        let mut reason = self.reason.lock(rt);
        if *reason == Some(StopReason::Program) {
            return false;
        }
        *reason = None;
        true
    }
}
