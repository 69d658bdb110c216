// Since when each thread with a pass has waited for a call at the desk. A disk that hangs shows
// there.
ghost use Rattle.std.specs.Prelude.{◌≡◌};
ghost use Rattle.std.specs.Duration.{as_nanos};
ghost use Rattle.std.specs.List.{list_any};
ghost use Rattle.node_core.specs.Desks.{begun, ended, has_waited, longest_wait, nobody, waited};
ghost use Rattle.node_core.specs.declared.desk_watch.TheConstants.{HANGS_MS, STALLS_MS};

use std::marker::Model;
use std::time::Duration;

/// The most threads that have a pass.
const PLACES: usize = 8;

/// How long a call must wait for the disk to count as hanging, in milliseconds.
pub const HANGS_MS: u64 = 5_000;

/// How long a call must wait before operators no longer wait for calls behind it, in milliseconds.
pub const STALLS_MS: u64 = 1_000;

/// Returns how long a call has waited that began at this moment, if there is one.
fn waited(since: Option<Duration>, now: Duration) -> Duration
    ensures { as_nanos result ≡ waited now since }
{
    match since {
        Some(since) => now.saturating_sub(since),
        None => Duration::ZERO,
    }
}

/// Whether a call has waited for at least this many milliseconds that began at this moment.
fn has_waited(since: Option<Duration>, now: Duration, millis: u64) -> bool
    ensures { result ≡ has_waited now millis since }
{
    waited(since, now).as_nanos() >= Duration::from_millis(millis).as_nanos()
}

/// Returns the longest wait of the calls that began at these moments, or zero if there is none.
fn longest_wait(all: &[Option<Duration>], now: Duration) -> Duration
    ensures { as_nanos result ≡ longest_wait now all.now }
{
    let mut longest = Duration::ZERO;
    for since in all.iter() {
        let time = waited(*since, now);
        if longest.as_nanos() < time.as_nanos() {
            longest = time;
        }
    }
    longest
}

/// Since when each thread with a pass has waited for its call.
#[derive(Drop)]
pub struct DeskWatch {
    since: [Option<Duration>; PLACES],
}

impl Model for DeskWatch {
    ghost use Rattle.node_core.specs.Desks.{Waits};

    ghost Value = { Waits };

    ghost view = { λ w. record { since = w.since } };
}

impl DeskWatch {
    /// Makes the state in which no call waits.
    pub fn new() -> DeskWatch
        ensures { result ≡ nobody }
    {
        DeskWatch {
            since: [None; PLACES],
        }
    }

    /// Records that the thread with the pass at a place makes a call at this moment. Only the first
    /// eight places are watched.
    pub fn begin(&mut self, place: usize, now: Duration)
        ensures { self.new ≡ begun place now self.old }
    {
        if place < PLACES {
            self.since[place] = Some(now);
        }
    }

    /// Records that its call is over.
    pub fn end(&mut self, place: usize)
        ensures { self.new ≡ ended place self.old }
    {
        if place < PLACES {
            self.since[place] = None;
        }
    }

    /// Whether a call has waited so long that operators don't wait for a call behind it.
    pub fn stalls(&self, now: Duration) -> bool
        ensures { result ≡ list_any (has_waited now STALLS_MS) self.now.since }
    {
        self.since
            .iter()
            .any(|since| has_waited(*since, now, STALLS_MS))
    }

    /// Whether a call has waited so long that the disk seems to hang.
    pub fn hangs(&self, now: Duration) -> bool
        ensures { result ≡ list_any (has_waited now HANGS_MS) self.now.since }
    {
        self.since
            .iter()
            .any(|since| has_waited(*since, now, HANGS_MS))
    }

    /// Returns how long the call has waited that has waited longest, or zero if none waits.
    pub fn longest(&self, now: Duration) -> Duration
        ensures { as_nanos result ≡ longest_wait now self.now.since }
    {
        longest_wait(&self.since, now)
    }
}
