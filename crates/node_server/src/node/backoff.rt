// How a node goes on after its journal failed, or when no thread was to be had.
ghost use Rattle.std.specs.Prelude.{◌≡◌, ◌*◌, None, false, not};
ghost use Rattle.std.specs.Duration.{as_nanos};
ghost use Rattle.node_server.specs.Failing.{is_quiet, paused, ran, rested, stored, tried, warned_at};

use std::time::Duration;

/// How long nothing of the node's own is stored after a failure of its journal. It doubles each
/// time.
const FIRST_PAUSE_MS: u64 = 100;

/// The longest such time.
const LAST_PAUSE_MS: u64 = 1_600;

/// How long it waits before it opens its journal again, or begins a run for which no thread was to
/// be had. It doubles with each failed try.
const FIRST_REST_MS: u64 = 100;

/// The longest such wait.
const LAST_REST_MS: u64 = 1_000;

/// The least time between two warnings, in nanoseconds.
const QUIET_NANOS: u128 = 1_000_000_000;

/// What a node remembers of its failures.
#[derive(Drop)]
pub struct Backoff {
    pause_ms: u64,
    rest_ms: u64,
    has_run: bool,
    warned: Option<Duration>,
}

impl Backoff {
    pub fn new() -> Backoff
        ensures { result ≡ record { pause_ms = 100; rest_ms = 100; has_run = false; warned = None } }
    {
        Backoff {
            pause_ms: FIRST_PAUSE_MS,
            rest_ms: FIRST_REST_MS,
            has_run: false,
            warned: None,
        }
    }

    /// Returns how long to hold back what the node would store by itself. The next time it is twice
    /// as long.
    pub fn next_pause(&mut self) -> Duration
        ensures time { as_nanos result ≡ self.old.pause_ms * 1_000_000 }
        ensures next { self.new ≡ paused self.old }
    {
        let pause_ms = self.pause_ms;
        self.pause_ms = pause_ms.saturating_mul(2).min(LAST_PAUSE_MS);
        Duration::from_millis(pause_ms)
    }

    /// Returns how long to rest before the next try. The next time it is twice as long.
    pub fn next_rest(&mut self) -> Duration
        ensures time { as_nanos result ≡ self.old.rest_ms * 1_000_000 }
        ensures next { self.new ≡ rested self.old }
    {
        let rest_ms = self.rest_ms;
        self.rest_ms = rest_ms.saturating_mul(2).min(LAST_REST_MS);
        Duration::from_millis(rest_ms)
    }

    /// Records that a try succeeded.
    pub fn end_rest(&mut self)
        ensures { self.new ≡ tried self.old }
    {
        self.rest_ms = FIRST_REST_MS;
    }

    /// Records that a run had its threads.
    pub fn note_run(&mut self)
        ensures { self.new ≡ ran self.old }
    {
        self.has_run = true;
        self.rest_ms = FIRST_REST_MS;
    }

    /// Whether a run has had its threads since the start.
    pub fn has_run(&self) -> bool
        ensures { result ≡ self.now.has_run }
    {
        self.has_run
    }

    /// Starts over: something was stored.
    pub fn forget(&mut self)
        ensures { self.new ≡ stored self.old }
    {
        self.pause_ms = FIRST_PAUSE_MS;
    }

    /// Records a warning. Returns whether it may be given at this moment.
    pub fn note_warning(&mut self, now: Duration) -> bool
        ensures may { result ≡ not (is_quiet now self.old.warned) }
        ensures noted { self.new ≡ warned_at now self.old }
    {
        if let Some(warned) = self.warned {
            if now.saturating_sub(warned).as_nanos() < QUIET_NANOS {
                return false;
            }
        }
        self.warned = Some(now);
        true
    }
}
