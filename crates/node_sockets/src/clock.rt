// The clocks, as the threads of a node read them.

use std::time::{Clock, Duration};

/// Returns the moment by the monotonic clock. A clock that can't be read shows zero, so whatever
/// waits for a later moment goes on waiting.
pub fn now<R: Clock>(rt: &R) -> Duration {
    rt.monotonic().unwrap_or(Duration::ZERO)
}

/// Returns the milliseconds since 1970, or 0 if the clock can't be read.
pub fn unix_millis(clock: &impl Clock) -> u64 {
    match clock.since_1970() {
        Ok(time) => u64::try_from(time.as_millis()).unwrap_or(u64::MAX),
        Err(_) => 0,
    }
}
