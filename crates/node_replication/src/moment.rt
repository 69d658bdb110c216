// Moments, counted from when the program began.
ghost use Rattle.std.specs.Prelude.{◌≡◌};
ghost use Rattle.std.specs.Duration.{as_nanos};
ghost use Rattle.node_replication.specs.Moments.{is_over, is_over_since};

use std::time::Duration;

/// Whether this time has passed since a moment.
pub(crate) fn is_over(time: Duration, since: Duration, now: Duration) -> bool
    ensures { result ≡ is_over (as_nanos time) since now }
{
    time.as_nanos() <= now.saturating_sub(since).as_nanos()
}

/// The same, and true if there is no such moment.
pub(crate) fn is_over_since(time: Duration, since: Option<Duration>, now: Duration) -> bool
    ensures { result ≡ is_over_since (as_nanos time) since now }
{
    match since {
        Some(at) => is_over(time, at, now),
        None => true,
    }
}
