// Schedules the next pull from another node.
ghost use Rattle.std.specs.Prelude.{◌≡◌};
ghost use Rattle.node_replication.specs.Pulls.{behind, first, hasty_after, holds_after, is_at_once, is_held, is_soon, may_wait, next_of, pause_after, round_after};

use crate::moment::is_over;
use std::time::Duration;

/// How long a node pauses after a pull, unless the next follows at once.
const PAUSE_MS: u64 = 50;

/// If a pull that brought nothing took at least this long, the other node held it: a node holds
/// pulls for at least half a second.
const HELD_MS: u64 = 400;

/// How many pulls in a row may bring nothing and return at once before the other node seems to hold
/// none.
const MANY_HASTY: u64 = 32;

/// How long to wait before the next try at a node that hasn't answered yet. It doubles each time.
const FIRST_ROUND_MS: u64 = 100;

/// How long to wait for news of another node if there was something new the last time.
const SHORT_ROUND_MS: u64 = 500;

/// How long to wait in the end, if there is nothing new or the other node can't be reached.
const LONG_ROUND_MS: u64 = 5_000;

/// The result of a pull.
#[derive(Clone, Copy, Debug, PartialEq, Eq)]
pub enum Pulled {
    /// Something new was sent, and is taken.
    New,
    /// Something new is handed over, and isn't taken yet.
    Untaken,
    /// Something new couldn't be stored. It is kept in memory, and stored once the journal accepts
    /// it.
    Kept,
    /// There is nothing new.
    Nothing,
    /// The other node can't be reached.
    Unreached,
    /// The other node gives no frame.
    Unanswered,
    /// Another node was reached there, or a node of another group.
    Misdirected,
    /// What the other node sent can't be taken: the number of the refusal.
    Refused(u64),
    /// The other node has fewer facts of its own than it sent before.
    Older,
    /// The other node has more facts of this node than this node's journal.
    Newer,
    /// The other node has facts of this node, whose journal is new, and nobody said that the old
    /// journal is lost.
    Lost,
}

/// Returns how long a round is, in milliseconds, given the result of the last pull.
fn round_after(pulled: Pulled, round_ms: u64) -> u64
    ensures { result ≡ round_after pulled round_ms }
{
    match pulled {
        Pulled::New | Pulled::Untaken | Pulled::Newer => SHORT_ROUND_MS,
        _ => round_ms.saturating_mul(2).min(LONG_ROUND_MS),
    }
}

/// Returns how long to pause after a pull, in milliseconds, whatever news there is.
fn pause_after(pulled: Pulled, round_ms: u64) -> u64
    ensures { result ≡ pause_after pulled round_ms }
{
    match pulled {
        Pulled::Refused(_) | Pulled::Misdirected | Pulled::Lost | Pulled::Kept => round_ms,
        _ => PAUSE_MS,
    }
}

/// Whether the next pull may wait at the other node until there is something new.
fn may_wait(pulled: Pulled) -> bool
    ensures { result ≡ may_wait pulled }
{
    matches!(pulled, Pulled::New | Pulled::Nothing | Pulled::Older)
}

/// Whether the next pull follows at once, given whether this one was held, and was allowed to wait.
fn is_at_once(pulled: Pulled, is_held: bool, waits: bool) -> bool
    ensures { result ≡ is_at_once pulled is_held waits }
{
    match pulled {
        Pulled::New => true,
        Pulled::Nothing => is_held || !waits,
        _ => false,
    }
}

/// Whether the other node is known to hold pulls: it held one before, or this one, or it sends this
/// node pulls that wait.
fn holds_after(pulled: Pulled, is_held: bool, asks_waiting: bool, holds: bool) -> bool
    ensures { result ≡ holds_after pulled is_held asks_waiting holds }
{
    match pulled {
        Pulled::Nothing => (holds || is_held) || asks_waiting,
        _ => may_wait(pulled) && holds,
    }
}

/// Returns how many pulls in a row weren't followed at once.
fn hasty_after(is_at_once: bool, hasty: u64) -> u64
    ensures { result ≡ hasty_after is_at_once hasty }
{
    if is_at_once {
        0
    } else {
        hasty.saturating_add(1)
    }
}

/// Whether the next pull doesn't wait for news. A node of an older version never holds pulls. What
/// isn't taken yet is soon asked for once more: that pull reports to the other node that it is
/// stored.
fn is_soon(pulled: Pulled, holds: bool, hasty: u64) -> bool
    ensures { result ≡ is_soon pulled holds hasty }
{
    match pulled {
        Pulled::Nothing => holds || hasty < MANY_HASTY,
        Pulled::Untaken => true,
        _ => false,
    }
}

/// How the next pull from another node is made.
#[derive(Clone, Copy)]
pub struct NextPull {
    /// How long a round is, in milliseconds.
    pub round_ms: u64,
    /// How long to pause first, and then to wait for news of the other node, in milliseconds.
    pub pause_ms: u64,
    pub wait_ms: u64,
    /// Whether the pull may wait at the other node.
    pub waits: bool,
    /// Whether the other node has held a pull since it last began to answer again.
    pub holds: bool,
    /// How many pulls in a row weren't followed at once.
    pub hasty: u64,
}

impl NextPull {
    /// Returns the first pull, which waits for nothing.
    pub fn first() -> NextPull
        ensures { result ≡ first }
    {
        NextPull {
            round_ms: FIRST_ROUND_MS,
            pause_ms: 0,
            wait_ms: 0,
            waits: false,
            holds: false,
            hasty: 0,
        }
    }

    /// Returns the pull that follows this one, which had this result, and was held or not.
    /// `asks_waiting` says whether the other node sends this one pulls that wait, as nodes do that
    /// hold them. The next pull follows at once if this one brought something, was held, or wasn't
    /// allowed to wait; and after a short pause if the other node is known to hold pulls, or may do
    /// so.
    pub fn behind(self, pulled: Pulled, is_held: bool, asks_waiting: bool) -> NextPull
        ensures { result ≡ behind pulled is_held asks_waiting self }
    {
        let is_at_once = is_at_once(pulled, is_held, self.waits);
        let round_ms = round_after(pulled, self.round_ms);
        let pause_ms = pause_after(pulled, round_ms);
        let holds = holds_after(pulled, is_held, asks_waiting, self.holds);
        let hasty = hasty_after(is_at_once, self.hasty);
        let is_soon = is_at_once || is_soon(pulled, holds, hasty);
        NextPull {
            round_ms,
            pause_ms: if is_at_once { 0 } else { pause_ms },
            wait_ms: if is_soon { 0 } else { round_ms },
            waits: may_wait(pulled),
            holds,
            hasty,
        }
    }

    /// Whether a pull made in this way was held, given when it began and that it is over now.
    pub fn is_held(self, began: Duration, now: Duration) -> bool
        ensures { result ≡ is_held began now self }
    {
        self.waits && is_over(Duration::from_millis(HELD_MS), began, now)
    }
}
