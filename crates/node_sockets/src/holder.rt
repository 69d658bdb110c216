// Whole requests that still have to wait: pulls, and commands during a start.

use crate::window::body_of;
use std::time::Duration;

/// The start of a pull that says who asks: the node's number stands behind the key and before `&`.
const PULL: &[u8] = b"POST /peer/pull?";

/// The key with which a pull says who asks, and the key of a pull that waits until there is
/// something new.
const ASKS: &[u8] = b"from=";

const WAITS: &[u8] = b"wait=";

/// The starts of commands, up to the path. A pull begins in the same way.
const COMMANDS: [&[u8]; 3] = [b"POST /", b"PUT /", b"DELETE /"];

/// The start of any pull, whatever follows.
const ANY_PULL: &[u8] = b"POST /peer/";

/// Stands in place of the asking node's number if a command is held.
const NOBODY: u8 = 0;

/// What happens to a whole request.
#[derive(Clone, Copy, PartialEq, Eq, Debug)]
pub enum Hold {
    /// It is served now.
    Serve,
    /// It is served in some milliseconds.
    Soon,
    /// It waits until its holder has something for it or the command may be made, but at most for
    /// some seconds.
    Later,
}

/// What happens to an answer that waits until other nodes have what it shows.
#[derive(Clone, Copy, PartialEq, Eq, Debug)]
pub enum Disposition {
    /// It is sent now.
    Send,
    /// It goes on waiting.
    Wait,
    /// It is never sent: its client gets no answer.
    Drop,
}

/// A pull that says who asks.
#[derive(Clone, Copy)]
pub struct PullQuery {
    /// The number of the node that asks, a digit.
    pub from: u8,
    /// Whether the pull waits until there is something new.
    pub waits: bool,
    /// Since when it has been held, if it is.
    pub since: Option<Duration>,
}

/// Decides how long pulls, commands and answers wait.
pub trait Holder {
    /// Returns what happens to an answer that has waited for a ticket since a moment.
    fn stand(&self, ticket: u64, since: Duration) -> Disposition;

    /// Returns what happens to a pull with this query and this body.
    fn hold(&self, asked: &PullQuery, query: &[u8], body: &[u8]) -> Hold;

    /// Returns what happens to a command, which has been held since `since`, if it is held.
    fn hold_command(&self, since: Option<Duration>) -> Hold;
}

/// A holder that makes nothing wait.
#[derive(Clone, Copy)]
pub struct NoHolder;

impl Holder for NoHolder {
    fn stand(&self, _ticket: u64, _since: Duration) -> Disposition {
        Disposition::Send
    }

    fn hold(&self, _asked: &PullQuery, _query: &[u8], _body: &[u8]) -> Hold {
        Hold::Serve
    }

    fn hold_command(&self, _since: Option<Duration>) -> Hold {
        Hold::Serve
    }
}

/// Returns the query of a pull that has one, up to the space behind it.
fn query_in(bytes: &[u8]) -> &[u8] {
    let rest = match bytes.strip_prefix(PULL) {
        Some(rest) => rest,
        None => &[],
    };
    let end = rest.iter().position(|byte| *byte == b' ');
    rest.get(..end.unwrap_or(0)).unwrap_or(&[])
}

/// Returns the digit behind the key, if `&` follows. Both keys have equally many bytes.
fn digit_in(query: &[u8]) -> Option<u8> {
    let (Some(digit), Some(next)) = (query.get(ASKS.len()), query.get(ASKS.len() + 1)) else {
        return None;
    };
    if !digit.is_ascii_digit() || *next != b'&' {
        return None;
    }
    Some(digit.saturating_sub(b'0'))
}

/// Returns who asks, if this query says it.
fn asked_in(query: &[u8], since: Option<Duration>) -> Option<PullQuery> {
    let waits = query.starts_with(WAITS);
    if !waits && !query.starts_with(ASKS) {
        return None;
    }
    let from = digit_in(query)?;
    Some(PullQuery { from, waits, since })
}

/// Whether a request is a command.
fn is_command(bytes: &[u8]) -> bool {
    let is_any = COMMANDS.iter().any(|start| bytes.starts_with(start));
    is_any && !bytes.starts_with(ANY_PULL)
}

/// Returns who asks by a whole request, and what happens to it. The request must be either a pull
/// that says who asks and isn't refused, or a command, which has no asking node.
pub(crate) fn hold_of<H: Holder>(
    bytes: &[u8],
    since: Option<Duration>,
    holder: &H,
) -> Option<(u8, Hold)> {
    if is_command(bytes) {
        return Some((NOBODY, holder.hold_command(since)));
    }
    let query = query_in(bytes);
    let asked = asked_in(query, since)?;
    let hold = holder.hold(&asked, query, body_of(bytes)?);
    Some((asked.from, hold))
}
