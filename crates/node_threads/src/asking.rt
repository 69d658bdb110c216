// The thread that pulls in turn from the other nodes of its process. It outlives the runs of its
// node.

use crate::news::NewsCounts;
use crate::node::Node;
use node_core::PullResult;
use node_inbox::{Telling, ask_for};
use node_sockets::{BufferedSocket, Cutoff, Limit, SLICE_MS, Sockets, Times, now};
use state_ids::{Front, NodeId};
use std::alloc::Global;
use std::net::TcpStream;
use std::sync::Wait;
use std::time::{Clock, Duration};
use wire_http::Fault;
use wire_pulls::PullError;

/// How long another node may be silent.
const PATIENCE_MS: u64 = 5_000;

/// How long another node may be silent if it holds the pull until there is something new, which
/// takes at most five seconds.
const WAITING_MS: u64 = 8_000;

/// How long its whole answer may take, over a slow line.
const FRAME_MS: u64 = 300_000;

/// How long a node pauses after each pull.
const PAUSE_MS: u64 = 50;

/// The least time for a round over all other nodes while something is new.
const SHORT_ROUND_MS: u64 = 500;

/// The time for a round while nothing is new.
const LONG_ROUND_MS: u64 = 5_000;

/// Pulls what another node has beyond a front over a connection to it, at once or when there is
/// something new; or returns why nothing was received.
pub(crate) fn pull_over<'a, R: Wait + Clock>(
    rt: &'a R,
    alloc: Global,
    node: &'a Node,
    other: NodeId,
    front: &Front,
    waits: bool,
    stream: TcpStream,
) -> Result<Telling, PullError> {
    if stream
        .set_read_timeout(Some(Duration::from_millis(SLICE_MS)))
        .is_err()
    {
        return Err(PullError::Fault(Fault::ReadFault));
    }
    let silence_ms = if waits { WAITING_MS } else { PATIENCE_MS };
    let patience = Limit::of_silence(silence_ms, FRAME_MS);
    let times = Times {
        reading: patience,
        writing: patience,
    };
    let (signal, cutoff) = (&node.signal, Cutoff::ProgramEnd);
    let buffered = BufferedSocket::new(rt, alloc, signal, cutoff, None, None, stream, times);
    let Ok(buffered) = buffered else {
        return Err(PullError::Fault(Fault::NoMemory));
    };
    let (mut reader, mut writer, _socket) = buffered.into_parts();
    let query = node.query_of(other, waits);
    ask_for(alloc, &mut reader, &mut writer, other, query, front)
}

/// Pulls from another node, and hands over what is new.
fn pull_one<R: Wait + Clock + Sockets>(
    rt: &R,
    alloc: Global,
    node: &Node,
    other: NodeId,
) -> PullResult {
    let front = node.core.front(rt);
    let Ok(stream) = node.site.reach(rt, alloc, &node.signal, other.number()) else {
        return PullResult::Failed;
    };
    let Ok(telling) = pull_over(rt, alloc, node, other, &front, false, stream) else {
        return PullResult::Failed;
    };
    let told = telling.front();
    if told.nodes() != front.nodes() || told.below(&front) {
        return PullResult::Nothing;
    }
    if node.core.put_telling(rt, telling) {
        PullResult::New
    } else {
        PullResult::Failed
    }
}

/// Returns how long to pause after a pull, if a round is to take this long.
fn pause_of(node: &Node, round_ms: u64) -> Duration {
    let others = u64::from(node.nodes.saturating_sub(1)).max(1);
    Duration::from_millis(round_ms.checked_div(others).unwrap_or(round_ms))
}

/// Returns the node after this one, skipping the node that asks.
fn next_other(node: &Node, other: u8) -> u8 {
    let next = if other >= node.nodes { 1 } else { other + 1 };
    if next != node.number() {
        return next;
    }
    if next >= node.nodes { 1 } else { next + 1 }
}

/// Returns the next node in turn that announced more than was seen; if there is none, the next
/// node.
fn next_teller(node: &Node, other: u8, told: &NewsCounts, seen: &NewsCounts) -> u8 {
    let mut next = other;
    for _turn in 0..node.nodes {
        next = next_other(node, next);
        if told.of(next) > seen.of(next) {
            return next;
        }
    }
    next_other(node, other)
}

/// Pulls from the other nodes, until the program is to end. It pulls at once from a node that
/// announced something new, if there was a pause after the last pull; and from each in turn, about
/// twice a second while that brings anything, and every five seconds otherwise. `follow`, which
/// serves one other node, waits for room; this function gives up, because it has more nodes to ask.
/// It begins once the number of the node's facts is known, because otherwise each other node would
/// first send everything that there is.
pub fn pull_in_turn<R: Wait + Clock + Sockets>(rt: &R, alloc: Global, node: &Node) {
    node.core.want_count(rt);
    if node.core.wait_for_count(rt) {
        return;
    }
    let mut other = node.number();
    let mut round_ms = SHORT_ROUND_MS;
    let mut seen = NewsCounts::new();
    for _ in rt.forever() {
        if node.core.sleep(rt, Duration::from_millis(PAUSE_MS)) {
            return;
        }
        let Some(told) = node
            .news
            .wait(rt, node.number(), &seen, pause_of(node, round_ms))
        else {
            return;
        };
        other = next_teller(node, other, &told, &seen);
        let Ok(who) = NodeId::new(other) else {
            continue;
        };
        let pulled = pull_one(rt, alloc, node, who);
        node.counts.pull(rt, who, pulled, now(rt));
        if pulled != PullResult::Failed {
            seen.set(other, told.of(other));
        }
        round_ms = match pulled {
            PullResult::New => SHORT_ROUND_MS,
            _ => round_ms.saturating_mul(2).min(LONG_ROUND_MS),
        };
    }
}
