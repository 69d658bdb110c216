// The threads that pull from nodes in processes of their own, one for each. They outlive the runs
// of their node.

use crate::asking::pull_over;
use crate::node::Node;
use log::{Log, warn};
use node_core::{PullResult, Receipt};
use node_inbox::Telling;
use node_replication::{NextPull, Outlook, Pulled};
use node_sockets::{Sockets, now};
use state_ids::{Front, NodeId};
use std::alloc::Global;
use std::sync::Wait;
use std::time::{Clock, Duration};
use wire_pulls::PullError;

/// How long to wait at most until what was received is taken. Then the other node is asked once
/// more.
const TAKING_MS: u64 = 200;

/// Returns the result of a pull whose telling, with this front, came when `seen` tellings had ended.
/// The next pull reports that it is taken.
fn handed<R: Wait + Clock>(rt: &R, node: &Node, other: NodeId, seen: u64, told: &Front) -> Pulled {
    let time = Duration::from_millis(TAKING_MS);
    if node.core.wait_until_taken(rt, other, seen, told, time) {
        Pulled::New
    } else if node.core.keeps(rt, other) {
        Pulled::Kept
    } else {
        Pulled::Untaken
    }
}

/// Decides what to do with what another node sent, beyond the front from which it was asked. `anew`
/// is how often that node had begun anew then.
fn take_over<R: Wait + Clock>(
    rt: &R,
    node: &Node,
    other: NodeId,
    front: &Front,
    anew: u64,
    telling: Telling,
) -> Pulled {
    let told = telling.front();
    match node.core.receive(rt, front, anew, telling) {
        Receipt::Unanswered => Pulled::Unanswered,
        Receipt::Lost => Pulled::Lost,
        Receipt::Outdated => Pulled::Untaken,
        Receipt::Newer => Pulled::Newer,
        Receipt::Older => Pulled::Older,
        Receipt::Nothing => Pulled::Nothing,
        Receipt::Waits { ended } => handed(rt, node, other, ended, &told),
    }
}

/// Returns how a pull is counted.
fn counted(pulled: Pulled) -> PullResult {
    match pulled {
        Pulled::New | Pulled::Untaken | Pulled::Kept => PullResult::New,
        Pulled::Nothing | Pulled::Older | Pulled::Newer | Pulled::Lost => PullResult::Nothing,
        Pulled::Unreached | Pulled::Unanswered | Pulled::Misdirected => PullResult::Failed,
        Pulled::Refused(_) => PullResult::Refused,
    }
}

/// Pulls from another node once, at once or when there is something new, and hands over what is new.
/// What that node sent before is taken first, unless the journal can't take it.
fn pull_once<R: Wait + Clock + Sockets>(
    rt: &R,
    alloc: Global,
    node: &Node,
    other: NodeId,
    waits: bool,
) -> Pulled {
    node.core.wait_for_turn(rt, other);
    let (front, anew) = node.core.asking(rt, other);
    let Ok(stream) = node.site.reach(rt, alloc, &node.signal, other.number()) else {
        return Pulled::Unreached;
    };
    match pull_over(rt, alloc, node, other, &front, waits, stream) {
        Ok(telling) => take_over(rt, node, other, &front, anew, telling),
        Err(PullError::Misdirected) => Pulled::Misdirected,
        Err(_) => Pulled::Unanswered,
    }
}

/// Returns the result of a pull, after what it handed over was looked at.
fn came_to<R: Wait>(rt: &R, node: &Node, other: NodeId, pulled: Pulled) -> Pulled {
    match node.core.take_refused(rt, other) {
        Some(number) => Pulled::Refused(u64::from(number)),
        None => pulled,
    }
}

/// Returns what is wrong with a node from which nothing was received.
fn fault_of(pulled: Pulled) -> Option<&'static str> {
    match pulled {
        Pulled::Unreached => Some("can't be reached"),
        Pulled::Unanswered => Some("doesn't answer with a frame"),
        Pulled::Misdirected => Some(
            "isn't at its address: another node answers there, or one of another group",
        ),
        _ => None,
    }
}

/// Warns of what is odd in what another node sends, once until all is well again.
fn warn_of_odd<L: Log>(log: &L, number: u8, other: NodeId, pulled: Pulled, outlook: &mut Outlook) {
    let other = other.number();
    match pulled {
        Pulled::Older => {
            if outlook.note_odd() {
                warn!(log; "node {}: node {} had more facts of its own before: its journal is an older copy", number, other);
            }
        }
        Pulled::Newer => {
            if outlook.note_odd() {
                warn!(log; "node {}: node {} has more facts of this node: the journal here is an older copy", number, other);
            }
        }
        Pulled::Lost => {
            if outlook.note_odd() {
                warn!(log; "node {}: node {} has facts of this node, but the journal here is new: if the old one is lost, start with the word anew", number, other);
            }
        }
        Pulled::Refused(refusal) => {
            if outlook.note_odd() {
                warn!(log; "node {}: can't take what node {} sends (E{})", number, other, refusal);
            }
        }
        _ => outlook.note_well(),
    }
}

/// Counts a pull that began at a moment, and warns of what it shows of another node: that nothing
/// is received from it, that it answers again, that a journal is older than what its node sent
/// before, and that what it sends can't be taken.
fn warn_of<R: Wait + Clock, L: Log>(
    rt: &R,
    log: &L,
    node: &Node,
    other: NodeId,
    began: Duration,
    pulled: Pulled,
    outlook: &mut Outlook,
) {
    let now = now(rt);
    node.counts.pull(rt, other, counted(pulled), now);
    let number = node.number();
    if let Some(what) = fault_of(pulled) {
        if outlook.note_failure(began, now) {
            warn!(log; "node {}: node {} {}", number, other.number(), what);
        }
        return;
    }
    if outlook.note_answer() {
        warn!(log; "node {}: node {} answers again", number, other.number());
    }
    warn_of_odd(log, number, other, pulled, outlook);
}

/// Pauses before a pull, and waits for news of the other node. Returns how often that node
/// announced news, or `None` if the program is to end.
fn rest_before<R: Wait + Clock>(
    rt: &R,
    node: &Node,
    other: NodeId,
    next: NextPull,
    seen: u64,
) -> Option<u64> {
    if node.core.sleep(rt, Duration::from_millis(next.pause_ms)) {
        return None;
    }
    let time = Duration::from_millis(next.wait_ms);
    node.news.wait_for(rt, other.number(), seen, time)
}

/// Pulls from another node, until the program is to end. Once the node has answered, a pull waits
/// there until there is something new, and the next one follows at once. If a pull can't wait, as
/// at a member of an older version, the node is asked at once if it is known to have something new,
/// or is to learn that this one has, provided there was a pause after the last pull; otherwise
/// twice a second while that brings anything, and every five seconds while it doesn't. A node that
/// hasn't answered yet is tried sooner. What can't be taken is asked for again after a round.
pub fn follow<R: Wait + Clock + Sockets, L: Log>(
    rt: &R,
    log: &L,
    alloc: Global,
    node: &Node,
    other: NodeId,
) {
    if node.core.wait_for_count(rt) {
        return;
    }
    let mut outlook = Outlook::new();
    let (mut seen, mut next) = (0u64, NextPull::first());
    for _ in rt.forever() {
        let began = now(rt);
        let pulled = pull_once(rt, alloc, node, other, next.waits);
        let is_held = next.is_held(began, now(rt));
        let pulled = came_to(rt, node, other, pulled);
        warn_of(rt, log, node, other, began, pulled, &mut outlook);
        node.core.note_silent(rt, other, fault_of(pulled).is_some());
        next = next.behind(pulled, is_held, node.core.asks_waiting(rt, other));
        let Some(told) = rest_before(rt, node, other, next, seen) else {
            return;
        };
        seen = told;
    }
}
