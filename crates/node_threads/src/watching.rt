// The thread that warns of a home that fills up, of LRAs that failed, of connections that were
// closed, and of calls that were made after they had been given up. It outlives the runs of its
// node. `node_core` decides when there is a warning (`watch.rt` there); the texts are here.

use crate::node::Node;
use log::{Log, warn};
use node_agenda::Fill;
use node_core::{
    ClaimAlarm, CopyAlarm, CopyTroubles, DiskWarning, FailureAlarm, FillAlarm, HangAlarm,
    UnloggedCount,
};
use node_sockets::now;
use state_forest::MAX_HELD;
use state_ids::NodeId;
use std::sync::Wait;
use std::time::{Clock, Duration};

/// How often it looks.
const LOOK_MS: u64 = 1_000;

/// Warns of a home of which this many places are taken.
fn warn_of<L: Log>(log: &L, number: u8, fill: &Fill) {
    if fill.is_refused {
        warn!(log; "node {}: refused to begin an LRA (E13): it holds {}, the most that a node may", number, MAX_HELD);
    } else {
        warn!(log; "node {}: holds {} LRAs of its own, of {} that it may", number, fill.taken, MAX_HELD);
    }
}

/// Warns of a disk that hangs, or reports that it answers again.
fn warn_of_disk<L: Log>(log: &L, number: u8, warning: Option<DiskWarning>) {
    match warning {
        Some(DiskWarning::Hangs(time)) => {
            let seconds = time.as_secs();
            warn!(log; "node {number}: a call has waited {seconds} s for the journal: the disk is slow, or hangs");
        }
        Some(DiskWarning::Answers(time)) => {
            let seconds = time.as_secs();
            warn!(log; "node {number}: the journal answers again, after {seconds} s");
        }
        None => {}
    }
}

/// Warns of answers and calls that didn't wait for copies, and reports when that is over; and
/// warns, once, that another process gives this node's numbers.
fn warn_of_copies<R: Wait, L: Log>(
    rt: &R,
    log: &L,
    node: &Node,
    late: &mut UnloggedCount,
    copied: &mut CopyAlarm,
    now: Duration,
) {
    let (number, copies) = (node.number(), node.wants().copies);
    let warnings = copied.note(CopyTroubles {
        is_short: node.core.is_short(rt),
        is_strange: node.core.has_strange(rt),
        is_doubted: node.core.is_doubted(rt),
    });
    let others = if copies == 1 {
        "other node"
    } else {
        "other nodes"
    };
    if let Some(count) = late.add(node.core.take_late(rt), now) {
        warn!(log; "node {number}: {count} answers or lists of callbacks were released before {copies} {others} had stored what they show");
    }
    if warnings.are_copied {
        warn!(log; "node {number}: its facts are copied to {copies} {others} again");
    }
    if warnings.is_strange {
        warn!(log; "node {number}: another node claims to have facts of this node that this node never sent");
    }
    if warnings.is_doubted {
        warn!(log; "node {number}: another node has facts of this node that this node never sent: two processes may run as this node, so it stores nothing more");
    }
}

/// Returns which node claims to have more facts of this node than it has itself, and how many, if a
/// start waits for that.
fn claim_of<R: Wait>(rt: &R, node: &Node) -> Option<(u8, u64)> {
    let own = node.core.front(rt).count(node.me);
    for number in 1..=node.nodes {
        if let Ok(other) = NodeId::new(number) {
            if let Some(claim) = node.core.claim_of(rt, other) {
                if claim > own {
                    return Some((number, claim));
                }
            }
        }
    }
    None
}

/// Warns, once, that a start has waited for seconds for what another node claims.
fn warn_of_claim<R: Wait, L: Log>(rt: &R, log: &L, node: &Node, claims: &mut ClaimAlarm) {
    let claimed = claim_of(rt, node);
    let is_due = claims.note(claimed.is_some());
    let Some((other, claim)) = claimed else {
        return;
    };
    if is_due {
        let number = node.number();
        warn!(log; "node {number}: node {other} claims to have {claim} facts of this node, more than the journal here has: nothing is stored until it answers");
    }
}

/// Until the program is to end, warns when three quarters and nine tenths of the home's places are
/// taken, and when an LRA couldn't be begun. It logs each once, and again once there was room and a
/// minute has passed. It warns of LRAs that failed, and of connections that were closed because no
/// file was left, each at most once a minute; of calls of operators that were made after they had
/// been answered E18; of a disk that hangs; of answers that didn't wait for copies; and of a start
/// that waits for what another node claims.
pub fn watch<R: Wait + Clock, L: Log>(rt: &R, log: &L, node: &Node) {
    let (mut hangs, mut fills) = (HangAlarm::new(), FillAlarm::new());
    let (mut failures, mut copied) = (FailureAlarm::new(), CopyAlarm::new());
    let (mut late, mut claims) = (UnloggedCount::new(), ClaimAlarm::new());
    let mut closed = UnloggedCount::new();
    for _ in rt.forever() {
        if node.core.sleep(rt, Duration::from_millis(LOOK_MS)) {
            return;
        }
        let now = now(rt);
        warn_of_disk(log, node.number(), hangs.note(node.core.hangs(rt)));
        let fill = node.core.fill(rt);
        if fills.note(&fill, now) {
            warn_of(log, node.number(), &fill);
        }
        if let Some(failed) = failures.note(&node.core.held(rt), now) {
            warn!(log; "node {}: LRAs of its own that failed to close or to cancel: {}", node.number(), failed);
        }
        if node.wants().any() {
            warn_of_copies(rt, log, node, &mut late, &mut copied, now);
        }
        warn_of_claim(rt, log, node, &mut claims);
        if node.take_late() > 0 {
            warn!(log; "node {}: a call at the operators' port was carried out after it had been answered E18", node.number());
        }
        let count = node.queue.take_closed();
        node.counts.close(rt, count);
        if let Some(count) = closed.add(count, now) {
            warn!(log; "node {}: {} connections were closed, because no file descriptor is left", node.number(), count);
        }
    }
}
