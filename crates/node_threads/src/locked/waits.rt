// The threads of a node that wait: for the node's facts to be counted, for a telling to be taken, for a
// participant that is to be called.

use crate::locked::Core;
use node_schedule::StartedCall;
use state_ids::{Front, NodeId};
use std::sync::{CondvarTimeouts, Wait};
use std::time::{Clock, Duration};

impl Core {
    /// Waits until it is known how many facts the node has, or until the program is to end. Returns
    /// whether it is to end.
    pub(crate) fn wait_for_count<R: Wait>(&self, rt: &R) -> bool {
        let held = self.changed.wait_while(
            rt,
            self.held.lock(rt),
            |held| !held.state.mail.is_counted() && !held.state.mail.has_ended(),
        );
        held.state.mail.has_ended()
    }

    /// Waits until nothing that another node sent waits for its turn to be taken, or until the program
    /// is to end. So a node whose journal is slow isn't sent the same again and again.
    pub(crate) fn wait_for_turn<R: Wait>(&self, rt: &R, other: NodeId) {
        let _held = self.changed.wait_while(rt, self.held.lock(rt), |held| {
            held.state.mail.queues(other) && !held.state.mail.has_ended()
        });
    }

    /// Waits until this node has what a front counts, until one more telling of the other node is
    /// taken, put back or given up, until this time is over, or until the program is to end. Returns
    /// whether this node has what the front counts.
    pub(crate) fn wait_until_taken<R: Wait + Clock>(
        &self,
        rt: &R,
        other: NodeId,
        seen: u64,
        front: &Front,
        time: Duration,
    ) -> bool {
        let (held, _) = self
            .changed
            .wait_timeout_while(rt, self.held.lock(rt), time, |held| {
                let is_over = held.state.mail.ended(other) > seen || held.state.mail.has_ended();
                !is_over && !front.below(&held.state.mail.front())
            });
        front.below(&held.state.mail.front())
    }

    /// Returns a participant that is to be called. It waits for one whose host may be called, and
    /// returns `None` once the program is to end.
    pub(crate) fn next_duty<R: Wait>(&self, rt: &R) -> Option<StartedCall> {
        let mut held = self.due.wait_while(rt, self.held.lock(rt), |held| {
            !held.state.mail.may_call() && !held.state.mail.has_ended()
        });
        let due = held.state.mail.take_due();
        if held.state.mail.may_call() {
            self.due.notify_one();
        }
        due
    }

    /// Waits for this long, or until the program is to end. Returns whether it is to end.
    pub(crate) fn sleep<R: Wait + Clock>(&self, rt: &R, time: Duration) -> bool {
        let (held, _) = self.changed.wait_timeout_while(
            rt,
            self.held.lock(rt),
            time,
            |held| !held.state.mail.has_ended(),
        );
        held.state.mail.has_ended()
    }
}
