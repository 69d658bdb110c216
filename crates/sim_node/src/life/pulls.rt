// The pulls of a node in both directions.

use crate::life::{Awaited, Life, at};
use node_core::{AskedPull, Receipt};
use node_inbox::Telling;
use node_replication::PullDecision;
use sim_env::Halt;
use sim_runs::Runs;
use state_ids::{Front, LAST_NUMBER, NodeId};

/// Whether what another node sent counts.
fn is_heard(receipt: Receipt) -> bool {
    !matches!(
        receipt,
        Receipt::Unanswered | Receipt::Lost | Receipt::Outdated
    )
}

/// Pulls of this node.
impl<R: Runs> Life<R> {
    /// Returns the front from which the node pulls from another one, once it knows what it has, and
    /// how often that one has begun anew, as far as it knows.
    pub fn asks_from(&self, other: NodeId) -> Option<(Front, u64)> {
        if self.state.mail.is_counted() {
            Some((self.state.mail.front(), self.state.asks.times_anew(other)))
        } else {
            None
        }
    }

    /// Whether something that a node sent waits for its turn to be taken. That node isn't asked
    /// before.
    pub fn queues(&self, from: NodeId) -> bool {
        self.state.mail.queues(from)
    }

    /// Receives what the node at a place sent, which was asked with the front `asked` and had begun
    /// anew `seen` times then.
    pub fn hear_telling(
        &mut self,
        teller: usize,
        asked: &Front,
        seen: u64,
        telling: Telling,
    ) -> Result<(), Halt> {
        let (from, front) = (telling.from(), telling.front());
        self.awaited.push(Awaited { from, front })?;
        let (receipt, left) = self.state.receive(asked, seen, telling);
        self.forget_left(left);
        if is_heard(receipt) {
            self.start.hear(teller, from, front.count(self.me))?;
        }
        Ok(())
    }

    /// Notes that a telling with this front is taken or given up.
    pub(crate) fn forget_awaited(&mut self, from: NodeId, front: &Front) {
        let one = Awaited {
            from,
            front: *front,
        };
        match self.awaited.iter().position(|other| *other == one) {
            Some(place) if place < self.awaited.len() => {
                let _gone = self.awaited.remove(place);
            }
            _ => {}
        }
    }

    /// Notes that a telling wasn't kept, or that another took its place, if there is one.
    pub(crate) fn forget_left(&mut self, left: Option<Telling>) {
        if let Some(telling) = left {
            self.forget_awaited(telling.from(), &telling.front());
        }
    }
}

/// Pulls of other nodes.
impl<R: Runs> Life<R> {
    /// Hears a pull of another node, the first time or again. Returns what happens to it.
    pub fn hear_pull(&mut self, pull: &AskedPull, now: u64) -> Result<PullDecision, Halt> {
        if pull.since.is_none() {
            self.note_claim(pull.from, &pull.front)?;
        }
        let (decision, _was_silent) = self.state.hear_pull(pull, at(now));
        Ok(decision)
    }

    /// Notes how many facts of this node another one claims to have when it asks, if it claims any.
    fn note_claim(&mut self, other: NodeId, told: &Front) -> Result<(), Halt> {
        let (theirs, ours) = (told.count(self.me), self.known().count(self.me));
        if theirs > ours && theirs < LAST_NUMBER {
            self.start.claim(other, theirs)?;
        }
        Ok(())
    }

    /// Hears somebody who asks in another node's name, while commands are accepted: then nothing is
    /// waited for that it claims.
    pub fn hear_other_name(&mut self, pull: &AskedPull, now: u64) {
        let (_decision, _was_silent) = self.state.hear_pull(pull, at(now));
    }

    /// Whether a node that asks is owed facts of its own: it sent them here, and they aren't stored
    /// yet.
    pub fn is_owed(&self, from: NodeId, asks: &Front) -> bool {
        self.state.mail.is_owed(from, asks)
    }

    /// Whether something that a node sent is neither taken nor given up.
    pub fn waits_for(&self, from: NodeId) -> bool {
        for one in self.awaited.iter() {
            if one.from == from {
                return true;
            }
        }
        false
    }
}
