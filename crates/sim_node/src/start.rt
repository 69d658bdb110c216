// How a node's life began, and which nodes it has heard from since: what the checks know of it.

use sim_env::Halt;
use state_ids::NodeId;
use std::alloc::Global;

/// How long a node waits for the others before it stores something, in milliseconds.
const LATE_MS: u64 = 1_000;

/// The number of facts of this node that another node claimed to have when it asked, and how often
/// it has answered since.
#[derive(Clone, Copy)]
struct Claim {
    other: NodeId,
    count: u64,
    answers: u64,
}

/// The number of answers of a node after which nothing that it claimed before is waited for.
const ANSWERS: u64 = 2;

/// How a life began, and which nodes it has heard from since.
#[derive(Drop)]
pub(crate) struct Start {
    pub(crate) at: u64,
    waits_for_all: bool,
    /// The nodes that it has heard from, by their places.
    heard: Vec<usize>,
    /// The number of facts of this node that others have sent.
    told_own: u64,
    /// What others claim to have beyond that.
    claims: Vec<Claim>,
}

impl Start {
    pub(crate) fn new(alloc: Global, at: u64, waits_for_all: bool) -> Start {
        Start {
            at,
            waits_for_all,
            heard: Vec::new(alloc),
            told_own: 0,
            claims: Vec::new(alloc),
        }
    }

    /// Records that a node answered, and how many facts of this node it sent.
    pub(crate) fn hear(&mut self, place: usize, other: NodeId, told_own: u64) -> Result<(), Halt> {
        self.told_own = self.told_own.max(told_own);
        self.heard.push(place)?;
        for claim in self.claims.iter_mut() {
            if claim.other == other {
                claim.answers = claim.answers.saturating_add(1);
            }
        }
        Ok(())
    }

    /// Records that a node asked and counts this many facts of this node.
    pub(crate) fn claim(&mut self, other: NodeId, count: u64) -> Result<(), Halt> {
        self.claims.push(Claim {
            other,
            count,
            answers: 0,
        })?;
        Ok(())
    }

    /// Whether a node with this many facts of its own has all that others claim.
    fn is_met(&self, own: u64) -> bool {
        for claim in self.claims.iter() {
            if claim.answers < ANSWERS && claim.count > own {
                return false;
            }
        }
        true
    }

    /// Whether all nodes of a group, except the one at this place, have been heard from.
    fn has_heard_all(&self, place: usize, count: usize) -> bool {
        for other in 0..count {
            if other != place && !self.heard.contains(&other) {
                return false;
            }
        }
        true
    }

    /// Whether a node with `own` facts of its own, at this place of a group, may store something:
    /// the others have been heard from or, after a second, none of them has more facts of this node
    /// than the node itself.
    pub(crate) fn may_enter(&self, own: u64, place: usize, count: usize, now: u64) -> bool {
        let is_late = now >= self.at.saturating_add(LATE_MS) && !self.waits_for_all;
        self.told_own <= own && self.is_met(own) && (is_late || self.has_heard_all(place, count))
    }
}
