// How many facts of this node the other nodes have.
ghost use Rattle.std.specs.Prelude.{◌≡◌, ◌<◌, ◌+◌, ◌≤◌, length, replicate};
ghost use Rattle.state_ids.specs.declared.TheConstants.{MAX_NODES};
ghost use Rattle.node_replication.specs.Spreads.{have, holders, is_holder, is_other, with_told};

use state_ids::{Front, NodeId};

/// Whether the node at a position is not this one, and reported at least this many facts.
fn is_holder(told: &[u64], me: NodeId, least: u64, place: usize) -> bool
    requires { place < length told.now }
    ensures { result ≡ is_holder me least told.now (place + 1) }
{
    place + 1 != usize::from(me.number()) && least <= told[place]
}

/// Returns how many other nodes reported at least this many facts.
fn holders(told: &[u64], me: NodeId, least: u64) -> usize
    ensures { result ≡ holders me least told.now }
{
    let mut found = 0;
    for place in 0..told.len() {
        if is_holder(told, me, least, place) {
            found += 1;
        }
    }
    found
}

/// How many facts of this node each other node reported to have.
#[derive(Drop)]
pub(crate) struct Acknowledgements {
    pub(crate) me: NodeId,
    /// How many other nodes are to have a fact.
    pub(crate) wanted: u8,
    pub(crate) told: Front,
}

impl Acknowledgements {
    pub(crate) fn new(me: NodeId, nodes: u8, wanted: u8) -> Acknowledgements
        requires { (1 ≤ nodes) × (nodes ≤ MAX_NODES) }
        ensures { result ≡ record { me = me; wanted = wanted; told = replicate nodes 0 } }
    {
        Acknowledgements {
            me,
            wanted,
            told: Front::zero(usize::from(nodes)),
        }
    }

    /// Whether a node is one of the others.
    pub(crate) fn has(&self, node: NodeId) -> bool
        ensures { result ≡ is_other node self.now }
    {
        node != self.me && usize::from(node.number()) <= self.told.nodes()
    }

    /// Whether as many others as are wanted have at least this many facts.
    pub(crate) fn have(&self, least: u64) -> bool
        ensures { result ≡ have self.now least }
    {
        usize::from(self.wanted) <= holders(self.told.as_slice(), self.me, least)
    }

    /// Records that another node has this many facts.
    pub(crate) fn note(&mut self, other: NodeId, count: u64)
        requires { other ≤ length self.old.told }
        ensures { self.new ≡ with_told other count self.old }
    {
        self.told.set(other, count);
    }
}
