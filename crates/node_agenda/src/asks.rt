// How many facts of its own each other node counted when it asked this one.
ghost use Rattle.std.specs.Prelude.{◌≡◌, ◌≤◌};
ghost use Rattle.state_ids.specs.declared.TheConstants.{MAX_NODES};
ghost use Rattle.node_agenda.specs.Asks.{asked_by, is_of_before, times_anew, unasked};

use crate::start_state::count_at;
use state_ids::{Front, MAX_NODES, NodeId};
use std::marker::Model;

/// How many facts of its own each other node counted when it asked this one. A node that counts
/// fewer than before has begun anew, over a lost or an older journal. What it sent before that, and
/// comes only now, is not to be taken, because the node may give the same numbers to other facts.
#[derive(Drop)]
pub struct Asks {
    own: Front,
    anew: Front,
}

impl Model for Asks {
    ghost use Rattle.node_agenda.specs.Asks.{Asks};

    ghost Value = { Asks };

    ghost view = { λ a. record { own = a.own; anew = a.anew } };
}

impl Asks {
    /// Makes the record of a group of `nodes` nodes, 1 to 8, of which none has asked yet.
    pub fn new(nodes: u8) -> Asks
        requires { (1 ≤ nodes) × (nodes ≤ MAX_NODES) }
        ensures { result ≡ unasked nodes }
    {
        Asks {
            own: Front::zero(usize::from(nodes)),
            anew: Front::zero(usize::from(nodes)),
        }
    }

    /// Records that a node asks, and counts this many facts of its own.
    pub fn hear(&mut self, other: NodeId, own: u64)
        ensures { self.new ≡ asked_by other own self.old }
    {
        if own < self.own.count(other) {
            let times = self.anew.count(other).saturating_add(1);
            self.anew = count_at(other, times, self.anew);
        }
        self.own = count_at(other, own, self.own);
    }

    /// Returns how often a node began anew, as far as it has asked since.
    pub fn times_anew(&self, other: NodeId) -> u64
        ensures { result ≡ times_anew other self.now }
    {
        self.anew.count(other)
    }

    /// Whether what a node sent is from before it began anew. `told` is the number of its own facts
    /// that it sent, and `seen` how often it had begun anew when it was asked for that.
    pub fn is_of_before(&self, other: NodeId, seen: u64, told: u64) -> bool
        ensures { result ≡ is_of_before other seen told self.now }
    {
        self.anew.count(other) != seen && self.own.count(other) < told
    }
}
