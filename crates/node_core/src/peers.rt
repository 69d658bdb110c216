// What a node knows of how each other node behaves.
ghost use Rattle.std.specs.Prelude.{◌≡◌, ◌<◌, ◌-◌};
ghost use Rattle.node_core.specs.Peers.{asked_by, asks_waiting, is_silent, refusal_of, refused_by, silent_if, strangers, with_refused};

use state_ids::{MAX_NODES, NodeId};
use std::marker::Model;

/// The most nodes that there are.
const NODES: usize = MAX_NODES as usize;

/// The place of a node in a list of all.
fn place_of(node: NodeId) -> usize
    ensures is { result ≡ node - 1 }
    ensures less { result < 8 }
{
    usize::from(node.number()) - 1
}

/// What a node knows of how each other node behaves: how it asks, and how it answered last.
#[derive(Drop)]
pub struct Peers {
    /// The number of the refusal of what each node sent last.
    refused: [Option<u8>; NODES],
    /// Whether the last pull from each node failed.
    silent: [bool; NODES],
    /// Whether each node was seen to send pulls that wait, and no pull from it has failed since.
    waiting: [bool; NODES],
}

impl Model for Peers {
    ghost use Rattle.node_core.specs.Peers.{Behaviour};

    ghost Value = { Behaviour };

    ghost view = { λ p. record { refused = p.refused; silent = p.silent; waiting = p.waiting } };
}

impl Peers {
    /// Makes the state in which no node has asked or answered.
    pub fn new() -> Peers
        ensures { result ≡ strangers }
    {
        Peers {
            refused: [None; NODES],
            silent: [false; NODES],
            waiting: [false; NODES],
        }
    }

    /// Records the number of the refusal by which what another node sent was refused.
    pub fn note_refused(&mut self, other: NodeId, number: u8)
        ensures { self.new ≡ refused_by other number self.old }
    {
        self.refused[place_of(other)] = Some(number);
    }

    /// Takes the number of that refusal, if there was one since this was last asked.
    pub fn take_refused(&mut self, other: NodeId) -> Option<u8>
        ensures number { result ≡ refusal_of other self.old }
        ensures taken { self.new ≡ with_refused other None self.old }
    {
        let number = self.refused[place_of(other)];
        self.refused[place_of(other)] = None;
        number
    }

    /// Records whether the last pull from another node failed.
    pub fn note_silent(&mut self, other: NodeId, is_silent: bool)
        ensures { self.new ≡ silent_if is_silent other self.old }
    {
        self.silent[place_of(other)] = is_silent;
        if is_silent {
            self.waiting[place_of(other)] = false;
        }
    }

    /// Whether another node was seen to send pulls that wait: a node that does also holds pulls.
    pub fn asks_waiting(&self, other: NodeId) -> bool
        ensures { result ≡ asks_waiting other self.now }
    {
        self.waiting[place_of(other)]
    }

    /// Records that another node asks, by a pull that waits or doesn't, and so is alive. Returns
    /// whether the last pull from it had failed.
    pub fn note_asked(&mut self, other: NodeId, waits: bool) -> bool
        ensures was { result ≡ is_silent other self.old }
        ensures asked { self.new ≡ asked_by other waits self.old }
    {
        let was_silent = self.silent[place_of(other)];
        self.silent[place_of(other)] = false;
        if waits {
            self.waiting[place_of(other)] = true;
        }
        was_silent
    }
}
