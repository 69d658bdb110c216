// What the state needs to know of a call at the desk: before it is made, while it is made, and of its
// reply.
use node_agenda::Effects;
use state_ids::Front;
use std::marker::Model;

/// Whose thread makes a call.
#[derive(Clone, Copy, Debug, PartialEq, Eq)]
pub enum Caller {
    /// A worker, which answers a client or another node.
    Worker,
    /// The writer thread, which answers nobody.
    Writer,
}

/// What is known of a call before it is made.
#[derive(Clone, Copy)]
pub struct AskedCall {
    /// Whether it may store a fact of the node's own.
    pub enters: bool,
    /// Whether it asks for a frame.
    pub pulls: bool,
}

/// What a call that is being made means for the nodes that pull from this one.
#[derive(Clone, Copy, Debug, PartialEq, Eq)]
pub(crate) enum CallStep {
    /// It may store a fact of the node.
    Enters,
    /// It asks for a frame, with this ticket.
    Asks(u64),
    Other,
}

/// The leave to make one call. It can't be dropped: it is handed back when the call is over
/// (`NodeState::settle`, `NodeState::give_up`), so each call that begins ends once.
pub struct Admission {
    pub(crate) caller: Caller,
    pub(crate) place: usize,
    pub(crate) step: CallStep,
}

impl Model for Admission {
    ghost use Rattle.node_core.specs.Calls.{Admitted};

    ghost Value = { Admitted };

    ghost view = { λ a. record { caller = a.caller; place = a.place; step = a.step } };
}

/// What a reply means for the nodes that pull from this one.
#[derive(Clone, Copy, Debug, PartialEq, Eq)]
pub enum ReplyKind {
    /// A fact of the node was stored.
    Stored,
    /// A frame with this front was given.
    Gave(Front),
    Other,
}

/// What a call resulted in.
#[derive(Clone, Copy)]
pub struct CallResult {
    pub kind: ReplyKind,
    pub effects: Effects,
    /// How many calls of a run it counts as.
    pub weight: u64,
    /// Whether it moved a frame.
    pub is_move: bool,
    /// Whether any fact was stored, of this node or of others.
    pub is_stored: bool,
}
