// Events of a world, and the replies to them.
use state_facts::{Command, CommandReply, Refusal};
use state_ids::{Front, LraId, NodeId};
use std::alloc::AllocError;
use wire_frames::Version;

/// An event of a world.
#[derive(Debug, Drop)]
pub enum Event {
    /// A node is asked to carry out a command.
    Act {
        node: NodeId,
        command: Command,
    },
    /// A node sends what it has since a base, in this version of frames.
    Send {
        node: NodeId,
        base: Front,
        version: Version,
    },
    /// The first bytes of a frame that was sent, this many, arrive at a node. Frames are numbered
    /// from 1 in the order in which they are sent.
    Deliver {
        frame: usize,
        node: NodeId,
        kept: usize,
    },
    /// A node restarts with what it holds.
    Restart {
        node: NodeId,
    },
    /// A node is told the time, and cancels an LRA whose deadline has passed.
    Tick {
        node: NodeId,
        now: u64,
    },
}

impl Clone for Event {
    ghost use Rattle.std.specs.Prelude.{◌≡◌};

    ghost is_clone = { λ x y. y ≡ x };

    fn clone(&self) -> Result<Event, AllocError> {
        match self {
            Event::Act { node, command } => Ok(Event::Act {
                node: *node,
                command: command.clone()?,
            }),
            Event::Send {
                node,
                base,
                version,
            } => Ok(Event::Send {
                node: *node,
                base: *base,
                version: *version,
            }),
            Event::Deliver { frame, node, kept } => Ok(Event::Deliver {
                frame: *frame,
                node: *node,
                kept: *kept,
            }),
            Event::Restart { node } => Ok(Event::Restart { node: *node }),
            Event::Tick { node, now } => Ok(Event::Tick {
                node: *node,
                now: *now,
            }),
        }
    }
}

/// The reply to an event.
#[derive(Clone, Copy, Debug, PartialEq, Eq)]
pub enum EventReply {
    /// The reply to a command.
    Answered(CommandReply),
    /// This frame was sent.
    Sent(usize),
    /// The frame was taken.
    Took,
    /// The node restarted.
    Restarted,
    /// This LRA was cancelled because its deadline had passed.
    Expired(LraId),
    /// No LRA of the node was overdue.
    Quiet,
    /// The event was refused, and nothing happened.
    Refused(Refusal),
}

/// A run that stopped at an event because memory ran out. The events before it got these replies,
/// and the event itself has not happened.
#[derive(Debug, Drop)]
pub struct Stopped {
    /// The replies to the events before the stop.
    pub replies: Vec<EventReply>,
}
