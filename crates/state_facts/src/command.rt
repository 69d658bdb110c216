// Commands to a node, and their replies.
use crate::{Links, Refusal};
use state_ids::{Act, LraId, LraStatus, Outcome, Verdict};

/// A command that a node is asked to carry out.
#[derive(Clone, Debug, PartialEq, Drop)]
pub enum Command {
    /// Begins an LRA, top-level or nested. The deadline is in milliseconds, 0 for none.
    Begin {
        parent: Option<LraId>,
        deadline: u64,
    },
    /// Lets a participant join an LRA.
    Join {
        id: LraId,
        links: Links,
    },
    /// Lets a participant leave an LRA.
    Leave {
        id: LraId,
        member: u8,
    },
    /// Closes or cancels an LRA.
    Decide {
        id: LraId,
        verdict: Verdict,
    },
    /// Records the outcome that a participant reported of an act.
    Report {
        id: LraId,
        member: u8,
        act: Act,
        outcome: Outcome,
    },
    /// Records that a participant was told to forget.
    Forgot {
        id: LraId,
        member: u8,
    },
    /// Records that a participant was told that its LRA has ended.
    Told {
        id: LraId,
        member: u8,
    },
    /// Removes a root and everything nested in it.
    Purge {
        root: LraId,
    },
}

/// The reply to a command.
#[derive(Clone, Copy, Debug, PartialEq, Eq)]
pub enum CommandReply {
    /// An LRA with this id was begun. The number is its member number in its parent, or 0 if it has
    /// no parent.
    Began(LraId, u8),
    /// The participant joined this LRA with this member number.
    Joined(LraId, u8),
    /// The participant left.
    Left,
    /// The LRA was closed or cancelled, and now shows this status.
    Decided(LraId, LraStatus),
    /// The reported outcome was recorded.
    Reported,
    /// The fact was already known, and nothing was recorded.
    Known,
    /// The node recorded that the participant was told to forget.
    Forgotten,
    /// The node recorded that the participant was told that its LRA has ended.
    Told,
    /// The root was removed, with everything nested in it.
    Purged,
    /// The command was refused, and nothing was recorded.
    Refused(Refusal),
}
