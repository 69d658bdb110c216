// Calls to a book, and their replies.
ghost use Rattle.std.specs.Prelude.{◌≡◌};
ghost use Rattle.state_book.specs.Next.{is_move};

use crate::{Holding, Survey};
use state_facts::{Command, CommandReply, Refusal};
use state_ids::{LraId, LraStatus, MemberStatus};
use state_replica::Page;
use wire_callbacks::Duties;
use wire_frames::Delta;
use wire_http::Bytes;

/// A call to a book.
#[derive(Debug, Drop)]
pub enum Call {
    /// Carries out a command.
    Command(Command),
    /// Takes what another node sends.
    Take(Delta),
    /// Gives another node what it lacks, in answer to a pull with this body.
    Pull(Bytes),
    /// Shows an LRA.
    Status(LraId),
    /// Shows a participant.
    Member { id: LraId, member: u8 },
    /// Lists the LRAs that are held beyond this one, or from the first on.
    Page(Option<LraId>),
    /// Shows all that is held of an LRA.
    Record(LraId),
    /// Lists the LRAs that are held beyond this one, or from the first on, each with a summary of
    /// what is held of it.
    Survey(Option<LraId>),
    /// Lists the participants that are to be called.
    Duties,
    /// Cancels an LRA of this node whose deadline has passed.
    Expire,
    /// Purges the tree of a root if the tree still shows this. Otherwise shows the root.
    Sweep { root: LraId, seen: LraStatus },
}

impl Call {
    /// Whether the call moves a frame.
    pub fn is_move(&self) -> bool
        ensures { result ≡ is_move self.now }
    {
        match self {
            Call::Take(_) | Call::Pull(_) => true,
            _ => false,
        }
    }
}

/// A reply of a book.
#[derive(Debug, Drop)]
pub enum Reply {
    /// The reply to a command.
    Command(CommandReply),
    /// What the other node sent was taken.
    Took,
    /// What the other node lacks.
    Gave(Delta),
    /// An LRA shows this.
    Shown(LraId, LraStatus),
    /// A participant shows this.
    ShownMember(LraId, u8, MemberStatus),
    /// The LRAs that are held.
    Listed(Page),
    /// All that is held of an LRA.
    Held(Holding),
    /// The LRAs that are held, each as a summary.
    Surveyed(Survey),
    /// The participants that are to be called.
    Due(Duties),
    /// This LRA was cancelled because its deadline had passed.
    Expired(LraId),
    /// No LRA of the node was overdue.
    Quiet,
    /// A call other than a command was refused.
    Refused(Refusal),
}

/// A call of a run, with the moment at which it was made and its reply.
#[derive(Debug, Drop)]
pub struct Entry {
    pub call: Call,
    pub moment: u64,
    pub reply: Reply,
}

/// What a caller keeps of a call: its index in the trail, and its call and reply there.
#[derive(Debug, Drop)]
pub struct Receipt {
    pub index: u64,
    pub call: Call,
    pub reply: Reply,
}
