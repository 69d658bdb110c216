// Reasons for refusing a call.
ghost use Rattle.std.specs.Prelude.{◌≡◌, Some};
ghost use Rattle.state_facts.specs.RefusalTexts.{refusal_text};

use state_ids::{Front, LraId, LraStatus, NodeId};
use std::alloc::AllocError;
use std::fmt;

/// The reason why a call was refused. A refused call changes nothing. docs/FORMATS.md lists the
/// order in which refusals are checked.
#[derive(Clone, Copy, Debug, PartialEq, Eq)]
pub enum Refusal {
    /// E1: a text, link, number or body breaks its grammar.
    BadText,
    /// E2: the id's number is beyond the front's count of its home.
    UnknownLra,
    /// E3: the front covers the id, but no LRA with that id is held.
    NotHeld,
    /// E4: only the LRA's home accepts this call, and that home is the node given here.
    NotHome(NodeId),
    /// E5: no participant joined with this number, or it left.
    UnknownMember,
    /// E6: the LRA already wants something, and shows this status.
    NotActive(LraStatus),
    /// E7: nothing demands what is reported or forgotten. The LRA shows this status.
    NotDue(LraStatus),
    /// E8: the root is not ended, and shows this status.
    NotEnded(LraStatus),
    /// E9: a nested LRA can't be purged by itself.
    NotRoot,
    /// E10: this participant of this LRA must still be told to forget.
    StillToForget(LraId, u8),
    /// E24: this participant of this LRA must still be told that the LRA has ended.
    StillToTell(LraId, u8),
    /// E11: all 32 member numbers were given.
    MembersFull,
    /// E12: the parent has depth 8.
    DepthFull,
    /// E13: 256 LRAs of this home are held.
    LrasFull,
    /// E14: the node's last number is 281,474,976,710,655.
    NumbersSpent,
    /// E15: a base is not below this front.
    Gap(Front),
    /// E23: a record has a link for the end of its LRA, which version 1 of frames can't express.
    NeedsVersion2,
    /// E16: a frame, pull body or journal row breaks its grammar at this place.
    BadFrame(u64),
    /// E17: a request for memory was refused.
    NoMemory,
    /// E18: the journal refused a statement.
    JournalFailed,
    /// E19: the journal failed since the book was opened.
    Stopped,
    /// E20: the run has no room for one more entry.
    RunFull,
    /// E21: the trail has lost entries, and this number shows where.
    TrailLost(u64),
    /// E22: receipts and trail differ at this place.
    Strange(u64),
}

impl From<AllocError> for Refusal {
    ghost use Rattle.state_facts.specs.declared.refusal.Refusal.TheVariants.{NoMemory};

    ghost from_gives = { λ _ refusal. refusal ≡ NoMemory };

    fn from(_: AllocError) -> Refusal {
        Refusal::NoMemory
    }
}

impl fmt::Display for Refusal {
    ghost output = { λ refusal. Some (refusal_text refusal) };

    fn fmt<W: fmt::Write>(&self, f: &mut fmt::Formatter<W>) -> fmt::Result {
        match *self {
            Refusal::BadText => f.write_str("E1 BadText"),
            Refusal::UnknownLra => f.write_str("E2 UnknownLra"),
            Refusal::NotHeld => f.write_str("E3 NotHeld"),
            Refusal::NotHome(home) => write!(f, "E4 NotHome {home}"),
            Refusal::UnknownMember => f.write_str("E5 UnknownMember"),
            Refusal::NotActive(status) => write!(f, "E6 NotActive {status}"),
            Refusal::NotDue(status) => write!(f, "E7 NotDue {status}"),
            Refusal::NotEnded(status) => write!(f, "E8 NotEnded {status}"),
            Refusal::NotRoot => f.write_str("E9 NotRoot"),
            Refusal::StillToForget(id, member) => write!(f, "E10 StillToForget {id} {member}"),
            Refusal::StillToTell(id, member) => write!(f, "E24 StillToTell {id} {member}"),
            Refusal::MembersFull => f.write_str("E11 MembersFull"),
            Refusal::DepthFull => f.write_str("E12 DepthFull"),
            Refusal::LrasFull => f.write_str("E13 LrasFull"),
            Refusal::NumbersSpent => f.write_str("E14 NumbersSpent"),
            Refusal::Gap(front) => write!(f, "E15 Gap {front}"),
            Refusal::NeedsVersion2 => f.write_str("E23 NeedsVersion2"),
            Refusal::BadFrame(place) => write!(f, "E16 BadFrame {place}"),
            Refusal::NoMemory => f.write_str("E17 NoMemory"),
            Refusal::JournalFailed => f.write_str("E18 JournalFailed"),
            Refusal::Stopped => f.write_str("E19 Stopped"),
            Refusal::RunFull => f.write_str("E20 RunFull"),
            Refusal::TrailLost(number) => write!(f, "E21 TrailLost {number}"),
            Refusal::Strange(place) => write!(f, "E22 Strange {place}"),
        }
    }
}
