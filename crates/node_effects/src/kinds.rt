// As what a call of the desk is counted, and by which number its refusal.
ghost use Rattle.std.specs.Prelude.{◌≡◌};
ghost use Rattle.node_effects.specs.Kinds.{call_kind, command_kind, number_of, refused_by, refused_in};

use node_core::CallKind;
use state_book::{Call, Reply};
use state_facts::{Command, CommandReply, Refusal};
use state_ids::Verdict;

/// Returns as what a command is counted.
fn command_kind(command: &Command) -> CallKind
    ensures { result ≡ command_kind command.now }
{
    match command {
        Command::Begin { .. } => CallKind::Begin,
        Command::Join { .. } => CallKind::Join,
        Command::Leave { .. } => CallKind::Leave,
        Command::Decide {
            verdict: Verdict::Close,
            ..
        } => CallKind::Close,
        Command::Decide { .. } => CallKind::Cancel,
        Command::Report { .. } => CallKind::Report,
        Command::Forgot { .. } => CallKind::Forgot,
        Command::Told { .. } => CallKind::Told,
        Command::Purge { .. } => CallKind::Purge,
    }
}

/// Returns as what a call of the desk is counted.
pub fn call_kind(call: &Call) -> CallKind
    ensures { result ≡ call_kind call.now }
{
    match call {
        Call::Command(command) => command_kind(command),
        Call::Take(_) => CallKind::Take,
        Call::Pull(_) => CallKind::Pull,
        Call::Status(_) => CallKind::Status,
        Call::Member { .. } => CallKind::Member,
        Call::Page(_) => CallKind::Page,
        Call::Record(_) => CallKind::Record,
        Call::Survey(_) => CallKind::Survey,
        Call::Duties => CallKind::Duties,
        Call::Expire => CallKind::Expire,
        Call::Sweep { .. } => CallKind::Purge,
    }
}

/// Returns the number of a refusal, 1 to 24: the one in its text, E1 to E24.
pub fn number_of(refusal: &Refusal) -> u8
    ensures { result ≡ number_of refusal.now }
{
    match refusal {
        Refusal::BadText => 1,
        Refusal::UnknownLra => 2,
        Refusal::NotHeld => 3,
        Refusal::NotHome(_) => 4,
        Refusal::UnknownMember => 5,
        Refusal::NotActive(_) => 6,
        Refusal::NotDue(_) => 7,
        Refusal::NotEnded(_) => 8,
        Refusal::NotRoot => 9,
        Refusal::StillToForget(_, _) => 10,
        Refusal::MembersFull => 11,
        Refusal::DepthFull => 12,
        Refusal::LrasFull => 13,
        Refusal::NumbersSpent => 14,
        Refusal::Gap(_) => 15,
        Refusal::BadFrame(_) => 16,
        Refusal::NoMemory => 17,
        Refusal::JournalFailed => 18,
        Refusal::Stopped => 19,
        Refusal::RunFull => 20,
        Refusal::TrailLost(_) => 21,
        Refusal::Strange(_) => 22,
        Refusal::NeedsVersion2 => 23,
        Refusal::StillToTell(_, _) => 24,
    }
}

fn refused_in(reply: &CommandReply) -> Option<u8>
    ensures { result ≡ refused_in reply.now }
{
    match reply {
        CommandReply::Refused(refusal) => Some(number_of(refusal)),
        _ => None,
    }
}

/// Returns the number of the refusal in a reply, if there is one.
pub fn refused_by(reply: &Reply) -> Option<u8>
    ensures { result ≡ refused_by reply.now }
{
    match reply {
        Reply::Command(reply) => refused_in(reply),
        Reply::Refused(refusal) => Some(number_of(refusal)),
        _ => None,
    }
}
