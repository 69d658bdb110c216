// Works out the effects of a call at the desk that the threads go on with.
ghost use Rattle.std.specs.Prelude.{◌≡◌, MatchBool};
ghost use Rattle.node_effects.specs.Noting.{became_by, became_of, enters, freed_by, heard_by, heard_if, is_completion, is_own, is_said, is_stored, is_taken, news_by, news_of, noted_by, nothing, said_by, told_by};

use node_agenda::{Became, Effects, NewlyDue};
use node_schedule::Called;
use state_book::{Call, Reply};
use state_facts::{Command, CommandReply, Refusal};
use state_ids::{Act, LraId};

/// Whether a call may store a fact of the node's own.
pub fn enters(call: &Call) -> bool
    ensures { result ≡ enters call.now }
{
    matches!(call, Call::Command(_) | Call::Expire | Call::Sweep { .. })
}

/// Whether a call reports a completion: that makes no other participant due, unless it is the last
/// one to complete.
pub fn is_completion(call: &Call) -> bool
    ensures { result ≡ is_completion call.now }
{
    matches!(
        call,
        Call::Command(Command::Report {
            act: Act::Complete,
            ..
        })
    )
}

/// Returns the LRA of which a command says that a participant was notified as it was to be.
fn told_by(command: &Command) -> Option<LraId>
    ensures { result ≡ told_by command.now }
{
    match command {
        Command::Forgot { id, .. } | Command::Told { id, .. } => Some(*id),
        _ => None,
    }
}

/// Returns the LRA of which a call says this.
pub fn freed_by(call: &Call) -> Option<LraId>
    ensures { result ≡ freed_by call.now }
{
    match call {
        Call::Command(command) => told_by(command),
        _ => None,
    }
}

/// Returns the participant whose outcome a command reports: that it did what it was asked for, or
/// was notified.
fn said_by(command: &Command) -> Option<Called>
    ensures { result ≡ said_by command.now }
{
    let (id, member, of_end) = match command {
        Command::Report { id, member, .. } => (*id, *member, false),
        Command::Forgot { id, member } => (*id, *member, false),
        Command::Told { id, member } => (*id, *member, true),
        _ => return None,
    };
    Some(Called { id, member, of_end })
}

/// Returns the participant whose outcome a call reports.
pub fn heard_by(call: &Call) -> Option<Called>
    ensures { result ≡ heard_by call.now }
{
    match call {
        Call::Command(command) => said_by(command),
        _ => None,
    }
}

/// Whether what was reported of a participant was recorded.
fn is_said(reply: &Reply) -> bool
    ensures { result ≡ is_said reply.now }
{
    matches!(
        reply,
        Reply::Command(CommandReply::Reported | CommandReply::Forgotten | CommandReply::Told)
    )
}

/// Returns the participant whose outcome was reported, if that was recorded.
fn heard_if(heard: &Option<Called>, reply: &Reply) -> Option<Called>
    ensures { result ≡ heard_if heard.now reply.now }
{
    if is_said(reply) { *heard } else { None }
}

fn news_by(completes: bool, reply: &CommandReply) -> NewlyDue
    ensures { result ≡ news_by completes reply.now }
{
    match reply {
        CommandReply::Decided(_, _) | CommandReply::Forgotten => NewlyDue::Others,
        CommandReply::Told => NewlyDue::OfCompletion,
        CommandReply::Reported => {
            if completes {
                NewlyDue::OfCompletion
            } else {
                NewlyDue::Others
            }
        }
        _ => NewlyDue::Nobody,
    }
}

/// Returns whether other participants may be due after this reply.
fn news_of(completes: bool, reply: &Reply) -> NewlyDue
    ensures { result ≡ news_of completes reply.now }
{
    match reply {
        Reply::Took | Reply::Expired(_) => NewlyDue::Others,
        Reply::Command(reply) => news_by(completes, reply),
        _ => NewlyDue::Nobody,
    }
}

fn became_by(reply: &CommandReply) -> Became
    ensures { result ≡ became_by reply.now }
{
    match reply {
        CommandReply::Began(_, _) => Became::Begun,
        CommandReply::Refused(refusal) => {
            if *refusal == Refusal::LrasFull {
                Became::Full
            } else {
                Became::Nothing
            }
        }
        CommandReply::Purged => Became::Removed,
        CommandReply::Decided(_, _) | CommandReply::Reported => Became::Ended,
        _ => Became::Nothing,
    }
}

/// Returns what may have changed of an LRA, given this reply.
fn became_of(reply: &Reply) -> Became
    ensures { result ≡ became_of reply.now }
{
    match reply {
        Reply::Took | Reply::Expired(_) => Became::Ended,
        Reply::Command(reply) => became_by(reply),
        _ => Became::Nothing,
    }
}

/// Whether a frame was taken.
pub fn is_taken(reply: &Reply) -> bool
    ensures { result ≡ is_taken reply.now }
{
    matches!(reply, Reply::Took)
}

/// Returns the effects of a call with this reply: whether it reported a completion, and if it named
/// one, the LRA of which a participant was notified and the participant whose outcome it reported.
pub fn noted_by(
    completes: bool,
    freed: &Option<LraId>,
    heard: &Option<Called>,
    reply: &Reply,
) -> Effects
    ensures { result ≡ noted_by completes freed.now heard.now reply.now }
{
    Effects {
        news: news_of(completes, reply),
        became: became_of(reply),
        freed: *freed,
        heard: heard_if(heard, reply),
        took: is_taken(reply),
    }
}

/// Whether there are any effects.
pub fn is_any(noted: &Effects) -> bool
    ensures { MatchBool result (noted.now ≡ nothing → ⊥) (noted.now ≡ nothing) }
{
    noted.news != NewlyDue::Nobody
        || noted.became != Became::Nothing
        || noted.freed.is_some()
        || noted.heard.is_some()
        || noted.took
}

/// Whether a fact was stored before this reply.
pub fn is_stored(reply: &Reply) -> bool
    ensures { result ≡ is_stored reply.now }
{
    match reply {
        Reply::Command(CommandReply::Known | CommandReply::Refused(_)) => false,
        Reply::Command(_) | Reply::Took | Reply::Expired(_) => true,
        _ => false,
    }
}

/// Whether a fact of the node's own was stored before this reply, rather than a fact that another
/// node sent.
pub fn is_own_fact(reply: &Reply) -> bool
    ensures { result ≡ is_own reply.now }
{
    is_stored(reply) && !is_taken(reply)
}
