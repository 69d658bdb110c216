// What has to be known about calls, commands, facts and replies.

use node_effects::{CallNotes, body_of_all};
use sim_env::Halt;
use state_book::{Call, Reply};
use state_facts::{Body, Command, CommandReply, Fact};
use state_ids::{Front, LraId, MAX_NODES, NodeId, Verdict};
use std::alloc::{AllocError, Global};

/// What has to be known about a call once it is made.
#[derive(Drop)]
pub struct CallSummary {
    pub command: Option<Command>,
    /// The front to which the frame leads that the call takes.
    pub taken: Option<Front>,
    pub is_sweep: bool,
    /// What a node's state needs to know of it.
    pub notes: CallNotes,
}

fn command_in(call: &Call) -> Result<Option<Command>, AllocError> {
    match call {
        Call::Command(command) => Ok(Some(command.clone()?)),
        Call::Sweep { root, .. } => Ok(Some(Command::Purge { root: *root })),
        _ => Ok(None),
    }
}

fn taken_in(call: &Call) -> Option<Front> {
    match call {
        Call::Take(delta) => Some(delta.front()),
        _ => None,
    }
}

fn is_sweep(call: &Call) -> bool {
    matches!(call, Call::Sweep { .. })
}

impl CallSummary {
    pub fn of(call: &Call) -> Result<CallSummary, Halt> {
        Ok(CallSummary {
            command: command_in(call)?,
            taken: taken_in(call),
            is_sweep: is_sweep(call),
            notes: CallNotes::of(call),
        })
    }
}

/// Makes the pull of a node that has all facts that there can be in a group of `nodes` nodes.
pub fn pull_of_all(alloc: Global, nodes: u8) -> Result<Call, Halt> {
    Ok(Call::Pull(body_of_all(alloc, nodes.clamp(1, MAX_NODES))?))
}

/// Returns the LRA that a command names.
pub fn named_by(command: &Command) -> Option<LraId> {
    match command {
        Command::Begin { parent, .. } => *parent,
        Command::Purge { root } => Some(*root),
        Command::Join { id, .. }
        | Command::Leave { id, .. }
        | Command::Decide { id, .. }
        | Command::Report { id, .. }
        | Command::Forgot { id, .. }
        | Command::Told { id, .. } => Some(*id),
    }
}

/// Returns the LRA that a call's command names, if the call is a command.
pub fn named_in(asked: &CallSummary) -> Option<LraId> {
    match &asked.command {
        Some(command) => named_by(command),
        None => None,
    }
}

/// Returns the front to which a frame leads, if it was taken.
pub fn taken_by(asked: &CallSummary, reply: &Reply) -> Option<Front> {
    match reply {
        Reply::Took => asked.taken,
        _ => None,
    }
}

/// Returns the root that a call was to purge, if it was purged.
pub fn purged_root(asked: &CallSummary, reply: &Reply) -> Option<LraId> {
    match (&asked.command, reply) {
        (Some(Command::Purge { root }), Reply::Command(CommandReply::Purged)) => Some(*root),
        _ => None,
    }
}

/// Returns the member number that a command was given, or 0 if it was given none, provided that it
/// stored anything.
fn given_by(reply: &CommandReply) -> Option<u8> {
    match reply {
        CommandReply::Known | CommandReply::Refused(_) => None,
        CommandReply::Joined(_, member) => Some(*member),
        _ => Some(0),
    }
}

/// Returns what a call of a node stored, if it had this reply: the body of a fact.
pub fn stored(asked: CallSummary, reply: &Reply) -> Option<Body> {
    let given = match reply {
        Reply::Expired(id) => return Some(cancel(*id)),
        Reply::Command(reply) => given_by(reply),
        _ => None,
    };
    let (Some(given), Some(command)) = (given, asked.command) else {
        return None;
    };
    Some(body_of(command, given))
}

/// Returns the decision that cancels an LRA.
pub fn cancel(id: LraId) -> Body {
    Body::Decide {
        id,
        verdict: Verdict::Cancel,
    }
}

/// Returns the fact that a command stores, if a participant that joins gets this member number.
pub fn body_of(command: Command, given: u8) -> Body {
    match command {
        Command::Begin { parent, deadline } => Body::Begin { parent, deadline },
        Command::Join { id, links } => Body::Join {
            id,
            member: given,
            links,
        },
        Command::Leave { id, member } => Body::Leave { id, member },
        Command::Decide { id, verdict } => Body::Decide { id, verdict },
        Command::Report {
            id,
            member,
            act,
            outcome,
        } => Body::Report {
            id,
            member,
            act,
            outcome,
        },
        Command::Forgot { id, member } => Body::Forgot { id, member },
        Command::Told { id, member } => Body::Told { id, member },
        Command::Purge { root } => Body::Purge { root },
    }
}
