// Events in words.

use sim_env::{DueCall, Halt, Manner};
use state_book::Reply;
use state_facts::{Command, CommandReply, Links};
use state_ids::{Front, LraId, LraStatus, NodeId};
use std::alloc::Global;

fn of_begin(alloc: Global, parent: Option<LraId>, deadline: u64) -> Result<String, Halt> {
    match parent {
        Some(parent) => Ok(format!(in alloc; "begin in {parent} by {deadline}")?),
        None => Ok(format!(in alloc; "begin by {deadline}")?),
    }
}

fn of_join(alloc: Global, id: LraId, links: &Links) -> Result<String, Halt> {
    let (complete, status) = (links.complete().is_some(), links.status().is_some());
    let (forget, after) = (links.forget().is_some(), links.after().is_some());
    Ok(format!(in alloc;
        "join {id}, completes {complete}, status {status}, forgets {forget}, listens {after}"
    )?)
}

pub fn of_command(alloc: Global, command: &Command) -> Result<String, Halt> {
    match command {
        Command::Begin { parent, deadline } => of_begin(alloc, *parent, *deadline),
        Command::Join { id, links } => of_join(alloc, *id, links),
        Command::Leave { id, member } => Ok(format!(in alloc; "leave {id} {member}")?),
        Command::Decide { id, verdict } => Ok(format!(in alloc; "{verdict} {id}")?),
        Command::Report {
            id,
            member,
            act,
            outcome,
        } => { Ok(format!(in alloc; "report {id} {member} {act} {outcome}")?) }
        Command::Forgot { id, member } => Ok(format!(in alloc; "forgot {id} {member}")?),
        Command::Told { id, member } => Ok(format!(in alloc; "told {id} {member}")?),
        Command::Purge { root } => Ok(format!(in alloc; "purge {root}")?),
    }
}

fn of_command_reply(alloc: Global, reply: &CommandReply) -> Result<String, Halt> {
    match reply {
        CommandReply::Began(id, _) => Ok(format!(in alloc; "began {id}")?),
        CommandReply::Joined(_, member) => Ok(format!(in alloc; "member {member}")?),
        CommandReply::Decided(_, status) => Ok(format!(in alloc; "{status}")?),
        CommandReply::Refused(refusal) => Ok(format!(in alloc; "{refusal}")?),
        other => Ok(format!(in alloc; "{other:?}")?),
    }
}

fn of_reply(alloc: Global, reply: &Option<Reply>) -> Result<String, Halt> {
    match reply {
        None => Ok(format!(in alloc; "no reply")?),
        Some(Reply::Command(reply)) => of_command_reply(alloc, reply),
        Some(Reply::Refused(refusal)) => Ok(format!(in alloc; "{refusal}")?),
        Some(_) => Ok(format!(in alloc; "answered")?),
    }
}

pub fn of_text(alloc: Global, words: &str) -> Result<String, Halt> {
    Ok(format!(in alloc; "{words}")?)
}

pub fn of_asked(
    alloc: Global,
    me: NodeId,
    command: &str,
    reply: &Option<Reply>,
) -> Result<String, Halt> {
    let came = of_reply(alloc, reply)?;
    Ok(format!(in alloc; "node {me} is asked to {command}: {came}")?)
}

pub fn of_errand(alloc: Global, reply: &Option<Reply>) -> Result<String, Halt> {
    let came = of_reply(alloc, reply)?;
    Ok(format!(in alloc; "an operator's call is made: {came}")?)
}

pub fn of_entered(
    alloc: Global,
    who: &DueCall,
    heard: &str,
    reply: &Option<Reply>,
) -> Result<String, Halt> {
    let (id, member, came) = (who.id, who.member, of_reply(alloc, reply)?);
    Ok(format!(in alloc; "{id} member {member}: {heard} is stored: {came}")?)
}

pub fn of_sweep(
    alloc: Global,
    root: LraId,
    seen: LraStatus,
    reply: &Option<Reply>,
) -> Result<String, Halt> {
    let came = of_reply(alloc, reply)?;
    Ok(format!(in alloc; "the sweep of {root}, which showed {seen}: {came}")?)
}

pub fn of_taking(alloc: Global, me: NodeId, from: NodeId, front: &Front) -> Result<String, Halt> {
    Ok(format!(in alloc; "node {me} takes what node {from} sent: {front}")?)
}

pub fn of_expiry(alloc: Global, id: LraId) -> Result<String, Halt> {
    Ok(format!(in alloc; "{id} is cancelled for its deadline")?)
}

pub fn of_call(alloc: Global, who: &DueCall) -> Result<String, Halt> {
    let (kind, id, member) = (who.kind, who.id, who.member);
    Ok(format!(in alloc; "{id} member {member} is called: {kind:?}")?)
}

pub fn of_answer(alloc: Global, who: &DueCall, manner: Manner) -> Result<String, Halt> {
    let (id, member) = (who.id, who.member);
    Ok(format!(in alloc; "the host of {id} member {member} answers: {manner:?}")?)
}

pub fn of_start(alloc: Global, me: NodeId, is_older: bool) -> Result<String, Halt> {
    Ok(format!(in alloc; "node {me} starts, over an older copy: {is_older}")?)
}

pub fn of_reopening(alloc: Global, me: NodeId) -> Result<String, Halt> {
    Ok(format!(in alloc; "node {me} opens its journal again")?)
}

pub fn of_stop(alloc: Global, me: NodeId, loses_power: bool) -> Result<String, Halt> {
    Ok(format!(in alloc; "node {me} stops, and loses power: {loses_power}")?)
}

pub fn of_failure(alloc: Global, me: NodeId) -> Result<String, Halt> {
    Ok(format!(in alloc; "the disk of node {me} fails")?)
}
