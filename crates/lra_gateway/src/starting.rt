// Beginning an LRA.

use crate::agent::{Agent, Platform, moment};
use crate::args::Door;
use crate::asking::{NodeAnswer, Question, ask_node, ask_now};
use crate::exchange::Fail;
use crate::gateway::Group;
use crate::handing::{Handover, hand};
use crate::names::{NamedLra, lra_of, name_in, url_of};
use crate::query::{said, time_in};
use crate::reply::{LRA, ServiceAnswer, failure, made, plain, refusal};
use http::Method;
use state_ids::LraId;
use std::alloc::{AllocError, Global};
use std::thread;
use std::time::Duration;
use wire_narayana::{Repeat, id_in, text_of};

/// How long to wait before all nodes are asked again, in milliseconds.
const PAUSE_MS: u64 = 100;

/// The result of a begin.
#[derive(Drop)]
enum BeginOutcome {
    /// The answer for the service.
    Told(ServiceAnswer),
    /// No LRA was begun, so another node may be asked.
    Not,
}

fn begin_body(alloc: Global, limit: u64, parent: Option<LraId>) -> Result<String, AllocError> {
    match parent {
        Some(id) => {
            let id = text_of(alloc, id)?;
            format!(in alloc; "{{\"parent\":\"{id}\",\"limit\":{limit}}}")
        }
        None => format!(in alloc; "{{\"limit\":{limit}}}"),
    }
}

/// Makes the question that begins an LRA. It isn't repeated.
fn begin(body: &str) -> Question {
    Question {
        method: Method::POST,
        path: "/lra",
        body,
        repeat: Repeat::Never,
    }
}

/// Whether a node has no room for another LRA.
fn is_full(answer: &NodeAnswer) -> bool {
    let refused = answer.refused();
    refused.starts_with("E13") || refused.starts_with("E14")
}

/// Returns what a service is told about a begin.
fn told_of<R: Platform>(
    agent: &Agent<R>,
    group: &Group,
    answer: &NodeAnswer,
) -> Result<ServiceAnswer, Fail> {
    let alloc = agent.alloc;
    if answer.code != 201 {
        return Ok(refusal(alloc, answer)?);
    }
    let Some(id) = id_in(alloc, answer.text("lra").as_bytes())? else {
        return Err(Fail::Unheard);
    };
    let url = url_of(agent, group, id)?;
    Ok(made(alloc, 201, LRA, url)?)
}

/// Begins an LRA at a node that this gateway asks itself.
fn begin_at<R: Platform>(
    agent: &Agent<R>,
    group: &Group,
    door: &Door,
    body: &str,
) -> Result<BeginOutcome, Fail> {
    match ask_now(agent, &door.peer, &begin(body)) {
        Ok(answer) if answer.did_nothing() || is_full(&answer) => Ok(BeginOutcome::Not),
        Ok(answer) => Ok(BeginOutcome::Told(told_of(agent, group, &answer)?)),
        Err(Fail::Unsent) => Ok(BeginOutcome::Not),
        Err(fail) => Err(fail),
    }
}

/// Makes the gateway beside a node begin an LRA.
fn begin_by<R: Platform>(
    agent: &Agent<R>,
    group: &Group,
    door: &Door,
    errand: &Handover,
) -> Result<BeginOutcome, Fail> {
    match hand(agent, group, door, errand, Repeat::Never) {
        Ok(reply) => Ok(BeginOutcome::Told(reply)),
        Err(Fail::Unsent) => Ok(BeginOutcome::Not),
        Err(fail) => Err(fail),
    }
}

/// Begins an LRA at one of the nodes that this gateway asks itself, starting with the one whose
/// turn it is. The next node is asked only if the one before did nothing, so no LRA is begun twice.
fn begin_here<R: Platform>(
    agent: &Agent<R>,
    group: &Group,
    body: &str,
) -> Result<BeginOutcome, Fail> {
    let (first, count) = (group.next_turn(), group.doors.len());
    for turn in 0..count {
        let Some(door) = group.doors.get(first.wrapping_add(turn) % count) else {
            continue;
        };
        if door.operate.is_none() {
            continue;
        }
        if let BeginOutcome::Told(reply) = begin_at(agent, group, door, body)? {
            return Ok(BeginOutcome::Told(reply));
        }
    }
    Ok(BeginOutcome::Not)
}

/// Makes the gateway beside one of the other nodes begin an LRA.
fn begin_there<R: Platform>(
    agent: &Agent<R>,
    group: &Group,
    errand: &Handover,
) -> Result<BeginOutcome, Fail> {
    if errand.handed_for.is_some() {
        return Ok(BeginOutcome::Not);
    }
    for door in group.doors.iter() {
        if door.operate.is_some() {
            continue;
        }
        if let BeginOutcome::Told(reply) = begin_by(agent, group, door, errand)? {
            return Ok(BeginOutcome::Told(reply));
        }
    }
    Ok(BeginOutcome::Not)
}

/// Begins an LRA in one of the groups, starting with the one whose turn it is.
fn begin_in_turn<R: Platform>(
    agent: &Agent<R>,
    errand: &Handover,
    body: &str,
) -> Result<BeginOutcome, Fail> {
    let groups = &agent.gateway.groups;
    let (first, count) = (agent.gateway.next_turn(), groups.len());
    for turn in 0..count {
        let Some(group) = groups.get(first.wrapping_add(turn) % count) else {
            continue;
        };
        if !errand.is_for(group) {
            continue;
        }
        if let BeginOutcome::Told(reply) = begin_here(agent, group, body)? {
            return Ok(BeginOutcome::Told(reply));
        }
        if let BeginOutcome::Told(reply) = begin_there(agent, group, errand)? {
            return Ok(BeginOutcome::Told(reply));
        }
    }
    Ok(BeginOutcome::Not)
}

/// Begins an LRA that has no parent, and tries again if no node did anything.
fn begin_top<R: Platform>(
    agent: &Agent<R>,
    errand: &Handover,
    limit: u64,
) -> Result<ServiceAnswer, Fail> {
    let body = begin_body(agent.alloc, limit, None)?;
    let until = moment(agent.rt, agent.gateway.again);
    for _ in agent.rt.forever() {
        if let BeginOutcome::Told(reply) = begin_in_turn(agent, errand, body.as_str())? {
            return Ok(reply);
        }
        if errand.handed_for.is_some() || agent.is_over(until) {
            return Ok(failure(agent.alloc, Fail::Unsent)?);
        }
        thread::sleep(agent.rt, Duration::from_millis(PAUSE_MS));
    }
    unreachable!()
}

/// Begins a nested LRA at its parent's home.
fn begin_nested<R: Platform>(
    agent: &Agent<R>,
    errand: &Handover,
    parent: &NamedLra,
    limit: u64,
) -> Result<ServiceAnswer, Fail> {
    if parent.home.operate.is_none() {
        return hand(agent, parent.group, parent.home, errand, Repeat::Never);
    }
    let body = begin_body(agent.alloc, limit, Some(parent.id))?;
    let answer = ask_node(agent, parent.home, &begin(body.as_str()))?;
    told_of(agent, parent.group, &answer)
}

/// Begins an LRA: `POST /lra-coordinator/start?ClientID=..&TimeLimit=MS&ParentLRA=ID`.
pub fn start<R: Platform>(agent: &Agent<R>, errand: &Handover) -> Result<ServiceAnswer, Fail> {
    let alloc = agent.alloc;
    let query = errand.query();
    let Some(limit) = time_in(said(query, "TimeLimit")) else {
        return Ok(plain(alloc, 400, "TimeLimit")?);
    };
    let limit = if limit == 0 {
        agent.gateway.limit
    } else {
        limit
    };
    let parent = said(query, "ParentLRA");
    if parent.is_empty() {
        return begin_top(agent, errand, limit);
    }
    let parent = name_in(alloc, parent)?;
    match lra_of(agent.gateway, parent) {
        Some(parent) => begin_nested(agent, errand, &parent, limit),
        None => Ok(plain(alloc, 404, "its parent is no LRA of this coordinator")?),
    }
}
