// Lists of LRAs, and recovery.

use crate::agent::{Agent, Platform};
use crate::args::Door;
use crate::asking::{NodeAnswer, Question, ask_node, ask_now, look_at};
use crate::ending::status_in_time;
use crate::exchange::Fail;
use crate::gateway::Group;
use crate::handing::{Handover, hand};
use crate::names::{NamedLra, url_of};
use crate::query::said;
use crate::reply::{ServiceAnswer, json, plain, refusal};
use crate::status_groups::{is_failed, is_recovering};
use http::Method;
use serde_json::Value;
use state_ids::{LraId, LraStatus};
use wire_narayana::{Repeat, id_in, text_of};

/// The most pages of a list: eight homes of 256 LRAs.
const MAX_PAGES: usize = 64;

/// The LRAs that a list has.
#[derive(Clone, Copy, PartialEq, Eq, Debug)]
pub enum ListFilter {
    All,
    Status(LraStatus),
    Recovering,
    Failed,
}

fn is_wanted(wanted: ListFilter, status: LraStatus) -> bool {
    match wanted {
        ListFilter::All => true,
        ListFilter::Status(other) => status == other,
        ListFilter::Recovering => is_recovering(status),
        ListFilter::Failed => is_failed(status),
    }
}

/// Adds what is known about an LRA to an array.
fn push_data<R: Platform>(
    agent: &Agent<R>,
    text: &mut String,
    group: &Group,
    id: LraId,
    status: LraStatus,
) -> Result<(), Fail> {
    let alloc = agent.alloc;
    let comma = if text.len() > 1 { "," } else { "" };
    let url = url_of(agent, group, id)?;
    let (url, name, recovering) = (url.as_str(), status.name(), is_recovering(status));
    let data = format!(in alloc;
        "{comma}{{\"lraId\":\"{url}\",\"status\":\"{name}\",\"recovering\":{recovering}}}"
    )?;
    text.push_str(data.as_str())?;
    Ok(())
}

/// Returns what is known about an LRA: `GET /lra-coordinator/UID`.
pub fn info<R: Platform>(agent: &Agent<R>, lra: &NamedLra) -> Result<ServiceAnswer, Fail> {
    let answer = status_in_time(agent, lra)?;
    let Ok(status) = LraStatus::from_name(answer.text("status")) else {
        return Ok(refusal(agent.alloc, &answer)?);
    };
    let mut text = String::new(agent.alloc);
    push_data(agent, &mut text, lra.group, lra.id, status)?;
    Ok(json(text))
}

/// Returns the text of a member of a row, empty if there is none.
fn text_of_row<'a>(row: &'a Value, name: &str) -> &'a str {
    row.get(name).and_then(Value::as_str).unwrap_or("")
}

/// Adds the wanted rows of a page.
fn push_page<R: Platform>(
    agent: &Agent<R>,
    text: &mut String,
    group: &Group,
    page: &NodeAnswer,
    wanted: ListFilter,
) -> Result<(), Fail> {
    let Some(rows) = page.list("lras") else {
        return Err(Fail::Unheard);
    };
    for row in rows.iter() {
        let id = id_in(agent.alloc, text_of_row(row, "lra").as_bytes())?;
        let status = LraStatus::from_name(text_of_row(row, "status"));
        let (Some(id), Ok(status)) = (id, status) else {
            return Err(Fail::Unheard);
        };
        if is_wanted(wanted, status) {
            push_data(agent, text, group, id, status)?;
        }
    }
    Ok(())
}

/// Returns what a node lists, page by page, as an array.
fn listed<R: Platform>(
    agent: &Agent<R>,
    group: &Group,
    door: &Door,
    wanted: ListFilter,
) -> Result<String, Fail> {
    let alloc = agent.alloc;
    let mut text = String::from_str(alloc, "[")?;
    let mut path = String::from_str(alloc, "/lra")?;
    for _page in 0..MAX_PAGES {
        let page = ask_now(agent, &door.peer, &look_at(path.as_str()))?;
        if page.code != 200 {
            return Err(Fail::Unheard);
        }
        push_page(agent, &mut text, group, &page, wanted)?;
        let next = page.text("next");
        if next.is_empty() {
            break;
        }
        path = format!(in alloc; "/lra?after={next}")?;
    }
    text.push_str("]")?;
    Ok(text)
}

/// Adds the contents of another array to an array that is still open.
fn push_array(text: &mut String, other: &str) -> Result<(), Fail> {
    let inner = other
        .strip_prefix('[')
        .and_then(|rest| rest.strip_suffix(']'));
    let Some(inner) = inner else {
        return Err(Fail::Unheard);
    };
    if inner.is_empty() {
        return Ok(());
    }
    if text.len() > 1 {
        text.push_str(",")?;
    }
    text.push_str(inner)?;
    Ok(())
}

/// Returns what the gateway beside a node lists, as an array.
fn listed_there<R: Platform>(
    agent: &Agent<R>,
    group: &Group,
    door: &Door,
    errand: &Handover,
) -> Result<String, Fail> {
    let reply = hand(agent, group, door, errand, Repeat::Never)?;
    if reply.code != 200 {
        return Err(Fail::Unheard);
    }
    Ok(reply.text)
}

/// Returns the LRAs of a group as an array, from the first node that lists them, otherwise from the
/// gateway beside another node.
fn group_list<R: Platform>(
    agent: &Agent<R>,
    group: &Group,
    errand: &Handover,
    wanted: ListFilter,
) -> Result<String, Fail> {
    let mut last = Err(Fail::Unsent);
    for door in group.doors.iter() {
        let told = if door.operate.is_some() {
            listed(agent, group, door, wanted)
        } else {
            listed_there(agent, group, door, errand)
        };
        if told.is_ok() {
            return told;
        }
        last = told;
    }
    last
}

/// Returns the wanted LRAs of all groups.
pub fn list<R: Platform>(
    agent: &Agent<R>,
    errand: &Handover,
    wanted: ListFilter,
) -> Result<ServiceAnswer, Fail> {
    let mut text = String::from_str(agent.alloc, "[")?;
    for group in agent.gateway.groups.iter() {
        if !errand.is_for(group) {
            continue;
        }
        let told = group_list(agent, group, errand, wanted)?;
        push_array(&mut text, told.as_str())?;
    }
    text.push_str("]")?;
    Ok(json(text))
}

/// Returns all LRAs, or those with a status: `GET /lra-coordinator?Status=STATUS`.
pub fn list_by<R: Platform>(agent: &Agent<R>, errand: &Handover) -> Result<ServiceAnswer, Fail> {
    let wanted = said(errand.query(), "Status");
    if wanted.is_empty() {
        return list(agent, errand, ListFilter::All);
    }
    match LraStatus::from_name(wanted) {
        Ok(status) => list(agent, errand, ListFilter::Status(status)),
        Err(_) => Ok(plain(agent.alloc, 400, "Status")?),
    }
}

/// Purges an LRA: `DELETE /lra-coordinator/recovery/UID`.
pub fn purge<R: Platform>(agent: &Agent<R>, lra: &NamedLra) -> Result<ServiceAnswer, Fail> {
    let alloc = agent.alloc;
    let id = text_of(alloc, lra.id)?;
    let path = format!(in alloc; "/lra/{id}")?;
    let question = Question {
        method: Method::DELETE,
        path: path.as_str(),
        body: "",
        repeat: Repeat::Always,
    };
    let answer = ask_node(agent, lra.home, &question)?;
    match answer.code {
        204 | 410 => Ok(plain(alloc, 204, "")?),
        404 => Ok(plain(alloc, 404, answer.refused())?),
        503 => Ok(plain(alloc, 503, answer.refused())?),
        _ => Ok(plain(alloc, 412, answer.refused())?),
    }
}
