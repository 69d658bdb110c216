// The participants of an LRA, as its home's port for operators lists them.

use crate::agent::{Agent, Platform};
use crate::asking::{NodeAnswer, ask, look_at};
use crate::exchange::Fail;
use crate::names::NamedLra;
use crate::reply::{ServiceAnswer, plain};
use serde_json::Value;
use url::{Position, Url};
use wire_narayana::{GivenLink, LinkKind, open, text_of};

/// All kinds of links, in the order in which they are listed.
const KINDS: [LinkKind; 5] = [
    LinkKind::Compensate,
    LinkKind::Complete,
    LinkKind::Status,
    LinkKind::Forget,
    LinkKind::After,
];

/// Returns what an LRA's home tells operators about it, or `None` if it doesn't know the LRA.
pub fn looked_up<R: Platform>(
    agent: &Agent<R>,
    lra: &NamedLra,
) -> Result<Option<NodeAnswer>, Fail> {
    let Some(port) = lra.home.operate else {
        return Err(Fail::Unsent);
    };
    let alloc = agent.alloc;
    let id = text_of(alloc, lra.id)?;
    let path = format!(in alloc; "/lra/{id}")?;
    let answer = ask(
        agent,
        lra.home.peer.host.as_str(),
        port,
        &look_at(path.as_str()),
    )?;
    match answer.code {
        200 => Ok(Some(answer)),
        404 | 410 => Ok(None),
        _ => Err(Fail::Unheard),
    }
}

/// Returns the link of a kind with which a member joined, as the port for operators states it.
fn link_of(member: &Value, kind: LinkKind) -> Option<&str> {
    member.get("links")?.get(kind.name())?.as_str()
}

fn is_participant(member: &Value) -> bool {
    member.get("kind").and_then(Value::as_str) == Some("participant")
}

fn number_of(member: &Value) -> Option<u8> {
    let number = member.get("member")?.as_u64()?;
    u8::try_from(number).ok()
}

/// Returns the link that distinguishes a participant from others: the link to compensate, otherwise
/// the link for the notice of the end.
fn own_link(links: &[GivenLink]) -> Option<&GivenLink> {
    match links.iter().find(|link| link.kind == LinkKind::Compensate) {
        Some(link) => Some(link),
        None => links.iter().find(|link| link.kind == LinkKind::After),
    }
}

/// Returns the number of the participant that joined with these links.
pub fn found_in(answer: &NodeAnswer, links: &[GivenLink]) -> Option<u8> {
    let own = own_link(links)?;
    for member in answer.list("members")?.iter() {
        if is_participant(member) && link_of(member, own.kind) == Some(own.url.as_str()) {
            return number_of(member);
        }
    }
    None
}

/// Adds a link with which a member joined, in the form in which the member gave it.
fn push_link<R: Platform>(
    agent: &Agent<R>,
    text: &mut String,
    lra: &NamedLra,
    kind: LinkKind,
    link: &str,
) -> Result<(), Fail> {
    let alloc = agent.alloc;
    let Ok(url) = Url::parse(alloc, link) else {
        return Ok(());
    };
    let target = url.slice(Position::BeforePath, Position::AfterQuery);
    let (key, shorts) = (&lra.group.key, &agent.gateway.shorts);
    if let Some(own) = open(alloc, key, shorts, lra.id, target)? {
        let comma = if text.is_empty() { "" } else { "," };
        let (name, own) = (kind.name(), own.link.as_str());
        let link = format!(in alloc; "{comma}<{own}>; rel=\"{name}\"")?;
        text.push_str(link.as_str())?;
    }
    Ok(())
}

/// Returns the links with which a member joined, in the form in which the member gave them.
fn links_text<R: Platform>(
    agent: &Agent<R>,
    lra: &NamedLra,
    member: &Value,
) -> Result<String, Fail> {
    let mut text = String::new(agent.alloc);
    for kind in KINDS {
        if let Some(link) = link_of(member, kind) {
            push_link(agent, &mut text, lra, kind, link)?;
        }
    }
    Ok(text)
}

/// Returns the links of a participant: `GET /lra-coordinator/recovery/UID/NUMBER`.
pub fn links_of_member<R: Platform>(
    agent: &Agent<R>,
    lra: &NamedLra,
    number: u8,
) -> Result<ServiceAnswer, Fail> {
    let alloc = agent.alloc;
    let looked = looked_up(agent, lra)?;
    let members = looked.as_ref().and_then(|answer| answer.list("members"));
    if let Some(members) = members {
        for member in members.iter() {
            if is_participant(member) && number_of(member) == Some(number) {
                let text = links_text(agent, lra, member)?;
                return Ok(plain(alloc, 200, text.as_str())?);
            }
        }
    }
    Ok(plain(alloc, 404, "no such participant")?)
}
