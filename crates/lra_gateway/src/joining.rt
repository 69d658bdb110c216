// Joining an LRA, and leaving it.

use crate::agent::{Agent, Platform, moment};
use crate::asking::{NodeAnswer, Question, ask_node};
use crate::exchange::Fail;
use crate::handing::Handover;
use crate::members::{found_in, looked_up};
use crate::names::{NamedLra, member_in, recovery_of};
use crate::query::{said, time_in};
use crate::reply::{RECOVERY, ServiceAnswer, made, plain, refusal};
use http::Method;
use std::alloc::{AllocError, Global};
use std::str;
use url::{Position, Url};
use wire_narayana::{GivenLink, Repeat, Uncarried, carry, links_of, text_of};

/// Why links aren't accepted.
#[derive(Drop)]
enum Untaken {
    NoMemory,
    /// The text for the service.
    Told(String),
}

impl From<AllocError> for Untaken {
    ghost use Rattle.std.specs.Prelude.{⊤};

    ghost from_gives = { λ _ _. ⊤ };

    fn from(_: AllocError) -> Untaken {
        Untaken::NoMemory
    }
}

/// Whether participants may be at a link's host.
fn is_allowed(alloc: Global, allow: &[String], link: &str) -> bool {
    if allow.is_empty() {
        return true;
    }
    let Ok(url) = Url::parse(alloc, link) else {
        return false;
    };
    let host = url.slice(Position::BeforeHost, Position::AfterHost);
    let whole = url.slice(Position::BeforeHost, Position::AfterPort);
    for name in allow {
        if name.as_str() == host || name.as_str() == whole {
            return true;
        }
    }
    false
}

/// Returns what a service is told if its link can't be carried.
fn told_of(alloc: Global, link: &str, why: Uncarried) -> Untaken {
    let text = match why {
        Uncarried::NoMemory => return Untaken::NoMemory,
        Uncarried::Unfit => format!(in alloc;
            "{link}: links begin with http://, without a user, a fragment or a backslash"
        ),
        Uncarried::TooLong(bytes) => format!(in alloc;
            "{link}: {bytes} bytes too long, with what the gateway adds; its words can give the front a short name"
        ),
        Uncarried::Unwritten => format!(in alloc; "{link}: a URL would be written otherwise"),
    };
    match text {
        Ok(text) => Untaken::Told(text),
        Err(_) => Untaken::NoMemory,
    }
}

/// Makes the carried link for a link.
fn carried<R: Platform>(
    agent: &Agent<R>,
    lra: &NamedLra,
    link: &GivenLink,
) -> Result<GivenLink, Untaken> {
    let (alloc, gateway, group) = (agent.alloc, agent.gateway, lra.group);
    let (kind, url) = (link.kind, link.url.as_str());
    if !is_allowed(alloc, &gateway.allow, url) {
        let text = format!(in alloc; "{url}: this host isn't allowed")?;
        return Err(Untaken::Told(text));
    }
    match carry(
        alloc,
        &group.key,
        &group.via,
        &gateway.shorts,
        kind,
        lra.id,
        url,
    ) {
        Ok(url) => Ok(GivenLink { kind, url }),
        Err(why) => Err(told_of(alloc, url, why)),
    }
}

/// Makes the carried links for the links of a text.
fn carry_all<R: Platform>(
    agent: &Agent<R>,
    lra: &NamedLra,
    text: &str,
) -> Result<Vec<GivenLink>, Untaken> {
    let alloc = agent.alloc;
    let Some(links) = links_of(alloc, text)? else {
        return Err(Untaken::Told(String::from_str(alloc, "no links")?));
    };
    let mut all = Vec::new(alloc);
    for link in links.iter() {
        let link = carried(agent, lra, link)?;
        if all.push(link).is_err() {
            return Err(Untaken::NoMemory);
        }
    }
    Ok(all)
}

fn joined<R: Platform>(
    agent: &Agent<R>,
    lra: &NamedLra,
    member: u8,
) -> Result<ServiceAnswer, Fail> {
    let url = recovery_of(agent, lra.group, lra.id, member)?;
    Ok(made(agent.alloc, 200, RECOVERY, url)?)
}

/// Returns what a service is told if it joined with these links before: the same as then, but if
/// the LRA isn't Active any more, that it is too late, as any other service is told. Otherwise its
/// work might come after its compensation.
fn joined_before<R: Platform>(
    agent: &Agent<R>,
    lra: &NamedLra,
    links: &[GivenLink],
) -> Result<Option<ServiceAnswer>, Fail> {
    let Some(answer) = looked_up(agent, lra)? else {
        return Ok(None);
    };
    let Some(member) = found_in(&answer, links) else {
        return Ok(None);
    };
    if answer.text("status") != "Active" {
        return Ok(Some(plain(agent.alloc, 412, answer.text("status"))?));
    }
    Ok(Some(joined(agent, lra, member)?))
}

/// Makes the body of a join. A carried link has neither quotes nor backslashes.
fn join_body(alloc: Global, links: &[GivenLink]) -> Result<String, AllocError> {
    let mut body = String::from_str(alloc, "{")?;
    for link in links {
        let comma = if body.len() == 1 { "" } else { "," };
        let (name, url) = (link.kind.name(), link.url.as_str());
        let member = format!(in alloc; "{comma}\"{name}\":\"{url}\"")?;
        body.push_str(member.as_str())?;
    }
    body.push_str("}")?;
    Ok(body)
}

/// Returns what a service is told about a join.
fn told_join<R: Platform>(
    agent: &Agent<R>,
    lra: &NamedLra,
    answer: &NodeAnswer,
) -> Result<ServiceAnswer, Fail> {
    if answer.code != 200 {
        return Ok(refusal(agent.alloc, answer)?);
    }
    match member_in(answer.text("recovery")) {
        Some(member) => joined(agent, lra, member),
        None => Err(Fail::Unheard),
    }
}

/// Joins with carried links. Checks first whether a service joined with them before. So a join
/// whose answer was lost isn't repeated if it was made.
fn join_with<R: Platform>(
    agent: &Agent<R>,
    lra: &NamedLra,
    links: &[GivenLink],
) -> Result<ServiceAnswer, Fail> {
    let alloc = agent.alloc;
    let (body, id) = (join_body(alloc, links)?, text_of(alloc, lra.id)?);
    let path = format!(in alloc; "/lra/{id}/join")?;
    let question = Question {
        method: Method::PUT,
        path: path.as_str(),
        body: body.as_str(),
        repeat: Repeat::Unsent,
    };
    let until = moment(agent.rt, agent.gateway.again);
    for _ in agent.rt.forever() {
        if let Some(reply) = joined_before(agent, lra, links)? {
            return Ok(reply);
        }
        match ask_node(agent, lra.home, &question) {
            Err(Fail::Unheard) if moment(agent.rt, 0) < until => {}
            Err(fail) => return Err(fail),
            Ok(answer) => return told_join(agent, lra, &answer),
        }
    }
    unreachable!()
}

/// Returns the text of the links with which a service joins: its `Link` field, or its body.
fn links_text<'a>(errand: &'a Handover) -> &'a str {
    let link = errand.request.fields.link.as_str();
    if !link.is_empty() {
        return link;
    }
    let body = errand.request.body.as_slice();
    match str::from_utf8(body) {
        Ok(text) => text,
        Err(_) => "",
    }
}

/// Joins an LRA: `PUT /lra-coordinator/UID?TimeLimit=MS`, with a `Link` field or a body.
pub fn join<R: Platform>(
    agent: &Agent<R>,
    errand: &Handover,
    lra: &NamedLra,
) -> Result<ServiceAnswer, Fail> {
    if time_in(said(errand.query(), "TimeLimit")) != Some(0) {
        agent.complain("a participant's own TimeLimit isn't kept");
    }
    match carry_all(agent, lra, links_text(errand)) {
        Ok(links) => join_with(agent, lra, &links),
        Err(Untaken::NoMemory) => Err(Fail::NoMemory),
        Err(Untaken::Told(text)) => {
            agent.complain(text.as_str());
            Ok(plain(agent.alloc, 400, text.as_str())?)
        }
    }
}

/// Returns the number of the participant that leaves. The text has its links, or its recovery URL.
fn leaver<R: Platform>(agent: &Agent<R>, lra: &NamedLra, text: &str) -> Result<Option<u8>, Fail> {
    if !text.contains('<') && text.contains("/recovery/") {
        return Ok(member_in(text));
    }
    match carry_all(agent, lra, text) {
        Ok(links) => match looked_up(agent, lra)? {
            Some(answer) => Ok(found_in(&answer, &links)),
            None => Ok(None),
        },
        Err(Untaken::NoMemory) => Err(Fail::NoMemory),
        Err(Untaken::Told(_)) => Ok(None),
    }
}

/// Leaves an LRA: `PUT /lra-coordinator/UID/remove`, with the text of the links in its body.
pub fn leave<R: Platform>(
    agent: &Agent<R>,
    errand: &Handover,
    lra: &NamedLra,
) -> Result<ServiceAnswer, Fail> {
    let alloc = agent.alloc;
    let text = str::from_utf8(&errand.request.body).unwrap_or("");
    let Some(member) = leaver(agent, lra, text)? else {
        return Ok(plain(alloc, 400, "no such participant")?);
    };
    let id = text_of(alloc, lra.id)?;
    let path = format!(in alloc; "/lra/{id}/member/{member}/leave")?;
    let question = Question {
        method: Method::PUT,
        path: path.as_str(),
        body: "",
        repeat: Repeat::Always,
    };
    let answer = ask_node(agent, lra.home, &question)?;
    if answer.code == 204 || answer.refused().starts_with("E5 ") {
        return Ok(plain(alloc, 200, "")?);
    }
    Ok(refusal(alloc, &answer)?)
}
