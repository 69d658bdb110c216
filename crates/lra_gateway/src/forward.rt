// Serving nodes: a participant is called once, and its answer is translated.

use crate::agent::{Agent, Platform};
use crate::exchange::{call_participant, connect_to, field, length_field, request_of};
use crate::gateway::Group;
use crate::names::{member_in, recovery_of, url_of};
use crate::reply::{LRA, RECOVERY};
use http::Method;
use state_ids::LraId;
use std::alloc::AllocError;
use url::{Position, Url};
use wire_http::{CallRequest, Field};
use wire_narayana::{
    AnswerToNode, Broken, LinkKind, Opened, ParticipantAnswer, ServiceRequest, id_in, open,
    told_of, word_in,
};

/// How long reaching a participant may take, and how long its answer may take, in milliseconds. A
/// node waits for ten seconds.
const REACH_MS: u64 = 2_000;

const CALL_MS: u64 = 7_000;

/// The field that names an LRA that has ended.
const ENDED: &str = "Long-Running-Action-Ended";

/// The field that names the parent LRA.
const PARENT: &str = "Long-Running-Action-Parent";

fn method_of(kind: LinkKind) -> Method {
    match kind {
        LinkKind::Compensate | LinkKind::Complete | LinkKind::After => Method::PUT,
        LinkKind::Status => Method::GET,
        LinkKind::Forget => Method::DELETE,
    }
}

/// A node's call for a participant.
#[derive(Drop)]
struct Calling<'a> {
    group: &'a Group,
    id: LraId,
    kind: LinkKind,
    url: Url,
    request: &'a ServiceRequest,
}

impl<'a> Calling<'a> {
    /// Returns the body that is passed on: the status of an LRA that has ended.
    fn body(&self) -> &[u8] {
        if self.kind == LinkKind::After {
            &self.request.body
        } else {
            &[]
        }
    }
}

/// Returns the fields that name the LRA, its parent and the participant.
fn names_of<R: Platform>(agent: &Agent<R>, calling: &Calling) -> Result<Vec<Field>, AllocError> {
    let (alloc, group, id) = (agent.alloc, calling.group, calling.id);
    let given = &calling.request.fields;
    let mut fields = Vec::new(alloc);
    let name = if calling.kind == LinkKind::After {
        ENDED
    } else {
        LRA
    };
    let url = url_of(agent, group, id)?;
    fields.push(field(alloc, name, url.as_str())?)?;
    if let Some(parent) = id_in(alloc, given.parent.as_bytes())? {
        let url = url_of(agent, group, parent)?;
        fields.push(field(alloc, PARENT, url.as_str())?)?;
    }
    if let Some(member) = member_in(given.recovery.as_str()) {
        let url = recovery_of(agent, group, id, member)?;
        fields.push(field(alloc, RECOVERY, url.as_str())?)?;
    }
    Ok(fields)
}

/// Makes the request to the participant. It has no `Connection: close`, because some services that
/// are asked with it state no length for an empty answer.
fn request_for<R: Platform>(
    agent: &Agent<R>,
    calling: &Calling,
) -> Result<CallRequest, AllocError> {
    let (alloc, url, body) = (agent.alloc, &calling.url, calling.body());
    let method = method_of(calling.kind);
    let mut fields = names_of(agent, calling)?;
    fields.push(field(alloc, "Accept", "*/*")?)?;
    if method == Method::PUT {
        fields.push(field(alloc, "Content-Type", "text/plain")?)?;
        fields.push(length_field(alloc, body.len())?)?;
    }
    let host = url.slice(Position::BeforeHost, Position::AfterPort);
    let target = url.slice(Position::BeforePath, Position::AfterQuery);
    request_of(alloc, method, host, target, fields, body)
}

/// Calls the participant once.
fn call_once<R: Platform>(
    agent: &Agent<R>,
    calling: &Calling,
) -> Result<ParticipantAnswer, AllocError> {
    let request = request_for(agent, calling)?;
    let Ok(stream) = connect_to(agent, &calling.url, REACH_MS) else {
        return Ok(ParticipantAnswer::Unreached);
    };
    match call_participant(agent, stream, &request, CALL_MS) {
        Ok(answer) => Ok(ParticipantAnswer::Whole(answer.code, word_in(&answer.body))),
        Err(Broken::NoMemory) => Err(AllocError),
        Err(Broken::Bad) => Ok(ParticipantAnswer::Broken),
    }
}

/// Logs an answer that the node receives in another form, or not at all.
fn log_change<R: Platform>(
    agent: &Agent<R>,
    calling: &Calling,
    answer: ParticipantAnswer,
    told: AnswerToNode,
) {
    let (name, link, code) = (calling.kind.name(), calling.url.as_str(), told.code);
    match answer {
        ParticipantAnswer::Whole(own, _) if own == code => {}
        ParticipantAnswer::Whole(own, word) => {
            let word = match word {
                Some(status) => status.name(),
                None => "",
            };
            let _ = eprintln!(agent.rt;
                "lra_gateway: {link} ({name}) answered {own} {word}, which is told as {code}"
            );
        }
        ParticipantAnswer::Unreached => {
            let _ = eprintln!(agent.rt; "lra_gateway: {link} ({name}) can't be reached");
        }
        ParticipantAnswer::Broken | ParticipantAnswer::Late => {
            let _ = eprintln!(agent.rt; "lra_gateway: {link} ({name}) gave no whole answer");
        }
    }
}

fn forbidden() -> AnswerToNode {
    AnswerToNode {
        code: 403,
        word: None,
    }
}

/// Returns the id of the LRA for which a node calls.
fn id_of<R: Platform>(
    agent: &Agent<R>,
    request: &ServiceRequest,
) -> Result<Option<LraId>, AllocError> {
    let fields = &request.fields;
    let name = if fields.lra.is_empty() {
        &fields.ended
    } else {
        &fields.lra
    };
    id_in(agent.alloc, name.as_bytes())
}

/// Returns what a node calls for, if its link is one of this gateway, for this LRA and with this
/// method.
fn calling_of<'a, R: Platform>(
    agent: &Agent<R>,
    group: &'a Group,
    request: &'a ServiceRequest,
) -> Result<Option<Calling<'a>>, AllocError> {
    let alloc = agent.alloc;
    let Some(id) = id_of(agent, request)? else {
        return Ok(None);
    };
    let target = request.target.as_str();
    let Some(opened) = open(alloc, &group.key, &agent.gateway.shorts, id, target)? else {
        return Ok(None);
    };
    let Opened { kind, link } = opened;
    if request.method.as_str() != kind.method() {
        return Ok(None);
    }
    match Url::parse(alloc, link.as_str()) {
        Ok(url) => Ok(Some(Calling {
            group,
            id,
            kind,
            url,
            request,
        })),
        Err(_) => Ok(None),
    }
}

/// Answers a node of a group.
pub fn serve_node<R: Platform>(
    agent: &Agent<R>,
    group: &Group,
    request: &ServiceRequest,
) -> Result<AnswerToNode, AllocError> {
    let Some(calling) = calling_of(agent, group, request)? else {
        let target = request.target.as_str();
        let _ = eprintln!(agent.rt;
            "lra_gateway: {target} is no link of this gateway for this LRA"
        );
        return Ok(forbidden());
    };
    let answer = call_once(agent, &calling)?;
    let told = told_of(calling.kind, answer);
    log_change(agent, &calling, answer, told);
    Ok(told)
}
