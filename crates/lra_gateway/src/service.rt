// Serving services: Narayana's coordinator interface.

use crate::agent::{Agent, Platform};
use crate::ending::{end, status};
use crate::exchange::Fail;
use crate::handing::{Handover, errand_of, hand};
use crate::joining::{join, leave};
use crate::listing::{ListFilter, info, list, list_by, purge};
use crate::members::links_of_member;
use crate::names::{NamedLra, lra_of, name_in};
use crate::reply::{ServiceAnswer, failure, plain};
use crate::starting::start;
use std::alloc::{AllocError, Global};
use wire_narayana::{Repeat, ServiceRequest};

/// What a request asks of an LRA.
#[derive(Clone, Copy, PartialEq, Eq, Debug)]
enum ServiceCall {
    Join,
    Info,
    Status,
    Close,
    Cancel,
    Leave,
    Purge,
    /// The links of the participant with this number.
    Links(u8),
}

impl ServiceCall {
    /// Whether each node can answer it, not only the LRA's home.
    fn is_known_to_all(self) -> bool {
        self == ServiceCall::Info || self == ServiceCall::Status
    }

    /// Returns when it may be repeated: if the answer to a join was lost, only the gateway of the
    /// LRA's home looks the join up.
    fn repeat(self) -> Repeat {
        if self == ServiceCall::Join {
            Repeat::Unsent
        } else {
            Repeat::Always
        }
    }
}

/// The answer to a request that isn't served or whose path doesn't exist.
#[derive(Clone, Copy, PartialEq, Eq, Debug)]
struct Undone {
    code: u16,
    text: &'static str,
}

const NO_PATH: Undone = Undone {
    code: 404,
    text: "no such path",
};

const NO_METHOD: Undone = Undone {
    code: 405,
    text: "no such method",
};

const NO_RENEWAL: Undone = Undone {
    code: 501,
    text: "a time limit can't be renewed",
};

const NO_MOVE: Undone = Undone {
    code: 501,
    text: "a participant can't be moved",
};

/// Returns what a method and the words behind an id ask of an LRA.
fn act_of(method: &str, words: &[&str]) -> Result<ServiceCall, Undone> {
    match (method, words) {
        ("PUT", []) => Ok(ServiceCall::Join),
        ("GET", []) => Ok(ServiceCall::Info),
        ("GET", ["status"]) => Ok(ServiceCall::Status),
        ("PUT", ["close"]) => Ok(ServiceCall::Close),
        ("PUT", ["cancel"]) => Ok(ServiceCall::Cancel),
        ("PUT", ["remove"]) => Ok(ServiceCall::Leave),
        ("PUT", ["renew"]) => Err(NO_RENEWAL),
        (_, [] | ["status" | "close" | "cancel" | "remove" | "renew"]) => Err(NO_METHOD),
        _ => Err(NO_PATH),
    }
}

/// Returns what a method and the words behind an id ask of an LRA's recovery.
fn recovery_of(method: &str, words: &[&str]) -> Result<ServiceCall, Undone> {
    match (method, words) {
        ("DELETE", []) => Ok(ServiceCall::Purge),
        ("GET", [number]) => match number.parse::<u8>() {
            Ok(number) => Ok(ServiceCall::Links(number)),
            Err(_) => Err(NO_PATH),
        },
        ("PUT", [_]) => Err(NO_MOVE),
        (_, [] | [_]) => Err(NO_METHOD),
        _ => Err(NO_PATH),
    }
}

/// Returns the parts of a path that aren't empty.
fn parts_of(alloc: Global, path: &str) -> Result<Vec<&str>, AllocError> {
    let mut parts = Vec::new(alloc);
    for part in path.split('/') {
        if !part.is_empty() {
            parts.push(part)?;
        }
    }
    Ok(parts)
}

/// Does what is asked of an LRA. This gateway asks the LRA's home itself, or each node can answer.
fn act_here<R: Platform>(
    agent: &Agent<R>,
    errand: &Handover,
    lra: &NamedLra,
    act: ServiceCall,
) -> Result<ServiceAnswer, Fail> {
    match act {
        ServiceCall::Join => join(agent, errand, lra),
        ServiceCall::Info => info(agent, lra),
        ServiceCall::Status => status(agent, lra),
        ServiceCall::Close => end(agent, lra, true),
        ServiceCall::Cancel => end(agent, lra, false),
        ServiceCall::Leave => leave(agent, errand, lra),
        ServiceCall::Purge => purge(agent, lra),
        ServiceCall::Links(number) => links_of_member(agent, lra, number),
    }
}

/// Has the gateway beside an LRA's home do what is asked. If that gateway doesn't answer, and any
/// node can answer the request, asks another node.
fn act_there<R: Platform>(
    agent: &Agent<R>,
    errand: &Handover,
    lra: &NamedLra,
    act: ServiceCall,
) -> Result<ServiceAnswer, Fail> {
    if !act.is_known_to_all() {
        return hand(agent, lra.group, lra.home, errand, act.repeat());
    }
    if errand.handed_for.is_none() {
        if let Ok(reply) = hand(agent, lra.group, lra.home, errand, Repeat::Never) {
            if reply.code != 503 {
                return Ok(reply);
            }
        }
    }
    act_here(agent, errand, lra, act)
}

/// Serves a request about the LRA of a name.
fn serve_lra<R: Platform>(
    agent: &Agent<R>,
    errand: &Handover,
    name: &str,
    asked: Result<ServiceCall, Undone>,
) -> Result<ServiceAnswer, Fail> {
    let act = match asked {
        Ok(act) => act,
        Err(undone) => return Ok(plain(agent.alloc, undone.code, undone.text)?),
    };
    let name = name_in(agent.alloc, name)?;
    let Some(lra) = lra_of(agent.gateway, name) else {
        return Ok(plain(agent.alloc, 404, "no such LRA")?);
    };
    if lra.home.operate.is_some() {
        act_here(agent, errand, &lra, act)
    } else {
        act_there(agent, errand, &lra, act)
    }
}

/// Serves a request whose path begins with `/lra-coordinator`.
fn serve_words<R: Platform>(
    agent: &Agent<R>,
    errand: &Handover,
    words: &[&str],
) -> Result<ServiceAnswer, Fail> {
    let method = errand.method();
    match (method, words) {
        ("GET", []) => list_by(agent, errand),
        ("POST", ["start"]) => start(agent, errand),
        ("GET", ["recovery"]) => list(agent, errand, ListFilter::Recovering),
        ("GET", ["recovery", "failed"]) => list(agent, errand, ListFilter::Failed),
        (_, [] | ["start"] | ["recovery"] | ["recovery", "failed"]) => {
            Ok(plain(agent.alloc, NO_METHOD.code, NO_METHOD.text)?)
        }
        (_, ["recovery", name, rest @ ..]) => {
            serve_lra(agent, errand, name, recovery_of(method, rest))
        }
        (_, [name, rest @ ..]) => serve_lra(agent, errand, name, act_of(method, rest)),
    }
}

fn serve_path<R: Platform>(agent: &Agent<R>, errand: &Handover) -> Result<ServiceAnswer, Fail> {
    let parts = parts_of(agent.alloc, errand.path())?;
    match parts.as_slice() {
        ["lra-coordinator", words @ ..] => serve_words(agent, errand, words),
        _ => Ok(plain(agent.alloc, NO_PATH.code, NO_PATH.text)?),
    }
}

/// Answers a service.
pub fn serve_service<R: Platform>(
    agent: &Agent<R>,
    request: &ServiceRequest,
) -> Result<ServiceAnswer, AllocError> {
    let errand = errand_of(request);
    match serve_path(agent, &errand) {
        Ok(reply) => Ok(reply),
        Err(fail) => failure(agent.alloc, fail),
    }
}
