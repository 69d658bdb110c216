// Calls of nodes, and of the gateways beside other nodes.

use crate::agent::{Agent, Platform, moment};
use crate::args::Door;
use crate::exchange::{Fail, call, connect, field, length_field, request_of};
use http::Method;
use node_sockets::Peer;
use serde_json::Value;
use std::alloc::{AllocError, Global};
use std::time::Duration;
use std::{str, thread};
use wire_http::{CallRequest, Response};
use wire_narayana::{NodeResult, Repeat, is_again};

/// How long reaching a node may take, and how long its answer may take, in milliseconds. A service
/// waits for ten seconds.
const REACH_MS: u64 = 1_500;

const ANSWER_MS: u64 = 6_000;

/// How long another gateway may take, which may repeat its call of the node.
const HANDED_MS: u64 = 9_500;

/// How long to wait before a call is repeated, in milliseconds.
const PAUSE_MS: u64 = 100;

/// A node's answer.
#[derive(Drop)]
pub struct NodeAnswer {
    pub code: u16,
    body: Option<Value>,
}

impl NodeAnswer {
    /// Returns the text of a member of the body, empty if there is none.
    pub fn text(&self, name: &str) -> &str {
        match &self.body {
            Some(value) => value.get(name).and_then(Value::as_str).unwrap_or(""),
            None => "",
        }
    }

    /// Returns the list of a member of the body.
    pub fn list(&self, name: &str) -> Option<&Vec<Value>> {
        match &self.body {
            Some(value) => value.get(name).and_then(Value::as_array),
            None => None,
        }
    }

    /// Returns the refusal that the answer names.
    pub fn refused(&self) -> &str {
        self.text("refused")
    }

    /// Whether the node did nothing and can be asked again.
    pub fn did_nothing(&self) -> bool {
        let refused = self.refused();
        refused.starts_with("E19") || refused.starts_with("E20") || refused.starts_with("E21")
    }
}

/// A question to a node.
#[derive(Drop)]
pub struct Question<'a> {
    pub method: Method,
    pub path: &'a str,
    pub body: &'a str,
    /// When it may be repeated.
    pub repeat: Repeat,
}

/// Makes a question that changes nothing.
pub fn look_at(path: &str) -> Question {
    Question {
        method: Method::GET,
        path,
        body: "",
        repeat: Repeat::Always,
    }
}

/// Returns a host and a port as a request names them.
fn host_text(alloc: Global, host: &str, port: u16) -> Result<String, AllocError> {
    if host.contains(':') {
        format!(in alloc; "[{host}]:{port}")
    } else {
        format!(in alloc; "{host}:{port}")
    }
}

fn request_by(
    alloc: Global,
    host: &str,
    port: u16,
    question: &Question,
) -> Result<CallRequest, AllocError> {
    let host = host_text(alloc, host, port)?;
    let mut fields = Vec::new(alloc);
    fields.push(length_field(alloc, question.body.len())?)?;
    fields.push(field(alloc, "Connection", "close")?)?;
    let method = question.method.clone()?;
    let (path, body) = (question.path, question.body.as_bytes());
    request_of(alloc, method, host.as_str(), path, fields, body)
}

/// Parses a body as a JSON value, if it isn't empty.
fn value_of(alloc: Global, body: &[u8]) -> Result<Option<Value>, Fail> {
    let Ok(text) = str::from_utf8(body) else {
        return Err(Fail::Unheard);
    };
    if text.is_empty() {
        return Ok(None);
    }
    match Value::from_str(alloc, text) {
        Ok(value) => Ok(Some(value)),
        Err(error) if error.is_memory() => Err(Fail::NoMemory),
        Err(_) => Err(Fail::Unheard),
    }
}

/// Returns the answer in a response.
fn answer_of(alloc: Global, response: &Response) -> Result<NodeAnswer, Fail> {
    Ok(NodeAnswer {
        code: response.status.as_u16(),
        body: value_of(alloc, response.body.as_slice())?,
    })
}

/// Calls a port once. The answer may take `ms` milliseconds.
fn call_once<R: Platform>(
    agent: &Agent<R>,
    host: &str,
    port: u16,
    request: &CallRequest,
    ms: u64,
) -> Result<Response, Fail> {
    match connect(agent, host, port, REACH_MS) {
        Ok(stream) => call(agent, stream, request, ms),
        Err(_) => Err(Fail::Unsent),
    }
}

/// Asks one question at a port.
fn ask_once<R: Platform>(
    agent: &Agent<R>,
    host: &str,
    port: u16,
    request: &CallRequest,
) -> Result<NodeAnswer, Fail> {
    let response = call_once(agent, host, port, request, ANSWER_MS)?;
    answer_of(agent.alloc, &response)
}

/// Returns the outcome of a call without an answer.
fn came_to(fail: Fail) -> NodeResult {
    match fail {
        Fail::Unsent => NodeResult::Unsent,
        Fail::Unheard => NodeResult::Unheard,
        Fail::NoMemory => NodeResult::NoMemory,
    }
}

/// Returns the outcome of a question.
fn came_of(answer: &Result<NodeAnswer, Fail>) -> NodeResult {
    match answer {
        Ok(answer) if answer.did_nothing() => NodeResult::DidNothing,
        Ok(answer) if answer.code == 503 => NodeResult::Unsure,
        Ok(_) => NodeResult::Answered,
        Err(fail) => came_to(*fail),
    }
}

/// Asks at a port, and for some time repeats the question as far as that does no harm.
pub fn ask<R: Platform>(
    agent: &Agent<R>,
    host: &str,
    port: u16,
    question: &Question,
) -> Result<NodeAnswer, Fail> {
    let request = request_by(agent.alloc, host, port, question)?;
    let until = moment(agent.rt, agent.gateway.again);
    for _ in agent.rt.forever() {
        let answer = ask_once(agent, host, port, &request);
        if !is_again(came_of(&answer), question.repeat) || agent.is_over(until) {
            return answer;
        }
        thread::sleep(agent.rt, Duration::from_millis(PAUSE_MS));
    }
    unreachable!()
}

/// Asks at a port once.
pub fn ask_now<R: Platform>(
    agent: &Agent<R>,
    peer: &Peer,
    question: &Question,
) -> Result<NodeAnswer, Fail> {
    let request = request_by(agent.alloc, peer.host.as_str(), peer.port, question)?;
    ask_once(agent, peer.host.as_str(), peer.port, &request)
}

/// Asks a node.
pub fn ask_node<R: Platform>(
    agent: &Agent<R>,
    door: &Door,
    question: &Question,
) -> Result<NodeAnswer, Fail> {
    ask(agent, door.peer.host.as_str(), door.peer.port, question)
}

/// Hands a request to the gateway beside a node, and for some time repeats that as far as it does
/// no harm.
pub fn hand_over<R: Platform>(
    agent: &Agent<R>,
    peer: &Peer,
    request: &CallRequest,
    repeat: Repeat,
) -> Result<Response, Fail> {
    let until = moment(agent.rt, agent.gateway.again);
    for _ in agent.rt.forever() {
        let came = call_once(agent, peer.host.as_str(), peer.port, request, HANDED_MS);
        let Err(fail) = came else {
            return came;
        };
        if !is_again(came_to(fail), repeat) || agent.is_over(until) {
            return Err(fail);
        }
        thread::sleep(agent.rt, Duration::from_millis(PAUSE_MS));
    }
    unreachable!()
}
