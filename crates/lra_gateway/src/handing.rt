// Requests of services, and requests that are handed to the gateway beside another node.

use crate::agent::{Agent, Platform};
use crate::args::Door;
use crate::asking::hand_over;
use crate::exchange::{Fail, field, length_field, request_of};
use crate::gateway::Group;
use crate::reply::{ServiceAnswer, plain, reply_of};
use http::Method;
use std::alloc::{AllocError, Global};
use wire_http::CallRequest;
use wire_narayana::{Repeat, ServiceRequest};

/// The beginning of a target that was handed over. The group's number follows, and then the
/// service's own target.
const HANDED: &str = "/handed-over/";

/// A service's request.
#[derive(Clone, Copy)]
pub struct Handover<'a> {
    pub request: &'a ServiceRequest,
    /// The target, as the service wrote it.
    pub target: &'a str,
    /// The group for which another gateway handed the request over, if one did. Such a request
    /// isn't handed on again.
    pub handed_for: Option<u8>,
}

impl<'a> Handover<'a> {
    pub fn method(&self) -> &str {
        self.request.method.as_str()
    }

    /// Returns the part of the target behind the question mark.
    pub fn query(&self) -> &str {
        match self.target.split_once('?') {
            Some((_path, query)) => query,
            None => "",
        }
    }

    /// Returns the part of the target before the question mark.
    pub fn path(&self) -> &str {
        match self.target.split_once('?') {
            Some((path, _query)) => path,
            None => self.target,
        }
    }

    /// Whether the request may be for this group: it is if another gateway handed it over for this
    /// group, or if no gateway handed it over.
    pub fn is_for(&self, group: &Group) -> bool {
        match self.handed_for {
            Some(number) => number == group.number,
            None => true,
        }
    }
}

/// Returns the group for which a request was handed over, and its target.
fn handed(target: &str) -> Option<(u8, &str)> {
    let rest = target.strip_prefix(HANDED)?;
    let place = rest.find('/')?;
    let (number, target) = rest.split_at_checked(place)?;
    let number = number.parse::<u8>().ok()?;
    Some((number, target))
}

/// Returns what a request asks for.
pub fn errand_of(request: &ServiceRequest) -> Handover {
    let target = request.target.as_str();
    match handed(target) {
        Some((number, target)) => Handover {
            request,
            target,
            handed_for: Some(number),
        },
        None => Handover {
            request,
            target,
            handed_for: None,
        },
    }
}

/// Returns the method of this name, if services use it.
fn method_of(name: &str) -> Option<Method> {
    match name {
        "GET" => Some(Method::GET),
        "PUT" => Some(Method::PUT),
        "POST" => Some(Method::POST),
        "DELETE" => Some(Method::DELETE),
        _ => None,
    }
}

/// Makes the request that hands a service's request over.
fn request_for(
    alloc: Global,
    group: &Group,
    errand: &Handover,
    method: Method,
) -> Result<CallRequest, AllocError> {
    let (number, target) = (group.number, errand.target);
    let target = format!(in alloc; "{HANDED}{number}{target}")?;
    let (link, body) = (errand.request.fields.link.as_str(), &errand.request.body);
    let mut fields = Vec::new(alloc);
    if !link.is_empty() {
        fields.push(field(alloc, "Link", link)?)?;
    }
    fields.push(length_field(alloc, body.len())?)?;
    fields.push(field(alloc, "Connection", "close")?)?;
    request_of(alloc, method, "gateway", target.as_str(), fields, body)
}

/// Hands a service's request to the gateway beside a node of a group.
pub fn hand<R: Platform>(
    agent: &Agent<R>,
    group: &Group,
    door: &Door,
    errand: &Handover,
    repeat: Repeat,
) -> Result<ServiceAnswer, Fail> {
    let alloc = agent.alloc;
    if errand.handed_for.is_some() {
        return Ok(plain(alloc, 503, "this gateway isn't beside its home")?);
    }
    let Some(method) = method_of(errand.method()) else {
        return Ok(plain(alloc, 405, "")?);
    };
    let request = request_for(alloc, group, errand, method)?;
    let response = hand_over(agent, &door.peer, &request, repeat)?;
    Ok(reply_of(alloc, &response)?)
}
