// Finds the call that a request asks for.
ghost use Rattle.std.specs.Prelude.{◌≡◌};
ghost use Rattle.std.specs.Option.{option_copied};
ghost use Rattle.state_facts.specs.LinkTexts.{Reads};
ghost use Rattle.wire_api.specs.Routes.{Routes, after_in, call_of, routed};
ghost use Rattle.wire_api.specs.Routes as spec;

use crate::json::{act_in, deadline_in, links_in, object_in, outcome_in, parent_in};
use crate::names::{id_of, member_of};
use crate::path::{Paths, id_part, member_part, path_of, query_of};
use crate::table::{Action, Endpoint, action_at, method_of};
use state_book::Call;
use state_facts::{Command, Refusal};
use state_ids::LraId;
use std::alloc::Global;
use wire_http::{Bytes, Request};

/// Why a request asks for no call.
#[derive(Clone, Copy, Debug, PartialEq, Eq)]
pub enum Unrouted {
    /// Its path is not in the table.
    NoPath,
    /// The path has only other methods.
    NoMethod(Endpoint),
    /// E1: an id, a number, the query or the body breaks its grammar; or E17.
    Refused(Refusal),
}

pub(crate) fn id_in(path: &str) -> Option<LraId>
    ensures { result ≡ spec.id_in path.now }
{
    id_of(id_part(path))
}

fn after_in(query: Option<&str>) -> Option<Option<LraId>>
    ensures { result ≡ after_in (option_copied query.entry) }
{
    let Some(query) = query else {
        return Some(None);
    };
    let text = query.strip_prefix("after=")?;
    let id = id_of(text)?;
    Some(Some(id))
}

fn begin_in(alloc: Global, now: u64, body: &[u8]) -> Result<Call, Refusal>
    ensures { Reads (spec.begin_in now body.now) result }
{
    if body.is_empty() {
        return Ok(Call::Command(Command::Begin {
            parent: None,
            deadline: 0,
        }));
    }
    let value = object_in(alloc, body)?;
    match (parent_in(&value), deadline_in(now, &value)) {
        (Some(parent), Some(deadline)) => Ok(Call::Command(Command::Begin { parent, deadline })),
        _ => Err(Refusal::BadText),
    }
}

fn join_in(alloc: Global, id: LraId, body: &[u8]) -> Result<Call, Refusal>
    ensures { Reads (spec.join_in id body.now) result }
{
    let value = object_in(alloc, body)?;
    let links = links_in(alloc, &value)?;
    Ok(Call::Command(Command::Join { id, links }))
}

fn report_in(alloc: Global, id: LraId, member: u8, body: &[u8]) -> Result<Call, Refusal>
    ensures { Reads (spec.report_in id member body.now) result }
{
    let value = object_in(alloc, body)?;
    match (act_in(&value), outcome_in(&value)) {
        (Some(act), Some(outcome)) => Ok(Call::Command(Command::Report {
            id,
            member,
            act,
            outcome,
        })),
        _ => Err(Refusal::BadText),
    }
}

fn call_of_lra(alloc: Global, action: Action, id: LraId, body: &[u8]) -> Result<Call, Refusal>
    ensures { Reads (spec.call_of_lra action id body.now) result }
{
    match action {
        Action::Status => Ok(Call::Status(id)),
        Action::Purge => Ok(Call::Command(Command::Purge { root: id })),
        Action::Decide(verdict) => Ok(Call::Command(Command::Decide { id, verdict })),
        Action::Join => join_in(alloc, id, body),
        _ => Err(Refusal::BadText),
    }
}

fn call_of_member(
    alloc: Global,
    action: Action,
    id: LraId,
    member: u8,
    body: &[u8],
) -> Result<Call, Refusal>
    ensures { Reads (spec.call_of_member action id member body.now) result }
{
    match action {
        Action::Member => Ok(Call::Member { id, member }),
        Action::Leave => Ok(Call::Command(Command::Leave { id, member })),
        Action::Report => report_in(alloc, id, member, body),
        _ => Err(Refusal::BadText),
    }
}

fn page_in(query: Option<&str>) -> Result<Call, Refusal>
    ensures { Reads (spec.page_in (option_copied query.entry)) result }
{
    match after_in(query) {
        Some(after) => Ok(Call::Page(after)),
        None => Err(Refusal::BadText),
    }
}

fn call_at_lra(alloc: Global, action: Action, path: &str, body: &[u8]) -> Result<Call, Refusal>
    ensures { Reads (spec.call_at_lra action path.now body.now) result }
{
    match id_in(path) {
        Some(id) => call_of_lra(alloc, action, id, body),
        None => Err(Refusal::BadText),
    }
}

fn call_at_member(alloc: Global, action: Action, path: &str, body: &[u8]) -> Result<Call, Refusal>
    ensures { Reads (spec.call_at_member action path.now body.now) result }
{
    match (id_in(path), member_of(member_part(path))) {
        (Some(id), Some(member)) => call_of_member(alloc, action, id, member, body),
        _ => Err(Refusal::BadText),
    }
}

fn call_of(alloc: Global, action: Action, request: &Request, now: u64) -> Result<Call, Refusal>
    ensures { Reads (call_of now action request.now) result }
{
    let path = path_of(request.target.as_str());
    let body = request.body.as_slice();
    match action {
        Action::List => page_in(query_of(request.target.as_str())),
        Action::Begin => begin_in(alloc, now, body),
        Action::Pull => Ok(Call::Pull(Bytes::new(Vec::from_slice(alloc, body)?))),
        Action::Member | Action::Leave | Action::Report => {
            call_at_member(alloc, action, path, body)
        }
        Action::Status | Action::Purge | Action::Join | Action::Decide(_) => {
            call_at_lra(alloc, action, path, body)
        }
    }
}

/// Returns the call that a request asks for at this moment, by the table of paths and methods.
/// Errors: `NoPath`; then `NoMethod`; then E1 if an id, a number, the query or the body breaks its
/// grammar; or E17.
pub fn route(alloc: Global, request: &Request, now: u64) -> Result<Call, Unrouted>
    ensures { Routes (routed now request.now) result }
{
    let Ok(paths) = Paths::new(alloc) else {
        return Err(Unrouted::Refused(Refusal::NoMemory));
    };
    route_by(alloc, &paths, request, now)
}

/// Does the same with a table that was already made.
pub(crate) fn route_by(
    alloc: Global,
    paths: &Paths,
    request: &Request,
    now: u64,
) -> Result<Call, Unrouted>
    ensures { Routes (routed now request.now) result }
{
    let Some(endpoint) = paths.endpoint_of(path_of(request.target.as_str())) else {
        return Err(Unrouted::NoPath);
    };
    let Some(action) = action_at(endpoint, method_of(&request.method)) else {
        return Err(Unrouted::NoMethod(endpoint));
    };
    match call_of(alloc, action, request, now) {
        Ok(call) => Ok(call),
        Err(refusal) => Err(Unrouted::Refused(refusal)),
    }
}
