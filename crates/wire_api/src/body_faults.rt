// Finds out what is wrong with the body of a request, and makes the text that says so.
ghost use Rattle.std.specs.Prelude.{◌≡◌, IfOk, None, Some, is_some, option_map, string_bytes};
ghost use Rattle.std.specs.List.{list_all};
ghost use Rattle.std.specs.Option.{option_copied};
ghost use Rattle.serde_json.specs.View.{members_view, view};
ghost use Rattle.state_facts.specs.Links.{kept_if_given};
ghost use Rattle.wire_api.specs.BodyFaults.{begin_fault, fault_in, fault_text, first_not, form_at, form_of, is_absent, is_given, is_link, is_shown, is_shown_byte, is_text, join_fault, knows, limit_fault, link_name, missing_fault, report_fault, text_of, unknown_in, unknown_of, unknown_text, why_in, why_in_body, why_in_object};

use crate::json::{act_in, deadline_of, limit_in, object_in, outcome_in, parent_in, text_in};
use crate::names::member_of;
use crate::path::{Paths, member_part, path_of};
use crate::routing::id_in;
use crate::table::{Action, action_at, method_of};
use serde_json::{Map, Value};
use state_facts::{Link, Refusal};
use std::alloc::{AllocError, Global};
use wire_http::Request;

/// The calls whose requests have a JSON body.
#[derive(Clone, Copy, Debug, PartialEq, Eq)]
pub(crate) enum Form {
    Begin,
    Join,
    Report,
}

/// The links in the body of a join.
#[derive(Clone, Copy, Debug, PartialEq, Eq)]
pub(crate) enum JoinLink {
    Complete,
    Compensate,
    Status,
    Forget,
    After,
}

/// What is wrong with a body all of whose members are known.
#[derive(Clone, Copy, Debug, PartialEq, Eq)]
pub(crate) enum BodyFault {
    /// It is not a JSON object.
    NoObject,
    NoText(JoinLink),
    /// It has neither `compensate` nor `after`.
    NoLinks,
    /// It has `after` with links that need `compensate`.
    NoCompensate,
    NoLink(JoinLink),
    NoParent,
    NoLimit,
    /// The time limit ends beyond the last millisecond of 64 bits.
    LongLimit,
    NoAct,
    NoOutcome,
}

impl JoinLink {
    fn name(self) -> &'static str
        ensures { result.now ≡ link_name self }
    {
        match self {
            JoinLink::Complete => "complete",
            JoinLink::Compensate => "compensate",
            JoinLink::Status => "status",
            JoinLink::Forget => "forget",
            JoinLink::After => "after",
        }
    }
}

fn knows(form: Form, name: &str) -> bool
    ensures { result ≡ knows form name.now }
{
    match form {
        Form::Begin => name == "parent" || name == "limit",
        Form::Join => name == "complete"
            || name == "compensate"
            || name == "status"
            || name == "forget"
            || name == "after",
        Form::Report => name == "act" || name == "outcome",
    }
}

/// Returns the name of the first member that the call doesn't know.
fn unknown_in(form: Form, members: &Map<String, Value>) -> Option<&str>
    ensures { option_copied result ≡ unknown_in form (members_view members.now.entries) }
{
    for (name, _value) in members.iter() {
        if !knows(form, name.as_str()) {
            return Some(name.as_str());
        }
    }
    None
}

fn unknown_of(form: Form, value: &Value) -> Option<&str>
    ensures { option_copied result ≡ unknown_of form (view value.now) }
{
    match value.as_object() {
        Some(members) => unknown_in(form, members),
        None => None,
    }
}

fn is_shown_byte(byte: u8) -> bool
    ensures { result ≡ is_shown_byte byte }
{
    byte.is_ascii_alphanumeric() || byte == b'-' || byte == b'_'
}

fn are_shown(bytes: &[u8]) -> bool
    ensures { result ≡ list_all is_shown_byte bytes.now }
{
    bytes.iter().all(|byte| is_shown_byte(*byte))
}

/// Whether a name can stand in an answer as it is.
fn is_shown(name: &str) -> bool
    ensures { result ≡ is_shown name.now }
{
    let bytes = name.as_bytes();
    if bytes.len() < 1 || bytes.len() > 32 {
        return false;
    }
    are_shown(bytes)
}

fn unknown_text(alloc: Global, name: &str) -> Result<String, AllocError>
    ensures { IfOk result (λ text. string_bytes text ≡ unknown_text name.now) }
{
    if is_shown(name) {
        format!(in alloc; "{name} is not known here")
    } else {
        String::from_str(alloc, "a member is not known here")
    }
}

fn limit_fault(now: u64, limit: Option<u64>) -> Option<BodyFault>
    ensures { result ≡ limit_fault now limit }
{
    let Some(limit) = limit else {
        return Some(BodyFault::NoLimit);
    };
    if deadline_of(now, limit).is_some() {
        None
    } else {
        Some(BodyFault::LongLimit)
    }
}

fn begin_fault(now: u64, value: &Value) -> Option<BodyFault>
    ensures { result ≡ begin_fault now (view value.now) }
{
    if parent_in(value).is_some() {
        limit_fault(now, limit_in(value.get("limit")))
    } else {
        Some(BodyFault::NoParent)
    }
}

fn is_text(value: &Value, link: JoinLink) -> bool
    ensures { result ≡ is_text (view value.now) link }
{
    text_in(value.get(link.name())).is_some()
}

/// Returns the first member of a join that is not a text.
fn no_text(value: &Value) -> Option<JoinLink>
    ensures { result ≡ first_not (is_text (view value.now)) }
{
    if !is_text(value, JoinLink::Complete) {
        Some(JoinLink::Complete)
    } else if !is_text(value, JoinLink::Compensate) {
        Some(JoinLink::Compensate)
    } else if !is_text(value, JoinLink::Status) {
        Some(JoinLink::Status)
    } else if !is_text(value, JoinLink::Forget) {
        Some(JoinLink::Forget)
    } else if !is_text(value, JoinLink::After) {
        Some(JoinLink::After)
    } else {
        None
    }
}

fn text_of(value: &Value, link: JoinLink) -> Option<&str>
    ensures { option_copied result ≡ text_of (view value.now) link }
{
    match text_in(value.get(link.name())) {
        Some(text) => text,
        None => None,
    }
}

fn is_given(value: &Value, link: JoinLink) -> bool
    ensures { result ≡ is_given (view value.now) link }
{
    text_of(value, link).is_some()
}

/// Returns what is wrong with the choice of links that a join gives.
fn missing_fault(value: &Value) -> Option<BodyFault>
    ensures { result ≡ missing_fault (view value.now) }
{
    if is_given(value, JoinLink::Compensate) {
        None
    } else if !is_given(value, JoinLink::After) {
        Some(BodyFault::NoLinks)
    } else if is_given(value, JoinLink::Complete)
        || is_given(value, JoinLink::Status)
        || is_given(value, JoinLink::Forget)
    {
        Some(BodyFault::NoCompensate)
    } else {
        None
    }
}

/// Whether a text is a link, or absent.
fn is_kept(alloc: Global, text: Option<&str>) -> Result<bool, AllocError>
    ensures { IfOk result (λ is. is ≡ is_some (kept_if_given (option_copied text.entry))) }
{
    let Some(text) = text else {
        return Ok(true);
    };
    match Link::read(alloc, text) {
        Ok(_link) => Ok(true),
        Err(refusal) => {
            if refusal == Refusal::BadText {
                return Ok(false);
            }
            Err(AllocError)
        }
    }
}

fn is_link(alloc: Global, value: &Value, link: JoinLink) -> Result<bool, AllocError>
    ensures { IfOk result (λ is. is ≡ is_link (view value.now) link) }
{
    is_kept(alloc, text_of(value, link))
}

/// Returns the first member of a join that is not a link.
fn no_link(alloc: Global, value: &Value) -> Result<Option<JoinLink>, AllocError>
    ensures { IfOk result (λ link. link ≡ first_not (is_link (view value.now))) }
{
    if !is_link(alloc, value, JoinLink::Complete)? {
        Ok(Some(JoinLink::Complete))
    } else if !is_link(alloc, value, JoinLink::Compensate)? {
        Ok(Some(JoinLink::Compensate))
    } else if !is_link(alloc, value, JoinLink::Status)? {
        Ok(Some(JoinLink::Status))
    } else if !is_link(alloc, value, JoinLink::Forget)? {
        Ok(Some(JoinLink::Forget))
    } else if !is_link(alloc, value, JoinLink::After)? {
        Ok(Some(JoinLink::After))
    } else {
        Ok(None)
    }
}

fn join_fault(alloc: Global, value: &Value) -> Result<Option<BodyFault>, AllocError>
    ensures { IfOk result (λ fault. fault ≡ join_fault (view value.now)) }
{
    if let Some(link) = no_text(value) {
        return Ok(Some(BodyFault::NoText(link)));
    }
    if let Some(fault) = missing_fault(value) {
        return Ok(Some(fault));
    }
    match no_link(alloc, value)? {
        Some(link) => Ok(Some(BodyFault::NoLink(link))),
        None => Ok(None),
    }
}

fn report_fault(value: &Value) -> Option<BodyFault>
    ensures { result ≡ report_fault (view value.now) }
{
    if act_in(value).is_none() {
        Some(BodyFault::NoAct)
    } else if outcome_in(value).is_none() {
        Some(BodyFault::NoOutcome)
    } else {
        None
    }
}

fn fault_in(
    alloc: Global,
    form: Form,
    now: u64,
    value: &Value,
) -> Result<Option<BodyFault>, AllocError>
    ensures { IfOk result (λ fault. fault ≡ fault_in form now (view value.now)) }
{
    match form {
        Form::Begin => Ok(begin_fault(now, value)),
        Form::Join => join_fault(alloc, value),
        Form::Report => Ok(report_fault(value)),
    }
}

fn fault_text(alloc: Global, fault: BodyFault) -> Result<String, AllocError>
    ensures { IfOk result (λ text. string_bytes text ≡ fault_text fault) }
{
    match fault {
        BodyFault::NoObject => String::from_str(alloc, "the body is no JSON object"),
        BodyFault::NoText(link) => {
            let name = link.name();
            format!(in alloc; "{name} is no text")
        }
        BodyFault::NoLinks => String::from_str(alloc, "neither compensate nor after is given"),
        BodyFault::NoCompensate => String::from_str(alloc, "compensate is not given"),
        BodyFault::NoLink(link) => {
            let name = link.name();
            format!(in alloc; "{name} is no http URL of at most 127 bytes")
        }
        BodyFault::NoParent => String::from_str(alloc, "parent is no id"),
        BodyFault::NoLimit => String::from_str(alloc, "limit is no number of milliseconds"),
        BodyFault::LongLimit => String::from_str(alloc, "limit is too long"),
        BodyFault::NoAct => String::from_str(alloc, "act is neither complete nor compensate"),
        BodyFault::NoOutcome => String::from_str(alloc, "outcome is none of busy, done and failed"),
    }
}

fn why_in_object(
    alloc: Global,
    form: Form,
    now: u64,
    value: &Value,
) -> Result<Option<String>, AllocError>
    ensures { IfOk result
        (λ why. option_map string_bytes why ≡ why_in_object form now (Some (view value.now))) }
{
    if let Some(name) = unknown_of(form, value) {
        return Ok(Some(unknown_text(alloc, name)?));
    }
    match fault_in(alloc, form, now, value)? {
        Some(fault) => Ok(Some(fault_text(alloc, fault)?)),
        None => Ok(None),
    }
}

fn is_absent(form: Form, body: &[u8]) -> bool
    ensures { result ≡ is_absent form body.now }
{
    match form {
        Form::Begin => body.is_empty(),
        Form::Join | Form::Report => false,
    }
}

/// Returns what is wrong with a body of this form, if anything is.
#[tactic(auto, unfolding(crate::specs::BodyFaults::why_in_body))]
fn why_in_body(
    alloc: Global,
    form: Form,
    now: u64,
    body: &[u8],
) -> Result<Option<String>, AllocError>
    ensures { IfOk result
        (λ why. option_map string_bytes why ≡ why_in_body form now body.now) }
{
    if is_absent(form, body) {
        return Ok(None);
    }
    match object_in(alloc, body) {
        Ok(value) => why_in_object(alloc, form, now, &value),
        Err(refusal) => {
            if refusal == Refusal::BadText {
                return Ok(Some(fault_text(alloc, BodyFault::NoObject)?));
            }
            Err(AllocError)
        }
    }
}

/// Returns the form of the body that an action reads, if it reads one and the ids in the path are
/// right.
fn form_at(action: Action, path: &str) -> Option<Form>
    ensures { result ≡ form_at action path.now }
{
    match action {
        Action::Begin => Some(Form::Begin),
        Action::Join => match id_in(path) {
            Some(_id) => Some(Form::Join),
            None => None,
        },
        Action::Report => match (id_in(path), member_of(member_part(path))) {
            (Some(_id), Some(_member)) => Some(Form::Report),
            _ => None,
        },
        _ => None,
    }
}

fn form_of(paths: &Paths, request: &Request) -> Option<Form>
    ensures { result ≡ form_of request.now }
{
    let path = path_of(request.target.as_str());
    let Some(endpoint) = paths.endpoint_of(path) else {
        return None;
    };
    match action_at(endpoint, method_of(&request.method)) {
        Some(action) => form_at(action, path),
        None => None,
    }
}

/// Returns what is wrong with the body of a request, if it has a body and anything is. Errors: out
/// of memory.
#[tactic(auto, unfolding(crate::specs::BodyFaults::why_in))]
pub(crate) fn why_in(
    alloc: Global,
    paths: &Paths,
    request: &Request,
    now: u64,
) -> Result<Option<String>, AllocError>
    ensures { IfOk result (λ why. option_map string_bytes why ≡ why_in now request.now) }
{
    match form_of(paths, request) {
        Some(form) => why_in_body(alloc, form, now, request.body.as_slice()),
        None => Ok(None),
    }
}
