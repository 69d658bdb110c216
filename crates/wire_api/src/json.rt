// Reads the bodies of requests.
ghost use Rattle.std.specs.Prelude.{◌≡◌, MatchResult, None, Some, option_map};
ghost use Rattle.std.specs.Option.{option_copied};
ghost use Rattle.serde_json.specs.View.{view};
ghost use Rattle.state_facts.specs.LinkTexts.{Reads};
ghost use Rattle.wire_api.specs.Bodies.{IsUnread, links_by, limit_in, object_in, text_in};
ghost use Rattle.wire_api.specs.Bodies as spec;

use crate::names::id_of;
use serde_json::Value;
use state_facts::{Links, Refusal};
use state_ids::{Act, LraId, Outcome};
use std::alloc::Global;

/// Reads the JSON object that a body is.
pub fn object_in(alloc: Global, body: &[u8]) -> Result<Value, Refusal>
    ensures { MatchResult result
        (λ value. object_in body.now ≡ Some (view value)) (IsUnread (object_in body.now)) }
{
    let Ok(text) = str::from_utf8(body) else {
        return Err(Refusal::BadText);
    };
    match Value::from_str(alloc, text) {
        Ok(value) => {
            if !value.is_object() {
                return Err(Refusal::BadText);
            }
            Ok(value)
        }
        Err(error) => {
            if error.is_memory() {
                return Err(Refusal::NoMemory);
            }
            Err(Refusal::BadText)
        }
    }
}

/// Returns a number of milliseconds: 0 if none is given.
pub(crate) fn limit_in(found: Option<&Value>) -> Option<u64>
    ensures { result ≡ limit_in (option_map (λ v. view v.now) found.entry) }
{
    match found {
        None | Some(Value::Null) => Some(0),
        Some(value) => value.as_u64(),
    }
}

/// Returns a text, if one is given; `None` if something else is given.
pub(crate) fn text_in(found: Option<&Value>) -> Option<Option<&str>>
    ensures { option_map
        (λ t. option_copied t) result ≡ text_in (option_map (λ v. view v.now) found.entry) }
{
    match found {
        None | Some(Value::Null) => Some(None),
        Some(value) => match value.as_str() {
            Some(text) => Some(Some(text)),
            None => None,
        },
    }
}

/// Returns the moment this long after now: 0 if the limit is 0, and `None` beyond 64 bits.
pub(crate) fn deadline_of(now: u64, limit: u64) -> Option<u64>
    ensures { result ≡ spec.deadline_of now limit }
{
    if limit == 0 {
        return Some(0);
    }
    now.checked_add(limit)
}

/// Returns the deadline in the body of a begin.
pub fn deadline_in(now: u64, value: &Value) -> Option<u64>
    ensures { result ≡ spec.deadline_by now (view value.now) }
{
    match limit_in(value.get("limit")) {
        Some(limit) => deadline_of(now, limit),
        None => None,
    }
}

/// Returns the parent in the body of a begin, if one is given; `None` if what is given is not an
/// id.
pub fn parent_in(value: &Value) -> Option<Option<LraId>>
    ensures { result ≡ spec.parent_by (view value.now) }
{
    match text_in(value.get("parent")) {
        Some(Some(text)) => match id_of(text) {
            Some(id) => Some(Some(id)),
            None => None,
        },
        Some(None) => Some(None),
        None => None,
    }
}

/// Returns the links in the body of a join.
pub fn links_in(alloc: Global, value: &Value) -> Result<Links, Refusal>
    ensures { Reads (links_by (view value.now)) result }
{
    let (Some(complete), Some(compensate), Some(status), Some(forget), Some(after)) = (
        text_in(value.get("complete")),
        text_in(value.get("compensate")),
        text_in(value.get("status")),
        text_in(value.get("forget")),
        text_in(value.get("after")),
    ) else {
        return Err(Refusal::BadText);
    };
    Links::read(alloc, complete, compensate, status, forget, after)
}

/// Returns the act in the body of a report.
pub fn act_in(value: &Value) -> Option<Act>
    ensures { result ≡ spec.act_by (view value.now) }
{
    match text_in(value.get("act")) {
        Some(Some("complete")) => Some(Act::Complete),
        Some(Some("compensate")) => Some(Act::Compensate),
        _ => None,
    }
}

/// Returns the outcome in the body of a report.
pub fn outcome_in(value: &Value) -> Option<Outcome>
    ensures { result ≡ spec.outcome_by (view value.now) }
{
    match text_in(value.get("outcome")) {
        Some(Some("busy")) => Some(Outcome::Busy),
        Some(Some("done")) => Some(Outcome::Done),
        Some(Some("failed")) => Some(Outcome::Failed),
        _ => None,
    }
}
