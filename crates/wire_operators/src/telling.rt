// Makes the answers of the operators' port that need no call: what the threads of a node know, and
// the page.
ghost use Rattle.std.specs.Prelude.{◌≡◌, ◌∷◌, [], IfOk};
ghost use Rattle.std.specs.Option.{option_copied};
ghost use Rattle.wire_operators.specs.Serving.{IsTold, counts_answer, frame_options, page_answer, ready_answer, ready_text};

use crate::json::{add_word, open_truth, push};
use crate::page::PAGE;
use crate::{State, Topic};
use http::StatusCode;
use std::alloc::{AllocError, Global};
use wire_api::{ApiResponse, ResponseBody, ok_json, with_body};
use wire_http::{Bytes, Field};

#[tactic(auto, unfolding(crate::specs::Serving::ready_text))]
fn ready_text(alloc: Global, cause: Option<&'static str>) -> Result<Vec<u8>, AllocError>
    ensures { IfOk result (λ text. text.items ≡ ready_text (option_copied cause.entry)) }
{
    let mut text = Vec::new(alloc);
    match cause {
        None => {
            open_truth(&mut text, "ready", true)?;
            push(&mut text, "}")?;
        }
        Some(cause) => {
            open_truth(&mut text, "ready", false)?;
            add_word(&mut text, "cause", cause)?;
            push(&mut text, "}")?;
        }
    }
    Ok(text)
}

/// Makes the answer that says whether the node accepts commands.
fn ready_answer<'a>(
    alloc: Global,
    cause: Option<&'static str>,
) -> Result<ApiResponse<'a>, AllocError>
    ensures { IfOk result (λ response. response ≡ ready_answer (option_copied cause.entry)) }
{
    let text = ready_text(alloc, cause)?;
    match cause {
        None => ok_json(alloc, text),
        Some(_) => {
            let status = StatusCode::SERVICE_UNAVAILABLE;
            let body = ResponseBody::of_bytes(text);
            with_body(alloc, status, Vec::new(alloc), "application/json", body)
        }
    }
}

/// Makes the field that forbids other pages to show this one in a frame.
fn frame_options(alloc: Global) -> Result<Vec<Field>, AllocError>
    ensures { IfOk result (λ fields. fields.items ≡ frame_options ∷ []) }
{
    let name = Bytes::new(Vec::from_slice(alloc, b"X-Frame-Options")?);
    let value = Bytes::new(Vec::from_slice(alloc, b"DENY")?);
    let mut fields = Vec::new(alloc);
    match fields.push(Field { name, value }) {
        Ok(()) => Ok(fields),
        Err(_) => Err(AllocError),
    }
}

/// Makes the answer with the page. No other page may show it in a frame, because its buttons do
/// things.
fn page_answer<'a>(alloc: Global, text: Vec<u8>) -> Result<ApiResponse<'a>, AllocError>
    ensures { IfOk result (λ response. response ≡ page_answer text.items) }
{
    let fields = frame_options(alloc)?;
    let body = ResponseBody::of_bytes(text);
    with_body(
        alloc,
        StatusCode::OK,
        fields,
        "text/html; charset=utf-8",
        body,
    )
}

/// Makes the answer with the counts, in the text format of Prometheus.
fn counts_answer<'a>(alloc: Global, text: Vec<u8>) -> Result<ApiResponse<'a>, AllocError>
    ensures { IfOk result (λ response. response ≡ counts_answer text.items) }
{
    let body = ResponseBody::of_bytes(text);
    let kind = "text/plain; version=0.0.4";
    with_body(alloc, StatusCode::OK, Vec::new(alloc), kind, body)
}

/// Makes the answer about a topic.
pub(crate) fn told_answer<'a, T: State>(
    alloc: Global,
    state: &T,
    topic: Topic,
) -> Result<ApiResponse<'a>, AllocError>
    ensures { IfOk result (IsTold T.State state.now topic) }
{
    match topic {
        Topic::Page => {
            let text = Vec::from_slice(alloc, PAGE.as_bytes())?;
            page_answer(alloc, text)
        }
        Topic::Health => {
            let text = state.health(alloc)?;
            ok_json(alloc, text)
        }
        Topic::Ready => ready_answer(alloc, state.unready()),
        Topic::Metrics => {
            let text = state.metrics(alloc)?;
            counts_answer(alloc, text)
        }
        Topic::Calls => {
            let text = state.calls(alloc)?;
            ok_json(alloc, text)
        }
    }
}
