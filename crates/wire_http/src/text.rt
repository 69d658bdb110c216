// Makes the texts of messages, and writes them.
ghost use Rattle.std.specs.Prelude.{◌≡◌, ◌+◌, ◌++◌, length, IfOk, OnOk, OnErr};
ghost use Rattle.wire_http.specs.Streams.{IsFlushed, Streams, Takes, TakesPart, Writes};
ghost use Rattle.wire_http.specs.MessageTexts.{field_line, field_lines, host_line, phrase, request_head, request_line, request_text, response_head, status_line, text_with};

use crate::{CallRequest, Fault, Field, Part, Response, Sink, Text, WriteFault, flush, write_all};
use http::StatusCode;
use std::alloc::{AllocError, Global};

fn push_field(text: &mut Vec<u8>, field: &Field) -> Result<(), AllocError>
    ensures { OnOk result (text.new.items ≡ text.old.items ++ field_line field.now) }
{
    text.extend_from_slice(field.name.as_slice())?;
    text.extend_from_slice(b": ")?;
    text.extend_from_slice(field.value.as_slice())?;
    text.extend_from_slice(b"\r\n")
}

fn push_fields(text: &mut Vec<u8>, fields: &[Field]) -> Result<(), AllocError>
    ensures { OnOk result (text.new.items ≡ text.old.items ++ field_lines fields.now) }
{
    for field in fields {
        push_field(text, field)?;
    }
    Ok(())
}

/// Returns the usual phrase of a code, as `http` has it. A code without a phrase keeps the space
/// before it.
#[tactic(auto, unfolding(crate::specs::MessageTexts::phrase))]
fn phrase_of(status: StatusCode) -> &'static str
    ensures { result.now ≡ phrase status }
{
    status.canonical_reason().unwrap_or("")
}

fn push_status(text: &mut Vec<u8>, status: StatusCode) -> Result<(), AllocError>
    ensures { OnOk result (text.new.items ≡ text.old.items ++ status_line status) }
{
    text.extend_from_slice(b"HTTP/1.1 ")?;
    text.extend_from_slice(status.as_str().as_bytes())?;
    text.extend_from_slice(b" ")?;
    text.extend_from_slice(phrase_of(status).as_bytes())?;
    text.extend_from_slice(b"\r\n")
}

fn head_of_response<B>(alloc: Global, response: &Response<B>) -> Result<Vec<u8>, AllocError>
    ensures { IfOk result (λ text. text.items ≡ response_head response.now) }
{
    let mut text = Vec::new(alloc);
    push_status(&mut text, response.status)?;
    push_fields(&mut text, response.fields.as_slice())?;
    text.extend_from_slice(b"\r\n")?;
    Ok(text)
}

fn push_request_line(text: &mut Vec<u8>, request: &CallRequest) -> Result<(), AllocError>
    ensures { OnOk result (text.new.items
        ≡ text.old.items ++ request_line request.now.method request.now.target) }
{
    text.extend_from_slice(request.method.as_str().as_bytes())?;
    text.extend_from_slice(b" ")?;
    text.extend_from_slice(request.target.as_str().as_bytes())?;
    text.extend_from_slice(b" HTTP/1.1")?;
    text.extend_from_slice(b"\r\n")
}

fn push_host(text: &mut Vec<u8>, host: &Text) -> Result<(), AllocError>
    ensures { OnOk result (text.new.items ≡ text.old.items ++ host_line host.now) }
{
    text.extend_from_slice(b"Host: ")?;
    text.extend_from_slice(host.as_str().as_bytes())?;
    text.extend_from_slice(b"\r\n")
}

fn head_of_request(alloc: Global, request: &CallRequest) -> Result<Vec<u8>, AllocError>
    ensures { IfOk result (λ text. text.items ≡ request_head request.now) }
{
    let mut text = Vec::new(alloc);
    push_request_line(&mut text, request)?;
    push_host(&mut text, &request.host)?;
    push_fields(&mut text, request.fields.as_slice())?;
    text.extend_from_slice(b"\r\n")?;
    Ok(text)
}

fn write_parts<W: Sink, B: Part>(sink: &mut W, head: &[u8], body: &B) -> Result<(), WriteFault>
    ensures ok { OnOk result (Takes (W.stream sink.old)
        (W.stream sink.new) (head.now ++ B.text body.now) × IsFlushed (W.stream sink.new)) }
    ensures part { OnErr result
        (TakesPart (W.stream sink.old) (W.stream sink.new) (head.now ++ B.text body.now)) }
    ensures streams { Streams
        (length (head.now ++ B.text body.now) + 1) 0 (W.calls sink.old) (W.calls sink.new) result }
{
    let mut interrupted = 0;
    write_all(sink, head, &mut interrupted)?;
    body.write(sink, &mut interrupted)?;
    flush(sink, &mut interrupted)
}

/// Writes a response: its whole text, or only a prefix of it if there is a fault. The length of the
/// body stands in the text only if it is among the fields. Errors: `WriteFault`, and `NoMemory`
/// before anything is written.
pub fn write_response<W: Sink, B: Part>(
    alloc: Global,
    sink: &mut W,
    response: &Response<B>,
) -> Result<(), Fault>
    // All of the text was taken and passed on; if there was a fault, a prefix of it was taken.
    ensures ok { OnOk result (Takes (W.stream sink.old)
        (W.stream sink.new) (text_with B.text response.now) × IsFlushed (W.stream sink.new)) }
    ensures part { OnErr result
        (TakesPart (W.stream sink.old) (W.stream sink.new) (text_with B.text response.now)) }
    // A write fault has its cause, and if memory was refused no call was made.
    ensures streams { Writes (length (text_with B.text response.now) + 1)
        (W.calls sink.old) (W.calls sink.new) (sink.new ≡ sink.old) result }
{
    let head = head_of_response(alloc, response)?;
    write_parts(sink, &head, &response.body)?;
    Ok(())
}

/// Writes a request: its whole text, or only a prefix of it if there is a fault. The length of the
/// body stands in the text only if it is among the fields. Errors: `WriteFault`, and `NoMemory`
/// before anything is written.
pub fn write_request<W: Sink>(
    alloc: Global,
    sink: &mut W,
    request: &CallRequest,
) -> Result<(), Fault>
    // All of the text was taken and passed on; if there was a fault, a prefix of it was taken.
    ensures ok { OnOk result (Takes (W.stream sink.old)
        (W.stream sink.new) (request_text request.now) × IsFlushed (W.stream sink.new)) }
    ensures part { OnErr result
        (TakesPart (W.stream sink.old) (W.stream sink.new) (request_text request.now)) }
    // A write fault has its cause, and if memory was refused no call was made.
    ensures streams { Writes (length (request_text request.now) + 1)
        (W.calls sink.old) (W.calls sink.new) (sink.new ≡ sink.old) result }
{
    let head = head_of_request(alloc, request)?;
    write_parts(sink, &head, &request.body)?;
    Ok(())
}
