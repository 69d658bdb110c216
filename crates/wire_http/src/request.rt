// Reads a whole request.
ghost use Rattle.std.specs.Prelude.{◌≡◌, ℕ, ◌+◌, ◌<◌, ◌≤◌, ◌^◌, length, IfOk, IfErr, IsUtf8, codes, map, option_map};
ghost use Rattle.httparse.specs.Grammar.{IsToken};
ghost use Rattle.wire_http.specs.Streams.{GivesWhat, Reads};
ghost use Rattle.wire_http.specs.Faults.{Stops};
ghost use Rattle.wire_http.specs.HeadFields.{field_bytes, first_value};
ghost use Rattle.wire_http.specs.Heads.{IsHead, max_head_bytes};
ghost use Rattle.wire_http.specs.Requests.{IsRequestMessage, ShowsNoRequest, ArePartsOfRequest};
ghost use Rattle.wire_http.specs.declared.fault.Fault.TheVariants.{NoMemory};
ghost use Rattle.wire_http.specs.declared.head.HeadKind.TheVariants.{Request as OfRequest};

use crate::body::read_body;
use crate::fields::{fields_of, request_size};
use crate::head::{HeadKind, MAX_HEAD_BYTES, MAX_HEAD_LINES, read_head};
use crate::{Bytes, Fault, Request, Source, Text};
use http::Method;
use http::method::MethodError;
use httparse::Status;
use httparse::spans::{EMPTY_HEADER_SPAN, HeaderSpan, RequestSpans, parse_request};
use std::alloc::Global;

impl Request {
    /// Returns the value of the Host field: the host, and a port behind a colon if one is named. A
    /// request of version 1.0 may have no Host field.
    pub fn host(&self) -> Option<&[u8]>
        ensures { option_map
            (λ v. v.now) result ≡ first_value (codes "host") (map field_bytes self.now.fields) }
    {
        self.fields.value(b"host")
    }
}

fn parts_of(head: &[u8], headers: &mut [HeaderSpan]) -> RequestSpans
    requires { (lines : ℕ) × IsHead OfRequest head.now lines × (lines ≤ length headers.old) }
    ensures { ArePartsOfRequest head.now headers.new result }
{
    match parse_request(head, headers) {
        Ok(Status::Complete(spans)) => spans,
        _ => unreachable!(),
    }
}

fn method_of(alloc: Global, name: &[u8]) -> Result<Method, Fault>
    requires { IsToken name.now }
    ensures ok { IfOk result (λ method. method ≡ name.now) }
    ensures memory { IfErr result (λ fault. fault ≡ NoMemory) }
{
    match Method::from_bytes(alloc, name) {
        Ok(method) => Ok(method),
        Err(MethodError::OutOfMemory) => Err(Fault::NoMemory),
        Err(MethodError::Invalid) => unreachable!(),
    }
}

/// Copies these bytes as a text.
fn text_of(alloc: Global, bytes: &[u8]) -> Result<Text, Fault>
    requires { IsUtf8 bytes.now }
    ensures ok { IfOk result (λ text. text ≡ bytes.now) }
    ensures memory { IfErr result (λ fault. fault ≡ NoMemory) }
{
    match str::from_utf8(bytes) {
        Ok(text) => Ok(Text::new(String::from_str(alloc, text)?)),
        Err(_) => unreachable!(),
    }
}

/// Reads the next request (RFC 9112): a head, and the body that its Content-Length states, of at
/// most `limit` bytes. Without Content-Length the body is empty. What is behind the request is left
/// unread: that is why the head is read within its lines (`Source::read_in_line`). Errors: each
/// `Fault` but `WriteFault` and `LengthNeeded`.
pub fn read_request<S: Source>(
    alloc: Global,
    source: &mut S,
    limit: usize,
) -> Result<Request, Fault>
    requires limit { limit < 2 ^ 31 }
    // The source gave one whole request, and no byte more.
    ensures message { IfOk result (λ request. GivesWhat (S.stream source.old) (S.stream source.new)
        (λ bytes. IsRequestMessage limit bytes request)) }
    // What the source gave before a fault shows that fault, whatever follows.
    ensures fault { IfErr result (Stops (S.stream source.old) (S.stream source.new) (ShowsNoRequest limit)) }
    // A read fault has its cause, no call follows a failed one, and the number of calls is bounded.
    ensures streams { Reads
        (max_head_bytes + 1 + limit) 0 (S.calls source.old) (S.calls source.new) result }
{
    let mut interrupted = 0;
    let mut headers = [EMPTY_HEADER_SPAN; MAX_HEAD_LINES];
    let head = read_head(
        alloc,
        source,
        HeadKind::Request,
        &mut headers,
        MAX_HEAD_BYTES,
        &mut interrupted,
    )?;
    let spans = parts_of(&head, &mut headers);
    let size = request_size(&head, &headers[..spans.headers], spans.version, limit)?;
    let body = read_body(alloc, source, size, &mut interrupted)?;
    let method = method_of(alloc, spans.method.of(&head))?;
    let target = text_of(alloc, spans.path.of(&head))?;
    let fields = fields_of(alloc, &head, &headers[..spans.headers])?;
    Ok(Request {
        method,
        target,
        fields,
        body: Bytes::new(body),
    })
}
