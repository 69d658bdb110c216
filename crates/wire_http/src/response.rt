// Reads a whole response.
ghost use Rattle.std.specs.Prelude.{◌≡◌, ℕ, ◌+◌, ◌<◌, ◌≤◌, ◌^◌, length, IfOk, IfErr, OnOk};
ghost use Rattle.http.specs.StatusCode.{IsStatusCode};
ghost use Rattle.wire_http.specs.Streams.{GivesWhat, Reads, too_many_interrupted};
ghost use Rattle.wire_http.specs.Faults.{Stops, Shows};
ghost use Rattle.wire_http.specs.Heads.{IsHead, max_head_bytes};
ghost use Rattle.wire_http.specs.Responses.{head_room, is_interim, HasNoFinal, IsHeadRead, IsResponseMessage, IsOfHeads, RefusesHeads, ShowsNoResponse, ShowsNoHead, ArePartsOfResponse, IsFinalRead};
ghost use Rattle.wire_http.specs.declared.fault.Fault.TheVariants.{NoMemory, ReadFault};
ghost use Rattle.wire_http.specs.declared.head.HeadKind.TheVariants.{Response as OfResponse};

use crate::body::read_body;
use crate::fields::{fields_of, response_size};
use crate::head::{HeadKind, MAX_HEAD_BYTES, MAX_HEAD_LINES, read_head};
use crate::{Bytes, Fault, Response, Source};
use http::StatusCode;
use httparse::Status;
use httparse::spans::{EMPTY_HEADER_SPAN, HeaderSpan, ResponseSpans, parse_response};
use std::alloc::Global;

fn parts_of(head: &[u8], headers: &mut [HeaderSpan]) -> ResponseSpans
    requires { (lines : ℕ) × IsHead OfResponse head.now lines × (lines ≤ length headers.old) }
    ensures { ArePartsOfResponse head.now headers.new result }
{
    match parse_response(head, headers) {
        Ok(Status::Complete(spans)) => spans,
        _ => unreachable!(),
    }
}

fn status_of(code: u16) -> StatusCode
    requires { IsStatusCode code }
    ensures { result ≡ code }
{
    match StatusCode::from_u16(code) {
        Ok(status) => status,
        Err(_) => unreachable!(),
    }
}

fn is_interim_code(code: u16) -> bool
    ensures { result ≡ is_interim code }
{
    100 <= code && code < 200
}

/// Reads the final head of a response and skips the interim heads before it. What is behind it is
/// left unread.
fn read_final_head<S: Source>(
    alloc: Global,
    source: &mut S,
    interrupted: &mut u16,
) -> Result<Vec<u8>, Fault>
    requires below { interrupted.old < too_many_interrupted }
    ensures head { IfOk result (λ head. GivesWhat (S.stream source.old) (S.stream source.new)
        (λ given. IsFinalRead given head.items)) }
    ensures fault { IfErr result (Stops (S.stream source.old)
        (S.stream source.new) (Shows (max_head_bytes + 1) (RefusesHeads head_room))) }
    // If a read failed, no final head had come. If memory ran out, nothing behind a final head was
    // read.
    ensures unread { IfErr result (λ fault. fault ≡ ReadFault
        → GivesWhat (S.stream source.old) (S.stream source.new) (HasNoFinal head_room)) }
    ensures memory { IfErr result (λ fault. fault ≡ NoMemory
        → GivesWhat (S.stream source.old) (S.stream source.new) (IsOfHeads head_room)) }
    ensures streams { Reads
        (max_head_bytes + 1) interrupted.old (S.calls source.old) (S.calls source.new) result }
    ensures counted { (S.calls source.new).interrupted + interrupted.old
        ≡ (S.calls source.old).interrupted + interrupted.new }
    ensures below { OnOk result (interrupted.new < too_many_interrupted) }
{
    let mut headers = [EMPTY_HEADER_SPAN; MAX_HEAD_LINES];
    let mut most = MAX_HEAD_BYTES;
    let mut lines = MAX_HEAD_LINES;
    loop {
        let head = read_head(
            alloc,
            source,
            HeadKind::Response,
            &mut headers[..lines],
            most,
            interrupted,
        )?;
        let spans = parts_of(&head, &mut headers);
        // A head beyond the room for heads was already refused as `HeadTooLong`.
        if spans.code == 101 {
            return Err(Fault::BadHead);
        }
        if !is_interim_code(spans.code) {
            return Ok(head);
        }
        most -= head.len();
        lines -= spans.headers;
    }
}

/// What the heads of a response say.
#[derive(Clone, Copy, Debug, PartialEq, Eq)]
pub struct FinalHead {
    pub status: StatusCode,
    /// How many bytes the body has.
    pub size: usize,
    /// How many calls of the message were interrupted so far, fewer than 1,024. The count is passed
    /// to the function that reads the body.
    pub interrupted: u16,
}

/// Reads the heads of the next response (RFC 9112): interim heads, which are skipped, and the final
/// head. The body, of at most `limit` bytes, is left unread. Errors: each `Fault` but `WriteFault`.
pub fn read_response_head<S: Source>(
    alloc: Global,
    source: &mut S,
    limit: usize,
) -> Result<FinalHead, Fault>
    requires limit { limit < 2 ^ 31 }
    // The source gave the heads of a response, and no byte more.
    ensures head { IfOk result (λ head. GivesWhat (S.stream source.old) (S.stream source.new)
        (λ given. IsHeadRead limit given head.status head.size)) }
    ensures bound { IfOk result (λ head. head.size ≤ limit) }
    // What the source gave before a fault shows that fault, and none of it is behind a final head.
    ensures fault { IfErr result
        (Stops (S.stream source.old) (S.stream source.new) (ShowsNoHead limit)) }
    // A read fault has its cause, no call follows a failed one, and the number of calls is bounded.
    ensures streams { Reads (max_head_bytes + 1) 0 (S.calls source.old) (S.calls source.new) result }
    ensures counted { IfOk result (λ head. (S.calls source.new).interrupted
        ≡ (S.calls source.old).interrupted + head.interrupted) }
    ensures below { IfOk result (λ head. head.interrupted < too_many_interrupted) }
{
    let mut interrupted = 0u16;
    let head = read_final_head(alloc, source, &mut interrupted)?;
    let mut headers = [EMPTY_HEADER_SPAN; MAX_HEAD_LINES];
    let spans = parts_of(&head, &mut headers);
    let size = response_size(&head, &headers[..spans.headers], spans.code, limit)?;
    Ok(FinalHead {
        status: status_of(spans.code),
        size,
        interrupted,
    })
}

/// Reads the next response (RFC 9112): interim heads, which are skipped, the final head, and the
/// body that its Content-Length states, of at most `limit` bytes. What is behind the response is
/// left unread: that is why heads are read within their lines (`Source::read_in_line`). Errors:
/// each `Fault` but `WriteFault`.
pub fn read_response<S: Source>(
    alloc: Global,
    source: &mut S,
    limit: usize,
) -> Result<Response, Fault>
    requires limit { limit < 2 ^ 31 }
    // The source gave one whole response, and no byte more.
    ensures message { IfOk result (λ response. GivesWhat (S.stream source.old) (S.stream source.new)
        (λ bytes. IsResponseMessage limit bytes response)) }
    // What the source gave before a fault shows that fault, whatever follows.
    ensures fault { IfErr result (Stops (S.stream source.old) (S.stream source.new) (ShowsNoResponse limit)) }
    // A read fault has its cause, no call follows a failed one, and the number of calls is bounded.
    ensures streams { Reads
        (max_head_bytes + 1 + limit) 0 (S.calls source.old) (S.calls source.new) result }
{
    let mut interrupted = 0;
    let head = read_final_head(alloc, source, &mut interrupted)?;
    let mut headers = [EMPTY_HEADER_SPAN; MAX_HEAD_LINES];
    let spans = parts_of(&head, &mut headers);
    let size = response_size(&head, &headers[..spans.headers], spans.code, limit)?;
    let body = read_body(alloc, source, size, &mut interrupted)?;
    let fields = fields_of(alloc, &head, &headers[..spans.headers])?;
    Ok(Response {
        status: status_of(spans.code),
        fields,
        body: Bytes::new(body),
    })
}
