// Messages whose body has any framing: a stated length, chunks, or everything until the connection
// ends.
ghost use Rattle.std.specs.Prelude.{◌≡◌, ◌≢◌, ◌≤◌, ◌<◌, ℕ, List, [], ◌++◌, IfOk, IfSome, OnOk, Some, All, length, map};
ghost use Rattle.httparse.specs.Grammar.{RequestHead};
ghost use Rattle.httparse.specs.Spans.{IsHeaderWithin, header_bytes};
ghost use Rattle.wire_http.specs.Bodies.{max_body_bytes};
ghost use Rattle.wire_http.specs.Streams.{Gives, GivesWhat, too_many_interrupted};
ghost use Rattle.wire_http.specs.HeadFields.{is_bare};
ghost use Rattle.wire_narayana.specs.Framings.{AreFields, IsAnswer, IsAskedBy, IsFinal, IsFramed, IsHeadText, IsRequest, framing_for};
ghost use Rattle.wire_narayana.specs.declared.fields.Framing.{Framing};
ghost use Rattle.wire_narayana.specs.declared.fields.Framing.TheVariants as ends;

use crate::broken::Broken;
use crate::chunks::{read_bytes, read_chunks};
use crate::fields::{Framing, framing_in, text_of, value_in};
use httparse::Status;
use httparse::spans::{EMPTY_HEADER_SPAN, HeaderSpan, parse_request, parse_response};
use std::alloc::Global;
use wire_http::{MAX_BODY_BYTES, MAX_HEAD_BYTES, MAX_HEAD_LINES, Source, read_byte};

/// The most heads of an answer, interim heads included.
const MAX_HEADS: usize = 8;

/// The fields of a request's head that are used.
#[derive(Drop)]
pub struct ServiceFields {
    pub link: String,
    pub lra: String,
    pub ended: String,
    pub parent: String,
    pub recovery: String,
}

/// A service's request.
#[derive(Drop)]
pub struct ServiceRequest {
    pub method: String,
    pub target: String,
    pub fields: ServiceFields,
    pub body: Vec<u8>,
}

/// A participant's answer.
#[derive(Drop)]
pub struct ParticipantResponse {
    pub code: u16,
    pub framing: Framing,
    pub body: Vec<u8>,
}

/// Reads bytes up to and including an empty line.
fn read_head<S: Source>(
    alloc: Global,
    source: &mut S,
    interrupted: &mut u16,
) -> Result<Vec<u8>, Broken>
    requires below { interrupted.old < too_many_interrupted }
    ensures gives { IfOk result
        (λ head. Gives (S.stream source.old) (S.stream source.new) head.items) }
    ensures below { OnOk result (interrupted.new < too_many_interrupted) }
{
    let mut head = Vec::new(alloc);
    while head.len() < MAX_HEAD_BYTES {
        let Some(byte) = read_byte(source, interrupted)? else {
            return Err(Broken::Bad);
        };
        head.push(byte)?;
        if byte == b'\n' && (head.ends_with(b"\r\n\r\n") || head.ends_with(b"\n\n")) {
            return Ok(head);
        }
    }
    Err(Broken::Bad)
}

/// Returns the fields of a head that are used.
fn fields_in(alloc: Global, head: &[u8], headers: &[HeaderSpan]) -> Result<ServiceFields, Broken>
    requires { All (IsHeaderWithin (length head.now)) headers.now }
    ensures { IfOk result (λ fields. AreFields fields (map (header_bytes head.now) headers.now)) }
{
    Ok(ServiceFields {
        link: value_in(alloc, head, headers, b"link")?,
        lra: value_in(alloc, head, headers, b"long-running-action")?,
        ended: value_in(alloc, head, headers, b"long-running-action-ended")?,
        parent: value_in(alloc, head, headers, b"long-running-action-parent")?,
        recovery: value_in(alloc, head, headers, b"long-running-action-recovery")?,
    })
}

/// Reads a body that has this framing.
fn read_body<S: Source>(
    alloc: Global,
    source: &mut S,
    framing: Framing,
    interrupted: &mut u16,
) -> Result<Vec<u8>, Broken>
    requires below { interrupted.old < too_many_interrupted }
    ensures body { IfOk result (λ body.
        GivesWhat (S.stream source.old) (S.stream source.new) (IsFramed framing body.items)) }
    ensures most { IfOk result (λ body. length body.items ≤ max_body_bytes) }
{
    match framing {
        Framing::Length(size) => {
            if size > MAX_BODY_BYTES {
                return Err(Broken::Bad);
            }
            read_bytes(alloc, source, size, interrupted)
        }
        Framing::Chunks => read_chunks(alloc, source, interrupted),
        Framing::End => Ok(Vec::new(alloc)),
    }
}

/// The contents of a request's head.
#[derive(Drop)]
struct HeadParts {
    method: String,
    target: String,
    fields: ServiceFields,
    framing: Framing,
}

/// Parses the head of a request. If it states no framing, the body is empty.
fn asked_by(alloc: Global, head: &[u8]) -> Result<HeadParts, Broken>
    ensures { IfOk result (λ asked. (h : RequestHead) × IsAskedBy
        h head.now asked.method.bytes.items asked.target.bytes.items asked.fields asked.framing) }
{
    let mut headers = [EMPTY_HEADER_SPAN; MAX_HEAD_LINES];
    let Ok(Status::Complete(spans)) = parse_request(head, &mut headers) else {
        return Err(Broken::Bad);
    };
    if spans.len != head.len() {
        return Err(Broken::Bad);
    }
    let Some(framing) = framing_in(head, &headers[..spans.headers], Framing::Length(0)) else {
        return Err(Broken::Bad);
    };
    Ok(HeadParts {
        method: text_of(alloc, spans.method.of(head))?,
        target: text_of(alloc, spans.path.of(head))?,
        fields: fields_in(alloc, head, &headers[..spans.headers])?,
        framing,
    })
}

/// Reads a request with its body: of a stated length, in chunks, or empty. A body has at most
/// 65,536 bytes, the head at most 16,384 bytes and 64 field lines.
pub fn read_request<S: Source>(alloc: Global, source: &mut S) -> Result<ServiceRequest, Broken>
    // The bytes read are one whole request and nothing more.
    ensures request { IfOk result (λ request. GivesWhat (S.stream source.old) (S.stream source.new)
        (IsRequest request.method.bytes.items request.target.bytes.items request.fields request.body.items)) }
    ensures most { IfOk result (λ request. length request.body.items ≤ max_body_bytes) }
{
    let mut interrupted = 0;
    let head = read_head(alloc, source, &mut interrupted)?;
    let asked = asked_by(alloc, &head)?;
    let body = read_body(alloc, source, asked.framing, &mut interrupted)?;
    Ok(ServiceRequest {
        method: asked.method,
        target: asked.target,
        fields: asked.fields,
        body,
    })
}

/// Whether a response of this code has no body (RFC 9112, section 6.3).
fn is_bare(code: u16) -> bool
    ensures { result ≡ is_bare code }
{
    code == 204 || code == 304
}

/// Returns what the head of a response says: its code, and how its body ends.
fn said_by(head: &[u8]) -> Option<(u16, Framing)>
    ensures { IfSome result (λ said. IsHeadText said.0 said.1 head.now) }
{
    let mut headers = [EMPTY_HEADER_SPAN; MAX_HEAD_LINES];
    let Ok(Status::Complete(spans)) = parse_response(head, &mut headers) else {
        return None;
    };
    if spans.len != head.len() {
        return None;
    }
    match framing_in(head, &headers[..spans.headers], Framing::End) {
        Some(framing) => Some((spans.code, framing)),
        None => None,
    }
}

/// Reads the final head of an answer, after any interim heads.
fn read_final<S: Source>(
    alloc: Global,
    source: &mut S,
    interrupted: &mut u16,
) -> Result<(u16, Framing), Broken>
    requires below { interrupted.old < too_many_interrupted }
    ensures head { IfOk result (λ said.
        GivesWhat (S.stream source.old) (S.stream source.new) (IsFinal said.0 said.1)) }
    ensures below { OnOk result (interrupted.new < too_many_interrupted) }
{
    let mut count = 0;
    while count < MAX_HEADS {
        let head = read_head(alloc, source, interrupted)?;
        let Some((code, framing)) = said_by(&head) else {
            return Err(Broken::Bad);
        };
        if code >= 200 {
            return Ok((code, framing));
        }
        count += 1;
    }
    Err(Broken::Bad)
}

/// Returns how the body of a response with this code ends, if its fields say `said`.
fn framing_for(code: u16, said: Framing) -> Framing
    ensures { result ≡ framing_for code said }
{
    if is_bare(code) { Framing::End } else { said }
}

/// Reads an answer with its body: of a stated length, or in chunks. A body that ends with the
/// connection isn't read, because one that was cut off looks like a whole one. Such an answer
/// counts by its code alone, and a 200 not at all. A body has at most 65,536 bytes, each head at
/// most 16,384 bytes and 64 field lines, and there are at most eight heads, interim heads included.
pub fn read_answer<S: Source>(alloc: Global, source: &mut S) -> Result<ParticipantResponse, Broken>
    // The bytes read are one whole answer and nothing more.
    ensures answer { IfOk result (λ answer. GivesWhat (S.stream source.old) (S.stream source.new)
        (IsAnswer answer.code answer.framing answer.body.items)) }
    ensures most { IfOk result (λ answer. length answer.body.items ≤ max_body_bytes) }
    // If the text is known to begin with an answer, exactly that answer is read; if it is cut off,
    // none is.
    ensures exact { IfOk result (λ answer. (code : ℕ) (framing : Framing) (body text rest : List ℕ) →
        IsAnswer code framing body text → (S.stream source.old).left ≡ Some (text ++ rest) →
        (answer.code ≡ code) × (answer.framing ≡ framing) × (answer.body.items ≡ body)
        × ((S.stream source.new).left ≡ Some rest)) }
    ensures cut { OnOk result ((code : ℕ) (framing : Framing) (body text more : List ℕ) →
        IsAnswer code framing body (text ++ more) → (S.stream source.old).left ≡ Some text → more ≡ []) }
    ensures whole { IfOk result (λ answer. answer.code ≡ 200 → answer.framing ≢ ends.End) }
{
    let mut interrupted = 0;
    let (code, said) = read_final(alloc, source, &mut interrupted)?;
    let framing = framing_for(code, said);
    if code == 200 && framing == Framing::End {
        return Err(Broken::Bad);
    }
    let body = read_body(alloc, source, framing, &mut interrupted)?;
    Ok(ParticipantResponse {
        code,
        framing,
        body,
    })
}

/// A text begins with at most one answer, and no answer is the beginning of another.
pub fn one_answer()
    ensures { (c d : ℕ) (f g : Framing) (a b s t x y : List ℕ) → IsAnswer c f a s → IsAnswer d g b t →
        s ++ x ≡ t ++ y → (c ≡ d) × (f ≡ g) × (a ≡ b) × (s ≡ t) × (x ≡ y) }
{}
