// The fields of a message's head.
ghost use Rattle.std.specs.Prelude.{◌≡◌, ◌≤◌, List, ℕ, ◌∷◌, [], ◌++◌, IfOk, IfSome, IsTrue, All, length, map, slice_index};
ghost use Rattle.wire_http.specs.Bodies.{max_body_bytes};
ghost use Rattle.wire_http.specs.HeadFields.{IsFound, values};
ghost use Rattle.httparse.specs.Spans.{IsHeaderWithin, header_bytes};
ghost use Rattle.wire_narayana.specs.Framings.{IsLength, SayFraming, last_value};

use crate::broken::Broken;
use httparse::spans::HeaderSpan;
use std::alloc::Global;
use wire_http::{Found, MAX_BODY_BYTES, sole};

/// How a body ends.
#[derive(Clone, Copy, PartialEq, Eq, Debug)]
pub enum Framing {
    Length(usize),
    Chunks,
    /// It ends with the connection, so a body that was cut off looks like a whole one.
    End,
}

/// Whether a text doesn't begin with a plus sign, which `parse` would accept.
fn is_unsigned(text: &[u8]) -> bool
    ensures { IsTrue result → slice_index text.now 0 ≡ 43 → ⊥ }
{
    text.is_empty() || text[0] != b'+'
}

/// Returns the length that a text states, if it is within the limit.
fn length_in(text: &[u8]) -> Option<usize>
    ensures most { IfSome result (λ size. size ≤ max_body_bytes) }
    ensures length { IfSome result (λ size. IsLength text.now size) }
{
    if !is_unsigned(text) {
        return None;
    }
    let Ok(word) = str::from_utf8(text) else {
        return None;
    };
    match word.parse::<usize>() {
        Ok(size) if size <= MAX_BODY_BYTES => Some(size),
        _ => None,
    }
}

/// Returns how the body ends by the fields, or `unsaid` if they don't say. Returns `None` if the
/// fields are invalid.
pub(crate) fn framing_in(head: &[u8], headers: &[HeaderSpan], unsaid: Framing) -> Option<Framing>
    requires { All (IsHeaderWithin (length head.now)) headers.now }
    ensures { IfSome result (λ framing.
        SayFraming unsaid (map (header_bytes head.now) headers.now) framing) }
{
    let length = sole(head, headers, b"content-length");
    let coding = sole(head, headers, b"transfer-encoding");
    match (length, coding) {
        (Found::Absent, Found::Absent) => Some(unsaid),
        (Found::Sole(text), Found::Absent) => match length_in(text) {
            Some(size) => Some(Framing::Length(size)),
            None => None,
        },
        (Found::Absent, Found::Sole(text)) => {
            if text.eq_ignore_ascii_case(b"chunked") {
                Some(Framing::Chunks)
            } else {
                None
            }
        }
        _ => None,
    }
}

/// Returns these bytes as a text.
pub(crate) fn text_of(alloc: Global, bytes: &[u8]) -> Result<String, Broken>
    ensures { IfOk result (λ text. text.bytes.items ≡ bytes.now) }
{
    match str::from_utf8(bytes) {
        Ok(text) => Ok(String::from_str(alloc, text)?),
        Err(_) => Err(Broken::Bad),
    }
}

/// Returns the value of the last field of this name, ignoring case; empty if there is none.
pub(crate) fn value_in(
    alloc: Global,
    head: &[u8],
    headers: &[HeaderSpan],
    name: &[u8],
) -> Result<String, Broken>
    requires { All (IsHeaderWithin (length head.now)) headers.now }
    ensures { IfOk result (λ text. text.bytes.items
        ≡ last_value (values name.now (map (header_bytes head.now) headers.now))) }
{
    let mut last = b"".as_slice();
    for header in headers {
        if header.name.of(head).eq_ignore_ascii_case(name) {
            last = header.value.of(head);
        }
    }
    text_of(alloc, last)
}
