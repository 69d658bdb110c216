// Reads the fields of a head that say how long its body is.
ghost use Rattle.std.specs.Prelude.{◌≡◌, ◌≢◌, ◌<◌, ◌≤◌, ◌^◌, ℕ, List, [], ◌∷◌, ◌++◌, length, map, min, All, IfOk, IfErr, Some, None, option_map, if◌then◌else◌};
ghost use Rattle.std.specs.List.{list_all};
ghost use Rattle.std.specs.Char.{is_ascii_digit};
ghost use Rattle.std.specs.Str.Parse.{digits_value};
ghost use Rattle.httparse.specs.Spans.{IsHeaderWithin, header_bytes};
ghost use Rattle.wire_http.specs.HeadFields.{IsFound, first_value, length_in, values, is_number, field_bytes, response_length, request_length};
ghost use Rattle.wire_http.specs.declared.fault.Fault.TheVariants.{NoMemory, WriteFault};

use crate::{Bytes, Fault, Field, Fields};
use httparse::spans::HeaderSpan;
use std::alloc::Global;

/// What the search for a field found.
#[derive(Clone, Copy)]
pub enum Found<'a> {
    Absent,
    Sole(&'a [u8]),
    Several,
}

/// Returns what has been found after one more field with the name.
fn with_one<'b>(found: Found<'b>, text: &'b [u8]) -> Found<'b>
    ensures { (texts : List (List ℕ)) →
        IsFound found.entry texts → IsFound result (texts ++ text.now ∷ []) }
{
    match found {
        Found::Absent => Found::Sole(text),
        _ => Found::Several,
    }
}

/// Searches the fields of a head for those of a name, in whichever case, and returns the value if one
/// field alone has that name.
pub fn sole<'b>(bytes: &'b [u8], headers: &[HeaderSpan], name: &[u8]) -> Found<'b>
    requires { All (IsHeaderWithin (length bytes.now)) headers.now }
    ensures { IsFound result (values name.now (map (header_bytes bytes.now) headers.now)) }
{
    let mut found = Found::Absent;
    for header in headers {
        if header.name.of(bytes).eq_ignore_ascii_case(name) {
            found = with_one(found, header.value.of(bytes));
        }
    }
    found
}

/// Whether these bytes are only digits.
fn all_digits(text: &[u8]) -> bool
    ensures { result ≡ list_all is_ascii_digit text.now }
{
    text.iter().all(|b| b.is_ascii_digit())
}

/// Whether these bytes are one or more digits and nothing else.
fn is_digits(text: &[u8]) -> bool
    ensures { result ≡ is_number text.now }
{
    !text.is_empty() && all_digits(text)
}

/// Returns the number that these bytes write, at most `most`, if they are only digits.
fn number(text: &[u8], most: usize) -> Option<usize>
    requires { most < 2 ^ 32 }
    ensures { result
        ≡ (if is_number text.now then Some (min (digits_value 10 text.now) most) else None) }
{
    if !is_digits(text) {
        return None;
    }
    let mut n = 0;
    for b in text {
        n = (n * 10 + usize::from(*b - b'0')).min(most);
    }
    Some(n)
}

fn length_in(text: &[u8], limit: usize) -> Result<usize, Fault>
    requires { limit < 2 ^ 31 }
    ensures length { result ≡ length_in limit text.now }
    ensures of_reading { IfErr result (λ fault. fault ≢ WriteFault) }
{
    match number(text, limit + 1) {
        None => Err(Fault::BadHead),
        Some(n) if n > limit => Err(Fault::BodyTooLong),
        Some(n) => Ok(n),
    }
}

/// Returns the length of the body behind a final head with this code, or the first fault of the
/// head.
pub fn response_size(
    bytes: &[u8],
    headers: &[HeaderSpan],
    code: u16,
    limit: usize,
) -> Result<usize, Fault>
    requires within { All (IsHeaderWithin (length bytes.now)) headers.now }
    requires limit { limit < 2 ^ 31 }
    ensures bound { IfOk result (λ size. size ≤ limit) }
    ensures length { result
        ≡ response_length limit code (map (header_bytes bytes.now) headers.now) }
    ensures status { IfOk result (λ _. 100 ≤ code) }
    ensures of_reading { IfErr result (λ fault. fault ≢ WriteFault) }
{
    if code < 100 {
        return Err(Fault::BadHead);
    }
    if !matches!(sole(bytes, headers, b"transfer-encoding"), Found::Absent) {
        return Err(Fault::NotOffered);
    }
    let bare = code == 204 || code == 304;
    match sole(bytes, headers, b"content-length") {
        Found::Absent if bare => Ok(0),
        Found::Absent => Err(Fault::LengthNeeded),
        Found::Several => Err(Fault::BadHead),
        Found::Sole(text) => match length_in(text, limit) {
            Ok(_) if bare => Ok(0),
            sized => sized,
        },
    }
}

/// Returns the length of the body of a request of this version, or the first fault of its fields.
pub fn request_size(
    bytes: &[u8],
    headers: &[HeaderSpan],
    minor: u8,
    limit: usize,
) -> Result<usize, Fault>
    requires within { All (IsHeaderWithin (length bytes.now)) headers.now }
    requires limit { limit < 2 ^ 31 }
    ensures bound { IfOk result (λ size. size ≤ limit) }
    ensures length { result
        ≡ request_length limit minor (map (header_bytes bytes.now) headers.now) }
    ensures of_reading { IfErr result (λ fault. fault ≢ WriteFault) }
{
    if !matches!(sole(bytes, headers, b"transfer-encoding"), Found::Absent) {
        return Err(Fault::NotOffered);
    }
    match sole(bytes, headers, b"host") {
        Found::Sole(_) => {}
        Found::Absent if minor == 0 => {}
        _ => return Err(Fault::BadHead),
    }
    match sole(bytes, headers, b"content-length") {
        Found::Absent => Ok(0),
        Found::Several => Err(Fault::BadHead),
        Found::Sole(text) => length_in(text, limit),
    }
}

impl Fields {
    /// Returns the value of the first field with this name, ignoring case.
    pub fn value(&self, name: &[u8]) -> Option<&[u8]>
        ensures { option_map (λ v. v.now) result ≡ first_value name.now (map field_bytes self.now) }
    {
        for field in self.as_slice() {
            if field.name.as_slice().eq_ignore_ascii_case(name) {
                return Some(field.value.as_slice());
            }
        }
        None
    }
}

/// Copies the fields of a head, in order.
pub fn fields_of(alloc: Global, bytes: &[u8], headers: &[HeaderSpan]) -> Result<Fields, Fault>
    requires { All (IsHeaderWithin (length bytes.now)) headers.now }
    ensures ok { IfOk result
        (λ fields. map field_bytes fields ≡ map (header_bytes bytes.now) headers.now) }
    ensures memory { IfErr result (λ fault. fault ≡ NoMemory) }
{
    let mut fields = Vec::with_capacity(alloc, headers.len())?;
    for header in headers {
        let name = Vec::from_slice(alloc, header.name.of(bytes))?;
        let value = Vec::from_slice(alloc, header.value.of(bytes))?;
        fields.push(Field {
            name: Bytes::new(name),
            value: Bytes::new(value),
        })?;
    }
    Ok(Fields::new(fields))
}
