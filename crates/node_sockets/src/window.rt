// Finds out how much of a request has come, and what its head says about the rest.

use httparse::{EMPTY_HEADER, Header, Request, Status};
use wire_http::{MAX_BODY_BYTES, MAX_HEAD_BYTES, MAX_HEAD_LINES};

/// The most bytes of a request that is looked at while it comes: as many as a head may have. A
/// worker reads a longer request as it comes.
const LONGEST: usize = MAX_HEAD_BYTES;

/// How many bytes are looked at, so that a longer request is recognized.
pub(crate) const WINDOW: usize = LONGEST + 1;

/// How many bytes are looked at first. Most requests have fewer, and a buffer is cleared before
/// each look.
pub(crate) const GLANCE: usize = 2_048;

/// How much of a request has come.
#[derive(Clone, Copy, PartialEq, Eq, Debug)]
pub enum Extent {
    /// A part of its head, or of its body.
    Part,
    /// All of it, or a head that is refused whatever follows: a worker needn't wait for more.
    Whole,
    /// The start of a longer request.
    Long,
}

/// What a look at a request shows.
#[derive(Clone, Copy, PartialEq, Eq, Debug)]
pub struct Sight {
    pub extent: Extent,
    /// Whether its client waits for the interim answer 100 before it sends the body.
    pub awaits_continue: bool,
}

impl Sight {
    fn of(extent: Extent) -> Sight {
        Sight {
            extent,
            awaits_continue: false,
        }
    }
}

fn is_named(header: &Header, name: &str) -> bool {
    header.name.eq_ignore_ascii_case(name)
}

/// Returns how many fields have this name.
fn count_of(headers: &[Header], name: &str) -> usize {
    headers
        .iter()
        .filter(|header| is_named(header, name))
        .count()
}

/// Whether there are as many Host fields as a request of this version must have.
fn has_right_hosts(minor: u8, headers: &[Header]) -> bool {
    let count = count_of(headers, "host");
    count == 1 || (count == 0 && minor == 0)
}

/// Returns the number that digits alone write. A number that is too great for a length stays too
/// great.
fn number_in(text: &[u8]) -> Option<usize> {
    if text.is_empty() {
        return None;
    }
    let mut number = 0usize;
    for byte in text {
        if !byte.is_ascii_digit() {
            return None;
        }
        let digit = usize::from(byte.saturating_sub(b'0'));
        number = number.saturating_mul(10).saturating_add(digit);
    }
    Some(number)
}

/// Returns the length of a body that a field states, unless the field is refused.
fn length_in(header: &Header) -> Option<usize> {
    match number_in(header.value) {
        Some(length) if length <= MAX_BODY_BYTES => Some(length),
        _ => None,
    }
}

/// Returns the length of the body that the fields state, 0 if they state none, or `None` if they
/// are refused.
fn stated_length(headers: &[Header]) -> Option<usize> {
    let mut stated = headers
        .iter()
        .filter(|header| is_named(header, "content-length"));
    match (stated.next(), stated.next()) {
        (None, _) => Some(0),
        (Some(header), None) => length_in(header),
        _ => None,
    }
}

/// Returns the length of the body that a head states, 0 if it states none, or `None` if the head is
/// refused. These are the rules by which a worker reads a request (`read_request` of `wire_http`).
fn length_of(minor: u8, headers: &[Header]) -> Option<usize> {
    if count_of(headers, "transfer-encoding") > 0 || !has_right_hosts(minor, headers) {
        return None;
    }
    stated_length(headers)
}

/// Returns the body of a whole request, as long as its head states, or `None` if there is no whole
/// request or it is refused.
pub(crate) fn body_of(bytes: &[u8]) -> Option<&[u8]> {
    let mut headers = [EMPTY_HEADER; MAX_HEAD_LINES];
    let mut request = Request::new(&mut headers);
    let Ok(Status::Complete(head)) = request.parse(bytes) else {
        return None;
    };
    let length = length_of(request.version.unwrap_or(0), request.headers)?;
    bytes.get(head..head.saturating_add(length))
}

/// Whether a client of this version waits for the interim answer 100 before it sends the body (RFC
/// 9110, section 10.1.1).
fn awaits_continue(minor: u8, headers: &[Header]) -> bool {
    minor == 1
        && headers.iter().any(|header| {
            is_named(header, "expect") && header.value.eq_ignore_ascii_case(b"100-continue")
        })
}

/// Returns what this many bytes show if their head ends at a position and has these fields.
fn sight_behind(count: usize, head: usize, minor: u8, headers: &[Header]) -> Sight {
    let Some(length) = length_of(minor, headers) else {
        return Sight::of(Extent::Whole);
    };
    let whole = head.saturating_add(length);
    if count >= whole || head > LONGEST {
        return Sight::of(Extent::Whole);
    }
    let extent = if whole <= LONGEST {
        Extent::Part
    } else {
        Extent::Long
    };
    Sight {
        extent,
        awaits_continue: awaits_continue(minor, headers),
    }
}

/// Returns what these bytes of a request show: all that have come, or the first 16,385.
pub fn sight_of(bytes: &[u8]) -> Sight {
    let mut headers = [EMPTY_HEADER; MAX_HEAD_LINES];
    let mut request = Request::new(&mut headers);
    match request.parse(bytes) {
        Ok(Status::Complete(head)) => {
            let minor = request.version.unwrap_or(0);
            sight_behind(bytes.len(), head, minor, request.headers)
        }
        Ok(Status::Partial) if bytes.len() <= LONGEST => Sight::of(Extent::Part),
        // It is not a head, or it is too long.
        _ => Sight::of(Extent::Whole),
    }
}
