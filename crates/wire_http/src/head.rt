// Reads the head of a message of either kind. It reads line by line, so that nothing behind the
// head is consumed.
ghost use Rattle.std.specs.Prelude.{◌≡◌, ◌≢◌, ℕ, ◌+◌, ◌<◌, ◌≤◌, List, ◌++◌, length, IfOk, IfErr, OnOk, ◌==◌, ◌||◌, if◌then◌else◌};
ghost use Rattle.std.specs.List.{list_any};
ghost use Rattle.httparse.specs.Ascii.{space};
ghost use Rattle.wire_http.specs.Streams.{AllWell, FoundEnd, Gives, GivesWhat, Reads, too_many_interrupted};
ghost use Rattle.wire_http.specs.Faults.{Shows, Stops};
ghost use Rattle.wire_http.specs.Heads.{FailsAt, IsHeadState, HasNoHead, HasNoShorterHead, ends_empty, IsPart, is_space, MayLack, IsHeadWithin, RefusesHead, max_head_bytes};
ghost use Rattle.wire_http.specs.declared.fault.Fault.TheVariants.{NoMemory, ReadFault, WriteFault};

use crate::{Fault, Source, read_in_line};
use httparse::spans::{HeaderSpan, parse_request, parse_response};
use httparse::{Error, Status};
use std::alloc::Global;

/// The most bytes of a message's head, or of all heads of a response together.
pub const MAX_HEAD_BYTES: usize = 16_384;

/// The most field lines of a message's head, or of all heads of a response together.
pub const MAX_HEAD_LINES: usize = 64;

/// The room that is made before any byte comes: most heads are shorter.
const HEAD_ROOM: usize = 512;

/// The most bytes of a line that are read at once.
const PART: usize = 256;

/// Up to this many bytes the parser is asked behind each line.
const SHORT: usize = 64;

/// The two kinds of message.
#[derive(Clone, Copy, Debug, PartialEq, Eq)]
pub enum HeadKind {
    Request,
    Response,
}

/// What the bytes of a head so far are.
#[derive(Clone, Copy, Debug, PartialEq, Eq)]
pub enum HeadState {
    More,
    Whole,
    Bad,
    Long,
}

/// Returns this state if the head is within the limit on bytes, and `Long` otherwise.
fn if_within(within: bool, state: HeadState) -> HeadState
    ensures { result ≡ (if within then state else HeadState.Long) }
{
    if within { state } else { HeadState::Long }
}

/// Returns what these bytes of a request's head are.
fn look_at_request(bytes: &[u8], headers: &mut [HeaderSpan], most: usize) -> HeadState
    ensures { IsHeadState HeadKind.Request most (length headers.old) bytes.now result }
{
    match parse_request(bytes, headers) {
        Err(Error::TooManyHeaders) => HeadState::Long,
        Err(_) => HeadState::Bad,
        Ok(Status::Complete(_)) => if_within(bytes.len() <= most, HeadState::Whole),
        Ok(Status::Partial) => if_within(bytes.len() <= most, HeadState::More),
    }
}

/// Returns what these bytes of a response's head are.
fn look_at_response(bytes: &[u8], headers: &mut [HeaderSpan], most: usize) -> HeadState
    ensures { IsHeadState HeadKind.Response most (length headers.old) bytes.now result }
{
    match parse_response(bytes, headers) {
        Err(Error::TooManyHeaders) => HeadState::Long,
        Err(_) => HeadState::Bad,
        Ok(Status::Complete(_)) => if_within(bytes.len() <= most, HeadState::Whole),
        Ok(Status::Partial) => if_within(bytes.len() <= most, HeadState::More),
    }
}

/// Returns what these bytes of a head are. The head may have `most` bytes and as many field lines
/// as there are headers.
fn look(kind: HeadKind, bytes: &[u8], headers: &mut [HeaderSpan], most: usize) -> HeadState
    ensures { IsHeadState kind most (length headers.old) bytes.now result }
{
    match kind {
        HeadKind::Request => look_at_request(bytes, headers, most),
        HeadKind::Response => look_at_response(bytes, headers, most),
    }
}

fn is_space(byte: u8) -> bool
    ensures { result ≡ is_space byte }
{
    byte == b' '
}

fn has_space(bytes: &[u8]) -> bool
    ensures { result ≡ list_any is_space bytes.now }
{
    bytes.iter().any(|byte| is_space(*byte))
}

/// Whether a space has come, in these bytes or before them.
fn is_spaced(spaced: bool, part: &[u8]) -> bool
    ensures { result ≡ (spaced || list_any is_space part.now) }
{
    spaced || has_space(part)
}

fn ends_empty(bytes: &[u8]) -> bool
    ensures { result ≡ ends_empty bytes.now }
{
    bytes.ends_with(b"\n\n") || bytes.ends_with(b"\n\r\n")
}

/// Whether these bytes reach one of the three lengths at which garbage without a line end is looked
/// at.
fn is_at_length(before: usize, size: usize) -> bool {
    [16, 256, 4_096]
        .iter()
        .any(|length| before < *length && *length <= size)
}

/// Whether the parser is to be asked about these bytes, of which `before` came before the last
/// part. Asking more rarely changes no clause: only more bytes are taken before `BadHead`. So the
/// parser is asked where a head may end, and otherwise only a few times: a short bad first line is
/// refused at its end, and other garbage at three lengths. Empty lines before a head have no space,
/// so a peer that sends only line ends doesn't have the parser look behind each of them.
fn is_due(spaced: bool, before: usize, bytes: &[u8], most: usize) -> bool
    ensures { MayLack spaced bytes.now most result }
{
    let size = bytes.len();
    size > most
        || (spaced && ends_empty(bytes))
        || (size <= SHORT && bytes.ends_with(b"\n"))
        || is_at_length(before, size)
}

/// Moves some of the next bytes through a buffer to the end of `head`: at most `most`, and nothing
/// behind a line feed. Returns how many: 0 at the end.
fn take_part<S: Source>(
    source: &mut S,
    head: &mut Vec<u8>,
    buffer: &mut [u8; PART],
    most: usize,
    interrupted: &mut u16,
) -> Result<usize, Fault>
    requires below { interrupted.old < too_many_interrupted }
    requires some { 0 < most }
    ensures ok { IfOk result (λ n. (part : List ℕ)
        × (head.new.items ≡ head.old.items ++ part) × (length part ≡ n)
        × IsPart most (S.stream source.old) (S.stream source.new) part
        × (n ≡ 0 → FoundEnd (S.stream source.new))) }
    ensures fault { IfErr result (λ fault. (part : List ℕ)
        × IsPart most (S.stream source.old) (S.stream source.new) part × FailsAt fault part) }
    ensures streams { Reads 1 interrupted.old (S.calls source.old) (S.calls source.new) result }
    ensures counted { (S.calls source.new).interrupted + interrupted.old
        ≡ (S.calls source.old).interrupted + interrupted.new }
    ensures below { OnOk result (interrupted.new < too_many_interrupted) }
{
    let room = most.min(PART);
    let count = read_in_line(source, &mut buffer[..room], interrupted)?;
    head.extend_from_slice(&buffer[..count])?;
    Ok(count)
}

/// Returns the fault of an input that ends behind these bytes, if no prefix of them is a head.
fn fault_at_end(kind: HeadKind, bytes: &[u8], headers: &mut [HeaderSpan], most: usize) -> Fault
    requires none { HasNoHead kind bytes.now }
    requires most { length bytes.now ≤ most }
    ensures shown { Shows (most + 1) (RefusesHead kind most (length headers.old)) bytes.now result }
    ensures read { result ≢ ReadFault }
    ensures write { result ≢ WriteFault }
    ensures memory { result ≢ NoMemory }
{
    match look(kind, bytes, headers, most) {
        HeadState::Bad => Fault::BadHead,
        HeadState::Long => Fault::HeadTooLong,
        _ => Fault::Cut,
    }
}

/// Reads the bytes of the next head, which is of this kind and has at most `most` bytes and as many
/// field lines as there are headers. The bytes behind it are left unread.
pub fn read_head<S: Source>(
    alloc: Global,
    source: &mut S,
    kind: HeadKind,
    headers: &mut [HeaderSpan],
    most: usize,
    interrupted: &mut u16,
) -> Result<Vec<u8>, Fault>
    requires below { interrupted.old < too_many_interrupted }
    requires most { most ≤ max_head_bytes }
    ensures head { IfOk result (λ head. Gives (S.stream source.old) (S.stream source.new) head.items
        × IsHeadWithin kind most (length headers.old) head.items) }
    ensures fault { IfErr result (Stops (S.stream source.old)
        (S.stream source.new) (Shows (most + 1) (RefusesHead kind most (length headers.old)))) }
    // If a read failed, no head had come. If memory ran out, nothing behind a head was read.
    ensures unread { IfErr result (λ fault. fault ≡ ReadFault
        → GivesWhat (S.stream source.old) (S.stream source.new) (HasNoHead kind)) }
    ensures memory { IfErr result (λ fault. fault ≡ NoMemory
        → GivesWhat (S.stream source.old) (S.stream source.new) (HasNoShorterHead kind)) }
    ensures streams { Reads
        (most + 1) interrupted.old (S.calls source.old) (S.calls source.new) result }
    // At most one call for each byte.
    ensures each { IfOk result (λ head.
        AllWell (length head.items) interrupted.old (S.calls source.old) (S.calls source.new)) }
    ensures counted { (S.calls source.new).interrupted + interrupted.old
        ≡ (S.calls source.old).interrupted + interrupted.new }
    ensures below { OnOk result (interrupted.new < too_many_interrupted) }
{
    let mut head = Vec::with_capacity(alloc, HEAD_ROOM)?;
    let mut buffer = [0; PART];
    let mut spaced = false;
    loop {
        let before = head.len();
        let count = take_part(
            source,
            &mut head,
            &mut buffer,
            most + 1 - before,
            interrupted,
        )?;
        if count == 0 {
            return Err(fault_at_end(kind, &head, headers, most));
        }
        spaced = is_spaced(spaced, &head[before..]);
        if is_due(spaced, before, &head, most) {
            match look(kind, &head, headers, most) {
                HeadState::More => {}
                HeadState::Whole => return Ok(head),
                HeadState::Bad => return Err(Fault::BadHead),
                HeadState::Long => return Err(Fault::HeadTooLong),
            }
        }
    }
}
