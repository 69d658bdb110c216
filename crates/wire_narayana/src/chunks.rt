// Bodies in chunks.
ghost use Rattle.std.specs.Prelude.{◌≡◌, ℕ, ◌<◌, ◌≤◌, List, [], ◌++◌, MatchBool, length, IfOk, IfSome, OnOk, Some};
ghost use Rattle.wire_http.specs.Streams.{Gives, GivesWhat, too_many_interrupted};
ghost use Rattle.wire_http.specs.Bodies.{max_body_bytes};
ghost use Rattle.wire_narayana.specs.Chunks.{IsChunked, IsLine, IsSection, IsSizeLine, crlf};

use crate::broken::Broken;
use httparse::{Status, parse_chunk_size};
use std::alloc::Global;
use wire_http::{MAX_BODY_BYTES, MAX_HEAD_LINES, Source, read_byte};

/// The most bytes of a line before a chunk, or of a trailer, including its end.
pub const MAX_LINE_BYTES: usize = 1024;

/// Reads the next line, including its end.
fn read_line<S: Source>(
    alloc: Global,
    source: &mut S,
    interrupted: &mut u16,
) -> Result<Vec<u8>, Broken>
    requires below { interrupted.old < too_many_interrupted }
    ensures gives { IfOk result
        (λ line. Gives (S.stream source.old) (S.stream source.new) line.items) }
    ensures line { IfOk result (λ line. IsLine line.items) }
    ensures below { OnOk result (interrupted.new < too_many_interrupted) }
{
    let mut line = Vec::new(alloc);
    while line.len() < MAX_LINE_BYTES {
        let Some(byte) = read_byte(source, interrupted)? else {
            return Err(Broken::Bad);
        };
        line.push(byte)?;
        if byte == b'\n' {
            return Ok(line);
        }
    }
    Err(Broken::Bad)
}

/// Reads the next `size` bytes.
pub(crate) fn read_bytes<S: Source>(
    alloc: Global,
    source: &mut S,
    size: usize,
    interrupted: &mut u16,
) -> Result<Vec<u8>, Broken>
    requires below { interrupted.old < too_many_interrupted }
    ensures gives { IfOk result
        (λ bytes. Gives (S.stream source.old) (S.stream source.new) bytes.items) }
    ensures size { IfOk result (λ bytes. length bytes.items ≡ size) }
    ensures below { OnOk result (interrupted.new < too_many_interrupted) }
{
    let mut bytes = Vec::new(alloc);
    while bytes.len() < size {
        let Some(byte) = read_byte(source, interrupted)? else {
            return Err(Broken::Bad);
        };
        bytes.push(byte)?;
    }
    Ok(bytes)
}

/// Whether a line has nothing but its end.
fn is_empty(line: &[u8]) -> bool
    ensures { MatchBool result (line.now ≡ crlf) (line.now ≡ crlf → ⊥) }
{
    line == b"\r\n".as_slice()
}

/// Returns how many bytes follow this line, or `None` if the line is malformed or they are more
/// than `most`.
fn size_in(line: &[u8], most: usize) -> Option<usize>
    ensures line { IfSome result (λ size. IsSizeLine size line.now) }
    ensures most { IfSome result (λ size. size ≤ most) }
{
    let Ok(Status::Complete((end, size))) = parse_chunk_size(line) else {
        return None;
    };
    if end != line.len() || size > most as u64 {
        return None;
    }
    Some(size as usize)
}

/// Reads the line before a chunk and returns how many bytes follow, at most `most`.
fn read_size<S: Source>(
    alloc: Global,
    source: &mut S,
    most: usize,
    interrupted: &mut u16,
) -> Result<usize, Broken>
    requires below { interrupted.old < too_many_interrupted }
    ensures line { IfOk result (λ size.
        GivesWhat (S.stream source.old) (S.stream source.new) (IsSizeLine size)) }
    ensures most { IfOk result (λ size. size ≤ most) }
    ensures below { OnOk result (interrupted.new < too_many_interrupted) }
{
    let line = read_line(alloc, source, interrupted)?;
    match size_in(&line, most) {
        Some(size) => Ok(size),
        None => Err(Broken::Bad),
    }
}

/// Reads the `size` bytes of a chunk, and the end of line behind them.
fn read_data<S: Source>(
    alloc: Global,
    source: &mut S,
    size: usize,
    interrupted: &mut u16,
) -> Result<Vec<u8>, Broken>
    requires below { interrupted.old < too_many_interrupted }
    ensures gives { IfOk result
        (λ bytes. Gives (S.stream source.old) (S.stream source.new) (bytes.items ++ crlf)) }
    ensures size { IfOk result (λ bytes. length bytes.items ≡ size) }
    ensures below { OnOk result (interrupted.new < too_many_interrupted) }
{
    let bytes = read_bytes(alloc, source, size, interrupted)?;
    let end = read_bytes(alloc, source, 2, interrupted)?;
    if !is_empty(&end) {
        return Err(Broken::Bad);
    }
    Ok(bytes)
}

/// Skips the trailers and reads the empty line behind them.
fn skip_trailers<S: Source>(
    alloc: Global,
    source: &mut S,
    interrupted: &mut u16,
) -> Result<(), Broken>
    requires below { interrupted.old < too_many_interrupted }
    ensures section { OnOk result
        (GivesWhat (S.stream source.old) (S.stream source.new) IsSection) }
    ensures below { OnOk result (interrupted.new < too_many_interrupted) }
{
    let mut count = 0;
    while count < MAX_HEAD_LINES {
        let line = read_line(alloc, source, interrupted)?;
        if is_empty(&line) {
            return Ok(());
        }
        count += 1;
    }
    Err(Broken::Bad)
}

/// Reads a body in chunks (RFC 9112, section 7.1), and no byte beyond it. The body has at most
/// 65,536 bytes, each line at most 1,024, and there are fewer than 64 trailers. A size has at most
/// 16 digits.
pub fn read_chunks<S: Source>(
    alloc: Global,
    source: &mut S,
    interrupted: &mut u16,
) -> Result<Vec<u8>, Broken>
    requires below { interrupted.old < too_many_interrupted }
    // The bytes read are one whole body, and the result is the bytes of its chunks.
    ensures body { IfOk result (λ body.
        GivesWhat (S.stream source.old) (S.stream source.new) (IsChunked body.items)) }
    ensures most { IfOk result (λ body. length body.items ≤ max_body_bytes) }
    // If the text is known to begin with a body, exactly that body is read; if it is cut off, none
    // is.
    ensures exact { IfOk result (λ body. (bytes text rest : List ℕ) → IsChunked bytes text →
        (S.stream source.old).left ≡ Some (text ++ rest) →
        (body.items ≡ bytes) × ((S.stream source.new).left ≡ Some rest)) }
    ensures cut { OnOk result ((bytes text more : List ℕ) → IsChunked bytes (text ++ more) →
        (S.stream source.old).left ≡ Some text → more ≡ []) }
    ensures below { OnOk result (interrupted.new < too_many_interrupted) }
{
    let mut body = Vec::new(alloc);
    loop {
        let room = MAX_BODY_BYTES - body.len();
        let size = read_size(alloc, source, room, interrupted)?;
        if size == 0 {
            skip_trailers(alloc, source, interrupted)?;
            return Ok(body);
        }
        let bytes = read_data(alloc, source, size, interrupted)?;
        body.extend_from_slice(&bytes)?;
    }
}

/// A text begins with at most one body in chunks, and no body is the beginning of another.
pub fn one_body()
    ensures { (a b s t x y : List ℕ) → IsChunked a s → IsChunked b t → s ++ x ≡ t ++ y →
        (a ≡ b) × (s ≡ t) × (x ≡ y) }
{}
