// Reads the body of a message in pieces.
ghost use Rattle.std.specs.Prelude.{◌≡◌, ℕ, ◌+◌, ◌<◌, ◌≤◌, List, ◌++◌, length, IfOk, IfErr, OnOk};
ghost use Rattle.wire_http.specs.Streams.{CallGives, Gives, Reads, Streams, too_many_interrupted};
ghost use Rattle.wire_http.specs.Bodies.{RefusesBody};
ghost use Rattle.wire_http.specs.Faults.{Shows, Stops};

use crate::{CallError, Fault, Source, TOO_MANY_INTERRUPTED};
use std::alloc::Global;

/// The most bytes of a body, unless the caller sets another limit.
pub const MAX_BODY_BYTES: usize = 65_536;

/// Reads at most as many bytes as fit, and 0 only at the end or if there is no room. `interrupted`
/// counts the interrupted calls of the message.
pub fn read_piece<S: Source>(
    source: &mut S,
    buffer: &mut [u8],
    interrupted: &mut u16,
) -> Result<usize, crate::ReadFault>
    requires { interrupted.old < too_many_interrupted }
    ensures bound { IfOk result (λ n. n ≤ length buffer.new) }
    ensures bytes { CallGives (S.stream source.old) (S.stream source.new) result buffer.new }
    ensures streams { Streams 1 interrupted.old (S.calls source.old) (S.calls source.new) result }
    ensures counted { (S.calls source.new).interrupted + interrupted.old
        ≡ (S.calls source.old).interrupted + interrupted.new }
    ensures below { OnOk result (interrupted.new < too_many_interrupted) }
{
    while *interrupted < TOO_MANY_INTERRUPTED {
        match source.read_some(buffer) {
            Ok(n) => return Ok(n),
            Err(CallError::Interrupted) => *interrupted += 1,
            Err(CallError::Failed) => return Err(crate::ReadFault),
        }
    }
    Err(crate::ReadFault)
}

/// Appends the next bytes to `body`: at least one, at most `most`.
fn take_piece<S: Source>(
    source: &mut S,
    body: &mut Vec<u8>,
    most: usize,
    interrupted: &mut u16,
) -> Result<(), Fault>
    requires below { interrupted.old < too_many_interrupted }
    requires some { 0 < most }
    ensures ok { OnOk result ((piece : List ℕ)
        × (body.new.items ≡ body.old.items ++ piece) × (0 < length piece)
        × (length piece ≤ most) × Gives (S.stream source.old) (S.stream source.new) piece) }
    ensures fault { IfErr result
        (Stops (S.stream source.old) (S.stream source.new) (Shows most (RefusesBody 1))) }
    ensures streams { Reads 1 interrupted.old (S.calls source.old) (S.calls source.new) result }
    ensures counted { (S.calls source.new).interrupted + interrupted.old
        ≡ (S.calls source.old).interrupted + interrupted.new }
    ensures below { OnOk result (interrupted.new < too_many_interrupted) }
{
    let mut piece = [0; 512];
    let room = most.min(512);
    let n = read_piece(source, &mut piece[..room], interrupted)?;
    if n == 0 {
        return Err(Fault::Cut);
    }
    body.extend_from_slice(&piece[..n])?;
    Ok(())
}

/// Reads a body of this length.
pub fn read_body<S: Source>(
    alloc: Global,
    source: &mut S,
    size: usize,
    interrupted: &mut u16,
) -> Result<Vec<u8>, Fault>
    requires below { interrupted.old < too_many_interrupted }
    ensures ok { IfOk result (λ body. (length body.items ≡ size)
        × Gives (S.stream source.old) (S.stream source.new) body.items) }
    ensures fault { IfErr result
        (Stops (S.stream source.old) (S.stream source.new) (Shows size (RefusesBody size))) }
    ensures streams { Reads size interrupted.old (S.calls source.old) (S.calls source.new) result }
    ensures counted { (S.calls source.new).interrupted + interrupted.old
        ≡ (S.calls source.old).interrupted + interrupted.new }
    ensures below { OnOk result (interrupted.new < too_many_interrupted) }
{
    let mut body = Vec::new(alloc);
    while body.len() < size {
        let room = size - body.len();
        take_piece(source, &mut body, room, interrupted)?;
    }
    Ok(body)
}
