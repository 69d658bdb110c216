// Reads and writes bytes over any source and sink, within the bound on interrupted calls.
ghost use Rattle.std.specs.Prelude.{◌≡◌, ◌+◌, ◌<◌, ◌≤◌, [], ◌∷◌, length, take, IfOk, IfSome, IfNone, OnOk, OnErr};
ghost use Rattle.std.specs.Io.{StopsAt};
ghost use Rattle.httparse.specs.Ascii.{line_feed};
ghost use Rattle.wire_http.specs.Streams.{CallGives, FoundEnd, Gives, IsFlushed, Streams, Takes, TakesPart, too_many_interrupted};

use crate::{CallError, Sink, Source};

/// A read failed, or 1,024 reads were interrupted.
#[derive(Clone, Copy, Debug, PartialEq, Eq)]
pub struct ReadFault;

/// A write failed, or 1,024 writes were interrupted.
#[derive(Clone, Copy, Debug, PartialEq, Eq)]
pub struct WriteFault;

/// This many interrupted calls in one message are a fault. A message with 1,023 is still read or
/// written.
pub const TOO_MANY_INTERRUPTED: u16 = 1024;

/// Writes all of the bytes, or only a prefix of them if there is a fault. `interrupted` counts the
/// interrupted calls of the message that the bytes belong to, and is passed from one piece of the
/// message to the next.
pub fn write_all<W: Sink>(
    sink: &mut W,
    bytes: &[u8],
    interrupted: &mut u16,
) -> Result<(), WriteFault>
    requires { interrupted.old < too_many_interrupted }
    ensures ok { OnOk result (Takes (W.stream sink.old) (W.stream sink.new) bytes.now) }
    ensures part { OnErr result (TakesPart (W.stream sink.old) (W.stream sink.new) bytes.now) }
    ensures streams { Streams
        (length bytes.now) interrupted.old (W.calls sink.old) (W.calls sink.new) result }
    ensures counted { (W.calls sink.new).interrupted + interrupted.old
        ≡ (W.calls sink.old).interrupted + interrupted.new }
    ensures below { OnOk result (interrupted.new < too_many_interrupted) }
{
    let mut done = 0;
    while done < bytes.len() {
        match sink.write_some(&bytes[done..]) {
            Ok(n) => done += n,
            Err(CallError::Interrupted) => {
                *interrupted += 1;
                if *interrupted == TOO_MANY_INTERRUPTED {
                    return Err(WriteFault);
                }
            }
            Err(CallError::Failed) => return Err(WriteFault),
        }
    }
    Ok(())
}

/// Passes on what the sink has taken. `interrupted` counts the interrupted calls of the message.
pub fn flush<W: Sink>(sink: &mut W, interrupted: &mut u16) -> Result<(), WriteFault>
    requires { interrupted.old < too_many_interrupted }
    ensures none { Takes (W.stream sink.old) (W.stream sink.new) [] }
    ensures all { OnOk result (IsFlushed (W.stream sink.new)) }
    ensures streams { Streams 1 interrupted.old (W.calls sink.old) (W.calls sink.new) result }
    ensures counted { (W.calls sink.new).interrupted + interrupted.old
        ≡ (W.calls sink.old).interrupted + interrupted.new }
    ensures below { OnOk result (interrupted.new < too_many_interrupted) }
{
    while *interrupted != TOO_MANY_INTERRUPTED {
        match sink.flush() {
            Ok(()) => return Ok(()),
            Err(CallError::Interrupted) => *interrupted += 1,
            Err(CallError::Failed) => return Err(WriteFault),
        }
    }
    Err(WriteFault)
}

/// Returns the next byte, or `None` at the end. It reads no byte beyond that. `interrupted` counts
/// the interrupted calls of the message that the byte belongs to, and is passed from one byte of
/// the message to the next. A fault consumes no byte.
pub fn read_byte<R: Source>(source: &mut R, interrupted: &mut u16) -> Result<Option<u8>, ReadFault>
    requires { interrupted.old < too_many_interrupted }
    ensures some { IfOk result
        (λ byte. IfSome byte (λ b. Gives (R.stream source.old) (R.stream source.new) (b ∷ []))) }
    ensures end { IfOk result (λ byte. IfNone byte
        (Gives (R.stream source.old) (R.stream source.new) [] × FoundEnd (R.stream source.new))) }
    ensures err { OnErr result (Gives (R.stream source.old) (R.stream source.new) []) }
    ensures streams { Streams 1 interrupted.old (R.calls source.old) (R.calls source.new) result }
    ensures called { (R.calls source.old).made < (R.calls source.new).made }
    ensures counted { (R.calls source.new).interrupted + interrupted.old
        ≡ (R.calls source.old).interrupted + interrupted.new }
    ensures below { OnOk result (interrupted.new < too_many_interrupted) }
{
    let mut buffer = [0u8; 1];
    while *interrupted < TOO_MANY_INTERRUPTED {
        match source.read_some(&mut buffer) {
            Ok(0) => return Ok(None),
            Ok(_) => return Ok(Some(buffer[0])),
            Err(CallError::Interrupted) => *interrupted += 1,
            Err(CallError::Failed) => return Err(ReadFault),
        }
    }
    Err(ReadFault)
}

/// Reads some of the next bytes: at most as many as fit, nothing behind a line feed, and 0 only at
/// the end or if there is no room. `interrupted` counts the interrupted calls of the message that
/// the bytes belong to. A fault consumes no byte.
pub fn read_in_line<R: Source>(
    source: &mut R,
    buffer: &mut [u8],
    interrupted: &mut u16,
) -> Result<usize, ReadFault>
    requires { interrupted.old < too_many_interrupted }
    ensures bound { IfOk result (λ n. n ≤ length buffer.new) }
    ensures bytes { CallGives (R.stream source.old) (R.stream source.new) result buffer.new }
    ensures line { IfOk result (λ n. StopsAt (take n buffer.new) line_feed) }
    ensures streams { Streams 1 interrupted.old (R.calls source.old) (R.calls source.new) result }
    ensures counted { (R.calls source.new).interrupted + interrupted.old
        ≡ (R.calls source.old).interrupted + interrupted.new }
    ensures below { OnOk result (interrupted.new < too_many_interrupted) }
{
    while *interrupted < TOO_MANY_INTERRUPTED {
        match source.read_in_line(buffer) {
            Ok(n) => return Ok(n),
            Err(CallError::Interrupted) => *interrupted += 1,
            Err(CallError::Failed) => return Err(ReadFault),
        }
    }
    Err(ReadFault)
}
