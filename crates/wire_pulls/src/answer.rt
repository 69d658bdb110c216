// Reads the delta out of the answer to a pull.
ghost use Rattle.std.specs.Prelude.{◌≡◌, ◌≢◌, ◌<◌, Result, Err, IfErr, IfOk, IfSome};
ghost use Rattle.wire_frames.specs.Frames.{Frame};
ghost use Rattle.wire_frames.specs.declared.input.Stop.{Stop as TheStop};
ghost use Rattle.wire_http.specs.Streams.{too_many_interrupted};
ghost use Rattle.wire_pulls.specs.PullAnswers.{IsBodyRead, IsFound, StopsPull, TellsDelta, error_of, other_of, told_by};

use crate::PullError;
use std::alloc::Global;
use wire_frames::{Delta, Stop};
use wire_http::{Fault, FinalHead, Source, read_response_head};

/// The most bytes of a frame, and so of an answer's body.
pub const MAX_FRAME_BYTES: usize = 67_108_864;

fn error_of(stop: Stop) -> PullError
    ensures { result ≡ error_of stop }
{
    match stop {
        Stop::Fault(place) => PullError::BadFrame(place),
        Stop::Cut => PullError::Fault(Fault::Cut),
        Stop::ReadFault => PullError::Fault(Fault::ReadFault),
        Stop::Memory => PullError::Fault(Fault::NoMemory),
    }
}

/// Returns the error for an answer whose status isn't 200.
fn other_of(status: u16) -> PullError
    ensures { result ≡ other_of status }
{
    if status == 421 {
        PullError::Misdirected
    } else {
        PullError::Fault(Fault::NotOffered)
    }
}

/// Reads the delta out of the body, whose size the head states.
fn body_of<R: Source>(alloc: Global, reader: &mut R, head: FinalHead) -> Result<Delta, PullError>
    requires { head.interrupted < too_many_interrupted }
    ensures { (read : Result Frame TheStop) × (result ≡ told_by read)
        × IsBodyRead head.size head.interrupted (R.stream reader.old)
        (R.stream reader.new) (R.calls reader.old) (R.calls reader.new) read }
{
    let mut interrupted = head.interrupted;
    match Delta::read(alloc, reader, head.size as u64, &mut interrupted) {
        Ok(delta) => Ok(delta),
        Err(stop) => Err(error_of(stop)),
    }
}

/// Reads the delta of an answer whose heads were read. The status must be 200.
fn delta_of<R: Source>(alloc: Global, reader: &mut R, head: FinalHead) -> Result<Delta, PullError>
    requires { head.interrupted < too_many_interrupted }
    ensures other { head.status ≢ 200 →
        (result ≡ Err (other_of head.status)) × (reader.new ≡ reader.old) }
    ensures body { head.status ≡ 200 → (read : Result Frame TheStop) × (result ≡ told_by read)
        × IsBodyRead head.size head.interrupted (R.stream reader.old)
        (R.stream reader.new) (R.calls reader.old) (R.calls reader.new) read }
{
    if head.status.as_u16() != 200 {
        return Err(other_of(head.status.as_u16()));
    }
    body_of(alloc, reader, head)
}

/// Reads the delta out of the next response.
pub fn read_answer<R: Source>(alloc: Global, reader: &mut R) -> Result<Delta, PullError>
    ensures message { IfOk result (TellsDelta (R.stream reader.old)
        (R.stream reader.new) (R.calls reader.old) (R.calls reader.new)) }
    ensures error { IfErr result (StopsPull (R.stream reader.old)
        (R.stream reader.new) (R.calls reader.old) (R.calls reader.new)) }
    ensures found { IfSome (R.stream reader.old).left (λ input. IsFound input result) }
{
    match read_response_head(alloc, reader, MAX_FRAME_BYTES) {
        Ok(head) => delta_of(alloc, reader, head),
        Err(fault) => Err(PullError::Fault(fault)),
    }
}
