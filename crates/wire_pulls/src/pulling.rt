// Asks another node for what this node lacks.
ghost use Rattle.std.specs.Prelude.{◌≡◌, ◌⊎◌, ◌++◌, ⊤, List, ℕ, IfErr, IfOk, IfSome, MatchResult, OnOk};
ghost use Rattle.wire_frames.specs.Frames.{Frame};
ghost use Rattle.wire_frames.specs.declared.version.Version.{Version};
ghost use Rattle.wire_frames.specs.Rules.{IsDeltaAs};
ghost use Rattle.wire_frames.specs.Encoding.{encoding_as};
ghost use Rattle.wire_pulls.specs.PullAnswers.{IsAnswer, IsOfStreams, IsUnsent, IsUnsentBy, StopsPull, TellsDelta};
ghost use Rattle.wire_pulls.specs.Texts.{pull_text};
ghost use Rattle.wire_http.specs.Streams.{IsSent};

use crate::PullError;
use crate::answer::read_answer;
use crate::asking::pull_request;
use state_ids::Front;
use std::alloc::Global;
use wire_frames::Delta;
use wire_http::{Fault, Sink, Source, write_request};

/// Writes the request.
fn write_pull_request<W: Sink>(
    alloc: Global,
    writer: &mut W,
    query: &str,
    front: &Front,
) -> Result<(), Fault>
    ensures sent { OnOk result (IsSent (W.stream writer.old)
        (W.stream writer.new) (W.calls writer.old) (W.calls writer.new) (pull_text query.now front.now)) }
    ensures unsent { IfErr result (IsUnsent (W.stream writer.old) (W.stream writer.new)
        (W.calls writer.old) (W.calls writer.new) (pull_text query.now front.now) ⊤ (writer.new ≡ writer.old)) }
{
    let request = pull_request(alloc, query, front)?;
    write_request(alloc, writer, &request)
}

/// Asks another node for what a node lacks that has the facts which a front counts. It writes the
/// request of a pull, whose target is `/peer/pull` and the query as given, and reads the delta out
/// of one response with status 200, whose body has at most 67,108,864 bytes, field by field as it
/// comes. The query is empty, or begins with its question mark. What is behind the response is left
/// unread: that is why its head is read one byte a call, so use a buffered reader over a socket. It
/// asks once, and applies nothing: the delta is for `wire_frames::prepare`, which also checks that it
/// is for as many nodes.
///
/// Errors: Misdirected for status 421, by which a node refuses what was asked of another; each
/// `Fault`, with NotOffered for any status other than 200 and 421; and E16 with its place if the
/// body is not a frame. For Misdirected and NotOffered the body is left unread. E16 comes as soon
/// as the first bad field has come, and nothing behind that field is read.
///
/// It checks no more than it must. It follows no redirect, and it ignores Content-Type, because a
/// frame is recognized by its first bytes. The node that is asked refuses a front with counts that
/// are too great.
pub fn pull<R: Source, W: Sink>(
    alloc: Global,
    reader: &mut R,
    writer: &mut W,
    query: &str,
    front: &Front,
) -> Result<Delta, PullError>
    // The whole request was written and passed on. What was given since is one whole response with
    // status 200, whose body encodes the delta, and no byte more. No call failed.
    ensures message { IfOk result (λ delta. IsSent (W.stream writer.old)
        (W.stream writer.new) (W.calls writer.old) (W.calls writer.new) (pull_text query.now front.now)
        × TellsDelta (R.stream reader.old)
        (R.stream reader.new) (R.calls reader.old) (R.calls reader.new) delta) }
    // When each error comes. Either the request wasn't sent: a write failed behind a prefix of it,
    // or memory ran out before anything was written, and then nothing was read. Or all of it was
    // written, and what was given shows why there is no delta, or a read failed.
    ensures error { IfErr result (λ error. IsUnsentBy (W.stream writer.old)
        (W.stream writer.new) (W.calls writer.old) (W.calls writer.new) (pull_text query.now front.now)
        (reader.new ≡ reader.old) ((writer.new ≡ writer.old) × (reader.new ≡ reader.old)) error
        ⊎ (IsSent (W.stream writer.old) (W.stream writer.new) (W.calls writer.old)
        (W.calls writer.new) (pull_text query.now front.now) × StopsPull (R.stream reader.old)
        (R.stream reader.new) (R.calls reader.old) (R.calls reader.new) error)) }
    // If the bytes that are left are known and begin with a whole response with status 200 and a
    // frame, that frame is taken, unless a call fails or memory runs out.
    ensures found { IfSome (R.stream reader.old).left
        (λ input. (bytes rest : List ℕ) (version : Version) (frame : Frame) → input ≡ bytes ++ rest →
        IsDeltaAs version frame → IsAnswer bytes 200 (encoding_as version frame) →
        MatchResult result (λ delta. delta ≡ frame) IsOfStreams) }
{
    match write_pull_request(alloc, writer, query, front) {
        Ok(()) => read_answer(alloc, reader),
        Err(fault) => Err(PullError::Fault(fault)),
    }
}
