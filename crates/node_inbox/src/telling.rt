// What another node sent in answer to a pull.
ghost use Rattle.std.specs.Prelude.{◌≡◌, ◌⊎◌, ◌++◌, List, ℕ, IfErr, IfOk, IfSome, MatchResult};
ghost use Rattle.wire_frames.specs.Frames.{Frame};
ghost use Rattle.wire_frames.specs.declared.version.Version.{Version};
ghost use Rattle.wire_frames.specs.Rules.{IsDeltaAs};
ghost use Rattle.wire_frames.specs.Encoding.{encoding_as};
ghost use Rattle.wire_pulls.specs.PullAnswers.{IsAnswer, IsOfStreams, IsUnsentBy, StopsPull, TellsDelta};
ghost use Rattle.wire_pulls.specs.Texts.{pull_text};
ghost use Rattle.wire_http.specs.Streams.{IsSent};

use state_ids::{Front, NodeId};
use std::alloc::{AllocError, Global};
use std::marker::Model;
use wire_frames::Delta;
use wire_http::{Sink, Source};
use wire_pulls::{PullError, pull};

/// What another node sent in answer to a pull: a whole frame, and which node was asked. Only
/// `ask_for` makes a telling, and `copy` makes one from another, in case the first can't be taken.
/// So no frame is taken that didn't come.
#[derive(Drop)]
pub struct Telling {
    from: NodeId,
    delta: Delta,
}

impl Model for Telling {
    ghost use Rattle.node_inbox.specs.Tellings.{Told};

    ghost Value = { Told };

    ghost view = { λ t. record { from = t.from; frame = t.delta } };
}

impl Telling {
    /// Returns the node that was asked.
    pub fn from(&self) -> NodeId
        ensures { result ≡ self.now.from }
    {
        self.from
    }

    /// Returns how many facts of each node the other node has.
    pub fn front(&self) -> Front
        ensures { result ≡ self.now.frame.front }
    {
        self.delta.front()
    }

    /// Copies the telling. The copy is kept in case a journal fails: then its frame is taken later.
    pub fn copy(&self) -> Result<Telling, AllocError>
        ensures { IfOk result (λ copy. copy ≡ self.now) }
    {
        Ok(Telling {
            from: self.from,
            delta: self.delta.clone()?,
        })
    }

    /// Returns the frame, to be taken.
    pub fn into_delta(self) -> Delta
        ensures { result ≡ self.frame }
    {
        self.delta
    }
}

/// Asks another node, with a query, for what a node lacks that has the facts which a front counts,
/// as `wire_pulls::pull` does. The telling keeps the other node's number. Errors: the same as those
/// of `wire_pulls::pull`.
pub fn ask_for<R: Source, W: Sink>(
    alloc: Global,
    reader: &mut R,
    writer: &mut W,
    from: NodeId,
    query: &str,
    front: &Front,
) -> Result<Telling, PullError>
    // The whole request for this front was written, with the query, and passed on. What was given
    // since is one whole response with status 200, whose body encodes the frame, and no byte more.
    // No call failed.
    ensures message { IfOk result (λ telling. IsSent (W.stream writer.old)
        (W.stream writer.new) (W.calls writer.old) (W.calls writer.new) (pull_text query.now front.now)
        × TellsDelta (R.stream reader.old)
        (R.stream reader.new) (R.calls reader.old) (R.calls reader.new) telling.frame) }
    ensures from { IfOk result (λ telling. telling.from ≡ from) }
    ensures error { IfErr result (λ error. IsUnsentBy (W.stream writer.old)
        (W.stream writer.new) (W.calls writer.old) (W.calls writer.new) (pull_text query.now front.now)
        (reader.new ≡ reader.old) ((writer.new ≡ writer.old) × (reader.new ≡ reader.old)) error
        ⊎ (IsSent (W.stream writer.old) (W.stream writer.new) (W.calls writer.old)
        (W.calls writer.new) (pull_text query.now front.now) × StopsPull (R.stream reader.old)
        (R.stream reader.new) (R.calls reader.old) (R.calls reader.new) error)) }
    ensures found { IfSome (R.stream reader.old).left
        (λ input. (bytes rest : List ℕ) (version : Version) (frame : Frame) → input ≡ bytes ++ rest →
        IsDeltaAs version frame → IsAnswer bytes 200 (encoding_as version frame) →
        MatchResult result (λ telling. telling.frame ≡ frame) IsOfStreams) }
{
    match pull(alloc, reader, writer, query, front) {
        Ok(delta) => Ok(Telling { from, delta }),
        Err(error) => Err(error),
    }
}
