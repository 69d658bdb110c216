// Makes one call over a connection: writes a request, and reads its answer.
ghost use Rattle.std.specs.Prelude.{◌≡◌, ◌⊎◌, IfOk, OnErr};
ghost use Rattle.wire_http.specs.Streams.{AllWell, IsSent};
ghost use Rattle.wire_http.specs.MessageTexts.{request_text};
ghost use Rattle.wire_http.specs.declared.message.CallRequest.{CallRequest as TheRequest};
ghost use Rattle.wire_callbacks.specs.declared.answer.Answer.{Answer as TheAnswer};
ghost use Rattle.wire_callbacks.specs.OneCall.{IsBroken, IsOfStatus, IsTold, IsUnsent, answer_reads};

use crate::Answer;
use std::alloc::Global;
use std::marker::Model;
use wire_http::{CallRequest, Fault, MAX_BODY_BYTES, Sink, Source, read_response, write_request};

/// The memory for a call was refused. Nothing is known about an answer.
#[derive(Clone, Copy, Debug, PartialEq, Eq)]
pub struct NoMemory;

/// A means of calling participants.
pub trait Caller {
    /// What holds of the caller before and after a request was answered this way. Each caller
    /// states what makes its answers true.
    ghost answered: { (old new : Self) → TheRequest → TheAnswer → Type 0 };

    /// What holds of the caller before and after a call whose memory was refused.
    ghost unanswered: { (old new : Self) → TheRequest → Type 0 };

    /// Makes one call. If the request can't reach the participant, or no whole response comes back,
    /// the answer is `Broken`. The trait promises of the answer only what the caller's `answered`
    /// says. Errors: out of memory, of which the trait promises only what the caller's `unanswered`
    /// says.
    fn call(&mut self, alloc: Global, request: &CallRequest) -> Result<Answer, NoMemory>
        ensures answered { IfOk result (answered self.old self.new request.now) }
        ensures memory { OnErr result (unanswered self.old self.new request.now) }
        ensures status { IfOk result IsOfStatus };
}

/// A caller for one call over one connection: its request says that the connection ends with the
/// answer. Over a socket, put a buffered reader below it, because a head is read one byte a call.
/// Each clause would hold of a second call too.
#[derive(Drop)]
pub struct NetCaller<R, W> {
    reader: R,
    writer: W,
}

impl<R, W> Model for NetCaller<R, W> {
    ghost use Rattle.wire_callbacks.specs.OneCall.{Ends};

    ghost Value = { Ends R W };

    ghost view = { λ c. record { reader = c.reader; writer = c.writer } };
}

fn receive<R: Source>(alloc: Global, reader: &mut R) -> Result<Answer, NoMemory>
    ensures told { IfOk result (IsTold
        (R.stream reader.old) (R.stream reader.new) (R.calls reader.old) (R.calls reader.new)) }
    ensures memory { OnErr result
        (AllWell answer_reads 0 (R.calls reader.old) (R.calls reader.new)) }
    ensures status { IfOk result IsOfStatus }
{
    match read_response(alloc, reader, MAX_BODY_BYTES) {
        Ok(response) => Ok(Answer::Code(response.status.as_u16(), response.body)),
        Err(fault) => match fault {
            Fault::NoMemory => Err(NoMemory),
            _ => Ok(Answer::Broken),
        },
    }
}

impl<R: Source, W: Sink> NetCaller<R, W> {
    /// Makes a caller over this reader and this writer.
    pub fn new(reader: R, writer: W) -> NetCaller<R, W>
        ensures reader { result.reader ≡ reader }
        ensures writer { result.writer ≡ writer }
    {
        NetCaller { reader, writer }
    }

    /// Returns the reader and the writer.
    pub fn into_parts(self) -> (R, W)
        ensures reader { result.0 ≡ self.reader }
        ensures writer { result.1 ≡ self.writer }
    {
        (self.reader, self.writer)
    }

    /// Writes a request, and reads its answer, with a body of at most 65,536 bytes. The answer is
    /// `Broken` if a write or a read fails, or no whole response comes. Errors: out of memory.
    pub fn ask(&mut self, alloc: Global, request: &CallRequest) -> Result<Answer, NoMemory>
        // If a write failed, the answer is broken and nothing was read. Otherwise the whole request
        // was written and passed on, and what was given since the call determines the answer: a
        // code and a body are exactly those of the whole response that was given; `Broken` means
        // that what was given shows why no whole response came, or that a read failed.
        ensures told { IfOk result (λ answer. (IsBroken answer × IsUnsent (W.stream self.old.writer)
            (W.stream self.new.writer) (W.calls self.old.writer) (W.calls self.new.writer)
            (request_text request.now) × (self.new.reader ≡ self.old.reader))
            ⊎ (IsSent (W.stream self.old.writer) (W.stream self.new.writer)
            (W.calls self.old.writer) (W.calls self.new.writer) (request_text request.now)
            × IsTold (R.stream self.old.reader) (R.stream self.new.reader)
            (R.calls self.old.reader) (R.calls self.new.reader) answer)) }
        // If memory was refused, either nothing was written or read, or the whole request was
        // written; and no call failed.
        ensures memory { OnErr result ((self.new ≡ self.old)
            ⊎ (IsSent (W.stream self.old.writer) (W.stream self.new.writer)
            (W.calls self.old.writer) (W.calls self.new.writer) (request_text request.now)
            × AllWell answer_reads 0 (R.calls self.old.reader) (R.calls self.new.reader))) }
        ensures status { IfOk result IsOfStatus }
    {
        match write_request(alloc, &mut self.writer, request) {
            Ok(()) => receive(alloc, &mut self.reader),
            Err(fault) => match fault {
                Fault::NoMemory => Err(NoMemory),
                _ => Ok(Answer::Broken),
            },
        }
    }
}

impl<R: Source, W: Sink> Caller for NetCaller<R, W> {
    // Clause `told` of `ask`.
    ghost answered = { λ old new request answer. (IsBroken answer × IsUnsent (W.stream old.writer)
        (W.stream new.writer) (W.calls old.writer) (W.calls new.writer) (request_text request)
        × (new.reader ≡ old.reader))
        ⊎ (IsSent (W.stream old.writer) (W.stream new.writer) (W.calls old.writer)
        (W.calls new.writer) (request_text request) × IsTold (R.stream old.reader)
        (R.stream new.reader) (R.calls old.reader) (R.calls new.reader) answer) };

    // Clause `memory` of `ask`.
    ghost unanswered = { λ old new request. (new ≡ old) ⊎ (IsSent (W.stream old.writer)
        (W.stream new.writer) (W.calls old.writer) (W.calls new.writer) (request_text request)
        × AllWell answer_reads 0 (R.calls old.reader) (R.calls new.reader)) };

    fn call(&mut self, alloc: Global, request: &CallRequest) -> Result<Answer, NoMemory> {
        self.ask(alloc, request)
    }
}
