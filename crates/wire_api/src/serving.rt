// Serves one request over a connection, from its first byte to the last byte of its answer.
ghost use Rattle.std.specs.Prelude.{◌≡◌, ◌≢◌, Result, None, Some, IfErr, IfOk};
ghost use Rattle.wire_http.specs.declared.fault.Fault.{Fault as TheFault};
ghost use Rattle.wire_http.specs.declared.fault.Fault.TheVariants.{WriteFault as OnWrite};
ghost use Rattle.wire_http.specs.declared.message.Request.{Request as TheRequest};
ghost use Rattle.wire_http.specs.ByteResponses.{Response as TheResponse};
ghost use Rattle.wire_api.specs.Answers.{answer_of, fault_answer, refusal_answer, unrouted_answer, why_answer};
ghost use Rattle.wire_api.specs.Routes.{routed};
ghost use Rattle.wire_api.specs.Serving.{Ends, EndsNoMemory, Makes, Serves, ServesCall, ServesFault, ServesRequest, ServesOrExplains, WritesNoMemory, told_first};
ghost use Rattle.wire_api.specs.Streams.{IsReading};

use crate::Paths;
use crate::answers::{
    ApiResponse, answer, fault_answer, refusal_answer, unrouted_answer, why_answer,
};
use crate::body_faults::why_in;
use crate::routing::{Unrouted, route_by};
use state_book::{Call, Clerk, Reply};
use state_facts::Refusal;
use std::alloc::{AllocError, Global};
use wire_http::{Fault, MAX_BODY_BYTES, Request, Sink, Source, read_request, write_response};

/// Why a request was not served as it was asked.
#[derive(Clone, Copy, Debug, PartialEq, Eq)]
pub enum ServeError {
    /// The clerk refused the call, with E17 to E21; or E17 because memory was refused here, and the
    /// clerk refused nothing.
    Refused(Refusal),
    /// The input ended before the request did.
    Cut,
    /// A read failed, or 1,024 reads were interrupted.
    ReadFault,
    /// A write failed, or 1,024 writes were interrupted.
    WriteFault,
}

/// Writes that memory was refused, if there is enough memory for that.
fn write_no_memory<W: Sink>(alloc: Global, writer: &mut W)
    ensures { WritesNoMemory W.Sink writer.old writer.new }
{
    let Ok(response) = refusal_answer(alloc, Refusal::NoMemory) else {
        return;
    };
    let _written = write_response(alloc, writer, &response);
}

/// Returns the result after an answer: the clerk's refusal takes precedence over how writing ended.
fn told_first(refusal: Option<Refusal>, ended: Result<(), ServeError>) -> Result<(), ServeError>
    ensures { result ≡ told_first refusal ended }
{
    match refusal {
        Some(refusal) => Err(ServeError::Refused(refusal)),
        None => ended,
    }
}

/// Writes that memory was refused, if there is enough memory for that. Returns that error, or the
/// refusal that the answer was for.
fn end_no_memory<W: Sink>(
    alloc: Global,
    writer: &mut W,
    refusal: Option<Refusal>,
) -> Result<(), ServeError>
    ensures { EndsNoMemory W.Sink writer.old writer.new refusal result }
{
    write_no_memory(alloc, writer);
    told_first(refusal, Err(ServeError::Refused(Refusal::NoMemory)))
}

fn end_with<W: Sink>(
    alloc: Global,
    writer: &mut W,
    response: &ApiResponse<'_>,
    refusal: Option<Refusal>,
) -> Result<(), ServeError>
    ensures { Ends W.Sink writer.old writer.new response.now refusal result }
{
    match write_response(alloc, writer, response) {
        Ok(()) => told_first(refusal, Ok(())),
        Err(fault) => {
            if fault == Fault::NoMemory {
                return end_no_memory(alloc, writer, refusal);
            }
            told_first(refusal, Err(ServeError::WriteFault))
        }
    }
}

/// Writes an answer, if there was memory to make it, and returns the refusal that it is for, if
/// any.
pub fn end<W: Sink>(
    alloc: Global,
    writer: &mut W,
    made: Result<ApiResponse<'_>, AllocError>,
    refusal: Option<Refusal>,
) -> Result<(), ServeError>
    ensures written { (right : TheResponse) → IfOk made.entry (λ response. response ≡ right) →
        Ends W.Sink writer.old writer.new right refusal result }
    ensures none { IfErr made.entry
        (λ _. EndsNoMemory W.Sink writer.old writer.new refusal result) }
{
    match made {
        Ok(response) => end_with(alloc, writer, &response, refusal),
        Err(_) => end_no_memory(alloc, writer, refusal),
    }
}

/// Writes the answer to a call that the clerk refused, and returns the refusal.
pub fn end_refused<W: Sink>(
    alloc: Global,
    writer: &mut W,
    refusal: &Refusal,
) -> Result<(), ServeError>
    ensures { Ends W.Sink writer.old writer.new
        (refusal_answer refusal.now) (Some refusal.now) result }
{
    let made = refusal_answer(alloc, *refusal);
    end(alloc, writer, made, Some(*refusal))
}

fn end_replied<W: Sink>(alloc: Global, writer: &mut W, reply: &Reply) -> Result<(), ServeError>
    ensures { Ends W.Sink writer.old writer.new (answer_of reply.now) None result }
{
    let made = answer(alloc, reply);
    end(alloc, writer, made, None)
}

fn serve_call<W: Sink, C: Clerk>(
    alloc: Global,
    writer: &mut W,
    clerk: &mut C,
    call: Call,
    now: u64,
) -> Result<(), ServeError>
    ensures { ServesCall
        (Makes C.Clerk clerk.old clerk.new now call) W.Sink writer.old writer.new result }
{
    match clerk.call(alloc, call, now) {
        Ok(()) => end_replied(alloc, writer, clerk.reply()),
        Err(refusal) => end_refused(alloc, writer, &refusal),
    }
}

fn end_unrouted<W: Sink>(
    alloc: Global,
    writer: &mut W,
    unrouted: Unrouted,
) -> Result<(), ServeError>
    ensures { Ends W.Sink writer.old writer.new (unrouted_answer unrouted) None result }
{
    let made = unrouted_answer(alloc, unrouted);
    end(alloc, writer, made, None)
}

/// Serves a request that was read: makes the call that it asks for by the table of paths, and
/// writes the answer.
pub fn serve_request<W: Sink, C: Clerk>(
    alloc: Global,
    paths: &Paths,
    writer: &mut W,
    clerk: &mut C,
    request: &Request,
    now: u64,
) -> Result<(), ServeError>
    ensures { ServesRequest (clerk.new ≡ clerk.old) (Makes C.Clerk clerk.old clerk.new now)
        W.Sink writer.old writer.new (routed now request.now) result }
{
    match route_by(alloc, paths, request, now) {
        Ok(call) => serve_call(alloc, writer, clerk, call, now),
        Err(unrouted) => {
            if unrouted == Unrouted::Refused(Refusal::NoMemory) {
                return end_no_memory(alloc, writer, None);
            }
            end_unrouted(alloc, writer, unrouted)
        }
    }
}

fn end_wrong<W: Sink>(alloc: Global, writer: &mut W, why: &str) -> Result<(), ServeError>
    ensures { Ends W.Sink writer.old writer.new (why_answer why.now) None result }
{
    let made = why_answer(alloc, why);
    end(alloc, writer, made, None)
}

/// Serves a request like `serve_request`, unless something is wrong with its body: then no call is
/// made, and the answer says why. A JSON member that the call doesn't know is wrong too.
pub fn serve_or_explain<W: Sink, C: Clerk>(
    alloc: Global,
    paths: &Paths,
    writer: &mut W,
    clerk: &mut C,
    request: &Request,
    now: u64,
) -> Result<(), ServeError>
    ensures { ServesOrExplains (clerk.new ≡ clerk.old) (Makes C.Clerk clerk.old clerk.new now)
        W.Sink writer.old writer.new now request.now result }
{
    match why_in(alloc, paths, request, now) {
        Ok(Some(why)) => end_wrong(alloc, writer, why.as_str()),
        Ok(None) => serve_request(alloc, paths, writer, clerk, request, now),
        Err(_) => end_no_memory(alloc, writer, None),
    }
}

fn end_fault<W: Sink>(alloc: Global, writer: &mut W, fault: Fault) -> Result<(), ServeError>
    ensures { Ends W.Sink writer.old writer.new (fault_answer fault) None result }
{
    let made = fault_answer(alloc, fault);
    end(alloc, writer, made, None)
}

/// Answers input that was not a whole request, if an answer can be written.
pub fn serve_fault<W: Sink>(alloc: Global, writer: &mut W, fault: Fault) -> Result<(), ServeError>
    requires { fault ≢ OnWrite }
    ensures { ServesFault W.Sink writer.old writer.new fault result }
{
    match fault {
        Fault::Cut => Err(ServeError::Cut),
        Fault::ReadFault => Err(ServeError::ReadFault),
        Fault::WriteFault => unreachable!(),
        Fault::NoMemory => end_no_memory(alloc, writer, None),
        Fault::BadHead => end_fault(alloc, writer, Fault::BadHead),
        Fault::BodyTooLong => end_fault(alloc, writer, Fault::BodyTooLong),
        Fault::HeadTooLong => end_fault(alloc, writer, Fault::HeadTooLong),
        Fault::LengthNeeded => end_fault(alloc, writer, Fault::LengthNeeded),
        Fault::NotOffered => end_fault(alloc, writer, Fault::NotOffered),
    }
}

/// Reads one request, makes the call that it asks for by the table of paths, and writes one answer.
/// Errors: the clerk's own refusals, E17 to E21, which are also written and take precedence over a
/// fault of writing; `Cut` and `ReadFault`, after which nothing is written; `WriteFault`, before
/// which a prefix of the answer was written; and E17 if memory is refused here and the clerk
/// refused nothing. In that last case a call that was made stands.
pub fn serve_one<R: Source, W: Sink, C: Clerk>(
    alloc: Global,
    paths: &Paths,
    reader: &mut R,
    writer: &mut W,
    clerk: &mut C,
    now: u64,
) -> Result<(), ServeError>
    // What was read is a whole request, or its fault. If the request asks for a call, that call is
    // made at this moment, once, and the text of the answer to its reply or refusal is written.
    // Otherwise no call is made, and the text of the answer to what is wrong is written.
    ensures served { (read : Result TheRequest TheFault)
        × IsReading R.Source reader.old reader.new read × Serves (clerk.new ≡ clerk.old)
        (Makes C.Clerk clerk.old clerk.new now) W.Sink writer.old writer.new now read result }
{
    match read_request(alloc, reader, MAX_BODY_BYTES) {
        Ok(request) => serve_request(alloc, paths, writer, clerk, &request, now),
        Err(fault) => serve_fault(alloc, writer, fault),
    }
}
