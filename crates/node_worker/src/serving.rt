// Serves one request over a connection, which may be meant for another node.
ghost use Rattle.std.specs.Prelude.{◌≡◌, IfOk, None, Result};
ghost use Rattle.wire_http.specs.declared.fault.Fault.{Fault as TheFault};
ghost use Rattle.wire_http.specs.declared.message.Request.{Request as TheRequest};
ghost use Rattle.wire_api.specs.Serving.{Ends, Makes};
ghost use Rattle.wire_api.specs.Streams.{IsReading};
ghost use Rattle.node_worker.specs.Addressees.{misdirected_answer};
ghost use Rattle.node_worker.specs.Working.{ServesNamed, ServesRead, ServesRequest};

use crate::addressee::node_text;
use crate::misdirected::is_misdirected;
use crate::{Addressee, NodeName};
use http::StatusCode;
use state_book::Clerk;
use std::alloc::{AllocError, Global};
use wire_api::{
    ApiResponse, Paths, ResponseBody, ServeError, end, refusal_body, serve_fault, serve_or_explain,
    serve_request, with_body,
};
use wire_http::{MAX_BODY_BYTES, Request, Sink, Source, read_request};

/// Makes the answer to a pull that is meant for another node.
fn misdirected_answer<'a>(alloc: Global, node: &NodeName) -> Result<ApiResponse<'a>, AllocError>
    ensures { IfOk result (λ response. response ≡ misdirected_answer node.now) }
{
    let text = node_text(alloc, node)?;
    let body = ResponseBody::of_bytes(refusal_body(alloc, text.as_str())?);
    let status = StatusCode::MISDIRECTED_REQUEST;
    with_body(alloc, status, Vec::new(alloc), "application/json", body)
}

/// Refuses a pull that is meant for another node.
fn end_misdirected<W: Sink>(
    alloc: Global,
    writer: &mut W,
    node: &NodeName,
) -> Result<(), ServeError>
    ensures { Ends W.Sink writer.old writer.new (misdirected_answer node.now) None result }
{
    let made = misdirected_answer(alloc, node);
    end(alloc, writer, made, None)
}

/// Serves a request to a node that has a name: it refuses pulls that are meant for another node,
/// and says what is wrong with a body.
fn serve_named<W: Sink, C: Clerk>(
    alloc: Global,
    paths: &Paths,
    node: &NodeName,
    writer: &mut W,
    clerk: &mut C,
    request: &Request,
    now: u64,
) -> Result<(), ServeError>
    ensures { ServesNamed node.now (clerk.new ≡ clerk.old)
        (Makes C.Clerk clerk.old clerk.new now) W.Sink writer.old writer.new now request.now result }
{
    if is_misdirected(node, request) {
        return end_misdirected(alloc, writer, node);
    }
    serve_or_explain(alloc, paths, writer, clerk, request, now)
}

fn serve_by<W: Sink, C: Clerk>(
    alloc: Global,
    paths: &Paths,
    addressee: &Addressee,
    writer: &mut W,
    clerk: &mut C,
    request: &Request,
    now: u64,
) -> Result<(), ServeError>
    ensures { ServesRequest addressee.now (clerk.new ≡ clerk.old)
        (Makes C.Clerk clerk.old clerk.new now) W.Sink writer.old writer.new now request.now result }
{
    match addressee {
        Addressee::Anyone => serve_request(alloc, paths, writer, clerk, request, now),
        Addressee::Node(node) => serve_named(alloc, paths, node, writer, clerk, request, now),
    }
}

/// Reads one request and writes one answer, like `wire_api::serve_one`. A node that has a name makes
/// no call for a pull that is meant for another node, and answers with status 421. Neither does it
/// make a call for a request whose body is wrong: it answers with status 400 and says why.
pub(crate) fn serve_one<R: Source, W: Sink, C: Clerk>(
    alloc: Global,
    paths: &Paths,
    addressee: &Addressee,
    reader: &mut R,
    writer: &mut W,
    clerk: &mut C,
    now: u64,
) -> Result<(), ServeError>
    ensures { (read : Result TheRequest TheFault) × IsReading R.Source reader.old reader.new read
        × ServesRead addressee.now (clerk.new ≡ clerk.old)
        (Makes C.Clerk clerk.old clerk.new now) W.Sink writer.old writer.new now read result }
{
    match read_request(alloc, reader, MAX_BODY_BYTES) {
        Ok(request) => serve_by(alloc, paths, addressee, writer, clerk, &request, now),
        Err(fault) => serve_fault(alloc, writer, fault),
    }
}
