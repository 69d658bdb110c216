// Serves one request at an operator's port, from its first byte to the last byte of its answer.
ghost use Rattle.std.specs.Prelude.{◌≡◌, Result, IfOk, None};
ghost use Rattle.wire_http.specs.declared.fault.Fault.{Fault as TheFault};
ghost use Rattle.wire_http.specs.declared.message.Request.{Request as TheRequest};
ghost use Rattle.state_facts.specs.declared.refusal.Refusal.TheVariants.{BadText};
ghost use Rattle.state_book.specs.declared.calls.Call.TheVariants.{Survey};
ghost use Rattle.wire_api.specs.Answers.{refusal_answer as broken_answer};
ghost use Rattle.wire_api.specs.Serving.{Ends, Makes};
ghost use Rattle.wire_api.specs.Streams.{IsReading};
ghost use Rattle.wire_operators.specs.Doors.{foreign_answer, is_foreign};
ghost use Rattle.wire_operators.specs.Serving.{EndsTold, IsTold, Serves, ServesAsked, ServesCall, ServesOther, ServesWanted, answer_at, call_of};
ghost use Rattle.wire_operators.specs.Wanted.{wanted};

use crate::doors::{foreign_answer, is_foreign};
use crate::records::record_body;
use crate::surveys::survey_body;
use crate::telling::told_answer;
use crate::{Filter, State, Topic, Wanted, wanted_by};
use state_book::{Call, Clerk, Reply};
use state_facts::{Command, Refusal};
use std::alloc::{AllocError, Global};
use wire_api::{
    ApiResponse, Paths, ServeError, answer, end, end_refused, ok_json, refusal_answer, serve_fault,
    serve_request,
};
use wire_http::{Bytes, MAX_BODY_BYTES, Request, Sink, Source, read_request};

/// Makes the survey of which a list shows some rows.
fn survey_of(filter: &Filter) -> Call
    ensures { result ≡ Survey filter.now.after }
{
    Call::Survey(filter.after)
}

/// Returns the call that is wanted, if a call is wanted.
fn call_of(wanted: &Wanted) -> Option<Call>
    ensures { result ≡ call_of wanted.now }
{
    match wanted {
        Wanted::List(filter) => Some(survey_of(filter)),
        Wanted::Record(id) => Some(Call::Record(*id)),
        Wanted::Forgot(id, member) => Some(Call::Command(Command::Forgot {
            id: *id,
            member: *member,
        })),
        Wanted::Told(id, member) => Some(Call::Command(Command::Told {
            id: *id,
            member: *member,
        })),
        _ => None,
    }
}

/// Makes the answer to the reply to what is wanted.
fn answer_at<'a>(
    alloc: Global,
    wanted: &Wanted,
    reply: &'a Reply,
) -> Result<ApiResponse<'a>, AllocError>
    ensures { IfOk result (λ response. response ≡ answer_at wanted.now reply.now) }
{
    match (wanted, reply) {
        (Wanted::List(filter), Reply::Surveyed(survey)) => {
            let body = survey_body(alloc, filter, survey)?;
            ok_json(alloc, body)
        }
        (Wanted::Record(_), Reply::Held(holding)) => {
            let body = record_body(alloc, holding)?;
            ok_json(alloc, body)
        }
        _ => answer(alloc, reply),
    }
}

fn end_replied<W: Sink>(
    alloc: Global,
    writer: &mut W,
    wanted: &Wanted,
    reply: &Reply,
) -> Result<(), ServeError>
    ensures { Ends W.Sink writer.old writer.new (answer_at wanted.now reply.now) None result }
{
    let made = answer_at(alloc, wanted, reply);
    end(alloc, writer, made, None)
}

fn serve_call<W: Sink, C: Clerk>(
    alloc: Global,
    writer: &mut W,
    clerk: &mut C,
    wanted: &Wanted,
    call: Call,
    now: u64,
) -> Result<(), ServeError>
    ensures { ServesCall wanted.now
        (Makes C.Clerk clerk.old clerk.new now call) W.Sink writer.old writer.new result }
{
    match clerk.call(alloc, call, now) {
        Ok(()) => end_replied(alloc, writer, wanted, clerk.reply()),
        Err(refusal) => end_refused(alloc, writer, &refusal),
    }
}

fn serve_state<W: Sink, T: State>(
    alloc: Global,
    writer: &mut W,
    state: &T,
    topic: Topic,
) -> Result<(), ServeError>
    ensures { EndsTold
        (IsTold T.State state.now topic) W.Sink writer.old writer.new result }
{
    let made = told_answer(alloc, state, topic);
    end(alloc, writer, made, None)
}

/// Answers that an id, a number or a query breaks its grammar.
fn serve_broken<W: Sink>(alloc: Global, writer: &mut W) -> Result<(), ServeError>
    ensures { Ends W.Sink writer.old writer.new (broken_answer BadText) None result }
{
    let made = refusal_answer(alloc, Refusal::BadText);
    end(alloc, writer, made, None)
}

/// Serves what is wanted if that is not a call.
fn serve_other<W: Sink, C: Clerk, T: State>(
    alloc: Global,
    paths: &Paths,
    state: &T,
    writer: &mut W,
    clerk: &mut C,
    request: &Request,
    now: u64,
    wanted: &Wanted,
) -> Result<(), ServeError>
    ensures { ServesOther (clerk.new ≡ clerk.old)
        (Makes C.Clerk clerk.old clerk.new now) (IsTold T.State state.now)
        W.Sink writer.old writer.new now request.now wanted.now result }
{
    match wanted {
        Wanted::Other => serve_request(alloc, paths, writer, clerk, request, now),
        Wanted::Tell(topic) => serve_state(alloc, writer, state, *topic),
        _ => serve_broken(alloc, writer),
    }
}

/// Serves a request at an operator's port.
fn serve_wanted<W: Sink, C: Clerk, T: State>(
    alloc: Global,
    paths: &Paths,
    state: &T,
    writer: &mut W,
    clerk: &mut C,
    request: &Request,
    now: u64,
) -> Result<(), ServeError>
    ensures { ServesWanted (clerk.new ≡ clerk.old)
        (Makes C.Clerk clerk.old clerk.new now) (IsTold T.State state.now)
        W.Sink writer.old writer.new now request.now (wanted request.now) (call_of (wanted request.now)) result }
{
    let wanted = wanted_by(paths, request);
    match call_of(&wanted) {
        Some(call) => serve_call(alloc, writer, clerk, &wanted, call, now),
        None => serve_other(alloc, paths, state, writer, clerk, request, now, &wanted),
    }
}

/// Refuses a request that doesn't come from an operator.
fn serve_foreign<W: Sink>(alloc: Global, writer: &mut W) -> Result<(), ServeError>
    ensures { Ends W.Sink writer.old writer.new foreign_answer None result }
{
    let made = foreign_answer(alloc);
    end(alloc, writer, made, None)
}

/// Serves a request at the port of a node with these names, unless it is foreign.
fn serve_asked<W: Sink, C: Clerk, T: State>(
    alloc: Global,
    paths: &Paths,
    state: &T,
    names: &[Bytes],
    writer: &mut W,
    clerk: &mut C,
    request: &Request,
    now: u64,
) -> Result<(), ServeError>
    ensures { ServesAsked (clerk.new ≡ clerk.old)
        (Makes C.Clerk clerk.old clerk.new now) (IsTold T.State state.now)
        W.Sink writer.old writer.new now request.now names.now result }
{
    if is_foreign(names, &request.fields) {
        return serve_foreign(alloc, writer);
    }
    serve_wanted(alloc, paths, state, writer, clerk, request, now)
}

/// Reads one request at an operator's port, and writes one answer. It makes the call that is
/// wanted, once, or none. The operator's own paths show the LRAs that are held, show everything
/// that is held of one, or record something on behalf of a participant; or they show what the
/// node's threads know. Requests for paths of the interface are served as the interface serves
/// them. A coordinator's own call to a link is refused (403), and so is a request that is for
/// another host or comes from a page of one. Errors: the same as those of `wire_api::serve_one`.
pub fn serve_operator<R: Source, W: Sink, C: Clerk, T: State>(
    alloc: Global,
    paths: &Paths,
    state: &T,
    reader: &mut R,
    writer: &mut W,
    clerk: &mut C,
    now: u64,
) -> Result<(), ServeError>
    ensures served { (read : Result TheRequest TheFault)
        × IsReading R.Source reader.old reader.new read × Serves (clerk.new ≡ clerk.old)
        (Makes C.Clerk clerk.old clerk.new now) (IsTold T.State state.now)
        (T.named state.now) W.Sink writer.old writer.new now read result }
{
    match read_request(alloc, reader, MAX_BODY_BYTES) {
        Ok(request) => {
            let names = state.names();
            serve_asked(alloc, paths, state, names, writer, clerk, &request, now)
        }
        Err(fault) => serve_fault(alloc, writer, fault),
    }
}
