// Makes the answers to replies, refusals and faults.
ghost use Rattle.std.specs.Prelude.{◌≡◌, ◌++◌, ◌∷◌, [], IfOk, OnOk};
ghost use Rattle.wire_api.specs.Answers.{answer_of, closing, code_of, fault_code, field, field_name, with_body};
ghost use Rattle.wire_api.specs.Answers as spec;

use crate::body::ResponseBody;
use crate::routing::Unrouted;
use crate::table::methods_of;
use crate::text::{
    join_body, member_body, page_body, recovery_path, refusal_body, status_body, urn, why_body,
};
use http::StatusCode;
use state_book::Reply;
use state_facts::{CommandReply, Refusal};
use state_ids::{LraId, LraStatus};
use std::alloc::{AllocError, Global};
use wire_http::{Bytes, Fault, Field, Fields, Part, Response};

/// An answer. Its body may be borrowed.
pub type ApiResponse<'a> = Response<ResponseBody<'a>>;

/// The fields that an answer may have.
#[derive(Clone, Copy)]
enum AnswerField {
    Allow,
    Action,
    Recovery,
    ContentType,
    ContentLength,
    Connection,
}

impl AnswerField {
    fn name(self) -> &'static str
        ensures { result.now ≡ field_name self }
    {
        match self {
            AnswerField::Allow => "Allow",
            AnswerField::Action => "Long-Running-Action",
            AnswerField::Recovery => "Long-Running-Action-Recovery",
            AnswerField::ContentType => "Content-Type",
            AnswerField::ContentLength => "Content-Length",
            AnswerField::Connection => "Connection",
        }
    }
}

fn add_field(
    alloc: Global,
    fields: &mut Vec<Field>,
    name: AnswerField,
    value: Vec<u8>,
) -> Result<(), AllocError>
    ensures { OnOk result (fields.new.items ≡ fields.old.items ++ field name value.items ∷ []) }
{
    let name = Bytes::new(Vec::from_slice(alloc, name.name().as_bytes())?);
    match fields.push(Field {
        name,
        value: Bytes::new(value),
    }) {
        Ok(()) => Ok(()),
        Err(_) => Err(AllocError),
    }
}

fn add_closing(alloc: Global, fields: &mut Vec<Field>) -> Result<(), AllocError>
    ensures { OnOk result (fields.new.items ≡ fields.old.items ++ closing ∷ []) }
{
    let close = Vec::from_slice(alloc, b"close")?;
    add_field(alloc, fields, AnswerField::Connection, close)
}

/// Makes an answer without a body.
fn bare<'a>(alloc: Global, status: StatusCode) -> Result<ApiResponse<'a>, AllocError>
    ensures { IfOk result (λ response. response ≡ spec.bare status) }
{
    let mut fields = Vec::new(alloc);
    add_closing(alloc, &mut fields)?;
    Ok(Response {
        status,
        fields: Fields::new(fields),
        body: ResponseBody::of_bytes(Vec::new(alloc)),
    })
}

/// Makes an answer with these fields, and a body of this type.
pub fn with_body<'a>(
    alloc: Global,
    status: StatusCode,
    mut fields: Vec<Field>,
    kind: &str,
    body: ResponseBody<'a>,
) -> Result<ApiResponse<'a>, AllocError>
    ensures { IfOk result
        (λ response. response ≡ with_body status fields.items kind.now body.entry) }
{
    let kind = Vec::from_slice(alloc, kind.as_bytes())?;
    add_field(alloc, &mut fields, AnswerField::ContentType, kind)?;
    let Some(size) = body.length() else {
        return Err(AllocError);
    };
    let size = size.to_string(alloc)?.into_bytes();
    add_field(alloc, &mut fields, AnswerField::ContentLength, size)?;
    add_closing(alloc, &mut fields)?;
    Ok(Response {
        status,
        fields: Fields::new(fields),
        body,
    })
}

fn json<'a>(
    alloc: Global,
    status: StatusCode,
    fields: Vec<Field>,
    body: Vec<u8>,
) -> Result<ApiResponse<'a>, AllocError>
    ensures { IfOk result (λ response. response ≡ spec.json status fields.items body.items) }
{
    with_body(
        alloc,
        status,
        fields,
        "application/json",
        ResponseBody::of_bytes(body),
    )
}

fn begun_answer<'a>(alloc: Global, id: LraId) -> Result<ApiResponse<'a>, AllocError>
    ensures { IfOk result (λ response. response ≡ spec.begun_answer id) }
{
    let mut fields = Vec::new(alloc);
    let urn = urn(alloc, id)?;
    add_field(alloc, &mut fields, AnswerField::Action, urn)?;
    let body = status_body(alloc, id, LraStatus::Active)?;
    json(alloc, StatusCode::CREATED, fields, body)
}

fn joined_answer<'a>(alloc: Global, id: LraId, member: u8) -> Result<ApiResponse<'a>, AllocError>
    ensures { IfOk result (λ response. response ≡ spec.joined_answer id member) }
{
    let mut fields = Vec::new(alloc);
    let path = recovery_path(alloc, id, member)?;
    add_field(alloc, &mut fields, AnswerField::Recovery, path)?;
    let body = join_body(alloc, id, member)?;
    json(alloc, StatusCode::OK, fields, body)
}

/// Makes an answer with status 200, and this body in JSON.
pub fn ok_json<'a>(alloc: Global, body: Vec<u8>) -> Result<ApiResponse<'a>, AllocError>
    ensures { IfOk result (λ response. response ≡ spec.ok_json body.items) }
{
    json(alloc, StatusCode::OK, Vec::new(alloc), body)
}

fn status_answer<'a>(
    alloc: Global,
    id: LraId,
    status: LraStatus,
) -> Result<ApiResponse<'a>, AllocError>
    ensures { IfOk result (λ response. response ≡ spec.status_answer id status) }
{
    let body = status_body(alloc, id, status)?;
    ok_json(alloc, body)
}

fn status_of(refusal: Refusal) -> StatusCode
    ensures { result ≡ code_of refusal }
{
    match refusal {
        Refusal::BadText | Refusal::BadFrame(_) => StatusCode::BAD_REQUEST,
        Refusal::UnknownLra | Refusal::UnknownMember => StatusCode::NOT_FOUND,
        Refusal::NotHeld => StatusCode::GONE,
        Refusal::NotHome(_) => StatusCode::MISDIRECTED_REQUEST,
        Refusal::NotActive(_) => StatusCode::PRECONDITION_FAILED,
        Refusal::NotDue(_)
        | Refusal::NotEnded(_)
        | Refusal::NotRoot
        | Refusal::StillToForget(_, _)
        | Refusal::StillToTell(_, _) => StatusCode::CONFLICT,
        _ => StatusCode::SERVICE_UNAVAILABLE,
    }
}

fn error_answer<'a>(
    alloc: Global,
    status: StatusCode,
    fields: Vec<Field>,
    text: &str,
) -> Result<ApiResponse<'a>, AllocError>
    ensures { IfOk result (λ response. response ≡ spec.error_answer status fields.items text.now) }
{
    let body = refusal_body(alloc, text)?;
    json(alloc, status, fields, body)
}

/// Makes the answer to a refused call.
pub fn refusal_answer<'a>(alloc: Global, refusal: Refusal) -> Result<ApiResponse<'a>, AllocError>
    ensures { IfOk result (λ response. response ≡ spec.refusal_answer refusal) }
{
    let text = refusal.to_string(alloc)?;
    error_answer(alloc, status_of(refusal), Vec::new(alloc), text.as_str())
}

/// Makes the answer to a request whose body is refused. It says why.
pub(crate) fn why_answer<'a>(alloc: Global, why: &str) -> Result<ApiResponse<'a>, AllocError>
    ensures { IfOk result (λ response. response ≡ spec.why_answer why.now) }
{
    let body = why_body(alloc, why)?;
    json(alloc, StatusCode::BAD_REQUEST, Vec::new(alloc), body)
}

fn status_of_fault(fault: Fault) -> StatusCode
    ensures { result ≡ fault_code fault }
{
    match fault {
        Fault::BodyTooLong => StatusCode::PAYLOAD_TOO_LARGE,
        Fault::HeadTooLong => StatusCode::REQUEST_HEADER_FIELDS_TOO_LARGE,
        // No request has this fault. The answer is defined for every fault.
        Fault::LengthNeeded => StatusCode::LENGTH_REQUIRED,
        Fault::NotOffered => StatusCode::NOT_IMPLEMENTED,
        Fault::BadHead | Fault::Cut | Fault::ReadFault | Fault::WriteFault =>
            StatusCode::BAD_REQUEST,
        _ => StatusCode::SERVICE_UNAVAILABLE,
    }
}

/// Makes the answer to input that is not a whole request.
pub fn fault_answer<'a>(alloc: Global, fault: Fault) -> Result<ApiResponse<'a>, AllocError>
    ensures { IfOk result (λ response. response ≡ spec.fault_answer fault) }
{
    error_answer(alloc, status_of_fault(fault), Vec::new(alloc), fault.name())
}

/// Makes the answer to a request that asks for no call.
pub fn unrouted_answer<'a>(alloc: Global, unrouted: Unrouted) -> Result<ApiResponse<'a>, AllocError>
    ensures { IfOk result (λ response. response ≡ spec.unrouted_answer unrouted) }
{
    match unrouted {
        Unrouted::NoPath => error_answer(alloc, StatusCode::NOT_FOUND, Vec::new(alloc), "NoPath"),
        Unrouted::NoMethod(place) => {
            let mut fields = Vec::new(alloc);
            let methods = Vec::from_slice(alloc, methods_of(place).as_bytes())?;
            add_field(alloc, &mut fields, AnswerField::Allow, methods)?;
            error_answer(alloc, StatusCode::METHOD_NOT_ALLOWED, fields, "NoMethod")
        }
        Unrouted::Refused(refusal) => refusal_answer(alloc, refusal),
    }
}

fn command_answer<'a>(alloc: Global, reply: CommandReply) -> Result<ApiResponse<'a>, AllocError>
    ensures { IfOk result (λ response. response ≡ spec.command_answer reply) }
{
    match reply {
        CommandReply::Began(id, _) => begun_answer(alloc, id),
        CommandReply::Joined(id, member) => joined_answer(alloc, id, member),
        CommandReply::Decided(id, status) => status_answer(alloc, id, status),
        CommandReply::Left
        | CommandReply::Reported
        | CommandReply::Known
        | CommandReply::Forgotten
        | CommandReply::Told
        | CommandReply::Purged => bare(alloc, StatusCode::NO_CONTENT),
        CommandReply::Refused(refusal) => refusal_answer(alloc, refusal),
    }
}

/// Makes the answer to a reply: its status, its fields in order, and its body. A reply that no path
/// leads to has status 204. A frame is borrowed, and encoded as it is written; a frame of 2^64
/// bytes or more, which no memory holds, counts as out of memory. Errors: out of memory.
pub fn answer<'a>(alloc: Global, reply: &'a Reply) -> Result<ApiResponse<'a>, AllocError>
    ensures { IfOk result (λ response. response ≡ answer_of reply.now) }
{
    match reply {
        Reply::Command(reply) => command_answer(alloc, *reply),
        Reply::Gave(delta) => {
            let kind = "application/octet-stream";
            with_body(
                alloc,
                StatusCode::OK,
                Vec::new(alloc),
                kind,
                ResponseBody::of_frame(delta),
            )
        }
        Reply::Shown(id, status) => status_answer(alloc, *id, *status),
        Reply::ShownMember(id, member, status) => {
            let body = member_body(alloc, *id, *member, *status)?;
            ok_json(alloc, body)
        }
        Reply::Listed(page) => {
            let body = page_body(alloc, page)?;
            ok_json(alloc, body)
        }
        Reply::Refused(refusal) => refusal_answer(alloc, *refusal),
        Reply::Took
        | Reply::Held(_)
        | Reply::Surveyed(_)
        | Reply::Due(_)
        | Reply::Expired(_)
        | Reply::Quiet => bare(alloc, StatusCode::NO_CONTENT),
    }
}
