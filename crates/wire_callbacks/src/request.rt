// Makes the request by which a participant is called.
ghost use Rattle.std.specs.Prelude.{◌≡◌, ◌<◌, ◌^◌, ◌++◌, ◌∷◌, [], IfErr, IfOk, OnOk, decimal, length};
ghost use Rattle.state_facts.specs.declared.refusal.Refusal.TheVariants.{NoMemory};
ghost use Rattle.wire_callbacks.specs.CallRequests.{IsOneRequest, IsRequestOf, IsUrlOf, action_name, body_of, field, field_name, fields_of, host_of, length_fields, method_of, parent_fields, recovery_path, target_of, told_body, urn};

use crate::{Duty, Kind};
use http::Method;
use state_facts::{Link, Refusal};
use state_ids::{LraId, LraStatus};
use std::alloc::{AllocError, Global};
use url::{ParseError, Position, Url};
use wire_http::{Bytes, CallRequest, Field, Fields, Text};

/// The fields that a request to a participant may have besides the host.
#[derive(Clone, Copy)]
enum RequestField {
    Action,
    Ended,
    Parent,
    Recovery,
    ContentType,
    ContentLength,
    Connection,
}

impl RequestField {
    fn name(self) -> &'static str
        ensures { result.now ≡ field_name self }
    {
        match self {
            RequestField::Action => "Long-Running-Action",
            RequestField::Ended => "Long-Running-Action-Ended",
            RequestField::Parent => "Long-Running-Action-Parent",
            RequestField::Recovery => "Long-Running-Action-Recovery",
            RequestField::ContentType => "Content-Type",
            RequestField::ContentLength => "Content-Length",
            RequestField::Connection => "Connection",
        }
    }
}

fn method_of(kind: Kind) -> Method
    ensures { result ≡ method_of kind }
{
    match kind {
        Kind::Complete | Kind::Compensate | Kind::After => Method::PUT,
        Kind::Status => Method::GET,
        Kind::Forget => Method::DELETE,
    }
}

fn urn(alloc: Global, id: LraId) -> Result<Bytes, AllocError>
    ensures { IfOk result (λ text. text ≡ urn id) }
{
    let bytes = id.to_text();
    match str::from_utf8(&bytes) {
        Ok(text) => Ok(Bytes::new(format!(in alloc; "urn:uuid:{text}")?.into_bytes())),
        Err(_) => unreachable!(),
    }
}

fn recovery_path(alloc: Global, id: LraId, member: u8) -> Result<Bytes, AllocError>
    ensures { IfOk result (λ text. text ≡ recovery_path id member) }
{
    let bytes = id.to_text();
    match str::from_utf8(&bytes) {
        Ok(text) => {
            let path = format!(in alloc; "/lra/{text}/member/{member}")?;
            Ok(Bytes::new(path.into_bytes()))
        }
        Err(_) => unreachable!(),
    }
}

/// Copies these bytes.
fn bytes_of(alloc: Global, text: &str) -> Result<Bytes, AllocError>
    ensures { IfOk result (λ bytes. bytes ≡ text.now) }
{
    Ok(Bytes::new(Vec::from_slice(alloc, text.as_bytes())?))
}

fn add_field(
    alloc: Global,
    fields: &mut Vec<Field>,
    name: RequestField,
    value: Bytes,
) -> Result<(), AllocError>
    ensures { OnOk result (fields.new.items ≡ fields.old.items ++ field name value ∷ []) }
{
    let name = bytes_of(alloc, name.name())?;
    match fields.push(Field { name, value }) {
        Ok(()) => Ok(()),
        Err(_) => Err(AllocError),
    }
}

fn add_parent(
    alloc: Global,
    fields: &mut Vec<Field>,
    parent: Option<LraId>,
) -> Result<(), AllocError>
    ensures { OnOk result (fields.new.items ≡ fields.old.items ++ parent_fields parent) }
{
    match parent {
        Some(parent) => add_field(alloc, fields, RequestField::Parent, urn(alloc, parent)?),
        None => Ok(()),
    }
}

fn action_name(kind: Kind) -> RequestField
    ensures { result ≡ action_name kind }
{
    match kind {
        Kind::After => RequestField::Ended,
        _ => RequestField::Action,
    }
}

/// Returns the name of what the LRA shows, if the call says it, and an empty text otherwise.
fn body_of(shows: Option<LraStatus>) -> &'static str
    ensures { result.now ≡ body_of shows }
{
    match shows {
        Some(status) => status.name(),
        None => "",
    }
}

fn told_body(kind: Kind, shows: Option<LraStatus>) -> &'static str
    ensures { result.now ≡ told_body kind shows }
{
    match kind {
        Kind::After => body_of(shows),
        _ => "",
    }
}

fn length_of(alloc: Global, shows: Option<LraStatus>) -> Result<Bytes, AllocError>
    ensures { IfOk result (λ text. text ≡ decimal (length (body_of shows))) }
{
    let length = body_of(shows).len();
    let text = format!(in alloc; "{length}")?;
    Ok(Bytes::new(text.into_bytes()))
}

fn add_body(
    alloc: Global,
    fields: &mut Vec<Field>,
    shows: Option<LraStatus>,
) -> Result<(), AllocError>
    ensures { OnOk result
        (fields.new.items ≡ fields.old.items ++ length_fields Kind.After shows) }
{
    let plain = bytes_of(alloc, "text/plain")?;
    add_field(alloc, fields, RequestField::ContentType, plain)?;
    let length = length_of(alloc, shows)?;
    add_field(alloc, fields, RequestField::ContentLength, length)
}

fn add_length(
    alloc: Global,
    fields: &mut Vec<Field>,
    kind: Kind,
    shows: Option<LraStatus>,
) -> Result<(), AllocError>
    ensures { OnOk result (fields.new.items ≡ fields.old.items ++ length_fields kind shows) }
{
    match kind {
        Kind::After => add_body(alloc, fields, shows),
        Kind::Complete | Kind::Compensate => {
            let zero = bytes_of(alloc, "0")?;
            add_field(alloc, fields, RequestField::ContentLength, zero)
        }
        Kind::Status | Kind::Forget => Ok(()),
    }
}

fn fields_of(alloc: Global, duty: &Duty) -> Result<Fields, AllocError>
    ensures fields { IfOk result (λ fields. fields ≡ fields_of duty.now) }
    ensures member { OnOk result (duty.now.member < 2 ^ 8) }
{
    let mut fields = Vec::new(alloc);
    let action = urn(alloc, duty.id)?;
    add_field(alloc, &mut fields, action_name(duty.kind), action)?;
    add_parent(alloc, &mut fields, duty.parent)?;
    let recovery = recovery_path(alloc, duty.id, duty.member)?;
    add_field(alloc, &mut fields, RequestField::Recovery, recovery)?;
    add_length(alloc, &mut fields, duty.kind, duty.shows)?;
    let close = bytes_of(alloc, "close")?;
    add_field(alloc, &mut fields, RequestField::Connection, close)?;
    Ok(Fields::new(fields))
}

fn host_of(alloc: Global, url: &Url) -> Result<Text, AllocError>
    ensures { IfOk result (λ text. text ≡ host_of url.now) }
{
    let host = url.slice(Position::BeforeHost, Position::AfterPort);
    Ok(Text::new(String::from_str(alloc, host)?))
}

fn target_of(alloc: Global, url: &Url) -> Result<Text, AllocError>
    ensures { IfOk result (λ text. text ≡ target_of url.now) }
{
    let target = url.slice(Position::BeforePath, Position::AfterQuery);
    Ok(Text::new(String::from_str(alloc, target)?))
}

#[tactic(auto, using(crate::proofs::WholeCalls::read_link))]
fn parts_of(alloc: Global, link: &Link) -> Result<Url, Refusal>
    ensures parts { IfOk result (λ url. IsUrlOf link.now url) }
    ensures cause { IfErr result (λ refusal. refusal ≡ NoMemory) }
{
    match Url::parse(alloc, link.as_str()) {
        Ok(url) => Ok(url),
        Err(ParseError::OutOfMemory | ParseError::Overflow) => Err(Refusal::NoMemory),
        Err(_) => unreachable!(),
    }
}

/// Makes the request for a duty. It goes to the host and the target of the duty's link, and names
/// the LRA, the parent of a nested LRA, and the path at which the coordinator describes the
/// participant. If the participant is notified of the end, the request says what the LRA shows.
/// Errors: `NoMemory`.
pub fn request_of(alloc: Global, duty: &Duty) -> Result<CallRequest, Refusal>
    ensures request { IfOk result (λ request. IsRequestOf duty.now request) }
    ensures whole { IfOk result IsOneRequest }
    ensures cause { IfErr result (λ refusal. refusal ≡ NoMemory) }
{
    let url = parts_of(alloc, &duty.link)?;
    Ok(CallRequest {
        method: method_of(duty.kind),
        target: target_of(alloc, &url)?,
        host: host_of(alloc, &url)?,
        fields: fields_of(alloc, duty)?,
        body: bytes_of(alloc, told_body(duty.kind, duty.shows))?,
    })
}
