// Makes the request of a pull.
ghost use Rattle.std.specs.Prelude.{◌≡◌, IfOk};
ghost use Rattle.wire_http.specs.MessageTexts.{request_text};
ghost use Rattle.wire_pulls.specs.Texts.{field, pull_fields, pull_request, pull_target, pull_text};

use crate::bodies::pull_body;
use http::Method;
use state_ids::Front;
use std::alloc::{AllocError, Global};
use wire_http::{Bytes, CallRequest, Field, Fields, Text};

fn field(alloc: Global, name: &str, value: &str) -> Result<Field, AllocError>
    ensures { IfOk result (λ made. made ≡ field name.now value.now) }
{
    Ok(Field {
        name: Bytes::new(Vec::from_slice(alloc, name.as_bytes())?),
        value: Bytes::new(Vec::from_slice(alloc, value.as_bytes())?),
    })
}

/// Makes the fields of a pull whose body has `size` bytes.
fn pull_fields(alloc: Global, size: usize) -> Result<Fields, AllocError>
    ensures { IfOk result (λ fields. fields ≡ pull_fields size) }
{
    let size = format!(in alloc; "{size}")?;
    let mut fields = Vec::new(alloc);
    fields.push(field(alloc, "Content-Type", "application/octet-stream")?)?;
    fields.push(field(alloc, "Content-Length", size.as_str())?)?;
    fields.push(field(alloc, "Connection", "close")?)?;
    Ok(Fields::new(fields))
}

fn text(alloc: Global, text: &str) -> Result<Text, AllocError>
    ensures { IfOk result (λ made. made ≡ text.now) }
{
    Ok(Text::new(String::from_str(alloc, text)?))
}

/// Makes the target of a pull with a query.
fn target(alloc: Global, query: &str) -> Result<Text, AllocError>
    ensures { IfOk result (λ made. made ≡ pull_target query.now) }
{
    let mut target = String::from_str(alloc, "/peer/pull")?;
    target.push_str(query)?;
    Ok(Text::new(target))
}

fn parts_of(alloc: Global, query: &str, front: &Front) -> Result<CallRequest, AllocError>
    ensures { IfOk result (λ request. request ≡ pull_request query.now front.now) }
{
    Ok(CallRequest {
        method: Method::POST,
        target: target(alloc, query)?,
        host: text(alloc, "peer")?,
        fields: pull_fields(alloc, 1 + 8 * front.nodes())?,
        body: Bytes::new(pull_body(alloc, front)?),
    })
}

/// Makes the request for what a front lacks, with a query.
pub fn pull_request(alloc: Global, query: &str, front: &Front) -> Result<CallRequest, AllocError>
    ensures { IfOk result (λ request. request_text request ≡ pull_text query.now front.now) }
{
    parts_of(alloc, query, front)
}
