// Answers to services.

use crate::asking::NodeAnswer;
use crate::exchange::{Fail, field, length_field};
use http::StatusCode;
use std::alloc::{AllocError, Global};
use std::str;
use wire_http::{Bytes, Fields, Response};

/// An answer to a service.
#[derive(Drop)]
pub struct ServiceAnswer {
    pub code: u16,
    pub is_json: bool,
    pub text: String,
    /// The URL of what was made, and the field that also states it.
    pub made: Option<(&'static str, String)>,
}

/// The field that names an LRA that was begun.
pub const LRA: &str = "Long-Running-Action";

/// The field that says where a participant is found.
pub const RECOVERY: &str = "Long-Running-Action-Recovery";

/// Makes an answer with a code and a text.
pub fn plain(alloc: Global, code: u16, text: &str) -> Result<ServiceAnswer, AllocError> {
    Ok(ServiceAnswer {
        code,
        is_json: false,
        text: String::from_str(alloc, text)?,
        made: None,
    })
}

/// Makes an answer with a JSON text.
pub fn json(text: String) -> ServiceAnswer {
    ServiceAnswer {
        code: 200,
        is_json: true,
        text,
        made: None,
    }
}

/// Makes the answer about something that was made: an id, or a participant's recovery URL.
pub fn made(
    alloc: Global,
    code: u16,
    name: &'static str,
    url: String,
) -> Result<ServiceAnswer, AllocError> {
    Ok(ServiceAnswer {
        code,
        is_json: false,
        text: String::from_str(alloc, url.as_str())?,
        made: Some((name, url)),
    })
}

/// Makes the answer for a node's refusal, as services know it.
pub fn refusal(alloc: Global, answer: &NodeAnswer) -> Result<ServiceAnswer, AllocError> {
    let code = match answer.code {
        400 => 400,
        404 | 410 => 404,
        412 => 412,
        _ => 503,
    };
    plain(alloc, code, answer.refused())
}

/// Makes the answer for a service if no node answered.
pub fn failure(alloc: Global, fail: Fail) -> Result<ServiceAnswer, AllocError> {
    let text = match fail {
        Fail::NoMemory => "no memory",
        Fail::Unsent => "no node can be reached",
        Fail::Unheard => "no node answered",
    };
    plain(alloc, 503, text)
}

/// Returns the text of a response's field, empty if it has none.
fn text_in<'a>(response: &'a Response, name: &str) -> &'a str {
    match response.fields.value(name.as_bytes()) {
        Some(value) => str::from_utf8(value).unwrap_or(""),
        None => "",
    }
}

/// Makes the answer from the response of another gateway.
pub fn reply_of(alloc: Global, response: &Response) -> Result<ServiceAnswer, AllocError> {
    let code = response.status.as_u16();
    let text = str::from_utf8(response.body.as_slice()).unwrap_or("");
    let url = String::from_str(alloc, text_in(response, "Location"))?;
    let name = if code == 201 { LRA } else { RECOVERY };
    Ok(ServiceAnswer {
        code,
        is_json: text_in(response, "Content-Type") == "application/json",
        text: String::from_str(alloc, text)?,
        made: if url.is_empty() {
            None
        } else {
            Some((name, url))
        },
    })
}

/// Makes the response for an answer.
pub fn response_of(alloc: Global, reply: ServiceAnswer) -> Result<Response, AllocError> {
    let ServiceAnswer {
        code,
        is_json,
        text,
        made,
    } = reply;
    let mut fields = Vec::new(alloc);
    if let Some((name, url)) = made {
        fields.push(field(alloc, "Location", url.as_str())?)?;
        fields.push(field(alloc, name, url.as_str())?)?;
    }
    if code != 204 {
        let kind = if is_json {
            "application/json"
        } else {
            "text/plain"
        };
        fields.push(field(alloc, "Content-Type", kind)?)?;
        fields.push(length_field(alloc, text.len())?)?;
    }
    fields.push(field(alloc, "Connection", "close")?)?;
    Ok(Response {
        status: StatusCode::from_u16(code).unwrap_or(StatusCode::INTERNAL_SERVER_ERROR),
        fields: Fields::new(fields),
        body: Bytes::new(text.into_bytes()),
    })
}
