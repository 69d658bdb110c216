// Writes the participants of a node whose calls fail, as JSON.

use node_sockets::now;
use node_threads::{Node, Plaint};
use std::alloc::{AllocError, Global};
use std::sync::Wait;
use std::time::Clock;

fn push(body: &mut Vec<u8>, text: &str) -> Result<(), AllocError> {
    body.extend_from_slice(text.as_bytes())
}

/// Writes a text in quotes, in which each quote and backslash follows a backslash.
fn push_quoted(body: &mut Vec<u8>, text: &str) -> Result<(), AllocError> {
    push(body, "\"")?;
    for byte in text.as_bytes() {
        if *byte == b'"' || *byte == b'\\' {
            push(body, "\\")?;
        }
        body.extend_from_slice(&[*byte])?;
    }
    push(body, "\"")
}

fn push_number(body: &mut Vec<u8>, alloc: Global, number: u64) -> Result<(), AllocError> {
    let digits = number.to_string(alloc)?;
    push(body, digits.as_str())
}

/// Writes who the participant is, what it is called for, and where.
fn push_who(body: &mut Vec<u8>, alloc: Global, plaint: &Plaint) -> Result<(), AllocError> {
    push(body, "{\"lra\":\"")?;
    body.extend_from_slice(&plaint.id.to_text())?;
    push(body, "\",\"member\":")?;
    push_number(body, alloc, u64::from(plaint.member))?;
    push(body, ",\"kind\":\"")?;
    push(body, plaint.kind.name())?;
    push(body, "\",\"link\":")?;
    push_quoted(body, plaint.link.as_str())
}

/// Writes how often its calls failed, since when, the result of the last one, and when it is called
/// again.
fn push_how(body: &mut Vec<u8>, alloc: Global, plaint: &Plaint) -> Result<(), AllocError> {
    push(body, ",\"times\":")?;
    push_number(body, alloc, u64::from(plaint.times))?;
    push(body, ",\"since\":")?;
    push_number(body, alloc, plaint.since.as_secs())?;
    push(body, ",\"came\":\"")?;
    let came = plaint.came.to_string(alloc)?;
    push(body, came.as_str())?;
    push(body, "\",\"next\":")?;
    match plaint.next {
        Some(next) => push_number(body, alloc, next.as_secs())?,
        None => push(body, "null")?,
    }
    push(body, "}")
}

/// Writes these participants as JSON.
fn calls_text(alloc: Global, plaints: &[Plaint]) -> Result<Vec<u8>, AllocError> {
    let mut body = Vec::new(alloc);
    push(&mut body, "{\"calls\":[")?;
    let mut is_first = true;
    for plaint in plaints {
        if !is_first {
            push(&mut body, ",")?;
        }
        push_who(&mut body, alloc, plaint)?;
        push_how(&mut body, alloc, plaint)?;
        is_first = false;
    }
    push(&mut body, "]}")?;
    Ok(body)
}

/// Returns the participants of a node whose calls fail, as JSON: at most 256, those that have
/// failed for longest first.
pub fn calls_of<R: Wait + Clock>(
    rt: &R,
    alloc: Global,
    node: &Node,
) -> Result<Vec<u8>, AllocError> {
    let plaints = node.core.plaints(rt, alloc, now(rt))?;
    calls_text(alloc, &plaints)
}
