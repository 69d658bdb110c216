// A participant that takes connections and never answers, in more LRAs than a node has caller
// threads, next to one that answers.

use crate::loopback::{address, is_done, needs, take_part};
use std::alloc::Global;
use std::net::{Net, TcpListener, TcpStream};
use std::test::Fail;
use std::time::{Clock, Duration};

/// The ports of the participant that never answers, and of the one that answers.
const HANGING: u16 = 18_478;

const ANSWERING: u16 = 18_479;

/// The number of LRAs that the participant that never answers is in. The other one is in the last.
const LRAS: u64 = 7;

/// How long the participant that answers may wait for its call, in milliseconds. Each call of the
/// other one takes 10,000.
const MAX_WAIT: u64 = 5_000;

const BEGIN: &str = "POST /lra HTTP/1.1\r\nHost: p\r\nContent-Length: 0\r\n\r\n";

/// Lets a participant join an LRA, and closes the LRA. Returns whether both succeeded.
fn joins_and_closes<R: Net<Stream = TcpStream>>(
    rt: &R,
    alloc: Global,
    node: u16,
    number: u64,
    participant: u16,
) -> Result<bool, Fail> {
    let path = format!(in alloc; "/lra/00000000-0000-8001-8000-{number:012x}")?;
    let link = format!(in alloc; "http://127.0.0.1:{participant}/k")?;
    let body = format!(in alloc; "{{\"compensate\":\"{link}\",\"complete\":\"{link}\"}}")?;
    let length = body.len();
    let join = format!(in alloc;
        "PUT {path}/join HTTP/1.1\r\nHost: p\r\nContent-Length: {length}\r\n\r\n{body}"
    )?;
    let close = format!(in alloc;
        "PUT {path}/close HTTP/1.1\r\nHost: p\r\nContent-Length: 0\r\n\r\n"
    )?;
    Ok(is_done(rt, node, join.as_str())? && is_done(rt, node, close.as_str())?)
}

/// Begins LRAs at node 1, whose next fact has this number, and closes them. All but the last wait
/// for the participant that never answers. The other one is called nevertheless.
pub(crate) fn visit<R: Net<Listener = TcpListener, Stream = TcpStream> + Clock>(
    rt: &R,
    alloc: Global,
    node: u16,
    first: u64,
) -> Result<(), Fail> {
    let _hanging = TcpListener::bind(rt, address(HANGING))?;
    let answering = TcpListener::bind(rt, address(ANSWERING))?;
    for _number in 0..LRAS {
        needs(
            is_done(rt, node, BEGIN)?,
            "no LRA was begun for those that hang",
        )?;
    }
    for place in 0..LRAS {
        let participant = if place + 1 < LRAS { HANGING } else { ANSWERING };
        let number = first.saturating_add(place);
        needs(
            joins_and_closes(rt, alloc, node, number, participant)?,
            "an LRA isn't closing for those that hang",
        )?;
    }
    let begun = rt.monotonic()?;
    needs(
        take_part(rt, &answering)?,
        "one that hangs keeps the other from being called",
    )?;
    let waited = rt.monotonic()?.saturating_sub(begun);
    needs(
        waited < Duration::from_millis(MAX_WAIT),
        "one that hangs holds the other up",
    )
}
