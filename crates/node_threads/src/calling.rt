// The threads that call participants. They outlive the runs of their node.

use crate::node::Node;
use log::{Log, warn};
use node_inbox::{Letter, Unheard, call_for};
use node_schedule::{CallFailure, Plight, StartedCall};
use node_sockets::{
    BufferedSocket, Cutoff, Limit, SLICE_MS, Signal, SocketReader, SocketWriter, Sockets, Times,
    connect_to_one, now,
};
use std::alloc::Global;
use std::io::{Error, ErrorKind};
use std::net::{Net, TcpStream, ToSocketAddrs};
use std::sync::Wait;
use std::time::{Clock, Duration};
use std::{io, str};
use url::{Host, Url};
use wire_callbacks::{Heard, NetCaller};

/// How long a participant may take to be reached, to take its request, and to answer, each.
const PATIENCE_MS: u64 = 10_000;

/// Connects to the host of a link.
fn connect<R: Wait + Clock + Net<Stream = TcpStream>>(
    rt: &R,
    alloc: Global,
    signal: &Signal,
    url: &Url,
) -> io::Result<TcpStream> {
    let port = url.port_or_known_default().unwrap_or(80);
    let time = Duration::from_millis(PATIENCE_MS);
    match url.host() {
        Some(Host::Domain(name)) => {
            connect_to_one(rt, alloc, signal, (name, port).to_socket_addrs(rt)?, time)
        }
        Some(Host::Ipv4(ip)) => connect_to_one(
            rt,
            alloc,
            signal,
            (ip, port).to_socket_addrs(rt)?,
            time,
        ),
        Some(Host::Ipv6(ip)) => connect_to_one(
            rt,
            alloc,
            signal,
            (ip, port).to_socket_addrs(rt)?,
            time,
        ),
        None => Err(Error::from(ErrorKind::NotFound)),
    }
}

/// Returns a duty for which no participant could be called, or whose call was lost.
fn without_answer(due: StartedCall, came: CallFailure) -> Result<Letter, Unheard> {
    Err(Unheard { due, came })
}

/// Makes a caller over a connection.
fn caller_over<'a, R: Wait + Clock>(
    rt: &'a R,
    alloc: Global,
    node: &'a Node,
    stream: TcpStream,
) -> Option<NetCaller<SocketReader<'a, R>, SocketWriter<'a, R>>> {
    stream
        .set_read_timeout(Some(Duration::from_millis(SLICE_MS)))
        .ok()?;
    let patience = Limit::of_millis(PATIENCE_MS);
    let times = Times {
        reading: patience,
        writing: patience,
    };
    let (signal, cutoff) = (&node.signal, Cutoff::ProgramEnd);
    let buffered = BufferedSocket::new(rt, alloc, signal, cutoff, None, None, stream, times);
    let (reader, writer, _socket) = buffered.ok()?.into_parts();
    Some(NetCaller::new(reader, writer))
}

/// Calls a participant, and returns its answer, if one came that counts.
fn call_one<R: Wait + Clock + Sockets>(
    rt: &R,
    alloc: Global,
    node: &Node,
    due: StartedCall,
) -> Result<Letter, Unheard> {
    let Ok(url) = Url::parse(alloc, due.duty().link.as_str()) else {
        return without_answer(due, CallFailure::NoConnection);
    };
    let Ok(stream) = connect(rt, alloc, &node.signal, &url) else {
        return without_answer(due, CallFailure::NoConnection);
    };
    match caller_over(rt, alloc, node, stream) {
        Some(mut caller) => call_for(alloc, &mut caller, due),
        None => without_answer(due, CallFailure::Broken),
    }
}

/// Returns what was learned, if anything.
fn heard_of(came: &Result<Letter, Unheard>) -> Option<Heard> {
    match came {
        Ok(letter) => Some(letter.heard()),
        Err(_) => None,
    }
}

/// Warns of a participant whose calls fail, or reports that it answers again.
fn warn_of<L: Log>(log: &L, node: &Node, plight: &Plight) {
    let id = plight.id.to_text();
    let id = str::from_utf8(&id).unwrap_or("");
    let (number, member, kind) = (node.number(), plight.member, plight.kind);
    let (host, calls, seconds) = (plight.host.as_str(), plight.calls, plight.time.as_secs());
    if plight.is_over {
        warn!(log; "node {number}: /lra/{id}/member/{member} ({kind}) at {host} answers again, after {calls} failed calls in {seconds} s");
    } else {
        let came = plight.came;
        warn!(log; "node {number}: /lra/{id}/member/{member} ({kind}) at {host} failed {calls} calls in {seconds} s: {came}");
    }
}

/// Calls participants, one after another, until the program is to end. It warns of those whose
/// calls have failed for a minute.
pub fn call_out<R: Wait + Clock + Sockets, L: Log>(rt: &R, log: &L, alloc: Global, node: &Node) {
    for _ in rt.forever() {
        let Some(due) = node.core.next_duty(rt) else {
            return;
        };
        let began = now(rt);
        let kind = due.duty().kind;
        let came = call_one(rt, alloc, node, due);
        node.counts.callback(rt, kind, heard_of(&came));
        if let Some(plight) = node.core.end_call(rt, began, came) {
            warn_of(log, node, &plight);
        }
    }
}
