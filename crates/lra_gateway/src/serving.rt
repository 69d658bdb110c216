// The work of a gateway's threads: they accept connections, look for requests, and serve them.

use crate::agent::{Agent, Platform};
use crate::exchange::{field, length_field};
use crate::forward::serve_node;
use crate::port::Port;
use crate::reply::{plain, response_of};
use crate::service::serve_service;
use http::StatusCode;
use node_sockets::{
    BufferedSocket, Cutoff, Limit, NoHolder, Readiness, SLICE_MS, Times, take_in, wait_for_room,
};
use std::alloc::{AllocError, Global};
use std::io;
use std::net::{IpAddr, TcpListener, TcpStream};
use std::time::Duration;
use wire_http::{Bytes, Fields, Response, Sink, Source, write_response};
use wire_narayana::{AnswerToNode, ServiceRequest, read_request};

/// How long the gateway waits for more of a request whose head is there, in milliseconds: a body in
/// chunks may still be on its way.
const SILENCE_MS: u64 = 500;

/// How long such a body may take as a whole, and how long writing an answer may take.
const REQUEST_MS: u64 = 5_000;

const ANSWER_MS: u64 = 10_000;

/// How long to rest if nothing comes over any of the waiting connections, in milliseconds.
const REST_MS: u64 = 2;

/// Whether a connection is from this machine.
fn is_near(stream: &TcpStream) -> bool {
    match stream.peer_addr() {
        Ok(address) => match address.ip() {
            IpAddr::V4(ip) => ip.is_loopback(),
            IpAddr::V6(ip) => ip.is_loopback(),
        },
        Err(_) => false,
    }
}

/// Whether a connection is to be turned away: it is from another machine, at a port that serves
/// only this one.
fn is_foreign(port: &Port, came: &io::Result<TcpStream>) -> bool {
    match came {
        Ok(stream) => port.is_loopback && !is_near(stream),
        Err(_) => false,
    }
}

/// Accepts connections and puts them on a port's queue, until the program is to end.
pub fn accept<R: Platform>(agent: &Agent<R>, port: &Port, listener: &TcpListener) {
    for came in listener.incoming() {
        if !is_foreign(port, &came) {
            take_in(agent.rt, &port.queue, came);
        }
        wait_for_room(agent.rt, &agent.gateway.signal, &port.queue);
        if agent.gateway.signal.has_ended(agent.rt) {
            return;
        }
    }
}

/// Looks for requests among the connections of a port, and hands the connections that have one to
/// workers, until the program is to end. A silent connection doesn't hold up the others.
pub fn look<R: Platform>(agent: &Agent<R>, port: &Port) {
    let mut silent = 0usize;
    for _ in agent.rt.forever() {
        let Some(pending) = port.queue.take(agent.rt) else {
            return;
        };
        match pending.look(agent.rt, true, &NoHolder) {
            Readiness::Pending(pending) | Readiness::Held(pending) => {
                silent = silent.saturating_add(1);
                if silent >= port.queue.put_back(agent.rt, pending) {
                    port.queue.rest(agent.rt, Duration::from_millis(REST_MS));
                    silent = 0;
                }
            }
            Readiness::Closed => {}
            Readiness::Whole(stream) | Readiness::Long(stream) => port.put(agent.rt, stream),
        }
    }
}

/// Whether the caller has closed the connection and so waits for no answer.
fn is_gone(stream: &TcpStream) -> bool {
    let mut byte = [0u8; 1];
    if stream.set_nonblocking(true).is_err() {
        return true;
    }
    let is_gone = matches!(stream.peek(&mut byte), Ok(0));
    stream.set_nonblocking(false).is_err() || is_gone
}

fn read<S: Source>(alloc: Global, reader: &mut S) -> Option<ServiceRequest> {
    read_request(alloc, reader).ok()
}

fn write<W: Sink>(alloc: Global, writer: &mut W, response: &Response) {
    let _ = write_response(alloc, writer, response);
}

/// Makes the response for a node.
fn response_of_told(alloc: Global, told: AnswerToNode) -> Result<Response, AllocError> {
    let text = match told.word {
        Some(status) => status.name(),
        None => "",
    };
    let mut fields = Vec::new(alloc);
    if told.code != 204 {
        fields.push(length_field(alloc, text.len())?)?;
    }
    fields.push(field(alloc, "Connection", "close")?)?;
    Ok(Response {
        status: StatusCode::from_u16(told.code).unwrap_or(StatusCode::SERVICE_UNAVAILABLE),
        fields: Fields::new(fields),
        body: Bytes::new(Vec::from_slice(alloc, text.as_bytes())?),
    })
}

/// Returns the response to a request at the port with this number, 0 for services.
fn answered<R: Platform>(
    agent: &Agent<R>,
    number: u8,
    request: Option<ServiceRequest>,
) -> Result<Response, AllocError> {
    let alloc = agent.alloc;
    let Some(request) = request else {
        return response_of(alloc, plain(alloc, 400, "no request")?);
    };
    match agent.gateway.group(number) {
        Some(group) => response_of_told(alloc, serve_node(agent, group, &request)?),
        None => response_of(alloc, serve_service(agent, &request)?),
    }
}

/// Serves one connection, if there is memory for it. A caller that has gone isn't served: a node
/// that has given up calls again, and its first call, if it were made late, might be out of order.
fn serve_one<'a, R: Platform>(
    agent: &'a Agent<R>,
    port: &'a Port,
    number: u8,
    stream: TcpStream,
) -> Option<()> {
    let (rt, alloc) = (agent.rt, agent.alloc);
    stream
        .set_read_timeout(Some(Duration::from_millis(SLICE_MS)))
        .ok()?;
    let watched = stream.try_clone().ok()?;
    let times = Times {
        reading: Limit::of_silence(SILENCE_MS, REQUEST_MS),
        writing: Limit::of_millis(ANSWER_MS),
    };
    let (signal, queue, cutoff) = (&agent.gateway.signal, Some(&port.queue), Cutoff::ProgramEnd);
    let buffered = BufferedSocket::new(rt, alloc, signal, cutoff, queue, None, stream, times);
    let (mut reader, mut writer, socket) = buffered.ok()?.into_parts();
    let request = read(alloc, &mut reader);
    if is_gone(&watched) {
        return None;
    }
    drop(watched);
    if let Ok(response) = answered(agent, number, request) {
        write(alloc, &mut writer, &response);
    }
    drop(reader);
    drop(writer);
    port.queue.close(rt, socket);
    Some(())
}

/// Serves the connections of a port, one after another, until the program is to end.
pub fn serve<R: Platform>(agent: &Agent<R>, number: u8) {
    let port = agent.gateway.port_of(number);
    for _ in agent.rt.forever() {
        match port.take(agent.rt) {
            Some(stream) => {
                let _served = serve_one(agent, port, number, stream);
            }
            None => return,
        }
    }
}
