// One call over a connection of its own, to a node, another gateway or a participant.

use crate::agent::{Agent, Platform};
use http::Method;
use node_sockets::{
    BufferedSocket, Cutoff, Limit, SLICE_MS, SocketReader, SocketWriter, Times, connect_to_one,
};
use std::alloc::{AllocError, AllocFailed, Global};
use std::net::{TcpStream, ToSocketAddrs};
use std::time::Duration;
use std::{io, str};
use url::{Host as UrlHost, Url};
use wire_http::{
    Bytes, CallRequest, Field, Fields, MAX_BODY_BYTES, Response, Sink, Source, Text, read_response,
    write_request,
};
use wire_narayana::{Broken, read_answer};

/// Why there is no answer.
#[derive(Clone, Copy, PartialEq, Eq, Debug)]
pub enum Fail {
    NoMemory,
    /// Nothing was sent.
    Unsent,
    /// Something may have been sent, but no whole answer came.
    Unheard,
}

impl From<AllocError> for Fail {
    ghost use Rattle.std.specs.Prelude.{⊤};

    ghost from_gives = { λ _ _. ⊤ };

    fn from(_: AllocError) -> Fail {
        Fail::NoMemory
    }
}

impl<T: Drop> From<AllocFailed<T>> for Fail {
    ghost use Rattle.std.specs.Prelude.{⊤};

    ghost from_gives = { λ _ _. ⊤ };

    fn from(_: AllocFailed<T>) -> Fail {
        Fail::NoMemory
    }
}

/// Makes a field of a message.
pub fn field(alloc: Global, name: &str, value: &str) -> Result<Field, AllocError> {
    Ok(Field {
        name: Bytes::new(Vec::from_slice(alloc, name.as_bytes())?),
        value: Bytes::new(Vec::from_slice(alloc, value.as_bytes())?),
    })
}

/// Makes the field that states a body's length.
pub fn length_field(alloc: Global, length: usize) -> Result<Field, AllocError> {
    let text = format!(in alloc; "{length}")?;
    field(alloc, "Content-Length", text.as_str())
}

/// Makes a request with these fields and this body.
pub fn request_of(
    alloc: Global,
    method: Method,
    host: &str,
    target: &str,
    fields: Vec<Field>,
    body: &[u8],
) -> Result<CallRequest, AllocError> {
    Ok(CallRequest {
        method,
        target: Text::new(String::from_str(alloc, target)?),
        host: Text::new(String::from_str(alloc, host)?),
        fields: Fields::new(fields),
        body: Bytes::new(Vec::from_slice(alloc, body)?),
    })
}

/// Connects to a host by its name or its address.
pub fn connect<R: Platform>(
    agent: &Agent<R>,
    host: &str,
    port: u16,
    ms: u64,
) -> io::Result<TcpStream> {
    let (rt, alloc, signal) = (agent.rt, agent.alloc, &agent.gateway.signal);
    let addresses = (host, port).to_socket_addrs(rt)?;
    connect_to_one(rt, alloc, signal, addresses, Duration::from_millis(ms))
}

/// Connects to the host of a URL.
pub fn connect_to<R: Platform>(agent: &Agent<R>, url: &Url, ms: u64) -> io::Result<TcpStream> {
    let (rt, alloc, signal) = (agent.rt, agent.alloc, &agent.gateway.signal);
    let port = url.port_or_known_default().unwrap_or(80);
    let time = Duration::from_millis(ms);
    match url.host() {
        Some(UrlHost::Domain(name)) => connect(agent, name, port, ms),
        Some(UrlHost::Ipv4(ip)) => {
            connect_to_one(rt, alloc, signal, (ip, port).to_socket_addrs(rt)?, time)
        }
        Some(UrlHost::Ipv6(ip)) => {
            connect_to_one(rt, alloc, signal, (ip, port).to_socket_addrs(rt)?, time)
        }
        None => Err(io::Error::from(io::ErrorKind::NotFound)),
    }
}

/// Makes a reader and a writer over a connection, for one call that takes at most this long.
fn buffered<'a, R: Platform>(
    agent: &Agent<'a, R>,
    stream: TcpStream,
    ms: u64,
) -> Option<(SocketReader<'a, R>, SocketWriter<'a, R>)> {
    stream
        .set_read_timeout(Some(Duration::from_millis(SLICE_MS)))
        .ok()?;
    let times = Times {
        reading: Limit::of_millis(ms),
        writing: Limit::of_millis(ms),
    };
    let (signal, cutoff) = (&agent.gateway.signal, Cutoff::ProgramEnd);
    let buffered = BufferedSocket::new(
        agent.rt,
        agent.alloc,
        signal,
        cutoff,
        None,
        None,
        stream,
        times,
    );
    let (reader, writer, _socket) = buffered.ok()?.into_parts();
    Some((reader, writer))
}

/// Writes a request. Returns whether all of it was taken.
fn send<W: Sink>(alloc: Global, writer: &mut W, request: &CallRequest) -> bool {
    write_request(alloc, writer, request).is_ok()
}

/// Reads a node's answer.
fn read_node<S: Source>(alloc: Global, reader: &mut S) -> Option<Response> {
    read_response(alloc, reader, MAX_BODY_BYTES).ok()
}

/// Reads a participant's answer, of any framing.
fn read_participant<S: Source>(
    alloc: Global,
    reader: &mut S,
) -> Result<wire_narayana::ParticipantResponse, Broken> {
    read_answer(alloc, reader)
}

/// Calls a node or a gateway once over a connection. The answer may take `ms` milliseconds.
pub fn call<R: Platform>(
    agent: &Agent<R>,
    stream: TcpStream,
    request: &CallRequest,
    ms: u64,
) -> Result<Response, Fail> {
    let Some((mut reader, mut writer)) = buffered(agent, stream, ms) else {
        return Err(Fail::Unsent);
    };
    if !send(agent.alloc, &mut writer, request) {
        return Err(Fail::Unheard);
    }
    match read_node(agent.alloc, &mut reader) {
        Some(response) => Ok(response),
        None => Err(Fail::Unheard),
    }
}

/// Calls a participant once over a connection. The answer may take `ms` milliseconds.
pub fn call_participant<R: Platform>(
    agent: &Agent<R>,
    stream: TcpStream,
    request: &CallRequest,
    ms: u64,
) -> Result<wire_narayana::ParticipantResponse, Broken> {
    let Some((mut reader, mut writer)) = buffered(agent, stream, ms) else {
        return Err(Broken::Bad);
    };
    if !send(agent.alloc, &mut writer, request) {
        return Err(Broken::Bad);
    }
    read_participant(agent.alloc, &mut reader)
}
