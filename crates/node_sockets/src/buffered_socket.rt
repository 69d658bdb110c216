// A buffered reader and a buffered writer over one socket.

use crate::accept_queue::AcceptQueue;
use crate::deadline_stream::{Cutoff, DeadlineStream, Limit};
use crate::promise::Promise;
use crate::shared_socket::SharedSocket;
use crate::signal::Signal;
use std::alloc::Global;
use std::io;
use std::io::{BufReader, BufWriter, Error, ErrorKind};
use std::net::TcpStream;
use std::rc::Rc;
use std::sync::Wait;
use std::time::Clock;
use wire_http::{OverBuffer, OverWrite};

/// How many bytes are read or written at once, so that a frame of many fields makes no more system
/// calls than that needs.
const BUFFER: usize = 8192;

/// A buffered reader over a socket.
pub type SocketReader<'a, R> = OverBuffer<BufReader<DeadlineStream<'a, R>>>;

/// A buffered writer over a socket: a message with a head and a body is sent at once.
pub type SocketWriter<'a, R> = OverWrite<BufWriter<DeadlineStream<'a, R>>>;

/// How long a message may take to be read, and how long to be written.
#[derive(Clone, Copy)]
pub struct Times {
    pub reading: Limit,
    pub writing: Limit,
}

/// A reader and a writer over one socket. They are made together, so that the reader of one socket
/// is never paired with the writer of another.
#[derive(Drop)]
pub struct BufferedSocket<'a, R: Wait + Clock> {
    reader: SocketReader<'a, R>,
    writer: SocketWriter<'a, R>,
    socket: Rc<SharedSocket>,
}

impl<'a, R: Wait + Clock> BufferedSocket<'a, R> {
    /// Makes both over this connection. If a queue is given, it takes what the client doesn't
    /// accept at once of what is written, and all of an answer that waits for something.
    pub fn new(
        rt: &'a R,
        alloc: Global,
        signal: &'a Signal,
        cutoff: Cutoff,
        queue: Option<&'a AcceptQueue>,
        promise: Option<&'a Promise>,
        stream: TcpStream,
        times: Times,
    ) -> io::Result<BufferedSocket<'a, R>> {
        let Ok(socket) = Rc::new(alloc, SharedSocket::new(alloc, stream)) else {
            return Err(Error::from(ErrorKind::OutOfMemory));
        };
        let (reads, writes) = (socket.clone()?, socket.clone()?);
        let reader = DeadlineStream::new(rt, signal, cutoff, queue, None, reads, times.reading);
        let writer = DeadlineStream::new(rt, signal, cutoff, queue, promise, writes, times.writing);
        let reader = BufReader::with_capacity(alloc, BUFFER, reader)?;
        let writer = BufWriter::with_capacity(alloc, BUFFER, writer)?;
        Ok(BufferedSocket {
            reader: OverBuffer::new(reader),
            writer: OverWrite::new(writer),
            socket,
        })
    }

    /// Returns the reader, the writer, and the socket that they share.
    pub fn into_parts(self) -> (SocketReader<'a, R>, SocketWriter<'a, R>, Rc<SharedSocket>) {
        let BufferedSocket {
            reader,
            writer,
            socket,
        } = self;
        (reader, writer, socket)
    }
}
