// A socket that its reader and its writer share.

use std::alloc::Global;
use std::cell::{Cell, RefCell};
use std::net::TcpStream;

/// A socket that its reader and its writer share, and what they saw on it. It belongs to one
/// thread. So a connection takes one open file, and a message leaves in one system call.
#[derive(Drop)]
pub struct SharedSocket {
    stream: TcpStream,
    /// Whether the last read took all that had come.
    is_dry: Cell<bool>,
    /// Whether what is written is the answer to a request that was read to its end.
    is_heard: Cell<bool>,
    /// How many bytes of the answer were taken, either by the client or to be sent later.
    taken: Cell<usize>,
    /// How many bytes the answer has at least: those taken, and the last ones that were to be
    /// written.
    size: Cell<usize>,
    /// What is left of an answer that its client doesn't accept. It is sent later.
    kept: RefCell<Vec<u8>>,
}

impl SharedSocket {
    /// Shares this socket.
    pub fn new(alloc: Global, stream: TcpStream) -> SharedSocket {
        SharedSocket {
            stream,
            is_dry: Cell::new(false),
            is_heard: Cell::new(false),
            taken: Cell::new(0),
            size: Cell::new(0),
            kept: RefCell::new(Vec::new(alloc)),
        }
    }

    pub(crate) fn stream(&self) -> &TcpStream {
        &self.stream
    }

    /// Returns the socket and what is left of the answer.
    pub fn into_parts(self) -> (TcpStream, Vec<u8>) {
        let SharedSocket {
            stream,
            is_dry: _,
            is_heard: _,
            taken: _,
            size: _,
            kept,
        } = self;
        (stream, kept.into_inner())
    }

    /// Keeps bytes of an answer, to be sent later. Returns false if memory ran out.
    pub(crate) fn keep(&self, bytes: &[u8]) -> bool {
        match self.kept.try_borrow_mut() {
            Ok(mut kept) => kept.extend_from_slice(bytes).is_ok(),
            Err(_) => false,
        }
    }

    /// Returns how many bytes of an answer are left.
    pub fn kept(&self) -> usize {
        match self.kept.try_borrow() {
            Ok(kept) => kept.len(),
            Err(_) => 0,
        }
    }

    /// Records the result of a read into a buffer of this size.
    pub(crate) fn note_read(&self, count: usize, room: usize) {
        self.is_dry.set(count < room);
    }

    /// Records what is to be written. An answer with a code from 200 to 299 answers a request that
    /// was read to its end.
    pub(crate) fn note_written(&self, bytes: &[u8]) {
        self.size.set(self.taken.get().saturating_add(bytes.len()));
        if bytes.starts_with(b"HTTP/1.1 2") {
            self.is_heard.set(true);
        }
    }

    /// Records that this many bytes of it were taken.
    pub(crate) fn note_taken(&self, count: usize) {
        self.taken.set(self.taken.get().saturating_add(count));
    }

    /// Returns how many bytes the answer has, as far as is known.
    pub(crate) fn size(&self) -> usize {
        self.size.get()
    }

    /// Whether nothing is left of the request that its client could still send. If so, the system
    /// doesn't reset the connection when it is closed, and the client gets the whole answer. After
    /// any other answer, the writing side is shut, and what still comes is read for a second,
    /// without a worker: otherwise the client might lose the answer.
    pub fn is_done(&self) -> bool {
        self.is_dry.get() && self.is_heard.get()
    }
}
