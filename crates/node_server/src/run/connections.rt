// The connections of a node, as its workers take them.
ghost use Rattle.std.specs.Prelude.{⊤};

use crate::run::pull_holder::PullHolder;
use node_sockets::{
    BufferedSocket, Cutoff, Limit, PendingConnection, Promise, REQUEST_MS, Readiness, SharedSocket,
    SocketReader, SocketWriter, Sockets, Times, now, unix_millis,
};
use node_threads::Node;
use node_worker::{Addressee, Arrivals, Connection};
use std::alloc::Global;
use std::net::TcpStream;
use std::rc::Rc;
use std::sync::Wait;
use std::time::{Clock, Duration};
use std::{io, thread};

/// How long a worker may take to write its answer. What its client doesn't accept at once is sent
/// later without the worker.
const ANSWER_MS: u64 = 10_000;

/// How long to wait for a connection between runs before checking whether the program is to end.
const LOOK_MS: u64 = 50;

/// The time, between runs, from one look at the waiting pulls and answers to the next.
const AGAIN_MS: u64 = 100;

/// How long a worker rests if nothing comes from any connection that waits.
const REST_MS: u64 = 2;

/// What a worker takes from the queue of its node.
#[derive(Drop)]
pub struct Connections<'a, R: Wait + Clock> {
    rt: &'a R,
    alloc: Global,
    node: &'a Node,
    /// The name by which the node is asked.
    addressee: &'a Addressee,
    /// What the answer on the served connection waits for, if answers wait.
    promise: Option<&'a Promise>,
    /// When the waiting pulls and answers were last looked at, between runs.
    looked: Duration,
    /// Until when connections are taken; `None` if that is until the run is over.
    until: Option<Duration>,
    served: Option<Rc<SharedSocket>>,
    /// Whether the served connection has a long request, which is read as it comes.
    is_reading: bool,
}

/// The result of a look at a connection.
#[derive(Drop)]
enum Look {
    /// Nothing has come on it yet. This many connections wait.
    Nothing(usize),
    /// It is over, or held.
    Over,
    /// Its request has come, or has begun and is long.
    Request(TcpStream, bool),
}

/// A reader and a writer over one socket.
type Buffered<'a, R> = Connection<SocketReader<'a, R>, SocketWriter<'a, R>>;

impl<'a, R: Wait + Clock> Connections<'a, R> {
    /// Takes connections from this node's queue, until its run is over.
    pub fn new(
        rt: &'a R,
        alloc: Global,
        node: &'a Node,
        addressee: &'a Addressee,
        promise: &'a Promise,
    ) -> Connections<'a, R> {
        Connections {
            rt,
            alloc,
            node,
            addressee,
            promise: Some(promise),
            looked: Duration::ZERO,
            until: None,
            served: None,
            is_reading: false,
        }
    }

    /// Takes connections from this node's queue between runs, until this moment or until the
    /// program is to end.
    pub fn between_runs(
        rt: &'a R,
        alloc: Global,
        node: &'a Node,
        addressee: &'a Addressee,
        until: Duration,
    ) -> Connections<'a, R> {
        Connections {
            rt,
            alloc,
            node,
            addressee,
            promise: None,
            looked: Duration::ZERO,
            until: Some(until),
            served: None,
            is_reading: false,
        }
    }

    // Whether no more connections are to be taken.
    fn is_over(&self) -> bool {
        match self.until {
            None => self.node.signal.stop_reason(self.rt).is_some(),
            Some(until) => {
                let now = self.rt.monotonic().unwrap_or(until);
                now >= until || self.node.signal.has_ended(self.rt)
            }
        }
    }

    // Takes the first connection of the queue, once there is one.
    fn first(&self) -> Option<PendingConnection> {
        match self.until {
            None => self.node.queue.take(self.rt),
            Some(until) => {
                let now = self.rt.monotonic().unwrap_or(until);
                let time = until
                    .saturating_sub(now)
                    .min(Duration::from_millis(LOOK_MS));
                self.node.queue.take_within(self.rt, time)
            }
        }
    }

    // Rests, because nothing comes from any connection that waits. Between runs nothing wakes it.
    fn rest(&self) {
        let time = Duration::from_millis(REST_MS);
        if self.until.is_none() {
            self.node.queue.rest(self.rt, time);
        } else {
            thread::sleep(self.rt, time);
        }
    }

    // Makes a reader and a writer over a socket, on which a request is read within this limit. The
    // socket is remembered, to be closed when it is served.
    fn buffer(&mut self, stream: TcpStream, reading: Limit) -> io::Result<Buffered<'a, R>> {
        let times = Times {
            reading,
            writing: Limit::of_millis(ANSWER_MS),
        };
        let (signal, queue) = (&self.node.signal, Some(&self.node.queue));
        let (rt, alloc, cutoff) = (self.rt, self.alloc, Cutoff::RunEnd);
        let buffered = BufferedSocket::new(
            rt,
            alloc,
            signal,
            cutoff,
            queue,
            self.promise,
            stream,
            times,
        )?;
        let (reader, writer, socket) = buffered.into_parts();
        self.served = Some(socket);
        Ok(Connection {
            reader,
            writer,
            now: unix_millis(self.rt),
        })
    }

    // Records that a long request is read as it comes, until it is served.
    fn note_reading(&mut self) {
        self.is_reading = true;
        self.node.queue.note_reading();
    }

    // Makes waiting pulls and answers be looked at again some times a second: between runs no other
    // thread does that.
    fn look_again(&mut self) {
        if self.until.is_none() {
            return;
        }
        let moment = now(self.rt);
        if moment.saturating_sub(self.looked) >= Duration::from_millis(AGAIN_MS) {
            self.looked = moment;
            self.node.queue.free(self.rt);
            self.node.queue.fulfil(self.rt, u64::MAX);
        }
    }

    // Looks at the next connection. If nothing comes on it, it makes room for connections with a
    // request, and a pull that is held leaves the queue.
    fn look(&self, pending: PendingConnection) -> Look {
        let (queue, freed) = (&self.node.queue, self.node.queue.freed());
        let holding = PullHolder {
            rt: self.rt,
            node: self.node,
            addressee: self.addressee,
        };
        match pending.look(self.rt, queue.may_read_on(), &holding) {
            Readiness::Pending(pending) => Look::Nothing(queue.put_back(self.rt, pending)),
            Readiness::Held(pending) => {
                self.put_off(pending, freed);
                Look::Over
            }
            Readiness::Closed => Look::Over,
            Readiness::Whole(stream) => Look::Request(stream, false),
            Readiness::Long(stream) => Look::Request(stream, true),
        }
    }

    // Makes a reader and a writer over a socket whose request has come whole, or has begun.
    fn serve(&mut self, stream: TcpStream, is_long: bool) -> Option<Buffered<'a, R>> {
        let reading = if is_long {
            Limit::of_millis(REQUEST_MS)
        } else {
            Limit::of_whole(REQUEST_MS)
        };
        let Ok(connection) = self.buffer(stream, reading) else {
            return None;
        };
        if is_long {
            self.note_reading();
        }
        self.node.queue.hand_on(self.rt);
        Some(connection)
    }

    /// Closes the connection that was served in such a way that its client gets the whole answer.
    pub fn close_served(&mut self) {
        if self.is_reading {
            self.is_reading = false;
            self.node.queue.note_read();
        }
        let Some(socket) = self.served.take() else {
            return;
        };
        let ticket = self.promise.map_or(0, |promise| promise.take());
        if ticket > 0 && socket.kept() > 0 {
            self.keep(socket, ticket);
        } else {
            self.node.queue.close(self.rt, socket);
        }
    }

    // Makes an answer wait for a ticket, unless that is covered, or nothing waits now.
    fn keep(&self, socket: Rc<SharedSocket>, ticket: u64) {
        let is_done = socket.is_done();
        let Some(socket) = Rc::into_inner(socket) else {
            return;
        };
        let (stream, kept) = socket.into_parts();
        if let Ok(pending) = PendingConnection::promised(self.rt, stream, kept, is_done, ticket) {
            let _look = self.look(pending);
        }
    }

    // Keeps an answer until its ticket is covered, which it may already be by now.
    fn keep_for(&self, pending: PendingConnection, ticket: u64) {
        let queue = &self.node.queue;
        queue.keep(self.rt, pending);
        let covered = self.node.core.covered(self.rt);
        if covered >= ticket {
            queue.fulfil(self.rt, covered);
        }
    }

    // Puts off an answer until its ticket is covered, or a pull until the held pulls are freed.
    fn put_off(&self, pending: PendingConnection, freed: u64) {
        match pending.ticket() {
            Some(ticket) => self.keep_for(pending, ticket),
            None => self.node.queue.hold(self.rt, pending, freed),
        }
    }
}

impl<'a, R: Wait + Clock + Sockets> Arrivals for Connections<'a, R> {
    type Reader = SocketReader<'a, R>;

    type Writer = SocketWriter<'a, R>;

    // Nothing is known about what comes. A connection that can't be served is closed.
    ghost gives = { λ _ _ _. ⊤ };

    fn next(&mut self) -> Option<Buffered<'a, R>> {
        self.close_served();
        self.node.pass_on(self.rt);
        let mut silent = 0usize;
        for _ in self.rt.forever() {
            if self.is_over() {
                return None;
            }
            self.look_again();
            let Some(pending) = self.first() else {
                if self.until.is_none() {
                    return None;
                }
                continue;
            };
            match self.look(pending) {
                Look::Nothing(waiting) => {
                    silent = silent.saturating_add(1);
                    if silent >= waiting {
                        self.rest();
                        silent = 0;
                    }
                }
                Look::Over => {}
                Look::Request(stream, is_long) => {
                    if let Some(connection) = self.serve(stream, is_long) {
                        return Some(connection);
                    }
                }
            }
        }
        unreachable!()
    }
}
