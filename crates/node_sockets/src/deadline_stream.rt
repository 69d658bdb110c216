// A connection whose reads and writes end in time.
ghost use Rattle.std.specs.Prelude.{◌≤◌, IfOk, length};

use crate::accept_queue::AcceptQueue;
use crate::promise::Promise;
use crate::room::Share;
use crate::shared_socket::SharedSocket;
use crate::signal::Signal;
use std::io;
use std::io::{Error, ErrorKind, Read, Write};
use std::rc::Rc;
use std::sync::Wait;
use std::time::{Clock, Duration};

/// How long one system call may wait for a connection. A read of a connection that is being served
/// waits less (`PendingConnection`).
pub const SLICE_MS: u64 = 20;

/// The least number of bytes that an empty socket takes at once.
const AT_ONCE: usize = 4096;

/// How long an answer may still take once nobody waits for it any more.
const GRACE_MS: u64 = 500;

/// How many slices in a row may take nothing of an answer for which there is no room, before it is
/// cut: a tenth of a second.
const MAX_STALLED: u32 = 5;

// Ten seconds of silence take 5,000 slices of 2 milliseconds.
const MAX_TURNS: u32 = 10_000;

/// How long a message may take, and for how long nothing of it may come or go.
#[derive(Clone, Copy)]
pub struct Limit {
    pub silence: Duration,
    pub whole: Duration,
    /// Whether all of it has come. If so, a read waits for nothing, and the message ends with the
    /// bytes that are there.
    pub has_come: bool,
}

impl Limit {
    /// Allows this many milliseconds for the whole message, even if it is silent for all of them.
    pub fn of_millis(whole: u64) -> Limit {
        let whole = Duration::from_millis(whole);
        Limit {
            silence: whole,
            whole,
            has_come: false,
        }
    }

    /// Allows this many milliseconds for a message of which everything has come.
    pub fn of_whole(whole: u64) -> Limit {
        let whole = Duration::from_millis(whole);
        Limit {
            silence: whole,
            whole,
            has_come: true,
        }
    }

    /// Allows this many milliseconds of silence, and for the whole message.
    pub fn of_silence(silence: u64, whole: u64) -> Limit {
        Limit {
            silence: Duration::from_millis(silence),
            whole: Duration::from_millis(whole),
            has_come: false,
        }
    }
}

/// What cuts the time of a connection short.
#[derive(Clone, Copy, PartialEq, Eq)]
pub enum Cutoff {
    /// The end of the run.
    RunEnd,
    /// The end of the program.
    ProgramEnd,
}

/// A connection whose reads, or writes, of one message end: with `TimedOut` if the message takes
/// too long. If a queue is given and has room, it takes what the client doesn't accept of an answer
/// at once, and the rest is sent from there. An answer that waits for something is kept whole.
#[derive(Drop)]
pub struct DeadlineStream<'a, R: Wait + Clock> {
    rt: &'a R,
    signal: &'a Signal,
    cutoff: Cutoff,
    queue: Option<&'a AcceptQueue>,
    promise: Option<&'a Promise>,
    socket: Rc<SharedSocket>,
    limit: Limit,
    /// When the whole message must be over.
    until: Option<Duration>,
    /// Until when some of it must come or go.
    silent_until: Duration,
    /// Whether some did since this was last looked at.
    has_moved: bool,
    hurried: bool,
    /// Whether something was read.
    has_read: bool,
    /// Whether something was written.
    wrote: bool,
    /// Whether a write waits for at most a slice.
    sliced: bool,
    /// How many slices in a row took nothing.
    stalled: u32,
}

impl<'a, R: Wait + Clock> DeadlineStream<'a, R> {
    /// Makes a stream over this connection. The time of the message begins with the first call.
    pub fn new(
        rt: &'a R,
        signal: &'a Signal,
        cutoff: Cutoff,
        queue: Option<&'a AcceptQueue>,
        promise: Option<&'a Promise>,
        socket: Rc<SharedSocket>,
        limit: Limit,
    ) -> DeadlineStream<'a, R> {
        DeadlineStream {
            rt,
            signal,
            cutoff,
            queue,
            promise,
            socket,
            limit,
            until: None,
            silent_until: Duration::ZERO,
            has_moved: true,
            hurried: false,
            has_read: false,
            wrote: false,
            sliced: false,
            stalled: 0,
        }
    }

    // Whether its time is cut short.
    fn is_hurried(&self) -> bool {
        match self.cutoff {
            Cutoff::RunEnd => self.signal.stop_reason(self.rt).is_some(),
            Cutoff::ProgramEnd => self.signal.has_ended(self.rt),
        }
    }

    // Whether the run is over, but the connection lives on in the next one.
    fn has_next_run(&self) -> bool {
        self.cutoff == Cutoff::RunEnd && self.is_hurried() && !self.signal.has_ended(self.rt)
    }

    // Whether this many more bytes of the answer may be kept for later, besides those already kept.
    fn may_keep(&self, count: usize) -> bool {
        let kept = self.socket.kept().saturating_add(count);
        match self.queue {
            Some(queue) => queue.may_keep(Share::of(self.socket.size(), kept)),
            None => false,
        }
    }

    // Whether the answer waits for something.
    fn is_promised(&self) -> bool {
        self.promise.is_some_and(|promise| promise.is_made())
    }

    // Keeps bytes of the answer for later, or fails.
    fn keep(&self, bytes: &[u8]) -> io::Result<usize>
        ensures { IfOk result (λ count. count ≤ length bytes.now) }
    {
        if !self.may_keep(bytes.len()) {
            return Err(Error::from(ErrorKind::TimedOut));
        }
        if self.socket.keep(bytes) {
            self.socket.note_taken(bytes.len());
            Ok(bytes.len())
        } else {
            Err(Error::from(ErrorKind::OutOfMemory))
        }
    }

    // Counts a slice that took nothing of an answer for which there is no room. Returns whether the
    // answer is to be cut so that others are served.
    fn is_crowded_out(&mut self) -> bool {
        self.stalled = self.stalled.saturating_add(1);
        self.queue.is_some() && self.stalled >= MAX_STALLED
    }

    // Records that something came or went.
    fn note_move(&mut self) {
        self.has_moved = true;
        self.stalled = 0;
    }

    // Records the result of a write.
    fn note_outcome(&mut self, outcome: &io::Result<usize>) {
        self.note_move();
        if let Ok(count) = outcome {
            self.socket.note_taken(*count);
        }
    }

    // Records the result of a read into a buffer of this size.
    fn note_read(&mut self, count: usize, room: usize) {
        self.has_read = true;
        self.socket.note_read(count, room);
        self.note_move();
    }

    // Reads what is there, and waits for nothing. If nothing is left, that is the end.
    fn read_there(&mut self, buf: &mut [u8]) -> io::Result<usize>
        ensures { IfOk result (λ count. count ≤ length buf.new) }
    {
        self.check_deadline()?;
        let mut stream = self.socket.stream();
        stream.set_nonblocking(true)?;
        let came = stream.read(buf);
        stream.set_nonblocking(false)?;
        match came {
            Ok(count) => {
                self.note_read(count, buf.len());
                Ok(count)
            }
            Err(error) if error.kind() == ErrorKind::WouldBlock => Ok(0),
            Err(error) => Err(error),
        }
    }

    // Returns when the whole message must be over, as seen now. Its time is cut short only once.
    fn ends_at(&mut self, now: Duration) -> Duration {
        let mut until = match self.until {
            Some(until) => until,
            None => now.saturating_add(self.limit.whole),
        };
        if !self.hurried && self.is_hurried() {
            self.hurried = true;
            until = until.min(now.saturating_add(Duration::from_millis(GRACE_MS)));
        }
        self.until = Some(until);
        until
    }

    // Fails once the time is up.
    fn check_deadline(&mut self) -> io::Result<()> {
        let now = self.rt.monotonic()?;
        let until = self.ends_at(now);
        if self.has_moved {
            self.has_moved = false;
            self.silent_until = now.saturating_add(self.limit.silence);
        }
        if now >= until || now >= self.silent_until {
            return Err(Error::from(ErrorKind::TimedOut));
        }
        Ok(())
    }

    // Makes each write wait for at most a slice. If the first write has few bytes, it needs no
    // limit.
    fn limit_write(&mut self, count: usize) -> io::Result<()> {
        if !self.sliced && (self.wrote || count > AT_ONCE) {
            let slice = Duration::from_millis(SLICE_MS);
            self.socket.stream().set_write_timeout(Some(slice))?;
            self.sliced = true;
        }
        self.wrote = true;
        Ok(())
    }
}

impl<'a, R: Wait + Clock> Read for DeadlineStream<'a, R> {
    fn read(&mut self, buf: &mut [u8]) -> io::Result<usize> {
        if self.limit.has_come && self.has_read {
            return self.read_there(buf);
        }
        for _turn in 0..MAX_TURNS {
            self.check_deadline()?;
            let mut stream = self.socket.stream();
            match stream.read(buf) {
                Ok(count) => {
                    self.note_read(count, buf.len());
                    return Ok(count);
                }
                Err(error) if error.kind() == ErrorKind::WouldBlock => {
                    if self.has_next_run() {
                        return Err(Error::from(ErrorKind::TimedOut));
                    }
                }
                Err(error) => return Err(error),
            }
        }
        Err(Error::from(ErrorKind::TimedOut))
    }
}

impl<'a, R: Wait + Clock> Write for DeadlineStream<'a, R> {
    fn write(&mut self, buf: &[u8]) -> io::Result<usize> {
        self.socket.note_written(buf);
        if self.socket.kept() > 0 || self.is_promised() {
            return self.keep(buf);
        }
        for _turn in 0..MAX_TURNS {
            if let Err(error) = self.check_deadline() {
                if self.hurried && self.has_next_run() {
                    return self.keep(buf);
                }
                return Err(error);
            }
            self.limit_write(buf.len())?;
            let mut stream = self.socket.stream();
            match stream.write(buf) {
                Err(error) if error.kind() == ErrorKind::WouldBlock => {
                    if self.may_keep(buf.len()) {
                        return self.keep(buf);
                    }
                    if self.is_crowded_out() {
                        return Err(error);
                    }
                }
                outcome => {
                    self.note_outcome(&outcome);
                    return outcome;
                }
            }
        }
        Err(Error::from(ErrorKind::TimedOut))
    }

    fn flush(&mut self) -> io::Result<()> {
        Ok(())
    }
}
