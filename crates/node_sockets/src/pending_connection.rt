// A connection that no worker serves now.

use crate::holder::{Disposition, Hold, Holder, NoHolder, hold_of};
use crate::room::Share;
use crate::window::{Extent, GLANCE, Sight, WINDOW, sight_of};
use std::io;
use std::io::{ErrorKind, Read, Write};
use std::net::{Shutdown, TcpStream};
use std::time::{Clock, Duration};

/// How long a read of a connection waits, and so also the first look for its request: most requests
/// come with the connection.
const FIRST_LOOK_MS: u64 = 2;

/// How long a connection may send nothing.
const SILENCE_MS: u64 = 30_000;

/// How long a request may take to come once it has begun.
pub const REQUEST_MS: u64 = 5_000;

/// How long a pull is held at most. The asking node waits only a little longer.
const HELD_MS: u64 = 5_000;

/// How long a connection that was served is kept for what its client still sends.
const LINGER_MS: u64 = 1_000;

/// How long a client may accept nothing of the rest of its answer.
const IDLE_MS: u64 = 10_000;

/// How long the client may take for that in all.
const SENDING_MS: u64 = 300_000;

/// The interim answer for a client that asks for it before it sends the body.
const CONTINUE: &[u8] = b"HTTP/1.1 100 Continue\r\n\r\n";

/// The rest of an answer: these bytes from a position on, which are sent until a moment.
#[derive(Drop)]
struct Rest {
    bytes: Vec<u8>,
    from: usize,
    ends: Duration,
    /// Whether nothing is left of the request that its client could still send.
    is_done: bool,
    /// The share of the room that it takes until all is sent.
    share: Share,
}

/// An answer that has waited for a ticket since a moment.
#[derive(Drop)]
struct Promised {
    bytes: Vec<u8>,
    is_done: bool,
    ticket: u64,
    since: Duration,
}

/// What happens to a long request.
#[derive(Clone, Copy, PartialEq, Eq)]
enum LongOnes {
    /// A worker reads it as it comes.
    Read,
    /// It waits until a worker may read it.
    Wait,
    /// It is refused, and nothing of it is read.
    Refuse,
}

/// The result of writing the rest of an answer.
#[derive(Clone, Copy, PartialEq, Eq)]
enum Sent {
    All,
    Part,
    /// The client accepted nothing.
    Nothing,
    /// The client is gone.
    Failed,
}

impl Promised {
    /// Returns the share of the room that it takes: nothing of it is sent yet.
    fn share(&self) -> Share {
        Share::of(self.bytes.len(), self.bytes.len())
    }
}

impl Rest {
    /// Writes as much as the connection takes.
    fn send(&mut self, mut stream: &TcpStream) -> Sent {
        let rest = self.bytes.as_slice().get(self.from..).unwrap_or(&[]);
        match stream.write(rest) {
            Ok(0) => Sent::Failed,
            Ok(count) => {
                self.from = self.from.saturating_add(count);
                if self.from < self.bytes.len() {
                    Sent::Part
                } else {
                    Sent::All
                }
            }
            Err(error) if error.kind() == ErrorKind::WouldBlock => Sent::Nothing,
            Err(error) if error.kind() == ErrorKind::Interrupted => Sent::Nothing,
            Err(_) => Sent::Failed,
        }
    }

    /// Returns the time by which a client that accepted some of it now must accept more.
    fn until(&self, now: Duration) -> Duration {
        now.saturating_add(Duration::from_millis(IDLE_MS))
            .min(self.ends)
    }
}

/// What is still to come on a connection.
#[derive(Drop)]
enum Stage {
    /// Its request, which nobody has looked for yet.
    Accepted,
    /// Its request.
    Awaiting,
    /// The rest of its request.
    Reading,
    /// It sent a pull of the node with this number, or a command (0), which has been held since
    /// this moment.
    Held(u8, Duration),
    /// It sent a pull that is no longer held, because that node has sent another.
    Released,
    /// Its answer, once other nodes have what the answer shows.
    Promised(Promised),
    /// The rest of its answer, which is being sent to the client.
    Sending(Rest),
    /// Its end: it has its answer.
    Closing,
}

/// A connection, what is still to come on it, and until when.
#[derive(Drop)]
pub struct PendingConnection {
    stream: TcpStream,
    stage: Stage,
    until: Duration,
    /// Whether its client was sent the interim answer 100.
    had_continue: bool,
}

/// The result of a look at a connection.
#[derive(Drop)]
pub enum Readiness {
    /// A whole request is there, or one that a worker is to refuse. A worker may serve it, and
    /// needn't wait for anything.
    Whole(TcpStream),
    /// A long request has begun: a worker may read it as it comes.
    Long(TcpStream),
    /// No whole request is there yet; or there is a pull that is to be served in a moment.
    Pending(PendingConnection),
    /// A pull or an answer is there that is to wait until there is something for it.
    Held(PendingConnection),
    /// The connection is over.
    Closed,
}

/// Whether a connection takes these few bytes at once.
fn is_sent(mut stream: &TcpStream, bytes: &[u8]) -> bool {
    match stream.write(bytes) {
        Ok(count) => count == bytes.len(),
        Err(_) => false,
    }
}

impl Stage {
    /// Whether a look at the connection waits for something to come.
    fn is_unseen(&self) -> bool {
        matches!(self, Stage::Accepted)
    }

    /// Returns the share of the room that its answer takes, if it has one.
    fn share(&self) -> Share {
        match self {
            Stage::Sending(rest) => rest.share,
            Stage::Promised(promised) => promised.share(),
            _ => Share::of(0, 0),
        }
    }

    /// Returns the ticket for which an answer waits.
    fn ticket(&self) -> Option<u64> {
        match self {
            Stage::Promised(promised) => Some(promised.ticket),
            _ => None,
        }
    }

    /// Returns the number of the node whose pull is held, if one is.
    fn asker(&self) -> Option<u8> {
        match self {
            Stage::Held(from, _since) if *from > 0 => Some(*from),
            _ => None,
        }
    }

    /// Returns since when it has been held.
    fn since(&self) -> Option<Duration> {
        match self {
            Stage::Held(_from, since) => Some(*since),
            _ => None,
        }
    }
}

impl PendingConnection {
    /// Makes a connection that has just come.
    pub fn new<R: Clock>(rt: &R, stream: TcpStream) -> io::Result<PendingConnection> {
        let until = rt
            .monotonic()?
            .saturating_add(Duration::from_millis(SILENCE_MS));
        Ok(PendingConnection {
            stream,
            stage: Stage::Accepted,
            until,
            had_continue: false,
        })
    }

    /// Whether nobody has looked at it yet.
    pub(crate) fn is_unseen(&self) -> bool {
        self.stage.is_unseen()
    }

    /// Returns the share of the room that its answer takes.
    pub(crate) fn share(&self) -> Share {
        self.stage.share()
    }

    /// Returns the number of the node whose pull is held, if one is.
    pub(crate) fn asker(&self) -> Option<u8> {
        self.stage.asker()
    }

    /// Stops holding its pull, which is served at the next look.
    pub(crate) fn release(&mut self) {
        self.stage = Stage::Released;
    }

    /// Makes a connection that has its answer. What its client still sends is read for a moment, so
    /// that the answer reaches it. Fails if the client is already gone.
    pub fn closing<R: Clock>(rt: &R, stream: TcpStream) -> io::Result<PendingConnection> {
        stream.shutdown(Shutdown::Write)?;
        stream.set_nonblocking(true)?;
        let until = rt
            .monotonic()?
            .saturating_add(Duration::from_millis(LINGER_MS));
        Ok(PendingConnection {
            stream,
            stage: Stage::Closing,
            until,
            had_continue: true,
        })
    }

    /// Makes a connection with the rest of an answer, which has `size` bytes in all. These bytes
    /// are still sent as long as its client accepts some of them.
    pub(crate) fn sending<R: Clock>(
        rt: &R,
        stream: TcpStream,
        bytes: Vec<u8>,
        size: usize,
    ) -> io::Result<PendingConnection> {
        stream.set_nonblocking(true)?;
        let share = Share::of(size, bytes.len());
        PendingConnection::with_rest(rt, stream, bytes, false, share)
    }

    // Makes a connection with the rest of an answer, on which no look waits.
    fn with_rest<R: Clock>(
        rt: &R,
        stream: TcpStream,
        bytes: Vec<u8>,
        is_done: bool,
        share: Share,
    ) -> io::Result<PendingConnection> {
        let now = rt.monotonic()?;
        let rest = Rest {
            bytes,
            from: 0,
            ends: now.saturating_add(Duration::from_millis(SENDING_MS)),
            is_done,
            share,
        };
        Ok(PendingConnection {
            stream,
            until: rest.until(now),
            stage: Stage::Sending(rest),
            had_continue: true,
        })
    }

    /// Makes a connection whose answer has these bytes and waits for a ticket. `is_done` says that
    /// its client can't still send something.
    pub fn promised<R: Clock>(
        rt: &R,
        stream: TcpStream,
        bytes: Vec<u8>,
        is_done: bool,
        ticket: u64,
    ) -> io::Result<PendingConnection> {
        stream.set_nonblocking(true)?;
        let since = rt.monotonic()?;
        let promised = Promised {
            bytes,
            is_done,
            ticket,
            since,
        };
        Ok(PendingConnection {
            stream,
            until: since,
            stage: Stage::Promised(promised),
            had_continue: true,
        })
    }

    /// Returns the ticket for which its answer waits, if it does.
    pub fn ticket(&self) -> Option<u64> {
        self.stage.ticket()
    }

    // Keeps the connection until its time is up.
    fn keep_or_drop<R: Clock>(self, rt: &R) -> Readiness {
        match rt.monotonic() {
            Ok(now) if now < self.until => Readiness::Pending(self),
            _ => Readiness::Closed,
        }
    }

    // Makes looks no longer wait from here on. Returns whether the system allows that.
    fn stop_waiting(&mut self) -> bool {
        !self.stage.is_unseen() || self.stream.set_nonblocking(true).is_ok()
    }

    // Keeps the connection, because nothing has come yet. From here on no look waits.
    fn keep<R: Clock>(mut self, rt: &R) -> Readiness {
        if !self.stop_waiting() {
            return Readiness::Closed;
        }
        self.stage = Stage::Awaiting;
        self.keep_or_drop(rt)
    }

    // Holds the pull of a node, to be served in a moment. From here on no look waits.
    fn hold<R: Clock>(mut self, rt: &R, from: u8) -> Readiness {
        if self.stage.since().is_some() {
            return self.keep_or_drop(rt);
        }
        let Ok(now) = rt.monotonic() else {
            return Readiness::Closed;
        };
        if !self.stop_waiting() {
            return Readiness::Closed;
        }
        self.stage = Stage::Held(from, now);
        self.until = now.saturating_add(Duration::from_millis(HELD_MS));
        Readiness::Pending(self)
    }

    // Holds the pull until there is something for it.
    fn hold_on<R: Clock>(self, rt: &R, from: u8) -> Readiness {
        match self.hold(rt, from) {
            Readiness::Pending(pending) => Readiness::Held(pending),
            other => other,
        }
    }

    // Waits for the rest of a request. The time for that begins now; when it is over, the
    // connection is closed.
    fn await_rest<R: Clock>(mut self, rt: &R) -> Readiness {
        let Ok(now) = rt.monotonic() else {
            return Readiness::Closed;
        };
        if matches!(self.stage, Stage::Reading) {
            if now < self.until {
                return Readiness::Pending(self);
            }
            return self.begin_closing(rt);
        }
        if !self.stop_waiting() {
            return Readiness::Closed;
        }
        self.stage = Stage::Reading;
        self.until = now.saturating_add(Duration::from_millis(REQUEST_MS));
        Readiness::Pending(self)
    }

    // Looks at what has come of a request, without consuming it. Most requests fit into a glance.
    fn peek<R: Clock, H: Holder>(self, rt: &R, long: LongOnes, holder: &H) -> Readiness {
        let mut bytes = [0u8; GLANCE];
        match self.stream.peek(&mut bytes) {
            Ok(GLANCE) => self.peek_far(rt, long, holder),
            came => self.look_at_peeked(rt, came, &bytes, long, holder),
        }
    }

    // Does the same for a longer request.
    fn peek_far<R: Clock, H: Holder>(self, rt: &R, long: LongOnes, holder: &H) -> Readiness {
        let mut bytes = [0u8; WINDOW];
        let came = self.stream.peek(&mut bytes);
        self.look_at_peeked(rt, came, &bytes, long, holder)
    }

    // Decides what happens to the connection by the result of a look at its socket: how many bytes
    // came, at the start of `bytes`.
    fn look_at_peeked<R: Clock, H: Holder>(
        self,
        rt: &R,
        came: io::Result<usize>,
        bytes: &[u8],
        long: LongOnes,
        holder: &H,
    ) -> Readiness {
        match came {
            Ok(0) => Readiness::Closed,
            Ok(count) => self.look_at(rt, &bytes[..count.min(bytes.len())], long, holder),
            Err(error) if error.kind() == ErrorKind::WouldBlock => self.keep(rt),
            Err(error) if error.kind() == ErrorKind::Interrupted => Readiness::Pending(self),
            Err(_) => Readiness::Closed,
        }
    }

    // Returns what happens to these bytes of its request, if they are a whole pull or command that
    // may have to wait.
    fn judged<H: Holder>(&self, bytes: &[u8], extent: Extent, holder: &H) -> Option<(u8, Hold)> {
        if extent != Extent::Whole || matches!(self.stage, Stage::Released) {
            return None;
        }
        hold_of(bytes, self.stage.since(), holder)
    }

    // Hands the connection over if these bytes of its request are enough, unless the request is to
    // wait.
    fn look_at<R: Clock, H: Holder>(
        self,
        rt: &R,
        bytes: &[u8],
        long: LongOnes,
        holder: &H,
    ) -> Readiness {
        let sight = sight_of(bytes);
        match self.judged(bytes, sight.extent, holder) {
            Some((from, Hold::Later)) => self.hold_on(rt, from),
            Some((from, Hold::Soon)) => self.hold(rt, from),
            _ => self.go_by(rt, sight, long),
        }
    }

    // Sends its client the interim answer 100, once. Returns whether that went well.
    fn send_continue(&mut self) -> bool {
        if self.had_continue {
            return true;
        }
        self.had_continue = true;
        is_sent(&self.stream, CONTINUE)
    }

    // Goes on by what a look at its request shows. A client that waits for the interim answer gets
    // it, unless its request is refused.
    fn go_by<R: Clock>(mut self, rt: &R, sight: Sight, long: LongOnes) -> Readiness {
        let is_refused = sight.extent == Extent::Long && long == LongOnes::Refuse;
        if sight.awaits_continue && !is_refused && !self.send_continue() {
            return Readiness::Closed;
        }
        self.hand_over(rt, sight.extent, long)
    }

    // Hands the connection over if this much of its request is enough. A long request may have to
    // wait.
    fn hand_over<R: Clock>(self, rt: &R, extent: Extent, long: LongOnes) -> Readiness {
        let is_long = extent == Extent::Long;
        if extent == Extent::Part || (is_long && long == LongOnes::Wait) {
            return self.await_rest(rt);
        }
        match self.into_blocking() {
            Some(stream) if is_long => Readiness::Long(stream),
            Some(stream) => Readiness::Whole(stream),
            None => Readiness::Closed,
        }
    }

    // Returns the connection, with reads that wait again.
    fn into_blocking(self) -> Option<TcpStream> {
        let PendingConnection {
            stream,
            stage,
            until: _,
            had_continue: _,
        } = self;
        if !stage.is_unseen() && stream.set_nonblocking(false).is_err() {
            return None;
        }
        Some(stream)
    }

    // Restarts its time, because its client accepted some of its answer.
    fn go_on<R: Clock>(mut self, rt: &R) -> Readiness {
        if let (Ok(now), Stage::Sending(rest)) = (rt.monotonic(), &self.stage) {
            self.until = rest.until(now);
        }
        self.keep_or_drop(rt)
    }

    // Sends an answer that has waited.
    fn fulfil<R: Clock>(rt: &R, stream: TcpStream, promised: Promised) -> Readiness {
        let share = promised.share();
        let Promised {
            bytes,
            is_done,
            ticket: _,
            since: _,
        } = promised;
        match PendingConnection::with_rest(rt, stream, bytes, is_done, share) {
            Ok(pending) => pending.send_rest(rt),
            Err(_) => Readiness::Closed,
        }
    }

    // Sends its answer, if that needn't wait any longer.
    fn stand<R: Clock, H: Holder>(self, rt: &R, holder: &H) -> Readiness {
        let stand = match &self.stage {
            Stage::Promised(promised) => holder.stand(promised.ticket, promised.since),
            _ => Disposition::Drop,
        };
        match stand {
            Disposition::Send => {}
            Disposition::Wait => return Readiness::Held(self),
            Disposition::Drop => return Readiness::Closed,
        }
        let PendingConnection {
            stream,
            stage,
            until: _,
            had_continue: _,
        } = self;
        match stage {
            Stage::Promised(promised) => PendingConnection::fulfil(rt, stream, promised),
            _ => Readiness::Closed,
        }
    }

    // Sends more of its answer.
    fn send_rest<R: Clock>(mut self, rt: &R) -> Readiness {
        let (sent, is_done) = match &mut self.stage {
            Stage::Sending(rest) => (rest.send(&self.stream), rest.is_done),
            _ => (Sent::All, false),
        };
        match sent {
            Sent::All if is_done => Readiness::Closed,
            Sent::Failed => Readiness::Closed,
            Sent::Nothing => self.keep_or_drop(rt),
            Sent::Part => self.go_on(rt),
            Sent::All => self.begin_closing(rt),
        }
    }

    // Closes it. What its client still sends is read for a moment.
    fn begin_closing<R: Clock>(self, rt: &R) -> Readiness {
        let PendingConnection {
            stream,
            stage: _,
            until: _,
            had_continue: _,
        } = self;
        match PendingConnection::closing(rt, stream) {
            Ok(pending) => Readiness::Pending(pending),
            Err(_) => Readiness::Closed,
        }
    }

    // Reads what comes behind the request.
    fn drain<R: Clock>(mut self, rt: &R) -> Readiness {
        let mut bytes = [0u8; 4096];
        match self.stream.read(&mut bytes) {
            Ok(0) => Readiness::Closed,
            Ok(_) => self.keep_or_drop(rt),
            Err(error) if error.kind() == ErrorKind::WouldBlock => self.keep_or_drop(rt),
            Err(error) if error.kind() == ErrorKind::Interrupted => self.keep_or_drop(rt),
            Err(_) => Readiness::Closed,
        }
    }

    // Looks for the first time. It sets how long a read waits, here and later.
    fn first_look<R: Clock, H: Holder>(self, rt: &R, long: LongOnes, holder: &H) -> Readiness {
        let wait = Duration::from_millis(FIRST_LOOK_MS);
        match self.stream.set_read_timeout(Some(wait)) {
            Ok(()) => self.peek(rt, long, holder),
            Err(_) => Readiness::Closed,
        }
    }

    // Looks at what has come, or sends more.
    fn look_by<R: Clock, H: Holder>(self, rt: &R, long: LongOnes, holder: &H) -> Readiness {
        match self.stage {
            Stage::Accepted => self.first_look(rt, long, holder),
            Stage::Awaiting | Stage::Reading | Stage::Held(_, _) | Stage::Released => {
                self.peek(rt, long, holder)
            }
            Stage::Promised(_) => self.stand(rt, holder),
            Stage::Sending(_) => self.send_rest(rt),
            Stage::Closing => self.drain(rt),
        }
    }

    /// Looks at what has come, or sends more. The first look waits a little for something to come,
    /// the others for nothing. A long request is ready for a worker if one may read on, and a pull
    /// once its holder no longer makes it wait. An answer that needn't wait any longer is sent too.
    pub fn look<R: Clock, H: Holder>(self, rt: &R, reads_on: bool, holder: &H) -> Readiness {
        let long = if reads_on {
            LongOnes::Read
        } else {
            LongOnes::Wait
        };
        self.look_by(rt, long, holder)
    }

    /// Looks like `look`, for a thread that serves all connections by itself: no look waits, no
    /// pull is held, and a long request is handed over to be refused.
    pub fn look_at_once<R: Clock>(mut self, rt: &R) -> Readiness {
        if self.stage.is_unseen() {
            if !self.stop_waiting() {
                return Readiness::Closed;
            }
            self.stage = Stage::Awaiting;
        }
        self.look_by(rt, LongOnes::Refuse, &NoHolder)
    }
}
