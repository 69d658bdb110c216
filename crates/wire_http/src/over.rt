// Sources and sinks over std's readers and writers.
ghost use Rattle.std.specs.Prelude.{◌≡◌, ◌+◌, ◌++◌, ◌≤◌, ◌&&◌, ◌==◌, ◌↔◌, Err, IfOk, IsErr, MatchResult, Ok, if◌then◌else◌, length, nat_lt, take};
ghost use Rattle.std.specs.Io.{ReadsAtMost, StopsAt};
ghost use Rattle.std.specs.Io.KnownBytes.{Consumes, Keeps};
ghost use Rattle.httparse.specs.Ascii.{line_feed};
ghost use Rattle.wire_http.specs.Counted.{unread, unwritten};
ghost use Rattle.wire_http.specs.Streams.{OneMore, ended_calls, failed_calls, given_bytes, interrupted_calls};

use crate::count::Count;
use crate::log::Log;
use crate::{CallError, Sink, Source};
use std::io;
use std::io::{BufRead, ErrorKind, Read, Write};
use std::marker::Model;
use std::snapshot::Snapshot;

/// How the calls of a source or a sink came out so far.
#[derive(Drop)]
struct Calls {
    made: Count,
    failed: Count,
    interrupted: Count,
    last_failed: Count,
}

impl Calls {
    fn none() -> Calls
        ensures made { result.made ≡ 0 }
        ensures failed { result.failed ≡ 0 }
        ensures interrupted { result.interrupted ≡ 0 }
        ensures last_failed { result.last_failed ≡ 0 }
    {
        Calls {
            made: Count::zero(),
            failed: Count::zero(),
            interrupted: Count::zero(),
            last_failed: Count::zero(),
        }
    }

    fn count<T>(&mut self, outcome: &Result<T, CallError>)
        ensures made { self.new.made ≡ self.old.made + 1 }
        ensures failed { self.new.failed ≡ self.old.failed + failed_calls outcome.now }
        ensures interrupted { self.new.interrupted
            ≡ self.old.interrupted + interrupted_calls outcome.now }
        ensures last_failed { self.new.last_failed ≡ failed_calls outcome.now }
    {
        self.made = self.made.next();
        self.last_failed = Count::zero();
        match outcome {
            Ok(_) => {}
            Err(CallError::Interrupted) => self.interrupted = self.interrupted.next(),
            Err(CallError::Failed) => {
                self.failed = self.failed.next();
                self.last_failed = Count::zero().next();
            }
        }
    }
}

/// Returns what an error of std says of a call: only an interrupted call may be made again.
fn call_error(kind: ErrorKind) -> CallError
    ensures { (result ≡ CallError.Interrupted) ↔ (kind ≡ ErrorKind.Interrupted) }
{
    if kind == ErrorKind::Interrupted {
        CallError::Interrupted
    } else {
        CallError::Failed
    }
}

/// Returns the result of a write that took `count` of the given bytes. A write that takes none of
/// some bytes would be repeated for ever, so it counts as failed.
fn taken(count: usize, given: usize) -> Result<usize, CallError>
    ensures { result ≡ (if (count == 0) && nat_lt 0 given then Err CallError.Failed else Ok count) }
{
    if count == 0 && given > 0 {
        Err(CallError::Failed)
    } else {
        Ok(count)
    }
}

fn is_line_feed(byte: u8) -> bool
    ensures { result ≡ (byte == line_feed) }
{
    byte == b'\n'
}

/// A source over a reader of std.
#[derive(Drop)]
pub struct OverRead<R> {
    reader: R,
    given: Log,
    ended: Count,
    calls: Calls,
}

impl<R> Model for OverRead<R> {
    ghost use Rattle.wire_http.specs.Counted.{Reader};

    ghost Value = { Reader R };

    ghost view = { λ a. record {
      inner = a.reader;
      given = a.given;
      ended = a.ended;
      calls = record {
        made = a.calls.made;
        failed = a.calls.failed;
        interrupted = a.calls.interrupted;
        last_failed = a.calls.last_failed;
      };
    } };
}

impl<R: Read> OverRead<R> {
    /// Makes a source that reads from this reader. No call has been made yet.
    pub fn new(reader: R) -> OverRead<R>
        ensures { result ≡ unread reader }
    {
        OverRead {
            reader,
            given: Log::new(),
            ended: Count::zero(),
            calls: Calls::none(),
        }
    }
}

impl<R> OverRead<R> {
    /// Records what a call of the reader gave, and returns it as a source does.
    fn note(&mut self, outcome: io::Result<usize>, buffer: &[u8]) -> Result<usize, CallError>
        requires { ReadsAtMost outcome buffer.now }
        ensures inner { self.new.inner ≡ self.old.inner }
        ensures outcome { MatchResult outcome (λ n. result ≡ Ok n) (λ _. IsErr result) }
        ensures given { self.new.given ≡ self.old.given ++ given_bytes result buffer.now }
        ensures ended { self.new.ended ≡ ended_calls result buffer.now }
        ensures calls { OneMore self.old.calls self.new.calls result }
    {
        let outcome = match outcome {
            Ok(n) => Ok(n),
            Err(error) => Err(call_error(error.kind())),
        };
        self.ended = Count::zero();
        if let Ok(n) = outcome {
            self.given.extend(&buffer[..n]);
            if n == 0 && !buffer.is_empty() {
                self.ended = Count::zero().next();
            }
        }
        self.calls.count(&outcome);
        outcome
    }
}

impl<R: Read> Source for OverRead<R> {
    ghost stream = { λ r. record { given = r.given; ended = r.ended; left = R.remaining r.inner } };

    ghost calls = { λ r. r.calls };

    fn read_some(&mut self, buffer: &mut [u8]) -> Result<usize, CallError> {
        let outcome = self.reader.read(buffer);
        self.note(outcome, buffer)
    }
}

/// Returns how many bytes there are up to and including the first line feed.
fn length_of_line(bytes: &[u8]) -> usize
    ensures bound { result ≤ length bytes.now }
    ensures line { StopsAt (take result bytes.now) line_feed }
{
    let end = bytes.iter().position(|byte| is_line_feed(*byte));
    end.map_or(bytes.len(), |place| place + 1)
}

/// Takes as much as fits of what a reader has at hand, and nothing behind a line feed. It may take
/// nothing even if there is more to read.
fn take_in_line<R: BufRead>(reader: &mut R, buffer: &mut [u8]) -> io::Result<usize>
    ensures bound { ReadsAtMost result buffer.new }
    ensures room { length buffer.new ≡ length buffer.old }
    ensures bytes { MatchResult result
        (λ n. Consumes (R.remaining reader.old) (R.remaining reader.new) (take n buffer.new))
        (λ _. Keeps (R.remaining reader.old) (R.remaining reader.new)) }
    ensures line { IfOk result (λ n. StopsAt (take n buffer.new) line_feed) }
{
    let lent = match reader.fill_buf() {
        Ok(lent) => lent,
        Err(error) => return Err(error),
    };
    let most = lent.len().min(buffer.len());
    let count = length_of_line(&lent[..most]);
    buffer[..count].copy_from_slice(&lent[..count]);
    reader.consume(count);
    Ok(count)
}

/// A source over a buffered reader of std. It reads a whole line in one call if the reader has one
/// at hand.
#[derive(Drop)]
pub struct OverBuffer<R> {
    over: OverRead<R>,
}

impl<R> Model for OverBuffer<R> {
    ghost use Rattle.wire_http.specs.Counted.{Reader};

    ghost Value = { Reader R };

    ghost view = { λ a. a.over };
}

impl<R: BufRead> OverBuffer<R> {
    /// Makes a source that reads from this reader. No call has been made yet.
    pub fn new(reader: R) -> OverBuffer<R>
        ensures { result ≡ unread reader }
    {
        OverBuffer {
            over: OverRead::new(reader),
        }
    }
}

impl<R: BufRead> Source for OverBuffer<R> {
    ghost stream = { λ r. record { given = r.given; ended = r.ended; left = R.remaining r.inner } };

    ghost calls = { λ r. r.calls };

    fn read_some(&mut self, buffer: &mut [u8]) -> Result<usize, CallError> {
        self.over.read_some(buffer)
    }

    fn read_in_line(&mut self, buffer: &mut [u8]) -> Result<usize, CallError> {
        let outcome = take_in_line(&mut self.over.reader, buffer);
        if matches!(outcome, Ok(0)) {
            let one = buffer.len().min(1);
            return self.over.read_some(&mut buffer[..one]);
        }
        self.over.note(outcome, buffer)
    }
}

/// A sink over a writer of std.
#[derive(Drop)]
pub struct OverWrite<W> {
    writer: W,
    taken: Log,
    flushed: Snapshot<Log>,
    calls: Calls,
}

impl<W> Model for OverWrite<W> {
    ghost use Rattle.wire_http.specs.Counted.{Writer};

    ghost Value = { Writer W };

    ghost view = { λ a. record {
      inner = a.writer;
      taken = a.taken;
      flushed = a.flushed.value;
      calls = record {
        made = a.calls.made;
        failed = a.calls.failed;
        interrupted = a.calls.interrupted;
        last_failed = a.calls.last_failed;
      };
    } };
}

impl<W: Write> OverWrite<W> {
    /// Makes a sink that writes to this writer. No call has been made yet.
    pub fn new(writer: W) -> OverWrite<W>
        ensures { result ≡ unwritten writer }
    {
        OverWrite {
            writer,
            taken: Log::new(),
            flushed: Snapshot::of(&Log::new()),
            calls: Calls::none(),
        }
    }

    /// Returns the writer.
    pub fn into_inner(self) -> W
        ensures { result ≡ self.inner }
    {
        self.writer
    }
}

impl<W: Write> Sink for OverWrite<W> {
    ghost stream = { λ w.
        record { taken = w.taken; flushed = w.flushed; written = W.contents w.inner } };

    ghost calls = { λ w. w.calls };

    fn write_some(&mut self, bytes: &[u8]) -> Result<usize, CallError> {
        let outcome = match self.writer.write(bytes) {
            Ok(count) => taken(count, bytes.len()),
            Err(error) => Err(call_error(error.kind())),
        };
        if let Ok(n) = outcome {
            self.taken.extend(&bytes[..n]);
        }
        self.calls.count(&outcome);
        outcome
    }

    fn flush(&mut self) -> Result<(), CallError> {
        let outcome = match self.writer.flush() {
            Ok(()) => Ok(()),
            Err(error) => Err(call_error(error.kind())),
        };
        if outcome.is_ok() {
            self.flushed = Snapshot::of(&self.taken);
        }
        self.calls.count(&outcome);
        outcome
    }
}
