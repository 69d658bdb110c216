// A source as an input.
ghost use Rattle.std.specs.Prelude.{◌≡◌, ◌+◌, ◌≤◌, ◌<◌, ◌++◌, [], ℕ, get_or, length, IfOk};
ghost use Rattle.std.specs.Io.KnownBytes.{Consumes};
ghost use Rattle.wire_http.specs.Streams.{too_many_interrupted};
ghost use Rattle.wire_frames.specs.Sources.{IsSound, Stands, Takes, consumes_is_fact, most_calls, of_source, of_stream, stands_is_fact};

use crate::input::{Input, Stop};
use std::snapshot::Snapshot;
use wire_http::{Log, Source, read_piece};

/// The progress of a stream.
#[derive(Clone, Copy, Debug, PartialEq, Eq)]
pub enum Progress {
    /// The stream goes on.
    Going,
    /// The last call found the end.
    Ended,
    /// The last call failed, or one call too many was interrupted.
    Failed,
}

/// What clauses read of a source: its state at the start, and what was taken of it since. It stands
/// outside of the stream because a struct that owns a snapshot beside a `&mut` forgets what it
/// leaves behind that.
#[derive(Drop)]
pub struct Track<S> {
    start: Snapshot<S>,
    taken: Log,
}

impl<S: Source> Track<S> {
    /// Makes the track of a source from which nothing was taken yet.
    pub fn new(source: &S) -> Track<S>
        ensures start { result.start.value ≡ source.now }
        ensures taken { result.taken ≡ [] }
    {
        Track {
            start: Snapshot::of(source),
            taken: Log::new(),
        }
    }
}

/// Tells the prover that numbers of one byte are below 256, which clauses about lists don't know by
/// themselves.
fn bytes_fit(bytes: &[u8])
    ensures { (i : ℕ) → get_or bytes.now i 0 < 256 }
{}

/// A source from which a frame of at most this many bytes is read. Once it meets its end or a
/// fault, it remembers that and reads no more.
#[derive(Drop)]
pub struct Stream<'a, S: Source> {
    source: &'a mut S,
    track: &'a mut Track<S>,
    progress: Progress,
    begun: u16,
    interrupted: u16,
    place: u64,
    limit: u64,
    bytes: u64,
    ghost gave: { (S.stream source.now).given ≡ (S.stream track.now.start.value).given ++ track.now.taken },
    ghost left: { Consumes (S.stream track.now.start.value).left (S.stream source.now).left track.now.taken } by { consumes_is_fact (S.stream track.now.start.value).left (S.stream source.now).left track.now.taken },
    ghost fits: { (i : ℕ) → get_or track.now.taken i 0 < 256 },
    ghost stands: { Stands progress (S.stream source.now) (S.calls track.now.start.value) (S.calls source.now) interrupted } by { stands_is_fact progress (S.stream source.now) (S.calls track.now.start.value) (S.calls source.now) interrupted },
    ghost few: { (S.calls source.now).made + (S.calls track.now.start.value).interrupted ≤ (S.calls track.now.start.value).made + most_calls progress place + (S.calls source.now).interrupted },
    ghost counted: { (S.calls source.now).interrupted + begun ≡ (S.calls track.now.start.value).interrupted + interrupted },
    ghost here: { length track.now.taken ≡ place },
    ghost within: { place ≤ limit },
    ghost inside: { limit ≤ bytes },
    ghost short: { most_calls progress place ≤ bytes },
}

impl<'a, S: Source> Stream<'a, S> {
    /// Makes a stream that reads at most this many bytes of the source.
    pub fn new(
        source: &'a mut S,
        track: &'a mut Track<S>,
        bytes: u64,
        interrupted: u16,
    ) -> Stream<'a, S>
        requires few { interrupted < too_many_interrupted }
        requires start { track.old.start.value ≡ source.old }
        requires taken { track.old.taken ≡ [] }
        ensures { ⟦<Stream<'a, S> as Input>⟧.seen result
            ≡ of_source S.stream S.calls source.entry source.old interrupted bytes }
    {
        Stream {
            source,
            track,
            progress: Progress::Going,
            begun: interrupted,
            interrupted,
            place: 0,
            limit: bytes,
            bytes,
        }
    }

    /// Returns how many calls of the message were interrupted so far.
    pub fn interrupted(&self) -> u16
        ensures count { result ≡ (⟦<Stream<'a, S> as Input>⟧.seen self.now).now.counted }
        ensures sound { IsSound (⟦<Stream<'a, S> as Input>⟧.seen self.now) }
    {
        self.interrupted
    }

    /// Reads some of the next bytes, at least one.
    fn piece(&mut self, buffer: &mut [u8]) -> Result<usize, Stop>
        requires some { 0 < length buffer.old }
        requires fits { length (⟦<Stream<'a, S> as Input>⟧.seen self.old).taken + length buffer.old
            ≤ (⟦<Stream<'a, S> as Input>⟧.seen self.old).limit }
        ensures takes { Takes (⟦<Stream<'a, S> as Input>⟧.seen self.old)
            (⟦<Stream<'a, S> as Input>⟧.seen self.new) result buffer.new }
        ensures bound { IfOk result (λ n. n ≤ length buffer.new) }
        ensures some { IfOk result (λ n. 0 < n) }
    {
        match self.progress {
            Progress::Ended => return Err(Stop::Cut),
            Progress::Failed => return Err(Stop::ReadFault),
            Progress::Going => {}
        }
        match read_piece(self.source, buffer, &mut self.interrupted) {
            Ok(n) => {
                if n == 0 {
                    self.progress = Progress::Ended;
                    return Err(Stop::Cut);
                }
                bytes_fit(&buffer[..n]);
                self.track.taken.extend(&buffer[..n]);
                self.place += n as u64;
                Ok(n)
            }
            Err(_) => {
                self.progress = Progress::Failed;
                Err(Stop::ReadFault)
            }
        }
    }
}

impl<'a, S: Source> Input for Stream<'a, S> {
    ghost seen = { λ s. of_stream S.stream S.calls s.track.now.start.value s.begun s.source s.interrupted s.bytes s.track.now.taken s.limit };

    fn place(&self) -> u64 {
        self.place
    }

    fn limit(&self) -> u64 {
        self.limit
    }

    fn lacks(&self, width: u64) -> bool {
        self.limit - self.place < width
    }

    fn bound(&mut self, len: u64) {
        if len < self.limit - self.place {
            self.limit = self.place + len;
        }
    }

    fn fill(&mut self, first: u64, buffer: &mut [u8]) -> Result<(), Stop> {
        if self.limit - self.place < buffer.len() as u64 {
            return Err(Stop::Fault(first));
        }
        let mut done = 0;
        while done < buffer.len() {
            match self.piece(&mut buffer[done..]) {
                Ok(n) => done += n,
                Err(stop) => return Err(stop),
            }
        }
        Ok(())
    }
}
