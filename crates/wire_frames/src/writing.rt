// Writing a frame to a sink.
ghost use Rattle.std.specs.Prelude.{◌≡◌, ◌+◌, ◌<◌, ◌≤◌, ◌++◌, false, length, OnOk, OnErr, []};
ghost use Rattle.std.specs.Io.KnownBytes.{Appends};
ghost use Rattle.wire_http.specs.Streams.{Streams, Takes, TakesPart, too_many_interrupted};
ghost use Rattle.wire_frames.specs.Encoding.{encoding};
ghost use Rattle.wire_frames.specs.Grammar.{IsOfGrammar};
ghost use Rattle.wire_frames.specs.Rules.{IsDelta};
ghost use Rattle.wire_frames.specs.WrittenSoFar.{Blames, appends_is_fact, blames_is_fact, of_sink, part_taken};

use crate::Delta;
use crate::frame_encoding::put_frame;
use crate::output::Output;
use crate::version::Version;
use std::snapshot::Snapshot;
use wire_http::{Log, Sink, WriteFault, write_all};

/// What clauses read of a sink: its state at the start, and what was put since. It stands outside
/// of `Writing` because a struct that owns a snapshot beside a `&mut` forgets what it leaves behind
/// that.
#[derive(Drop)]
struct Sheet<W> {
    start: Snapshot<W>,
    text: Log,
}

impl<W: Sink> Sheet<W> {
    /// Makes the sheet of a sink to which nothing was put yet.
    fn new(sink: &W) -> Sheet<W>
        ensures start { result.start.value ≡ sink.now }
        ensures text { result.text ≡ [] }
    {
        Sheet {
            start: Snapshot::of(sink),
            text: Log::new(),
        }
    }
}

/// A sink to which a frame is written, until a write fails.
#[derive(Drop)]
struct Writing<'a, W: Sink> {
    sink: &'a mut W,
    sheet: &'a mut Sheet<W>,
    begun: u16,
    interrupted: u16,
    broken: bool,
    ghost taken: { (W.stream sink.now).taken ≡ (W.stream sheet.now.start.value).taken ++ part_taken broken (W.stream sheet.now.start.value) (W.stream sink.now) sheet.now.text },
    ghost written: { Appends (W.stream sheet.now.start.value).written (W.stream sink.now).written (part_taken broken (W.stream sheet.now.start.value) (W.stream sink.now) sheet.now.text) } by { appends_is_fact (W.stream sheet.now.start.value).written (W.stream sink.now).written (part_taken broken (W.stream sheet.now.start.value) (W.stream sink.now) sheet.now.text) },
    ghost blames: { Blames broken (W.calls sheet.now.start.value) (W.calls sink.now) interrupted } by { blames_is_fact broken (W.calls sheet.now.start.value) (W.calls sink.now) interrupted },
    ghost few: { (W.calls sink.now).made + (W.calls sheet.now.start.value).interrupted ≤ (W.calls sheet.now.start.value).made + length sheet.now.text + (W.calls sink.now).interrupted },
    ghost counted: { (W.calls sink.now).interrupted + begun ≡ (W.calls sheet.now.start.value).interrupted + interrupted },
}

impl<'a, W: Sink> Writing<'a, W> {
    fn new(sink: &'a mut W, sheet: &'a mut Sheet<W>, interrupted: u16) -> Writing<'a, W>
        requires few { interrupted < too_many_interrupted }
        requires start { sheet.old.start.value ≡ sink.old }
        requires text { sheet.old.text ≡ [] }
        ensures start { ⟦<Writing<'a, W> as Output>⟧.start result
            ≡ of_sink W.stream W.calls sink.entry sink.old interrupted }
        ensures text { ⟦<Writing<'a, W> as Output>⟧.text result ≡ [] }
    {
        Writing {
            sink,
            sheet,
            begun: interrupted,
            interrupted,
            broken: false,
        }
    }
}

impl<'a, W: Sink> Output for Writing<'a, W> {
    ghost text = { λ s. s.sheet.now.text };

    ghost start = { λ s. of_sink W.stream W.calls s.sink s.sheet.now.start.value s.begun };

    fn put(&mut self, bytes: &[u8]) {
        self.sheet.text.extend(bytes);
        if self.broken {
            return;
        }
        match write_all(self.sink, bytes, &mut self.interrupted) {
            Ok(_) => {}
            Err(_) => self.broken = true,
        }
    }
}

impl Delta {
    /// Writes the bytes that encode this delta in version 2, number by number and text by text, or
    /// a prefix of them before a fault. For a socket there should be a buffered writer below. It
    /// takes no memory. `interrupted` counts the interrupted calls of the message to which these
    /// bytes belong.
    #[tactic(auto, using(crate::proofs::PartsPut::part_put))]
    pub fn write<W: Sink>(&self, writer: &mut W, interrupted: &mut u16) -> Result<(), WriteFault>
        requires { interrupted.old < too_many_interrupted }
        ensures ok { OnOk result
            (Takes (W.stream writer.old) (W.stream writer.new) (encoding self.now)) }
        ensures part { OnErr result
            (TakesPart (W.stream writer.old) (W.stream writer.new) (encoding self.now)) }
        ensures streams { Streams (length (encoding self.now))
            interrupted.old (W.calls writer.old) (W.calls writer.new) result }
        ensures counted { (W.calls writer.new).interrupted + interrupted.old
            ≡ (W.calls writer.old).interrupted + interrupted.new }
        ensures below { OnOk result (interrupted.new < too_many_interrupted) }
        // A delta that keeps the rules that the frames of a history's nodes keep is read as the
        // same delta again.
        ensures frame { IsOfGrammar self.now → IsDelta self.now }
    {
        let mut sheet = Sheet::new(writer);
        let mut out = Writing::new(writer, &mut sheet, *interrupted);
        put_frame(&mut out, Version::Two, self);
        *interrupted = out.interrupted;
        if out.broken {
            return Err(WriteFault);
        }
        Ok(())
    }
}
