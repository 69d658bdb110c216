// Reading a frame from a source.
ghost use Rattle.std.specs.Prelude.{◌≡◌, ◌+◌, ◌<◌, length, take, IfErr, IfOk, IfSome, OnOk};
ghost use Rattle.wire_http.specs.Streams.{Gives, too_many_interrupted};
ghost use Rattle.wire_frames.specs.Encoding.{encoding_as};
ghost use Rattle.wire_frames.specs.Reading.{read_of};
ghost use Rattle.wire_frames.specs.Rules.{IsDeltaAs};
ghost use Rattle.wire_frames.specs.Sources.{ReadsCalls, Says, StopsReading};
ghost use Rattle.wire_frames.specs.declared.version.Version.{Version};

use crate::Delta;
use crate::frame_fields::frame_of;
use crate::input::Stop;
use crate::stream::{Stream, Track};
use std::alloc::Global;
use wire_http::Source;

impl Delta {
    /// Reads a frame of exactly this many bytes, of version 1 or 2, from a source, number by number
    /// and text by text. For a socket there should be a buffered reader below. What follows the
    /// frame is left unread. `interrupted` counts the interrupted calls of the message to which
    /// these bytes belong.
    ///
    /// Errors: E16 at the place of the first field that isn't whole within the frame or breaks its
    /// rule. Then no more of the field was read than is needed to tell, and nothing behind it. If a
    /// link's length breaks its rule, only that length was read. A field for which the stated
    /// length has no room wasn't read at all. `Cut` or `ReadFault` if the source ends or fails
    /// before that.
    pub fn read<S: Source>(
        alloc: Global,
        reader: &mut S,
        bytes: u64,
        interrupted: &mut u16,
    ) -> Result<Delta, Stop>
        requires { interrupted.old < too_many_interrupted }
        // The source gave the encoding of a frame that keeps the rules, in a version, and not one
        // byte more.
        ensures frame { IfOk result (λ delta. (version : Version)
            × IsDeltaAs version delta × (length (encoding_as version delta) ≡ bytes)
            × Gives (S.stream reader.old) (S.stream reader.new) (encoding_as version delta)) }
        // What the source gave before each stop shows the reason, whatever follows.
        ensures stop { IfErr result
            (StopsReading bytes (S.stream reader.old) (S.stream reader.new)) }
        // If the bytes that come are known, the answer is what reading the next ones gives.
        ensures known { IfSome (S.stream reader.old).left
            (λ ahead. Says result (read_of bytes (take bytes ahead))) }
        ensures calls { ReadsCalls bytes
            interrupted.old (S.calls reader.old) (S.calls reader.new) result }
        ensures counted { (S.calls reader.new).interrupted + interrupted.old
            ≡ (S.calls reader.old).interrupted + interrupted.new }
        ensures below { OnOk result (interrupted.new < too_many_interrupted) }
    {
        let mut track = Track::new(reader);
        let mut input = Stream::new(reader, &mut track, bytes, *interrupted);
        let result = frame_of(alloc, &mut input);
        *interrupted = input.interrupted();
        result
    }
}
