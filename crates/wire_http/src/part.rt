// The body of a message that is written.
ghost use Rattle.std.specs.Prelude.{◌≡◌, ◌+◌, ◌<◌, ◌≤◌, ◌^◌, ℕ, List, length, IfNone, IfSome, OnErr, OnOk};
ghost use Rattle.wire_http.specs.Streams.{Streams, Takes, TakesPart, too_many_interrupted};

use crate::{Bytes, Sink, WriteFault, write_all};

/// Something that the body of a message is written from.
pub trait Part {
    /// Its bytes.
    ghost text: { Self → List ℕ };

    /// Returns how many bytes it has, or `None` if no 64-bit number counts them.
    fn length(&self) -> Option<u64>
        ensures some { IfSome result (λ n. n ≡ length (text self.now)) }
        ensures none { IfNone result (2 ^ 64 ≤ length (text self.now)) };

    /// Writes all of its bytes, or only a prefix of them if there is a fault. `interrupted` counts
    /// the interrupted calls of the message.
    fn write<W: Sink>(&self, sink: &mut W, interrupted: &mut u16) -> Result<(), WriteFault>
        requires { interrupted.old < too_many_interrupted }
        ensures ok { OnOk result (Takes (W.stream sink.old) (W.stream sink.new) (text self.now)) }
        ensures part { OnErr result
            (TakesPart (W.stream sink.old) (W.stream sink.new) (text self.now)) }
        ensures streams { Streams (length (text self.now))
            interrupted.old (W.calls sink.old) (W.calls sink.new) result }
        ensures counted { (W.calls sink.new).interrupted + interrupted.old
            ≡ (W.calls sink.old).interrupted + interrupted.new }
        ensures below { OnOk result (interrupted.new < too_many_interrupted) };
}

impl Part for Bytes {
    ghost text = { λ b. b };

    fn length(&self) -> Option<u64> {
        Some(self.as_slice().len() as u64)
    }

    fn write<W: Sink>(&self, sink: &mut W, interrupted: &mut u16) -> Result<(), WriteFault> {
        write_all(sink, self.as_slice(), interrupted)
    }
}
