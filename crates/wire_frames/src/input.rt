// The input from which a frame is read.
ghost use Rattle.std.specs.Prelude.{◌≡◌, ◌+◌, ◌≤◌, length, nat_lt, IfOk};
ghost use Rattle.wire_frames.specs.FrameFields.{cells_at};
ghost use Rattle.wire_frames.specs.Seen.{Seen, Reads, within};
ghost use Rattle.wire_frames.specs.declared.input.Stop.TheVariants.{Memory};

use std::alloc::{AllocError, AllocFailed};

/// The reason why reading stopped.
#[derive(Clone, Copy, Debug, PartialEq, Eq)]
pub enum Stop {
    /// A field isn't whole within the frame or breaks its rule. Its first byte is at this offset.
    Fault(u64),
    /// The input ends before the field does.
    Cut,
    /// A read failed before the field was whole.
    ReadFault,
    /// Memory ran out.
    Memory,
}

impl From<AllocError> for Stop {
    ghost from_gives = { λ _ e. e ≡ Memory };

    fn from(_e: AllocError) -> Stop {
        Stop::Memory
    }
}

impl<T: Drop> From<AllocFailed<T>> for Stop {
    ghost from_gives = { λ _ e. e ≡ Memory };

    fn from(_e: AllocFailed<T>) -> Stop {
        Stop::Memory
    }
}

/// An input from which a frame is read field by field.
pub trait Input {
    /// What is known of the input so far.
    ghost seen: { Self → Seen };

    fn place(&self) -> u64
        ensures { result ≡ length (seen self.now).taken };

    fn limit(&self) -> u64
        ensures { result ≡ (seen self.now).limit };

    /// Whether the frame ends before this many more bytes.
    fn lacks(&self, width: u64) -> bool
        ensures { result ≡ nat_lt (seen self.now).limit (length (seen self.now).taken + width) };

    /// Makes the frame end at most this many bytes further on.
    fn bound(&mut self, len: u64)
        ensures { seen self.new ≡ within len (seen self.old) };

    /// Takes as many bytes as the buffer holds, as a part of the field that begins at `first`.
    fn fill(&mut self, first: u64, buffer: &mut [u8]) -> Result<(), Stop>
        requires first { first ≤ length (seen self.old).taken }
        ensures gives { Reads (seen self.old) (seen self.new)
            (λ _. buffer.new) result (cells_at first (length buffer.old)) }
        ensures took { IfOk result (λ _. length (seen self.new).taken
            ≡ length (seen self.old).taken + length buffer.old) };
}
