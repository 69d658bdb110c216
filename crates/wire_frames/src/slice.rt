// A slice as an input.
ghost use Rattle.std.specs.Prelude.{◌≡◌, ◌≤◌, length};
ghost use Rattle.wire_frames.specs.Seen.{of_slice};

use crate::input::{Input, Stop};

/// The bytes of a slice.
#[derive(Drop)]
pub struct Slice<'a> {
    all: &'a [u8],
    place: usize,
    limit: usize,
    ghost within: { place ≤ limit },
    ghost there: { limit ≤ length all.now },
}

impl<'a> Slice<'a> {
    /// Makes an input of which no byte was taken yet.
    pub fn new(bytes: &'a [u8]) -> Slice<'a>
        ensures { ⟦<Slice<'a> as Input>⟧.seen result ≡ of_slice bytes.now 0 (length bytes.now) }
    {
        Slice {
            all: bytes,
            place: 0,
            limit: bytes.len(),
        }
    }
}

impl<'a> Input for Slice<'a> {
    ghost seen = { λ s. of_slice s.all.now s.place s.limit };

    fn place(&self) -> u64 {
        self.place as u64
    }

    fn limit(&self) -> u64 {
        self.limit as u64
    }

    fn lacks(&self, width: u64) -> bool {
        ((self.limit - self.place) as u64) < width
    }

    fn bound(&mut self, len: u64) {
        if len < (self.limit - self.place) as u64 {
            self.limit = self.place + len as usize;
        }
    }

    fn fill(&mut self, first: u64, buffer: &mut [u8]) -> Result<(), Stop> {
        let width = buffer.len();
        if self.limit - self.place < width {
            return Err(Stop::Fault(first));
        }
        let end = self.place + width;
        buffer.copy_from_slice(&self.all[self.place..end]);
        self.place = end;
        Ok(())
    }
}
