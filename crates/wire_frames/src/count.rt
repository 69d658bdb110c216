// An output that counts what is put.
ghost use Rattle.std.specs.Prelude.{◌≡◌, ◌≤◌, ◌<◌, ◌%◌, ◌^◌, length, [], true, false, IfNone, IfSome};
ghost use Rattle.wire_frames.specs.WrittenSoFar.{no_sink};

use crate::output::Output;
use wire_http::Log;

/// Counts the bytes that are put, and keeps none of them.
#[derive(Drop)]
pub struct ByteCount {
    text: Log,
    total: u64,
    over: bool,
    ghost counted: { total ≡ length text % 2 ^ 64 },
    ghost fits: { over ≡ false → length text < 2 ^ 64 },
    ghost beyond: { over ≡ true → 2 ^ 64 ≤ length text },
}

impl ByteCount {
    /// Makes a count of no bytes.
    pub fn new() -> ByteCount
        ensures { ⟦<ByteCount as Output>⟧.text result ≡ [] }
    {
        ByteCount {
            text: Log::new(),
            total: 0,
            over: false,
        }
    }

    /// Returns how many bytes were put, as a number of 64 bits.
    pub fn total(&self) -> u64
        ensures { result ≡ length (⟦<ByteCount as Output>⟧.text self.now) % 2 ^ 64 }
    {
        self.total
    }

    /// Returns how many bytes were put, or `None` if that doesn't fit a number of 64 bits.
    pub fn exact(&self) -> Option<u64>
        ensures some { IfSome result (λ n. n ≡ length (⟦<ByteCount as Output>⟧.text self.now)) }
        ensures none { IfNone result (2 ^ 64 ≤ length (⟦<ByteCount as Output>⟧.text self.now)) }
    {
        if self.over { None } else { Some(self.total) }
    }
}

impl Output for ByteCount {
    ghost text = { λ s. s.text };

    ghost start = { λ _. no_sink };

    fn put(&mut self, bytes: &[u8]) {
        self.text.extend(bytes);
        let more = bytes.len() as u64;
        self.over = self.over || u64::MAX - self.total < more;
        self.total = self.total.wrapping_add(more);
    }
}
