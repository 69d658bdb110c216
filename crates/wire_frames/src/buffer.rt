// A byte vector as an output.
ghost use Rattle.std.specs.Prelude.{◌≡◌, [], false, IfOk};
ghost use Rattle.wire_frames.specs.WrittenSoFar.{no_sink};

use crate::output::Output;
use std::alloc::{AllocError, Global};
use wire_http::Log;

/// A byte vector that takes what is put until memory runs out.
#[derive(Drop)]
pub struct Buffer {
    bytes: Vec<u8>,
    text: Log,
    full: bool,
    ghost whole: { full ≡ false → bytes.items ≡ text },
}

impl Buffer {
    /// Makes an empty buffer.
    pub fn new(alloc: Global) -> Buffer
        ensures { ⟦<Buffer as Output>⟧.text result ≡ [] }
    {
        Buffer {
            bytes: Vec::new(alloc),
            text: Log::new(),
            full: false,
        }
    }

    /// Returns all bytes that were put, unless memory ran out.
    pub fn into_bytes(self) -> Result<Vec<u8>, AllocError>
        ensures { IfOk result (λ bytes. bytes.items ≡ ⟦<Buffer as Output>⟧.text self) }
    {
        if self.full {
            return Err(AllocError);
        }
        Ok(self.bytes)
    }
}

impl Output for Buffer {
    ghost text = { λ s. s.text };

    ghost start = { λ _. no_sink };

    fn put(&mut self, bytes: &[u8]) {
        self.text.extend(bytes);
        if self.full {
            return;
        }
        match self.bytes.extend_from_slice(bytes) {
            Ok(_) => {}
            Err(_) => self.full = true,
        }
    }
}
