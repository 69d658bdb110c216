// The body of an answer.
ghost use Rattle.std.specs.Prelude.{◌≡◌};
ghost use Rattle.wire_frames.specs.Encoding.{encoding};

use std::marker::Model;
use wire_frames::Delta;
use wire_http::{Bytes, Part, Sink, WriteFault};

/// What the body of an answer is written from.
#[derive(Drop)]
pub(crate) enum BodyKind<'a> {
    Bytes(Bytes),
    Frame(&'a Delta),
}

/// The body of an answer: bytes, or the encoding of a borrowed delta, which is made as it is
/// written.
#[derive(Drop)]
pub struct ResponseBody<'a> {
    kind: BodyKind<'a>,
}

impl<'a> Model for ResponseBody<'a> {
    ghost use Rattle.std.specs.Prelude.{List, ℕ};
    ghost use Rattle.wire_api.specs.AnswerBodies.{bytes_of};

    ghost Value = { List ℕ };

    ghost view = { λ b. bytes_of b.kind };
}

impl<'a> ResponseBody<'a> {
    /// Makes a body of these bytes.
    pub fn of_bytes(bytes: Vec<u8>) -> ResponseBody<'a>
        ensures { result ≡ bytes.items }
    {
        ResponseBody {
            kind: BodyKind::Bytes(Bytes::new(bytes)),
        }
    }

    /// Makes a body of the bytes that encode this delta.
    pub fn of_frame(delta: &'a Delta) -> ResponseBody<'a>
        ensures { result ≡ encoding delta.now }
    {
        ResponseBody {
            kind: BodyKind::Frame(delta),
        }
    }
}

impl<'a> Part for ResponseBody<'a> {
    ghost text = { λ b. b };

    fn length(&self) -> Option<u64> {
        match &self.kind {
            BodyKind::Bytes(bytes) => bytes.length(),
            BodyKind::Frame(delta) => delta.length(),
        }
    }

    fn write<W: Sink>(&self, sink: &mut W, interrupted: &mut u16) -> Result<(), WriteFault> {
        match &self.kind {
            BodyKind::Bytes(bytes) => bytes.write(sink, interrupted),
            BodyKind::Frame(delta) => delta.write(sink, interrupted),
        }
    }
}
