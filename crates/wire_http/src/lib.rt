//! Reads and writes HTTP messages over readers and writers, one call at a time.
#![tactic(auto)]

mod body;
mod bytes;
mod count;
mod fault;
mod fields;
mod head;
pub mod laws;
mod log;
mod message;
mod over;
mod part;
mod request;
mod response;
mod text;

ghost use Rattle.std.specs.Prelude.{◌≡◌, ◌≤◌, [], length, take, IfOk, OnOk};
ghost use Rattle.std.specs.Io.{StopsAt};
ghost use Rattle.httparse.specs.Ascii.{line_feed};
ghost use Rattle.wire_http.specs.Streams.{CallGives, Calls, CallTakes, FoundNoEnd, GivenBytes, IsFlushed, OneMore, TakenBytes, Takes};

pub use body::{MAX_BODY_BYTES, read_piece};
pub use bytes::{
    ReadFault, TOO_MANY_INTERRUPTED, WriteFault, flush, read_byte, read_in_line, write_all,
};
pub use count::Count;
pub use fault::Fault;
pub use fields::{Found, sole};
pub use head::{MAX_HEAD_BYTES, MAX_HEAD_LINES};
pub use log::Log;
pub use message::{Bytes, CallRequest, Field, Fields, Request, Response, Text};
pub use over::{OverBuffer, OverRead, OverWrite};
pub use part::Part;
pub use request::read_request;
pub use response::{FinalHead, read_response, read_response_head};
pub use text::{write_request, write_response};

/// Why a call moved no byte.
#[derive(Clone, Copy, Debug, PartialEq, Eq)]
pub enum CallError {
    /// A signal came first. The call may be made again.
    Interrupted,
    /// The call failed.
    Failed,
}

/// Something that bytes are read from, one call at a time.
pub trait Source {
    /// The bytes that it has given so far, whether its last call found the end, and the bytes that
    /// are left, if they are known.
    ghost stream: { Self → GivenBytes };

    /// How its calls came out so far.
    ghost calls: { Self → Calls };

    /// Reads at most as many bytes as fit, and 0 only at the end or if there is no room. A call
    /// that is interrupted or fails gives no bytes.
    fn read_some(&mut self, buffer: &mut [u8]) -> Result<usize, CallError>
        ensures bound { IfOk result (λ n. n ≤ length buffer.new) }
        ensures bytes { CallGives (stream self.old) (stream self.new) result buffer.new }
        ensures no_end { FoundNoEnd (stream self.new) result }
        ensures calls { OneMore (calls self.old) (calls self.new) result };

    /// Reads like `read_some`, but nothing behind a line feed. By default it reads one byte: use
    /// `OverBuffer` over a socket.
    fn read_in_line(&mut self, buffer: &mut [u8]) -> Result<usize, CallError>
        ensures bound { IfOk result (λ n. n ≤ length buffer.new) }
        ensures bytes { CallGives (stream self.old) (stream self.new) result buffer.new }
        ensures no_end { FoundNoEnd (stream self.new) result }
        ensures calls { OneMore (calls self.old) (calls self.new) result }
        ensures line { IfOk result (λ n. StopsAt (take n buffer.new) line_feed) }
    {
        let one = buffer.len().min(1);
        self.read_some(&mut buffer[..one])
    }
}

/// Something that bytes are written to, one call at a time.
pub trait Sink {
    /// The bytes that it has taken so far, those of them that it has passed on, and those that it
    /// still holds, if they are known.
    ghost stream: { Self → TakenBytes };

    /// How its calls came out so far.
    ghost calls: { Self → Calls };

    /// Writes some bytes from the start of `bytes`, at least one if there are any, and returns how
    /// many. A call that takes none of some bytes counts as failed. A call that is interrupted or
    /// fails takes none.
    fn write_some(&mut self, bytes: &[u8]) -> Result<usize, CallError>
        ensures bound { IfOk result (λ n. n ≤ length bytes.now) }
        ensures some { IfOk result (λ n. n ≡ 0 → length bytes.now ≡ 0) }
        ensures bytes { CallTakes (stream self.old) (stream self.new) result bytes.now }
        ensures calls { OneMore (calls self.old) (calls self.new) result };

    /// Passes on what the sink has taken so far. A call that is interrupted or fails may have
    /// passed on some of it.
    fn flush(&mut self) -> Result<(), CallError>
        ensures none { Takes (stream self.old) (stream self.new) [] }
        ensures all { OnOk result (IsFlushed (stream self.new)) }
        ensures calls { OneMore (calls self.old) (calls self.new) result };
}
