// Connections that arrive, one at a time.

use wire_http::{Sink, Source};

/// A connection: where its request is read, where its answer is written, and the moment at which it
/// is served, in milliseconds since 1970.
#[derive(Drop)]
pub struct Connection<S, W> {
    pub reader: S,
    pub writer: W,
    pub now: u64,
}

/// Connections, one after another.
pub trait Arrivals {
    ghost use Rattle.std.specs.Prelude.{Option};
    ghost use Rattle.node_worker.specs.declared.arrivals.Connection.{Connection as TheConnection};

    type Reader: Source + Drop;

    type Writer: Sink + Drop;

    /// What a call gives, and the arrivals before and after it, as far as they are known.
    ghost gives: { Self → Option (TheConnection Self.Reader Self.Writer) → Self → Type 0 };

    /// Returns the next connection, or `None` at the end. It may wait.
    fn next(&mut self) -> Option<Connection<Self::Reader, Self::Writer>>
        ensures { gives self.old result self.new };
}
