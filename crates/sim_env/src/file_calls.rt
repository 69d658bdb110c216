// The note of one call of a file.
use wire_http::Log;

/// A call of a file and its answer. The flag says whether the call succeeded. The bytes are there
/// only for clauses.
#[derive(Drop)]
pub enum FileCall {
    /// The file got this key.
    Settle(u64),
    /// The length that was returned.
    Measure(bool, usize),
    /// A read at an offset, the room for it, and the bytes that were read.
    Fetch(usize, usize, bool, Log),
    /// The same under a key, for bytes that must have a given digest.
    Test(u64, u64, usize, usize, bool, Log),
    /// A write at an offset, its bytes, and how many were written; or 1 if there was no room.
    Store(usize, Log, bool, usize),
    /// A new length, and 1 if there was no room.
    Resize(usize, bool, usize),
    /// A sync, and 1 if there was no room.
    Flush(bool, usize),
}
