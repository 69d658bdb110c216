// A list of bytes that only clauses read.
ghost use Rattle.std.specs.Prelude.{◌≡◌, ◌++◌, [], ◌∷◌};

use std::marker::Model;
use std::snapshot::Snapshot;

/// A list of bytes that only clauses read. It stores no byte and takes one byte of memory, however
/// long it gets.
#[derive(Drop)]
pub struct Log {
    before: Option<Snapshot<Log>>,
    last: Snapshot<u8>,
}

impl Model for Log {
    ghost use Rattle.std.specs.Prelude.{List, ℕ, length};
    ghost use Rattle.std.specs.Coded.{coded_list, coded_ℕ};
    ghost use Rattle.std.proofs.Common.{arith, length-append};

    ghost Value = { List ℕ };

    ghost coded = { coded_list coded_ℕ };

    ghost use Rattle.wire_http.specs.Logs.{one_byte_more};

    ghost view = { λ a. one_byte_more a.before a.last.value };

    ghost size = { λ n. length n };

    ghost size_decreases = { λ a h. Prim.grind (arith, length-append) };
}

impl Log {
    /// Returns the empty list.
    pub fn new() -> Log
        ensures { result ≡ [] }
    {
        Log {
            before: None,
            last: Snapshot::of(&0),
        }
    }

    /// Appends a byte.
    pub fn push(&mut self, byte: &u8)
        ensures { self.new ≡ self.old ++ byte.now ∷ [] }
    {
        *self = Log {
            before: Some(Snapshot::of(self)),
            last: Snapshot::of(byte),
        };
    }

    /// Appends these bytes.
    pub fn extend(&mut self, bytes: &[u8])
        ensures { self.new ≡ self.old ++ bytes.now }
    {
        for byte in bytes {
            self.push(byte);
        }
    }
}
