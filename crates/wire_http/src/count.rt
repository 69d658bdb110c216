// A count that only clauses read.
ghost use Rattle.std.specs.Prelude.{◌≡◌, ◌+◌};

use std::marker::Model;
use std::snapshot::Snapshot;

/// A count without a greatest value. It holds no number and takes one byte, however far it counts,
/// because only clauses read it.
#[derive(Drop)]
pub struct Count {
    before: Option<Snapshot<Count>>,
}

impl Model for Count {
    ghost use Rattle.std.specs.Prelude.{ℕ};
    ghost use Rattle.std.specs.Coded.{coded_ℕ};
    ghost use Rattle.std.proofs.Common.{arith};

    ghost Value = { ℕ };

    ghost coded = { coded_ℕ };

    ghost use Rattle.wire_http.specs.Counts.{one_more};

    ghost view = { λ a. one_more a.before };

    ghost size = { λ n. n };

    ghost size_decreases = { Prim.grind arith };
}

impl Count {
    /// Returns a count of zero.
    pub fn zero() -> Count
        ensures { result ≡ 0 }
    {
        Count { before: None }
    }

    /// Returns the count plus one.
    pub fn next(&self) -> Count
        ensures { result ≡ self.now + 1 }
    {
        Count {
            before: Some(Snapshot::of(self)),
        }
    }
}
