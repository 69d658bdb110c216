// The calls of a file, which only clauses read.
ghost use Rattle.std.specs.Prelude.{◌≡◌, [], ◌∷◌};
ghost use Rattle.sim_env.specs.Calls.{event_of};

use crate::file_calls::FileCall;
use std::marker::Model;
use std::snapshot::Snapshot;

/// The calls of a file, the newest first, which only clauses read. It stores none of them and takes
/// one byte, however many there are.
#[derive(Drop)]
pub struct FileLog {
    before: Option<Snapshot<FileLog>>,
    last: Snapshot<FileCall>,
}

impl Model for FileLog {
    ghost use Rattle.std.specs.Prelude.{List, length};
    ghost use Rattle.std.specs.Coded.{codes};
    ghost use Rattle.std.proofs.Common.{arith};
    ghost use Rattle.sqlite_disk.specs.Events.{Event};
    ghost use Rattle.sim_env.specs.Calls.{one_call_more};

    ghost Value = { List Event };

    ghost coded = { Prim.hlevel codes };

    ghost view = { λ r. one_call_more r.before r.last.value };

    ghost size = { λ calls. length calls };

    ghost size_decreases = { λ r h. Prim.grind (arith) };
}

impl FileLog {
    /// Makes a record of no calls.
    pub(crate) fn new() -> FileLog
        ensures { result ≡ [] }
    {
        FileLog {
            before: None,
            last: Snapshot::of(&FileCall::Flush(true, 0)),
        }
    }

    /// Adds a call as the newest.
    pub(crate) fn note(&mut self, call: &FileCall)
        ensures { self.new ≡ event_of call.now ∷ self.old }
    {
        *self = FileLog {
            before: Some(Snapshot::of(self)),
            last: Snapshot::of(call),
        };
    }
}
