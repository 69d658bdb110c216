// What a replica held when its run began.
ghost use Rattle.std.specs.Prelude.{◌≡◌};
ghost use Rattle.std.specs.Borrow.{ftrue};
ghost use Rattle.theory_history.specs.Views.{View};
ghost use Rattle.state_replica.specs.Replicas.{view_of};

use state_replica::Replica;
use std::marker::Model;

/// What a replica held when its run began, which only clauses read. It has no bytes. With std's
/// `Snapshot` in its place, a book isn't found to cross threads.
#[derive(Drop)]
pub struct RunStart {
    pub ghost held: { View },
}

impl Model for RunStart {
    ghost also_owns = { λ _. ftrue };
}

// It owns nothing.
unsafe impl Send for RunStart {}

unsafe impl Sync for RunStart {}

impl RunStart {
    /// Takes what this replica holds.
    pub fn of(replica: &Replica) -> RunStart
        ensures { result.held ≡ view_of replica.now }
    {
        let _ = replica;
        RunStart {}
    }
}
