// Making the replica from the rows that were read.
ghost use Rattle.std.specs.Prelude.{◌≡◌, ◌≤◌, ◌⊎◌, ℕ, IfErr, IfOk, length};
ghost use Rattle.state_ids.specs.declared.TheConstants.{MAX_NODES};
ghost use Rattle.state_facts.specs.declared.refusal.Refusal.TheVariants.{BadFrame, NoMemory};
ghost use Rattle.state_forest.specs.Forests.{AreOf};
ghost use Rattle.theory_history.specs.Merging.{IsTelling, told_records};
ghost use Rattle.theory_history.specs.ViewShape.{HasShape};
ghost use Rattle.state_journal.specs.Reads.{AreNumbered, view_told};
ghost use Rattle.state_replica.specs.Replicas.{view_of};

use state_facts::Refusal;
use state_replica::{Replica, Taken};
use std::alloc::Global;

/// Makes the replica that holds exactly what is told: a replica without facts takes it. E16 at
/// place 0 if that hasn't the shape.
pub fn replica_of(alloc: Global, told: Taken, nodes: usize) -> Result<Replica, Refusal>
    requires some { 1 ≤ nodes }
    requires few { nodes ≤ MAX_NODES }
    requires telling { IsTelling told }
    requires counted { length told.front ≡ nodes }
    requires order { (home : ℕ) → 1 ≤ home → home ≤ nodes → AreOf home (told_records told home) }
    requires numbered { AreNumbered told }
    ensures view { IfOk result (λ replica. view_of replica ≡ view_told told) }
    ensures shape { IfOk result (λ replica. HasShape (view_told told)) }
    ensures refused { IfErr result (λ refusal. (refusal ≡ NoMemory)
        ⊎ ((refusal ≡ BadFrame 0) × ¬ HasShape (view_told told))) }
{
    let mut replica = Replica::new(alloc, nodes)?;
    let patch = match replica.absorb(alloc, told) {
        Ok(patch) => patch,
        Err(refusal) => return Err(refusal),
    };
    replica.apply(patch);
    Ok(replica)
}
