// Taking what another node sends since a base.
ghost use Rattle.std.specs.Prelude.{◌≡◌, ℕ, List, Err, IfErr, IfOk, MatchResult, length};
ghost use Rattle.state_ids.specs.Fronts.{IsBelow, join_fronts};
ghost use Rattle.state_facts.specs.declared.refusal.Refusal.TheVariants.{BadFrame, Gap, NoMemory};
ghost use Rattle.theory_history.specs.Histories.{History, IsClosed, IsLawful, facts};
ghost use Rattle.state_replica.specs.Replicas.{Fits, view_of};
ghost use Rattle.theory_history.specs.Changes.{HoldsOnlyChanges, patched};
ghost use Rattle.theory_history.specs.ViewShape.{HasShape};
ghost use Rattle.theory_history.specs.Views.{StandsFor};
ghost use Rattle.wire_frames.specs.Frames.{IsFrame};
ghost use Rattle.wire_frames.specs.TakenFrames.{IsTaken, RefusesTaking};

use crate::Delta;
use state_facts::Refusal;
use state_replica::{Patch, Replica};
use std::alloc::Global;

/// Prepares to take what another node sends since a base, and makes room for it. E16 at place 9 if
/// the other counts another number of nodes. E15 with the replica's own front if the base is not
/// below it, because then the delta may leave out something that is missing here. E16 at place 0 if
/// the view would lose its shape, which never happens with a node of the same history. The patch
/// has only what changes, each once. It costs what `Replica::absorb` costs.
pub fn prepare(alloc: Global, replica: &mut Replica, delta: Delta) -> Result<Patch, Refusal>
    ensures view { view_of replica.new ≡ view_of replica.old }
    ensures room { IfOk result (λ patch. Fits patch replica.new) }
    ensures taken { IfOk result
        (λ patch. IsTaken (view_of replica.old) delta (patched patch (view_of replica.old))) }
    ensures shape { IfOk result (λ patch. HasShape (patched patch (view_of replica.old))) }
    ensures only { IfOk result (λ patch. HoldsOnlyChanges (view_of replica.old) patch) }
    ensures reached { IfOk result (λ _. IsBelow delta.base replica.old.front) }
    ensures refused { IfErr result (λ refusal. RefusesTaking (view_of replica.old) delta refusal) }
    ensures nodes { (length delta.front ≡ length replica.old.front → ⊥) →
        result ≡ Err (BadFrame 9) }
    ensures gap { length delta.front ≡ length replica.old.front →
        (IsBelow delta.base replica.old.front → ⊥) → result ≡ Err (Gap replica.old.front) }
    ensures union { (h : History) (v w : List ℕ) → IsLawful h → IsClosed h v → IsClosed h w →
        StandsFor (facts h v) (view_of replica.old) → IsFrame (facts h w) delta.base delta →
        length delta.front ≡ length replica.old.front → IsBelow delta.base replica.old.front →
        MatchResult result (λ patch. StandsFor (facts h (join_fronts v w))
        (patched patch (view_of replica.old))) (λ refusal. refusal ≡ NoMemory) }
{
    let own = replica.front();
    if delta.front().nodes() != own.nodes() {
        return Err(Refusal::BadFrame(9));
    }
    if !delta.base().below(&own) {
        return Err(Refusal::Gap(own));
    }
    replica.absorb(alloc, delta.into_taken())
}
