// Closing or cancelling an LRA.
ghost use Rattle.std.specs.Prelude.{◌≡◌, ◌≤◌, ◌<◌, Ok, IfOk, is_some, length, true};
ghost use Rattle.state_ids.specs.Ids.{last_number};
ghost use Rattle.state_ids.specs.Fronts.{count};
ghost use Rattle.state_forest.specs.Forests.{id_of};
ghost use Rattle.state_forest.specs.Places.{put_record};
ghost use Rattle.state_forest.specs.Said.{shown_at};
ghost use Rattle.state_forest.specs.Shape.{found_at};
ghost use Rattle.state_facts.specs.declared.command.Command.TheVariants.{Decide};
ghost use Rattle.theory_history.specs.Next.{judge_on};
ghost use Rattle.theory_history.specs.Replies.{Accepted};
ghost use Rattle.theory_history.specs.Views.{OfItsSet, record_at, records_at};
ghost use Rattle.state_replica.specs.Prepared.{HasRoom, IsNext, IsPrepared};
ghost use Rattle.state_replica.specs.Replicas.{KeepsRoom, view_of};

use crate::{Prepared, Replica};
use state_facts::{Command, CommandReply, Refusal};
use state_forest::Record;
use state_ids::{LraId, LraStatus, NodeId, Verdict};
use std::alloc::{AllocError, Global};

impl Replica {
    fn shown_with(&mut self, next: Record) -> (Result<LraStatus, Refusal>, Record)
        requires { next.home ≤ length self.old.front }
        ensures same { view_of self.new ≡ view_of self.old }
        ensures stays { KeepsRoom self.old self.new }
        ensures back { result.1 ≡ next }
        ensures says { is_some (record_at (view_of self.old) (id_of next)) ≡ true →
            result.0 ≡ Ok (shown_at (found_at next.home
            (put_record next (records_at (view_of self.old).records next.home))) next.num) }
    {
        let place = usize::from(next.home.number()) - 1;
        self.homes[place].status_with(next)
    }

    /// Prepares an accepted decision.
    pub(crate) fn accept_decision(
        &mut self,
        alloc: Global,
        me: NodeId,
        id: LraId,
        verdict: Verdict,
    ) -> Result<Prepared, AllocError>
        requires node { me ≤ length self.old.front }
        requires left { count self.old.front me < last_number }
        requires accepted { judge_on (view_of self.old) me (Decide id verdict) ≡ Accepted }
        ensures view { view_of self.new ≡ view_of self.old }
        ensures room { IfOk result (λ prepared. HasRoom (Ok prepared) self.new) }
        ensures stays { KeepsRoom self.old self.new }
        ensures next { IfOk result
            (λ prepared. IsNext (view_of self.old) me (Decide id verdict) (Ok prepared)) }
    {
        let mut next = self.copy_with_stamp(id, me)?;
        next.decision = Some(verdict);
        let (shown, next) = self.shown_with(next);
        let Ok(status) = shown else {
            unreachable!();
        };
        let patch = self.patch_of_one(alloc, me, next)?;
        Ok(Prepared {
            reply: CommandReply::Decided(id, status),
            patch: Some(patch),
        })
    }

    /// Prepares a decision to close or cancel an LRA. It costs a copy of the LRA's record, and a
    /// look at the records above it and at those nested in it. Errors, the first that holds: E2,
    /// E3, E4, E6, E14, E17. Only the copy and the patch take memory.
    pub fn decide(
        &mut self,
        alloc: Global,
        me: NodeId,
        id: LraId,
        verdict: Verdict,
    ) -> Result<Prepared, Refusal>
        requires { me ≤ length self.old.front }
        ensures view { view_of self.new ≡ view_of self.old }
        ensures room { HasRoom result self.new }
        ensures stays { KeepsRoom self.old self.new }
        ensures next { IsNext (view_of self.old) me (Decide id verdict) result }
        ensures prepared { OfItsSet (view_of self.old)
            (λ S. IsPrepared S (view_of self.old) me (Decide id verdict) result) }
    {
        self.prepare(alloc, me, Command::Decide { id, verdict })
    }
}
