// Joining a participant to an LRA.
ghost use Rattle.std.specs.Prelude.{◌≡◌, ◌≤◌, ◌<◌, Ok, IfOk, length};
ghost use Rattle.state_ids.specs.Ids.{last_number};
ghost use Rattle.state_ids.specs.Fronts.{count};
ghost use Rattle.state_facts.specs.declared.command.Command.TheVariants.{Join};
ghost use Rattle.theory_history.specs.Next.{judge_on};
ghost use Rattle.theory_history.specs.Replies.{Accepted};
ghost use Rattle.theory_history.specs.Views.{OfItsSet};
ghost use Rattle.state_replica.specs.Prepared.{HasRoom, IsNext, IsPrepared};
ghost use Rattle.state_replica.specs.Replicas.{KeepsRoom, view_of};

use crate::{Prepared, Replica};
use state_facts::{Command, CommandReply, Links, Refusal};
use state_forest::{Member, Participant};
use state_ids::{LraId, NodeId};
use std::alloc::{AllocError, Global};

impl Replica {
    /// Prepares an accepted join.
    pub(crate) fn accept_join(
        &mut self,
        alloc: Global,
        me: NodeId,
        id: LraId,
        links: Links,
    ) -> Result<Prepared, AllocError>
        requires node { me ≤ length self.old.front }
        requires left { count self.old.front me < last_number }
        requires accepted { judge_on (view_of self.old) me (Join id links) ≡ Accepted }
        ensures view { view_of self.new ≡ view_of self.old }
        ensures room { IfOk result (λ prepared. HasRoom (Ok prepared) self.new) }
        ensures stays { KeepsRoom self.old self.new }
        ensures next { IfOk result
            (λ prepared. IsNext (view_of self.old) me (Join id links) (Ok prepared)) }
    {
        let mut next = self.copy_with_stamp(id, me)?;
        next.members.push(Member::Participant(Participant {
            links,
            completed: None,
            compensated: None,
            forgotten: false,
            told: false,
        }))?;
        let member = next.members.len() as u8;
        let patch = self.patch_of_one(alloc, me, next)?;
        Ok(Prepared {
            reply: CommandReply::Joined(id, member),
            patch: Some(patch),
        })
    }

    /// Prepares a join: a participant with these links joins the LRA with its next member number.
    /// It costs a copy of the LRA's record and a look at those above it. Errors, the first that
    /// holds: E2, E3, E4, E6, E11, E14, E17.
    pub fn join(
        &mut self,
        alloc: Global,
        me: NodeId,
        id: LraId,
        links: Links,
    ) -> Result<Prepared, Refusal>
        requires { me ≤ length self.old.front }
        ensures view { view_of self.new ≡ view_of self.old }
        ensures room { HasRoom result self.new }
        ensures stays { KeepsRoom self.old self.new }
        ensures next { IsNext (view_of self.old) me (Join id links) result }
        ensures prepared { OfItsSet (view_of self.old)
            (λ S. IsPrepared S (view_of self.old) me (Join id links) result) }
    {
        self.prepare(alloc, me, Command::Join { id, links })
    }
}
