// Letting a participant leave its LRA.
ghost use Rattle.std.specs.Prelude.{◌≡◌, ◌≤◌, ◌<◌, ◌-◌, Ok, IfOk, length};
ghost use Rattle.state_ids.specs.Ids.{last_number};
ghost use Rattle.state_ids.specs.Fronts.{count};
ghost use Rattle.state_facts.specs.declared.command.Command.TheVariants.{Leave};
ghost use Rattle.theory_history.specs.Growth.{leaving, member_changed};
ghost use Rattle.theory_history.specs.Next.{judge_on};
ghost use Rattle.theory_history.specs.Replies.{Accepted};
ghost use Rattle.theory_history.specs.Views.{OfItsSet};
ghost use Rattle.state_replica.specs.Prepared.{HasRoom, IsNext, IsPrepared};
ghost use Rattle.state_replica.specs.Replicas.{KeepsRoom, view_of};

use crate::{Prepared, Replica};
use state_facts::{Command, CommandReply, Refusal};
use state_forest::{Member, Members};
use state_ids::{LraId, NodeId};
use std::alloc::{AllocError, Global};

fn leaving(member: &Member) -> Member
    ensures { result ≡ leaving member.now }
{
    match member {
        Member::Nested(number) => Member::Nested(*number),
        Member::Participant(_) | Member::Left => Member::Left,
    }
}

fn leave_from(members: &mut Members, number: u8)
    ensures { 1 ≤ number → members.new ≡ member_changed leaving (number - 1) members.old }
{
    if let Some(member) = members.get(number) {
        let next = leaving(member);
        members.set(number, next);
    }
}

impl Replica {
    /// Prepares an accepted leave.
    pub(crate) fn accept_leave(
        &mut self,
        alloc: Global,
        me: NodeId,
        id: LraId,
        member: u8,
    ) -> Result<Prepared, AllocError>
        requires node { me ≤ length self.old.front }
        requires left { count self.old.front me < last_number }
        requires accepted { judge_on (view_of self.old) me (Leave id member) ≡ Accepted }
        ensures view { view_of self.new ≡ view_of self.old }
        ensures room { IfOk result (λ prepared. HasRoom (Ok prepared) self.new) }
        ensures stays { KeepsRoom self.old self.new }
        ensures next { IfOk result
            (λ prepared. IsNext (view_of self.old) me (Leave id member) (Ok prepared)) }
    {
        let mut next = self.copy_with_stamp(id, me)?;
        leave_from(&mut next.members, member);
        let patch = self.patch_of_one(alloc, me, next)?;
        Ok(Prepared {
            reply: CommandReply::Left,
            patch: Some(patch),
        })
    }

    /// Prepares the leave of a participant. It costs as much as `join`. Errors, the first that
    /// holds: E2, E3, E4, E5, E6, E14, E17.
    pub fn leave(
        &mut self,
        alloc: Global,
        me: NodeId,
        id: LraId,
        member: u8,
    ) -> Result<Prepared, Refusal>
        requires { me ≤ length self.old.front }
        ensures view { view_of self.new ≡ view_of self.old }
        ensures room { HasRoom result self.new }
        ensures stays { KeepsRoom self.old self.new }
        ensures next { IsNext (view_of self.old) me (Leave id member) result }
        ensures prepared { OfItsSet (view_of self.old)
            (λ S. IsPrepared S (view_of self.old) me (Leave id member) result) }
    {
        self.prepare(alloc, me, Command::Leave { id, member })
    }
}
