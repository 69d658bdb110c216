// Beginning an LRA, top-level or nested.
ghost use Rattle.std.specs.Prelude.{◌≡◌, ◌≤◌, ◌<◌, ◌+◌, None, Some, Ok, IfOk, length};
ghost use Rattle.state_ids.specs.Ids.{last_number};
ghost use Rattle.state_ids.specs.Fronts.{count};
ghost use Rattle.state_facts.specs.declared.command.Command.TheVariants.{Begin};
ghost use Rattle.theory_history.specs.Changes.{fresh_record};
ghost use Rattle.theory_history.specs.Next.{judge_on};
ghost use Rattle.theory_history.specs.Replies.{Accepted};
ghost use Rattle.theory_history.specs.Views.{OfItsSet};
ghost use Rattle.state_replica.specs.Prepared.{HasRoom, IsNext, IsPrepared};
ghost use Rattle.state_replica.specs.Replicas.{KeepsRoom, view_of};

use crate::commands::fact::stamp;
use crate::{Prepared, Replica};
use state_facts::{Command, CommandReply, Refusal};
use state_forest::{Member, Members, Place, Record};
use state_ids::{Front, LraId, NodeId};
use std::alloc::{AllocError, Global};

impl Replica {
    fn next_id(&self, me: NodeId) -> LraId
        requires { count self.now.front me < last_number }
        ensures { result ≡ record { home = me; num = count self.now.front me + 1 } }
    {
        let Ok(id) = LraId::new(me, self.front().count(me) + 1) else {
            unreachable!();
        };
        id
    }

    fn fresh_record(
        &self,
        alloc: Global,
        me: NodeId,
        parent: Option<Place>,
        deadline: u64,
    ) -> Record
        requires { count self.now.front me < last_number }
        ensures { result ≡ fresh_record self.now.front me parent deadline }
    {
        let front = self.front();
        let num = front.count(me) + 1;
        let mut stamps = Front::zero(front.nodes());
        stamp(&mut stamps, me, num);
        Record {
            home: me,
            num,
            parent,
            deadline,
            decision: None,
            stamps,
            members: Members::new(alloc),
        }
    }

    /// Prepares an accepted begin of a root.
    pub(crate) fn accept_root(
        &mut self,
        alloc: Global,
        me: NodeId,
        deadline: u64,
    ) -> Result<Prepared, AllocError>
        requires node { me ≤ length self.old.front }
        requires left { count self.old.front me < last_number }
        requires accepted { judge_on (view_of self.old) me (Begin None deadline) ≡ Accepted }
        ensures view { view_of self.new ≡ view_of self.old }
        ensures room { IfOk result (λ prepared. HasRoom (Ok prepared) self.new) }
        ensures stays { KeepsRoom self.old self.new }
        ensures next { IfOk result
            (λ prepared. IsNext (view_of self.old) me (Begin None deadline) (Ok prepared)) }
    {
        let id = self.next_id(me);
        let next = self.fresh_record(alloc, me, None, deadline);
        let patch = self.patch_of_one(alloc, me, next)?;
        Ok(Prepared {
            reply: CommandReply::Began(id, 0),
            patch: Some(patch),
        })
    }

    /// Prepares an accepted begin of a nested LRA.
    pub(crate) fn accept_nested(
        &mut self,
        alloc: Global,
        me: NodeId,
        parent: LraId,
        deadline: u64,
    ) -> Result<Prepared, AllocError>
        requires node { me ≤ length self.old.front }
        requires left { count self.old.front me < last_number }
        requires accepted { judge_on (view_of self.old) me (Begin (Some parent) deadline) ≡ Accepted }
        ensures view { view_of self.new ≡ view_of self.old }
        ensures room { IfOk result (λ prepared. HasRoom (Ok prepared) self.new) }
        ensures stays { KeepsRoom self.old self.new }
        ensures next { IfOk result
            (λ prepared. IsNext (view_of self.old) me (Begin (Some parent) deadline) (Ok prepared)) }
    {
        let mut next = self.copy_with_stamp(parent, me)?;
        let id = self.next_id(me);
        next.members.push(Member::Nested(id.num()))?;
        let slot = next.members.len() as u8;
        let place = Place {
            number: parent.num(),
            slot,
        };
        let child = self.fresh_record(alloc, me, Some(place), deadline);
        let patch = self.patch_of_two(alloc, me, next, child)?;
        Ok(Prepared {
            reply: CommandReply::Began(id, slot),
            patch: Some(patch),
        })
    }

    /// Prepares the begin of an LRA, top-level or in a parent, with a deadline in milliseconds, 0
    /// for none. A root costs one insertion. A nested LRA costs a copy of its parent's record and a
    /// look at those above the parent. Errors, the first that holds: for a root E13, E14; for a
    /// nested LRA E2, E3, E4, E6, E11, E12, E13, E14; and E17.
    pub fn begin(
        &mut self,
        alloc: Global,
        me: NodeId,
        parent: Option<LraId>,
        deadline: u64,
    ) -> Result<Prepared, Refusal>
        requires { me ≤ length self.old.front }
        ensures view { view_of self.new ≡ view_of self.old }
        ensures room { HasRoom result self.new }
        ensures stays { KeepsRoom self.old self.new }
        ensures next { IsNext (view_of self.old) me (Begin parent deadline) result }
        ensures prepared { OfItsSet (view_of self.old)
            (λ S. IsPrepared S (view_of self.old) me (Begin parent deadline) result) }
    {
        self.prepare(alloc, me, Command::Begin { parent, deadline })
    }
}
