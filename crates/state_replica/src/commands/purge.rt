// Purging a root and everything nested in it.
ghost use Rattle.std.specs.Prelude.{◌≡◌, ◌≤◌, ◌<◌, Ok, IfOk, length};
ghost use Rattle.state_ids.specs.Ids.{last_number};
ghost use Rattle.state_ids.specs.Fronts.{count};
ghost use Rattle.state_forest.specs.Said.{ids_below};
ghost use Rattle.state_facts.specs.declared.command.Command.TheVariants.{Purge};
ghost use Rattle.theory_history.specs.Changes.{purge_change};
ghost use Rattle.theory_history.specs.Readings.{at_home};
ghost use Rattle.theory_history.specs.Next.{judge_on};
ghost use Rattle.theory_history.specs.Replies.{Accepted};
ghost use Rattle.theory_history.specs.Views.{OfItsSet, records_at};
ghost use Rattle.state_replica.specs.Prepared.{HasRoom, IsNext, IsPrepared};
ghost use Rattle.state_replica.specs.Replicas.{Fits, KeepsRoom, view_of};

use crate::{Patch, Prepared, Replica};
use state_facts::{Command, CommandReply, Refusal};
use state_ids::{LraId, NodeId};
use std::alloc::{AllocError, Global};

impl Replica {
    fn tree(&self, alloc: Global, root: LraId) -> Result<Vec<LraId>, AllocError>
        requires { root.home ≤ length self.now.front }
        ensures { IfOk result (λ ids. ids.items ≡ ids_below (at_home (view_of self.now) root.home)
            root.num (records_at (view_of self.now).records root.home)) }
    {
        match self.home(root.home()) {
            Some(records) => records.tree(alloc, root),
            None => Ok(Vec::new(alloc)),
        }
    }

    fn removal(&self, alloc: Global, me: NodeId, removed: Vec<LraId>) -> Patch
        requires node { me ≤ length self.now.front }
        requires left { count self.now.front me < last_number }
        ensures patch { result ≡ purge_change (view_of self.now) me removed.items }
        ensures room { Fits result self.now }
        ensures some { 1 ≤ me }
    {
        let front = self.raised(me);
        let mut purges = self.purges();
        purges.set(me, self.front().count(me) + 1);
        Patch {
            records: Vec::new(alloc),
            removed,
            front,
            purges,
        }
    }

    /// Prepares an accepted purge.
    pub(crate) fn accept_purge(
        &mut self,
        alloc: Global,
        me: NodeId,
        root: LraId,
    ) -> Result<Prepared, AllocError>
        requires node { me ≤ length self.old.front }
        requires left { count self.old.front me < last_number }
        requires accepted { judge_on (view_of self.old) me (Purge root) ≡ Accepted }
        ensures view { view_of self.new ≡ view_of self.old }
        ensures room { IfOk result (λ prepared. HasRoom (Ok prepared) self.new) }
        ensures stays { KeepsRoom self.old self.new }
        ensures next { IfOk result
            (λ prepared. IsNext (view_of self.old) me (Purge root) (Ok prepared)) }
    {
        let removed = self.tree(alloc, root)?;
        let patch = self.removal(alloc, me, removed);
        Ok(Prepared {
            reply: CommandReply::Purged,
            patch: Some(patch),
        })
    }

    /// Prepares a purge, which removes a root that is ended and everything nested in it. It costs a
    /// look at each of the home's records. Errors, the first that holds: E2, E3, E4, E9, E8, E10,
    /// E24, E14, E17.
    pub fn purge(&mut self, alloc: Global, me: NodeId, root: LraId) -> Result<Prepared, Refusal>
        requires { me ≤ length self.old.front }
        ensures view { view_of self.new ≡ view_of self.old }
        ensures room { HasRoom result self.new }
        ensures stays { KeepsRoom self.old self.new }
        ensures next { IsNext (view_of self.old) me (Purge root) result }
        ensures prepared { OfItsSet (view_of self.old)
            (λ S. IsPrepared S (view_of self.old) me (Purge root) result) }
    {
        self.prepare(alloc, me, Command::Purge { root })
    }
}
