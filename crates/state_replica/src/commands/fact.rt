// What a command's fact changes: the front, and one or two records.
ghost use Rattle.std.specs.Prelude.{◌≡◌, ◌≤◌, ◌<◌, ◌+◌, Some, IfOk, OnOk, is_some, length, true};
ghost use Rattle.state_ids.specs.Ids.{last_number};
ghost use Rattle.state_ids.specs.Fronts.{count};
ghost use Rattle.state_forest.specs.declared.record.Record.{Record};
ghost use Rattle.theory_history.specs.Growth.{stamped};
ghost use Rattle.theory_history.specs.Changes.{with_stamp, one_change, raised, two_changes};
ghost use Rattle.state_replica.specs.Replicas.{view_of, Fits, KeepsRoom, spare_at};
ghost use Rattle.theory_history.specs.Views.{record_at};

use crate::{Patch, Replica};
use state_forest::Record;
use state_ids::{Front, LraId, NodeId};
use std::alloc::{AllocError, Global};

/// Sets a node's stamp to the number of its newest fact.
pub fn stamp(stamps: &mut Front, node: NodeId, num: u64)
    ensures stamps { stamps.new ≡ stamped node num stamps.old }
    ensures some { 1 ≤ node }
{
    if usize::from(node.number()) <= stamps.nodes() {
        stamps.set(node, num);
    }
}

impl Replica {
    /// Copies the record of an LRA that is held, and stamps it with the number of a node's next
    /// fact.
    pub(crate) fn copy_with_stamp(&self, id: LraId, node: NodeId) -> Result<Record, AllocError>
        requires left { count self.now.front node < last_number }
        requires held { is_some (record_at (view_of self.now) id) ≡ true }
        ensures some { IfOk result (λ _. 1 ≤ node) }
        ensures home { IfOk result (λ copy. copy.home ≤ length self.now.front) }
        ensures found { IfOk result (λ copy. (old : Record)
            × (record_at (view_of self.now) id ≡ Some old)
            × (copy ≡ with_stamp node (count self.now.front node + 1) old)) }
    {
        let Some(record) = self.record(id) else {
            unreachable!();
        };
        let mut copy = record.clone()?;
        stamp(&mut copy.stamps, node, self.front().count(node) + 1);
        Ok(copy)
    }

    /// Returns the front with one more fact of a node that has a number left.
    pub(crate) fn raised(&self, me: NodeId) -> Front
        requires node { me ≤ length self.now.front }
        requires left { count self.now.front me < last_number }
        ensures value { result ≡ raised self.now.front me }
        ensures some { 1 ≤ me }
    {
        me.is_a_node();
        let mut front = self.front();
        front.set(me, front.count(me) + 1);
        front
    }

    /// Reserves the memory that this many more records of a home need.
    pub(crate) fn make_room(&mut self, home: NodeId, more: usize) -> Result<(), AllocError>
        requires { home ≤ length self.old.front }
        ensures view { view_of self.new ≡ view_of self.old }
        ensures stays { KeepsRoom self.old self.new }
        ensures ok { OnOk result (more ≤ spare_at self.new.homes home) }
    {
        let place = usize::from(home.number()) - 1;
        self.homes[place].reserve(more)
    }

    /// Reserves the memory that the stamps of this many records need in the index.
    pub(crate) fn make_entries(&mut self, more: usize) -> Result<(), AllocError>
        ensures view { view_of self.new ≡ view_of self.old }
        ensures homes { self.new.homes ≡ self.old.homes }
        ensures stays { KeepsRoom self.old self.new }
        ensures ok { OnOk result (more ≤ self.new.index.spare) }
    {
        self.index.reserve(more)
    }

    /// Reserves the memory that this many more records of a home need, with their stamps.
    fn make_place(&mut self, home: NodeId, more: usize) -> Result<(), AllocError>
        requires { home ≤ length self.old.front }
        ensures view { view_of self.new ≡ view_of self.old }
        ensures stays { KeepsRoom self.old self.new }
        ensures room { OnOk result (more ≤ spare_at self.new.homes home) }
        ensures entries { OnOk result (more ≤ self.new.index.spare) }
    {
        self.make_entries(more)?;
        self.make_room(home, more)
    }

    /// Makes the patch of a fact that changes one record, and the room that it needs.
    pub(crate) fn patch_of_one(
        &mut self,
        alloc: Global,
        me: NodeId,
        next: Record,
    ) -> Result<Patch, AllocError>
        requires node { me ≤ length self.old.front }
        requires left { count self.old.front me < last_number }
        requires home { next.home ≤ length self.old.front }
        ensures view { view_of self.new ≡ view_of self.old }
        ensures patch { IfOk result (λ patch. patch ≡ one_change (view_of self.old) me next) }
        ensures room { IfOk result (λ patch. Fits patch self.new) }
        ensures stays { KeepsRoom self.old self.new }
        ensures some { IfOk result (λ _. 1 ≤ me) }
    {
        self.make_place(next.home, 1)?;
        let front = self.raised(me);
        let purges = self.purges();
        let mut records = Vec::new(alloc);
        records.push(next)?;
        Ok(Patch {
            records,
            removed: Vec::new(alloc),
            front,
            purges,
        })
    }

    /// Makes the patch of a fact that changes two records of one home, and the room that it needs.
    pub(crate) fn patch_of_two(
        &mut self,
        alloc: Global,
        me: NodeId,
        first: Record,
        second: Record,
    ) -> Result<Patch, AllocError>
        requires node { me ≤ length self.old.front }
        requires left { count self.old.front me < last_number }
        requires home { first.home ≤ length self.old.front }
        requires same { second.home ≡ first.home }
        ensures view { view_of self.new ≡ view_of self.old }
        ensures patch { IfOk result
            (λ patch. patch ≡ two_changes (view_of self.old) me first second) }
        ensures room { IfOk result (λ patch. Fits patch self.new) }
        ensures stays { KeepsRoom self.old self.new }
        ensures some { IfOk result (λ _. 1 ≤ me) }
    {
        self.make_place(first.home, 2)?;
        let front = self.raised(me);
        let purges = self.purges();
        let mut records = Vec::new(alloc);
        records.push(first)?;
        records.push(second)?;
        Ok(Patch {
            records,
            removed: Vec::new(alloc),
            front,
            purges,
        })
    }
}
