// Taking what another node sends.
ghost use Rattle.std.specs.Prelude.{◌≡◌, ◌≤◌, ◌⊎◌, ◌++◌, [], ℕ, List, IfErr, IfOk, OnErr, OnOk, MatchResult, length};
ghost use Rattle.state_ids.specs.Fronts.{join_fronts};
ghost use Rattle.state_facts.specs.declared.refusal.Refusal.TheVariants.{BadFrame, NoMemory};
ghost use Rattle.state_forest.specs.declared.record.Record.{Record};
ghost use Rattle.state_forest.specs.Shape.{AreInShape};
ghost use Rattle.state_replica.specs.Absorbing.{AreTakenAt, IsChangeAt, IsGrown, IsTakenTo};
ghost use Rattle.theory_history.specs.Histories.{History, IsClosed, IsLawful, facts};
ghost use Rattle.theory_history.specs.Merging.{IsAbsorbed, IsMerged, merged};
ghost use Rattle.state_replica.specs.Replicas.{Fits, KeepsRoom, view_of};
ghost use Rattle.theory_history.specs.Changes.{HoldsOnlyChanges, patched};
ghost use Rattle.theory_history.specs.ViewShape.{HasShape};
ghost use Rattle.theory_history.specs.Views.{IsInOrder, StandsFor, View};

use crate::{Patch, Replica, Taken};
use state_facts::Refusal;
use state_forest::{Changes, IntoRecords, Record, Told};
use state_ids::Front;
use std::alloc::{AllocError, Global};

fn add_records(list: &mut Vec<Record>, more: IntoRecords) -> Result<(), AllocError>
    ensures { OnOk result (list.new.items ≡ list.old.items ++ more) }
{
    for next in more {
        list.push(next)?;
    }
    Ok(())
}

fn add_changes(patch: &mut Patch, changes: Changes) -> Result<(), AllocError>
    ensures removed { OnOk result (patch.new.removed ≡ patch.old.removed ++ changes.removed.items) }
    ensures records { OnOk result (patch.new.records
        ≡ patch.old.records ++ changes.records.records) }
    ensures front { patch.new.front ≡ patch.old.front }
    ensures purges { patch.new.purges ≡ patch.old.purges }
{
    let mut removed = changes.removed;
    patch.removed.append(&mut removed)?;
    patch.records.reserve(changes.records.len())?;
    add_records(&mut patch.records, changes.records.into_records())
}

impl Replica {
    /// Returns the changes at one home, under a front, if what another node sends of it is taken.
    /// `reach` is the number of the home's facts that the other node counts.
    fn changes_at(
        &self,
        alloc: Global,
        told: Told,
        reach: u64,
        front: &Front,
    ) -> Result<Changes, Refusal>
        requires { told.records.home ≤ length self.now.front }
        ensures home { IfOk result (λ changes. changes.records.home ≡ told.records.home) }
        ensures changes { IfOk result (λ changes. IsChangeAt
            (view_of self.now) told reach front.now changes.removed.items changes.records.records) }
        ensures refused { IfErr result (λ refusal. (refusal ≡ NoMemory) ⊎ ((refusal ≡ BadFrame 0)
            × ((after : List Record) → AreTakenAt (view_of self.now) told reach after →
            AreInShape front.now told.records.home after → ⊥))) }
    {
        let home = told.records.home();
        let Some(own) = self.home(home) else {
            unreachable!();
        };
        let changes = own.taking(alloc, self.front().count(home), reach, told)?;
        if !own.keeps_shape_with(&changes, front) {
            return Err(Refusal::BadFrame(0));
        }
        Ok(changes)
    }

    fn absorb_home(
        &mut self,
        alloc: Global,
        told: Told,
        reach: u64,
        patch: &mut Patch,
    ) -> Result<(), Refusal>
        requires { told.records.home ≤ length self.old.front }
        ensures view { view_of self.new ≡ view_of self.old }
        ensures front { patch.new.front ≡ patch.old.front }
        ensures purges { patch.new.purges ≡ patch.old.purges }
        ensures room { KeepsRoom self.old self.new }
        ensures grown { OnOk result
            (IsGrown (view_of self.old) told reach self.new.homes patch.old patch.new) }
        ensures refused { IfErr result (λ refusal. (refusal ≡ NoMemory) ⊎ ((refusal ≡ BadFrame 0)
            × ((after : List Record) → AreTakenAt (view_of self.old) told reach after →
            AreInShape patch.old.front told.records.home after → ⊥))) }
    {
        let home = told.records.home();
        let changes = self.changes_at(alloc, told, reach, &patch.front)?;
        self.make_room(home, changes.records.len())?;
        add_changes(patch, changes)?;
        Ok(())
    }

    fn absorb_homes(
        &mut self,
        alloc: Global,
        taken: Taken,
        patch: &mut Patch,
    ) -> Result<(), Refusal>
        requires nodes { length self.old.front ≡ length taken.front }
        requires none { (patch.old.removed ≡ []) × (patch.old.records ≡ []) }
        ensures view { view_of self.new ≡ view_of self.old }
        ensures front { patch.new.front ≡ patch.old.front }
        ensures purges { patch.new.purges ≡ patch.old.purges }
        ensures stays { KeepsRoom self.old self.new }
        ensures taken { OnOk result
            (IsTakenTo (view_of self.old) taken self.new.homes patch.new (length self.old.front)) }
        ensures refused { IfErr result (λ refusal. (refusal ≡ NoMemory)
            ⊎ ((refusal ≡ BadFrame 0) × ((c : View) →
            IsAbsorbed (view_of self.old) taken c → c.front ≡ patch.old.front → HasShape c → ⊥))) }
    {
        let Taken { front, homes, .. } = taken;
        for told in homes {
            let reach = front.count(told.records.home());
            if let Err(refusal) = self.absorb_home(alloc, told, reach, patch) {
                return Err(refusal);
            }
        }
        Ok(())
    }

    fn absorb_all(&mut self, alloc: Global, taken: Taken, patch: &mut Patch) -> Result<(), Refusal>
        requires nodes { length self.old.front ≡ length taken.front }
        requires none { (patch.old.removed ≡ []) × (patch.old.records ≡ []) }
        ensures view { view_of self.new ≡ view_of self.old }
        ensures front { patch.new.front ≡ patch.old.front }
        ensures purges { patch.new.purges ≡ patch.old.purges }
        ensures stays { KeepsRoom self.old self.new }
        ensures entries { OnOk result (length patch.new.records ≤ self.new.index.spare) }
        ensures taken { OnOk result
            (IsTakenTo (view_of self.old) taken self.new.homes patch.new (length self.old.front)) }
        ensures refused { IfErr result (λ refusal. (refusal ≡ NoMemory)
            ⊎ ((refusal ≡ BadFrame 0) × ((c : View) →
            IsAbsorbed (view_of self.old) taken c → c.front ≡ patch.old.front → HasShape c → ⊥))) }
    {
        self.absorb_homes(alloc, taken, patch)?;
        self.make_entries(patch.records.len())?;
        Ok(())
    }

    /// Prepares to take what another replica of as many nodes sends, and makes room for it.
    ///
    /// If both have a record of an LRA, the two are merged. An LRA that only the other has is
    /// taken, unless the own front counts its begin, because then it was purged here. An LRA that
    /// is held only here is removed if the other lists all that it holds at that home and its front
    /// counts the begin, because then it was purged there. The greater of each node's counts and
    /// last purges are kept.
    ///
    /// Errors: E16 at place 0 if the view would lose its shape. The patch has only what changes,
    /// each once: a record that stays as it was isn't put again. It costs what `Forest::taking` and
    /// `keeps_shape_with` cost at each home.
    pub fn absorb(&mut self, alloc: Global, taken: Taken) -> Result<Patch, Refusal>
        requires { length self.old.front ≡ length taken.front }
        ensures view { view_of self.new ≡ view_of self.old }
        ensures order { IsInOrder (view_of self.old) }
        ensures room { IfOk result (λ patch. Fits patch self.new) }
        ensures stays { KeepsRoom self.old self.new }
        ensures absorbed { IfOk result
            (λ patch. IsAbsorbed (view_of self.old) taken (patched patch (view_of self.old))) }
        ensures shape { IfOk result (λ patch. HasShape (patched patch (view_of self.old))) }
        ensures only { IfOk result (λ patch. HoldsOnlyChanges (view_of self.old) patch) }
        ensures refused { IfErr result (λ refusal. (refusal ≡ NoMemory) ⊎ ((refusal ≡ BadFrame 0)
            × ((c : View) → IsAbsorbed (view_of self.old) taken c → HasShape c → ⊥))) }
    {
        let mut patch = Patch {
            records: Vec::new(alloc),
            removed: Vec::new(alloc),
            front: self.front.join(&taken.front),
            purges: self.purges.join(&taken.purges),
        };
        if !patch.purges.below(&patch.front) {
            return Err(Refusal::BadFrame(0));
        }
        self.absorb_all(alloc, taken, &mut patch)?;
        Ok(patch)
    }

    /// Merges another replica of as many nodes into this one, by the rules of `absorb`. E16 at
    /// place 0 if the merged records would break the shape, which never happens with replicas of
    /// one history. A refusal changes nothing. It costs a look at each record of the other, a copy
    /// of each that brings news, and the cost of `absorb` for these.
    pub fn merge(&mut self, alloc: Global, other: &Replica) -> Result<(), Refusal>
        requires { length self.old.front ≡ length other.now.front }
        ensures merged { OnOk result (view_of self.new
            ≡ merged (view_of self.old) (view_of other.now)) }
        ensures is { OnOk result
            (IsMerged (view_of self.old) (view_of other.now) (view_of self.new)) }
        ensures shape { OnOk result (HasShape (view_of self.new)) }
        ensures unchanged { OnErr result (view_of self.new ≡ view_of self.old) }
        ensures refused { IfErr result (λ refusal. (refusal ≡ NoMemory) ⊎ ((refusal ≡ BadFrame 0)
            × (HasShape (merged (view_of self.old) (view_of other.now)) → ⊥))) }
        ensures union { (h : History) (v w : List ℕ) → IsLawful h → IsClosed h v → IsClosed h w →
            StandsFor (facts h v) (view_of self.old) → StandsFor (facts h w) (view_of other.now) →
            MatchResult result (λ _. StandsFor (facts h (join_fronts v w)) (view_of self.new))
            (λ refusal. refusal ≡ NoMemory) }
    {
        let taken = other.tell_news(alloc, self)?;
        let patch = self.absorb(alloc, taken)?;
        self.apply(patch);
        Ok(())
    }
}
