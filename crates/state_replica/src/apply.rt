// Applying a prepared patch to a replica.
ghost use Rattle.std.specs.Prelude.{◌≡◌, ◌≢◌, ◌≤◌, ◌<◌, ◌+◌, ◌==◌, None, Some, ℕ, if◌then◌else◌, length};
ghost use Rattle.std.specs.List.{AllByRecursion};
ghost use Rattle.std.specs.Option.{option_map};
ghost use Rattle.state_ids.specs.Ids.{Id};
ghost use Rattle.state_forest.specs.declared.record.Record.{Record as RecordFields};
ghost use Rattle.state_forest.specs.Forests.{AreOf, id_of};
ghost use Rattle.state_forest.specs.Shape.{found_at};
ghost use Rattle.state_stamps.specs.Indexes.{with_stamps};
ghost use Rattle.state_replica.specs.Replicas.{AreHomesFrom, Fits, HasLittleRoom, KeepsRoom, count_of_home, records_in, spare_at, stamps_in, view_of};
ghost use Rattle.theory_history.specs.Changes.{patched, put_at_home, put_each, remove_each, remove_at_home};

use crate::{Patch, Replica};
use state_forest::{Forest, Record};
use state_ids::{Front, LraId};

/// Returns the stamps of the record with a number, if the home has one.
fn stamps_at(home: &Forest, num: u64) -> Option<Front>
    ensures { result ≡ option_map (λ (r : RecordFields). r.stamps)
        (found_at home.now.home home.now.records num) }
{
    match home.numbered(num) {
        Some(record) => Some(record.stamps),
        None => None,
    }
}

/// Returns the stamps of a record that was replaced.
fn stamps_of(was: Option<Record>) -> Option<Front>
    ensures { result ≡ option_map (λ (r : RecordFields). r.stamps) was }
{
    match was {
        Some(record) => Some(record.stamps),
        None => None,
    }
}

/// Puts a record in its place at its home, and returns the stamps of the one that it replaces. It
/// takes only the homes, so for its caller the invariant that ties them to the index is one record.
fn put_among(homes: &mut Vec<Forest>, added: Record) -> Option<Front>
    requires numbered { AreHomesFrom 1 homes.old.items }
    requires ordered { AllByRecursion (λ h. AreOf h.home h.records) homes.old.items }
    requires home { added.home ≤ length homes.old.items }
    requires room { 1 ≤ added.home → 1 ≤ spare_at homes.old.items added.home }
    ensures count { length homes.new.items ≡ length homes.old.items }
    ensures numbered { AreHomesFrom 1 homes.new.items }
    ensures ordered { AllByRecursion (λ h. AreOf h.home h.records) homes.new.items }
    ensures records { records_in homes.new.items
        ≡ put_at_home added (records_in homes.old.items) }
    ensures room { (home : ℕ) → 1 ≤ home → spare_at homes.old.items home
        ≤ spare_at homes.new.items home + (if added.home == home then 1 else 0) }
    ensures was { result ≡ stamps_in (records_in homes.old.items) (id_of added) }
    ensures indexed { (l : Id) → with_stamps (id_of added) (Some added.stamps)
        (stamps_in (records_in homes.old.items)) l ≡ stamps_in (records_in homes.new.items) l }
{
    let place = usize::from(added.home.number()) - 1;
    stamps_of(homes[place].replace(added))
}

/// Removes the record of an LRA, if its home has one, and returns its stamps.
fn remove_among(homes: &mut Vec<Forest>, id: LraId) -> Option<Front>
    requires numbered { AreHomesFrom 1 homes.old.items }
    requires ordered { AllByRecursion (λ h. AreOf h.home h.records) homes.old.items }
    ensures count { length homes.new.items ≡ length homes.old.items }
    ensures numbered { AreHomesFrom 1 homes.new.items }
    ensures ordered { AllByRecursion (λ h. AreOf h.home h.records) homes.new.items }
    ensures records { records_in homes.new.items
        ≡ remove_at_home id (records_in homes.old.items) }
    ensures room { (home : ℕ) →
        1 ≤ home → spare_at homes.old.items home ≤ spare_at homes.new.items home }
    ensures was { result ≡ stamps_in (records_in homes.old.items) id }
    ensures indexed { (l : Id) → with_stamps id None (stamps_in (records_in homes.old.items)) l
        ≡ stamps_in (records_in homes.new.items) l }
{
    let place = usize::from(id.home().number()) - 1;
    if place >= homes.len() {
        return None;
    }
    let was = stamps_at(&homes[place], id.num());
    homes[place].remove(id);
    was
}

impl Replica {
    /// Applies a patch. The patch was prepared on the present view, and its room was made, so this
    /// takes no memory and always succeeds. It costs an insertion for each record, and one in the
    /// index for each of its stamps that changes. At the end it frees the spare room of each home
    /// except for one page: 16 records at most.
    pub fn apply(&mut self, patch: Patch)
        requires { Fits patch self.old }
        ensures view { view_of self.new ≡ patched patch (view_of self.old) }
        ensures room { HasLittleRoom self.new }
    {
        let Patch {
            records,
            removed,
            front,
            purges,
        } = patch;
        self.remove_all(&removed);
        self.put_all(records);
        self.release();
        self.front = front;
        self.purges = purges;
    }

    fn remove_all(&mut self, removed: &[LraId])
        ensures front { self.new.front ≡ self.old.front }
        ensures purges { self.new.purges ≡ self.old.purges }
        ensures records { (view_of self.new).records
            ≡ remove_each removed.now (view_of self.old).records }
        ensures room { KeepsRoom self.old self.new }
    {
        for id in removed {
            self.remove(*id);
        }
    }

    fn remove(&mut self, id: LraId)
        ensures front { self.new.front ≡ self.old.front }
        ensures purges { self.new.purges ≡ self.old.purges }
        ensures records { (view_of self.new).records
            ≡ remove_at_home id (view_of self.old).records }
        ensures room { KeepsRoom self.old self.new }
    {
        let was = remove_among(&mut self.homes, id);
        self.index.reindex(id.home(), id.num(), was, None);
    }

    fn put_all(&mut self, records: Vec<Record>)
        requires homes { AllByRecursion (λ r. r.home ≤ length self.old.front) records.items }
        requires room { (home : ℕ) →
            1 ≤ home → count_of_home home records.items ≤ spare_at self.old.homes home }
        requires entries { length records.items ≤ self.old.index.spare }
        ensures front { self.new.front ≡ self.old.front }
        ensures purges { self.new.purges ≡ self.old.purges }
        ensures records { (view_of self.new).records
            ≡ put_each records.items (view_of self.old).records }
    {
        for added in records {
            self.put(added);
        }
    }

    fn put(&mut self, added: Record)
        requires home { added.home ≤ length self.old.front }
        requires room { 1 ≤ added.home → 1 ≤ spare_at self.old.homes added.home }
        requires entries { 1 ≤ self.old.index.spare }
        ensures front { self.new.front ≡ self.old.front }
        ensures purges { self.new.purges ≡ self.old.purges }
        ensures records { (view_of self.new).records
            ≡ put_at_home added (view_of self.old).records }
        ensures room { (home : ℕ) → 1 ≤ home → spare_at self.old.homes home
            ≤ spare_at self.new.homes home + (if added.home == home then 1 else 0) }
        ensures entries { self.old.index.spare ≤ self.new.index.spare + 1 }
    {
        let home = added.home;
        let num = added.num;
        let stamps = added.stamps;
        let was = put_among(&mut self.homes, added);
        self.index.reindex(home, num, was, Some(stamps));
    }

    #[tactic(auto, using(crate::proofs::Rooms::spare_next, crate::proofs::Rooms::spare_all))]
    fn release(&mut self)
        ensures view { view_of self.new ≡ view_of self.old }
        ensures room { HasLittleRoom self.new }
    {
        for place in 0..self.homes.len() {
            self.release_at(place);
        }
    }

    fn release_at(&mut self, place: usize)
        requires { place < length self.old.homes }
        ensures view { view_of self.new ≡ view_of self.old }
        ensures homes { length self.new.homes ≡ length self.old.homes }
        ensures room { spare_at self.new.homes (place + 1) ≤ 16 }
        ensures others { (home : ℕ) → 1 ≤ home → home ≢ place + 1 →
            spare_at self.new.homes home ≡ spare_at self.old.homes home }
    {
        self.homes[place].release();
    }
}
