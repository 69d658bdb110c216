// Whether the records of a home have their shape.
ghost use Rattle.std.specs.Prelude.{◌≡◌, ◌↔◌, ◌≤◌, ℕ, Some, IsTrue, filter, is_none, is_some, length, true};
ghost use Rattle.std.specs.List.{list_any, AllByRecursion};
ghost use Rattle.std.specs.Option.{option_copied};
ghost use Rattle.state_facts.specs.Lists.{In};
ghost use Rattle.state_forest.specs.declared.forest.TheConstants.{MAX_DEPTH};
ghost use Rattle.state_forest.specs.declared.shape.TheConstants.{MAX_HELD};
ghost use Rattle.state_forest.specs.declared.record.Member.TheVariants.{Nested};
ghost use Rattle.state_forest.specs.declared.record.Place.{Place as PlaceRecord};
ghost use Rattle.state_forest.specs.Forests.{is_of};
ghost use Rattle.state_forest.specs.RecordMerges.{changed_by, without};
ghost use Rattle.state_forest.specs.Shape.{found_at, is_untouched, is_shallow, records_after, AreInShape, IsInPlace, IsNestedAt};

use crate::{Changes, Forest, MAX_DEPTH, Member, Place, Record};
use state_ids::{Front, LraId};

/// The greatest number of LRAs of one home that are held.
pub const MAX_HELD: usize = 256;

fn is_among(ids: &[LraId], kept: &Record) -> bool
    ensures { result ≡ list_any (λ l. is_of l kept.now) ids.now }
{
    for id in ids {
        if kept.home == id.home() && kept.num == id.num() {
            return true;
        }
    }
    false
}

/// Whether changes leave a record of the home unchanged: they neither replace nor remove it.
fn is_untouched(changes: &Changes, kept: &Record) -> bool
    ensures { result ≡ is_untouched changes.now kept.now }
{
    if changes.records.numbered(kept.num).is_some() {
        return false;
    }
    !is_among(&changes.removed, kept)
}

impl Forest {
    /// Returns the record of the LRA with this number, unless it is among those to be removed. It
    /// is looked up by binary search, and then among those to be removed.
    fn kept_at(&self, removed: &[LraId], num: u64) -> Option<&Record>
        ensures { option_copied result
            ≡ found_at self.now.home (without removed.now self.now.records) num }
    {
        // The prover needs what this call ensures: the records are in order.
        let _ = self.records();
        let Some(record) = self.numbered(num) else {
            return None;
        };
        if is_among(removed, record) {
            None
        } else {
            Some(record)
        }
    }

    /// Returns the record that the LRA with this number has after the changes: one of the changes,
    /// otherwise one that stays.
    fn changed_at<'a>(&'a self, changes: &'a Changes, num: u64) -> Option<&'a Record>
        requires { changes.now.records.home ≡ self.now.home }
        ensures { option_copied result
            ≡ found_at self.now.home (records_after changes.now self.now) num }
    {
        // Calling `records` tells the prover that both are in order.
        let _ = self.records();
        let _ = changes.records.records();
        if let Some(record) = changes.records.numbered(num) {
            return Some(record);
        }
        self.kept_at(&changes.removed, num)
    }

    /// Whether, after the changes, a root is found within this many LRAs, going up from the LRA
    /// with this number.
    fn is_shallow_within(&self, changes: &Changes, num: u64, levels: u8) -> bool
        requires { changes.now.records.home ≡ self.now.home }
        ensures { result ≡ is_shallow levels self.now.home (records_after changes.now self.now) num }
    {
        let mut at = num;
        for _ in 0..levels {
            let Some(record) = self.changed_at(changes, at) else {
                return false;
            };
            let Some(place) = record.parent else {
                return true;
            };
            at = place.number;
        }
        false
    }

    /// Whether an LRA is no deeper than 8 after the changes. Its record is at hand, so only those
    /// above it are looked up.
    fn is_shallow(&self, changes: &Changes, kept: &Record) -> bool
        requires { changes.now.records.home ≡ self.now.home }
        ensures { let after = records_after changes.now self.now
            in found_at self.now.home after kept.now.num ≡ Some kept.now →
            result ≡ is_shallow MAX_DEPTH self.now.home after kept.now.num }
    {
        match kept.parent {
            Some(place) => self.is_shallow_within(changes, place.number, MAX_DEPTH - 1),
            None => true,
        }
    }

    /// Whether the record of the parent exists after the changes and has the LRA with this number
    /// as the member at this place.
    fn is_nested_at(&self, changes: &Changes, num: u64, place: Place) -> bool
        requires { changes.now.records.home ≡ self.now.home }
        ensures { IsTrue result ↔ IsNestedAt self.now.home
            (records_after changes.now self.now) num place }
    {
        let Some(parent) = self.changed_at(changes, place.number) else {
            return false;
        };
        match parent.members.get(place.slot) {
            Some(Member::Nested(child)) => *child == num,
            _ => false,
        }
    }

    fn has_parent(&self, changes: &Changes, num: u64, parent: Option<Place>) -> bool
        requires { changes.now.records.home ≡ self.now.home }
        ensures { IsTrue result ↔ ((place : PlaceRecord) → parent ≡ Some place →
            IsNestedAt self.now.home (records_after changes.now self.now) num place) }
    {
        match parent {
            Some(place) => self.is_nested_at(changes, num, place),
            None => true,
        }
    }

    /// Whether each LRA that is nested here has a record after the changes. That the record names
    /// this one as its parent is tested from the child's side.
    fn has_nested(&self, changes: &Changes, members: &[Member]) -> bool
        requires { changes.now.records.home ≡ self.now.home }
        ensures { IsTrue result ↔
            ((child : ℕ) → In (Nested child) members.now →
            is_some (found_at self.now.home (records_after changes.now self.now) child) ≡ true) }
    {
        for member in members {
            if let Member::Nested(child) = member {
                if self.changed_at(changes, *child).is_none() {
                    return false;
                }
            }
        }
        true
    }

    /// Whether a record is in place after the changes, under a front, if it is one of the records
    /// then. The record itself isn't looked up.
    fn is_in_place(&self, changes: &Changes, front: &Front, kept: &Record) -> bool
        requires { changes.now.records.home ≡ self.now.home }
        ensures { let after = records_after changes.now self.now
            in found_at self.now.home after kept.now.num ≡ Some kept.now →
            (IsTrue result ↔ IsInPlace front.now self.now.home after kept.now.num kept.now) }
    {
        self.has_parent(changes, kept.num, kept.parent)
            && self.has_nested(changes, kept.members.as_slice())
            && self.is_shallow(changes, kept)
            && kept.stamps.below(front)
    }

    /// Whether each record of the changes is in place after the changes.
    fn are_changes_in_place(&self, changes: &Changes, front: &Front) -> bool
        requires { changes.now.records.home ≡ self.now.home }
        ensures { let after = records_after changes.now self.now
            in IsTrue result ↔ AllByRecursion (λ r. IsInPlace front.now self.now.home after r.num r)
            changes.now.records.records }
    {
        // Calling `records` tells the prover that both are in order.
        let _ = self.records();
        let _ = changes.records.records();
        for record in changes.records.records() {
            if !self.is_in_place(changes, front, record) {
                return false;
            }
        }
        true
    }

    /// Whether a record of the home is in place after the changes, if they leave it unchanged. It
    /// is looked up among the changes only if it is not in place.
    fn is_in_place_if_untouched(&self, changes: &Changes, front: &Front, kept: &Record) -> bool
        requires home { changes.now.records.home ≡ self.now.home }
        requires own { In kept.now self.now.records }
        ensures { IsTrue result ↔ (is_untouched changes.now kept.now ≡ true → IsInPlace front.now
            self.now.home (records_after changes.now self.now) kept.now.num kept.now) }
    {
        // Calling `records` tells the prover that both are in order.
        let _ = self.records();
        let _ = changes.records.records();
        if self.is_in_place(changes, front, kept) {
            return true;
        }
        !is_untouched(changes, kept)
    }

    /// Whether each record of the home that stays unchanged is in place after the changes.
    fn are_untouched_in_place(&self, changes: &Changes, front: &Front) -> bool
        requires { changes.now.records.home ≡ self.now.home }
        ensures { let after = records_after changes.now self.now
            in IsTrue result ↔ AllByRecursion (λ r. is_untouched changes.now r ≡ true →
            IsInPlace front.now self.now.home after r.num r) self.now.records }
    {
        for record in self.records() {
            if !self.is_in_place_if_untouched(changes, front, record) {
                return false;
            }
        }
        true
    }

    /// Returns the number of records that stay, which is all of them if none is removed.
    #[tactic(auto, using(crate::proofs::ChangedCounts::all_stay))]
    fn count_kept(&self, removed: &[LraId]) -> usize
        ensures { result ≡ length (without removed.now self.now.records) }
    {
        let held = self.len();
        if removed.is_empty() {
            return held;
        }
        let mut count = 0;
        for record in self.records() {
            if !is_among(removed, record) {
                count += 1;
            }
        }
        count
    }

    fn count_added(&self, removed: &[LraId], added: &Forest) -> usize
        ensures { result ≡ length (filter (λ r. is_none
            (found_at self.now.home (without removed.now self.now.records) r.num)) added.now.records) }
    {
        // Calling `len` tells the prover the greatest possible number of records.
        let _ = added.len();
        let mut count = 0;
        for record in added.records() {
            if self.kept_at(removed, record.num).is_none() {
                count += 1;
            }
        }
        count
    }

    /// Whether there are at most 256 records after the changes, counting those that stay and those
    /// that are added.
    fn is_few(&self, changes: &Changes) -> bool
        requires { changes.now.records.home ≡ self.now.home }
        ensures { IsTrue result ↔ length (records_after changes.now self.now) ≤ MAX_HELD }
    {
        // Calling `records` tells the prover that both are in order.
        let _ = self.records();
        let _ = changes.records.records();
        let removed = changes.removed.as_slice();
        let kept = self.count_kept(removed);
        if kept > MAX_HELD {
            return false;
        }
        self.count_added(removed, &changes.records) <= MAX_HELD - kept
    }

    /// Whether these records have their shape after the changes, under a front. That means: there
    /// are at most 256; the parent that a record names has a record, with the LRA as the member at
    /// its place; each nested LRA has a record; no LRA is deeper than 8; and no stamp is beyond the
    /// front. The records themselves are not changed. For each record it looks up the parents and
    /// the nested LRAs by binary search, and each time among those to be removed. It looks up the
    /// record itself only if that is not in place.
    pub fn keeps_shape_with(&self, changes: &Changes, front: &Front) -> bool
        requires { changes.now.records.home ≡ self.now.home }
        ensures { IsTrue result ↔ AreInShape front.now self.now.home
            (changed_by changes.now.removed.items changes.now.records.records self.now.records) }
    {
        // Calling `records` tells the prover that both are in order.
        let _ = self.records();
        let _ = changes.records.records();
        if !self.is_few(changes) {
            return false;
        }
        self.are_untouched_in_place(changes, front) && self.are_changes_in_place(changes, front)
    }
}
