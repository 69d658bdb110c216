// The records of one home.
ghost use Rattle.std.specs.Prelude.{◌≡◌, ◌↔◌, ◌+◌, ◌-◌, ◌==◌, ◌<◌, ◌≤◌, ℕ, [], List, Ok, Err, None, Some, true, IfOk, IfSome, IsTrue, OnErr, OnOk, ◌++◌, ◌∷◌, filter, find, is_some, length, map, nat_lt, if◌then◌else◌};
ghost use mathlib.Core.Bool.{not};
ghost use Rattle.std.specs.List.{list_any, AllByRecursion};
ghost use Rattle.std.specs.Option.{option_copied};
ghost use Rattle.state_ids.specs.declared.TheConstants.{MAX_NODES};
ghost use Rattle.state_facts.specs.declared.fact.Fact.{Fact};
ghost use Rattle.state_facts.specs.declared.refusal.Refusal.TheVariants.{NotHeld};
ghost use Rattle.state_facts.specs.Sets.{IsNumbered, NamesEarlier, held_at, is_ended, is_held, member_status, shows_now, want};
ghost use Rattle.state_forest.specs.declared.record.Record.{Record as RecordFields};
ghost use Rattle.state_forest.specs.Children.{child_of, names_parent};
ghost use Rattle.state_forest.specs.Forests.{AreOf, id_of, is_of};
ghost use Rattle.state_forest.specs.Gathering.{IsRecordable};
ghost use Rattle.state_forest.specs.Places.{put_record};
ghost use Rattle.state_forest.specs.Said.{is_ended_at, member_shown_at, records_up, shown_at, want_at, wanted_by};
ghost use Rattle.state_forest.specs.Shape.{found_at};
ghost use Rattle.state_forest.specs.Standing.{AreOnce, IsNested, IsSeated, IsWhole, Stands, answered};
ghost use Rattle.state_forest.specs.Statuses.{known, seen_by, shows_within, status_at};
ghost use Rattle.state_forest.specs.Wants.{over};

use crate::pages::Pages;
use crate::reading::{held_begin, record_of};
use crate::seen::{Seen, status_of};
use crate::{IntoRecords, Member, Record, Records};
use state_facts::{Fact, Refusal};
use state_ids::{LraId, LraStatus, MemberStatus, NodeId, Verdict};
use std::alloc::{AllocError, Global};
use std::marker::Model;

/// The greatest depth of an LRA, where a root has depth 1.
pub const MAX_DEPTH: u8 = 8;

/// The records of the LRAs of one home, in order of their numbers.
#[derive(Debug, Drop)]
pub struct Forest {
    home: NodeId,
    records: Pages,
}

impl Model for Forest {
    ghost use Rattle.state_forest.specs.Forests.{HomeRecords, AreOf};

    ghost Value = { HomeRecords };

    ghost view = { λ f. record {
      home = f.home;
      records = f.records.items;
      spare = f.records.spare;
    } };

    ghost invariant = { λ f. AreOf f.home f.records.items };
}

fn is_one(own: &Record, other: &Record) -> bool
    ensures { IsTrue result ↔ own.now ≡ other.now }
{
    *own == *other
}

/// Whether the two sequences have the same records in the same order.
fn are_same(own: Records<'_>, other: Records<'_>) -> bool
    ensures { IsTrue result ↔ own.entry ≡ other.entry }
{
    let mut own = own;
    for theirs in other {
        let Some(mine) = own.next() else {
            return false;
        };
        if !is_one(mine, theirs) {
            return false;
        }
    }
    own.next().is_none()
}

impl Forest {
    /// Makes a forest of this home without records.
    pub fn new(alloc: Global, home: NodeId) -> Forest
        ensures home { result.home ≡ home }
        ensures records { result.records ≡ [] }
    {
        Forest {
            home,
            records: Pages::new(alloc),
        }
    }

    /// Makes the records of all LRAs of a home that are held, from all facts, which may be in any
    /// order. It reads the facts some hundred times for each LRA of the home. It fails only if
    /// memory runs out. It takes the number of nodes because a list of facts need not show each
    /// node.
    pub fn of_facts(
        alloc: Global,
        facts: &[Fact],
        home: NodeId,
        nodes: usize,
    ) -> Result<Forest, AllocError>
        requires some { 1 ≤ nodes }
        requires few { nodes ≤ MAX_NODES }
        requires earlier { AllByRecursion NamesEarlier facts.now }
        requires numbered { AllByRecursion IsNumbered facts.now }
        ensures home { IfOk result (λ forest. forest.home ≡ home) }
        ensures stands { IsRecordable facts.now →
            IfOk result (λ forest. Stands nodes home facts.now forest.records) }
    {
        let mut forest = Forest::new(alloc, home);
        for fact in facts {
            if let Some(id) = held_begin(facts, home, fact) {
                let made = record_of(alloc, facts, id, nodes)?;
                forest.reserve(1)?;
                forest.put(made);
            }
        }
        Ok(forest)
    }

    /// Returns the home, which is the node that began these LRAs.
    pub fn home(&self) -> NodeId
        ensures { result ≡ self.now.home }
    {
        self.home
    }

    /// Returns the records in order of their numbers.
    pub fn records(&self) -> Records<'_>
        ensures records { result ≡ self.now.records }
        ensures order { AreOf self.now.home self.now.records }
    {
        self.records.iter()
    }

    /// Returns the numbers of the LRAs that have a record, in order.
    pub fn numbers(&self, alloc: Global) -> Result<Vec<u64>, AllocError>
        ensures { IfOk result
            (λ numbers. numbers.items ≡ map (λ (r : RecordFields). r.num) self.now.records) }
    {
        let mut numbers = Vec::with_capacity(alloc, self.len())?;
        for record in self.records() {
            numbers.push(record.num)?;
        }
        Ok(numbers)
    }

    fn pages(&self) -> &Pages
        ensures items { result.now.items ≡ self.now.records }
        ensures order { AreOf self.now.home self.now.records }
    {
        &self.records
    }

    /// Takes the forest apart, and returns its records in order of their numbers.
    pub fn into_records(self) -> IntoRecords
        ensures { result ≡ self.records }
    {
        self.records.into_records()
    }

    /// Whether another forest has the same home and the same records.
    pub fn same(&self, other: &Forest) -> bool
        ensures { IsTrue result ↔ ((self.now.home ≡ other.now.home)
            × (self.now.records ≡ other.now.records)) }
    {
        self.home() == other.home() && self.same_records(other)
    }

    /// Whether another forest, of this home or another, has the same records.
    pub fn same_records(&self, other: &Forest) -> bool
        ensures { IsTrue result ↔ (self.now.records ≡ other.now.records) }
    {
        are_same(self.records(), other.records())
    }

    /// Returns the number of records, which is the number of the home's LRAs that are held.
    pub fn len(&self) -> usize
        ensures count { result ≡ length self.now.records }
        ensures held { (nodes : ℕ) (S : List Fact) → Stands nodes self.now.home S self.now.records →
            AreOnce S → result ≡ held_at S self.now.home }
    {
        self.records.len()
    }

    /// Returns the records with greater numbers, in order. It finds the first by binary search.
    pub fn after(&self, num: u64) -> Records<'_>
        ensures { result ≡ filter (λ r. nat_lt num r.num) self.now.records }
    {
        self.pages().after(num)
    }

    /// Reserves memory for this many more records.
    pub fn reserve(&mut self, more: usize) -> Result<(), AllocError>
        ensures home { self.new.home ≡ self.old.home }
        ensures records { self.new.records ≡ self.old.records }
        ensures ok { OnOk result (more ≤ self.new.spare) }
        ensures kept { self.old.spare ≤ self.new.spare }
    {
        self.records.reserve(more)
    }

    /// Frees all spare memory except room for at most 16 more records. It keeps room for one if
    /// there was any.
    pub fn release(&mut self)
        ensures home { self.new.home ≡ self.old.home }
        ensures records { self.new.records ≡ self.old.records }
        ensures spare { self.new.spare ≤ 16 }
        ensures kept { 1 ≤ self.old.spare → 1 ≤ self.new.spare }
    {
        self.records.release();
    }

    /// Puts a record of this home in its place. It replaces a record with the same number, and then
    /// takes no room.
    pub fn put(&mut self, added: Record)
        requires home { added.home ≡ self.old.home }
        requires room { find (is_of (id_of added)) self.old.records ≡ None → 1 ≤ self.old.spare }
        ensures home { self.new.home ≡ self.old.home }
        ensures records { self.new.records ≡ put_record added self.old.records }
        ensures room { self.old.spare ≤ self.new.spare + 1 }
        ensures replaced { is_some (find (is_of (id_of added)) self.old.records) ≡ true →
            self.new.spare ≡ self.old.spare }
    {
        let _ = self.replace(added);
    }

    /// Like `put`, but returns the record that was replaced.
    pub fn replace(&mut self, added: Record) -> Option<Record>
        requires home { added.home ≡ self.old.home }
        requires room { find (is_of (id_of added)) self.old.records ≡ None → 1 ≤ self.old.spare }
        ensures home { self.new.home ≡ self.old.home }
        ensures records { self.new.records ≡ put_record added self.old.records }
        ensures room { self.old.spare ≤ self.new.spare + 1 }
        ensures replaced { is_some (find (is_of (id_of added)) self.old.records) ≡ true →
            self.new.spare ≡ self.old.spare }
        ensures was { result ≡ find (is_of (id_of added)) self.old.records }
    {
        self.records.replace(added)
    }

    /// Puts a record of this home behind all others, which must have lesser numbers. It looks only
    /// at the last page.
    pub fn push_last(&mut self, added: Record) -> Result<(), AllocError>
        requires home { added.home ≡ self.old.home }
        requires last { AllByRecursion (λ q. q.num < added.num) self.old.records }
        ensures home { self.new.home ≡ self.old.home }
        ensures ok { OnOk result (self.new.records ≡ self.old.records ++ added ∷ []) }
        ensures err { OnErr result (self.new.records ≡ self.old.records) }
    {
        self.records.push(added)
    }

    fn exchange(&mut self, next: Record) -> Record
        requires home { next.home ≡ self.old.home }
        requires there { is_some (find (is_of (id_of next)) self.old.records) ≡ true }
        ensures home { self.new.home ≡ self.old.home }
        ensures records { self.new.records ≡ put_record next self.old.records }
        ensures spare { self.new.spare ≡ self.old.spare }
        ensures back { find (is_of (id_of next)) self.old.records ≡ Some result }
    {
        self.records.exchange(next)
    }

    /// Removes the record of an LRA. It finds its place by binary search, and takes no memory.
    pub fn remove(&mut self, id: LraId)
        ensures home { self.new.home ≡ self.old.home }
        ensures records { self.new.records ≡ filter (λ r. not (is_of id r)) self.old.records }
        ensures room { self.old.spare ≤ self.new.spare }
    {
        if id.home() == self.home {
            self.records.remove(id.num());
        }
    }

    /// Returns the record of the LRA that the home began with its fact of this number. It finds it
    /// by binary search.
    #[tactic(auto, using(crate::proofs::Places::found_place))]
    pub fn numbered(&self, num: u64) -> Option<&Record>
        ensures { option_copied result
            ≡ find (is_of (record { home = self.now.home; num = num })) self.now.records }
    {
        self.pages().numbered(num)
    }

    /// Returns the record of an LRA. It finds it by binary search.
    pub fn get(&self, id: LraId) -> Option<&Record>
        ensures home { IfSome result (λ _. id.home ≡ self.now.home) }
        ensures found { option_copied result ≡ find (is_of id) self.now.records }
    {
        let _ = &self.records;
        if id.home() == self.home() {
            self.numbered(id.num())
        } else {
            None
        }
    }
}

impl Clone for Forest {
    ghost is_clone = { λ x y. (y.home ≡ x.home) × (y.records ≡ x.records) };

    fn clone(&self) -> Result<Forest, AllocError> {
        Ok(Forest {
            home: self.home,
            records: self.records.clone()?,
        })
    }
}

fn over(own: Option<Verdict>, above: Option<Verdict>) -> Option<Verdict>
    ensures { result ≡ over own above }
{
    match (own, above) {
        (None, above) => above,
        (Some(Verdict::Close), Some(above)) => Some(above),
        (own, _) => own,
    }
}

fn names_parent(kept: &Record, num: u64) -> bool
    ensures { result ≡ names_parent num kept.now }
{
    match kept.parent {
        Some(place) => place.number == num,
        None => false,
    }
}

fn participant_status(
    want: Option<Verdict>,
    member: Option<&Member>,
) -> Result<MemberStatus, Refusal>
    ensures { result ≡ known (status_at want (option_copied member.entry)) }
{
    match member {
        Some(Member::Participant(participant)) => Ok(status_of(want, participant)),
        _ => Err(Refusal::UnknownMember),
    }
}

impl Forest {
    /// Returns what is wanted by the decisions along a chain of parents, which goes up from the LRA
    /// with this number and has at most this many LRAs.
    fn wanted_within(&self, num: u64, levels: u8) -> Option<Verdict>
        ensures { result
            ≡ wanted_by (records_up levels (found_at self.now.home self.now.records) num) }
    {
        let mut want = None;
        let mut at = num;
        for _ in 0..levels {
            let Some(record) = self.numbered(at) else {
                return want;
            };
            want = over(want, record.decision);
            let Some(place) = record.parent else {
                return want;
            };
            at = place.number;
        }
        want
    }

    /// Returns what the LRA with this number wants, by the decisions along its chain of parents.
    pub(crate) fn wanted(&self, num: u64) -> Option<Verdict>
        ensures { result ≡ want_at (found_at self.now.home self.now.records) num }
    {
        self.wanted_within(num, MAX_DEPTH)
    }

    /// Like `wanted`, for an LRA whose record is at hand, so that only those above it are looked
    /// up.
    pub(crate) fn wanted_of(&self, num: u64, kept: &Record) -> Option<Verdict>
        ensures { let at = found_at self.now.home self.now.records
            in at num ≡ Some kept.now → result ≡ want_at at num }
    {
        match kept.parent {
            Some(place) => {
                let above = self.wanted_within(place.number, MAX_DEPTH - 1);
                over(kept.decision, above)
            }
            None => kept.decision,
        }
    }

    /// Returns what an LRA wants: Cancel if it or an LRA above it is cancelled, otherwise Close if
    /// one of them is closed. It looks up the record of each of them.
    pub fn want(&self, id: LraId) -> Result<Option<Verdict>, Refusal>
        ensures says { let at = found_at id.home self.now.records
            in result ≡ answered (is_some (at id.num)) (want_at at id.num) }
        ensures answer { (nodes : ℕ) (S : List Fact) → IsWhole S → IsNested S →
            Stands nodes id.home S self.now.records → result ≡ answered (is_held S id) (want S id) }
        ensures refused { result ≡ Err NotHeld ↔ (find (is_of id) self.now.records ≡ None) }
    {
        let Some(record) = self.get(id) else {
            return Err(Refusal::NotHeld);
        };
        Ok(self.wanted_of(id.num(), record))
    }

    /// Returns the status of the LRA's participant with this member number. A participant that left
    /// has none. It looks up the records of the LRA and of those above it.
    pub fn member_status(&self, id: LraId, member: u8) -> Result<MemberStatus, Refusal>
        ensures says { let at = found_at id.home self.now.records in result ≡ (if is_some
            (at id.num) then known (member_shown_at at id.num member) else Err NotHeld) }
        ensures answer { (nodes : ℕ) (S : List Fact) →
            IsWhole S → IsNested S → IsSeated S → Stands nodes id.home S self.now.records →
            result ≡ (if is_held S id then known (member_status S id member) else Err NotHeld) }
        ensures refused { result ≡ Err NotHeld ↔ (find (is_of id) self.now.records ≡ None) }
    {
        let Some(record) = self.get(id) else {
            return Err(Refusal::NotHeld);
        };
        let want = self.wanted_of(id.num(), record);
        participant_status(want, record.members.get(member))
    }

    /// Returns the record of the LRA with the second number, if it names the one with the first as
    /// its parent. A forged record may claim as nested an LRA that names another parent. A walk
    /// down that uses this function reaches a record only from the one parent that it names, and so
    /// only once if the records were decoded. The shape requires of a nested LRA only that it has a
    /// record. Without this test eight layers might each name all of the next, and each record
    /// would be looked at many times.
    pub(crate) fn child_of(&self, num: u64, child: u64) -> Option<&Record>
        ensures { option_copied result
            ≡ child_of (found_at self.now.home self.now.records) num child }
    {
        let Some(record) = self.numbered(child) else {
            return None;
        };
        if names_parent(record, num) {
            Some(record)
        } else {
            None
        }
    }

    /// Returns what is seen of a member of the LRA with this number, and of those nested in it to
    /// this depth.
    #[cycle(descent)]
    fn seen_in(&self, num: u64, want: Option<Verdict>, member: &Member, levels: u8) -> Seen
        ensures { result ≡ seen_by (λ test. shows_within levels test
            (found_at self.now.home self.now.records) num want member.now) }
    {
        match member {
            Member::Nested(child) => {
                let Some(record) = self.child_of(num, *child) else {
                    return Seen::NOTHING;
                };
                if levels == 0 {
                    return Seen::NOTHING;
                }
                let members = record.members.as_slice();
                self.seen(*child, over(record.decision, want), members, levels - 1)
            }
            Member::Participant(participant) => Seen::of(status_of(want, participant)),
            Member::Left => Seen::NOTHING,
        }
    }

    /// Returns what is seen of members of the LRA with this number, and of those nested in them to
    /// this depth, if the LRA wants this.
    #[cycle(descent)]
    pub(crate) fn seen(
        &self,
        num: u64,
        want: Option<Verdict>,
        members: &[Member],
        levels: u8,
    ) -> Seen
        ensures { result ≡ seen_by (λ test. list_any
            (shows_within levels test (found_at self.now.home self.now.records) num want)
            members.now) }
    {
        let mut seen = Seen::NOTHING;
        for member in members {
            seen = seen.or(self.seen_in(num, want, member, levels));
        }
        seen
    }

    /// Whether an LRA is ended: it wants something, and no participant of it, or of an LRA nested
    /// in it, has anything left to do. It looks up the records of the LRAs above it and of those
    /// nested in it, each once. It goes on in a nested LRA only from the parent that the LRA's
    /// record names, so even with forged records it visits each at most once.
    pub fn ended(&self, id: LraId) -> Result<bool, Refusal>
        ensures says { let at = found_at id.home self.now.records
            in result ≡ answered (is_some (at id.num)) (is_ended_at at id.num) }
        ensures answer { (nodes : ℕ) (S : List Fact) →
            IsWhole S → IsNested S → Stands nodes id.home S self.now.records →
            result ≡ answered (is_held S id) (is_ended S id) }
        ensures refused { result ≡ Err NotHeld ↔ (find (is_of id) self.now.records ≡ None) }
    {
        let Some(record) = self.get(id) else {
            return Err(Refusal::NotHeld);
        };
        let want = self.wanted_of(id.num(), record);
        let seen = self.seen(id.num(), want, record.members.as_slice(), MAX_DEPTH - 1);
        Ok(seen.is_ended(want))
    }

    fn status_from(&self, num: u64, kept: &Record) -> LraStatus
        ensures { let at = found_at self.now.home self.now.records
            in at num ≡ Some kept.now → result ≡ shown_at at num }
    {
        let want = self.wanted_of(num, kept);
        let seen = self.seen(num, want, kept.members.as_slice(), MAX_DEPTH - 1);
        seen.shown(want)
    }

    /// Returns the status of an LRA. Like `ended`, it looks up the records of the LRAs above it and
    /// of those nested in it.
    pub fn status(&self, id: LraId) -> Result<LraStatus, Refusal>
        ensures says { let at = found_at id.home self.now.records
            in result ≡ answered (is_some (at id.num)) (shown_at at id.num) }
        ensures answer { (nodes : ℕ) (S : List Fact) →
            IsWhole S → IsNested S → Stands nodes id.home S self.now.records →
            result ≡ answered (is_held S id) (shows_now S id) }
        ensures refused { result ≡ Err NotHeld ↔ (find (is_of id) self.now.records ≡ None) }
    {
        let Some(kept) = self.get(id) else {
            return Err(Refusal::NotHeld);
        };
        Ok(self.status_from(id.num(), kept))
    }

    fn status_at(&self, num: u64) -> Result<LraStatus, Refusal>
        ensures { let at = found_at self.now.home self.now.records
            in result ≡ answered (is_some (at num)) (shown_at at num) }
    {
        let Some(kept) = self.numbered(num) else {
            return Err(Refusal::NotHeld);
        };
        Ok(self.status_from(num, kept))
    }

    /// Returns what this record's LRA would show if the record were in its place, together with the
    /// record. The record is put there only for this question, which takes no memory. If the LRA
    /// has no record, it is refused. So a status after a decision needs neither a second evaluator
    /// nor a copy of the home.
    pub fn status_with(&mut self, next: Record) -> (Result<LraStatus, Refusal>, Record)
        requires { next.home ≡ self.old.home }
        ensures unchanged { self.new ≡ self.old }
        ensures back { result.1 ≡ next }
        ensures says { is_some (find (is_of (id_of next)) self.old.records) ≡ true → result.0
            ≡ Ok (shown_at (found_at self.old.home (put_record next self.old.records)) next.num) }
        ensures refused { find (is_of (id_of next)) self.old.records ≡ None →
            result.0 ≡ Err NotHeld }
    {
        let _ = &self.records;
        let num = next.num;
        if self.numbered(num).is_none() {
            return (Err(Refusal::NotHeld), next);
        }
        let kept = self.exchange(next);
        let status = self.status_at(num);
        let next = self.exchange(kept);
        (status, next)
    }
}
