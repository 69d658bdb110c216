// Questions about LRAs and participants, answered from the records of one home.
ghost use Rattle.std.specs.Prelude.{◌≡◌, ◌↔◌, ℕ, List, Err, None, Some, find, is_some, length, nat_le, if◌then◌else◌};
ghost use Rattle.std.specs.List.{AllByRecursion};
ghost use Rattle.std.specs.Option.{option_copied};
ghost use Rattle.state_ids.specs.States.{level};
ghost use Rattle.state_facts.specs.declared.fact.Fact.{Fact};
ghost use Rattle.state_facts.specs.declared.refusal.Refusal.TheVariants.{NotHeld};
ghost use Rattle.state_facts.specs.Sets.{IsNumbered, depth, is_demanded, is_heard, is_held, is_participant, numbers_given};
ghost use Rattle.state_forest.specs.Forests.{AreOf, is_of};
ghost use Rattle.state_forest.specs.Overdue.{IsLeastOverdue, is_past};
ghost use Rattle.state_forest.specs.Participants.{answered_of, heard_by, parent_held, participant_at, participant_of as participant_held};
ghost use Rattle.state_forest.specs.Said.{depth_at, first_overdue, is_overdue_at, is_demanded_at, is_heard_at, members_at, parent_at, participant_of};
ghost use Rattle.state_forest.specs.Shape.{found_at};
ghost use Rattle.state_forest.specs.Standing.{IsNested, IsSeated, IsWhole, Stands, answered};

use crate::{Forest, MAX_DEPTH, Member, Participant, Record};
use state_facts::{Refusal, plain};
use state_ids::{Act, LraId, Outcome};

/// Returns the participant, if the member is one.
pub fn participant_at(member: Option<&Member>) -> Option<&Participant>
    ensures { option_copied result ≡ participant_at (option_copied member.entry) }
{
    match member {
        Some(Member::Participant(participant)) => Some(participant),
        _ => None,
    }
}

impl Participant {
    /// Returns the greatest outcome that was heard of this act of the participant.
    pub fn heard(&self, act: Act) -> Option<Outcome>
        ensures { result ≡ heard_by self.now act }
    {
        match act {
            Act::Complete => self.completed,
            Act::Compensate => self.compensated,
        }
    }
}

fn hears(participant: &Participant, act: Act, outcome: Outcome) -> bool
    ensures { result ≡ nat_le (level (Some outcome)) (level (heard_by participant.now act)) }
{
    match participant.heard(act) {
        Some(greatest) => greatest.is_at_least(outcome),
        None => false,
    }
}

fn is_past(deadline: u64, now: u64) -> bool
    ensures { result ≡ is_past deadline now }
{
    deadline != 0 && deadline <= now
}

impl Forest {
    fn if_overdue(&self, kept: &Record, now: u64) -> Option<LraId>
        ensures { let at = found_at self.now.home self.now.records
            in result ≡ (if is_overdue_at at now kept.now then Some
            (record { home = self.now.home; num = kept.now.num }) else None) }
    {
        if !is_past(kept.deadline, now) {
            return None;
        }
        if self.wanted(kept.num).is_some() {
            return None;
        }
        LraId::new(self.home(), kept.num).ok()
    }

    fn first_overdue(&self, now: u64) -> Option<LraId>
        ensures value { result ≡ first_overdue self.now.home
            (found_at self.now.home self.now.records) now self.now.records }
        ensures order { AreOf self.now.home self.now.records }
    {
        for kept in self.records() {
            if let Some(id) = self.if_overdue(kept, now) {
                return Some(id);
            }
        }
        None
    }

    /// Returns the LRA with the least number among those of the home that want nothing and whose
    /// deadline has passed. It looks at each record once. If a deadline has passed, it also looks
    /// at the records above that LRA.
    pub fn overdue(&self, now: u64) -> Option<LraId>
        ensures says { result ≡ first_overdue self.now.home
            (found_at self.now.home self.now.records) now self.now.records }
        ensures answer { (nodes : ℕ) (S : List Fact) → IsWhole S → IsNested S →
            AllByRecursion IsNumbered S → Stands nodes self.now.home S self.now.records →
            IsLeastOverdue S self.now.home now result }
    {
        self.first_overdue(now)
    }

    fn depth_at(&self, num: u64) -> u64
        ensures { result ≡ depth_at (found_at self.now.home self.now.records) num }
    {
        let mut depth = 0;
        let mut at = num;
        for _ in 0..MAX_DEPTH {
            let Some(record) = self.numbered(at) else {
                return depth;
            };
            depth += 1;
            let Some(place) = record.parent else {
                return depth;
            };
            at = place.number;
        }
        depth
    }

    /// Returns the depth of an LRA, where a root has depth 1. It looks up the record of each LRA in
    /// its chain.
    pub fn depth(&self, id: LraId) -> Result<u64, Refusal>
        ensures says { let at = found_at id.home self.now.records
            in result ≡ answered (is_some (at id.num)) (depth_at at id.num) }
        ensures answer { (nodes : ℕ) (S : List Fact) →
            IsWhole S → IsNested S → Stands nodes id.home S self.now.records →
            result ≡ answered (is_held S id) (depth S id) }
        ensures refused { result ≡ Err NotHeld ↔ (find (is_of id) self.now.records ≡ None) }
    {
        let Some(_) = self.get(id) else {
            return Err(Refusal::NotHeld);
        };
        Ok(self.depth_at(id.num()))
    }

    /// Returns the number of member numbers of an LRA that were given.
    pub fn numbers_given(&self, id: LraId) -> Result<usize, Refusal>
        ensures says { let at = found_at id.home self.now.records
            in result ≡ answered (is_some (at id.num)) (length (members_at at id.num)) }
        ensures answer { (nodes : ℕ) (S : List Fact) →
            IsWhole S → Stands nodes id.home S self.now.records →
            result ≡ answered (is_held S id) (numbers_given S id) }
        ensures refused { result ≡ Err NotHeld ↔ (find (is_of id) self.now.records ≡ None) }
    {
        let Some(record) = self.get(id) else {
            return Err(Refusal::NotHeld);
        };
        Ok(record.members.len())
    }

    /// Whether what an LRA wants demands this act of its participant with this member number. It
    /// looks up the records of the LRA and of those above it.
    pub fn demands(&self, id: LraId, member: u8, act: Act) -> Result<bool, Refusal>
        ensures says { let at = found_at id.home self.now.records
            in result ≡ answered_of (is_some (at id.num))
            (is_some (participant_of at id.num member)) (is_demanded_at at id.num member act) }
        ensures answer { (nodes : ℕ) (S : List Fact) → IsWhole S →
            IsNested S → IsSeated S → Stands nodes id.home S self.now.records → result ≡ answered_of
            (is_held S id) (is_participant S id member) (is_demanded S id member act) }
        ensures refused { result ≡ Err NotHeld ↔ (find (is_of id) self.now.records ≡ None) }
    {
        let Some(record) = self.get(id) else {
            return Err(Refusal::NotHeld);
        };
        let Some(participant) = participant_at(record.members.get(member)) else {
            return Err(Refusal::UnknownMember);
        };
        let want = self.wanted_of(id.num(), record);
        Ok(plain::demands(want, &participant.links, act))
    }

    /// Whether this outcome of an act, or a greater one, was heard of the LRA's participant with
    /// this member number.
    pub fn has_heard(
        &self,
        id: LraId,
        member: u8,
        act: Act,
        outcome: Outcome,
    ) -> Result<bool, Refusal>
        ensures says { let at = found_at id.home self.now.records
            in result ≡ answered_of (is_some (at id.num))
            (is_some (participant_of at id.num member)) (is_heard_at at id.num member act outcome) }
        ensures answer { (nodes : ℕ) (S : List Fact) →
            IsWhole S → IsSeated S → Stands nodes id.home S self.now.records → result ≡ answered_of
            (is_held S id) (is_participant S id member) (is_heard S id member act outcome) }
        ensures refused { result ≡ Err NotHeld ↔ (find (is_of id) self.now.records ≡ None) }
    {
        let Some(record) = self.get(id) else {
            return Err(Refusal::NotHeld);
        };
        let Some(participant) = participant_at(record.members.get(member)) else {
            return Err(Refusal::UnknownMember);
        };
        Ok(hears(participant, act, outcome))
    }

    /// Returns the LRA's participant with this member number, if the LRA is held and has one.
    pub fn participant(&self, id: LraId, member: u8) -> Option<&Participant>
        ensures says { option_copied result
            ≡ participant_of (found_at id.home self.now.records) id.num member }
        ensures settled { (nodes : ℕ) (S : List Fact) →
            IsSeated S → Stands nodes id.home S self.now.records →
            option_copied result ≡ participant_held S id member }
    {
        let Some(record) = self.get(id) else {
            return None;
        };
        participant_at(record.members.get(member))
    }

    /// Returns the parent of an LRA, if the LRA is held and nested.
    pub fn parent(&self, id: LraId) -> Option<LraId>
        ensures says { result ≡ parent_at id.home (found_at id.home self.now.records) id.num }
        ensures settled { (nodes : ℕ) (S : List Fact) → IsWhole S → AllByRecursion IsNumbered S →
            Stands nodes id.home S self.now.records → result ≡ parent_held S id }
    {
        let Some(record) = self.get(id) else {
            return None;
        };
        let Some(place) = record.parent else {
            return None;
        };
        LraId::new(self.home(), place.number).ok()
    }
}
