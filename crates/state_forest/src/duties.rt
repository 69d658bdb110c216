// What the participants of a home are due to do or to be told: to compensate in saga order, to
// complete, to forget, and to be told of the end.
ghost use Rattle.std.specs.Prelude.{◌≡◌, ◌↔◌, ◌++◌, ◌&&◌, ℕ, Bool, List, Err, None, Some, false, IfOk, OnOk, find, flat_map, is_none, is_some, slice_get};
ghost use Rattle.std.specs.List.{AllByRecursion, list_any};
ghost use Rattle.std.specs.Option.{option_map_or};
ghost use Rattle.state_facts.specs.declared.fact.Fact.{Fact};
ghost use Rattle.state_facts.specs.declared.refusal.Refusal.TheVariants.{NotHeld};
ghost use Rattle.state_facts.specs.Duties.{has_to_compensate, has_to_forget, is_after_duty, is_compensation_due, is_forget_duty, is_pending, wants_cancel};
ghost use Rattle.state_facts.specs.Sets.{IsNumbered};
ghost use Rattle.state_forest.specs.declared.forest.TheConstants.{MAX_DEPTH};
ghost use Rattle.state_forest.specs.declared.record.Record.{Record};
ghost use Rattle.state_forest.specs.Dues.{AreAll, IsDueAt, is_before, is_complete_duty, is_topmost_before};
ghost use Rattle.state_forest.specs.Forests.{AreOf, is_of};
ghost use Rattle.state_forest.specs.Owings.{IsLastRoot, completing_by, forgetting_at, owed_by, owed_of, owes, owes_at, owing_at};
ghost use Rattle.state_forest.specs.Participants.{answered_of};
ghost use Rattle.state_forest.specs.RecordDues.{compensation_at, due_to_compensate, due_to_complete, due_to_forget, due_to_hear, is_topmost_at};
ghost use Rattle.state_forest.specs.Said.{first_below, is_at_end_at, is_ended_at, is_over_at, is_owed, is_owed_at, is_forgot_at, is_root_decided_at, is_to_hear_at, is_told_at, is_under_at, is_unheard, least_owed_of, least_unheard_of, participant_of, records_up, want_at};
ghost use Rattle.state_forest.specs.Shape.{found_at};
ghost use Rattle.state_forest.specs.Standing.{IsNested, IsSeated, IsWhole, Stands};
ghost use Rattle.state_forest.specs.Walks.{last_of, pending_within};

use crate::answers::participant_at;
use crate::forest::MAX_DEPTH;
use crate::seen::status_of;
use crate::{Forest, Member, Members, Participant, Place, Record};
use state_facts::Refusal;
use state_ids::{LraId, MemberStatus, Outcome, Verdict};
use std::alloc::{AllocError, Global};

/// A participant of which something is due: its LRA and its member number.
#[derive(Clone, Copy, Debug, PartialEq, Eq)]
pub struct Due {
    pub lra: LraId,
    pub member: u8,
}

/// The purposes of a call that don't depend on the saga: to complete, to forget, or to tell the
/// participant that its LRA has ended. The `Purpose` of `wire_callbacks` has the purposes of all
/// calls.
#[derive(Clone, Copy)]
enum DutyKind {
    Complete,
    Forget,
    Tell,
}

/// What the participants of an LRA may owe: nothing, to complete, to forget (by what the LRA wants
/// and whether it is nested), or to hear that the LRA has ended.
#[derive(Clone, Copy)]
enum Owing {
    Nothing,
    Completion,
    Forgetting(Option<Verdict>, bool),
    Hearing,
}

/// The root that was last tested for whether it is ended, with the result. What is remembered
/// between loop turns is a precondition and an invariant over records, so it is no premise above.
#[derive(Clone, Copy)]
struct LastRoot {
    root: u64,
    ended: bool,
}

fn is_pending(heard: Option<Outcome>) -> bool
    ensures { result ≡ is_pending heard }
{
    match heard {
        None | Some(Outcome::Busy) => true,
        Some(Outcome::Done) | Some(Outcome::Failed) => false,
    }
}

fn has_to_compensate(participant: &Participant) -> bool
    ensures { result ≡ has_to_compensate participant.now.links participant.now.compensated }
{
    participant.links.compensate().is_some() && is_pending(participant.compensated)
}

fn is_unheard(participant: &Participant) -> bool
    ensures { result ≡ is_unheard participant.now }
{
    participant.links.after().is_some() && !participant.told
}

fn is_cancel(want: Option<Verdict>) -> bool
    ensures { result ≡ wants_cancel want }
{
    matches!(want, Some(Verdict::Cancel))
}

fn completing(want: Option<Verdict>) -> Owing
    ensures { result ≡ completing_by want }
{
    match want {
        Some(Verdict::Close) => Owing::Completion,
        _ => Owing::Nothing,
    }
}

fn has_to_forget(nested: bool, status: MemberStatus) -> bool
    ensures { result ≡ has_to_forget nested status }
{
    match status {
        MemberStatus::FailedToComplete | MemberStatus::FailedToCompensate => true,
        MemberStatus::Completed => nested,
        _ => false,
    }
}

fn owes(owing: Owing, participant: &Participant) -> bool
    ensures { result ≡ owes owing participant.now }
{
    match owing {
        Owing::Nothing => false,
        Owing::Completion => {
            participant.links.complete().is_some() && is_pending(participant.completed)
        }
        Owing::Forgetting(want, nested) => {
            participant.links.forget().is_some()
                && !participant.forgotten
                && has_to_forget(nested, status_of(want, participant))
        }
        Owing::Hearing => is_unheard(participant),
    }
}

fn owes_at(owing: Owing, member: &Member) -> bool
    ensures { result ≡ owes_at owing member.now }
{
    match member {
        Member::Participant(participant) => owes(owing, participant),
        _ => false,
    }
}

fn add_owed(
    owing: Owing,
    lra: LraId,
    members: &Members,
    dues: &mut Vec<Due>,
) -> Result<(), AllocError>
    ensures { OnOk result (dues.new.items ≡ dues.old.items ++ owed_by owing lra 1 members.now) }
{
    let mut member = 0;
    for kept in members.as_slice() {
        member += 1;
        if owes_at(owing, kept) {
            dues.push(Due { lra, member })?;
        }
    }
    Ok(())
}

fn first_owed(owing: Owing, lra: LraId, members: &Members) -> Option<Due>
    ensures { result ≡ slice_get (owed_by owing lra 1 members.now) 0 }
{
    let mut member = 0;
    for kept in members.as_slice() {
        member += 1;
        if owes_at(owing, kept) {
            return Some(Due { lra, member });
        }
    }
    None
}

impl Forest {
    #[cycle(walk)]
    fn pending_in(&self, number: u64, slot: u8, member: &Member, levels: u8) -> Option<Place>
        ensures { result ≡ pending_within levels
            (found_at self.now.home self.now.records) number slot member.now }
    {
        match member {
            Member::Nested(child) => {
                let Some(record) = self.child_of(number, *child) else {
                    return None;
                };
                if levels == 0 {
                    return None;
                }
                self.last_pending(*child, &record.members, levels - 1)
            }
            Member::Participant(participant) => {
                if has_to_compensate(participant) {
                    Some(Place { number, slot })
                } else {
                    None
                }
            }
            Member::Left => None,
        }
    }

    /// Returns the last participant that must still compensate, among the members of an LRA and
    /// those nested in them to this depth. It walks down from the greatest member number.
    #[cycle(walk)]
    fn last_pending(&self, number: u64, members: &Members, levels: u8) -> Option<Place>
        ensures { result ≡ last_of
            (pending_within levels (found_at self.now.home self.now.records) number) 1 members.now }
    {
        let members = members.as_slice();
        let mut left = members.len();
        'down: while left > 0 {
            left -= 1;
            let slot = (left + 1) as u8;
            if let Some(found) = self.pending_in(number, slot, &members[left], levels) {
                return Some(found);
            }
        }
        None
    }

    fn is_topmost_cancelled(&self, kept: &Record) -> bool
        ensures { result ≡ is_topmost_at (found_at self.now.home self.now.records) kept.now }
    {
        if !is_cancel(kept.decision) {
            return false;
        }
        match kept.parent {
            None => true,
            Some(place) => !is_cancel(self.wanted(place.number)),
        }
    }

    fn compensation_under(&self, kept: &Record) -> Option<Due>
        ensures { result
            ≡ compensation_at self.now.home (found_at self.now.home self.now.records) kept.now }
    {
        if !self.is_topmost_cancelled(kept) {
            return None;
        }
        let Some(place) = self.last_pending(kept.num, &kept.members, MAX_DEPTH - 1) else {
            return None;
        };
        let Ok(lra) = LraId::new(self.home(), place.number) else {
            return None;
        };
        Some(Due {
            lra,
            member: place.slot,
        })
    }

    fn compensations(&self, alloc: Global) -> Result<Vec<Due>, AllocError>
        ensures due { IfOk result (λ dues. dues.items ≡ due_to_compensate self.now.home
            (found_at self.now.home self.now.records) self.now.records) }
        ensures order { AreOf self.now.home self.now.records }
    {
        let mut dues = Vec::new(alloc);
        for kept in self.records() {
            if let Some(due) = self.compensation_under(kept) {
                dues.push(due)?;
            }
        }
        Ok(dues)
    }

    /// Returns the compensations that are due, in order of their topmost cancelled LRAs. Under each
    /// LRA that is cancelled, and is nested in no cancelled one, at most one is due. It looks up
    /// each record under these LRAs at most once. It goes on in a nested LRA only from the parent
    /// that the LRA's record names, so even with forged records it visits each at most once.
    pub fn next_compensations(&self, alloc: Global) -> Result<Vec<Due>, AllocError>
        ensures says { IfOk result (λ dues. dues.items ≡ due_to_compensate self.now.home
            (found_at self.now.home self.now.records) self.now.records) }
        ensures settled { (nodes : ℕ) (S : List Fact) →
            IsWhole S → IsSeated S → IsNested S → AllByRecursion IsNumbered S →
            Stands nodes self.now.home S self.now.records → IfOk result (λ dues.
            AreAll (IsDueAt self.now.home S is_compensation_due) (is_topmost_before S) dues.items) }
    {
        self.compensations(alloc)
    }

    /// Whether the LRA with the second number is the one with the first, or nested in it, by its
    /// chain of parents. `root_of`, `depth_at` and `wanted` walk up the same way. One walk that
    /// takes a closure would have to say what each of them says of itself. Not tried.
    pub(crate) fn is_under(&self, above: u64, num: u64) -> bool
        ensures { result ≡ is_under_at (found_at self.now.home self.now.records) above num }
    {
        let mut at = num;
        for _ in 0..MAX_DEPTH {
            let Some(record) = self.numbered(at) else {
                return false;
            };
            if record.num == above {
                return true;
            }
            let Some(place) = record.parent else {
                return false;
            };
            at = place.number;
        }
        false
    }

    fn is_ended(&self, num: u64) -> bool
        ensures { result ≡ is_ended_at (found_at self.now.home self.now.records) num }
    {
        let Some(kept) = self.numbered(num) else {
            return false;
        };
        let want = self.wanted(num);
        let seen = self.seen(num, want, kept.members.as_slice(), MAX_DEPTH - 1);
        seen.is_ended(want)
    }

    fn root_met(&self, num: u64) -> Option<u64>
        ensures { (passes : ℕ → Bool) → list_any (λ (r : Record). is_none r.parent && passes r.num)
            (records_up MAX_DEPTH (found_at self.now.home self.now.records) num)
            ≡ option_map_or passes result false }
    {
        let mut at = num;
        for _ in 0..MAX_DEPTH {
            let Some(record) = self.numbered(at) else {
                return None;
            };
            let Some(place) = record.parent else {
                return Some(at);
            };
            at = place.number;
        }
        None
    }

    fn root_of(&self, num: u64) -> Option<u64>
        ensures over { let at = found_at self.now.home self.now.records
            in is_over_at at num ≡ option_map_or (is_ended_at at) result false }
        ensures decided { let at = found_at self.now.home self.now.records in is_root_decided_at at num
            ≡ option_map_or (λ root. is_some (want_at at root)) result false }
    {
        self.root_met(num)
    }

    /// Whether the root of the LRA with this number is ended. It looks up the records of the root's
    /// whole tree.
    fn is_over(&self, num: u64) -> bool
        ensures { result ≡ is_over_at (found_at self.now.home self.now.records) num }
    {
        match self.root_of(num) {
            Some(root) => self.is_ended(root),
            None => false,
        }
    }

    fn is_root_decided(&self, num: u64) -> bool
        ensures { result ≡ is_root_decided_at (found_at self.now.home self.now.records) num }
    {
        match self.root_of(num) {
            Some(root) => self.wanted(root).is_some(),
            None => false,
        }
    }

    /// Whether the LRA with this number is ended and no later decision changes what it shows.
    fn is_at_end(&self, num: u64) -> bool
        ensures { result ≡ is_at_end_at (found_at self.now.home self.now.records) num }
    {
        if !self.is_ended(num) {
            return false;
        }
        is_cancel(self.wanted(num)) || self.is_root_decided(num)
    }

    /// Like `is_over`, but doesn't test a root again that was tested last.
    fn is_over_since(&self, num: u64, last: &mut Option<LastRoot>) -> bool
        requires { IsLastRoot (found_at self.now.home self.now.records) last.old }
        ensures over { result ≡ is_over_at (found_at self.now.home self.now.records) num }
        ensures last { IsLastRoot (found_at self.now.home self.now.records) last.new }
    {
        let Some(root) = self.root_of(num) else {
            return false;
        };
        if let Some(asked) = *last {
            if asked.root == root {
                return asked.ended;
            }
        }
        let ended = self.is_ended(root);
        *last = Some(LastRoot { root, ended });
        ended
    }

    /// Returns what the participants of this record's LRA may have to forget once its root is
    /// ended.
    fn forgetting(&self, kept: &Record) -> Owing
        ensures { result ≡ forgetting_at (found_at self.now.home self.now.records) kept.now }
    {
        Owing::Forgetting(self.wanted(kept.num), kept.parent.is_some())
    }

    /// Returns what the participants of this record's LRA have to forget. If none may have anything
    /// to forget, it doesn't test whether the root is ended.
    fn forgetting_since(&self, lra: LraId, kept: &Record, last: &mut Option<LastRoot>) -> Owing
        requires { IsLastRoot (found_at self.now.home self.now.records) last.old }
        ensures owed { owed_by result lra 1 kept.now.members ≡ owed_by (owing_at DutyKind.Forget
            (found_at self.now.home self.now.records) kept.now) lra 1 kept.now.members }
        ensures last { IsLastRoot (found_at self.now.home self.now.records) last.new }
    {
        let owing = self.forgetting(kept);
        if first_owed(owing, lra, &kept.members).is_none() {
            return Owing::Nothing;
        }
        if !self.is_over_since(kept.num, last) {
            return Owing::Nothing;
        }
        owing
    }

    /// Returns what the participants of this record's LRA have to hear. If none has anything to
    /// hear, it doesn't test whether the LRA has ended.
    fn hearing(&self, lra: LraId, kept: &Record) -> Owing
        ensures { owed_by result lra 1 kept.now.members ≡ owed_by (owing_at DutyKind.Tell
            (found_at self.now.home self.now.records) kept.now) lra 1 kept.now.members }
    {
        if first_owed(Owing::Hearing, lra, &kept.members).is_none() {
            return Owing::Nothing;
        }
        if self.is_at_end(kept.num) {
            Owing::Hearing
        } else {
            Owing::Nothing
        }
    }

    fn owing_since(
        &self,
        errand: DutyKind,
        lra: LraId,
        kept: &Record,
        last: &mut Option<LastRoot>,
    ) -> Owing
        requires { IsLastRoot (found_at self.now.home self.now.records) last.old }
        ensures owed { owed_by result lra 1 kept.now.members ≡ owed_by (owing_at errand
            (found_at self.now.home self.now.records) kept.now) lra 1 kept.now.members }
        ensures last { IsLastRoot (found_at self.now.home self.now.records) last.new }
    {
        match errand {
            DutyKind::Complete => completing(self.wanted(kept.num)),
            DutyKind::Forget => self.forgetting_since(lra, kept, last),
            DutyKind::Tell => self.hearing(lra, kept),
        }
    }

    fn duties(&self, alloc: Global, errand: DutyKind) -> Result<Vec<Due>, AllocError>
        ensures owed { IfOk result (λ dues. dues.items ≡ flat_map (owed_of errand self.now.home
            (found_at self.now.home self.now.records)) self.now.records) }
        ensures order { AreOf self.now.home self.now.records }
    {
        let mut dues = Vec::new(alloc);
        let mut last = None;
        for kept in self.records() {
            let Ok(lra) = LraId::new(self.home(), kept.num) else {
                continue;
            };
            let owing = self.owing_since(errand, lra, kept, &mut last);
            add_owed(owing, lra, &kept.members, &mut dues)?;
        }
        Ok(dues)
    }

    /// Returns the participants that are to be called to complete, by the numbers of their LRAs and
    /// their member numbers.
    pub fn complete_duties(&self, alloc: Global) -> Result<Vec<Due>, AllocError>
        ensures says { IfOk result (λ dues. dues.items
            ≡ due_to_complete (found_at self.now.home self.now.records) self.now.records) }
        ensures settled { (nodes : ℕ) (S : List Fact) →
            IsWhole S → IsSeated S → IsNested S → AllByRecursion IsNumbered S →
            Stands nodes self.now.home S self.now.records → IfOk result
            (λ dues. AreAll (IsDueAt self.now.home S is_complete_duty) is_before dues.items) }
    {
        self.duties(alloc, DutyKind::Complete)
    }

    /// Returns the participants that are to be told that they may forget, by the numbers of their
    /// LRAs and their member numbers.
    pub fn forget_duties(&self, alloc: Global) -> Result<Vec<Due>, AllocError>
        ensures says { IfOk result (λ dues. dues.items
            ≡ due_to_forget (found_at self.now.home self.now.records) self.now.records) }
        ensures settled { (nodes : ℕ) (S : List Fact) →
            IsWhole S → IsSeated S → IsNested S → AllByRecursion IsNumbered S →
            Stands nodes self.now.home S self.now.records → IfOk result
            (λ dues. AreAll (IsDueAt self.now.home S is_forget_duty) is_before dues.items) }
    {
        self.duties(alloc, DutyKind::Forget)
    }

    /// Returns the participants that are to be told that their LRAs have ended, by the numbers of
    /// these LRAs and their member numbers.
    pub fn after_duties(&self, alloc: Global) -> Result<Vec<Due>, AllocError>
        ensures says { IfOk result (λ dues. dues.items
            ≡ due_to_hear (found_at self.now.home self.now.records) self.now.records) }
        ensures settled { (nodes : ℕ) (S : List Fact) →
            IsWhole S → IsSeated S → IsNested S → AllByRecursion IsNumbered S →
            Stands nodes self.now.home S self.now.records → IfOk result
            (λ dues. AreAll (IsDueAt self.now.home S is_after_duty) is_before dues.items) }
    {
        self.duties(alloc, DutyKind::Tell)
    }

    /// Whether the LRA's participant with this member number is to be told that the LRA has ended.
    pub fn is_to_hear(&self, id: LraId, member: u8) -> Result<bool, Refusal>
        ensures says { let at = found_at id.home self.now.records
            in result ≡ answered_of (is_some (at id.num))
            (is_some (participant_of at id.num member)) (is_to_hear_at at id.num member) }
        ensures refused { result ≡ Err NotHeld ↔ (find (is_of id) self.now.records ≡ None) }
    {
        let Some(record) = self.get(id) else {
            return Err(Refusal::NotHeld);
        };
        let Some(participant) = participant_at(record.members.get(member)) else {
            return Err(Refusal::UnknownMember);
        };
        if !is_unheard(participant) {
            return Ok(false);
        }
        Ok(self.is_at_end(record.num))
    }

    /// Whether the LRA's participant with this member number was told that the LRA has ended.
    pub fn was_told(&self, id: LraId, member: u8) -> Result<bool, Refusal>
        ensures says { let at = found_at id.home self.now.records
            in result ≡ answered_of (is_some (at id.num))
            (is_some (participant_of at id.num member)) (is_told_at at id.num member) }
        ensures refused { result ≡ Err NotHeld ↔ (find (is_of id) self.now.records ≡ None) }
    {
        let Some(record) = self.get(id) else {
            return Err(Refusal::NotHeld);
        };
        let Some(participant) = participant_at(record.members.get(member)) else {
            return Err(Refusal::UnknownMember);
        };
        Ok(participant.told)
    }

    /// Whether the LRA's participant with this member number is to be told that it may forget.
    pub fn is_to_forget(&self, id: LraId, member: u8) -> Result<bool, Refusal>
        ensures says { let at = found_at id.home self.now.records
            in result ≡ answered_of (is_some (at id.num))
            (is_some (participant_of at id.num member)) (is_owed_at at id.num member) }
        ensures refused { result ≡ Err NotHeld ↔ (find (is_of id) self.now.records ≡ None) }
    {
        let Some(record) = self.get(id) else {
            return Err(Refusal::NotHeld);
        };
        let Some(participant) = participant_at(record.members.get(member)) else {
            return Err(Refusal::UnknownMember);
        };
        if !owes(self.forgetting(record), participant) {
            return Ok(false);
        }
        Ok(self.is_over(record.num))
    }

    /// Whether the LRA's participant with this member number was told that it may forget.
    pub fn has_forgotten(&self, id: LraId, member: u8) -> Result<bool, Refusal>
        ensures says { let at = found_at id.home self.now.records
            in result ≡ answered_of (is_some (at id.num))
            (is_some (participant_of at id.num member)) (is_forgot_at at id.num member) }
        ensures refused { result ≡ Err NotHeld ↔ (find (is_of id) self.now.records ≡ None) }
    {
        let Some(record) = self.get(id) else {
            return Err(Refusal::NotHeld);
        };
        let Some(participant) = participant_at(record.members.get(member)) else {
            return Err(Refusal::UnknownMember);
        };
        Ok(participant.forgotten)
    }

    fn first_to_forget(
        &self,
        above: LraId,
        kept: &Record,
        last: &mut Option<LastRoot>,
    ) -> Option<Due>
        requires { IsLastRoot (found_at self.now.home self.now.records) last.old }
        ensures due { result
            ≡ (let at = found_at self.now.home self.now.records
            in first_below (is_owed at) at above.num kept.now) }
        ensures last { IsLastRoot (found_at self.now.home self.now.records) last.new }
    {
        if !self.is_under(above.num(), kept.num) {
            return None;
        }
        let Ok(lra) = LraId::new(kept.home, kept.num) else {
            return None;
        };
        first_owed(self.forgetting_since(lra, kept, last), lra, &kept.members)
    }

    /// Returns the least participant, of an LRA of this home or of an LRA nested in it, that must
    /// still be told to forget. It tests at most once whether the root is ended.
    pub fn least_forget_duty(&self, above: LraId) -> Option<Due>
        requires { above.home ≡ self.now.home }
        ensures { result
            ≡ least_owed_of (found_at self.now.home self.now.records) above.num self.now.records }
    {
        let mut last = None;
        for kept in self.records() {
            if let Some(due) = self.first_to_forget(above, kept, &mut last) {
                return Some(due);
            }
        }
        None
    }

    fn first_unheard(&self, above: LraId, kept: &Record) -> Option<Due>
        ensures { result ≡ first_below (λ r p. is_unheard p)
            (found_at self.now.home self.now.records) above.num kept.now }
    {
        if !self.is_under(above.num(), kept.num) {
            return None;
        }
        let Ok(lra) = LraId::new(kept.home, kept.num) else {
            return None;
        };
        first_owed(Owing::Hearing, lra, &kept.members)
    }

    /// Returns the least participant, of an LRA of this home or of an LRA nested in it, that has a
    /// link for the end of its LRA and was not told of the end.
    pub fn least_unheard(&self, above: LraId) -> Option<Due>
        requires { above.home ≡ self.now.home }
        ensures { result ≡ least_unheard_of
            (found_at self.now.home self.now.records) above.num self.now.records }
    {
        for kept in self.records() {
            if let Some(due) = self.first_unheard(above, kept) {
                return Some(due);
            }
        }
        None
    }
}
