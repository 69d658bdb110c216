// What facts say, computed independently of the code under test: docs/MODEL.md, from "What an LRA
// wants" to "Duties".

use crate::halt::Halt;
use state_facts::{Body, Fact, Links};
use state_forest::{Member, Participant, Record};
use state_ids::{Act, LraId, LraStatus, MemberStatus, NodeId, Outcome, Verdict};
use std::alloc::Global;
use wire_callbacks::Kind;

/// The most LRAs on a path from a root down, and one more.
const LEVELS: u8 = 9;

/// An LRA as the facts about it describe it.
#[derive(Drop)]
pub struct ModelLra {
    id: LraId,
    parent: Option<u64>,
    deadline: u64,
    decision: Option<Verdict>,
    members: Vec<Member>,
}

/// A call that is due, and the participant that it goes to.
#[derive(Clone, Copy, PartialEq, Eq, Debug)]
pub struct DueCall {
    pub kind: Kind,
    pub id: LraId,
    pub member: u8,
}

/// What a set of facts says about all LRAs: for each home the LRAs that it began, in order.
#[derive(Drop)]
pub struct Model {
    alloc: Global,
    homes: Vec<Vec<ModelLra>>,
}

/// Whether neither Done nor Failed was reported.
fn is_pending(heard: Option<Outcome>) -> bool {
    matches!(heard, None | Some(Outcome::Busy))
}

/// Returns what a participant shows if its LRA wants to close.
fn closed_status(one: &Participant) -> MemberStatus {
    if one.links.complete().is_none() {
        return MemberStatus::Completed;
    }
    match one.completed {
        Some(Outcome::Done) => MemberStatus::Completed,
        Some(Outcome::Failed) => MemberStatus::FailedToComplete,
        _ => MemberStatus::Completing,
    }
}

/// Returns what a participant shows if its LRA wants to cancel.
fn cancelled_status(one: &Participant) -> MemberStatus {
    if one.links.compensate().is_none() {
        return MemberStatus::Compensated;
    }
    match one.compensated {
        Some(Outcome::Done) => MemberStatus::Compensated,
        Some(Outcome::Failed) => MemberStatus::FailedToCompensate,
        _ => MemberStatus::Compensating,
    }
}

/// Returns what a participant shows if its LRA wants this.
fn status_of(one: &Participant, want: Option<Verdict>) -> MemberStatus {
    match want {
        None => MemberStatus::Active,
        Some(Verdict::Close) => closed_status(one),
        Some(Verdict::Cancel) => cancelled_status(one),
    }
}

/// Returns how a participant is called that has to do an act: for its status, if it was busy and
/// gave a link for that.
fn kind_of(one: &Participant, act: Act) -> Kind {
    let (heard, kind) = match act {
        Act::Complete => (one.completed, Kind::Complete),
        Act::Compensate => (one.compensated, Kind::Compensate),
    };
    if heard == Some(Outcome::Busy) && one.links.status().is_some() {
        Kind::Status
    } else {
        kind
    }
}

/// Whether a participant has the link and its act is neither done nor failed.
fn is_to_complete(one: &Participant) -> bool {
    one.links.complete().is_some() && is_pending(one.completed)
}

fn is_to_compensate(one: &Participant) -> bool {
    one.links.compensate().is_some() && is_pending(one.compensated)
}

/// Returns the number of the member at a place.
fn number_at(place: usize) -> u8 {
    u8::try_from(place.saturating_add(1)).unwrap_or(u8::MAX)
}

/// Returns the greater of the outcome before and the outcome now.
fn greater(before: Option<Outcome>, now: Outcome) -> Option<Outcome> {
    before.max(Some(now))
}

/// Whether an LRA has one of these numbers.
fn is_among(lra: &ModelLra, numbers: &[u64]) -> bool {
    numbers.contains(&lra.id.num())
}

/// Returns the place of a home's LRAs.
fn slot_of(home: NodeId) -> usize {
    usize::from(home.number()).saturating_sub(1)
}

impl Model {
    /// Makes the model without any facts.
    pub fn new(alloc: Global, nodes: u8) -> Result<Model, Halt> {
        let mut homes = Vec::new(alloc);
        for _ in 0..nodes {
            homes.push(Vec::new(alloc))?;
        }
        Ok(Model { alloc, homes })
    }

    fn home(&self, home: NodeId) -> &[ModelLra] {
        match self.homes.get(slot_of(home)) {
            Some(lras) => lras.as_slice(),
            None => &[],
        }
    }

    /// Returns the place in a home's list of the LRA with this number, or where it would be.
    fn place(&self, home: NodeId, num: u64) -> usize {
        self.home(home).partition_point(|lra| lra.id.num() < num)
    }

    /// Returns the LRA with this number at a home.
    fn numbered(&self, home: NodeId, num: u64) -> Option<&ModelLra> {
        let Some(lra) = self.home(home).get(self.place(home, num)) else {
            return None;
        };
        if lra.id.num() == num { Some(lra) } else { None }
    }

    fn lra(&self, id: LraId) -> Option<&ModelLra> {
        self.numbered(id.home(), id.num())
    }

    fn lra_mut(&mut self, id: LraId) -> Option<&mut ModelLra> {
        if self.lra(id).is_none() {
            return None;
        }
        let place = self.place(id.home(), id.num());
        let Some(home) = self.homes.get_mut(slot_of(id.home())) else {
            return None;
        };
        home.get_mut(place)
    }

    fn add_member(&mut self, id: LraId, member: Member) -> Result<(), Halt> {
        if let Some(lra) = self.lra_mut(id) {
            lra.members.push(member)?;
        }
        Ok(())
    }

    fn add_lra(&mut self, id: LraId, parent: Option<u64>, deadline: u64) -> Result<(), Halt> {
        let members = Vec::new(self.alloc);
        let Some(home) = self.homes.get_mut(slot_of(id.home())) else {
            return Err(Halt::Stuck("no such home"));
        };
        home.push(ModelLra {
            id,
            parent,
            deadline,
            decision: None,
            members,
        })?;
        Ok(())
    }

    /// Adds an LRA. If its parent isn't held, the LRA isn't held either.
    fn begin(&mut self, id: LraId, parent: Option<LraId>, deadline: u64) -> Result<(), Halt> {
        let Some(above) = parent else {
            return self.add_lra(id, None, deadline);
        };
        if self.lra(above).is_none() {
            return Ok(());
        }
        self.add_member(above, Member::Nested(id.num()))?;
        self.add_lra(id, Some(above.num()), deadline)
    }

    fn join(&mut self, id: LraId, links: &Links) -> Result<(), Halt> {
        let links = links.clone()?;
        let (completed, compensated, forgotten, told) = (None, None, false, false);
        self.add_member(
            id,
            Member::Participant(Participant {
                links,
                completed,
                compensated,
                forgotten,
                told,
            }),
        )
    }

    fn decide(&mut self, id: LraId, verdict: Verdict) {
        if let Some(lra) = self.lra_mut(id) {
            lra.decision = Some(verdict);
        }
    }

    /// Returns the numbers of a root and of all LRAs under it.
    fn numbers_under(&self, root: LraId) -> Result<Vec<u64>, Halt> {
        let mut numbers = Vec::new(self.alloc);
        for lra in self.home(root.home()) {
            if self.root(lra).id == root {
                numbers.push(lra.id.num())?;
            }
        }
        Ok(numbers)
    }

    /// Purges a root: neither it nor what is nested in it is held any more.
    fn purge(&mut self, root: LraId) -> Result<(), Halt> {
        let gone = self.numbers_under(root)?;
        if let Some(home) = self.homes.get_mut(slot_of(root.home())) {
            home.retain(|lra| !is_among(lra, &gone));
        }
        Ok(())
    }

    fn member_mut(&mut self, id: LraId, member: u8) -> Option<&mut Member> {
        let place = usize::from(member).checked_sub(1)?;
        let Some(lra) = self.lra_mut(id) else {
            return None;
        };
        lra.members.get_mut(place)
    }

    fn participant_mut(&mut self, id: LraId, member: u8) -> Option<&mut Participant> {
        let Some(slot) = self.member_mut(id, member) else {
            return None;
        };
        match slot {
            Member::Participant(one) => Some(one),
            _ => None,
        }
    }

    fn leave(&mut self, id: LraId, member: u8) {
        if let Some(slot) = self.member_mut(id, member) {
            *slot = Member::Left;
        }
    }

    fn hear(&mut self, id: LraId, member: u8, act: Act, outcome: Outcome) {
        if let Some(one) = self.participant_mut(id, member) {
            match act {
                Act::Complete => one.completed = greater(one.completed, outcome),
                Act::Compensate => one.compensated = greater(one.compensated, outcome),
            }
        }
    }

    fn note_forgotten(&mut self, id: LraId, member: u8) {
        if let Some(one) = self.participant_mut(id, member) {
            one.forgotten = true;
        }
    }

    fn note_told(&mut self, id: LraId, member: u8) {
        if let Some(one) = self.participant_mut(id, member) {
            one.told = true;
        }
    }

    /// Adds a fact.
    pub fn learn(&mut self, fact: &Fact) -> Result<(), Halt> {
        match &fact.body {
            Body::Begin { parent, deadline } => {
                let id = LraId::new(fact.origin, fact.num)?;
                self.begin(id, *parent, *deadline)?;
            }
            Body::Join {
                id,
                member: _,
                links,
            } => self.join(*id, links)?,
            Body::Decide { id, verdict } => self.decide(*id, *verdict),
            Body::Purge { root } => self.purge(*root)?,
            Body::Leave { id, member } => self.leave(*id, *member),
            Body::Report {
                id,
                member,
                act,
                outcome,
            } => self.hear(*id, *member, *act, *outcome),
            Body::Forgot { id, member } => self.note_forgotten(*id, *member),
            Body::Told { id, member } => self.note_told(*id, *member),
        }
        Ok(())
    }

    fn parent(&self, lra: &ModelLra) -> Option<&ModelLra> {
        self.numbered(lra.id.home(), lra.parent?)
    }

    fn root<'m>(&'m self, lra: &'m ModelLra) -> &'m ModelLra {
        let mut top = lra;
        for _ in 0..LEVELS {
            let Some(above) = self.parent(top) else {
                return top;
            };
            top = above;
        }
        top
    }

    /// Whether an LRA or one above it has this decision.
    fn is_decided(&self, lra: &ModelLra, verdict: Verdict) -> bool {
        let mut one = lra;
        for _ in 0..LEVELS {
            if one.decision == Some(verdict) {
                return true;
            }
            let Some(above) = self.parent(one) else {
                return false;
            };
            one = above;
        }
        false
    }

    fn want(&self, lra: &ModelLra) -> Option<Verdict> {
        if self.is_decided(lra, Verdict::Cancel) {
            Some(Verdict::Cancel)
        } else if self.is_decided(lra, Verdict::Close) {
            Some(Verdict::Close)
        } else {
            None
        }
    }

    /// Whether a participant under an LRA shows one of these, down to this depth.
    fn shows_under(&self, lra: &ModelLra, wanted: &[MemberStatus], levels: u8) -> bool {
        if levels == 0 {
            return false;
        }
        let want = self.want(lra);
        for member in lra.members.iter() {
            let shows = match member {
                Member::Participant(one) => wanted.contains(&status_of(one, want)),
                Member::Nested(num) => match self.numbered(lra.id.home(), *num) {
                    Some(inner) => self.shows_under(inner, wanted, levels - 1),
                    None => false,
                },
                Member::Left => false,
            };
            if shows {
                return true;
            }
        }
        false
    }

    fn is_unsettled(&self, lra: &ModelLra) -> bool {
        let open = [
            MemberStatus::Active,
            MemberStatus::Completing,
            MemberStatus::Compensating,
        ];
        self.shows_under(lra, &open, LEVELS)
    }

    fn shows(&self, lra: &ModelLra, wanted: MemberStatus) -> bool {
        self.shows_under(lra, &[wanted], LEVELS)
    }

    fn closing_status(&self, lra: &ModelLra) -> LraStatus {
        if self.is_unsettled(lra) {
            LraStatus::Closing
        } else if self.shows(lra, MemberStatus::FailedToComplete) {
            LraStatus::FailedToClose
        } else {
            LraStatus::Closed
        }
    }

    fn cancelling_status(&self, lra: &ModelLra) -> LraStatus {
        if self.is_unsettled(lra) {
            LraStatus::Cancelling
        } else if self.shows(lra, MemberStatus::FailedToCompensate) {
            LraStatus::FailedToCancel
        } else {
            LraStatus::Cancelled
        }
    }

    fn status(&self, lra: &ModelLra) -> LraStatus {
        match self.want(lra) {
            None => LraStatus::Active,
            Some(Verdict::Close) => self.closing_status(lra),
            Some(Verdict::Cancel) => self.cancelling_status(lra),
        }
    }

    /// Returns what an LRA shows, if it is held.
    pub fn shown_of(&self, id: LraId) -> Option<LraStatus> {
        match self.lra(id) {
            Some(lra) => Some(self.status(lra)),
            None => None,
        }
    }

    /// Returns all LRAs of the tree that an LRA is in, if it is held. These are the LRAs whose
    /// statuses can change by a fact about it.
    pub fn tree(&self, id: LraId) -> Result<Vec<LraId>, Halt> {
        let mut ids = Vec::new(self.alloc);
        let Some(lra) = self.lra(id) else {
            return Ok(ids);
        };
        self.add_tree(self.root(lra), LEVELS, &mut ids)?;
        Ok(ids)
    }

    fn add_tree(&self, lra: &ModelLra, levels: u8, ids: &mut Vec<LraId>) -> Result<(), Halt> {
        ids.push(lra.id)?;
        if levels == 0 {
            return Ok(());
        }
        for member in lra.members.iter() {
            if let Member::Nested(num) = member {
                if let Some(inner) = self.numbered(lra.id.home(), *num) {
                    self.add_tree(inner, levels - 1, ids)?;
                }
            }
        }
        Ok(())
    }

    fn is_late(&self, lra: &ModelLra, now: u64) -> bool {
        lra.deadline != 0 && lra.deadline <= now && self.want(lra).is_none()
    }

    /// Whether an LRA is overdue at a moment.
    pub fn is_overdue(&self, id: LraId, now: u64) -> bool {
        match self.lra(id) {
            Some(lra) => self.is_late(lra, now),
            None => false,
        }
    }

    /// Returns the LRA that is the first to be cancelled for its deadline.
    pub fn first_overdue(&self, home: NodeId, now: u64) -> Option<LraId> {
        for lra in self.home(home) {
            if self.is_late(lra, now) {
                return Some(lra.id);
            }
        }
        None
    }

    /// Returns how many member numbers an LRA has given out.
    pub fn members(&self, id: LraId) -> usize {
        match self.lra(id) {
            Some(lra) => lra.members.len(),
            None => 0,
        }
    }

    /// Whether an LRA is ended.
    fn is_ended(&self, lra: &ModelLra) -> bool {
        self.want(lra).is_some() && !self.is_unsettled(lra)
    }

    /// Whether a record agrees with what is known about an LRA.
    pub fn is_record(&self, id: LraId, record: &Record) -> bool {
        let Some(lra) = self.lra(id) else {
            return false;
        };
        lra.deadline == record.deadline
            && lra.parent == record.parent.map(|place| place.number)
            && lra.decision == record.decision
            && lra.members.as_slice() == record.members.as_slice()
    }

    /// Returns the last participant under a cancelled LRA that has to compensate, down to this
    /// depth. It is the first to be called.
    fn last_pending(&self, lra: &ModelLra, levels: u8) -> Option<DueCall> {
        if levels == 0 {
            return None;
        }
        for (place, member) in lra.members.iter().enumerate().rev() {
            let due = match member {
                Member::Nested(num) => match self.numbered(lra.id.home(), *num) {
                    Some(inner) => self.last_pending(inner, levels - 1),
                    None => None,
                },
                Member::Participant(one) => compensation_of(lra, one, place),
                Member::Left => None,
            };
            if due.is_some() {
                return due;
            }
        }
        None
    }

    fn is_to_be_completed(&self, lra: &ModelLra, one: &Participant) -> bool {
        is_to_complete(one) && self.want(lra) == Some(Verdict::Close)
    }

    fn is_to_forget(&self, lra: &ModelLra, one: &Participant) -> bool {
        if one.forgotten || one.links.forget().is_none() || !self.is_ended(self.root(lra)) {
            return false;
        }
        match status_of(one, self.want(lra)) {
            MemberStatus::FailedToComplete | MemberStatus::FailedToCompensate => true,
            MemberStatus::Completed => lra.parent.is_some(),
            _ => false,
        }
    }

    fn is_to_be_told(&self, lra: &ModelLra, one: &Participant) -> bool {
        if one.told || one.links.after().is_none() || !self.is_ended(lra) {
            return false;
        }
        self.want(lra) == Some(Verdict::Cancel) || self.want(self.root(lra)).is_some()
    }

    /// Returns what is due for a participant, except to compensate.
    fn due_of(&self, lra: &ModelLra, one: &Participant, wanted: Kind) -> Option<Kind> {
        let is_due = match wanted {
            Kind::Complete => self.is_to_be_completed(lra, one),
            Kind::Forget => self.is_to_forget(lra, one),
            Kind::After => self.is_to_be_told(lra, one),
            Kind::Compensate | Kind::Status => false,
        };
        if !is_due {
            return None;
        }
        Some(if wanted == Kind::Complete {
            kind_of(one, Act::Complete)
        } else {
            wanted
        })
    }

    /// Whether no participant under an LRA still has to forget or to be notified of the end, down
    /// to this depth.
    fn is_free(&self, lra: &ModelLra, levels: u8) -> bool {
        if levels == 0 {
            return false;
        }
        for member in lra.members.iter() {
            let is_free = match member {
                Member::Nested(num) => match self.numbered(lra.id.home(), *num) {
                    Some(inner) => self.is_free(inner, levels - 1),
                    None => false,
                },
                Member::Participant(one) => {
                    (one.told || one.links.after().is_none()) && !self.is_to_forget(lra, one)
                }
                Member::Left => true,
            };
            if !is_free {
                return false;
            }
        }
        true
    }

    /// Whether a root may be purged.
    pub fn may_be_purged(&self, root: LraId) -> bool {
        match self.lra(root) {
            Some(lra) => lra.parent.is_none() && self.is_ended(lra) && self.is_free(lra, LEVELS),
            None => false,
        }
    }

    fn add_dues(&self, lra: &ModelLra, wanted: Kind, dues: &mut Vec<DueCall>) -> Result<(), Halt> {
        for (place, member) in lra.members.iter().enumerate() {
            if let Member::Participant(one) = member {
                if let Some(kind) = self.due_of(lra, one, wanted) {
                    dues.push(DueCall {
                        kind,
                        id: lra.id,
                        member: number_at(place),
                    })?;
                }
            }
        }
        Ok(())
    }

    /// Whether an LRA itself is cancelled and none above it is.
    fn is_topmost_cancelled(&self, lra: &ModelLra) -> bool {
        if lra.decision != Some(Verdict::Cancel) {
            return false;
        }
        match self.parent(lra) {
            Some(above) => !self.is_decided(above, Verdict::Cancel),
            None => true,
        }
    }

    fn add_compensation(&self, lra: &ModelLra, dues: &mut Vec<DueCall>) -> Result<(), Halt> {
        if !self.is_topmost_cancelled(lra) {
            return Ok(());
        }
        if let Some(due) = self.last_pending(lra, LEVELS) {
            dues.push(due)?;
        }
        Ok(())
    }

    fn add_all_dues(
        &self,
        home: NodeId,
        wanted: Kind,
        dues: &mut Vec<DueCall>,
    ) -> Result<(), Halt> {
        for lra in self.home(home) {
            if wanted == Kind::Compensate {
                self.add_compensation(lra, dues)?;
            } else {
                self.add_dues(lra, wanted, dues)?;
            }
        }
        Ok(())
    }

    /// Returns which participants a home has to call, in order.
    pub fn dues(&self, home: NodeId) -> Result<Vec<DueCall>, Halt> {
        let mut dues = Vec::new(self.alloc);
        for wanted in [Kind::Complete, Kind::Compensate, Kind::Forget, Kind::After] {
            self.add_all_dues(home, wanted, &mut dues)?;
        }
        Ok(dues)
    }
}

/// Returns the call with which a participant is to compensate, if it is.
fn compensation_of(lra: &ModelLra, one: &Participant, place: usize) -> Option<DueCall> {
    if !is_to_compensate(one) {
        return None;
    }
    Some(DueCall {
        kind: kind_of(one, Act::Compensate),
        id: lra.id,
        member: number_at(place),
    })
}
