// What the participants of a home's LRAs are due to do or to be told.
ghost use Rattle.std.specs.Prelude.{◌≡◌, ◌≤◌, IfOk, length};
ghost use Rattle.std.specs.Option.{option_copied};
ghost use Rattle.state_facts.specs.Duties.{is_after_duty, is_compensation_due, is_forget_duty};
ghost use Rattle.state_forest.specs.Dues.{AreAll, IsDueAt, is_before, is_complete_duty, is_topmost_before};
ghost use Rattle.state_forest.specs.Participants.{parent_held, participant_of};
ghost use Rattle.state_replica.specs.Replicas.{view_of};
ghost use Rattle.state_replica.specs.ViewDues.{compensations_of, completions_of, forgets_of, hearings_of, parent_in, participant_in};
ghost use Rattle.theory_history.specs.Readings.{by_view};
ghost use Rattle.theory_history.specs.Views.{OfItsSet};

use crate::Replica;
use state_forest::{Due, Participant};
use state_ids::{LraId, NodeId};
use std::alloc::{AllocError, Global};

impl Replica {
    /// Returns the compensations that are due in LRAs of a home: at most one under each topmost
    /// cancelled LRA, by its number.
    pub fn next_compensations(&self, alloc: Global, me: NodeId) -> Result<Vec<Due>, AllocError>
        requires { me ≤ length self.now.front }
        ensures says { IfOk result (λ dues. dues.items ≡ compensations_of (view_of self.now) me) }
        ensures settled { OfItsSet (view_of self.now) (λ S. IfOk result
            (λ dues. AreAll (IsDueAt me S is_compensation_due) (is_topmost_before S) dues.items)) }
    {
        match self.home(me) {
            Some(records) => records.next_compensations(alloc),
            None => Ok(Vec::new(alloc)),
        }
    }

    /// Returns the participants in LRAs of a home that are to be called to complete, by LRA and
    /// member number.
    pub fn complete_duties(&self, alloc: Global, me: NodeId) -> Result<Vec<Due>, AllocError>
        requires { me ≤ length self.now.front }
        ensures says { IfOk result (λ dues. dues.items ≡ completions_of (view_of self.now) me) }
        ensures settled { OfItsSet (view_of self.now) (λ S. IfOk result
            (λ dues. AreAll (IsDueAt me S is_complete_duty) is_before dues.items)) }
    {
        match self.home(me) {
            Some(records) => records.complete_duties(alloc),
            None => Ok(Vec::new(alloc)),
        }
    }

    /// Returns the participants in LRAs of a home that are to be told that they may forget, by LRA
    /// and member number.
    pub fn forget_duties(&self, alloc: Global, me: NodeId) -> Result<Vec<Due>, AllocError>
        requires { me ≤ length self.now.front }
        ensures says { IfOk result (λ dues. dues.items ≡ forgets_of (view_of self.now) me) }
        ensures settled { OfItsSet (view_of self.now)
            (λ S. IfOk result (λ dues. AreAll (IsDueAt me S is_forget_duty) is_before dues.items)) }
    {
        match self.home(me) {
            Some(records) => records.forget_duties(alloc),
            None => Ok(Vec::new(alloc)),
        }
    }

    /// Returns the participants in LRAs of a home that are to be told that these LRAs have ended,
    /// by LRA and member number.
    pub fn after_duties(&self, alloc: Global, me: NodeId) -> Result<Vec<Due>, AllocError>
        requires { me ≤ length self.now.front }
        ensures says { IfOk result (λ dues. dues.items ≡ hearings_of (view_of self.now) me) }
        ensures settled { OfItsSet (view_of self.now)
            (λ S. IfOk result (λ dues. AreAll (IsDueAt me S is_after_duty) is_before dues.items)) }
    {
        match self.home(me) {
            Some(records) => records.after_duties(alloc),
            None => Ok(Vec::new(alloc)),
        }
    }

    /// Returns the LRA's participant with this member number, if the LRA is held and has one.
    pub fn participant(&self, id: LraId, member: u8) -> Option<&Participant>
        ensures says { option_copied result ≡ participant_in (view_of self.now) id member }
        ensures settled { OfItsSet (view_of self.now)
            (λ S. option_copied result ≡ participant_of S id member) }
    {
        match self.home_of(id) {
            Ok(records) => records.participant(id, member),
            Err(_) => None,
        }
    }

    /// Returns the parent of an LRA, if the LRA is held and nested.
    pub fn parent(&self, id: LraId) -> Option<LraId>
        ensures says { result ≡ parent_in (view_of self.now) id }
        ensures settled { OfItsSet (view_of self.now) (λ S. result ≡ parent_held S id) }
    {
        match self.home_of(id) {
            Ok(records) => records.parent(id),
            Err(_) => None,
        }
    }
}
