// What a node holds.
ghost use Rattle.std.specs.Prelude.{◌≡◌, ◌≤◌, ◌<◌, ◌-◌, ◌⊎◌, ◌↔◌, List, Err, None, if◌then◌else◌, IfOk, IfErr, IfSome, IsSome, OnErr, length, slice_get};
ghost use Rattle.std.specs.Option.{option_copied};
ghost use Rattle.state_ids.specs.declared.TheConstants.{MAX_NODES};
ghost use Rattle.state_facts.specs.declared.fact.Fact.{Fact};
ghost use Rattle.state_facts.specs.declared.refusal.Refusal.TheVariants.{BadText, NoMemory, NotHeld};
ghost use Rattle.state_facts.specs.Sets.{is_held, want};
ghost use Rattle.state_forest.specs.Overdue.{IsLeastOverdue};
ghost use Rattle.state_forest.specs.Participants.{answered_of};
ghost use Rattle.state_forest.specs.Statuses.{known};
ghost use Rattle.state_forest.specs.Standing.{Stands, answered};
ghost use Rattle.theory_history.specs.Next.{member_shown_on, overdue_on, shown_on};
ghost use Rattle.theory_history.specs.Replies.{member_shown, shown_of};
ghost use Rattle.theory_history.specs.Readings.{by_view};
ghost use Rattle.state_stamps.specs.declared.stamp_entry.StampEntry.{StampEntry as EntryFields};
ghost use Rattle.state_stamps.specs.Entries.{In, id_of};
ghost use Rattle.state_stamps.specs.Indexes.{stamp_at};
ghost use Rattle.state_replica.specs.Replicas.{AreEmptyHomes, IsReplicaState, stamps_of, view_of};
ghost use Rattle.theory_history.specs.Views.{OfItsSet, empty_view, StandsFor, record_at, records_at};

use state_facts::Refusal;
use state_forest::{Forest, Record};
use state_ids::{Act, Front, LraId, LraStatus, MAX_NODES, MemberStatus, NodeId, Outcome, Verdict};
use state_stamps::{Index, StampEntry};
use std::alloc::{AllocError, Global};
use std::marker::Model;

/// The number of nodes of which the index has stamps: as many as there can be.
const ORIGINS: usize = MAX_NODES as usize;

/// What a node holds: a front, the last purge of each home, a record of each LRA that is held, and
/// an index of the records' stamps.
#[derive(Debug, Drop)]
pub struct Replica {
    pub(crate) front: Front,
    pub(crate) purges: Front,
    pub(crate) homes: Vec<Forest>,
    pub(crate) index: Index,
}

impl Model for Replica {
    ghost use Rattle.state_replica.specs.Replicas.{ReplicaState, IsReplicaState};

    ghost Value = { ReplicaState };

    ghost view = { λ r. record {
      front = r.front;
      purges = r.purges;
      homes = r.homes.items;
      index = r.index;
    } };

    ghost invariant = { λ r. IsReplicaState (record {
      front = r.front;
      purges = r.purges;
      homes = r.homes.items;
      index = r.index;
    }) };
}

/// Makes the homes of this many nodes, without records.
fn empty_homes(alloc: Global, nodes: usize) -> Result<Vec<Forest>, AllocError>
    requires { nodes ≤ MAX_NODES }
    ensures { IfOk result (λ homes. AreEmptyHomes nodes homes.items) }
{
    let mut homes = Vec::new(alloc);
    for place in 0..nodes {
        let Ok(home) = NodeId::new(place as u8 + 1) else {
            unreachable!();
        };
        homes.push(Forest::new(alloc, home))?;
    }
    Ok(homes)
}

impl Replica {
    /// Makes the replica of a node without facts, for 1 to 8 nodes. Any other number of nodes is
    /// E1.
    pub fn new(alloc: Global, nodes: usize) -> Result<Replica, Refusal>
        ensures empty { IfOk result (λ replica. view_of replica ≡ empty_view nodes) }
        ensures refused { result ≡ Err BadText ↔ ((nodes < 1) ⊎ (MAX_NODES < nodes)) }
        ensures cause { IfErr result (λ refusal. (refusal ≡ BadText) ⊎ (refusal ≡ NoMemory)) }
    {
        if nodes < 1 || nodes > usize::from(MAX_NODES) {
            return Err(Refusal::BadText);
        }
        Ok(Replica {
            front: Front::zero(nodes),
            purges: Front::zero(nodes),
            homes: empty_homes(alloc, nodes)?,
            index: Index::new(alloc, ORIGINS)?,
        })
    }

    /// Returns the number of each node's facts that this node has.
    pub fn front(&self) -> Front
        ensures { result ≡ self.now.front }
    {
        self.front
    }

    /// Returns the number of each home's last purge.
    pub fn purges(&self) -> Front
        ensures value { result ≡ self.now.purges }
        ensures nodes { length result ≡ length self.now.front }
    {
        self.purges
    }

    /// Returns the records of each home, the first node's first.
    pub fn homes(&self) -> &[Forest]
        ensures homes { result.now ≡ self.now.homes }
        ensures state { IsReplicaState self.now }
    {
        &self.homes
    }

    fn home_at(&self, home: NodeId) -> Option<&Forest>
        ensures place { option_copied result ≡ slice_get self.now.homes (home - 1) }
        ensures some { 1 ≤ home }
        ensures there { home ≤ length self.now.front → IsSome result }
        ensures state { IsReplicaState self.now }
    {
        self.homes.get(usize::from(home.number()) - 1)
    }

    /// Returns the records of a home, if there is such a node.
    pub(crate) fn home(&self, home: NodeId) -> Option<&Forest>
        ensures place { option_copied result ≡ slice_get self.now.homes (home - 1) }
        ensures some { 1 ≤ home }
        ensures found { IfSome result (λ found. found.now.home ≡ home) }
        ensures there { home ≤ length self.now.front → IsSome result }
        ensures state { IsReplicaState self.now }
    {
        self.home_at(home)
    }

    /// Returns the records of an LRA's home.
    pub(crate) fn home_of(&self, id: LraId) -> Result<&Forest, Refusal>
        ensures records { IfOk result
            (λ home. home.now.records ≡ records_at (view_of self.now).records id.home) }
        ensures stands { IfOk result (λ home. (S : List Fact) → StandsFor S (view_of self.now) →
            Stands (length self.now.front) id.home S home.now.records) }
        ensures nowhere { OnErr result (record_at (view_of self.now) id ≡ None) }
        ensures refused { IfErr result (λ refusal. refusal ≡ NotHeld) }
    {
        match self.home(id.home()) {
            Some(home) => Ok(home),
            None => Err(Refusal::NotHeld),
        }
    }

    /// Returns what an LRA wants, if it is held.
    pub fn want(&self, id: LraId) -> Result<Option<Verdict>, Refusal>
        ensures says { let t = by_view (view_of self.now)
            in result ≡ answered (t.held id) (t.want id) }
        ensures answer { OfItsSet (view_of self.now)
            (λ S. result ≡ answered (is_held S id) (want S id)) }
    {
        self.home_of(id)?.want(id)
    }

    /// Returns the status of an LRA, if it is held.
    pub fn shown(&self, id: LraId) -> Result<LraStatus, Refusal>
        ensures { let t = by_view (view_of self.now) in result ≡ answered (t.held id) (t.shows id) }
    {
        self.home_of(id)?.status(id)
    }

    /// Returns the LRA with the least number among those of a home that want nothing and whose
    /// deadline has passed. It looks at each of the home's records once.
    pub fn expire(&self, me: NodeId, now: u64) -> Option<LraId>
        requires { me ≤ length self.now.front }
        ensures next { result ≡ overdue_on (view_of self.now) me now }
        ensures settled { OfItsSet (view_of self.now) (λ S. IsLeastOverdue S me now result) }
    {
        match self.home(me) {
            Some(records) => records.overdue(now),
            None => None,
        }
    }

    /// Returns the stamps of a node that are greater than a count, each with the LRA whose record
    /// has it. Callers may not rely on their order. It finds the first by binary search.
    pub fn beyond(&self, origin: NodeId, count: u64) -> &[StampEntry]
        ensures { (e : EntryFields) → In e result.now ↔ ((count < e.stamp)
            × (stamp_at (stamps_of (view_of self.now) (id_of e)) origin ≡ e.stamp)) }
    {
        origin.is_a_node();
        self.index.beyond(origin, count)
    }

    /// Returns the record of an LRA.
    pub(crate) fn record(&self, id: LraId) -> Option<&Record>
        ensures found { option_copied result ≡ record_at (view_of self.now) id }
        ensures home { IfSome result (λ found. (found.now.home ≡ id.home)
            × (id.home ≤ length self.now.front)) }
    {
        match self.home(id.home()) {
            Some(home) => home.get(id),
            None => None,
        }
    }

    /// Returns the status of an LRA: E2 if the front doesn't reach its id, E3 if no LRA with the id
    /// is held. Like `Forest::ended`, it looks up the records of the LRAs above it and of those
    /// nested in it.
    pub fn status(&self, id: LraId) -> Result<LraStatus, Refusal>
        ensures next { result ≡ shown_on (view_of self.now) id }
        ensures settled { OfItsSet (view_of self.now) (λ S. result ≡ shown_of S self.now.front id) }
    {
        if !self.front().covers(id) {
            return Err(Refusal::UnknownLra);
        }
        self.shown(id)
    }

    /// Returns the status of a participant: E2 and E3 as for `status`, E5 if no participant has the
    /// number. It looks up the records of the LRA and of those above it.
    pub fn member(&self, id: LraId, member: u8) -> Result<MemberStatus, Refusal>
        ensures next { result ≡ member_shown_on (view_of self.now) id member }
        ensures settled { OfItsSet (view_of self.now)
            (λ S. result ≡ member_shown S self.now.front id member) }
    {
        if !self.front().covers(id) {
            return Err(Refusal::UnknownLra);
        }
        self.home_of(id)?.member_status(id, member)
    }
}
