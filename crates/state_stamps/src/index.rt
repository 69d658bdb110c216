// The index that finds records by their stamps.
ghost use Rattle.std.specs.Prelude.{◌≡◌, ◌+◌, ◌≤◌, ◌<◌, ◌↔◌, ℕ, List, [], IfOk, IfSome, IsSome, None, Option, OnOk, filter, length, nat_lt, replicate};
ghost use Rattle.state_ids.specs.declared.TheConstants.{MAX_NODES};
ghost use Rattle.state_ids.specs.Ids.{Id};
ghost use Rattle.state_stamps.specs.declared.stamp_entry.StampEntry.{StampEntry as Fields};
ghost use Rattle.state_stamps.specs.Entries.{In, id_of};
ghost use Rattle.state_stamps.specs.Indexes.{AreIndexesOf, AreRestamped, AreReserved, at_place, entries_at, stamp_at, with_stamps};

use crate::StampEntry;
use crate::origin::Origin;
use state_ids::{Front, NodeId};
use std::alloc::{AllocError, Global};
use std::marker::Model;

/// For each node, the stamps that the records of LRAs have of it, each with its LRA, in order. The
/// invariant doesn't bound a record's stamps, because there are always eight origins, whatever the
/// number of nodes.
#[derive(Debug, Drop)]
pub struct Index {
    origins: Vec<Origin>,
}

impl Model for Index {
    ghost use Rattle.state_stamps.specs.Indexes.{HeldIndex, entries_of, least_spare};

    ghost Value = { HeldIndex };

    ghost view = { λ x. record {
      origins = entries_of x.origins.items;
      spare = least_spare x.origins.items;
    } };
}

impl Clone for Index {
    ghost is_clone = { λ x y. y.origins ≡ x.origins };

    fn clone(&self) -> Result<Index, AllocError> {
        Ok(Index {
            origins: self.origins.clone()?,
        })
    }
}

/// Returns the stamp of the node at a place, or 0 if there is none.
fn stamp_at(stamps: &Option<Front>, place: usize) -> u64
    ensures { result ≡ stamp_at stamps.now (place + 1) }
{
    let Some(front) = stamps else {
        return 0;
    };
    match front.as_slice().get(place) {
        Some(stamp) => *stamp,
        None => 0,
    }
}

/// Tells the prover that a front counts at most eight nodes.
fn are_few(stamps: &Option<Front>)
    ensures { IfSome stamps.now (λ v. length v ≤ MAX_NODES) }
{
    if let Some(front) = stamps {
        let _ = front.nodes();
    }
}

fn reserve_each(origins: &mut Vec<Origin>, more: usize) -> Result<(), AllocError>
    ensures kept { AreReserved 0 origins.old.items origins.new.items }
    ensures ok { OnOk result (AreReserved more origins.old.items origins.new.items) }
{
    for place in 0..origins.len() {
        origins[place].reserve(more)?;
    }
    Ok(())
}

fn reindex_each(
    origins: &mut Vec<Origin>,
    home: NodeId,
    num: u64,
    was: &Option<Front>,
    now: &Option<Front>,
)
    requires { (k : ℕ) → k < length origins.old.items → 0 < stamp_at now.now (k + 1) →
        1 ≤ (at_place origins.old.items k).spare }
    ensures { AreRestamped (record { home = home; num = num })
        was.now now.now origins.old.items origins.new.items }
{
    for place in 0..origins.len() {
        origins[place].reindex(home, num, stamp_at(was, place), stamp_at(now, place));
    }
}

impl Index {
    /// Returns an index of this many nodes without entries.
    pub fn new(alloc: Global, nodes: usize) -> Result<Index, AllocError>
        ensures origins { IfOk result (λ index. index.origins ≡ replicate nodes []) }
        ensures empty { IfOk result (λ index. AreIndexesOf index.origins (λ _. None)) }
    {
        let mut origins = Vec::new(alloc);
        for place in 0..nodes {
            origins.push(Origin::new(alloc))?;
        }
        Ok(Index { origins })
    }

    /// Reserves memory for this many more entries of each node.
    pub fn reserve(&mut self, more: usize) -> Result<(), AllocError>
        ensures origins { self.new.origins ≡ self.old.origins }
        ensures ok { OnOk result (more ≤ self.new.spare) }
        ensures kept { self.old.spare ≤ self.new.spare }
    {
        reserve_each(&mut self.origins, more)
    }

    /// Removes the entries of the stamps that the record of an LRA had, and adds those of the
    /// stamps that it has now, at each node where the two differ. If there are stamps to add, there
    /// must be room for one more entry of each node. It takes no memory.
    pub fn reindex(&mut self, home: NodeId, num: u64, was: Option<Front>, now: Option<Front>)
        requires { IsSome now → 1 ≤ self.old.spare }
        ensures nodes { length self.new.origins ≡ length self.old.origins }
        ensures entries { let id : Id = record { home = home; num = num } in
            (known : Id → Option (List ℕ)) → AreIndexesOf self.old.origins known →
            known id ≡ was → AreIndexesOf self.new.origins (with_stamps id now known) }
        ensures spare { self.old.spare ≤ self.new.spare + 1 }
        ensures kept { now ≡ None → self.old.spare ≤ self.new.spare }
    {
        are_few(&now);
        reindex_each(&mut self.origins, home, num, &was, &now);
    }

    fn after(&self, origin: NodeId, count: u64) -> &[StampEntry]
        ensures entries { result.now
            ≡ filter (λ e. nat_lt count e.stamp) (entries_at self.now.origins origin) }
        ensures some { 1 ≤ origin }
    {
        match self.origins.get(usize::from(origin.number()) - 1) {
            Some(entries) => entries.beyond(count),
            None => &[],
        }
    }

    /// Returns the entries of a node whose stamps are greater than a count, in order, or none if
    /// there is no such node. It finds the first by binary search.
    pub fn beyond(&self, origin: NodeId, count: u64) -> &[StampEntry]
        ensures entries { result.now
            ≡ filter (λ e. nat_lt count e.stamp) (entries_at self.now.origins origin) }
        ensures changed { (known : Id → Option (List ℕ)) → AreIndexesOf self.now.origins known →
            origin ≤ length self.now.origins → (e : Fields) → In e result.now
            ↔ ((count < e.stamp) × (stamp_at (known (id_of e)) origin ≡ e.stamp)) }
    {
        self.after(origin, count)
    }
}
