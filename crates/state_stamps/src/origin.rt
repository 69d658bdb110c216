// The entries of one origin.
ghost use Rattle.std.specs.Prelude.{◌≡◌, ◌+◌, ◌≤◌, ◌<◌, [], OnOk, drop, filter, length, nat_lt, slice_get, vec_capacity, vec_len};
ghost use Rattle.state_ids.specs.Ids.{Id};
ghost use Rattle.state_stamps.specs.Entries.{IsRising, count_before, is_entry, put_entry, without};
ghost use Rattle.state_stamps.specs.Indexes.{IsRestamped, with_stamp, without_stamp};

use crate::StampEntry;
use crate::stamp_entry::{is_before, is_same};
use state_ids::NodeId;
use std::alloc::{AllocError, Global};
use std::marker::Model;

/// The entries of one node's stamps. They stand in one vector: at most 2,048 of 24 bytes, half of
/// which an insertion moves. Its room isn't given back.
#[derive(Debug, Drop)]
pub(crate) struct Origin {
    entries: Vec<StampEntry>,
}

impl Model for Origin {
    ghost use Rattle.std.specs.Prelude.{◌-◌, vec_capacity, vec_len};
    ghost use Rattle.state_stamps.specs.Entries.{IsRising};
    ghost use Rattle.state_stamps.specs.Indexes.{HeldEntries};

    ghost Value = { HeldEntries };

    ghost view = { λ o. record {
      entries = o.entries.items;
      spare = vec_capacity o.entries - vec_len o.entries;
    } };

    ghost invariant = { λ o. IsRising o.entries.items };
}

fn place_of(entries: &[StampEntry], entry: &StampEntry) -> usize
    requires { IsRising entries.now }
    ensures { result ≡ count_before entry.now entries.now }
{
    entries.partition_point(|found| is_before(found, entry))
}

fn stands_at(entries: &[StampEntry], place: usize, entry: &StampEntry) -> bool
    ensures { result ≡ is_entry entry.now (slice_get entries.now place) }
{
    match entries.get(place) {
        Some(found) => is_same(found, entry),
        None => false,
    }
}

#[tactic(auto, using(crate::proofs::Putting::put_there, crate::proofs::Putting::put_insert, crate::proofs::Places::place_length))]
fn put_among(entries: &mut Vec<StampEntry>, entry: StampEntry)
    requires order { IsRising entries.old.items }
    requires room { vec_len entries.old < vec_capacity entries.old }
    ensures items { entries.new.items ≡ put_entry entry entries.old.items }
    ensures capacity { vec_capacity entries.new ≡ vec_capacity entries.old }
    ensures len { vec_len entries.new ≤ vec_len entries.old + 1 }
{
    let place = place_of(entries, &entry);
    if !stands_at(entries, place, &entry) {
        let _ = entries.insert(place, entry);
    }
}

#[tactic(auto, using(crate::proofs::Removing::remove_there, crate::proofs::Removing::remove_none, crate::proofs::Places::entry_within))]
fn remove_among(entries: &mut Vec<StampEntry>, entry: &StampEntry)
    requires { IsRising entries.old.items }
    ensures items { entries.new.items ≡ without entry.now entries.old.items }
    ensures capacity { vec_capacity entries.new ≡ vec_capacity entries.old }
    ensures len { vec_len entries.new ≤ vec_len entries.old }
{
    let place = place_of(entries, entry);
    if stands_at(entries, place, entry) {
        let _ = entries.remove(place);
    }
}

/// Returns the number of entries whose stamp is at most this count.
fn count_to(entries: &[StampEntry], count: u64) -> usize
    requires { IsRising entries.now }
    ensures within { result ≤ length entries.now }
    ensures rest { drop result entries.now ≡ filter (λ e. nat_lt count e.stamp) entries.now }
{
    entries.partition_point(|entry| entry.stamp <= count)
}

impl Clone for Origin {
    ghost is_clone = { λ x y. y.entries ≡ x.entries };

    fn clone(&self) -> Result<Origin, AllocError> {
        Ok(Origin {
            entries: self.entries.clone()?,
        })
    }
}

impl Origin {
    pub(crate) fn new(alloc: Global) -> Origin
        ensures { result.entries ≡ [] }
    {
        Origin {
            entries: Vec::new(alloc),
        }
    }

    pub(crate) fn reserve(&mut self, more: usize) -> Result<(), AllocError>
        ensures entries { self.new.entries ≡ self.old.entries }
        ensures ok { OnOk result (more ≤ self.new.spare) }
        ensures kept { self.old.spare ≤ self.new.spare }
    {
        self.entries.reserve(more)
    }

    #[tactic(auto, using(crate::proofs::Putting::put_rises))]
    fn enter(&mut self, home: NodeId, num: u64, stamp: u64)
        requires { 0 < stamp → 1 ≤ self.old.spare }
        ensures entries { let id : Id = record { home = home; num = num }
            in self.new.entries ≡ with_stamp id stamp self.old.entries }
        ensures spare { self.old.spare ≤ self.new.spare + 1 }
        ensures kept { stamp ≡ 0 → self.old.spare ≤ self.new.spare }
    {
        if stamp > 0 {
            put_among(&mut self.entries, StampEntry { stamp, home, num });
        }
    }

    #[tactic(auto, using(crate::proofs::Removing::without_rises))]
    fn leave(&mut self, home: NodeId, num: u64, stamp: u64)
        ensures entries { let id : Id = record { home = home; num = num }
            in self.new.entries ≡ without_stamp id stamp self.old.entries }
        ensures spare { self.old.spare ≤ self.new.spare }
    {
        if stamp > 0 {
            remove_among(&mut self.entries, &StampEntry { stamp, home, num });
        }
    }

    /// Replaces one stamp of an LRA with another. A stamp of 0 has no entry.
    pub(crate) fn reindex(&mut self, home: NodeId, num: u64, was: u64, now: u64)
        requires { 0 < now → 1 ≤ self.old.spare }
        ensures { IsRestamped (record { home = home; num = num }) was now self.old self.new }
    {
        if was != now {
            self.leave(home, num, was);
            self.enter(home, num, now);
        }
    }

    /// Returns the entries with greater stamps, in order. It finds the first by binary search.
    pub(crate) fn beyond(&self, count: u64) -> &[StampEntry]
        ensures { result.now ≡ filter (λ e. nat_lt count e.stamp) self.now.entries }
    {
        beyond_among(&self.entries, count)
    }
}

fn beyond_among(entries: &[StampEntry], count: u64) -> &[StampEntry]
    requires { IsRising entries.now }
    ensures { result.now ≡ filter (λ e. nat_lt count e.stamp) entries.now }
{
    &entries[count_to(entries, count)..]
}
