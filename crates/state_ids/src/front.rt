// Fronts: version vectors, with one count for each node.
ghost use Rattle.std.specs.Prelude.{◌≡◌, ◌≤◌, ◌-◌, ◌↔◌, ℕ, List, Some, IsTrue, length, replicate, slice_index, slice_set};
ghost use Rattle.state_ids.specs.declared.TheConstants.{MAX_NODES};
ghost use Rattle.state_ids.specs.Fronts.{IsBelow, count, front_text, is_covered, join_fronts, meet_fronts};

use crate::{LraId, MAX_NODES, NodeId};
use std::fmt;
use std::marker::Model;

/// The number of counts that a front has room for.
const NODES: usize = MAX_NODES as usize;

/// A version vector: the count of facts for each node. It describes the set that has exactly the
/// facts that it counts.
#[derive(Clone, Copy, Debug, PartialEq, Eq)]
pub struct Front {
    nodes: usize,
    counts: [u64; NODES],
}

impl Model for Front {
    ghost use Rattle.std.specs.Prelude.{ℕ, List};

    ghost Value = { List ℕ };

    ghost use Rattle.state_ids.specs.FrontParts.{counts_of, padded, padded_back, IsPadded};

    ghost view = { counts_of };

    ghost invariant = { IsPadded };

    ghost inverse = { padded };

    ghost inverse_ok = { padded_back };
}

impl Front {
    /// Returns the front of 1 to 8 nodes that counts no facts.
    pub fn zero(nodes: usize) -> Front
        requires some { 1 ≤ nodes }
        requires few { nodes ≤ MAX_NODES }
        ensures { result ≡ replicate nodes 0 }
    {
        Front {
            nodes,
            counts: [0; NODES],
        }
    }

    /// Returns the front with these counts, one for each of 1 to 8 nodes.
    pub fn from_counts(counts: &[u64]) -> Front
        requires some { 1 ≤ length counts.now }
        requires few { length counts.now ≤ MAX_NODES }
        ensures { result ≡ counts.now }
    {
        let mut kept = [0; NODES];
        kept[..counts.len()].copy_from_slice(counts);
        Front {
            nodes: counts.len(),
            counts: kept,
        }
    }

    /// Returns the count of each node, in order of the nodes.
    pub fn as_slice(&self) -> &[u64]
        ensures value { result.now ≡ self.now }
        ensures some { 1 ≤ length result.now }
        ensures few { length result.now ≤ MAX_NODES }
    {
        &self.counts[..self.nodes]
    }

    /// Returns the number of nodes that this front counts.
    pub fn nodes(&self) -> usize
        ensures value { result ≡ length self.now }
        ensures some { 1 ≤ result }
        ensures few { result ≤ MAX_NODES }
    {
        self.nodes
    }

    /// Returns the count of a node's facts, or 0 if there is no such node.
    pub fn count(&self, node: NodeId) -> u64
        ensures { result ≡ count self.now node }
    {
        let place = usize::from(node.number() - 1);
        if place < self.nodes {
            self.counts[place]
        } else {
            0
        }
    }

    /// Sets the count of a node, which must exist.
    pub fn set(&mut self, node: NodeId, count: u64)
        requires { node ≤ length self.old }
        ensures { self.new ≡ slice_set self.old (node - 1) count }
    {
        let place = usize::from(node.number() - 1);
        self.counts[place] = count;
    }
}

impl Front {
    /// Whether this front counts the begin of an LRA.
    pub fn covers(&self, id: LraId) -> bool
        ensures { result ≡ is_covered self.now id }
    {
        id.num() <= self.count(id.home())
    }

    /// Whether each count is at most the other front's count of the same node. The lengths may
    /// differ, as for `join` and `set`, because the stamps of a broken record must lead to E16.
    pub fn below(&self, other: &Front) -> bool
        ensures { IsTrue result ↔ IsBelow self.now other.now }
    {
        are_below(&self.counts, &other.counts)
    }

    /// Returns the least front above both, which has the greater count of each node. If the lengths
    /// differ, the result is as long as the longer front.
    pub fn join(&self, other: &Front) -> Front
        ensures value { result ≡ join_fronts self.now other.now }
        ensures upper { IsBelow self.now result × IsBelow other.now result }
        ensures least { (w : List ℕ) → IsBelow self.now w → IsBelow other.now w → IsBelow result w }
    {
        Front {
            nodes: self.nodes.max(other.nodes),
            counts: greater(&self.counts, &other.counts),
        }
    }

    /// Returns the greatest front below both, which has the lesser count of each node.
    pub fn meet(&self, other: &Front) -> Front
        requires { length self.now ≡ length other.now }
        ensures value { result ≡ meet_fronts self.now other.now }
        ensures lower { IsBelow result self.now × IsBelow result other.now }
        ensures greatest { (w : List ℕ) →
            IsBelow w self.now → IsBelow w other.now → IsBelow w result }
    {
        Front {
            nodes: self.nodes,
            counts: lesser(&self.counts, &other.counts),
        }
    }
}

/// Whether each count is at most the other count at the same place.
fn are_below(counts: &[u64; NODES], others: &[u64; NODES]) -> bool
    ensures { IsTrue result ↔ ((place : ℕ) →
        slice_index counts.now place ≤ slice_index others.now place) }
{
    for place in 0..NODES {
        if counts[place] > others[place] {
            return false;
        }
    }
    true
}

fn greater(counts: &[u64; NODES], others: &[u64; NODES]) -> [u64; NODES]
    ensures { result ≡ join_fronts counts.now others.now }
{
    let mut joined = *counts;
    for place in 0..NODES {
        joined[place] = joined[place].max(others[place]);
    }
    joined
}

fn lesser(counts: &[u64; NODES], others: &[u64; NODES]) -> [u64; NODES]
    ensures { result ≡ meet_fronts counts.now others.now }
{
    let mut met = *counts;
    for place in 0..NODES {
        met[place] = met[place].min(others[place]);
    }
    met
}

impl fmt::Display for Front {
    ghost output = { λ v. Some (front_text v) };

    fn fmt<W: fmt::Write>(&self, f: &mut fmt::Formatter<W>) -> fmt::Result {
        let first = self.counts[0];
        write!(f, "{first}")?;
        for count in &self.counts[1..self.nodes] {
            write!(f, " {count}")?;
        }
        Ok(())
    }
}
