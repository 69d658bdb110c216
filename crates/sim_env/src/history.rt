// All facts that any node recorded, as a plain list.

use crate::halt::Halt;
use state_facts::{Body, Fact};
use state_ids::{Front, LraId, MAX_NODES, NodeId};
use std::alloc::Global;

/// All facts that any node recorded, in the order in which that happened.
#[derive(Drop)]
pub struct History {
    alloc: Global,
    facts: Vec<Fact>,
    /// For each node, the places of its facts, by their numbers.
    places: Vec<Vec<usize>>,
}

fn is_begin(body: &Body) -> bool {
    matches!(body, Body::Begin { .. })
}

fn is_kept(fact: &Fact, node: NodeId, count: u64) -> bool {
    fact.origin != node || fact.num <= count
}

fn slot_of(node: NodeId) -> usize {
    usize::from(node.number()).saturating_sub(1)
}

impl History {
    pub fn new(alloc: Global) -> History {
        History {
            alloc,
            facts: Vec::new(alloc),
            places: Vec::new(alloc),
        }
    }

    pub fn facts(&self) -> &[Fact] {
        &self.facts
    }

    fn places_of(&self, node: NodeId) -> &[usize] {
        match self.places.get(slot_of(node)) {
            Some(places) => places.as_slice(),
            None => &[],
        }
    }

    /// Returns how many facts a node recorded.
    pub fn count(&self, node: NodeId) -> u64 {
        self.places_of(node).len() as u64
    }

    /// Returns the place of a node's first fact that a front doesn't count.
    fn first_new(&self, node: NodeId, front: &Front) -> usize {
        let counted = front.count(node) as usize;
        match self.places_of(node).get(counted) {
            Some(place) => *place,
            None => self.facts.len(),
        }
    }

    /// Returns the facts from the first one that a front doesn't count.
    pub fn since(&self, front: &Front) -> &[Fact] {
        let mut first = self.facts.len();
        for number in 1..=MAX_NODES {
            if let Ok(node) = NodeId::new(number) {
                first = first.min(self.first_new(node, front));
            }
        }
        if first > self.facts.len() {
            return &[];
        }
        &self.facts[first..]
    }

    fn make_room(&mut self) -> Result<(), Halt> {
        for _ in self.places.len()..usize::from(MAX_NODES) {
            self.places.push(Vec::new(self.alloc))?;
        }
        Ok(())
    }

    /// Notes that the fact at a place is a node's.
    fn note_place(&mut self, node: NodeId, place: usize) -> Result<(), Halt> {
        self.make_room()?;
        let Some(places) = self.places.get_mut(slot_of(node)) else {
            return Err(Halt::Stuck("no such node"));
        };
        places.push(place)?;
        Ok(())
    }

    /// Adds a fact, whose number must be the next of its node.
    pub fn add(&mut self, origin: NodeId, num: u64, body: Body) -> Result<(), Halt> {
        let count = self.count(origin);
        if num.checked_sub(1) != Some(count) {
            let alloc = self.alloc;
            return Err(Halt::Found(format!(in alloc;
                "node {origin} stores its fact {num} after {count} facts"
            )?));
        }
        let place = self.facts.len();
        self.note_place(origin, place)?;
        self.facts.push(Fact { origin, num, body })?;
        Ok(())
    }

    fn origin_at(&self, place: usize) -> Option<NodeId> {
        let Some(fact) = self.facts.get(place) else {
            return None;
        };
        Some(fact.origin)
    }

    fn note_all_places(&mut self) -> Result<(), Halt> {
        let count = self.facts.len();
        for place in 0..count {
            if let Some(origin) = self.origin_at(place) {
                self.note_place(origin, place)?;
            }
        }
        Ok(())
    }

    /// Forgets a node's facts beyond the first `count`.
    pub fn forget(&mut self, node: NodeId, count: u64) -> Result<(), Halt> {
        if self.count(node) <= count {
            return Ok(());
        }
        self.facts.retain(|fact| is_kept(fact, node, count));
        self.places = Vec::new(self.alloc);
        self.note_all_places()
    }

    /// Returns the LRAs that a node began, the newest first, at most `most` of them.
    pub fn begun(&self, alloc: Global, node: NodeId, most: usize) -> Result<Vec<LraId>, Halt> {
        let mut found = Vec::new(alloc);
        for place in self.places_of(node).iter().rev() {
            let Some(fact) = self.facts.get(*place) else {
                break;
            };
            if found.len() >= most {
                break;
            }
            if is_begin(&fact.body) {
                found.push(LraId::new(node, fact.num)?)?;
            }
        }
        Ok(found)
    }
}

/// Whether a front counts a fact.
pub fn counts(front: &Front, fact: &Fact) -> bool {
    fact.num <= front.count(fact.origin)
}
