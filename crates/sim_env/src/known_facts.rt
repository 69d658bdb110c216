// The facts that a node has, and what each LRA shows by these facts.

use crate::halt::Halt;
use crate::history::{History, counts};
use crate::model::{DueCall, Model};
use state_facts::{Body, Fact};
use state_forest::Record;
use state_ids::{Front, LraId, LraStatus, MAX_NODES, NodeId};
use std::alloc::Global;

/// What an LRA shows at a node, and since when.
#[derive(Clone, Copy, Drop)]
pub struct Shown {
    pub id: LraId,
    pub status: LraStatus,
    pub since: u64,
}

/// The facts that a node has, and what they say.
#[derive(Drop)]
pub struct KnownFacts {
    alloc: Global,
    me: NodeId,
    front: Front,
    model: Model,
    /// What each LRA shows, in order of homes and numbers.
    shown: Vec<Shown>,
}

fn is_before(one: LraId, other: LraId) -> bool {
    let (home, other_home) = (one.home().number(), other.home().number());
    home < other_home || (home == other_home && one.num() < other.num())
}

fn is_among(id: LraId, ids: &[LraId]) -> bool {
    ids.contains(&id)
}

/// Returns the LRA that a fact is about.
fn about(fact: &Fact) -> Result<LraId, Halt> {
    match &fact.body {
        Body::Begin { .. } => Ok(LraId::new(fact.origin, fact.num)?),
        Body::Purge { root } => Ok(*root),
        Body::Join { id, .. }
        | Body::Leave { id, .. }
        | Body::Decide { id, .. }
        | Body::Report { id, .. }
        | Body::Forgot { id, .. }
        | Body::Told { id, .. } => Ok(*id),
    }
}

fn is_purge(body: &Body) -> bool {
    matches!(body, Body::Purge { .. })
}

/// Reports that an LRA shows less than before.
fn fallen(alloc: Global, id: LraId, old: LraStatus, now: LraStatus) -> Result<Halt, Halt> {
    Ok(Halt::Found(format!(in alloc; "{id} showed {old}, and shows {now} now")?))
}

impl KnownFacts {
    /// Makes a node's knowledge without any facts.
    pub fn new(alloc: Global, me: NodeId, nodes: u8) -> Result<KnownFacts, Halt> {
        let nodes = nodes.clamp(1, MAX_NODES);
        Ok(KnownFacts {
            alloc,
            me,
            front: Front::zero(usize::from(nodes)),
            model: Model::new(alloc, nodes)?,
            shown: Vec::new(alloc),
        })
    }

    /// Returns the facts that the node has.
    pub fn front(&self) -> Front {
        self.front
    }

    /// Returns how many facts of its own the node has.
    pub fn own(&self) -> u64 {
        self.front.count(self.me)
    }

    pub fn model(&self) -> &Model {
        &self.model
    }

    pub fn shown(&self) -> &[Shown] {
        &self.shown
    }

    /// Returns the calls that are due at this node as a home.
    pub fn dues(&self) -> Result<Vec<DueCall>, Halt> {
        self.model.dues(self.me)
    }

    /// Whether a record agrees with what the facts say about an LRA.
    pub fn is_record(&self, id: LraId, record: &Record) -> bool {
        self.model.is_record(id, record)
    }

    /// Moves the node on to a front, all of whose facts it had or are in the history.
    pub fn grow(&mut self, history: &History, front: Front, now: u64) -> Result<(), Halt> {
        let had = self.front;
        let mut touched = Vec::new(self.alloc);
        for fact in history.since(&had) {
            if counts(&front, fact) && !counts(&had, fact) {
                self.learn(fact, &mut touched)?;
            }
        }
        self.front = front;
        self.show_all(&touched, now)
    }

    /// Adds a fact, and notes which LRA it is about.
    fn learn(&mut self, fact: &Fact, touched: &mut Vec<LraId>) -> Result<(), Halt> {
        let id = about(fact)?;
        if is_purge(&fact.body) {
            self.hide(id)?;
        }
        self.model.learn(fact)?;
        if !touched.contains(&id) {
            touched.push(id)?;
        }
        Ok(())
    }

    /// Stops showing the tree of a root.
    fn hide(&mut self, root: LraId) -> Result<(), Halt> {
        let gone = self.model.tree(root)?;
        self.shown.retain(|shown| !is_among(shown.id, &gone));
        Ok(())
    }

    /// Leaves the node with exactly these facts: it begins over an older copy.
    pub fn fall_back(&mut self, history: &History, front: Front, now: u64) -> Result<(), Halt> {
        let nodes = u8::try_from(front.nodes()).unwrap_or(MAX_NODES);
        self.model = Model::new(self.alloc, nodes)?;
        self.shown = Vec::new(self.alloc);
        self.front = Front::zero(front.nodes());
        self.grow(history, front, now)
    }

    /// Returns the place of an LRA in the list, or where it would be: in order of homes and
    /// numbers.
    fn place_of(&self, id: LraId) -> usize {
        self.shown.partition_point(|shown| is_before(shown.id, id))
    }

    /// Returns what an LRA shows.
    pub fn shown_of(&self, id: LraId) -> Option<Shown> {
        let Some(shown) = self.shown.get(self.place_of(id)) else {
            return None;
        };
        if shown.id == id { Some(*shown) } else { None }
    }

    pub fn status_of(&self, id: LraId) -> Option<LraStatus> {
        match self.shown_of(id) {
            Some(shown) => Some(shown.status),
            None => None,
        }
    }

    /// Returns since when an LRA shows what it shows now, and checks that its status has risen or
    /// stayed.
    fn since_of(&self, id: LraId, status: LraStatus, now: u64) -> Result<u64, Halt> {
        let Some(before) = self.shown_of(id) else {
            return Ok(now);
        };
        let old = before.status;
        if old == status {
            return Ok(before.since);
        }
        if status.rank() < old.rank() {
            return Err(fallen(self.alloc, id, old, status)?);
        }
        Ok(now)
    }

    /// Notes what the trees of these LRAs show, and checks that each LRA has risen or stayed. No
    /// other LRA can show anything else than before.
    fn show_all(&mut self, touched: &[LraId], now: u64) -> Result<(), Halt> {
        for id in touched {
            self.show_tree(*id, now)?;
        }
        Ok(())
    }

    fn show_tree(&mut self, id: LraId, now: u64) -> Result<(), Halt> {
        let tree = self.model.tree(id)?;
        for inner in tree.iter() {
            self.show(*inner, now)?;
        }
        Ok(())
    }

    fn show(&mut self, id: LraId, now: u64) -> Result<(), Halt> {
        let Some(status) = self.model.shown_of(id) else {
            return Ok(());
        };
        let since = self.since_of(id, status, now)?;
        self.put_shown(Shown { id, status, since })
    }

    fn put_shown(&mut self, shown: Shown) -> Result<(), Halt> {
        let place = self.place_of(shown.id);
        if self.shown_of(shown.id).is_none() {
            self.shown.insert(place.min(self.shown.len()), shown)?;
        } else if let Some(slot) = self.shown.get_mut(place) {
            *slot = shown;
        }
        Ok(())
    }
}
