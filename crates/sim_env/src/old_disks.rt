// The contents of a node's files at each of its last stops.

use crate::disk::{Doubt, Image, Remains};
use crate::halt::Halt;
use crate::history::History;
use state_facts::Body;
use state_ids::{Front, MAX_NODES, NodeId};
use std::alloc::Global;

/// The number of copies of its disk that a node keeps.
const COPIES: usize = 4;

/// The contents of a node's files at each of its last stops, the newest last.
#[derive(Drop)]
pub struct DiskCopies {
    alloc: Global,
    me: NodeId,
    images: Vec<Image>,
}

/// Returns the front with this count for a node, if the front counts that node, and otherwise
/// unchanged.
pub fn raised(front: Front, node: NodeId, count: u64) -> Front {
    let mut next = front;
    if usize::from(node.number()) <= next.nodes() {
        next.set(node, count);
    }
    next
}

/// Reports that files have other facts than they had.
fn changed(alloc: Global, had: Front, has: Front) -> Result<Halt, Halt> {
    Ok(Halt::Found(format!(in alloc; "the disk had the front {had}, but the node has {has}")?))
}

/// Returns the front with the node's own fact that was in doubt. If the files have that fact, it
/// was stored, so it is added to the history.
fn settle_fact(
    history: &mut History,
    me: NodeId,
    had: Front,
    has: Front,
    body: Body,
) -> Result<Front, Halt> {
    let number = had.count(me).saturating_add(1);
    let with = raised(had, me, number);
    if has == with && history.count(me) == had.count(me) {
        history.add(me, number, body)?;
    }
    Ok(with)
}

/// Returns the front that files may have if the call that was cut off was stored.
fn settled(
    history: &mut History,
    me: NodeId,
    had: Front,
    has: Front,
    doubt: Doubt,
) -> Result<Front, Halt> {
    match doubt {
        Doubt::Fact(body) => settle_fact(history, me, had, has, body),
        Doubt::Frame(front) => Ok(had.join(&front)),
        Doubt::Nothing => Ok(had),
    }
}

impl DiskCopies {
    /// Makes the copies of a new node in a group of `nodes` nodes: one copy, of empty files.
    pub fn new(alloc: Global, me: NodeId, nodes: u8) -> Result<DiskCopies, Halt> {
        let mut images = Vec::new(alloc);
        images.push(Image::empty(alloc, nodes.clamp(1, MAX_NODES)))?;
        Ok(DiskCopies { alloc, me, images })
    }

    /// Returns the place of the newest copy.
    pub fn newest(&self) -> usize {
        self.images.len().saturating_sub(1)
    }

    /// Returns how many facts of another node the frame that is in doubt leads to, or 0 if no frame
    /// is in doubt.
    pub fn doubted_of(&self, other: NodeId) -> u64 {
        let Some(copy) = self.images.last() else {
            return 0;
        };
        match &copy.doubt {
            Doubt::Frame(front) => front.count(other),
            _ => 0,
        }
    }

    /// Returns the copy at a place.
    pub fn get(&self, place: usize) -> Result<&Image, Halt> {
        match self.images.get(place) {
            Some(copy) => Ok(copy),
            None => Err(Halt::Stuck("no such copy")),
        }
    }

    /// Replaces a copy with what is left of it after one of its calls failed before its journal was
    /// open.
    pub fn leave(&mut self, place: usize, files: &Remains, loses_power: bool) -> Result<(), Halt> {
        let Some(copy) = self.images.get_mut(place) else {
            return Ok(());
        };
        let front = copy.front;
        let doubt = std::mem::replace(&mut copy.doubt, Doubt::Nothing);
        *copy = Image::of(files, loses_power, front, doubt)?;
        Ok(())
    }

    /// Keeps what the files hold as the newest copy.
    pub fn keep(
        &mut self,
        files: &Remains,
        loses_power: bool,
        front: Front,
        doubt: Doubt,
    ) -> Result<(), Halt> {
        if self.images.len() >= COPIES {
            let _oldest = self.images.remove(0);
        }
        let image = Image::of(files, loses_power, front, doubt)?;
        self.images.push(image)?;
        Ok(())
    }

    /// Makes the oldest copy empty, unless it is the only one.
    pub fn empty_oldest(&mut self, alloc: Global, nodes: u8) {
        if self.images.len() < 2 {
            return;
        }
        if let Some(oldest) = self.images.get_mut(0) {
            *oldest = Image::empty(alloc, nodes);
        }
    }

    /// Drops the copies beyond a place.
    pub fn drop_beyond(&mut self, place: usize) {
        self.images.truncate(place.saturating_add(1));
    }

    /// Takes the facts that a copy had and what was in doubt, and records the facts that it has
    /// now.
    fn take_doubt(&mut self, place: usize, has: Front) -> Option<(Front, Doubt)> {
        let Some(copy) = self.images.get_mut(place) else {
            return None;
        };
        let had = copy.front;
        copy.front = has;
        Some((had, std::mem::replace(&mut copy.doubt, Doubt::Nothing)))
    }

    /// Checks that a book that was opened has the facts of its copy, and settles what was in doubt.
    pub fn settle(&mut self, history: &mut History, place: usize, has: Front) -> Result<(), Halt> {
        let Some((had, doubt)) = self.take_doubt(place, has) else {
            return Ok(());
        };
        if has == had {
            return Ok(());
        }
        let with = settled(history, self.me, had, has, doubt)?;
        if has != with {
            return Err(changed(self.alloc, had, has)?);
        }
        Ok(())
    }
}
