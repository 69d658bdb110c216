// Plays in which nodes want copies of their facts: what is wanted, the answers that wait, and the
// calls into which others fall.

mod checks;

use crate::play::Play;
use node_core::AskedPull;
use sim_env::{Doubt, Halt, Luck, raised};
use sim_node::Wants;
use sim_runs::Runs;
use state_ids::{Front, MAX_NODES, NodeId};
use std::alloc::Global;

/// What is added to a seed for the choices about copies: a play without copies makes the choices
/// that it would make if there were none. With this number, the first ten seeds want copies in
/// several manners, and half of them none.
const SALT: u64 = 256_693;

/// An answer that waits.
#[derive(Clone, Copy)]
struct Answer {
    place: usize,
    ticket: u64,
    since: u64,
    /// How many facts of its node it may show.
    own: u64,
}

/// What a play does about copies, and what it knows of them.
#[derive(Drop)]
pub struct Copies {
    luck: Luck,
    wants: Wants,
    /// The nodes, by their places, that somebody asked in another node's name since they started,
    /// as if that node had more facts than there are.
    misled: Vec<usize>,
    answers: Vec<Answer>,
    /// The most facts of each node that each node ever had on its disk.
    had: Vec<Front>,
    /// The most facts of each node that an answer showed that was sent as copied.
    shown: Front,
    /// How many answers were sent as copied, and how many were late.
    pub copied: u64,
    pub late: u64,
}

/// Picks how many copies all nodes want: none in half of the plays.
fn wants_by(luck: &mut Luck, nodes: u8) -> Wants {
    if nodes < 2 || luck.is_one_in(2) {
        return Wants::none();
    }
    let most = u64::from(nodes.saturating_sub(1)).min(3);
    let copies = u8::try_from(luck.below(most)).unwrap_or(0);
    let is_short = luck.is_one_in(3);
    Wants {
        copies: copies.saturating_add(1),
        patience_ms: if is_short { 5_000 } else { 60_000 },
        is_strict: luck.is_one_in(3),
        is_anew: luck.is_one_in(3),
    }
}

/// Returns a pull in this node's name with this front.
fn asked_by(from: NodeId, front: Front) -> AskedPull {
    AskedPull {
        from,
        front,
        waits: false,
        since: None,
    }
}

fn answers_empty(alloc: Global, me: NodeId) -> Result<Halt, Halt> {
    Ok(Halt::Found(format!(in alloc;
        "node {me} answers over an empty disk, though others have facts of it"
    )?))
}

fn not_refused(alloc: Global, me: NodeId) -> Result<Halt, Halt> {
    Ok(Halt::Found(format!(in alloc;
        "node {me} stores what a client asks for although copies are strict and others are behind"
    )?))
}

impl Copies {
    pub fn new(alloc: Global, seed: u64, nodes: u8) -> Result<Copies, Halt> {
        let nodes = nodes.clamp(1, MAX_NODES);
        let mut luck = Luck::new(seed.wrapping_add(SALT));
        let wants = wants_by(&mut luck, nodes);
        let none = Front::zero(usize::from(nodes));
        let mut had = Vec::new(alloc);
        for _node in 0..nodes {
            had.push(none)?;
        }
        Ok(Copies {
            luck,
            wants,
            misled: Vec::new(alloc),
            answers: Vec::new(alloc),
            had,
            shown: none,
            copied: 0,
            late: 0,
        })
    }

    pub fn wants(&self) -> Wants {
        self.wants
    }

    /// Whether a node starts now over an empty disk in the place of its own, and nobody says so.
    fn forgets_disk(&mut self) -> bool {
        self.wants.any() && !self.wants.is_anew && self.luck.is_one_in(4)
    }

    /// Whether a node that runs over such a disk stops now.
    fn notices_disk(&mut self) -> bool {
        self.luck.is_one_in(3)
    }

    /// Whether a node loses its disk now, given that it starts over an older copy anyway.
    pub fn loses_disk(&mut self) -> bool {
        self.wants.any() && self.luck.is_one_in(2)
    }

    /// Whether a pull of an open node that begins now waits until there is something new.
    pub fn pull_waits(&mut self) -> bool {
        self.wants.any() && self.luck.is_one_in(3)
    }

    /// Returns how many nodes besides the one at a place had this many facts of that one.
    fn holders(&self, place: usize, me: NodeId, own: u64) -> u64 {
        let mut found = 0u64;
        for (other, had) in self.had.iter().enumerate() {
            if other != place && had.count(me) >= own {
                found = found.saturating_add(1);
            }
        }
        found
    }

    /// Whether an answer already waits that shows the same and waits for the same.
    fn waits_alike(&self, place: usize, ticket: u64, own: u64) -> bool {
        for answer in self.answers.iter() {
            if answer.place == place && answer.ticket == ticket && answer.own == own {
                return true;
            }
        }
        false
    }

    /// Notes that an answer is sent as copied that may show this many facts of a node.
    fn note_shown(&mut self, me: NodeId, own: u64) {
        let most = self.shown.count(me).max(own);
        self.shown = raised(self.shown, me, most);
    }
}

/// Disks that aren't there.
impl<R: Runs> Play<R> {
    /// Whether an empty disk is in the place of a node's own.
    pub fn is_unmounted(&self, place: usize) -> bool {
        match self.nodes.get(place) {
            Some(node) => node.is_unmounted(),
            None => false,
        }
    }

    /// Gives a node that is down its own disk back, if an empty one is in its place. Otherwise puts
    /// an empty one there in some cases, if another node has facts of this one.
    pub fn change_disk(&mut self, place: usize, may_unmount: bool) -> Result<(), Halt> {
        let has_facts = may_unmount && self.left_of(self.me(place)?) > 0;
        let Some(node) = self.nodes.get_mut(place) else {
            return Ok(());
        };
        if node.is_unmounted() {
            node.mount();
            return Ok(());
        }
        if has_facts && self.copies.forgets_disk() {
            return node.unmount();
        }
        Ok(())
    }

    /// Stops a node that runs over an empty disk in the place of its own, in some cases.
    pub fn notice_disk(&mut self, place: usize) -> Result<(), Halt> {
        if self.copies.notices_disk() {
            return self.stop(place, Doubt::Nothing);
        }
        Ok(())
    }

    /// Checks that a node that answers isn't over an empty disk in the place of its own.
    pub fn see_mounted(&self, place: usize) -> Result<(), Halt> {
        if self.is_unmounted(place) {
            return Err(answers_empty(self.alloc, self.me(place)?)?);
        }
        Ok(())
    }
}

/// Calls, each of which another call of the same node may fall into.
impl<R: Runs> Play<R> {
    /// Checks that nothing is stored for a client while copies are strict and others are behind.
    pub fn see_not_short(&mut self, place: usize) -> Result<(), Halt> {
        let (alloc, me, is_strict) = (self.alloc, self.me(place)?, self.copies.wants.is_strict);
        match self.life(place) {
            Some(life) if is_strict && life.state().followers.is_short() => Err(not_refused(
                alloc, me,
            )?),
            _ => Ok(()),
        }
    }

    /// Lets another worker ask for something in the middle of a call, in some cases. It may store
    /// something unless the reply of the call is compared with the facts once the call is over.
    pub fn fall_into(&mut self, place: usize, may_store: bool) -> Result<(), Halt> {
        let copies = &mut self.copies;
        if self.is_quiet || !copies.wants.any() || !copies.luck.is_one_in(4) {
            return Ok(());
        }
        if may_store && !copies.luck.is_one_in(3) {
            self.ask_between(place)
        } else {
            self.look_between(place)
        }
    }

    /// Makes the answer of a worker wait for a ticket, if it isn't 0.
    pub fn keep_answer(&mut self, place: usize, ticket: u64, own: u64) -> Result<(), Halt> {
        if !self.copies.wants.any() {
            return Ok(());
        }
        if ticket == 0 {
            return self.see_copied(place, "an answer", own);
        }
        if self.copies.waits_alike(place, ticket, own) {
            return Ok(());
        }
        let since = self.now;
        self.copies.answers.push(Answer {
            place,
            ticket,
            since,
            own,
        })?;
        Ok(())
    }

    /// Loses the answers of a node that stops.
    pub fn drop_answers(&mut self, place: usize) {
        self.copies.answers.retain(|answer| answer.place != place);
        self.copies.misled.retain(|misled| *misled != place);
    }

    /// Lets somebody ask a node in another node's name, in few cases, as if that had more facts of
    /// the node than there are.
    pub fn mislead(&mut self, place: usize) -> Result<(), Halt> {
        let copies = &mut self.copies;
        if !copies.wants.any() || !copies.luck.is_one_in(100) {
            return Ok(());
        }
        let (more, chosen) = (copies.luck.below(3), copies.luck.place(self.nodes.len()));
        let (me, other, now) = (self.me(place)?, self.me(chosen)?, self.now);
        let front = self.front(place)?;
        let claimed = raised(
            front,
            me,
            front.count(me).saturating_add(1).saturating_add(more),
        );
        let Some(life) = self.life(place) else {
            return Ok(());
        };
        if chosen != place && life.is_open() {
            life.hear_other_name(&asked_by(other, claimed), now);
            self.copies.misled.push(place)?;
        }
        Ok(())
    }
}
