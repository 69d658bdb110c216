// The checks of what goes out: that enough other nodes had what an answer or a list of duties
// shows, and that it is still there once a disk was lost.

use crate::copies::Answer;
use crate::play::{Play, nowhere};
use node_replication::Standing;
use sim_env::{Halt, raised};
use sim_node::Release;
use sim_runs::Runs;
use state_ids::NodeId;
use std::alloc::Global;

fn not_copied(alloc: Global, what: &str, me: NodeId, own: u64, found: u64) -> Result<Halt, Halt> {
    Ok(Halt::Found(format!(in alloc;
        "{what} of node {me} that may show its {own} facts goes out, and {found} others had them"
    )?))
}

fn too_late(alloc: Global, me: NodeId) -> Result<Halt, Halt> {
    Ok(Halt::Found(format!(in alloc;
        "node {me} calls participants although copies are strict and too late"
    )?))
}

fn dropped(alloc: Global, me: NodeId) -> Result<Halt, Halt> {
    Ok(Halt::Found(format!(in alloc;
        "node {me} neither calls the participants on a list that it held, nor asks for a new one"
    )?))
}

fn not_held(alloc: Global, me: NodeId) -> Result<Halt, Halt> {
    Ok(Halt::Found(format!(in alloc;
        "node {me} calls the participants on a list that it didn't hold"
    )?))
}

fn waits_long(alloc: Global, me: NodeId, ticket: u64) -> Result<Halt, Halt> {
    Ok(Halt::Found(format!(in alloc;
        "an answer of node {me} waits for ticket {ticket} beyond its patience"
    )?))
}

fn doubted(alloc: Global, me: NodeId) -> Result<Halt, Halt> {
    Ok(Halt::Found(format!(in alloc;
        "node {me} takes another for one with its number, but there is none"
    )?))
}

fn strange(alloc: Global, me: NodeId) -> Result<Halt, Halt> {
    Ok(Halt::Found(format!(in alloc; "node {me} hears of facts of it that it never gave")?))
}

fn lost(alloc: Global, me: NodeId, shown: u64, left: u64) -> Result<Halt, Halt> {
    Ok(Halt::Found(format!(in alloc;
        "an answer showed {shown} facts of node {me} as copied, and {left} are left"
    )?))
}

/// Checks of what goes out.
impl<R: Runs> Play<R> {
    /// Notes what a node has on its disk.
    pub fn note_had(&mut self, place: usize) -> Result<(), Halt> {
        let front = self.front(place)?;
        let Some(had) = self.copies.had.get_mut(place) else {
            return Err(nowhere());
        };
        *had = had.join(&front);
        Ok(())
    }

    /// Notes that the facts of a node beyond so many are lost, so that their numbers are given
    /// again.
    pub fn forget_had(&mut self, me: NodeId, count: u64) {
        for had in self.copies.had.iter_mut() {
            let least = had.count(me).min(count);
            *had = raised(*had, me, least);
        }
    }

    /// Checks that as many other nodes as are wanted had what goes out as copied.
    pub fn see_copied(&mut self, place: usize, what: &str, own: u64) -> Result<(), Halt> {
        let me = self.me(place)?;
        let found = self.copies.holders(place, me, own);
        if found < u64::from(self.copies.wants.copies) {
            return Err(not_copied(self.alloc, what, me, own, found)?);
        }
        self.copies.note_shown(me, own);
        self.copies.copied = self.copies.copied.saturating_add(1);
        Ok(())
    }

    /// Checks a list of duties whose participants are called from now on, if there is one.
    pub fn see_release(&mut self, place: usize) -> Result<(), Halt> {
        let Some(life) = self.life(place) else {
            return Ok(());
        };
        let (release, wants) = (life.take_release(), self.copies.wants);
        match release {
            Some(
                Release::Called {
                    own,
                    is_late: false,
                },
            ) if wants.any() => { self.see_copied(place, "a list", own) }
            Some(Release::Called { is_late: true, .. }) if wants.is_strict => {
                Err(too_late(self.alloc, self.me(place)?)?)
            }
            Some(Release::Dropped) => Err(dropped(self.alloc, self.me(place)?)?),
            Some(Release::Unknown) => Err(not_held(self.alloc, self.me(place)?)?),
            _ => Ok(()),
        }
    }

    /// Looks at each answer that waits.
    pub fn look_at_answers(&mut self) -> Result<(), Halt> {
        let mut at = 0usize;
        for _answer in 0..self.copies.answers.len() {
            let Some(answer) = self.copies.answers.get(at).copied() else {
                return Ok(());
            };
            if self.is_over(answer)? && at < self.copies.answers.len() {
                let _answer = self.copies.answers.remove(at);
            } else {
                at = at.saturating_add(1);
            }
        }
        self.see_no_doubt()
    }

    /// Whether an answer waits no longer.
    fn is_over(&mut self, answer: Answer) -> Result<bool, Halt> {
        let (now, patience) = (self.now, self.copies.wants.patience_ms);
        let Some(life) = self.life(answer.place) else {
            return Ok(true);
        };
        match life.stand(answer.ticket, answer.since, now) {
            Standing::Copied => {
                self.see_copied(answer.place, "an answer", answer.own)?;
                Ok(true)
            }
            Standing::Late => {
                self.copies.late = self.copies.late.saturating_add(1);
                Ok(true)
            }
            Standing::Waits if now >= answer.since.saturating_add(patience) => {
                Err(waits_long(self.alloc, self.me(answer.place)?, answer.ticket)?)
            }
            Standing::Waits => Ok(false),
        }
    }

    /// Checks that no node takes another for one with its number.
    fn see_no_doubt(&mut self) -> Result<(), Halt> {
        for place in 0..self.nodes.len() {
            let (me, alloc) = (self.me(place)?, self.alloc);
            let is_misled = self.copies.misled.contains(&place);
            let Some(life) = self.life(place) else {
                continue;
            };
            if life.state().followers.is_doubted() {
                return Err(doubted(alloc, me)?);
            }
            if life.state().followers.has_strange() && !is_misled {
                return Err(strange(alloc, me)?);
            }
        }
        Ok(())
    }

    /// Whether nothing waits any more, and no node refuses anything for want of copies.
    pub fn is_all_out(&self) -> bool {
        for node in self.nodes.iter() {
            let is_stuck = match &node.life {
                Some(life) => {
                    let followers = &life.state().followers;
                    followers.refuses() || followers.holds_calls()
                }
                None => false,
            };
            if is_stuck {
                return false;
            }
        }
        self.copies.answers.is_empty()
    }
}

/// Disks that are lost.
impl<R: Runs> Play<R> {
    /// Returns the most facts of a node that another has on its disk.
    pub fn left_of(&self, me: NodeId) -> u64 {
        let mut most = 0u64;
        for node in self.nodes.iter() {
            if node.me != me {
                most = most.max(node.front().count(me));
            }
        }
        most
    }

    /// Checks that what answers showed as copied is still there after a node lost all its facts
    /// beyond so many.
    pub fn see_left(&self, me: NodeId, count: u64) -> Result<(), Halt> {
        let (shown, left) = (self.copies.shown.count(me), self.left_of(me).max(count));
        if left < shown {
            return Err(lost(self.alloc, me, shown, left)?);
        }
        Ok(())
    }

    /// Notes what is left of each other node's facts on other disks, after a node lost its own.
    pub fn note_left_besides(&mut self, fallen: NodeId) -> Result<(), Halt> {
        for place in 0..self.nodes.len() {
            let me = self.me(place)?;
            if me == fallen {
                continue;
            }
            let least = self.copies.shown.count(me).min(self.left_of(me));
            self.copies.shown = raised(self.copies.shown, me, least);
        }
        Ok(())
    }

    /// Checks that a node that may store something again has what answers showed of it as copied.
    pub fn see_back(&self, place: usize) -> Result<(), Halt> {
        let (me, own) = (self.me(place)?, self.front(place)?.count(self.me(place)?));
        let shown = self.copies.shown.count(me);
        if own < shown {
            return Err(lost(self.alloc, me, shown, own)?);
        }
        Ok(())
    }
}
