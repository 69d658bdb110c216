// The checks after each step: whether a node shows and holds what its facts demand.

use crate::play::{Play, nowhere};
use sim_env::Halt;
use sim_runs::Runs;
use state_book::{Call, Reply};
use state_facts::Refusal;
use state_ids::LraId;

impl<R: Runs> Play<R> {
    /// Checks that a node shows what its facts demand.
    pub fn look(&mut self, place: usize) -> Result<(), Halt> {
        let reply = self.call(place, 1, Call::Page(None))?;
        self.see_listed(place, &reply)?;
        if reply.is_none() {
            return Ok(());
        }
        match self.some_shown(place) {
            Some(id) => self.look_at(place, id),
            None => Ok(()),
        }
    }

    /// Asks for the first page in the middle of another call, and checks it.
    pub fn look_between(&mut self, place: usize) -> Result<(), Halt> {
        let reply = self.call_between(place, 1, Call::Page(None))?;
        self.see_listed(place, &reply)
    }

    fn see_listed(&self, place: usize, reply: &Option<Reply>) -> Result<(), Halt> {
        match self.nodes.get(place) {
            Some(node) => node.see_listed(reply),
            None => Err(nowhere()),
        }
    }

    /// Returns how many LRAs a node shows.
    fn count_of(&self, place: usize) -> usize {
        match self.nodes.get(place) {
            Some(node) => node.known.shown().len(),
            None => 0,
        }
    }

    /// Picks one of the LRAs that a node shows, but mostly none.
    fn some_shown(&mut self, place: usize) -> Option<LraId> {
        let count = self.count_of(place);
        if count == 0 || !self.luck.is_one_in(3) {
            return None;
        }
        let chosen = self.luck.place(count);
        match self.nodes.get(place) {
            Some(node) => node.known.shown().get(chosen).map(|shown| shown.id),
            None => None,
        }
    }

    /// Whether a node shows an LRA.
    fn is_shown(&self, place: usize, id: LraId) -> bool {
        match self.nodes.get(place) {
            Some(node) => node.known.shown().iter().any(|shown| shown.id == id),
            None => false,
        }
    }

    /// Checks that a node's record of an LRA is what its facts demand: none, if a call that came in
    /// between purged the LRA.
    fn look_at(&mut self, place: usize, id: LraId) -> Result<(), Halt> {
        let reply = self.call(place, 2, Call::Record(id))?;
        let is_gone = matches!(&reply, Some(Reply::Refused(Refusal::NotHeld)));
        if is_gone && !self.is_shown(place, id) {
            return Ok(());
        }
        match self.nodes.get(place) {
            Some(node) => node.see_held(id, &reply),
            None => Err(nowhere()),
        }
    }
}
