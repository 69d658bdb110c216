// What waits at a node until other nodes have its facts.

use crate::life::{Life, at};
use crate::listings::Release;
use node_replication::Standing;
use sim_runs::Runs;
use state_ids::Front;

impl<R: Runs> Life<R> {
    /// Returns the standing of an answer that has waited for a ticket since a moment.
    pub fn stand(&mut self, ticket: u64, since: u64, now: u64) -> Standing {
        self.state.followers.stand(ticket, at(since), at(now))
    }

    /// Takes the release of a list that isn't checked yet.
    pub fn take_release(&mut self) -> Option<Release> {
        self.listings.take_release()
    }

    /// Returns the facts that its mailbox knows of.
    pub fn known(&self) -> Front {
        self.state.mail.front()
    }
}
