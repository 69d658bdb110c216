// The changes that are prepared for a replica.
ghost use Rattle.std.specs.Prelude.{◌≡◌};

use state_facts::CommandReply;
use state_forest::Record;
use state_ids::{Front, LraId};
use std::marker::Model;

/// The changes that are prepared for a replica: whole records to put in their places, LRAs to
/// remove, and the new front and last purges. A patch is made for one view of a replica, which has
/// room for it.
#[derive(Debug, Drop)]
pub struct Patch {
    pub(crate) records: Vec<Record>,
    pub(crate) removed: Vec<LraId>,
    pub(crate) front: Front,
    pub(crate) purges: Front,
}

impl Model for Patch {
    ghost use Rattle.theory_history.specs.Changes.{Change};

    ghost Value = { Change };

    ghost view = { λ p. record {
      records = p.records.items;
      removed = p.removed.items;
      front = p.front;
      purges = p.purges;
    } };
}

impl Patch {
    /// Returns the records that are put in their places.
    pub fn records(&self) -> &[Record]
        ensures { result.now ≡ self.now.records }
    {
        &self.records
    }

    /// Returns the LRAs whose records are removed.
    pub fn removed(&self) -> &[LraId]
        ensures { result.now ≡ self.now.removed }
    {
        &self.removed
    }

    /// Returns the front after the patch.
    pub fn front(&self) -> Front
        ensures { result ≡ self.now.front }
    {
        self.front
    }

    /// Returns the number of each home's last purge after the patch.
    pub fn purges(&self) -> Front
        ensures { result ≡ self.now.purges }
    {
        self.purges
    }
}

/// The result of preparing a command that is not refused.
#[derive(Debug, Drop)]
pub struct Prepared {
    /// The command's reply.
    pub reply: CommandReply,
    /// The patch that adds the command's fact, or `None` if the command brings nothing new.
    pub patch: Option<Patch>,
}
