// A root that is to be purged.
ghost use Rattle.std.specs.Prelude.{◌≡◌};

use state_ids::{LraId, LraStatus};
use std::marker::Model;

/// A root that was kept for as long as it is to be, and what it showed in every look meanwhile.
/// Only `Sweeping::next` makes one.
#[derive(Drop)]
pub struct Ripe {
    root: LraId,
    seen: LraStatus,
}

impl Model for Ripe {
    ghost use Rattle.node_agenda.specs.Kept.{Kept};

    ghost Value = { Kept };

    ghost view = { λ r. record { root = r.root; seen = r.seen } };
}

impl Ripe {
    pub(crate) fn new(root: LraId, seen: LraStatus) -> Ripe
        ensures { result ≡ record { root = root; seen = seen } }
    {
        Ripe { root, seen }
    }

    /// Returns the root.
    pub fn root(&self) -> LraId
        ensures { result ≡ self.now.root }
    {
        self.root
    }

    /// Returns what it showed.
    pub fn seen(&self) -> LraStatus
        ensures { result ≡ self.now.seen }
    {
        self.seen
    }
}
