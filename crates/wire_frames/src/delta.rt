// A delta: what a node sends another that has the facts counted by a base.
ghost use Rattle.std.specs.Prelude.{◌≡◌, length};
ghost use Rattle.wire_frames.specs.Order.{lists, records_told};
ghost use Rattle.wire_frames.specs.Sending.{IsToldBy, frame_told};
ghost use Rattle.theory_history.specs.Merging.{IsTelling};

use state_forest::Told;
use state_ids::Front;
use state_replica::Taken;
use std::marker::Model;

/// A delta: what a node sends another that has the facts counted by a base. It has the sender's
/// front and last purges, and for each home some records and, if they are sent, the numbers of all
/// LRAs that the sender holds there.
#[derive(Debug, Drop)]
pub struct Delta {
    pub(crate) base: Front,
    pub(crate) front: Front,
    pub(crate) purges: Front,
    pub(crate) homes: Vec<Told>,
}

impl Model for Delta {
    ghost use Rattle.std.specs.Prelude.{◌≡◌, length};
    ghost use Rattle.wire_frames.specs.Frames.{Frame};
    ghost use Rattle.wire_frames.specs.Sending.{frame_told};
    ghost use Rattle.theory_history.specs.Merging.{IsTelling};

    ghost Value = { Frame };

    ghost view = { λ d.
        frame_told d.base (record { front = d.front; purges = d.purges; homes = d.homes.items }) };

    ghost invariant = { λ d. (length d.base ≡ length d.front)
        × IsTelling (record { front = d.front; purges = d.purges; homes = d.homes.items }) };
}

impl Delta {
    /// Makes a delta from a base, the sender's front and last purges, and what it sends of each
    /// home, one for each node.
    pub(crate) fn new(base: Front, front: Front, purges: Front, homes: Vec<Told>) -> Delta
        requires nodes { length base ≡ length front }
        requires homes { IsTelling
            (record { front = front; purges = purges; homes = homes.items }) }
        ensures { result
            ≡ frame_told base (record { front = front; purges = purges; homes = homes.items }) }
    {
        Delta {
            base,
            front,
            purges,
            homes,
        }
    }

    /// Returns the base, which counts the facts that the receiver must have.
    pub fn base(&self) -> Front
        ensures value { result ≡ self.now.base }
        ensures nodes { length result ≡ length self.now.front }
    {
        self.base
    }

    /// Returns the number of each node's facts that the sender has.
    pub fn front(&self) -> Front
        ensures { result ≡ self.now.front }
    {
        self.front
    }

    /// Returns the number of each home's last purge that the sender has.
    pub fn purges(&self) -> Front
        ensures value { result ≡ self.now.purges }
        ensures nodes { length result ≡ length self.now.front }
    {
        self.purges
    }

    /// Returns what is sent of each home.
    pub(crate) fn homes(&self) -> &[Told]
        ensures lists { lists result.now ≡ self.now.live }
        ensures records { records_told result.now ≡ self.now.records }
    {
        &self.homes
    }

    /// Returns what is sent, without the base.
    pub(crate) fn into_taken(self) -> Taken
        ensures { IsToldBy self result }
    {
        Taken::new(self.front, self.purges, self.homes)
    }
}
