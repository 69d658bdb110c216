// What one node sends another.
ghost use Rattle.std.specs.Prelude.{◌≡◌, IfOk};
ghost use Rattle.theory_history.specs.Merging.{IsTelling, TellsNews};
ghost use Rattle.state_replica.specs.Replicas.{view_of};
ghost use Rattle.state_replica.specs.Tellings.{IsToldBy};

use crate::Replica;
use state_forest::{Forest, Told};
use state_ids::Front;
use std::alloc::{AllocError, Global};
use std::marker::Model;

/// What another node sends: its front and last purges, and for each home some records and, if it
/// sends them, the numbers of all LRAs that it holds there.
#[derive(Debug, Drop)]
pub struct Taken {
    pub(crate) front: Front,
    pub(crate) purges: Front,
    pub(crate) homes: Vec<Told>,
}

impl Model for Taken {
    ghost use Rattle.theory_history.specs.Merging.{IsTelling, Telling};

    ghost Value = { Telling };

    ghost view = { λ t. record { front = t.front; purges = t.purges; homes = t.homes.items } };

    ghost invariant = { λ t.
        IsTelling (record { front = t.front; purges = t.purges; homes = t.homes.items }) };
}

impl Taken {
    /// Makes what a node sends from its front, its last purges, and what it sends of each home, one
    /// for each node.
    pub fn new(front: Front, purges: Front, homes: Vec<Told>) -> Taken
        requires { IsTelling (record { front = front; purges = purges; homes = homes.items }) }
        ensures { result ≡ record { front = front; purges = purges; homes = homes.items } }
    {
        Taken {
            front,
            purges,
            homes,
        }
    }
}

impl Replica {
    /// Returns what a home tells that is news here. If there is no such home here, everything is
    /// news.
    fn told_by(&self, alloc: Global, home: &Forest) -> Result<Told, AllocError>
        ensures { IfOk result (λ told. IsToldBy (view_of self.now) home.now told) }
    {
        // Calling `records` tells the prover that they are in order.
        let _ = home.records();
        let records = match self.home(home.home()) {
            Some(own) => own.lacking(alloc, home)?,
            None => home.clone()?,
        };
        Ok(Told {
            held: Some(home.numbers(alloc)?),
            records,
        })
    }

    /// Returns what this replica has that is news to another: its front and last purges, the
    /// numbers of all LRAs that it holds, and copies of the records that bring news. It looks up
    /// each of its records among the other's by binary search.
    pub fn tell_news(&self, alloc: Global, other: &Replica) -> Result<Taken, AllocError>
        ensures { IfOk result
            (λ taken. TellsNews (view_of other.now) taken (view_of self.now)) }
    {
        let mut homes = Vec::new(alloc);
        for home in &self.homes {
            homes.push(other.told_by(alloc, home)?)?;
        }
        Ok(Taken {
            front: self.front,
            purges: self.purges,
            homes,
        })
    }
}
