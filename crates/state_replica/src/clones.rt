// Copies of a replica, and whether two replicas hold the same.
ghost use Rattle.std.specs.Prelude.{◌≡◌, ◌↔◌, IfOk, IsTrue, length};
ghost use Rattle.state_replica.specs.Replicas.{view_of};

use crate::Replica;
use std::alloc::AllocError;

impl Replica {
    /// Whether another replica holds the same front, last purges and records of each home. It looks
    /// at each record once.
    pub fn same(&self, other: &Replica) -> bool
        ensures { IsTrue result ↔ (view_of self.now ≡ view_of other.now) }
    {
        self.front == other.front && self.purges == other.purges && self.same_records(other)
    }

    fn same_records(&self, other: &Replica) -> bool
        requires { length self.now.front ≡ length other.now.front }
        ensures { IsTrue result ↔ ((view_of self.now).records ≡ (view_of other.now).records) }
    {
        for place in 0..self.homes.len() {
            if !self.homes[place].same(&other.homes[place]) {
                return false;
            }
        }
        true
    }

    /// Makes a copy that holds the same. It makes no room for more records.
    pub fn try_clone(&self) -> Result<Replica, AllocError>
        ensures { IfOk result (λ replica. view_of replica ≡ view_of self.now) }
    {
        Ok(Replica {
            front: self.front,
            purges: self.purges,
            homes: self.homes.clone()?,
            index: self.index.clone()?,
        })
    }
}
