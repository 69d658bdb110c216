// Copies of what a node sends. Making one fails only if memory runs out.
ghost use Rattle.std.specs.Prelude.{◌≡◌, IfOk, map};
ghost use Rattle.wire_frames.specs.Sending.{part_of};

use crate::Delta;
use state_forest::Told;
use std::alloc::{AllocError, Global};

fn copy_of(told: &Told) -> Result<Told, AllocError>
    ensures { IfOk result (λ copy. part_of copy ≡ part_of told.now) }
{
    Ok(Told {
        records: told.records.clone()?,
        held: told.held.clone()?,
    })
}

fn copies_of(alloc: Global, homes: &[Told]) -> Result<Vec<Told>, AllocError>
    ensures { IfOk result (λ copies. map part_of copies.items ≡ map part_of homes.now) }
{
    let mut copies = Vec::new(alloc);
    for told in homes {
        copies.push(copy_of(told)?)?;
    }
    Ok(copies)
}

impl Clone for Delta {
    ghost use Rattle.std.specs.Prelude.{◌≡◌};

    ghost is_clone = { λ x y. y ≡ x };

    fn clone(&self) -> Result<Delta, AllocError> {
        Ok(Delta {
            base: self.base,
            front: self.front,
            purges: self.purges,
            homes: copies_of(*self.homes.allocator(), &self.homes)?,
        })
    }
}
