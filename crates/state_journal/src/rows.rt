// Making a replica from the rows of both tables.
ghost use Rattle.std.specs.Prelude.{◌≡◌, ◌≤◌, ◌⊎◌, ℕ, IfErr, IfOk, length};
ghost use Rattle.state_ids.specs.declared.TheConstants.{MAX_NODES};
ghost use Rattle.state_facts.specs.declared.refusal.Refusal.TheVariants.{BadFrame, NoMemory};
ghost use Rattle.theory_history.specs.ViewShape.{HasShape};
ghost use Rattle.state_journal.specs.Reads.{AreRowsOf, BreaksAt};
ghost use Rattle.state_replica.specs.Replicas.{view_of};

use crate::front_rows::{Fronts, fronts_of};
use crate::lra_rows::homes_of;
use crate::rebuilding::replica_of;
use sqlite::Row;
use state_facts::Refusal;
use state_ids::NodeId;
use state_replica::{Replica, Taken};
use std::alloc::Global;
use wire_frames::Version;

/// Returns the journal's version, and the replica to which the rows of both tables belong. E16 at
/// the place of the first row that is wrong, rows of `front` first, or at the count of all rows if
/// what they say hasn't the shape.
pub fn read_rows(
    alloc: Global,
    front_rows: &[Row],
    lra_rows: &[Row],
    me: NodeId,
    nodes: usize,
) -> Result<(Version, Replica), Refusal>
    requires some { 1 ≤ nodes }
    requires few { nodes ≤ MAX_NODES }
    ensures right { IfOk result
        (λ read. AreRowsOf read.0 me front_rows.now lra_rows.now (view_of read.1)) }
    ensures counted { IfOk result (λ read. length read.1.front ≡ nodes) }
    ensures shape { IfOk result (λ read. HasShape (view_of read.1)) }
    ensures refused { IfErr result (λ refusal. (refusal ≡ NoMemory) ⊎ ((place : ℕ)
        × (refusal ≡ BadFrame place) × BreaksAt me nodes front_rows.now lra_rows.now place)) }
{
    let fronts = match fronts_of(front_rows, me, nodes) {
        Ok(fronts) => fronts,
        Err(place) => return Err(Refusal::BadFrame(place)),
    };
    let Fronts {
        version,
        front,
        purges,
    } = fronts;
    let first = nodes as u64 + 1;
    let homes = homes_of(alloc, version, lra_rows, &front, first)?;
    let told = Taken::new(front, purges, homes);
    match replica_of(alloc, told, nodes) {
        Ok(replica) => Ok((version, replica)),
        Err(Refusal::BadFrame(_)) => Err(Refusal::BadFrame(first + lra_rows.len() as u64)),
        Err(refusal) => Err(refusal),
    }
}
