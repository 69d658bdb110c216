// Reading the rows of `front`.
ghost use Rattle.std.specs.Prelude.{◌≡◌, ◌≢◌, ◌≤◌, ◌<◌, ◌+◌, ℕ, IfOk, IfErr, IfSome, IfNone, length};
ghost use Rattle.sqlite.specs.Order.{column};
ghost use Rattle.state_ids.specs.declared.TheConstants.{MAX_NODES};
ghost use Rattle.wire_frames.specs.Versions.{version_mark};
ghost use Rattle.wire_frames.specs.declared.version.Version.{Version};
ghost use Rattle.state_journal.specs.FrontRows.{AreFronts, FrontBreaksAt, IsSaid, number_in, SaysOf};

use sqlite::Row;
use sqlite_value::value::ValueRef;
use state_ids::{Front, LAST_NUMBER, NodeId};
use wire_frames::Version;

/// The version of the journals that nodes write.
pub const VERSION: u64 = 2;

/// The journal's version, and for each node a count of facts and the number of the last purge.
pub struct Fronts {
    pub version: Version,
    pub front: Front,
    pub purges: Front,
}

/// Returns the number in a column of a row, if it is one that a fact may have, or zero.
pub fn number(row: &Row, at: usize) -> Option<u64>
    ensures { result ≡ number_in (column row.now at) }
{
    match row.get_ref(at) {
        Ok(ValueRef::Int(n)) if 0 <= n && n <= LAST_NUMBER as i64 => Some(n as u64),
        _ => None,
    }
}

fn numbers(row: &Row, origin: u64) -> Option<(u64, u64)>
    ensures some { IfSome result (λ said. SaysOf row.now origin said.0 said.1) }
    ensures none { IfNone result ((held purged : ℕ) → ¬ SaysOf row.now origin held purged) }
{
    if number(row, 0)? != origin {
        return None;
    }
    let held = number(row, 1)?;
    let purged = number(row, 2)?;
    Some((held, purged))
}

fn said_of(rows: &[Row], origin: usize) -> Option<(u64, u64)>
    ensures some { IfSome result (λ said. IsSaid rows.now origin said.0 said.1) }
    ensures none { IfNone result ((held purged : ℕ) → ¬ IsSaid rows.now origin held purged) }
{
    let row = rows.get(origin)?;
    numbers(row, origin as u64)
}

/// Returns the version of a journal with this number.
fn version_of(number: u64) -> Option<Version>
    ensures some { IfSome result (λ version. version_mark version ≡ number) }
    ensures none { IfNone result ((version : Version) → version_mark version ≢ number) }
{
    match number {
        1 => Some(Version::One),
        2 => Some(Version::Two),
        _ => None,
    }
}

/// Returns the journal's version, if the first row is that of this node.
fn own_version(rows: &[Row], me: NodeId) -> Option<Version>
    ensures some { IfSome result (λ version. IsSaid rows.now 0 me (version_mark version)) }
    ensures none { IfNone result ((version : Version) → ¬ IsSaid rows.now 0 me (version_mark version)) }
{
    let (held, number) = said_of(rows, 0)?;
    if held != u64::from(me.number()) {
        return None;
    }
    version_of(number)
}

/// Returns the node at a place, counted from 0.
pub fn node_at(place: usize) -> NodeId
    requires { place < MAX_NODES }
    ensures { result ≡ place + 1 }
{
    match NodeId::new(place as u8 + 1) {
        Ok(node) => node,
        Err(_) => unreachable!(),
    }
}

/// Returns the version, counts and last purges in the rows of `front`, or the place of the first
/// row that is wrong or missing.
pub fn fronts_of(rows: &[Row], me: NodeId, nodes: usize) -> Result<Fronts, u64>
    requires some { 1 ≤ nodes }
    requires few { nodes ≤ MAX_NODES }
    ensures nodes { IfOk result (λ fronts. length fronts.front ≡ nodes) }
    ensures right { IfOk result (λ fronts. AreFronts fronts.version me rows.now fronts.front fronts.purges) }
    ensures breaks { IfErr result (FrontBreaksAt me nodes rows.now) }
{
    let Some(version) = own_version(rows, me) else {
        return Err(0);
    };
    let mut front = Front::zero(nodes);
    let mut purges = Front::zero(nodes);
    'nodes: for place in 0..nodes {
        let (held, purged) = match said_of(rows, place + 1) {
            Some(said) => said,
            None => return Err(place as u64 + 1),
        };
        let node = node_at(place);
        front.set(node, held);
        purges.set(node, purged);
    }
    if rows.len() > nodes + 1 {
        return Err(nodes as u64 + 1);
    }
    Ok(Fronts {
        version,
        front,
        purges,
    })
}
