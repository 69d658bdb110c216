// Index entries and their order.
ghost use Rattle.std.specs.Prelude.{◌≡◌};
ghost use Rattle.state_stamps.specs.Entries.{is_before, same_entry};

use state_ids::NodeId;

/// An entry says that the record of an LRA has this stamp of a node. Entries are ordered by stamp,
/// then home, then number.
#[derive(Clone, Copy, Debug, PartialEq, Eq)]
pub struct StampEntry {
    /// The number of the node's fact.
    pub stamp: u64,
    /// The LRA's home.
    pub home: NodeId,
    /// The number of the LRA's begin at its home.
    pub num: u64,
}

pub(crate) fn is_before(one: &StampEntry, other: &StampEntry) -> bool
    ensures { result ≡ is_before one.now other.now }
{
    if one.stamp != other.stamp {
        return one.stamp < other.stamp;
    }
    let home = one.home.number();
    let other_home = other.home.number();
    if home != other_home {
        return home < other_home;
    }
    one.num < other.num
}

pub(crate) fn is_same(one: &StampEntry, other: &StampEntry) -> bool
    ensures { result ≡ same_entry one.now other.now }
{
    one.stamp == other.stamp && one.home.number() == other.home.number() && one.num == other.num
}
