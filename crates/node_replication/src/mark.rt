// Remembers the given frames that too few other nodes are known to have.
ghost use Rattle.std.specs.Prelude.{◌≡◌, ◌&&◌, filter, max};
ghost use Rattle.std.specs.List.{list_any};
ghost use Rattle.node_replication.specs.Spreads.{copied_tickets, greatest, is_copied, is_in_time, is_uncopied, put};

use crate::acknowledgements::Acknowledgements;
use crate::moment::is_over;
use arrayvec::ArrayVec;
use std::time::Duration;

/// The most frames that are remembered.
pub const MAX_MARKS: usize = 64;

/// A frame that was given: it has each fact with a ticket up to this one, and counts this many
/// facts of this node.
#[derive(Clone, Copy, Default)]
pub(crate) struct Mark {
    pub(crate) ticket: u64,
    pub(crate) count: u64,
    /// When the frame was given.
    pub(crate) at: Duration,
}

pub(crate) type MarkList = ArrayVec<Mark, MAX_MARKS>;

/// Puts a mark last. If there is no room, it replaces the last.
pub(crate) fn put(marks: &mut MarkList, mark: Mark)
    ensures { marks.new.items ≡ put mark marks.old.items }
{
    marks.truncate(MAX_MARKS - 1);
    marks.push(mark);
}

/// Returns the marks that too few other nodes have.
pub(crate) fn uncopied(marks: &MarkList, others: &Acknowledgements) -> MarkList
    ensures { result.items ≡ filter (is_uncopied others.now) marks.now.items }
{
    let mut left = MarkList::new();
    for mark in marks.as_slice() {
        if !others.have(mark.count) {
            left.push(*mark);
        }
    }
    left
}

/// Returns the greatest of a ticket and of the tickets of the marks that enough other nodes have.
pub(crate) fn covered_by(marks: &[Mark], others: &Acknowledgements, covered: u64) -> u64
    ensures { result ≡ max covered (greatest (copied_tickets others.now marks.now)) }
{
    let mut most = covered;
    for mark in marks {
        if others.have(mark.count) {
            most = most.max(mark.ticket);
        }
    }
    most
}

/// Whether enough other nodes have a frame that was given within the patience.
pub(crate) fn is_any_in_time(
    marks: &[Mark],
    others: &Acknowledgements,
    patience: Duration,
    now: Duration,
) -> bool
    ensures { result ≡ list_any (is_in_time others.now patience now) marks.now }
{
    for mark in marks {
        if others.have(mark.count) && !is_over(patience, mark.at, now) {
            return true;
        }
    }
    false
}
