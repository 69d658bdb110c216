// Which LRAs a list shows.
ghost use Rattle.std.specs.Prelude.{◌≡◌};
ghost use Rattle.std.specs.Option.{option_copied};
ghost use Rattle.wire_operators.specs.Filters.{after_at, filter_by, filter_in, shows, status_at, status_named};
ghost use Rattle.wire_operators.specs.Filters as spec;

use state_book::Summary;
use state_ids::{LraId, LraStatus};
use wire_api::id_of;

/// Which LRAs a list shows: those beyond an LRA, those with a status, or only roots. A list isn't
/// filtered by what a purge would be answered, and doesn't say since when an LRA has ended, because
/// the node would have to look through its home for each row. `/lra/ID` says it of one LRA, and the
/// page remembers when it first saw an end.
#[derive(Clone, Copy, Debug, PartialEq, Eq)]
pub struct Filter {
    pub after: Option<LraId>,
    pub status: Option<LraStatus>,
    pub is_of_roots: bool,
}

/// Returns the status with this name. The contract of `LraStatus::from_name` is a relation, but a
/// query is read by a function, so that what it asks for is one too.
fn status_named(name: &str) -> Option<LraStatus>
    ensures { result ≡ status_named name.now }
{
    match name {
        "Active" => Some(LraStatus::Active),
        "Closing" => Some(LraStatus::Closing),
        "Closed" => Some(LraStatus::Closed),
        "FailedToClose" => Some(LraStatus::FailedToClose),
        "Cancelling" => Some(LraStatus::Cancelling),
        "Cancelled" => Some(LraStatus::Cancelled),
        "FailedToCancel" => Some(LraStatus::FailedToCancel),
        _ => None,
    }
}

/// Returns the id behind `after=`, if the text is that.
fn after_at(text: &str) -> Option<LraId>
    ensures { result ≡ after_at text.now }
{
    let Some(id) = text.strip_prefix("after=") else {
        return None;
    };
    id_of(id)
}

/// Returns the status behind `status=`, if the text is that.
fn status_at(text: &str) -> Option<LraStatus>
    ensures { result ≡ status_at text.now }
{
    let Some(name) = text.strip_prefix("status=") else {
        return None;
    };
    status_named(name)
}

/// Reads a query of one part: an id, or a status.
fn one_of(text: &str, is_of_roots: bool) -> Option<Filter>
    ensures { result ≡ spec.one_of text.now is_of_roots }
{
    if let Some(after) = after_at(text) {
        return Some(Filter {
            after: Some(after),
            status: None,
            is_of_roots,
        });
    }
    match status_at(text) {
        Some(status) => Some(Filter {
            after: None,
            status: Some(status),
            is_of_roots,
        }),
        None => None,
    }
}

/// Reads a query of two parts: an id, and then a status.
fn both_of(first: &str, second: &str, is_of_roots: bool) -> Option<Filter>
    ensures { result ≡ spec.both_of first.now second.now is_of_roots }
{
    match (after_at(first), status_at(second)) {
        (Some(after), Some(status)) => Some(Filter {
            after: Some(after),
            status: Some(status),
            is_of_roots,
        }),
        _ => None,
    }
}

fn filter_by(query: &str, is_of_roots: bool) -> Option<Filter>
    ensures { result ≡ filter_by query.now is_of_roots }
{
    match query.split_once('&') {
        Some((first, second)) => both_of(first, second, is_of_roots),
        None => one_of(query, is_of_roots),
    }
}

/// Returns what a query asks for: all, `after=ID`, `status=S`, or both in this order.
pub(crate) fn filter_in(query: Option<&str>, is_of_roots: bool) -> Option<Filter>
    ensures { result ≡ filter_in (option_copied query.entry) is_of_roots }
{
    match query {
        Some(query) => filter_by(query, is_of_roots),
        None => Some(Filter {
            after: None,
            status: None,
            is_of_roots,
        }),
    }
}

impl Filter {
    /// Whether the list shows an LRA.
    pub(crate) fn shows(&self, summary: &Summary) -> bool
        ensures { result ≡ shows self.now summary.now }
    {
        let is_of_status = match self.status {
            Some(status) => status == summary.status,
            None => true,
        };
        is_of_status && (!self.is_of_roots || summary.parent.is_none())
    }
}
