// Counts the LRAs of a home by what they show.
ghost use Rattle.std.specs.Prelude.{◌≡◌};
ghost use Rattle.node_agenda.specs.Censuses.{counted_at, counted_over, counting, none_counted, one_more, with_one};

use state_ids::LraStatus;
use std::marker::Model;

/// How many statuses there are.
pub const STATUSES: usize = 7;

/// What the LRAs of a home show, as far as they have been counted.
#[derive(Drop)]
pub(crate) struct Census {
    /// How many LRAs of the home the look has found so far, and how many of them show each status,
    /// by its rank.
    counted: u64,
    showing: [u64; STATUSES],
    /// How many of the LRAs that the last look found showed each status.
    held: [u64; STATUSES],
}

impl Model for Census {
    ghost use Rattle.node_agenda.specs.Censuses.{Counts};

    ghost Value = { Counts };

    ghost view = { λ c. record { counted = c.counted; showing = c.showing; held = c.held } };
}

/// Returns one more than `count`, as far as 64 bits reach.
fn one_more(count: u64) -> u64
    ensures { result ≡ one_more count }
{
    count.saturating_add(1)
}

/// Adds one to the count at a position, if there is such a position.
fn count_at(counts: &mut [u64; STATUSES], place: usize)
    ensures { counts.new ≡ counted_at place counts.old }
{
    if place < STATUSES {
        counts[place] = one_more(counts[place]);
    }
}

impl Census {
    /// Makes a census in which nothing was counted yet.
    pub(crate) fn new() -> Census
        ensures { result ≡ none_counted }
    {
        Census {
            counted: 0,
            showing: [0; STATUSES],
            held: [0; STATUSES],
        }
    }

    /// Returns how many LRAs the look has found so far.
    pub(crate) fn counted(&self) -> u64
        ensures { result ≡ self.now.counted }
    {
        self.counted
    }

    /// Returns how many LRAs showed each status at the end of the last look.
    pub(crate) fn held(&self) -> [u64; STATUSES]
        ensures { result ≡ self.now.held }
    {
        self.held
    }

    /// Records that a look begins.
    pub(crate) fn begin(&mut self)
        ensures { self.new ≡ counting self.old }
    {
        self.counted = 0;
        self.showing = [0; STATUSES];
    }

    /// Records that the look is over.
    pub(crate) fn end(&mut self)
        ensures { self.new ≡ counted_over self.old }
    {
        self.held = self.showing;
    }

    /// Counts an LRA that shows this status.
    pub(crate) fn count(&mut self, status: LraStatus)
        ensures { self.new ≡ with_one status self.old }
    {
        self.counted = one_more(self.counted);
        count_at(&mut self.showing, usize::from(status.rank()));
    }
}
