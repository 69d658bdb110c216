// Decides when a node looks through its home.
ghost use Rattle.std.specs.Prelude.{◌≡◌, false, true};
ghost use Rattle.node_agenda.specs.declared.looking.TheConstants.{MANY};
ghost use Rattle.node_agenda.specs.Looks.{Begins, has_changed, is_to_look, look_pause, looked_over, may_be_many, missed, with_begun, with_purged, with_stir};
ghost use Rattle.node_schedule.specs.Slips.{at_once};

use state_forest::MAX_HELD;
use std::time::Duration;

/// How often the home is looked through at most.
const LOOK_MS: u64 = 250;

/// How often at most if many of its places are taken.
const LOOK_OF_MANY_MS: u64 = 50;

/// How often it is looked through at most to know what its LRAs show.
const LOOK_TO_COUNT_MS: u64 = 1_000;

/// From how many on places count as many: half of a home's places.
const HALF: u64 = MAX_HELD as u64 / 2;

/// From how many taken places on a warning is due: three quarters.
pub const MANY: u64 = MAX_HELD as u64 / 4 * 3;

/// When the home is looked through, and why.
#[derive(Drop)]
pub(crate) struct Looking {
    /// Whether anybody wants to know how full the home is, and what its LRAs show.
    pub(crate) counts: bool,
    pub(crate) is_watched: bool,
    /// Whether an LRA may have ended since the last look.
    pub(crate) is_stirred: bool,
    /// The most LRAs that may have been begun since then.
    pub(crate) begun: u64,
    /// Whether some were purged since then.
    pub(crate) has_purged: bool,
    /// Whether there was no room to remember an LRA that has ended.
    pub(crate) has_missed: bool,
    /// How many LRAs the last look found.
    pub(crate) taken: u64,
    /// The earliest moment for the next look, and for a look that is only to know what the home's
    /// LRAs show.
    pub(crate) looks_at: Duration,
    pub(crate) counts_at: Duration,
}

impl Looking {
    /// Makes the schedule at a start, when the number of LRAs is to be found out.
    pub(crate) fn new(counts: bool, is_watched: bool) -> Looking
        ensures { result ≡ record { counts = counts; is_watched = is_watched; is_stirred = true; begun = MANY; has_purged = false; has_missed = false; taken = 0; looks_at = at_once; counts_at = at_once } }
    {
        Looking {
            counts,
            is_watched,
            is_stirred: true,
            begun: MANY,
            has_purged: false,
            has_missed: false,
            taken: 0,
            looks_at: Duration::ZERO,
            counts_at: Duration::ZERO,
        }
    }

    /// Records that an LRA may have ended.
    pub(crate) fn stir(&mut self)
        ensures { self.new ≡ with_stir self.old }
    {
        self.is_stirred = true;
    }

    /// Records that LRAs were purged.
    pub(crate) fn note_purged(&mut self)
        ensures { self.new ≡ with_purged self.old }
    {
        self.has_purged = true;
    }

    /// Records that an LRA was begun.
    pub(crate) fn note_begun(&mut self)
        ensures { self.new ≡ with_begun self.old }
    {
        self.begun = self.begun.saturating_add(1);
    }

    /// Records that there was no room to remember an LRA that has ended.
    pub(crate) fn note_missed(&mut self)
        ensures { self.new ≡ missed self.old }
    {
        self.has_missed = true;
    }

    fn may_be_many(&self) -> bool
        ensures { result ≡ may_be_many self.now }
    {
        self.counts && (self.begun > 0 && (self.taken >= MANY || self.begun >= MANY - self.taken))
    }

    fn has_changed(&self) -> bool
        ensures { result ≡ has_changed self.now }
    {
        self.begun > 0 || (self.is_stirred || self.has_purged)
    }

    /// Whether to look through the home at this moment: because LRAs that are to be purged may have
    /// ended, or so many were begun that their number must be known; or, once in a while, because
    /// something else that is to be known may have changed.
    pub(crate) fn is_to_look(&self, purges: bool, now: Duration) -> bool
        ensures { result ≡ is_to_look now purges self.now }
    {
        let may_look = self.looks_at.as_nanos() <= now.as_nanos();
        let may_count = self.counts_at.as_nanos() <= now.as_nanos();
        may_look
            && (self.may_be_many()
                || ((self.is_watched && (may_count && self.has_changed()))
                    || (purges && self.is_stirred)))
    }

    /// Returns the least time from a look that begins now to the next one, in milliseconds.
    fn pause(&self) -> u64
        ensures { result ≡ look_pause self.now }
    {
        if self.taken >= HALF {
            LOOK_OF_MANY_MS
        } else {
            LOOK_MS
        }
    }

    /// Records that a look begins.
    pub(crate) fn begin(&mut self, now: Duration)
        ensures { Begins now self.old self.new }
    {
        self.is_stirred = false;
        self.begun = 0;
        self.has_purged = false;
        self.looks_at = now.saturating_add(Duration::from_millis(self.pause()));
        self.counts_at = now.saturating_add(Duration::from_millis(LOOK_TO_COUNT_MS));
    }

    /// Records that a look is over, which found `taken` LRAs. Another look follows if there was no
    /// room to remember an LRA that has ended.
    pub(crate) fn end(&mut self, taken: u64)
        ensures { self.new ≡ looked_over taken self.old }
    {
        self.is_stirred = self.is_stirred || self.has_missed;
        self.has_missed = false;
        self.taken = taken;
    }
}
