// What a node purges by itself, and when: the types.
ghost use Rattle.std.specs.Prelude.{◌≡◌};
ghost use Rattle.state_ids.specs.Ids.{same_id};
ghost use Rattle.node_agenda.specs.Sweeps.{freed, hastened, is_due, is_ripe, is_tried, newcomer, next_pause, purges, put_off_if, seen_as, time_of, unfound, waiting};

use crate::ripe::Ripe;
use state_ids::{LraId, LraStatus};
use std::marker::Model;
use std::time::Duration;

/// The first pause before a refused purge is tried again. The pause doubles each time.
const FIRST_PAUSE_MS: u64 = 1_000;

/// The longest pause.
const LAST_PAUSE_MS: u64 = 60_000;

/// How long roots are kept, counted from when they were first seen to show what they show, in
/// milliseconds; for ever, if no time is given.
#[derive(Clone, Copy)]
pub struct Keep {
    /// Roots that are closed or cancelled.
    pub ended: Option<u64>,
    /// Roots that failed to close or to cancel.
    pub failed: Option<u64>,
}

/// The next step in sweeping a home.
#[derive(Drop)]
pub enum Chore {
    /// List the LRAs beyond this one.
    List(Option<LraId>),
    /// Purge this root, if it still shows what it showed.
    Purge(Ripe),
}

/// How full a home is.
#[derive(Clone, Copy)]
pub struct Fill {
    /// How many LRAs of the home the last look found.
    pub taken: u64,
    /// Whether an LRA couldn't be begun, because the home was full, since this was last asked.
    pub is_refused: bool,
}

/// The result of a purge.
#[derive(Clone, Copy, PartialEq, Eq)]
pub enum Purged {
    /// It is purged.
    Gone,
    /// It was no longer held.
    Missing,
    /// It is nested in another LRA, and is purged with that.
    Nested,
    /// A participant of this LRA must be notified first.
    Waits(LraId),
    /// By now it shows something else.
    Changed,
    /// It is to be tried again later.
    Later,
}

impl Keep {
    /// Returns how long a root that shows this is kept, in milliseconds, if it is ever to be
    /// purged.
    pub(crate) fn time_of(&self, seen: LraStatus) -> Option<u64>
        ensures { result ≡ time_of self.now seen }
    {
        match seen {
            LraStatus::Closed | LraStatus::Cancelled => self.ended,
            LraStatus::FailedToClose | LraStatus::FailedToCancel => self.failed,
            LraStatus::Active | LraStatus::Closing | LraStatus::Cancelling => None,
        }
    }

    /// Whether anything is ever purged.
    pub(crate) fn purges(&self) -> bool
        ensures { result ≡ purges self.now }
    {
        self.ended.is_some() || self.failed.is_some()
    }
}

/// Returns how long a refused purge waits, after a pause of this many milliseconds.
fn next_pause(pause_ms: u64) -> u64
    ensures { result ≡ next_pause pause_ms }
{
    pause_ms
        .saturating_mul(2)
        .max(FIRST_PAUSE_MS)
        .min(LAST_PAUSE_MS)
}

/// An LRA of the home that has ended.
#[derive(Drop)]
pub(crate) struct EndedRoot {
    id: LraId,
    /// What its tree showed at the last look, and since when.
    seen: LraStatus,
    since: Duration,
    /// Before this moment no purge is tried. `None` means never: the LRA is nested in another.
    tries_at: Option<Duration>,
    /// How long it paused after the last purge that was refused.
    pause_ms: u64,
    /// The LRA of which a participant must be notified first.
    waits_for: Option<LraId>,
    /// Whether the current or the last look has found it.
    is_found: bool,
}

impl Model for EndedRoot {
    ghost use Rattle.std.specs.Duration.{as_nanos};
    ghost use Rattle.std.specs.Option.{option_map};
    ghost use Rattle.node_agenda.specs.Sweeps.{Root};

    ghost Value = { Root };

    ghost view = { λ e. record {
      id = e.id;
      seen = e.seen;
      since = e.since;
      is_found = e.is_found;
      tries_at = option_map as_nanos e.tries_at;
      pause = e.pause_ms;
      waits_for = e.waits_for;
    } };
}

impl EndedRoot {
    /// Makes the root whose tree was seen to show this for the first time.
    pub(crate) fn new(id: LraId, seen: LraStatus, now: Duration) -> EndedRoot
        ensures { result ≡ newcomer id seen now }
    {
        EndedRoot {
            id,
            seen,
            since: now,
            tries_at: Some(Duration::ZERO),
            pause_ms: 0,
            waits_for: None,
            is_found: true,
        }
    }

    /// Returns the root as one that was kept long enough.
    pub(crate) fn as_ripe(&self) -> Ripe
        ensures { result ≡ record { root = self.now.id; seen = self.now.seen } }
    {
        Ripe::new(self.id, self.seen)
    }

    /// Whether it is this LRA.
    pub(crate) fn is(&self, id: LraId) -> bool
        ensures { result ≡ same_id self.now.id id }
    {
        self.id == id
    }

    /// Whether the look found it.
    pub(crate) fn is_found(&self) -> bool
        ensures { result ≡ self.now.is_found }
    {
        self.is_found
    }

    /// Records that a look begins, which hasn't found it yet.
    pub(crate) fn unfind(&mut self)
        ensures { self.new ≡ unfound self.old }
    {
        self.is_found = false;
    }

    /// Records what the tree of an LRA shows at this moment, if it is this root's. Its time begins
    /// anew if the tree showed something else before.
    pub(crate) fn see(&mut self, id: LraId, seen: LraStatus, now: Duration)
        ensures { self.new ≡ seen_as id seen now self.old }
    {
        if !self.is(id) {
            return;
        }
        self.is_found = true;
        if self.seen.rank() == seen.rank() {
            return;
        }
        self.seen = seen;
        self.since = now;
        self.tries_at = Some(Duration::ZERO);
        self.pause_ms = 0;
        self.waits_for = None;
    }

    /// Puts the purge off, for longer than the last time, or until a participant of an LRA was
    /// notified.
    fn wait_from(&mut self, now: Duration, waits_for: Option<LraId>)
        ensures { self.new ≡ waiting now waits_for self.old }
    {
        self.pause_ms = next_pause(self.pause_ms);
        self.tries_at = Some(now.saturating_add(Duration::from_millis(self.pause_ms)));
        self.waits_for = waits_for;
    }

    /// Records the result of a refused purge, if it was of this root.
    pub(crate) fn put_off(&mut self, id: LraId, purged: &Purged, now: Duration)
        ensures { self.new ≡ put_off_if id purged.now now self.old }
    {
        if !self.is(id) {
            return;
        }
        match purged {
            Purged::Waits(other) => self.wait_from(now, Some(*other)),
            Purged::Changed | Purged::Later => self.wait_from(now, None),
            Purged::Gone | Purged::Missing | Purged::Nested => {
                self.tries_at = None;
            }
        }
    }

    /// Makes the purge be tried at once, if it waits for a participant of this LRA.
    pub(crate) fn free(&mut self, id: LraId)
        ensures { self.new ≡ freed id self.old }
    {
        if let Some(other) = self.waits_for {
            if other == id {
                self.tries_at = Some(Duration::ZERO);
                self.waits_for = None;
            }
        }
    }

    /// Makes the purge be tried within a second, if it waits for a participant of any LRA.
    pub(crate) fn hasten(&mut self, now: Duration)
        ensures { self.new ≡ hastened now self.old }
    {
        if self.waits_for.is_none() {
            return;
        }
        let soon = now.saturating_add(Duration::from_millis(FIRST_PAUSE_MS));
        if let Some(until) = self.tries_at {
            if soon.as_nanos() < until.as_nanos() {
                self.tries_at = Some(soon);
                self.pause_ms = 0;
            }
        }
    }

    /// Whether it was kept for as long as roots that show the same are to be.
    fn is_ripe(&self, keep: &Keep, now: Duration) -> bool
        ensures { result ≡ is_ripe keep.now now self.now }
    {
        match keep.time_of(self.seen) {
            Some(time) => {
                let kept = now.saturating_sub(self.since);
                Duration::from_millis(time).as_nanos() <= kept.as_nanos()
            }
            None => false,
        }
    }

    /// Whether a purge may be tried at this moment.
    fn is_tried(&self, now: Duration) -> bool
        ensures { result ≡ is_tried now self.now.tries_at }
    {
        match self.tries_at {
            Some(until) => until.as_nanos() <= now.as_nanos(),
            None => false,
        }
    }

    /// Whether it is to be purged at this moment.
    pub(crate) fn is_due(&self, keep: &Keep, now: Duration) -> bool
        ensures { result ≡ is_due keep.now now self.now }
    {
        self.is_ripe(keep, now) && self.is_tried(now)
    }
}
