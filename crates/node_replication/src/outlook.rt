// What is remembered of trouble with another node, to log it.
ghost use Rattle.std.specs.Prelude.{◌≡◌, false, not, true};
ghost use Rattle.node_replication.specs.Outlooks.{is_due, none, since_of, with_answer, with_failure, with_odd};

use crate::moment::is_over;
use std::marker::Model;
use std::time::Duration;

/// How long nothing must be received from another node before that is logged.
const SILENCE_MS: u64 = 5_000;

/// Returns since when nothing was received, given a failed pull that began at a moment.
fn since_of(since: Option<Duration>, began: Duration) -> Duration
    ensures { result ≡ since_of since began }
{
    match since {
        Some(since) => since,
        None => began,
    }
}

/// What is remembered of trouble with another node, to log it once until all is well again.
#[derive(Drop)]
pub struct Outlook {
    /// Since when nothing was received from it.
    since: Option<Duration>,
    /// Whether that was logged.
    is_told: bool,
    /// Whether it was logged that this node's journal, or the other's, is older than what was sent,
    /// or that what the other sent can't be taken.
    is_odd: bool,
}

impl Model for Outlook {
    ghost use Rattle.node_replication.specs.Outlooks.{Trouble};

    ghost Value = { Trouble };

    ghost view = { λ o. record { since = o.since; is_told = o.is_told; is_odd = o.is_odd } };
}

impl Outlook {
    /// Makes the state without trouble.
    pub fn new() -> Outlook
        ensures { result ≡ none }
    {
        Outlook {
            since: None,
            is_told: false,
            is_odd: false,
        }
    }

    /// Records that a pull that began at a moment failed. Returns whether that is to be logged now.
    pub fn note_failure(&mut self, began: Duration, now: Duration) -> bool
        ensures due { result ≡ is_due began now self.old }
        ensures failed { self.new ≡ with_failure began now self.old }
    {
        let since = since_of(self.since, began);
        let is_due = !self.is_told && is_over(Duration::from_millis(SILENCE_MS), since, now);
        self.since = Some(since);
        self.is_told = self.is_told || is_due;
        is_due
    }

    /// Records that the node answers. Returns whether it is to be logged now that it answers again.
    pub fn note_answer(&mut self) -> bool
        ensures told { result ≡ self.old.is_told }
        ensures answered { self.new ≡ with_answer self.old }
    {
        let was_told = self.is_told;
        self.since = None;
        self.is_told = false;
        was_told
    }

    /// Records that no journal is older, and that what was received is taken.
    pub fn note_well(&mut self)
        ensures { self.new ≡ with_odd false self.old }
    {
        self.is_odd = false;
    }

    /// Records that a journal is older, or that something can't be taken. Returns whether that is
    /// to be logged now.
    pub fn note_odd(&mut self) -> bool
        ensures due { result ≡ not self.old.is_odd }
        ensures odd { self.new ≡ with_odd true self.old }
    {
        let was_odd = self.is_odd;
        self.is_odd = true;
        !was_odd
    }
}
