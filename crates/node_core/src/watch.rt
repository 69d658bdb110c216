// What a node warns its operators of, and what it remembers so that it doesn't warn again and again.
ghost use Rattle.std.specs.Prelude.{◌≡◌};
ghost use Rattle.node_core.specs.Watches.{copy_warnings, count_due, count_noted, disk_warning, failed_of, failures_due, failures_noted, fill_noted, is_claim_due, is_fuller, is_quiet, level_of, looks_noted, no_failures, no_fill, none_unlogged, untroubled};

use node_agenda::{Fill, STATUSES};
use state_forest::MAX_HELD;
use std::marker::Model;
use std::time::Duration;

/// The percentage of taken places from which on a node warns of its home.
const MANY: u64 = 75;

/// The percentage from which on it warns once more.
const MOST: u64 = 90;

/// Stands for more than all places.
const REFUSED: u64 = 101;

/// For how long after a warning there is no other of the same kind, in milliseconds.
const QUIET_MS: u64 = 60_000;

/// The ranks of the statuses of an LRA that failed to close, or to cancel.
const FAILED_TO_CLOSE: usize = 3;

const FAILED_TO_CANCEL: usize = 6;

/// At how many looks in a row a start may wait for what another node claims before there is a
/// warning.
const CLAIM_LOOKS: u64 = 5;

/// Whether less than a minute has passed since this moment, if there is one.
fn is_quiet(since: Option<Duration>, now: Duration) -> bool
    ensures { result ≡ is_quiet now since }
{
    match since {
        Some(since) => {
            now.saturating_sub(since).as_nanos() < Duration::from_millis(QUIET_MS).as_nanos()
        }
        None => false,
    }
}

/// Returns how full a home is, as a percentage of its places: the one from which on there is a
/// warning, or 0.
fn level_of(fill: &Fill) -> u64
    ensures { result ≡ level_of fill.now }
{
    let hundred = fill.taken.saturating_mul(100);
    if fill.is_refused {
        REFUSED
    } else if hundred >= MOST * MAX_HELD as u64 {
        MOST
    } else if hundred >= MANY * MAX_HELD as u64 {
        MANY
    } else {
        0
    }
}

/// Says when there is a warning of a home that fills up: once three quarters of its places are taken,
/// once nine tenths are, and once an LRA couldn't be begun. Each comes once, and again only if there
/// was room in between and a minute has passed.
#[derive(Drop)]
pub struct FillAlarm {
    level: u64,
    since: Option<Duration>,
}

impl Model for FillAlarm {
    ghost use Rattle.node_core.specs.Watches.{LoggedFill};

    ghost Value = { LoggedFill };

    ghost view = { λ a. record { level = a.level; since = a.since } };
}

impl FillAlarm {
    /// Makes the state in which there was no warning.
    pub fn new() -> FillAlarm
        ensures { result ≡ no_fill }
    {
        FillAlarm {
            level: 0,
            since: None,
        }
    }

    /// Records how full the home is. Returns whether there is to be a warning now.
    pub fn note(&mut self, fill: &Fill, now: Duration) -> bool
        ensures due { result ≡ is_fuller fill.now now self.old }
        ensures noted { self.new ≡ fill_noted fill.now now self.old }
    {
        let level = level_of(fill);
        if level == 0 && !is_quiet(self.since, now) {
            self.level = 0;
        }
        if level <= self.level {
            return false;
        }
        self.level = level;
        self.since = Some(now);
        true
    }
}

/// Counts what is worth a warning, such as closed connections, and says when there is one and which
/// number it names: at most once a minute.
#[derive(Drop)]
pub struct UnloggedCount {
    count: u64,
    since: Option<Duration>,
}

impl Model for UnloggedCount {
    ghost use Rattle.node_core.specs.Watches.{Unlogged};

    ghost Value = { Unlogged };

    ghost view = { λ a. record { count = a.count; since = a.since } };
}

impl UnloggedCount {
    /// Makes the state in which nothing was counted.
    pub fn new() -> UnloggedCount
        ensures { result ≡ none_unlogged }
    {
        UnloggedCount {
            count: 0,
            since: None,
        }
    }

    /// Adds to the count, which stops at 2^64 - 1. Returns the number for a warning, if there is to
    /// be one now: all that were counted since the last warning.
    pub fn add(&mut self, count: u64, now: Duration) -> Option<u64>
        ensures due { result ≡ count_due count now self.old }
        ensures noted { self.new ≡ count_noted count now self.old }
    {
        let unlogged = self.count.saturating_add(count);
        if unlogged == 0 || is_quiet(self.since, now) {
            self.count = unlogged;
            return None;
        }
        self.count = 0;
        self.since = Some(now);
        Some(unlogged)
    }
}

/// Returns how many LRAs failed to close or to cancel, given how many show each status, by rank.
fn failed_of(held: &[u64; STATUSES]) -> u64
    ensures { result ≡ failed_of held.now }
{
    held[FAILED_TO_CLOSE].saturating_add(held[FAILED_TO_CANCEL])
}

/// Says when there is a warning of LRAs that failed: if there are more than were logged, at most once
/// a minute. If fewer are left by now, only these count as logged.
#[derive(Drop)]
pub struct FailureAlarm {
    told: u64,
    since: Option<Duration>,
}

impl Model for FailureAlarm {
    ghost use Rattle.node_core.specs.Watches.{LoggedFailures};

    ghost Value = { LoggedFailures };

    ghost view = { λ a. record { told = a.told; since = a.since } };
}

impl FailureAlarm {
    /// Makes the state in which there was no warning.
    pub fn new() -> FailureAlarm
        ensures { result ≡ no_failures }
    {
        FailureAlarm {
            told: 0,
            since: None,
        }
    }

    /// Records how many LRAs of the home show each status, by rank. Returns how many failed, if there
    /// is to be a warning now.
    pub fn note(&mut self, held: &[u64; STATUSES], now: Duration) -> Option<u64>
        ensures due { result ≡ failures_due (failed_of held.now) now self.old }
        ensures noted { self.new ≡ failures_noted (failed_of held.now) now self.old }
    {
        let failed = failed_of(held);
        if failed <= self.told || is_quiet(self.since, now) {
            self.told = self.told.min(failed);
            return None;
        }
        self.told = failed;
        self.since = Some(now);
        Some(failed)
    }
}

/// What there is to log of the disk.
#[derive(Clone, Copy, Debug, PartialEq, Eq)]
pub enum DiskWarning {
    /// It hangs: a call has waited for this long.
    Hangs(Duration),
    /// It answers again: at the look before, a call had waited for this long.
    Answers(Duration),
}

/// Says when there is a warning that the disk hangs, and when to log that it answers again.
#[derive(Drop)]
pub struct HangAlarm {
    hung: Option<Duration>,
}

impl Model for HangAlarm {
    ghost use Rattle.std.specs.Prelude.{Option};
    ghost use Rattle.std.specs.declared.time.Duration.{Duration};

    ghost Value = { Option Duration };

    ghost view = { λ a. a.hung };
}

impl HangAlarm {
    ghost use Rattle.std.specs.Prelude.{None};

    /// Makes the state of a disk that doesn't hang.
    pub fn new() -> HangAlarm
        ensures { result ≡ None }
    {
        HangAlarm { hung: None }
    }

    /// Records for how long a call has waited, if the disk hangs. Returns what there is to log.
    pub fn note(&mut self, hangs: Option<Duration>) -> Option<DiskWarning>
        ensures due { result ≡ disk_warning self.old hangs }
        ensures noted { self.new ≡ hangs }
    {
        let hung = self.hung;
        self.hung = hangs;
        match (hung, hangs) {
            (None, Some(time)) => Some(DiskWarning::Hangs(time)),
            (Some(time), None) => Some(DiskWarning::Answers(time)),
            _ => None,
        }
    }
}

/// What is wrong with the copies of a node's facts.
#[derive(Clone, Copy)]
pub struct CopyTroubles {
    /// Whether other nodes fell behind for longer than an answer waits.
    pub is_short: bool,
    /// Whether another node claims to have facts of this node that it never sent.
    pub is_strange: bool,
    /// Whether another node has such facts.
    pub is_doubted: bool,
}

/// What there is to log of the copies.
#[derive(Clone, Copy, Debug, PartialEq, Eq)]
pub struct CopyWarnings {
    /// Whether the other nodes have caught up.
    pub are_copied: bool,
    /// Whether another node has begun to claim that it has facts that were never sent.
    pub is_strange: bool,
    /// Whether another node was found to have such facts.
    pub is_doubted: bool,
}

/// Says when there is something to log of the copies of a node's facts: once as a trouble comes or
/// ends.
#[derive(Drop)]
pub struct CopyAlarm {
    was: CopyTroubles,
}

impl Model for CopyAlarm {
    ghost use Rattle.node_core.specs.declared.watch.CopyTroubles.{CopyTroubles};

    ghost Value = { CopyTroubles };

    ghost view = { λ a. a.was };
}

impl CopyAlarm {
    /// Makes the state in which nothing is wrong.
    pub fn new() -> CopyAlarm
        ensures { result ≡ untroubled }
    {
        CopyAlarm {
            was: CopyTroubles {
                is_short: false,
                is_strange: false,
                is_doubted: false,
            },
        }
    }

    /// Records what is wrong now. Returns what there is to log.
    pub fn note(&mut self, seen: CopyTroubles) -> CopyWarnings
        ensures due { result ≡ copy_warnings self.old seen }
        ensures noted { self.new ≡ seen }
    {
        let was = self.was;
        self.was = seen;
        CopyWarnings {
            are_copied: was.is_short && !seen.is_short,
            is_strange: seen.is_strange && !was.is_strange,
            is_doubted: seen.is_doubted && !was.is_doubted,
        }
    }
}

/// Says when there is a warning of a start that waits for what another node claims: once, at the
/// sixth look in a row at which it waits.
#[derive(Drop)]
pub struct ClaimAlarm {
    looks: u64,
}

impl Model for ClaimAlarm {
    ghost use Rattle.std.specs.Prelude.{ℕ};

    ghost Value = { ℕ };

    ghost view = { λ a. a.looks };
}

impl ClaimAlarm {
    /// Makes the state in which no start waits.
    pub fn new() -> ClaimAlarm
        ensures { result ≡ 0 }
    {
        ClaimAlarm { looks: 0 }
    }

    /// Records whether a start waits for a claim at this look. Returns whether there is to be a
    /// warning now.
    pub fn note(&mut self, waits: bool) -> bool
        ensures due { result ≡ is_claim_due waits self.old }
        ensures noted { self.new ≡ looks_noted waits self.old }
    {
        let looks = self.looks;
        self.looks = if waits { looks.saturating_add(1) } else { 0 };
        waits && looks == CLAIM_LOOKS
    }
}
