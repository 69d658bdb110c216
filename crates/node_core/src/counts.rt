// What a node counts for its operators, since its start.
ghost use Rattle.std.specs.Prelude.{◌≡◌, ◌<◌, ◌-◌};
ghost use Rattle.node_core.specs.Counts.{accepted_once, answer_place, call_place, called, called_back, closed_by, failed_once, has_answered, kind_place, pull_place, pulled_by, purge_place, purged_by, raised, refused_once, run_ended, run_place, uncounted};

use node_agenda::Purged;
use state_ids::{MAX_NODES, NodeId, Outcome};
use std::time::Duration;
use wire_callbacks::{Heard, Kind};

/// How many kinds of calls of the desk there are.
const CALLS: usize = 18;

/// How many nodes there are at most.
const NODES: usize = MAX_NODES as usize;

/// The names of the kinds of calls, in the order in which they are counted.
pub const CALL_NAMES: [&str; CALLS] = [
    "begin", "join", "leave", "close", "cancel", "report", "forgot", "told", "purge", "status",
    "member", "page", "pull", "take", "duties", "expire", "record", "survey",
];

/// How many refusals there are: E1 to E24.
pub const REFUSALS: usize = 24;

/// The names of the reasons for which runs end.
pub const RUNS: [&str; 6] = ["full", "E18", "E19", "E20", "E21", "starved"];

/// What participants are called for.
pub const KINDS: [&str; 5] = ["complete", "compensate", "status", "forget", "after"];

/// What participants answer.
pub const HEARD: [&str; 5] = ["done", "failed", "busy", "told", "again"];

/// The results of pulls.
pub const PULLS: [&str; 4] = ["new", "nothing", "failed", "refused"];

/// The results of purges.
pub const SWEPT: [&str; 6] = ["gone", "nested", "waits", "later", "changed", "missing"];

/// What a call of the desk asks for, as it is counted.
#[derive(Clone, Copy, PartialEq, Eq)]
pub enum CallKind {
    Begin,
    Join,
    Leave,
    Close,
    Cancel,
    Report,
    Forgot,
    Told,
    Purge,
    Status,
    Member,
    Page,
    Pull,
    Take,
    Duties,
    Expire,
    Record,
    Survey,
}

/// Why a run is over, as it is counted. A run that ends with its program isn't counted.
#[derive(Clone, Copy, PartialEq, Eq)]
pub enum RunEnd {
    /// It was nearly full.
    Full,
    JournalFailed,
    Stopped,
    RunFull,
    TrailLost,
    /// A thread could not be started, or memory ran out.
    Starved,
}

/// The result of a pull, as it is counted.
#[derive(Clone, Copy, PartialEq, Eq)]
pub enum PullResult {
    New,
    Nothing,
    Failed,
    /// What was sent can't be taken.
    Refused,
}

impl CallKind {
    /// Returns its place among the names.
    fn place(self) -> usize
        ensures { result ≡ call_place self }
    {
        match self {
            CallKind::Begin => 0,
            CallKind::Join => 1,
            CallKind::Leave => 2,
            CallKind::Close => 3,
            CallKind::Cancel => 4,
            CallKind::Report => 5,
            CallKind::Forgot => 6,
            CallKind::Told => 7,
            CallKind::Purge => 8,
            CallKind::Status => 9,
            CallKind::Member => 10,
            CallKind::Page => 11,
            CallKind::Pull => 12,
            CallKind::Take => 13,
            CallKind::Duties => 14,
            CallKind::Expire => 15,
            CallKind::Record => 16,
            CallKind::Survey => 17,
        }
    }
}

impl RunEnd {
    fn place(self) -> usize
        ensures { result ≡ run_place self }
    {
        match self {
            RunEnd::Full => 0,
            RunEnd::JournalFailed => 1,
            RunEnd::Stopped => 2,
            RunEnd::RunFull => 3,
            RunEnd::TrailLost => 4,
            RunEnd::Starved => 5,
        }
    }
}

impl PullResult {
    fn place(self) -> usize
        ensures { result ≡ pull_place self }
    {
        match self {
            PullResult::New => 0,
            PullResult::Nothing => 1,
            PullResult::Failed => 2,
            PullResult::Refused => 3,
        }
    }

    /// Whether the other node was reached, and answered with what it knows.
    fn has_answered(self) -> bool
        ensures { result ≡ has_answered self }
    {
        match self {
            PullResult::New | PullResult::Nothing => true,
            PullResult::Failed | PullResult::Refused => false,
        }
    }
}

/// Returns the place of what a participant is called for.
fn kind_place(kind: Kind) -> usize
    ensures { result ≡ kind_place kind }
{
    match kind {
        Kind::Complete => 0,
        Kind::Compensate => 1,
        Kind::Status => 2,
        Kind::Forget => 3,
        Kind::After => 4,
    }
}

/// Returns the place of what a participant answered.
fn answer_place(heard: Option<Heard>) -> usize
    ensures { result ≡ answer_place heard }
{
    match heard {
        Some(Heard::Outcome(Outcome::Done)) => 0,
        Some(Heard::Outcome(Outcome::Failed)) => 1,
        Some(Heard::Outcome(Outcome::Busy)) => 2,
        Some(Heard::Forgot) | Some(Heard::Told) => 3,
        Some(Heard::Again) | None => 4,
    }
}

fn purge_place(purged: Purged) -> usize
    ensures { result ≡ purge_place purged }
{
    match purged {
        Purged::Gone => 0,
        Purged::Nested => 1,
        Purged::Waits(_) => 2,
        Purged::Later => 3,
        Purged::Changed => 4,
        Purged::Missing => 5,
    }
}

/// What a node counts, since its start.
#[derive(Clone, Copy)]
pub struct NodeCounts {
    /// Calls of the desk by kind, in the order of `CALL_NAMES`.
    pub calls: [u64; CALLS],
    /// Refused calls by the number of the refusal, from E1 on.
    pub refused: [u64; REFUSALS],
    /// Runs that ended by reason, in the order of `RUNS`.
    pub runs: [u64; 6],
    /// Calls of participants by kind, and by answer.
    pub callbacks: [[u64; 5]; 5],
    /// Pulls by node, and by result.
    pub pulls: [[u64; 4]; NODES],
    /// When a pull from each node last succeeded.
    pub pulled: [Option<Duration>; NODES],
    /// Purges that the node made on its own, by result.
    pub swept: [u64; 6],
    /// Failures of the journal, and failed attempts to reopen it.
    pub failures: u64,
    /// Connections that were accepted.
    pub accepted: u64,
    /// Connections that were closed because no file descriptor was left.
    pub closed: u64,
}

impl NodeCounts {
    /// Makes the counts of a node for which nothing has happened yet.
    pub fn new() -> NodeCounts
        ensures { result ≡ uncounted }
    {
        NodeCounts {
            calls: [0; CALLS],
            refused: [0; REFUSALS],
            runs: [0; 6],
            callbacks: [[0; 5]; 5],
            pulls: [[0; 4]; NODES],
            pulled: [None; NODES],
            swept: [0; 6],
            failures: 0,
            accepted: 0,
            closed: 0,
        }
    }

    /// Counts a call of the desk and, if it was refused, its refusal by number. A number beyond E24
    /// isn't counted.
    pub fn count_call(&mut self, asked: CallKind, refusal: Option<u8>)
        ensures { self.new ≡ called asked refusal self.old }
    {
        let place = asked.place();
        self.calls[place] = self.calls[place].saturating_add(1);
        if let Some(number) = refusal {
            let place = usize::from(number.saturating_sub(1));
            if place < REFUSALS {
                self.refused[place] = self.refused[place].saturating_add(1);
            }
        }
    }

    /// Counts a run that is over.
    pub fn count_run(&mut self, why: RunEnd)
        ensures { self.new ≡ run_ended why self.old }
    {
        let place = why.place();
        self.runs[place] = self.runs[place].saturating_add(1);
    }

    /// Counts a call of a participant by what it was called for, and by its answer.
    pub fn count_callback(&mut self, kind: Kind, heard: Option<Heard>)
        ensures { self.new ≡ called_back kind heard self.old }
    {
        let (row, place) = (kind_place(kind), answer_place(heard));
        self.callbacks[row][place] = self.callbacks[row][place].saturating_add(1);
    }

    /// Counts a pull from another node by its result, and records the moment if that node answered.
    pub fn count_pull(&mut self, other: NodeId, came: PullResult, now: Duration)
        ensures { self.new ≡ pulled_by other came now self.old }
    {
        let (row, place) = (usize::from(other.number()) - 1, came.place());
        self.pulls[row][place] = self.pulls[row][place].saturating_add(1);
        if came.has_answered() {
            self.pulled[row] = Some(now);
        }
    }

    /// Counts a purge that the node made on its own.
    pub fn count_purge(&mut self, came: Purged)
        ensures { self.new ≡ purged_by came self.old }
    {
        let place = purge_place(came);
        self.swept[place] = self.swept[place].saturating_add(1);
    }

    /// Counts a failure of the journal, or a failed attempt to reopen it.
    pub fn count_failure(&mut self)
        ensures { self.new ≡ failed_once self.old }
    {
        self.failures = self.failures.saturating_add(1);
    }

    /// Counts a connection that was accepted.
    pub fn count_accepted(&mut self)
        ensures { self.new ≡ accepted_once self.old }
    {
        self.accepted = self.accepted.saturating_add(1);
    }

    /// Counts connections that were closed because no file descriptor was left.
    pub fn count_closed(&mut self, connections: u64)
        ensures { self.new ≡ closed_by connections self.old }
    {
        self.closed = self.closed.saturating_add(connections);
    }
}
