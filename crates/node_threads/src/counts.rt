// What the threads of a node count, for its operator's port. The counts stand under one lock and
// not in forty atomics, so that a page shows them all as of one moment. No thread holds the lock
// while it waits for anything.

use node_agenda::Purged;
use node_core::{CallKind, NodeCounts, PullResult, RunEnd};
use node_sockets::StopReason;
use state_ids::NodeId;
use std::sync::{Mutex, Wait};
use std::time::Duration;
use wire_callbacks::{Heard, Kind};

/// Returns as what the end of a run is counted. The end of the program isn't.
fn run_end(reason: StopReason) -> Option<RunEnd> {
    match reason {
        StopReason::Program => None,
        StopReason::Full => Some(RunEnd::Full),
        StopReason::JournalFailed => Some(RunEnd::JournalFailed),
        StopReason::Stopped => Some(RunEnd::Stopped),
        StopReason::RunFull => Some(RunEnd::RunFull),
        StopReason::TrailLost(_) => Some(RunEnd::TrailLost),
        StopReason::Starved => Some(RunEnd::Starved),
    }
}

/// What the threads of a node count.
#[derive(Drop)]
pub struct Counts {
    numbers: Mutex<NodeCounts>,
}

impl Counts {
    pub(crate) fn new() -> Counts {
        Counts {
            numbers: Mutex::new(NodeCounts::new()),
        }
    }

    /// Counts a call of the desk, and its refusal by number, if it was refused.
    pub fn call<R: Wait>(&self, rt: &R, asked: CallKind, refusal: Option<u8>) {
        self.numbers.lock(rt).count_call(asked, refusal);
    }

    /// Counts a run that ended.
    pub fn run<R: Wait>(&self, rt: &R, reason: StopReason) {
        if let Some(why) = run_end(reason) {
            self.numbers.lock(rt).count_run(why);
        }
    }

    /// Counts a call of a participant, by its answer.
    pub(crate) fn callback<R: Wait>(&self, rt: &R, kind: Kind, heard: Option<Heard>) {
        self.numbers.lock(rt).count_callback(kind, heard);
    }

    /// Counts a pull from another node that had this result at a moment.
    pub(crate) fn pull<R: Wait>(&self, rt: &R, other: NodeId, came: PullResult, now: Duration) {
        self.numbers.lock(rt).count_pull(other, came, now);
    }

    /// Counts a purge that the node made by itself.
    pub fn sweep<R: Wait>(&self, rt: &R, purged: Purged) {
        self.numbers.lock(rt).count_purge(purged);
    }

    /// Counts a failure of the journal, or a failed try to open it again.
    pub fn failure<R: Wait>(&self, rt: &R) {
        self.numbers.lock(rt).count_failure();
    }

    /// Counts an accepted connection.
    pub(crate) fn accept<R: Wait>(&self, rt: &R) {
        self.numbers.lock(rt).count_accepted();
    }

    /// Counts connections that were closed for lack of files.
    pub(crate) fn close<R: Wait>(&self, rt: &R, count: u64) {
        self.numbers.lock(rt).count_closed(count);
    }

    /// Returns all counts as they are now.
    pub fn numbers<R: Wait>(&self, rt: &R) -> NodeCounts {
        *self.numbers.lock(rt)
    }
}
