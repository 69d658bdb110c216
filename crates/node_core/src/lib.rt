//! A node's state besides its journal, as one value: what its threads hand to one another, what other
//! nodes have of its facts, which calls are accepted, and how far its run is. Beside it stand what a
//! node counts, and when it warns its operators. It knows no thread, no lock, no socket and no clock:
//! each moment is passed in.
#![tactic(auto)]

mod admitting;
mod calls;
mod counts;
mod desk_watch;
pub mod laws;
mod node_state;
mod peers;
mod pulling;
mod run_tally;
mod turns;
mod watch;

pub use calls::{Admission, AskedCall, CallResult, Caller, ReplyKind};
pub use counts::{
    CALL_NAMES, CallKind, HEARD, KINDS, NodeCounts, PULLS, PullResult, REFUSALS, RUNS, RunEnd,
    SWEPT,
};
pub use desk_watch::DeskWatch;
pub use node_state::{NodeSettings, NodeState, Unready};
pub use peers::Peers;
pub use pulling::{AskedPull, Receipt};
pub use run_tally::RunTally;
pub use turns::{Readied, Wakeups};
pub use watch::{
    ClaimAlarm, CopyAlarm, CopyTroubles, CopyWarnings, DiskWarning, FailureAlarm, FillAlarm,
    HangAlarm, UnloggedCount,
};
