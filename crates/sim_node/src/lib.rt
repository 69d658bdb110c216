//! A node in the simulator: its state while it runs, what outlives that, and checks that what the
//! node says agrees with its facts.
#![tactic(auto)]

mod call_summary;
mod checks;
mod due;
mod life;
mod listings;
mod node;
mod start;
mod wants;

pub use call_summary::{CallSummary, body_of, cancel, named_in, pull_of_all, stored, taken_by};
pub use due::{HOSTS, due_call, host_of};
pub use life::Life;
pub use listings::Release;
pub use node::SimNode;
pub use wants::Wants;
