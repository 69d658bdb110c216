//! Decides what the writer thread does next with what callers and pullers hand to it, what
//! operators want, and what the sweep of its home purges. It knows no thread, no lock and no clock:
//! each moment is passed in.
#![tactic(auto)]

mod asking;
mod asks;
mod backlog;
mod census;
mod effects;
mod heard_since;
mod known_fronts;
pub mod laws;
mod looking;
mod ripe;
mod start_state;
mod state;
mod sweep;
mod sweeping;
mod task;
mod turn;

pub use asks::Asks;
pub use backlog::{FIRST_RETRY_MS, LAST_RETRY_MS};
pub use census::STATUSES;
pub use effects::{Became, Effects, NewlyDue};
pub use looking::MANY;
pub use ripe::Ripe;
pub use start_state::OPENING_MS;
pub use state::MailboxState;
pub use sweep::{Chore, Fill, Keep, Purged};
pub use sweeping::Sweeping;
pub use task::{OperatorWant, Task};
