//! The operator's port of a node: the paths that exist there besides the interface, and what each
//! is answered.
#![tactic(auto)]

mod doors;
mod filter;
mod json;
mod page;
mod records;
mod serving;
mod state;
mod surveys;
mod telling;
mod wanted;

pub use filter::Filter;
pub use serving::serve_operator;
pub use state::State;
pub use wanted::{Topic, Wanted, wanted_by};
