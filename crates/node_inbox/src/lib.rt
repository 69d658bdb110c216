//! What was learned from others: from participants that were called, and from nodes that were
//! asked. Values of these types come only from a call or a pull that was really made, and nothing
//! changes or duplicates them.
#![tactic(auto)]

mod letter;
mod telling;

pub use letter::{Letter, Unheard, call_for};
pub use telling::{Telling, ask_for};
