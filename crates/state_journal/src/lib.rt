//! The journal of a replica: its rows in two tables of a SQLite database.
#![tactic(auto)]

mod first;
mod front_rows;
mod journal;
pub mod laws;
mod lra_rows;
mod open;
mod patches;
mod rebuilding;
mod rewriting;
mod rows;
mod schema;
mod selects;
mod steps;
mod store;

pub use journal::Journal;
