//! A run of a node in the simulator: a book over files in memory, some of whose calls fail, and the
//! receipts that the book's callers keep.
#![tactic(auto)]

mod run;
mod runs;

pub use run::SimRun;
pub use runs::{JournalOpening, Runs};
