//! An index that keeps, for each node, the stamps that the records of LRAs have of it, in order. It
//! finds what changed beyond a count without looking at every record. It is proved over ids and
//! numbers alone, for any function from ids to stamps.
#![tactic(auto)]

mod index;
pub mod laws;
mod origin;
mod stamp_entry;

pub use index::Index;
pub use stamp_entry::StampEntry;
