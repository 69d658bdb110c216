//! The effects of a call at a node's desk that others go on with, worked out from the call and its
//! reply: which participants it may make due, what it changed of an LRA, what it means for the nodes
//! that pull, the result of a purge. It knows no thread, no lock and no clock.
#![tactic(auto)]

mod call_notes;
mod counting;
mod kinds;
mod noting;
mod purging;
mod results;

pub use call_notes::CallNotes;
pub use counting::body_of_all;
pub use kinds::{call_kind, number_of, refused_by};
pub use noting::{
    enters, freed_by, heard_by, is_any, is_completion, is_own_fact, is_stored, is_taken, noted_by,
};
pub use purging::purged_by;
pub use results::{asked_call, result_of};
