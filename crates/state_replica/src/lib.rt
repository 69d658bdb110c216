//! A replica: what a node holds, with one record for each LRA, and the commands that change it. All
//! that its contracts say of histories is that a merge is the union.
#![tactic(auto)]

mod apply;
mod clones;
mod commands;
mod duties;
mod merge;
mod page;
mod patch;
mod replica;
mod tell;

pub use page::{MAX_ROWS, Page, Row};
pub use patch::{Patch, Prepared};
pub use replica::Replica;
pub use tell::Taken;
