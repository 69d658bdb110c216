//! The book, which is a node's replica and its journal with the trail of a run's calls and their
//! replies, and the desk, at which threads share a book.
#![tactic(auto)]

mod book;
mod calls;
mod clerk;
mod clones;
mod crossing;
mod desk;
mod holdings;
pub mod laws;
mod pass;
mod preparing;
mod receipts;
mod run_start;
mod sameness;
mod trees;

pub use book::{Book, MAX_ENTRIES, MAX_MOVES};
pub use calls::{Call, Entry, Receipt, Reply};
pub use clerk::{BookClerk, Clerk, DeskClerk};
pub use crossing::{
    book_crosses, desk_is_shared, desk_pass_crosses, locked_book_is_shared, pass_crosses,
    receipts_cross, share_crosses,
};
pub use desk::{Desk, DeskPass, Run};
pub use holdings::{Holding, MemberStatuses, Summary, Survey};
pub use pass::Pass;
