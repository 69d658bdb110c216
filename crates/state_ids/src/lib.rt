//! The ids of nodes and LRAs with their texts, fronts, the statuses of LRAs and participants, and
//! the words for acts, outcomes and verdicts.
#![tactic(auto)]

mod front;
mod lra;
mod node;
mod number;
mod outcome;
mod status;

pub use front::Front;
pub use lra::LraId;
pub use node::NodeId;
pub use number::number_of;
pub use outcome::{Act, Outcome, Verdict};
pub use status::{LraStatus, MemberStatus};

/// The greatest number of a fact. A node numbers its facts from 1 up to this.
pub const LAST_NUMBER: u64 = 281_474_976_710_655;

/// The greatest number of nodes in a group.
pub const MAX_NODES: u8 = 8;

/// The error for a text or number that breaks its grammar.
#[derive(Clone, Copy, Debug, PartialEq, Eq)]
pub struct BadText;
