//! The server: nodes that answer HTTP, call participants and pull from one another, each over its
//! own journal. The folders are by owner: `run` has one run of a node, `node` a node from its first
//! run to its last, `operators` the operators' port, and `program` all nodes of the process.
#![tactic(auto)]

mod node;
mod operators;
mod program;
mod run;
mod shared;

pub use node::opening::{Folder, Stores, Unopened};
pub use program::files::{UnknownFiles, open_null};
pub use program::{LocalMembers, serve, serve_members};
