//! Pulls: a node asks another for the facts that it lacks, over any reader and writer, and answers
//! the nodes that ask it.
#![tactic(auto)]

mod answer;
mod asking;
mod bodies;
mod error;
pub mod laws;
mod pulling;
mod serving;

pub use answer::MAX_FRAME_BYTES;
pub use bodies::{front_of_pull, pull_body};
pub use error::PullError;
pub use pulling::pull;
pub use serving::serve_pull;
