//! All nodes as one machine: what they hold, and the frames that were sent.
#![tactic(auto)]

mod event;
pub mod laws;
mod node;
mod world;

pub use event::{Event, EventReply, Stopped};
pub use world::World;
