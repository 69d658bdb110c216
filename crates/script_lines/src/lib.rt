//! A script of commands over a world of one to eight nodes, and the program that runs one.
#![tactic(auto)]

mod answer;
mod asking;
mod calls;
mod course;
pub mod laws;
mod line;
mod playing;
mod showing;
mod telling;
mod words;

pub use course::{ScriptFault, script};
pub use playing::{Ended, arguments, asked_nodes, play, run};
pub use words::{code_of, node_of};
