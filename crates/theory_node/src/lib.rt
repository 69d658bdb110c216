//! Laws of a node's state over whatever calls come.
#![tactic(auto)]

pub mod laws;
