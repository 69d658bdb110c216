//! Laws of progress, without time and without fairness: nothing is stuck, and one round makes all
//! nodes alike.
#![tactic(auto)]

pub mod laws;
