//! Tests of answers: how answers of participants that run in well-known servers are read, what a
//! home answers when it is asked for a tree, and calls that only tests make.
#![tactic(auto)]

#[cfg(test)]
mod premises;
#[cfg(test)]
mod servers;
#[cfg(test)]
mod trees;
