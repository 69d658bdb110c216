//! Tests of the server by its public calls: nodes on loopback that answer, call a participant and
//! pull from one another, and two workers at one desk. They are in a crate of their own because a
//! crate that has tests is proved twice.
#![tactic(auto)]

#[cfg(test)]
mod halves;
#[cfg(test)]
mod hanging;
#[cfg(test)]
mod loopback;
#[cfg(test)]
mod nodes;
#[cfg(test)]
mod signals;
#[cfg(test)]
mod workers;
