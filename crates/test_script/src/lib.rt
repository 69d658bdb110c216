//! Tests of scripts by the public calls of `script_lines`. They are in a crate of their own because a
//! crate that has tests is proved twice.
#![tactic(auto)]

#[cfg(test)]
mod calls;
#[cfg(test)]
mod faults;
#[cfg(test)]
mod frames;
#[cfg(test)]
mod limits;
#[cfg(test)]
mod listeners;
#[cfg(test)]
mod members;
#[cfg(test)]
mod nesting;
#[cfg(test)]
mod nodes;
#[cfg(test)]
mod progress;
#[cfg(test)]
mod purging;
#[cfg(test)]
mod scripts;
