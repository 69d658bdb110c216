//! One proved call of each public generic function, at each concrete type at which neither a
//! program nor `test_answers`, `test_script` or `test_server` calls it. A generic function is
//! proved from its bounds alone, so such a call shows that the bounds can be met.
//! `tests/generic.py` lists what is called where. The results of the calls are tested without proof
//! in `tests/units`.
#![tactic(auto)]

#[cfg(test)]
mod books;
#[cfg(test)]
mod callers;
#[cfg(test)]
mod desks;
#[cfg(test)]
mod serving;
