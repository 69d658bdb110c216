//! Histories of what nodes enter: commands and their replies over sets of facts, the views that
//! stand for such sets, what a command changes in a view, and the merge of two views. There is no
//! state here, only definitions and their laws.
#![tactic(auto)]

pub mod laws;
