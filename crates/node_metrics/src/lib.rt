//! Writes what the threads of a node count and know as text: its metrics in the format of
//! Prometheus, and the participants whose calls fail as JSON.
#![tactic(auto)]

mod calls;
mod metrics;

pub use calls::calls_of;
pub use metrics::metrics_of;
