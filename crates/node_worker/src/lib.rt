//! The worker of the server: it serves connection after connection, over any connections, any clerk
//! and any gate.
#![tactic(auto)]

mod addressee;
mod arrivals;
mod gate;
mod gated;
mod group_name;
pub mod laws;
mod misdirected;
mod serving;
mod worker;

pub use addressee::{Addressee, NodeName, query_by};
pub use arrivals::{Arrivals, Connection};
pub use gate::{Gate, Open};
pub use group_name::{GroupName, is_group_name};
pub use worker::{ending_by, work};
