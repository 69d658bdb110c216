//! What participants are called for, the requests by which they are called, and what their answers
//! mean.
#![tactic(auto)]

mod answer;
mod call;
mod duty;
pub mod laws;
mod request;

pub use answer::{Answer, Heard, Kind, hear};
pub use call::{Caller, NetCaller, NoMemory};
pub use duty::{Duties, Duty, act_wanted, pick};
pub use request::request_of;
