//! Schedules the callbacks of the caller threads: whom to call next, host by host in turns, and
//! whom only after a pause. It knows no thread, no lock and no clock: each moment is passed in.
#![tactic(auto)]

mod host;
mod hosts;
pub mod laws;
mod pace;
mod plight;
mod schedule;
mod slip;

pub use pace::Pace;
pub use plight::{CallFailure, Plight, Vain};
pub use schedule::Schedule;
pub use slip::{Called, StartedCall};
