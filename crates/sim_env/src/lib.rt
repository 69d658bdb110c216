//! What the simulator `lra_sim` runs nodes over and compares them with: numbers that a seed
//! decides, a plain list of all facts, what these facts say, and files in memory some of whose
//! calls fail.
#![tactic(auto)]

mod disk;
mod drive;
mod file_calls;
mod file_log;
mod halt;
mod history;
mod known_facts;
mod luck;
mod model;
mod network;
mod old_disks;

pub use disk::{DiskFaults, Doubt, Image, Remains, SimStore};
pub use drive::Drive;
pub use halt::Halt;
pub use history::History;
pub use known_facts::{KnownFacts, Shown};
pub use luck::Luck;
pub use model::{DueCall, Model};
pub use network::{Manner, Pull, PullAsked, PullStage};
pub use old_disks::{DiskCopies, raised};
