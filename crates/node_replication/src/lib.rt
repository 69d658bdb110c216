//! What other nodes have of this node's facts, how long a pull or an answer waits for that, and
//! when the next pull is made. It knows no thread, no lock and no clock: each moment is passed in.
#![tactic(auto)]

mod acknowledgements;
mod followers_state;
pub mod laws;
mod mark;
mod moment;
mod outlook;
mod pacing;
mod pulls;
mod replication;
mod standing;
mod waiters;

pub use followers_state::{FollowersState, Released};
pub use mark::MAX_MARKS;
pub use outlook::Outlook;
pub use pacing::Pacing;
pub use pulls::{NextPull, Pulled};
pub use replication::Replication;
pub use standing::{CallbackFate, PullDecision, Standing};
pub use waiters::Waiters;
