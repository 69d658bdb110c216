//! The threads of a node that know no journal, one in each file: the thread that accepts
//! connections, those that call participants, those that pull, and the one that watches; and what
//! they share (`Node`): the node's state under one lock (`Core`), counts, news. The lines for standard
//! error, and the program's end, belong to all nodes.
#![tactic(auto)]

mod accepting;
mod asking;
mod build;
mod calling;
mod counts;
mod following;
mod locked;
mod news;
mod node;
mod plaints;
mod shutdown;
mod stderr_lines;
mod wants;
mod watching;

pub use accepting::{accept, accept_operators};
pub use asking::pull_in_turn;
pub use build::Build;
pub use calling::call_out;
pub use counts::Counts;
pub use following::follow;
pub use locked::Core;
pub use news::News;
pub use node::{Manners, Node, RunLength};
pub use plaints::Plaint;
pub use shutdown::{End, Shutdown, drain};
pub use stderr_lines::{Lines, ToLines, lines_of};
pub use wants::{Waited, Wants};
pub use watching::watch;
