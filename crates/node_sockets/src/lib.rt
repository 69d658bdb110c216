//! A connection's life: where nodes listen and are reached, the queue of connections that wait for
//! a worker, streams that give up in time, and the signal that ends them.
#![tactic(auto)]

mod accept_queue;
mod address;
mod buffered_socket;
mod clock;
mod deadline_stream;
mod holder;
mod incoming;
mod pending_connection;
mod promise;
mod reaching;
mod room;
mod shared_socket;
mod signal;
mod site;
mod sockets;
mod window;

pub use accept_queue::AcceptQueue;
pub use address::{address_of, port_of};
pub use buffered_socket::{BufferedSocket, SocketReader, SocketWriter, Times};
pub use clock::{now, unix_millis};
pub use deadline_stream::{Cutoff, Limit, SLICE_MS};
pub use holder::{Disposition, Hold, Holder, NoHolder, PullQuery};
pub use incoming::{take_in, take_in_first, wait_for_room};
pub use pending_connection::{PendingConnection, REQUEST_MS, Readiness};
pub use promise::Promise;
pub use reaching::connect_to_one;
pub use room::{AnswerRoom, Share, is_long};
pub use shared_socket::SharedSocket;
pub use signal::{Signal, StopReason};
pub use site::{Peer, Site, door_of};
pub use sockets::Sockets;
pub use window::{Extent, Sight, sight_of};
