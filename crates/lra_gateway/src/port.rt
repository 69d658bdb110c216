// The place where services or the nodes of a group connect: connections whose request isn't there
// yet, and those whose request is.

use node_sockets::AcceptQueue;
use std::alloc::Global;
use std::collections::VecDeque;
use std::net::{SocketAddr, TcpStream};
use std::sync::{Condvar, Mutex, Wait};

// The data that the lock guards.
#[derive(Drop)]
struct Backlog {
    streams: VecDeque<TcpStream>,
    has_ended: bool,
}

/// A port, and its connections.
#[derive(Drop)]
pub struct Port {
    pub address: SocketAddr,
    /// Whether only callers on this machine are served.
    pub is_loopback: bool,
    /// Connections that one thread looks at, so a caller that is silent or slow doesn't hold up the
    /// others.
    pub queue: AcceptQueue,
    /// Connections whose request is there, for the workers.
    ready: Mutex<Backlog>,
    came: Condvar,
}

impl Port {
    pub fn new(alloc: Global, address: SocketAddr, is_loopback: bool) -> Port {
        Port {
            address,
            is_loopback,
            queue: AcceptQueue::new(alloc),
            ready: Mutex::new(Backlog {
                streams: VecDeque::new(alloc),
                has_ended: false,
            }),
            came: Condvar::new(),
        }
    }

    /// Hands a connection to a worker. If there is no memory for it, it is closed.
    pub fn put<R: Wait>(&self, rt: &R, stream: TcpStream) {
        let mut ready = self.ready.lock(rt);
        let _ = ready.streams.push_back(stream);
        self.came.notify_one();
    }

    /// Waits for a connection and returns the first. Returns `None` once the program is to end.
    pub fn take<R: Wait>(&self, rt: &R) -> Option<TcpStream> {
        let mut ready = self.came.wait_while(rt, self.ready.lock(rt), |ready| {
            ready.streams.is_empty() && !ready.has_ended
        });
        if ready.has_ended {
            return None;
        }
        ready.streams.pop_front()
    }

    /// Makes the threads of this port end.
    pub fn end<R: Wait>(&self, rt: &R) {
        let mut ready = self.ready.lock(rt);
        ready.has_ended = true;
        self.came.notify_all();
        self.queue.end(rt);
    }
}
