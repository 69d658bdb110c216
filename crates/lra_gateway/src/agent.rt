// The agent that acts for services and nodes: a gateway, with its host and its memory.

use crate::gateway::Gateway;
use std::alloc::Global;
use std::net::{Net, TcpListener, TcpStream};
use std::sync::Wait;
use std::time::{Clock, Duration};

/// A host with clocks, waiting, sockets and lines for people to read.
pub trait Platform: Wait + Clock + Net<Listener = TcpListener, Stream = TcpStream> + Eprint {}

impl<R: Wait + Clock + Net<Listener = TcpListener, Stream = TcpStream> + Eprint> Platform for R {}

/// A gateway, with its host and its memory.
#[derive(Drop)]
pub struct Agent<'a, R> {
    pub rt: &'a R,
    pub alloc: Global,
    pub gateway: &'a Gateway,
}

impl<'a, R: Platform> Agent<'a, R> {
    /// Whether this moment has passed or the program is to end.
    pub fn is_over(&self, until: Duration) -> bool {
        moment(self.rt, 0) >= until || self.gateway.signal.has_ended(self.rt)
    }

    /// Logs something that any caller can cause, at most one line a second.
    pub fn complain(&self, what: &str) {
        let second = moment(self.rt, 0).as_secs();
        if self.gateway.may_complain(second) {
            let _ = eprintln!(self.rt; "lra_gateway: {what}");
        }
    }
}

/// Returns the moment `ms` milliseconds from now. A clock that can't be read counts as zero.
pub fn moment<R: Clock>(rt: &R, ms: u64) -> Duration {
    let now = rt.monotonic().unwrap_or(Duration::ZERO);
    now.saturating_add(Duration::from_millis(ms))
}
