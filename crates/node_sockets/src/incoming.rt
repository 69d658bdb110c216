// Takes in the connections that come to a port.

use crate::accept_queue::AcceptQueue;
use crate::pending_connection::PendingConnection;
use crate::signal::Signal;
use std::io::Error;
use std::net::TcpStream;
use std::sync::Wait;
use std::time::{Clock, Duration};
use std::{io, thread};

/// How long to wait if no connection can be had.
const PAUSE_MS: u64 = 10;

/// How long to wait if too many connections wait to be looked at.
const CROWDED_MS: u64 = 1;

/// The system's error if the process has no file left.
const EMFILE: i32 = 24;

/// The system's error if the system itself has no file left.
const ENFILE: i32 = 23;

/// Whether no connection can be had because the process or the system has no file left.
fn wants_files(error: &Error) -> bool {
    matches!(error.raw_os_error(), Some(EMFILE | ENFILE))
}

/// Waits while too many connections in a queue wait to be looked at, or until the program is to
/// end.
pub fn wait_for_room<R: Wait + Clock>(rt: &R, signal: &Signal, queue: &AcceptQueue) {
    for _ in rt.forever() {
        if !queue.is_full(rt) || signal.has_ended(rt) {
            return;
        }
        thread::sleep(rt, Duration::from_millis(CROWDED_MS));
    }
}

/// Puts a new connection on a queue.
fn put<R: Wait + Clock>(rt: &R, queue: &AcceptQueue, stream: TcpStream) {
    if let Ok(pending) = PendingConnection::new(rt, stream) {
        queue.put(rt, pending);
    }
}

/// Puts the connection that came, if any, on a queue. If no file is left for it, the connection
/// that has waited longest there is closed.
pub fn take_in<R: Wait + Clock>(rt: &R, queue: &AcceptQueue, came: io::Result<TcpStream>) {
    match came {
        Ok(stream) => put(rt, queue, stream),
        Err(error) => {
            if wants_files(&error) {
                let _closed = queue.close_first(rt);
            }
            thread::sleep(rt, Duration::from_millis(PAUSE_MS));
        }
    }
}

/// Puts the connection that came on a queue that takes precedence over another. If no file is left
/// for it, a connection of the other queue is closed, and one of this queue only if none waits in
/// the other; then the next connection may come at once.
pub fn take_in_first<R: Wait + Clock>(
    rt: &R,
    queue: &AcceptQueue,
    others: &AcceptQueue,
    came: io::Result<TcpStream>,
) {
    match came {
        Ok(stream) => put(rt, queue, stream),
        Err(error) => {
            let is_freed = wants_files(&error) && (others.close_first(rt) || queue.close_first(rt));
            if !is_freed {
                thread::sleep(rt, Duration::from_millis(PAUSE_MS));
            }
        }
    }
}
