// The threads that accept connections. They outlive the runs of their node, so that no connection
// is lost while one run follows another.

use crate::node::Node;
use node_sockets::{take_in, take_in_first, wait_for_room};
use std::net::TcpListener;
use std::sync::Wait;
use std::time::Clock;

/// Accepts connections and puts them on the node's queue, until the program is to end.
pub fn accept<R: Wait + Clock>(rt: &R, node: &Node, listener: &TcpListener) {
    for came in listener.incoming() {
        if came.is_ok() {
            node.counts.accept(rt);
        }
        take_in(rt, &node.queue, came);
        wait_for_room(rt, &node.signal, &node.queue);
        if node.signal.has_ended(rt) {
            return;
        }
    }
}

/// Does the same for connections to the operators' port. They take precedence over clients'
/// connections if no file is left.
pub fn accept_operators<R: Wait + Clock>(rt: &R, node: &Node, listener: &TcpListener) {
    for came in listener.incoming() {
        take_in_first(rt, &node.operators, &node.queue, came);
        wait_for_room(rt, &node.signal, &node.operators);
        if node.signal.has_ended(rt) {
            return;
        }
    }
}
