// The threads of a node that outlive its runs.

use log::Log;
use node_sockets::Sockets;
use node_threads::{Node, accept, call_out, follow, pull_in_turn, watch};
use state_ids::NodeId;
use std::alloc::{AllocError, Global};
use std::net::TcpListener;
use std::sync::Wait;
use std::thread::{Scope, Threads};
use std::time::Clock;

/// How many threads call participants.
const CALLERS: usize = 4;

/// What a thread does that outlives the runs of its node.
#[derive(Clone, Copy, PartialEq, Eq)]
pub(crate) enum NodeThread {
    /// It warns of a full home, and of connections that were closed.
    Watch,
    /// It calls participants.
    Call,
    /// It accepts connections.
    Accept,
    /// It pulls from the other nodes of its process in turn.
    Pull,
    /// It pulls from the node with this number, which is in a process of its own.
    Follow(u8),
}

/// Adds the threads that pull from the other nodes.
fn push_pullers(
    roles: &mut Vec<NodeThread>,
    me: u8,
    nodes: u8,
    are_apart: bool,
) -> Result<(), AllocError> {
    if !are_apart {
        if nodes > 1 {
            roles.push(NodeThread::Pull)?;
        }
        return Ok(());
    }
    for number in 1..=nodes {
        if number != me {
            roles.push(NodeThread::Follow(number))?;
        }
    }
    Ok(())
}

/// Returns what the threads do that outlive the runs of a node: one watches, some call, one
/// accepts, and some pull.
pub(crate) fn roles_of(alloc: Global, node: &Node) -> Result<Vec<NodeThread>, AllocError> {
    let mut roles = Vec::new(alloc);
    roles.push(NodeThread::Watch)?;
    for _caller in 0..CALLERS {
        roles.push(NodeThread::Call)?;
    }
    roles.push(NodeThread::Accept)?;
    push_pullers(&mut roles, node.number(), node.nodes, node.site.is_apart())?;
    Ok(roles)
}

/// Plays a role, until the program is to end.
fn help<R: Wait + Clock + Sockets, L: Log>(
    rt: &R,
    log: &L,
    alloc: Global,
    node: &Node,
    listener: &TcpListener,
    role: NodeThread,
) {
    match role {
        NodeThread::Watch => watch(rt, log, node),
        NodeThread::Call => call_out(rt, log, alloc, node),
        NodeThread::Accept => accept(rt, node, listener),
        NodeThread::Pull => pull_in_turn(rt, alloc, node),
        NodeThread::Follow(number) => {
            if let Ok(other) = NodeId::new(number) {
                follow(rt, log, alloc, node, other);
            }
        }
    }
}

/// Starts a thread for a role. Returns whether a thread was to be had. (As in `run`, each start is
/// a function of its own.)
pub(crate) fn start_helper<'s, E, R, L>(
    scope: &Scope<'s, E>,
    rt: &'s R,
    log: &'s L,
    alloc: Global,
    node: &'s Node,
    listener: &'s TcpListener,
    role: NodeThread,
) -> bool
where
    R: Threads + Wait + Clock + Sockets + Sync,
    L: Log + Sync,
{
    scope
        .spawn(move || help(rt, log, alloc, node, listener, role))
        .is_ok()
}
