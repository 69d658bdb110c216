// Decides which requests wait although they are whole.

use node_core::AskedPull;
use node_replication::{PullDecision, Standing};
use node_sockets::{Disposition, Hold, Holder, PullQuery};
use node_threads::Node;
use node_worker::Addressee;
use state_ids::{Front, MAX_NODES, NodeId};
use std::str;
use std::sync::Wait;
use std::time::{Clock, Duration};
use wire_pulls::front_of_pull;

/// From how many connections that wait for a worker on no pull waits among them.
const CROWD: u64 = 512;

/// Holds requests of other nodes and clients. A pull that waits is held until this node has
/// something new for it. A pull of a node that sent more of its own facts than it counts now is
/// held until these are stored or are given up, because a node that starts over an older journal is
/// to learn of each number that it gave. Commands are held while a start waits for other nodes, for
/// at most a second. Answers wait until other nodes have what they show.
#[derive(Drop)]
pub struct PullHolder<'n, R> {
    pub rt: &'n R,
    pub node: &'n Node,
    pub addressee: &'n Addressee,
}

/// Returns the front of a node that pulls with this body, if that matters: the other nodes are in
/// processes of their own.
pub fn front_in(node: &Node, body: &[u8]) -> Option<Front> {
    if !node.site.is_apart() || node.nodes == 0 || node.nodes > MAX_NODES {
        return None;
    }
    front_of_pull(usize::from(node.nodes), body).ok()
}

impl<'n, R: Wait + Clock> PullHolder<'n, R> {
    // Whether a query comes from another node, and means this one.
    fn is_meant(&self, from: NodeId, query: &[u8]) -> bool {
        match str::from_utf8(query) {
            Ok(query) => from != self.node.me && self.addressee.is_meant(query),
            Err(_) => false,
        }
    }

    // Returns what happens to the pull of a node with this front.
    fn judge(&self, from: NodeId, asked: &PullQuery, front: Front) -> Hold {
        let pull = AskedPull {
            from,
            front,
            waits: asked.waits,
            since: asked.since,
        };
        match self.node.hear_pull(self.rt, &pull) {
            PullDecision::Serve => Hold::Serve,
            PullDecision::Soon if self.node.queue.waiting(self.rt) > CROWD => Hold::Serve,
            PullDecision::Soon => Hold::Soon,
            PullDecision::Later => Hold::Later,
        }
    }
}

impl<'n, R: Wait + Clock> Holder for PullHolder<'n, R> {
    fn stand(&self, ticket: u64, since: Duration) -> Disposition {
        match self.node.core.stand(self.rt, ticket, since) {
            Standing::Copied => Disposition::Send,
            Standing::Late if self.node.wants().is_strict => Disposition::Drop,
            Standing::Late => Disposition::Send,
            Standing::Waits => Disposition::Wait,
        }
    }

    fn hold_command(&self, since: Option<Duration>) -> Hold {
        if self.node.core.holds_command(self.rt, since) {
            Hold::Later
        } else {
            Hold::Serve
        }
    }

    fn hold(&self, asked: &PullQuery, query: &[u8], body: &[u8]) -> Hold {
        let (Ok(from), Some(front)) = (NodeId::new(asked.from), front_in(self.node, body)) else {
            return Hold::Serve;
        };
        if !self.is_meant(from, query) {
            return Hold::Serve;
        }
        self.judge(from, asked, front)
    }
}
