// Which node a request is addressed to.
ghost use Rattle.std.specs.Prelude.{◌≡◌, IfOk, None, Some, string_bytes};
ghost use Rattle.std.specs.Option.{option_copied};
ghost use Rattle.node_worker.specs.Addressees.{is_meant, node_text, query_by};
ghost use Rattle.node_worker.specs.declared.addressee.Addressee.TheVariants.{Anyone as Nobody, Node as OneNode};

use crate::GroupName;
use crate::misdirected::asks_other;
use state_ids::NodeId;
use std::alloc::{AllocError, Global};

/// A node's number, and the name of its group if that has one.
#[derive(Drop)]
pub struct NodeName {
    pub me: NodeId,
    pub group: Option<GroupName>,
}

/// The name by which a node is asked. A node that has a name refuses pulls that are meant for
/// another.
#[derive(Drop)]
pub enum Addressee {
    /// Any node may be meant: nothing is refused.
    Anyone,
    /// Only this node.
    Node(NodeName),
}

impl Addressee {
    /// Makes an addressee that refuses nothing.
    pub fn anyone() -> Addressee
        ensures { result ≡ Nobody }
    {
        Addressee::Anyone
    }

    /// Whether a pull with this query is meant for this addressee.
    pub fn is_meant(&self, query: &str) -> bool
        ensures { result ≡ is_meant self.now query.now }
    {
        match self {
            Addressee::Anyone => true,
            Addressee::Node(node) => !asks_other(node, Some(query)),
        }
    }

    /// Makes an addressee that refuses pulls that name another node or another group. If this
    /// node's group has a name, it also refuses pulls that name none.
    pub fn of(me: NodeId, group: Option<GroupName>) -> Addressee
        ensures { result ≡ OneNode (record { me = me; group = group }) }
    {
        Addressee::Node(NodeName { me, group })
    }
}

/// Makes the text that says which node this is.
pub(crate) fn node_text(alloc: Global, node: &NodeName) -> Result<String, AllocError>
    ensures { IfOk result (λ text. string_bytes text ≡ node_text node.now) }
{
    let me = node.me;
    match &node.group {
        Some(group) => {
            let group = group.as_str();
            format!(in alloc; "Misdirected: this is node {me} of group {group}")
        }
        None => format!(in alloc; "Misdirected: this is node {me}"),
    }
}

/// Makes the query of a pull from one node to another, and to its group if there is one:
/// `?from=3&to=2` or `?from=3&to=2&group=shop`. A pull that waits until the other node has
/// something new has `wait` in place of `from`. Errors: out of memory.
pub fn query_by(
    alloc: Global,
    waits: bool,
    from: NodeId,
    to: NodeId,
    group: Option<&GroupName>,
) -> Result<String, AllocError>
    ensures { IfOk result (λ query. string_bytes query ≡ query_by waits from to (option_copied group.entry)) }
{
    match group {
        Some(group) => in_group(alloc, waits, from, to, group),
        None => alone(alloc, waits, from, to),
    }
}

fn alone(alloc: Global, waits: bool, from: NodeId, to: NodeId) -> Result<String, AllocError>
    ensures { IfOk result (λ query. string_bytes query ≡ query_by waits from to None) }
{
    if waits {
        format!(in alloc; "?wait={from}&to={to}")
    } else {
        format!(in alloc; "?from={from}&to={to}")
    }
}

fn in_group(
    alloc: Global,
    waits: bool,
    from: NodeId,
    to: NodeId,
    group: &GroupName,
) -> Result<String, AllocError>
    ensures { IfOk result (λ query. string_bytes query ≡ query_by waits from to (Some group.now)) }
{
    let group = group.as_str();
    if waits {
        format!(in alloc; "?wait={from}&to={to}&group={group}")
    } else {
        format!(in alloc; "?from={from}&to={to}&group={group}")
    }
}
