// Answers to questions, which change nothing.
ghost use Rattle.std.specs.Prelude.{◌≡◌, ◌++◌, length, codes, IfOk, string_bytes};
ghost use Rattle.state_ids.specs.Fronts.{front_text};
ghost use Rattle.state_ids.specs.Ids.{id_text, text_of};
ghost use Rattle.state_replica.specs.Replicas.{view_of};
ghost use Rattle.script_world.specs.Headline.{member_at, shown_at};
ghost use Rattle.script_world.specs.Machines.{IsWorldOf};
ghost use Rattle.script_world.specs.Worlds.{State, front_of, set_of};
ghost use Rattle.script_lines.specs.Asks.{IsNodeOf};
ghost use Rattle.script_lines.specs.Scripts.{TellsSame, member_line, printed, status_line};
ghost use Rattle.script_lines.specs.NodeHoldings.{Holds};

use crate::telling::refusal_line;
use script_world::World;
use state_ids::{LraId, NodeId};
use state_replica::Replica;
use std::alloc::{AllocError, Global};
use std::str;

/// Returns a node's replica. The clause says what it `Holds`, so that each question is a function
/// of a `&Replica` and takes one line where it is asked.
pub fn replica_at(world: &World, node: NodeId) -> &Replica
    requires { IsNodeOf (length world.now.replicas) node }
    ensures holds { (s : State) →
        IsWorldOf s world.now → Holds (set_of s node) (front_of s node) result.now }
    ensures nodes { length result.now.front ≡ length world.now.replicas }
{
    world.replica(node)
}

/// Prints what a node shows of an LRA.
pub fn show(alloc: Global, world: &World, node: NodeId, id: LraId) -> Result<String, AllocError>
    requires { IsNodeOf (length world.now.replicas) node }
    ensures { (s : State) → IsWorldOf s world.now →
        IfOk result (λ text. string_bytes text ≡ status_line (shown_at s node id)) }
{
    match world.status(node, id) {
        Ok(status) => format!(in alloc; "{status}\n"),
        Err(refusal) => refusal_line(alloc, refusal),
    }
}

/// Prints what a node shows of a participant.
pub fn show_member(
    alloc: Global,
    world: &World,
    node: NodeId,
    id: LraId,
    member: u8,
) -> Result<String, AllocError>
    requires { IsNodeOf (length world.now.replicas) node }
    ensures { (s : State) → IsWorldOf s world.now →
        IfOk result (λ text. string_bytes text ≡ member_line (member_at s node id member)) }
{
    match world.member(node, id, member) {
        Ok(status) => format!(in alloc; "{status}\n"),
        Err(refusal) => refusal_line(alloc, refusal),
    }
}

/// Prints how many facts of each node a node has.
pub fn show_front(alloc: Global, replica: &Replica) -> Result<String, AllocError>
    ensures { IfOk result
        (λ text. string_bytes text ≡ printed (codes "front " ++ front_text replica.now.front)) }
{
    let front = replica.front();
    format!(in alloc; "front {front}\n")
}

/// Prints whether two nodes hold the same. Nodes of one history do if their fronts are equal.
pub fn show_same(alloc: Global, one: &Replica, other: &Replica) -> Result<String, AllocError>
    ensures { IfOk result
        (λ text. TellsSame (view_of one.now ≡ view_of other.now) (string_bytes text)) }
{
    if one.same(other) {
        return format!(in alloc; "same\n");
    }
    format!(in alloc; "differ\n")
}

/// Prints the text of an id as a UUID.
pub fn text_line(alloc: Global, id: LraId) -> Result<String, AllocError>
    ensures { IfOk result (λ text. string_bytes text ≡ printed (text_of id)) }
{
    let bytes = id.to_text();
    match str::from_utf8(&bytes) {
        Ok(text) => format!(in alloc; "{text}\n"),
        Err(_) => unreachable!(),
    }
}

/// Prints the id for which a text stood.
pub fn id_line(alloc: Global, id: LraId) -> Result<String, AllocError>
    ensures { IfOk result (λ text. string_bytes text ≡ printed (id_text id)) }
{
    format!(in alloc; "{id}\n")
}
