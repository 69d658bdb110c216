// Answering a line: what it prints, and what it does to the world.
ghost use Rattle.std.specs.Prelude.{◌≡◌, ◌≤◌, length, IfOk, OnErr, string_bytes};
ghost use Rattle.state_ids.specs.declared.TheConstants.{MAX_NODES};
ghost use Rattle.state_facts.specs.declared.refusal.Refusal.TheVariants.{NoMemory};
ghost use Rattle.script_world.specs.Machines.{IsWorldOf};
ghost use Rattle.script_world.specs.Worlds.{State};
ghost use Rattle.script_world.specs.declared.event.Event.TheVariants.{Send as SendEvent};
ghost use Rattle.script_lines.specs.declared.asking.Ask.TheVariants.{Deliver};
ghost use Rattle.script_lines.specs.Asks.{IsInRange};
ghost use Rattle.script_lines.specs.Scripts.{HasHappened, WasAnswered, WasDone, refused};
ghost use Rattle.script_lines.specs.NodeHoldings.{AreComing};

use crate::asking::{Ask, ask_of};
use crate::calls::{hear_answer, show_duties};
use crate::line::MAX_LINE_BYTES;
use crate::showing::{id_line, replica_at, show, show_front, show_member, show_same, text_line};
use crate::telling::{ReservedText, refusal_line, tell};
use script_world::{Event, World};
use state_facts::{CommandReply, Refusal};
use state_ids::{Front, NodeId};
use std::alloc::{AllocError, Global};
use wire_frames::Version;

/// Executes a line over the world of `nodes` nodes and returns what it prints. If memory runs out,
/// no event has happened.
pub fn answer(
    alloc: Global,
    world: &mut World,
    line: &[u8],
    nodes: u8,
) -> Result<String, AllocError>
    requires few { nodes ≤ MAX_NODES }
    requires nodes { length world.old.replicas ≡ nodes }
    ensures ok { (s : State) → IsWorldOf s world.old →
        IfOk result (λ text. WasAnswered nodes s line.now (string_bytes text) world.new) }
    ensures err { (s : State) → IsWorldOf s world.old →
        OnErr result (WasAnswered nodes s line.now (refused NoMemory) world.new) }
{
    if line.is_empty() {
        return Ok(String::new(alloc));
    }
    if line.len() > MAX_LINE_BYTES {
        return refusal_line(alloc, Refusal::BadText);
    }
    let found = ask_of(alloc, line, nodes)?;
    let Some(ask) = found else {
        return refusal_line(alloc, Refusal::BadText);
    };
    obey(alloc, world, ask)
}

fn obey(alloc: Global, world: &mut World, ask: Ask) -> Result<String, AllocError>
    requires { IsInRange (length world.old.replicas) ask }
    ensures ok { (s : State) →
        IsWorldOf s world.old → IfOk result (λ text. WasDone s ask (string_bytes text) world.new) }
    ensures err { (s : State) → IsWorldOf s world.old → OnErr result (IsWorldOf s world.new) }
{
    match ask {
        Ask::Enter { node, command } => happen(alloc, world, Event::Act { node, command }),
        Ask::Tick { node, now } => happen(alloc, world, Event::Tick { node, now }),
        Ask::Send { node, base } => send(alloc, world, node, base, Version::Two),
        Ask::SendOld { node, base } => send(alloc, world, node, base, Version::One),
        Ask::Deliver { frame, node, kept } => deliver(alloc, world, frame, node, kept),
        Ask::Restart { node } => happen(alloc, world, Event::Restart { node }),
        Ask::Hear {
            node,
            id,
            member,
            kind,
            answer,
        } => hear_answer(alloc, world, node, id, member, kind, &answer),
        Ask::Show { node, id } => show(alloc, world, node, id),
        Ask::Member { node, id, member } => show_member(alloc, world, node, id, member),
        Ask::Duties { node } => show_duties(alloc, replica_at(world, node), node),
        Ask::Front { node } => show_front(alloc, replica_at(world, node)),
        Ask::Same { node, other } => show_same(
            alloc,
            replica_at(world, node),
            replica_at(world, other),
        ),
        Ask::Text(id) => text_line(alloc, id),
        Ask::Read(id) => id_line(alloc, id),
    }
}

fn happen(alloc: Global, world: &mut World, event: Event) -> Result<String, AllocError>
    ensures ok { (s : State) → IsWorldOf s world.old →
        IfOk result (λ text. HasHappened s event (string_bytes text) world.new) }
    ensures err { (s : State) → IsWorldOf s world.old → OnErr result (IsWorldOf s world.new) }
{
    // Without a value of this type here the toolchain's borrow checker can't build its plan for a
    // `Reply`.
    let _ = CommandReply::Refused(Refusal::NoMemory);
    let room = ReservedText::new(alloc)?;
    let reply = world.step(alloc, event)?;
    tell(alloc, room, reply)
}

/// Makes a node send what it has since a base, in a version of frames.
fn send(
    alloc: Global,
    world: &mut World,
    node: NodeId,
    base: Front,
    version: Version,
) -> Result<String, AllocError>
    ensures ok { (s : State) → IsWorldOf s world.old → IfOk result
        (λ text. HasHappened s (SendEvent node base version) (string_bytes text) world.new) }
    ensures err { (s : State) → IsWorldOf s world.old → OnErr result (IsWorldOf s world.new) }
{
    let event = Event::Send {
        node,
        base,
        version,
    };
    happen(alloc, world, event)
}

/// Delivers a frame, or its first `kept` bytes, to a node.
fn deliver(
    alloc: Global,
    world: &mut World,
    frame: u64,
    node: NodeId,
    kept: Option<u64>,
) -> Result<String, AllocError>
    ensures ok { (s : State) → IsWorldOf s world.old →
        IfOk result (λ text. WasDone s (Deliver frame node kept) (string_bytes text) world.new) }
    ensures err { (s : State) → IsWorldOf s world.old → OnErr result (IsWorldOf s world.new) }
{
    let frame = frame as usize;
    let kept = bytes_coming(world, frame, kept);
    happen(alloc, world, Event::Deliver { frame, node, kept })
}

/// Returns how many bytes of a frame arrive: `kept` if it is given, otherwise the whole frame.
fn bytes_coming(world: &World, frame: usize, kept: Option<u64>) -> usize
    ensures { (s : State) → IsWorldOf s world.now → AreComing s frame kept result }
{
    match kept {
        Some(kept) => kept as usize,
        None => world.frame_len(frame).unwrap_or(0),
    }
}
