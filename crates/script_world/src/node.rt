// How one node handles an event.
ghost use Rattle.std.specs.Prelude.{◌≡◌, ◌⊎◌, ◌≤◌, ℕ, List, true, false, IfErr, IfOk, IfSome, OnErr, length};
ghost use Rattle.theory_history.specs.Histories.{History, IsClosed, IsLawful, facts};
ghost use Rattle.state_replica.specs.Replicas.{Fits, view_of};
ghost use Rattle.theory_history.specs.Views.{OfItsSet, StandsFor};
ghost use Rattle.theory_history.specs.Changes.{with_patch};
ghost use Rattle.state_ids.specs.Fronts.{IsBelow};
ghost use Rattle.state_facts.specs.declared.refusal.Refusal.TheVariants.{Gap, NeedsVersion2, NoMemory};
ghost use Rattle.wire_frames.specs.Frames.{frame_of};
ghost use Rattle.wire_frames.specs.Grammar.{IsOfGrammar};
ghost use Rattle.wire_frames.specs.Rules.{IsDeltaAs};
ghost use Rattle.wire_frames.specs.Encoding.{encoding_as};
ghost use Rattle.script_world.specs.Worlds.{IsViewOf, needs_later};
ghost use Rattle.script_world.specs.Machines.{IsActed, TakesBytes, TakesFrame};
ghost use Rattle.script_world.specs.declared.event.EventReply.TheVariants.{Restarted};

use crate::EventReply;
use state_facts::{Command, CommandReply, Refusal};
use state_ids::{Front, NodeId};
use state_replica::{Prepared, Replica};
use std::alloc::{AllocError, Global};
use wire_frames::{Delta, Version, encode, encode_v1, prepare};

fn enter(replica: &mut Replica, prepared: Prepared) -> CommandReply
    requires { IfSome prepared.patch (λ change. Fits change replica.old) }
    ensures reply { result ≡ prepared.reply }
    ensures view { view_of replica.new ≡ with_patch prepared.patch (view_of replica.old) }
    ensures nodes { length replica.new.front ≡ length replica.old.front }
{
    let Prepared { reply, patch } = prepared;
    if let Some(patch) = patch {
        replica.apply(patch);
    }
    reply
}

/// Lets a node carry out a command or refuse it. If memory runs out, nothing is entered.
pub fn act(
    alloc: Global,
    replica: &mut Replica,
    me: NodeId,
    command: Command,
) -> Result<CommandReply, AllocError>
    requires { me ≤ length replica.old.front }
    ensures nodes { length replica.new.front ≡ length replica.old.front }
    ensures acted { OfItsSet (view_of replica.old) (λ S. IfOk result
        (λ reply. IsActed S (view_of replica.old) me command reply (view_of replica.new))) }
    ensures err { OnErr result (view_of replica.new ≡ view_of replica.old) }
{
    match replica.prepare(alloc, me, command) {
        Ok(prepared) => Ok(enter(replica, prepared)),
        Err(refusal) => {
            if refusal == Refusal::NoMemory {
                return Err(AllocError);
            }
            Ok(CommandReply::Refused(refusal))
        }
    }
}

/// Lets a node take a frame or refuse it. If memory runs out, nothing is taken.
pub fn take_frame(
    alloc: Global,
    replica: &mut Replica,
    delta: Delta,
) -> Result<EventReply, AllocError>
    ensures nodes { length replica.new.front ≡ length replica.old.front }
    ensures taken { IfOk result
        (λ reply. TakesFrame (view_of replica.old) delta reply (view_of replica.new)) }
    ensures err { OnErr result (view_of replica.new ≡ view_of replica.old) }
{
    match prepare(alloc, replica, delta) {
        Ok(patch) => {
            replica.apply(patch);
            Ok(EventReply::Took)
        }
        Err(refusal) => {
            if refusal == Refusal::NoMemory {
                return Err(AllocError);
            }
            Ok(EventReply::Refused(refusal))
        }
    }
}

/// Delivers the first bytes of a frame, this many, to a node, which takes what they encode or
/// refuses it.
pub fn take_bytes(
    alloc: Global,
    replica: &mut Replica,
    bytes: &[u8],
    kept: usize,
) -> Result<EventReply, AllocError>
    ensures nodes { length replica.new.front ≡ length replica.old.front }
    ensures taken { IfOk result
        (λ reply. TakesBytes (view_of replica.old) bytes.now kept reply (view_of replica.new)) }
    ensures err { OnErr result (view_of replica.new ≡ view_of replica.old) }
{
    if kept > bytes.len() {
        return Ok(EventReply::Refused(Refusal::BadText));
    }
    match Delta::decode(alloc, &bytes[..kept]) {
        Ok(delta) => take_frame(alloc, replica, delta),
        Err(refusal) => {
            if refusal == Refusal::NoMemory {
                return Err(AllocError);
            }
            Ok(EventReply::Refused(refusal))
        }
    }
}

/// Encodes what a node sends, in a version.
fn encode_as(alloc: Global, told: &Delta, version: Version) -> Result<Vec<u8>, Refusal>
    ensures text { IfOk result (λ bytes. (needs_later version told.now ≡ false)
        × (bytes.items ≡ encoding_as version told.now)) }
    ensures rules { IsOfGrammar told.now → IfOk result (λ _. IsDeltaAs version told.now) }
    ensures refused { IfErr result (λ refusal. (refusal ≡ NoMemory)
        ⊎ ((refusal ≡ NeedsVersion2) × (needs_later version told.now ≡ true))) }
{
    match version {
        Version::One => encode_v1(alloc, told),
        Version::Two => Ok(encode(alloc, told)?),
    }
}

/// Returns the bytes that a node sends another that has the facts counted by a base. E15 if the
/// node doesn't count the base, and then E23 if the version can't express the frame.
pub fn bytes_since(
    alloc: Global,
    replica: &Replica,
    base: &Front,
    version: Version,
) -> Result<Vec<u8>, Refusal>
    requires { length base.now ≡ length replica.now.front }
    ensures sent { (h : History) (v : List ℕ) →
        IsLawful h → IsClosed h v → IsViewOf h v (view_of replica.now) →
        IfOk result (λ bytes. IsBelow base.now v
        × (needs_later version (frame_of (view_of replica.now) base.now) ≡ false)
        × IsDeltaAs version (frame_of (view_of replica.now) base.now)
        × (bytes.items ≡ encoding_as version (frame_of (view_of replica.now) base.now))) }
    ensures refused { IfErr result (λ refusal. (refusal ≡ NoMemory)
        ⊎ (((refusal ≡ Gap replica.now.front) × (IsBelow base.now replica.now.front → ⊥))
        ⊎ ((refusal ≡ NeedsVersion2) × IsBelow base.now replica.now.front
        × (needs_later version (frame_of (view_of replica.now) base.now) ≡ true)))) }
{
    let told = Delta::since(alloc, replica, base)?;
    encode_as(alloc, &told, version)
}

/// Restarts a node from the bytes of its own frame since the front of zeros, which has all that it
/// holds. If these are refused, which never happens in a lawful history, the node stays as it is.
pub fn restart(alloc: Global, replica: &mut Replica) -> Result<EventReply, AllocError>
    ensures nodes { length replica.new.front ≡ length replica.old.front }
    ensures same { (h : History) (v : List ℕ) → IsLawful h →
        IsClosed h v → StandsFor (facts h v) (view_of replica.old) → replica.old.front ≡ v →
        IfOk result (λ reply. (reply ≡ Restarted) × (view_of replica.new ≡ view_of replica.old)) }
    ensures err { OnErr result (view_of replica.new ≡ view_of replica.old) }
{
    let nodes = replica.front().nodes();
    let Ok(bytes) = bytes_since(alloc, replica, &Front::zero(nodes), Version::Two) else {
        return Err(AllocError);
    };
    let Ok(mut fresh) = Replica::new(alloc, nodes) else {
        return Err(AllocError);
    };
    let reply = take_bytes(alloc, &mut fresh, &bytes, bytes.len())?;
    if reply != EventReply::Took {
        return Ok(reply);
    }
    *replica = fresh;
    Ok(EventReply::Restarted)
}
