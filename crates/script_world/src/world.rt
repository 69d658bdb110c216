// The world: a replica for each node, and the frames that were sent.
ghost use Rattle.std.specs.Prelude.{◌≡◌, ◌≤◌, ◌<◌, ◌+◌, ◌↔◌, ◌⊎◌, ◌∷◌, ◌++◌, ◌==◌, ◌-◌, ℕ, List, [], Some, None, Err, if◌then◌else◌, IfErr, IfOk, IsErr, IsOk, IsTrue, OnOk, OnErr, length, nat_le, option_map, slice_get, vec_capacity};
ghost use Rattle.state_ids.specs.declared.TheConstants.{MAX_NODES};
ghost use Rattle.state_facts.specs.declared.fact.Fact.{Fact};
ghost use Rattle.state_forest.specs.Overdue.{IsLeastOverdue};
ghost use Rattle.theory_history.specs.Growth.{IsSettled};
ghost use Rattle.theory_history.specs.Histories.{History, IsClosed, IsLawful, facts};
ghost use Rattle.state_replica.specs.Replicas.{view_of};
ghost use Rattle.theory_history.specs.Views.{StandsFor};
ghost use Rattle.script_world.specs.declared.event.Event.TheVariants.{Act, Deliver, Restart, Send, Tick};
ghost use Rattle.script_world.specs.declared.event.EventReply.{EventReply as Replies};
ghost use Rattle.script_world.specs.declared.event.EventReply.TheVariants.{Restarted, Sent};
ghost use Rattle.script_world.specs.Headline.{member_at, shown_at};
ghost use Rattle.script_world.specs.Machines.{AreEmpty, Happens, IsActed, IsChanged, IsExpired, IsWorldOf, LeadsTo, StepsTo, StopsIn, TakesBytes};
ghost use Rattle.script_world.specs.Worlds.{IsEncoded, IsViewOf, Leads, NeedsLater, State, expired, front_of, set_of, start};
ghost use Rattle.state_ids.specs.Fronts.{IsBelow};
ghost use Rattle.state_facts.specs.declared.refusal.Refusal.TheVariants.{BadText, Gap, NeedsVersion2, NoMemory};

use crate::node::{act, bytes_since, restart, take_bytes};
use crate::{Event, EventReply, Stopped};
use state_facts::{Command, CommandReply, Refusal};
use state_ids::{Front, LraId, LraStatus, MAX_NODES, MemberStatus, NodeId, Verdict};
use state_replica::Replica;
use std::alloc::{AllocError, Global};
use std::marker::Model;
use wire_frames::Version;

/// All nodes, and the frames that were sent.
#[derive(Drop)]
pub struct World {
    replicas: Vec<Replica>,
    frames: Vec<Vec<u8>>,
}

impl Model for World {
    ghost use Rattle.script_world.specs.Machines.{IsMachine, Machine, bytes_of};

    ghost Value = { Machine };

    ghost view = { λ w. record { replicas = w.replicas.items; sent = bytes_of w.frames.items } };

    ghost invariant = { λ w.
        IsMachine (record { replicas = w.replicas.items; sent = bytes_of w.frames.items }) };
}

impl World {
    /// Makes a world of 1 to 8 nodes without facts. Any other number of nodes is E1.
    pub fn new(alloc: Global, nodes: usize) -> Result<World, Refusal>
        ensures start { IfOk result (λ world. IsWorldOf (start nodes) world) }
        ensures refused { result ≡ Err BadText ↔ ((nodes < 1) ⊎ (MAX_NODES < nodes)) }
        ensures cause { IfErr result (λ refusal. (refusal ≡ BadText) ⊎ (refusal ≡ NoMemory)) }
    {
        if nodes < 1 || nodes > MAX_NODES as usize {
            return Err(Refusal::BadText);
        }
        match empty_replicas(alloc, nodes) {
            Ok(replicas) => Ok(World {
                replicas,
                frames: Vec::new(alloc),
            }),
            Err(_) => Err(Refusal::NoMemory),
        }
    }

    /// Returns the number of nodes.
    pub fn nodes(&self) -> usize
        ensures { result ≡ length self.now.replicas }
    {
        self.replicas.len()
    }

    /// Returns the number of bytes of a frame, or `None` if no frame with this number was sent.
    pub fn frame_len(&self, frame: usize) -> Option<usize>
        ensures { result ≡
            (if frame == 0 then None else option_map length (slice_get self.now.sent (frame - 1))) }
    {
        if frame == 0 {
            return None;
        }
        let bytes = self.frames.get(frame - 1)?;
        Some(bytes.len())
    }

    /// Returns what a node holds.
    pub fn replica(&self, node: NodeId) -> &Replica
        requires { node ≤ length self.now.replicas }
        ensures view { (s : State) →
            IsWorldOf s self.now → IsViewOf s.history (front_of s node) (view_of result.now) }
        ensures nodes { length result.now.front ≡ length self.now.replicas }
    {
        let place = usize::from(node.number()) - 1;
        &self.replicas[place]
    }

    /// Returns what a node shows of an LRA. E2 if the node's front doesn't count the id, E3 if it
    /// does and the LRA is not held.
    pub fn status(&self, node: NodeId, id: LraId) -> Result<LraStatus, Refusal>
        requires { node ≤ length self.now.replicas }
        ensures { (s : State) → IsWorldOf s self.now → result ≡ shown_at s node id }
    {
        node.is_a_node();
        self.replica(node).status(id)
    }

    /// Returns what a node shows of a participant of an LRA. Errors as for `status`, and E5 if the
    /// LRA has no such participant.
    pub fn member(&self, node: NodeId, id: LraId, member: u8) -> Result<MemberStatus, Refusal>
        requires { node ≤ length self.now.replicas }
        ensures { (s : State) → IsWorldOf s self.now → result ≡ member_at s node id member }
    {
        node.is_a_node();
        self.replica(node).member(id, member)
    }

    fn has(&self, node: NodeId) -> bool
        ensures value { result ≡ nat_le node (length self.now.replicas) }
        ensures some { 1 ≤ node }
    {
        usize::from(node.number()) <= self.replicas.len()
    }

    fn was_sent(&self, frame: usize) -> bool
        ensures { IsTrue result ↔ ((1 ≤ frame) × (frame ≤ length self.now.sent)) }
    {
        1 <= frame && frame <= self.frames.len()
    }

    fn act_at(
        &mut self,
        alloc: Global,
        node: NodeId,
        command: Command,
    ) -> Result<CommandReply, AllocError>
        requires { node ≤ length self.old.replicas }
        ensures acted { IfOk result
            (λ reply. IsChanged self.old self.new node (λ was now. (S : List Fact) → IsSettled S →
            StandsFor S (view_of was) → IsActed S (view_of was) node command reply (view_of now))) }
        ensures err { OnErr result (IsChanged self.old self.new node
            (λ was now. view_of now ≡ view_of was)) }
    {
        let place = usize::from(node.number()) - 1;
        act(alloc, &mut self.replicas[place], node, command)
    }

    /// Restarts a node, which exists.
    fn restart_at(&mut self, alloc: Global, node: NodeId) -> Result<EventReply, AllocError>
        requires { node ≤ length self.old.replicas }
        ensures same { IfOk result
            (λ reply. IsChanged self.old self.new node (λ was now. (h : History) (v : List ℕ) →
            IsLawful h → IsClosed h v → StandsFor (facts h v) (view_of was) →
            was.front ≡ v → (reply ≡ Restarted) × (view_of now ≡ view_of was))) }
        ensures err { OnErr result (IsChanged self.old self.new node
            (λ was now. view_of now ≡ view_of was)) }
    {
        let place = usize::from(node.number()) - 1;
        restart(alloc, &mut self.replicas[place])
    }

    /// Delivers the first bytes, this many, of a frame that was sent to a node that exists.
    fn deliver_at(
        &mut self,
        alloc: Global,
        frame: usize,
        node: NodeId,
        kept: usize,
    ) -> Result<EventReply, AllocError>
        requires node { node ≤ length self.old.replicas }
        requires frame { frame < length self.old.sent }
        ensures taken { IfOk result (λ reply. IsChanged self.old self.new node
            (λ was now. (bytes : List ℕ) → slice_get self.old.sent frame ≡ Some bytes →
            TakesBytes (view_of was) bytes kept reply (view_of now))) }
        ensures err { OnErr result (IsChanged self.old self.new node
            (λ was now. view_of now ≡ view_of was)) }
    {
        let place = usize::from(node.number()) - 1;
        take_bytes(alloc, &mut self.replicas[place], &self.frames[frame], kept)
    }

    fn overdue(&self, node: NodeId, now: u64) -> Option<LraId>
        requires { node ≤ length self.now.replicas }
        ensures { (s : State) →
            IsWorldOf s self.now → IsLeastOverdue (set_of s node) node now result }
    {
        let place = usize::from(node.number()) - 1;
        self.replicas[place].expire(node, now)
    }

    fn act(
        &mut self,
        alloc: Global,
        node: NodeId,
        command: Command,
    ) -> Result<EventReply, AllocError>
        ensures step { (s : State) → IsWorldOf s self.old →
            IfOk result (λ reply. Happens s (Act node command) reply self.new) }
        ensures err { (s : State) → IsWorldOf s self.old → OnErr result (IsWorldOf s self.new) }
    {
        if !self.has(node) {
            return Ok(EventReply::Refused(Refusal::BadText));
        }
        let reply = self.act_at(alloc, node, command)?;
        Ok(EventReply::Answered(reply))
    }

    /// Delivers a frame, or its first bytes, this many, to a node.
    fn deliver(
        &mut self,
        alloc: Global,
        frame: usize,
        node: NodeId,
        kept: usize,
    ) -> Result<EventReply, AllocError>
        ensures step { (s : State) → IsWorldOf s self.old →
            IfOk result (λ reply. Happens s (Deliver frame node kept) reply self.new) }
        ensures err { (s : State) → IsWorldOf s self.old → OnErr result (IsWorldOf s self.new) }
    {
        if !self.has(node) || !self.was_sent(frame) {
            return Ok(EventReply::Refused(Refusal::BadText));
        }
        self.deliver_at(alloc, frame - 1, node, kept)
    }

    /// Restarts a node.
    fn restart(&mut self, alloc: Global, node: NodeId) -> Result<EventReply, AllocError>
        ensures step { (s : State) →
            IsWorldOf s self.old → IfOk result (λ reply. Happens s (Restart node) reply self.new) }
        ensures err { (s : State) → IsWorldOf s self.old → OnErr result (IsWorldOf s self.new) }
    {
        if !self.has(node) {
            return Ok(EventReply::Refused(Refusal::BadText));
        }
        self.restart_at(alloc, node)
    }

    /// Lets one event happen. If memory runs out, the world is left as it was.
    pub fn step(&mut self, alloc: Global, event: Event) -> Result<EventReply, AllocError>
        ensures step { (s : State) →
            IsWorldOf s self.old → IfOk result (λ reply. Happens s event reply self.new) }
        // The headline holds from any state that led here.
        ensures headline { (first s : State) → Leads first s → IsWorldOf s self.old →
            IfOk result (λ reply. StepsTo first s event reply self.new) }
        ensures err { (s : State) → IsWorldOf s self.old → OnErr result (IsWorldOf s self.new) }
    {
        self.happen(alloc, event)
    }

    /// Does what `step` does, without the headline, so that this is shown once.
    fn happen(&mut self, alloc: Global, event: Event) -> Result<EventReply, AllocError>
        ensures step { (s : State) →
            IsWorldOf s self.old → IfOk result (λ reply. Happens s event reply self.new) }
        ensures err { (s : State) → IsWorldOf s self.old → OnErr result (IsWorldOf s self.new) }
    {
        match event {
            Event::Act { node, command } => self.act(alloc, node, command),
            Event::Send {
                node,
                base,
                version,
            } => self.send(alloc, node, base, version),
            Event::Deliver { frame, node, kept } => self.deliver(alloc, frame, node, kept),
            Event::Restart { node } => self.restart(alloc, node),
            Event::Tick { node, now } => self.tick(alloc, node, now),
        }
    }

    /// Lets many events happen, one after another. If memory runs out, the run stops at an event
    /// that has not happened, and the error has the replies to the events before it. Each event is
    /// copied, since `step` takes ownership of a command's links.
    pub fn run(&mut self, alloc: Global, events: &[Event]) -> Result<Vec<EventReply>, Stopped>
        ensures headline { (s : State) → IsWorldOf s self.old →
            IfOk result (λ replies. LeadsTo s events.now replies.items self.new) }
        ensures err { (s : State) → IsWorldOf s self.old →
            IfErr result (λ stopped. StopsIn s events.now stopped.replies.items self.new) }
    {
        let mut replies = Vec::new(alloc);
        for event in events {
            let Ok(()) = self.step_on(alloc, event, &mut replies) else {
                return Err(Stopped { replies });
            };
        }
        Ok(replies)
    }

    /// Lets one event happen, and puts its reply at the end, in room that was made before. If
    /// memory runs out, nothing is put, and the event has not happened.
    fn step_on(
        &mut self,
        alloc: Global,
        event: &Event,
        replies: &mut Vec<EventReply>,
    ) -> Result<(), AllocError>
        ensures ok { (s : State) → IsWorldOf s self.old →
            OnOk result ((reply : Replies) × Happens s event.now reply self.new
            × (replies.new.items ≡ replies.old.items ++ reply ∷ [])) }
        ensures err { (s : State) → IsWorldOf s self.old →
            OnErr result (IsWorldOf s self.new × (replies.new.items ≡ replies.old.items)) }
    {
        // Without a value of this type here the toolchain's borrow checker can't build its plan for
        // a `EventReply`.
        let _ = CommandReply::Refused(Refusal::NoMemory);
        let event = event.clone()?;
        replies.reserve(1)?;
        keep(replies, self.step(alloc, event))
    }

    fn tick(&mut self, alloc: Global, node: NodeId, now: u64) -> Result<EventReply, AllocError>
        ensures step { (s : State) →
            IsWorldOf s self.old → IfOk result (λ reply. Happens s (Tick node now) reply self.new) }
        ensures err { (s : State) → IsWorldOf s self.old → OnErr result (IsWorldOf s self.new) }
    {
        if !self.has(node) {
            return Ok(EventReply::Refused(Refusal::BadText));
        }
        match self.overdue(node, now) {
            Some(id) => self.expire(alloc, node, id),
            None => Ok(EventReply::Quiet),
        }
    }

    fn expire(&mut self, alloc: Global, node: NodeId, id: LraId) -> Result<EventReply, AllocError>
        requires { node ≤ length self.old.replicas }
        ensures step { (s : State) →
            IsWorldOf s self.old → IfOk result (λ reply. IsExpired s node id reply self.new) }
        ensures err { (s : State) → IsWorldOf s self.old → OnErr result (IsWorldOf s self.new) }
    {
        let verdict = Verdict::Cancel;
        node.is_a_node();
        let reply = self.act_at(alloc, node, Command::Decide { id, verdict })?;
        Ok(reply_of_expiry(id, reply))
    }

    /// Lets a node send what it has since a base, in this version of frames.
    fn send(
        &mut self,
        alloc: Global,
        node: NodeId,
        base: Front,
        version: Version,
    ) -> Result<EventReply, AllocError>
        ensures step { (s : State) → IsWorldOf s self.old →
            IfOk result (λ reply. Happens s (Send node base version) reply self.new) }
        ensures err { (s : State) → IsWorldOf s self.old → OnErr result (IsWorldOf s self.new) }
    {
        if !self.has(node) || base.nodes() != self.replicas.len() {
            return Ok(EventReply::Refused(Refusal::BadText));
        }
        match self.frame_since(alloc, node, &base, version) {
            Ok(bytes) => self.post(bytes),
            Err(refusal) => {
                if refusal == Refusal::NoMemory {
                    return Err(AllocError);
                }
                Ok(EventReply::Refused(refusal))
            }
        }
    }

    /// Returns the bytes of a node's frame since a base.
    fn frame_since(
        &self,
        alloc: Global,
        node: NodeId,
        base: &Front,
        version: Version,
    ) -> Result<Vec<u8>, Refusal>
        requires node { node ≤ length self.now.replicas }
        requires base { length base.now ≡ length self.now.replicas }
        ensures sent { (s : State) → IsWorldOf s self.now →
            IfOk result (λ bytes. IsBelow base.now (front_of s node)
            × (NeedsLater s node base.now version → ⊥) × IsEncoded s.history
            (record { version = version; base = base.now; front = front_of s node }) bytes.items) }
        ensures refused { (s : State) →
            IsWorldOf s self.now → IfErr result (λ refusal. (refusal ≡ NoMemory)
            ⊎ (((refusal ≡ Gap (front_of s node)) × (IsBelow base.now (front_of s node) → ⊥))
            ⊎ ((refusal ≡ NeedsVersion2) × IsBelow base.now (front_of s node)
            × NeedsLater s node base.now version))) }
    {
        let place = usize::from(node.number()) - 1;
        bytes_since(alloc, &self.replicas[place], base, version)
    }

    /// Keeps the bytes of a frame that is sent.
    fn post(&mut self, bytes: Vec<u8>) -> Result<EventReply, AllocError>
        ensures posted { IfOk result (λ reply. (reply ≡ Sent (length self.old.sent + 1)) × (self.new
            ≡ record { replicas = self.old.replicas; sent = self.old.sent ++ bytes.items ∷ [] })) }
        ensures err { OnErr result (self.new ≡ self.old) }
    {
        self.frames.push(bytes)?;
        Ok(EventReply::Sent(self.frames.len()))
    }
}

fn empty_replicas(alloc: Global, nodes: usize) -> Result<Vec<Replica>, AllocError>
    requires { (1 ≤ nodes) × (nodes ≤ MAX_NODES) }
    ensures { IfOk result (λ replicas. AreEmpty nodes nodes replicas.items) }
{
    let mut replicas = Vec::new(alloc);
    for _ in 0..nodes {
        let Ok(replica) = Replica::new(alloc, nodes) else {
            return Err(AllocError);
        };
        replicas.push(replica)?;
    }
    Ok(replicas)
}

fn reply_of_expiry(id: LraId, reply: CommandReply) -> EventReply
    ensures { result ≡ expired id reply }
{
    match reply {
        CommandReply::Refused(refusal) => EventReply::Refused(refusal),
        _ => EventReply::Expired(id),
    }
}

/// Puts an item at the end, where there must be room for it. It is generic because the toolchain's
/// borrow checker can't build it for a `EventReply`.
fn keep<T: Drop>(items: &mut Vec<T>, item: Result<T, AllocError>) -> Result<(), AllocError>
    requires { length items.old.items < vec_capacity items.old }
    ensures ok { IfOk item (λ one. IsOk result × (items.new.items ≡ items.old.items ++ one ∷ [])) }
    ensures err { OnErr item (IsErr result × (items.new.items ≡ items.old.items)) }
{
    items.push_reserved(item?);
    Ok(())
}
