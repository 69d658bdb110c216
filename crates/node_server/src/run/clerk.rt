// The clerk of a thread in a run of a node.
ghost use Rattle.std.specs.Prelude.{◌≡◌, ◌⊎◌, Err};
ghost use Rattle.state_facts.specs.declared.refusal.Refusal.TheVariants.{Stopped};

use crate::run::pull_holder::front_in;
use node_core::Caller;
use node_effects::{CallNotes, number_of, refused_by};
use node_sockets::Promise;
use node_threads::Node;
use state_book::{Call, Clerk, Reply};
use state_facts::Refusal;
use state_ids::Front;
use std::alloc::Global;
use std::sync::Wait;
use std::time::Clock;

/// A clerk that counts its calls, and records their effects for the other threads. The thread that
/// makes the calls wakes those, once the answer is written, and ends the run then if it is nearly full
/// (`Node::pass_on`).
#[derive(Drop)]
pub struct CountingClerk<'n, R, C: Clerk> {
    rt: &'n R,
    node: &'n Node,
    clerk: C,
    /// The place at which its thread is recorded while it waits at the desk.
    place: usize,
    /// Whose thread it is.
    caller: Caller,
    /// Whether a call was held back since this was last asked.
    held: bool,
    /// What the answer of its thread waits for, if it writes answers.
    promise: Option<&'n Promise>,
}

impl<'n, R, C: Clerk> CountingClerk<'n, R, C> {
    /// Makes the clerk of the writer thread. It holds nothing back, because the writer thread has
    /// nothing to store before the others were heard from, or while the journal has just failed.
    pub fn new(rt: &'n R, node: &'n Node, clerk: C, place: usize) -> CountingClerk<'n, R, C> {
        CountingClerk {
            rt,
            node,
            clerk,
            place,
            caller: Caller::Writer,
            held: false,
            promise: None,
        }
    }

    /// Makes the clerk of a worker. After a failure of the journal, and while the others weren't
    /// heard from or have more of the node's facts, it refuses commands (E19), and passes
    /// everything else to the clerk; but only pulls if the disk may be lost. Its answers wait until
    /// other nodes have what they show.
    pub fn of_worker(
        rt: &'n R,
        node: &'n Node,
        clerk: C,
        place: usize,
        promise: &'n Promise,
    ) -> CountingClerk<'n, R, C> {
        CountingClerk {
            rt,
            node,
            clerk,
            place,
            caller: Caller::Worker,
            held: false,
            promise: Some(promise),
        }
    }

    /// Whether a call was held back since this was last asked.
    pub fn take_held(&mut self) -> bool {
        let held = self.held;
        self.held = false;
        held
    }

    /// Returns the clerk.
    pub fn into_clerk(self) -> C {
        let CountingClerk {
            rt: _,
            node: _,
            clerk,
            place: _,
            caller: _,
            held: _,
            promise: _,
        } = self;
        clerk
    }
}

/// Returns the front of the node that pulls, if that matters.
fn front_of(node: &Node, call: &Call) -> Option<Front> {
    match call {
        Call::Pull(body) => front_in(node, body.as_slice()),
        _ => None,
    }
}

impl<'n, R: Wait + Clock, C: Clerk + Drop> Clerk for CountingClerk<'n, R, C> {
    ghost receipts = { λ s. C.receipts s.clerk };

    // Either the clerk was called, or the call was refused without asking the clerk.
    ghost called = { λ old new call now outcome. C.called old.clerk new.clerk call now outcome
        ⊎ ((new.clerk ≡ old.clerk) × (outcome ≡ Err Stopped)) };

    fn call(&mut self, alloc: Global, call: Call, now: u64) -> Result<(), Refusal> {
        let notes = CallNotes::of(&call);
        let front = front_of(self.node, &call);
        let admission = self
            .node
            .core
            .admit(self.rt, self.caller, notes.asked, self.place);
        let Some(admission) = admission else {
            self.held = true;
            let number = number_of(&Refusal::Stopped);
            self.node.counts.call(self.rt, notes.kind, Some(number));
            return Err(Refusal::Stopped);
        };
        match self.clerk.call(alloc, call, now) {
            Ok(()) => {
                let reply = self.clerk.reply();
                let came = notes.result(reply);
                let ticket = self.node.core.settle(self.rt, admission, &came);
                if let (Some(promise), Some(ticket)) = (self.promise, ticket) {
                    promise.make(ticket);
                }
                self.node
                    .counts
                    .call(self.rt, notes.kind, refused_by(reply));
                if let Some(front) = front {
                    self.node.hear_front(self.rt, &front);
                }
                Ok(())
            }
            Err(refusal) => {
                let has_failed = matches!(refusal, Refusal::JournalFailed);
                self.node.core.give_up(self.rt, admission, has_failed);
                let number = number_of(&refusal);
                self.node.counts.call(self.rt, notes.kind, Some(number));
                Err(refusal)
            }
        }
    }

    fn reply(&self) -> &Reply {
        self.clerk.reply()
    }
}
