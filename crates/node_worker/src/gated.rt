// A worker's clerk that asks the gate.

use crate::Gate;
use state_book::{Call, Clerk, Reply};
use state_facts::Refusal;
use std::alloc::Global;

/// A clerk that asks a gate before each call and after it.
#[derive(Drop)]
pub(crate) struct Gated<'g, C: Clerk, G: Gate> {
    pub(crate) clerk: C,
    pub(crate) gate: &'g G,
}

impl<'g, C: Clerk + Drop, G: Gate> Clerk for Gated<'g, C, G> {
    ghost receipts = { λ g. C.receipts g.clerk };

    ghost called = { λ old new. C.called old.clerk new.clerk };

    fn call(&mut self, alloc: Global, call: Call, now: u64) -> Result<(), Refusal> {
        let gate = self.gate;
        gate.pause(1);
        let outcome = self.clerk.call(alloc, call, now);
        gate.pause(2);
        outcome
    }

    fn reply(&self) -> &Reply {
        self.clerk.reply()
    }
}
