// The clerk of a node whose journal is closed for a while.
ghost use Rattle.std.specs.Prelude.{◌≡◌, Err};
ghost use Rattle.state_facts.specs.declared.refusal.Refusal.TheVariants.{Stopped};

use state_book::{Call, Clerk, Receipt, Reply};
use state_facts::Refusal;
use std::alloc::Global;

/// A clerk that refuses each call (E19), because there is no journal to store it in.
#[derive(Drop)]
pub struct Closed {
    /// The receipts with which it began: none.
    receipts: Vec<Receipt>,
}

impl Closed {
    pub fn new(alloc: Global) -> Closed {
        Closed {
            receipts: Vec::new(alloc),
        }
    }
}

impl Clerk for Closed {
    ghost receipts = { λ c. c.receipts.items };

    ghost called = { λ old new _ _ outcome. (new ≡ old) × (outcome ≡ Err Stopped) };

    fn call(&mut self, _alloc: Global, _call: Call, _now: u64) -> Result<(), Refusal> {
        Err(Refusal::Stopped)
    }

    fn reply(&self) -> &Reply {
        &self.receipts[self.receipts.len() - 1].reply
    }
}
