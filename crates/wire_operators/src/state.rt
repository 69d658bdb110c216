// What an operator's port shows of its node besides what the journal has.

use std::alloc::{AllocError, Global};
use wire_http::Bytes;

/// What the threads of a node know about it. This may change at any moment, so each state says by
/// relations what it may answer. A state that doesn't change says it by equations.
pub trait State {
    ghost use Rattle.std.specs.Prelude.{ℕ, List, Option, IfOk};
    ghost use Rattle.std.specs.Option.{option_copied};
    ghost use Rattle.wire_operators.specs.declared.wanted.Topic.{Topic as TheTopic};
    ghost use Rattle.wire_operators.specs.declared.wanted.Topic.TheVariants.{Calls, Health, Metrics};

    /// The cause that it may give for accepting no commands; none if it may say that it accepts
    /// them.
    ghost causes: { Self → Option (List ℕ) → Type 0 };

    /// The names that it may have.
    ghost named: { Self → List (List ℕ) → Type 0 };

    /// The texts that it may give for a topic.
    ghost tells: { Self → TheTopic → List ℕ → Type 0 };

    /// The names by which it may be asked, besides `localhost` and addresses.
    fn names(&self) -> &[Bytes]
        ensures { named self.now result.now };

    /// Returns which node it is, of how many, as JSON.
    fn health(&self, alloc: Global) -> Result<Vec<u8>, AllocError>
        ensures { IfOk result (λ text. tells self.now Health text.items) };

    /// Returns why it accepts no commands now, or `None` if it accepts them.
    fn unready(&self) -> Option<&'static str>
        ensures { causes self.now (option_copied result) };

    /// Returns the participants whose calls fail, as JSON.
    fn calls(&self, alloc: Global) -> Result<Vec<u8>, AllocError>
        ensures { IfOk result (λ text. tells self.now Calls text.items) };

    /// Returns its counts, in the text format of Prometheus.
    fn metrics(&self, alloc: Global) -> Result<Vec<u8>, AllocError>
        ensures { IfOk result (λ text. tells self.now Metrics text.items) };
}
