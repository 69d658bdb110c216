// What a node's threads know about it, for its operators.

use node_metrics::{calls_of, metrics_of};
use node_threads::Node;
use std::alloc::{AllocError, Global};
use std::sync::Wait;
use std::time::Clock;
use wire_http::Bytes;
use wire_operators::State;

/// What the threads of a node know about it, and why it accepted no commands when that was last
/// checked, if it didn't.
#[derive(Clone, Copy)]
pub struct NodeReport<'n, R> {
    pub rt: &'n R,
    pub node: &'n Node,
    pub cause: Option<&'static str>,
}

fn push_number(alloc: Global, body: &mut Vec<u8>, number: u8) -> Result<(), AllocError> {
    let digits = number.to_string(alloc)?;
    body.extend_from_slice(digits.as_bytes())
}

impl<'n, R: Wait + Clock> State for NodeReport<'n, R> {
    ghost use Rattle.std.specs.Prelude.{◌≡◌, ⊤};
    ghost use Rattle.std.specs.Option.{option_copied};

    ghost causes = { λ k cause. cause ≡ option_copied k.cause };

    // No clause speaks of what the threads know, because it stands under locks, nor of the names
    // that the program was given.
    ghost named = { λ _ _. ⊤ };

    ghost tells = { λ _ _ _. ⊤ };

    fn names(&self) -> &[Bytes] {
        self.node.names()
    }

    fn health(&self, alloc: Global) -> Result<Vec<u8>, AllocError> {
        let mut body = Vec::from_slice(alloc, b"{\"node\":")?;
        push_number(alloc, &mut body, self.node.number())?;
        body.extend_from_slice(b",\"nodes\":")?;
        push_number(alloc, &mut body, self.node.nodes)?;
        body.extend_from_slice(b"}")?;
        Ok(body)
    }

    fn unready(&self) -> Option<&'static str> {
        self.cause
    }

    fn calls(&self, alloc: Global) -> Result<Vec<u8>, AllocError> {
        calls_of(self.rt, alloc, self.node)
    }

    fn metrics(&self, alloc: Global) -> Result<Vec<u8>, AllocError> {
        metrics_of(self.rt, alloc, self.node)
    }
}
