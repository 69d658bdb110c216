// The ids of nodes.
ghost use Rattle.std.specs.Prelude.{◌≡◌, Some, IfOk, MatchResult};
ghost use Rattle.std.specs.Fmt.{decimal};
ghost use Rattle.state_ids.specs.Ids.{IsNodeNumber};

use crate::{BadText, MAX_NODES};
use std::fmt;
use std::marker::Model;

/// A node, by its number from 1 to 8.
#[derive(Clone, Copy, Debug, PartialEq, Eq)]
pub struct NodeId {
    number: u8,
}

impl Model for NodeId {
    ghost use Rattle.std.specs.Prelude.{ℕ};
    ghost use Rattle.state_ids.specs.Ids.{IsNodeNumber};

    ghost Value = { ℕ };

    ghost view = { λ n. n.number };

    ghost invariant = { λ n. IsNodeNumber n.number };

    ghost inverse = { λ n. record { number = n } };
}

impl NodeId {
    /// Returns the node with this number, which must be from 1 to 8.
    pub fn new(number: u8) -> Result<NodeId, BadText>
        ensures value { IfOk result (λ node. node ≡ number) }
        ensures exact { MatchResult result
            (λ _. IsNodeNumber number) (λ _. IsNodeNumber number → ⊥) }
    {
        if number == 0 || number > MAX_NODES {
            return Err(BadText);
        }
        Ok(NodeId { number })
    }

    /// Returns the node's number.
    pub fn number(self) -> u8
        ensures value { result ≡ self }
        ensures range { IsNodeNumber self }
    {
        self.number
    }

    /// Does nothing. A call tells the prover that a node's number is from 1 to 8, which the type
    /// alone doesn't tell it.
    pub fn is_a_node(self)
        ensures { IsNodeNumber self }
    {}
}

impl fmt::Display for NodeId {
    ghost output = { λ node. Some (decimal node) };

    fn fmt<W: fmt::Write>(&self, f: &mut fmt::Formatter<W>) -> fmt::Result {
        let number = self.number;
        write!(f, "{number}")
    }
}
