// What a node wants of the other nodes, and its state at the start.

use node_agenda::{Keep, Sweeping};
use node_core::{NodeSettings, NodeState};
use state_ids::{MAX_NODES, NodeId};
use std::alloc::Global;
use std::time::Duration;

/// How many copies a node wants of each fact, and how long an answer waits for them.
#[derive(Clone, Copy)]
pub struct Wants {
    /// How many other nodes are to have a fact; 0 if nothing waits.
    pub copies: u8,
    pub patience_ms: u64,
    /// Whether nothing is acknowledged once that time is over.
    pub is_strict: bool,
    /// Whether each start is told that the journal is lost, or isn't the newest.
    pub is_anew: bool,
}

impl Wants {
    /// Makes it that nothing waits.
    pub fn none() -> Wants {
        Wants {
            copies: 0,
            patience_ms: 0,
            is_strict: false,
            is_anew: false,
        }
    }

    /// Whether anything waits.
    pub fn any(&self) -> bool {
        self.copies > 0
    }

    /// Returns the settings of a node, given whether it is told that its journal is lost, or isn't
    /// the newest. Its runs end by chance, and not after so many calls.
    fn settings(&self, is_apart: bool, is_anew: bool) -> NodeSettings {
        NodeSettings {
            is_apart,
            is_anew,
            copies: self.copies,
            patience: Duration::from_millis(self.patience_ms),
            is_strict: self.is_strict,
            max_calls: u64::MAX,
            max_moves: u64::MAX,
        }
    }

    /// Makes the state of a node in a group of `nodes` nodes, before its journal is looked at.
    pub fn new_state(
        &self,
        alloc: Global,
        me: NodeId,
        nodes: u8,
        keep: Keep,
        is_anew: bool,
    ) -> NodeState {
        let nodes = nodes.clamp(1, MAX_NODES);
        let is_apart = nodes > 1;
        let sweeping = Sweeping::new(alloc, me, keep, is_apart, true);
        NodeState::new(
            alloc,
            me,
            nodes,
            &self.settings(is_apart, is_anew),
            sweeping,
        )
    }
}
