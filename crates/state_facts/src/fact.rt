// Facts: the log entries of nodes.
use crate::Links;
use state_ids::{Act, LraId, NodeId, Outcome, Verdict};

/// What a fact says.
#[derive(Debug, Drop)]
pub enum Body {
    /// An LRA is begun. Its id is the fact's origin and number. The deadline is a moment in
    /// milliseconds, 0 for none.
    Begin {
        parent: Option<LraId>,
        deadline: u64,
    },
    /// A participant joins an LRA with a member number.
    Join {
        id: LraId,
        member: u8,
        links: Links,
    },
    /// A participant leaves its LRA.
    Leave {
        id: LraId,
        member: u8,
    },
    /// An LRA is closed or cancelled.
    Decide {
        id: LraId,
        verdict: Verdict,
    },
    /// An outcome of an act of a participant was heard.
    Report {
        id: LraId,
        member: u8,
        act: Act,
        outcome: Outcome,
    },
    /// A participant was told that it may forget.
    Forgot {
        id: LraId,
        member: u8,
    },
    /// A participant was told that its LRA has ended.
    Told {
        id: LraId,
        member: u8,
    },
    /// A root and everything nested in it are removed.
    Purge {
        root: LraId,
    },
}

/// A fact: the `num`th entry of the node `origin`. Nodes number their facts from 1.
#[derive(Debug, Drop)]
pub struct Fact {
    pub origin: NodeId,
    pub num: u64,
    pub body: Body,
}
