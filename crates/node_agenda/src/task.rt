// What the writer thread does next.
ghost use Rattle.std.specs.Prelude.{◌≡◌};
ghost use Rattle.node_agenda.specs.Mail.{is_any, is_wanted};

use crate::sweep::Chore;
use node_inbox::{Letter, Telling};

/// What the writer thread does next.
#[derive(Drop)]
pub enum Task {
    /// Record a participant's answer.
    Enter(Letter),
    /// Take what another node sent.
    Take(Telling),
    /// Ask which participants are to be called.
    Ask,
    /// Look for a deadline that has passed.
    Tick,
    /// Ask how many facts the node has, so that the other nodes learn it.
    Count,
    /// Do a chore of a sweep.
    Sweep(Chore),
    /// Make the call that operators want, which is of this kind.
    Errand(OperatorWant),
    /// Check whether the run is over.
    Rest,
}

/// What operators want from the writer thread.
#[derive(Clone, Copy)]
pub enum OperatorWant {
    Nothing,
    /// A call that stores nothing.
    Question,
    /// A call that stores something.
    Command,
}

impl OperatorWant {
    /// Whether it is to be made now, if the node may or may not store facts of its own.
    pub(crate) fn is_there(self, may_enter: bool) -> bool
        ensures { result ≡ is_wanted may_enter self }
    {
        match self {
            OperatorWant::Nothing => false,
            OperatorWant::Question => true,
            OperatorWant::Command => may_enter,
        }
    }

    /// Whether a call is wanted.
    pub(crate) fn is_any(self) -> bool
        ensures { result ≡ is_any self }
    {
        match self {
            OperatorWant::Nothing => false,
            OperatorWant::Question | OperatorWant::Command => true,
        }
    }
}
