// Which calls of a node are repeated.
ghost use Rattle.std.specs.Prelude.{◌≡◌, ◌≢◌, IsTrue};
ghost use Rattle.wire_narayana.specs.Repeats.{MayBeMade, is_again};
ghost use Rattle.wire_narayana.specs.declared.repeat.NodeResult.TheVariants as came_to;
ghost use Rattle.wire_narayana.specs.declared.repeat.Repeat.TheVariants as calls;

/// The outcome of a call of a node.
#[derive(Clone, Copy, PartialEq, Eq, Debug)]
pub enum NodeResult {
    /// The node said that it did nothing and may be asked again (E19 to E21).
    DidNothing,
    /// Another answer with code 503: the call may have been made.
    Unsure,
    /// Any other answer.
    Answered,
    /// No connection was established, so nothing was sent.
    Unsent,
    /// Something may have been sent, but no whole answer came.
    Unheard,
    /// Memory for the call ran out.
    NoMemory,
}

/// When a call may be repeated.
#[derive(Clone, Copy, PartialEq, Eq, Debug)]
pub enum Repeat {
    /// Only if the node says that it did nothing: for a begin, which another node may make.
    Never,
    /// Also if nothing was sent: for a join.
    Unsent,
    /// Also if no answer came, because a second call does no harm: for a close, a leave or a
    /// question.
    Always,
}

/// Whether a call with this outcome is repeated.
pub fn is_again(came: NodeResult, repeat: Repeat) -> bool
    ensures table { result ≡ is_again came repeat }
    // A call that may have been made is repeated only if that does no harm.
    ensures once { IsTrue result → MayBeMade came → repeat ≡ calls.Always }
    ensures answered { IsTrue result → came ≢ came_to.Answered }
{
    match came {
        NodeResult::DidNothing => true,
        NodeResult::Unsent => repeat != Repeat::Never,
        NodeResult::Unsure | NodeResult::Unheard => repeat == Repeat::Always,
        NodeResult::Answered | NodeResult::NoMemory => false,
    }
}
