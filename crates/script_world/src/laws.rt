//! Laws of the world. Each function does nothing, and its contract is the law.
ghost use Rattle.std.specs.Prelude.{◌≡◌, ◌≤◌, ℕ, List};
ghost use Rattle.wire_frames.specs.Typed.{IsTyped};
ghost use Rattle.theory_history.specs.Histories.{History, IsClosed, IsLawful};
ghost use Rattle.theory_history.specs.Views.{View};
ghost use Rattle.script_world.specs.declared.event.Event.{Event};
ghost use Rattle.script_world.specs.declared.event.EventReply.{EventReply};
ghost use Rattle.script_world.specs.Headline.{Agree, Converges, NoSplit, StatusesRise, TookTheSame};
ghost use Rattle.script_world.specs.Restarts.{ComesBack, whole_of};
ghost use Rattle.script_world.specs.Worlds.{IsViewOf, IsWorld, Runs, State, Steps, start};

/// The invariant of all states: the first state satisfies it, and each step preserves it.
pub fn every_state_is_a_world()
    ensures first { (nodes : ℕ) → 1 ≤ nodes → IsWorld (start nodes) }
    ensures step { (s t : State) (event : Event) (reply : EventReply) →
        IsWorld s → Steps s event reply t → IsWorld t }
    ensures run { (s t : State) (events : List Event) (replies : List EventReply) →
        IsWorld s → Runs s events replies t → IsWorld t }
{}

/// Two nodes that took the same facts agree.
pub fn nodes_with_the_same_facts_agree()
    ensures { (s : State) (one other : ℕ) →
        IsWorld s → TookTheSame s one other → Agree s one other }
{}

/// No verdict is split, whatever happens between two states. If an LRA is Closing at a node in one
/// state, or has closed there, it is not Cancelling at any node in the other state, and was not
/// cancelled there, unless an LRA above it was cancelled. So no root is Closing here and Cancelling
/// there.
pub fn no_verdict_is_split()
    ensures { (s t : State) (events : List Event) (replies : List EventReply) →
        IsWorld s → Runs s events replies t → NoSplit s t }
{}

/// Whatever happens between two states, no LRA's status falls at any node.
pub fn statuses_rise()
    ensures { (s t : State) (events : List Event) (replies : List EventReply) →
        IsWorld s → Runs s events replies t → StatusesRise s t }
{}

/// The headline: whatever events happen, the state after them is one of a world, nodes that took
/// the same facts agree, no verdict is split, and statuses rise.
pub fn the_world_converges()
    ensures { (s t : State) (events : List Event) (replies : List EventReply) →
        IsWorld s → Runs s events replies t → Converges s t }
{}

/// An event has only one reply and leads to only one state, so the definition of a step is not too
/// wide.
pub fn a_step_is_determined()
    ensures reply { (s t u : State) (event : Event) (reply other : EventReply) →
        Steps s event reply t → Steps s event other u → reply ≡ other }
    ensures state { (s t u : State) (event : Event) (reply other : EventReply) →
        Steps s event reply t → Steps s event other u → t ≡ u }
{}

/// The frame since nothing of what a node holds is read from its encoding as the same frame again,
/// if it has the types of a delta. The view of no facts that takes this frame becomes the node's
/// view, and no other. So a restart from these bytes brings back everything and nothing else.
pub fn a_frame_since_nothing_brings_all_back()
    ensures { (h : History) (v : List ℕ) (view : View) →
        IsLawful h → IsClosed h v → IsViewOf h v view → IsTyped (whole_of view) → ComesBack view }
{}
