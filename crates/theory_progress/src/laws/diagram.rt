//! Laws of the diagram: what a node shows of one LRA follows an automaton.
ghost use Rattle.std.specs.Prelude.{◌≡◌, ℕ, List, Ok, false, true};
ghost use Rattle.state_ids.specs.Ids.{Id};
ghost use Rattle.state_ids.specs.declared.status.LraStatus.{LraStatus as TheStatus};
ghost use Rattle.state_ids.specs.declared.status.LraStatus.TheVariants.{Active, Cancelled, Closed};
ghost use Rattle.state_facts.specs.Sets.{is_root};
ghost use Rattle.script_world.specs.declared.event.Event.{Event};
ghost use Rattle.script_world.specs.declared.event.EventReply.{EventReply};
ghost use Rattle.script_world.specs.Headline.{IsAncestorCancelled, IsNode, shown_at};
ghost use Rattle.script_world.specs.Worlds.{IsWorld, Runs, State, Steps, set_of};
ghost use Rattle.theory_progress.specs.Diagram.{ByEvent, IsCrossed, IsPath, are_parted, is_edge, is_own_edge, node_of};

/// What a node shows of an LRA follows the diagram: whatever happens, edges lead from what it shows
/// to what it shows later. If no LRA above it was cancelled, and so for every root, these are only
/// the standard's edges and the late failures. A node that took many facts at once may have passed
/// statuses that it never showed.
pub fn an_lra_goes_by_the_diagram()
    ensures path { (s t : State) (events : List Event) (replies : List EventReply)
        (node : ℕ) (l : Id) (a b : TheStatus) → IsWorld s → Runs s events replies t →
        IsNode s node → shown_at s node l ≡ Ok a → shown_at t node l ≡ Ok b → IsPath is_edge a b }
    ensures alone { (s t : State) (events : List Event) (replies : List EventReply)
        (node : ℕ) (l : Id) (a b : TheStatus) → IsWorld s → Runs s events replies t →
        IsNode s node → shown_at s node l ≡ Ok a → shown_at t node l ≡ Ok b →
        (IsAncestorCancelled t l → ⊥) → IsPath is_own_edge a b }
    ensures root { (s t : State) (events : List Event) (replies : List EventReply)
        (node : ℕ) (l : Id) (a b : TheStatus) → IsWorld s → Runs s events replies t →
        IsNode s node → shown_at s node l ≡ Ok a → shown_at t node l ≡ Ok b →
        is_root (set_of s node) l ≡ true → IsPath is_own_edge a b }
{}

/// A root keeps to one branch. If any node shows it on the branch of closing, no node shows it, at
/// that moment or later, on that of cancelling, and the other way round. The same holds for every
/// LRA, unless an LRA above it was cancelled.
pub fn a_root_keeps_to_one_branch()
    ensures root { (s t : State) (events : List Event) (replies : List EventReply)
        (one other : ℕ) (l : Id) (a b : TheStatus) → IsWorld s → Runs s events replies t →
        IsNode s one → IsNode t other → shown_at s one l ≡ Ok a → shown_at t other l ≡ Ok b →
        is_root (set_of s one) l ≡ true → are_parted a b ≡ false }
    ensures alone { (s t : State) (events : List Event) (replies : List EventReply)
        (one other : ℕ) (l : Id) (a b : TheStatus) → IsWorld s → Runs s events replies t →
        IsNode s one → IsNode t other → shown_at s one l ≡ Ok a → shown_at t other l ≡ Ok b →
        (IsAncestorCancelled t l → ⊥) → are_parted a b ≡ false }
{}

/// One event crosses few edges. A report crosses one at most: to an end, or a late failure. A
/// decision or a deadline crosses none, or one of its own and then one more at most, to an end. It
/// crosses both if no participant is open (`two`). Other commands, frames that are sent and
/// restarts cross none. So only a frame that is taken may bring several decisions at once. What
/// happens at another node changes nothing that the node shows (`elsewhere`).
pub fn one_event_crosses_few_edges()
    ensures few { (s t : State) (event : Event) (reply : EventReply)
        (node : ℕ) (l : Id) (a b : TheStatus) → IsWorld s → Steps s event reply t → IsNode s node →
        shown_at s node l ≡ Ok a → shown_at t node l ≡ Ok b → ByEvent event a b }
    ensures elsewhere { (s t : State) (event : Event) (reply : EventReply) (node : ℕ) (l : Id) →
        IsWorld s → Steps s event reply t → IsNode s node → (node_of event ≡ node → ⊥) →
        shown_at t node l ≡ shown_at s node l }
    ensures two { IsCrossed Active Closed × IsCrossed Active Cancelled × IsCrossed Closed Cancelled }
{}

/// No edge is unused: each one is crossed by one event.
pub fn each_edge_happens()
    ensures { (a b : TheStatus) → is_edge a b ≡ true → IsCrossed a b }
{}
