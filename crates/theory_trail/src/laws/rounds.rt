//! Laws of rounds: what servers hold once each has heard from each other.
ghost use Rattle.std.specs.Prelude.{◌≡◌, ◌≤◌, ◌<◌, ◌+◌, ℕ, List, false, length};
ghost use Rattle.std.specs.List.{list_any};
ghost use Rattle.state_ids.specs.Fronts.{count};
ghost use Rattle.state_ids.specs.Ids.{Id, last_number};
ghost use Rattle.state_ids.specs.declared.TheConstants.{MAX_NODES};
ghost use Rattle.theory_history.specs.Histories.{entries_of};
ghost use Rattle.theory_history.specs.Views.{View, empty_view};
ghost use Rattle.script_world.specs.Headline.{IsNode};
ghost use Rattle.script_world.specs.Worlds.{IsWorld, State, front_of, nodes_of, set_of, start};
ghost use Rattle.theory_progress.specs.CallRounds.{IsCallRound};
ghost use Rattle.theory_progress.specs.Calls.{IsUnderWay, open_under, saga_of};
ghost use Rattle.theory_progress.specs.Rounds.{all_counted, may_enter};
ghost use Rattle.theory_trail.specs.ServerRounds.{FitIntoFrames, HasServerRound, IsServerRound};
ghost use Rattle.theory_trail.specs.Servers.{AreServed, AreTrails, Turn, events_in};

use theory_history::laws::rising::what_is_at_its_end_stays_there;
use theory_progress::laws::{a_tree_goes_on_until_it_is_purged, what_is_under_way_can_be_ended};

/// One round makes all servers alike. Each node of the world is a server. In these turns each node
/// gives each other node a frame, which the other takes, unless it already counts everything that
/// the frame counts: a server leaves out a frame that brings it nothing new. Then each node counts
/// at the end everything that was entered before these turns, whatever is entered meanwhile
/// (`brings`). If nothing is entered, because no command is accepted and no LRA expires, each node
/// counts everything that was ever entered. So all hold the same view.
pub fn one_round_makes_all_servers_alike()
    ensures brings { (s t : State) (views ends : ℕ → View) (turns : List Turn) (node from : ℕ) →
        AreTrails s views turns t ends → IsServerRound s turns ends → IsNode s node →
        IsNode s from → length (entries_of s.history from) ≤ count (ends node).front from }
    ensures all { (s t : State) (views ends : ℕ → View) (turns : List Turn) (node : ℕ) →
        AreTrails s views turns t ends → t.history ≡ s.history → IsServerRound s turns ends →
        IsNode s node → (ends node).front ≡ all_counted t.history }
    ensures alike { (s t : State) (views ends : ℕ → View) (turns : List Turn) (one other : ℕ) →
        AreTrails s views turns t ends → t.history ≡ s.history → IsServerRound s turns ends →
        IsNode s one → IsNode s other → ends one ≡ ends other }
    ensures quiet { (s t : State) (views ends : ℕ → View) (turns : List Turn) →
        AreTrails s views turns t ends → list_any may_enter (events_in turns) ≡ false →
        t.history ≡ s.history }
{}

/// A round of servers can be made from each state in which what the nodes hold fits into frames:
/// each node is asked for a frame since nothing, and takes the frames of all others. The start of
/// two servers is such a state (`met`).
pub fn a_round_of_servers_can_be_made()
    ensures made { (s : State) (views : ℕ → View) → IsWorld s → AreServed s views →
        nodes_of s ≤ MAX_NODES → FitIntoFrames s views → HasServerRound s views }
    ensures met { AreServed (start 2) (λ node. empty_view 2)
        × FitIntoFrames (start 2) (λ node. empty_view 2) }
{}

/// A round of calls can be made from each state in which an LRA is under way: answers alone lead to
/// a state in which the end of each call to act under it was heard. The node needs that many
/// numbers.
pub fn a_round_of_calls_can_be_made()
    ensures { (s : State) (node : ℕ) (l : Id) →
        IsWorld s → IsNode s node → IsUnderWay (set_of s node) l →
        count (front_of s node) node
        + open_under (set_of s node) (saga_of (set_of s node) l) < last_number →
        (t : State) × IsCallRound node l s t }
{
    a_tree_goes_on_until_it_is_purged();
    what_is_at_its_end_stays_there();
    what_is_under_way_can_be_ended();
}
