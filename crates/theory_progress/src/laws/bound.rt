//! A bound in rounds of calls: in each round every participant that is to act is called at once,
//! and gives an end. Nothing is said of time: a round is as long as the slowest answer.
ghost use Rattle.std.specs.Prelude.{◌≡◌, ◌≤◌, ◌-◌, ℕ, List, Some, length, true};
ghost use Rattle.state_ids.specs.Ids.{Id};
ghost use Rattle.state_ids.specs.declared.outcome.Verdict.{Verdict as TheVerdict};
ghost use Rattle.state_ids.specs.declared.outcome.Verdict.TheVariants.{Close};
ghost use Rattle.state_facts.specs.Duties.{topmost_cancelled};
ghost use Rattle.state_facts.specs.Sets.{is_ended, is_root, is_under, want};
ghost use Rattle.script_world.specs.Headline.{IsNode};
ghost use Rattle.script_world.specs.Worlds.{IsWorld, State, set_of};
ghost use Rattle.theory_progress.specs.Calls.{open_under, saga_of};
ghost use Rattle.theory_progress.specs.CallRounds.{GoInRounds, IsCallRound, compensations_left};
ghost use Rattle.theory_progress.specs.Ends.{last_state};

/// A decided tree ends in as many rounds as it has participants to compensate, or in one round if
/// it has none. Participants that complete all do so in the first round, and compensations go one
/// after another at worst. Only those that are open at the start count.
pub fn a_decided_tree_ends_in_so_many_rounds()
    ensures ends { (s : State) (ts : List State)
        (node : ℕ) (root : Id) (verdict : TheVerdict) → IsWorld s → IsNode s node →
        is_root (set_of s node) root ≡ true → want (set_of s node) root ≡ Some verdict →
        GoInRounds node root s ts → 1 ≤ length ts →
        compensations_left (set_of s node) root ≤ length ts →
        is_ended (set_of (last_state s ts) node) root ≡ true }
    ensures falls { (s t : State) (node : ℕ) (root : Id) (verdict : TheVerdict) →
        IsWorld s → IsNode s node → is_root (set_of s node) root ≡ true →
        want (set_of s node) root ≡ Some verdict → IsCallRound node root s t →
        open_under (set_of t node) root ≤ compensations_left (set_of s node) root - 1 }
    ensures few { (s : State) (node : ℕ) (l : Id) →
        compensations_left (set_of s node) l ≤ open_under (set_of s node) l }
{}

/// The same holds for each LRA that waits only for participants under itself, and still does at the
/// end, that is, no LRA above it was cancelled meanwhile. An LRA that is to close is of this kind,
/// as long as it is to close.
pub fn a_saga_ends_in_so_many_rounds()
    ensures alone { (s : State) (ts : List State)
        (node : ℕ) (l : Id) (verdict : TheVerdict) → IsWorld s → IsNode s node →
        want (set_of s node) l ≡ Some verdict →
        want (set_of (last_state s ts) node) l ≡ Some verdict →
        saga_of (set_of (last_state s ts) node) l ≡ l → GoInRounds node l s ts → 1 ≤ length ts →
        compensations_left (set_of s node) l ≤ length ts →
        is_ended (set_of (last_state s ts) node) l ≡ true }
    ensures closing { (s : State) (ts : List State) (node : ℕ) (l : Id) → IsWorld s →
        IsNode s node → want (set_of s node) l ≡ Some Close →
        want (set_of (last_state s ts) node) l ≡ Some Close → GoInRounds node l s ts →
        1 ≤ length ts → compensations_left (set_of s node) l ≤ length ts →
        is_ended (set_of (last_state s ts) node) l ≡ true }
{}

/// Sagas proceed side by side: a decided tree ends in as many rounds as its longest saga has
/// participants to compensate. A saga is everything under an LRA that is the topmost cancelled one
/// of its chain. If there is no saga, one round is enough.
pub fn a_decided_tree_ends_with_its_longest_saga()
    ensures { (s : State) (ts : List State)
        (node : ℕ) (root : Id) (verdict : TheVerdict) → IsWorld s → IsNode s node →
        is_root (set_of s node) root ≡ true → want (set_of s node) root ≡ Some verdict →
        GoInRounds node root s ts → 1 ≤ length ts →
        ((top : Id) → is_under (set_of s node) root top ≡ true →
        topmost_cancelled (set_of s node) top ≡ Some top →
        compensations_left (set_of s node) top ≤ length ts) →
        is_ended (set_of (last_state s ts) node) root ≡ true }
{}
