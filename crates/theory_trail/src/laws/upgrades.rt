//! Laws of upgrades: a journal of version 1 is rewritten when it is opened.
ghost use Rattle.std.specs.Prelude.{◌≡◌, ◌∷◌, ℕ, List, [], replicate};
ghost use Rattle.sqlite.specs.Held.{Held, state};
ghost use Rattle.sqlite.specs.State.{HasCleanDisk, Survives};
ghost use Rattle.sqlite.specs.Tree.{Trees};
ghost use Rattle.theory_history.specs.Views.{View};
ghost use Rattle.state_journal.specs.NewStores.{MayLeaveOpened};
ghost use Rattle.state_journal.specs.Tables.{IsJournal};
ghost use Rattle.theory_trail.specs.Upgrades.{AreStopped, IsFoundIn, StoppedOpening, stopped_at_once, stopped_when_done};

use sqlite::Alter;
use state_journal::laws::rows_stand_for_one_view;

/// An upgrade may be killed. Suppose that a journal of either version is opened and the program
/// stops at any moment of that, any number of times. Then its rows still stand for the same view as
/// before, in version 1 or 2, and the next opening finds that view and no other. The clauses
/// `crash` and `crash_refused` of `state_journal::Journal::open` say what an opening left, and
/// `reads` says what is found. It is the kit's word that a stop within an opening leaves no more,
/// and that the store which is opened then is a journal with the rows that were left. For each
/// journal with a clean disk such openings are any number that do nothing (`before`), and one that
/// is done, as those clauses leave it (`after`).
pub fn an_upgrade_may_be_killed<S: Alter>()
    ensures stands { (me nodes : ℕ) (before after : Trees)
        (openings : List (StoppedOpening S)) (view : View) →
        AreStopped S.Store me nodes before openings after →
        IsFoundIn me before view → IsFoundIn me after view }
    ensures found { (me nodes : ℕ) (before after : Trees)
        (openings : List (StoppedOpening S)) (view found : View) →
        AreStopped S.Store me nodes before openings after →
        IsFoundIn me before view → IsFoundIn me after found → found ≡ view }
    ensures before { (me nodes stops : ℕ) (held : Held S) →
        IsJournal (state S.Store held) → HasCleanDisk (state S.Store held) →
        AreStopped S.Store me nodes (state S.Store held).now.trees
        (replicate stops (stopped_at_once S.Store held)) (state S.Store held).now.trees }
    ensures after { (me nodes : ℕ) (taken left : Held S) → IsJournal (state S.Store taken) →
        Survives (state S.Store taken) (state S.Store left)
        (MayLeaveOpened (state S.Store taken) me nodes) →
        IsJournal (state S.Store left) → HasCleanDisk (state S.Store left) →
        AreStopped S.Store me nodes (state S.Store taken).now.trees
        (stopped_when_done S.Store taken left ∷ []) (state S.Store left).now.trees }
{
    rows_stand_for_one_view();
}
