// Laws of histories and views. Each function does nothing, and its contract is the law.
pub mod merging;

ghost use Rattle.std.specs.Prelude.{◌≡◌, ◌≤◌, ◌+◌, ◌&&◌, ℕ, List, [], Some, true, length, replicate};
ghost use mathlib.Core.Bool.{not};
ghost use Rattle.state_ids.specs.Fronts.{count};
ghost use Rattle.state_ids.specs.Ids.{Id};
ghost use Rattle.state_facts.specs.declared.fact.Body.TheVariants.{Purge};
ghost use Rattle.state_facts.specs.declared.fact.Fact.{Fact};
ghost use Rattle.state_facts.specs.Sets.{is_held, is_root, is_under};
ghost use Rattle.state_facts.specs.declared.command.Command.{Command};
ghost use Rattle.theory_history.specs.Growth.{IsMore, IsSettled};
ghost use Rattle.theory_history.specs.Histories.{Entry, History, IsClosed, IsLawful, facts, with_entry};
ghost use Rattle.theory_history.specs.NodeViews.{IsCurrent, IsViewIn, entry_for};
ghost use Rattle.theory_history.specs.Next.{change_on, judge_on, next_view, reply_on};
ghost use Rattle.theory_history.specs.Changes.{AddsFact, Change, HoldsOnlyChanges, patched, raised};
ghost use Rattle.theory_history.specs.Views.{empty_view, IsCounted, StandsFor, View};
ghost use Rattle.theory_history.specs.Replies.{Accepted, after, reply_of};

pub mod rising;
pub mod shape;

/// The set that a closed front of a lawful history counts is settled, and the front counts exactly
/// its facts.
#[tactic(auto, using(crate::proofs::ClosedSets::closed_settled, crate::proofs::ClosedSets::closed_counted))]
pub fn closed_sets_are_settled()
    ensures settled { (h : History) (v : List ℕ) →
        IsLawful h → IsClosed h v → IsSettled (facts h v) }
    ensures counted { (h : History) (v : List ℕ) → IsClosed h v → IsCounted (facts h v) v }
{}

/// An entry of a node is one more fact of the set of that node's front. It adds nothing to the set
/// of any front that was closed before. Such a front stays closed, and the front of another node
/// stays current.
pub fn an_entry_is_one_more_fact()
    ensures fact { (h : History) (node : ℕ) (v : List ℕ) (e : Entry) → IsCurrent h node v →
        IsMore (record { origin = node; num = count v node + 1; body = e.body })
        (facts h v) (facts (with_entry h node e) (raised v node)) }
    ensures others { (h : History) (node : ℕ) (u v : List ℕ) (e : Entry) →
        IsCurrent h node v → IsClosed h u → facts (with_entry h node e) u ≡ facts h u }
    ensures closed { (h : History) (node : ℕ) (u v : List ℕ) (e : Entry) →
        IsCurrent h node v → IsClosed h u → IsClosed (with_entry h node e) u }
    ensures current { (h : History) (node other : ℕ) (u v : List ℕ) (e : Entry) →
        IsCurrent h node v →
        IsCurrent h other u → (other ≡ node → ⊥) → IsCurrent (with_entry h node e) other u }
{}

/// In the history without entries each node's view is the view of no facts.
pub fn no_entries_make_an_empty_view()
    ensures { (nodes node : ℕ) → 1 ≤ node → node ≤ nodes →
        IsViewIn (replicate nodes []) node (replicate nodes 0) (empty_view nodes) }
{}

/// A patch adds exactly its fact. If it is made for the view of a node in a lawful history, the
/// history with the command's entry is lawful too, and the patched view is that node's view there.
/// Its front is the node's front with one more fact of the node.
pub fn a_patch_adds_exactly_its_fact()
    ensures view { (h : History)
        (node : ℕ) (v : List ℕ) (view : View) (c : Command) (change : Change) →
        IsViewIn h node v view → view.front ≡ v → AddsFact (facts h v) view node c (Some change) →
        IsViewIn (with_entry h node (entry_for h v c)) node (raised v node) (patched change view) }
    ensures front { (h : History)
        (node : ℕ) (v : List ℕ) (view : View) (c : Command) (change : Change) → view.front ≡ v →
        AddsFact (facts h v) view node c (Some change) → change.front ≡ raised v node }
{}

/// The patch of a command holds only what changes, each once. No record that it puts is there
/// unchanged, and every record that it removes is there.
pub fn a_patch_holds_only_changes()
    ensures { (S : List Fact) (view : View) (me : ℕ) (c : Command) →
        1 ≤ me → me ≤ length view.front → IsSettled S → StandsFor S view →
        judge_on view me c ≡ Accepted → HoldsOnlyChanges view (change_on view me c) }
{}

/// A purge removes a tree. After one more fact, which purges a root, exactly those LRAs are held
/// that were held before and are not under that root.
pub fn a_purge_removes_a_tree()
    ensures { (f : Fact) (S T : List Fact) (root l : Id) →
        IsMore f S T → IsSettled S → f.body ≡ Purge root →
        is_root S root ≡ true → is_held T l ≡ (is_held S l && not (is_under S root l)) }
{}

/// A set of facts has only one view for a given number of nodes.
#[tactic(auto, using(crate::proofs::OneViewOfASet::one_view))]
pub fn a_set_has_one_view()
    ensures { (S : List Fact) (a b : View) →
        length a.front ≡ length b.front → StandsFor S a → StandsFor S b → a ≡ b }
{}

/// If a view stands for a settled set, its reply to a command is that of the set, and the next view
/// stands for the set after the command.
pub fn a_view_replies_as_its_set()
    ensures { (S : List Fact) (view : View) (me : ℕ) (c : Command) →
        1 ≤ me → me ≤ length view.front →
        IsSettled S → StandsFor S view → (reply_on view me c ≡ reply_of S view.front me c)
        × StandsFor (after S view.front me c) (next_view view me c) }
{}
