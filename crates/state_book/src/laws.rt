//! Laws of trails. Each function does nothing, and its contract is the law.
ghost use Rattle.std.specs.Prelude.{◌≡◌, ◌≤◌, ◌↔◌, ℕ, IsTrue, List, None, false, length};
ghost use Rattle.state_ids.specs.Ids.{Id};
ghost use Rattle.state_facts.specs.declared.fact.Fact.{Fact};
ghost use Rattle.state_facts.specs.Sets.{is_under, shows_now};
ghost use Rattle.state_forest.specs.Standing.{IsWhole};
ghost use Rattle.state_forest.specs.Trees.{tree_shows};
ghost use Rattle.theory_history.specs.Growth.{IsSettled};
ghost use Rattle.theory_history.specs.Histories.{History};
ghost use Rattle.theory_history.specs.Views.{StandsFor, View};
ghost use Rattle.wire_frames.specs.Frames.{Frame};
ghost use Rattle.state_book.specs.declared.calls.Call.{Call as TheCall};
ghost use Rattle.state_book.specs.declared.calls.Call.TheVariants.{Take};
ghost use Rattle.state_book.specs.declared.calls.Reply.{Reply as TheReply};
ghost use Rattle.state_book.specs.declared.calls.Entry.{Entry};
ghost use Rattle.state_book.specs.declared.calls.Receipt.{Receipt};
ghost use Rattle.sqlite.specs.Held.{Held};
ghost use Rattle.sqlite.specs.Tree.{Trees};
ghost use Rattle.state_book.specs.Books.{AreRuled, BookState, IsBook, IsStartedBehind};
ghost use Rattle.state_book.specs.Desks.{IsEachOnce, strange_of};
ghost use Rattle.state_book.specs.Next.{IsFoundBehind, IsNext};
ghost use Rattle.state_book.specs.Sameness.{same_call, same_reply};
ghost use Rattle.state_book.specs.OfSets.{IsFrom, IsReplyOf, IsUnionOrGap};
ghost use Rattle.state_book.specs.Trees.{ended_well, failed};

use sqlite::Alter;

/// If a node's view stands for a settled set of facts, its next reply to a call is that of the
/// definitions, and its next view stands for what it holds then.
pub fn a_reply_is_that_of_the_set()
    ensures { (S : List Fact) (me now : ℕ) (a b : View) (call : TheCall) (reply : TheReply) →
        IsSettled S → StandsFor S a → 1 ≤ me → me ≤ length a.front →
        IsNext me a call now reply b → IsReplyOf S a.front me call now reply b }
{}

/// In a tree that shows Closed or Cancelled, no LRA shows a failure. So what a sweep purges as
/// ended well contains nothing that failed.
pub fn a_tree_that_shows_no_failure_has_none()
    ensures { (S : List Fact) (root l : Id) → IsWhole S → IsTrue (ended_well (tree_shows S root)) →
        IsTrue (is_under S root l) → failed (shows_now S l) ≡ false }
{}

/// If a frame comes from the same history and the node counts its base, it is taken, and the view
/// is then that of the union. Otherwise the reply is a gap, and nothing changes.
pub fn a_frame_is_taken_or_a_gap_is_told()
    ensures { (h : History) (v w : List ℕ)
        (me now : ℕ) (a b : View) (frame : Frame) (reply : TheReply) → IsFrom h v w a frame →
        IsNext me a (Take frame) now reply b → IsUnionOrGap h v w a frame reply b }
{}

/// A view has only one next view for a call at a moment.
pub fn a_call_has_one_next_view()
    ensures { (me now : ℕ) (a b c : View) (call : TheCall) (one other : TheReply) →
        IsNext me a call now one b → IsNext me a call now other c → b ≡ c }
{}

/// A view has only one reply to a call at a moment.
pub fn a_call_has_one_reply()
    ensures { (me now : ℕ) (a b c : View) (call : TheCall) (one other : TheReply) →
        IsNext me a call now one b → IsNext me a call now other c → one ≡ other }
{}

/// A close finds nothing strange if and only if the receipts are the trail: each entry is named by
/// exactly one receipt, and each receipt names an entry.
pub fn nothing_is_strange_where_each_is_there_once()
    ensures { (trail : List Entry) (receipts : List Receipt) →
        (strange_of trail receipts ≡ None) ↔ IsEachOnce trail receipts }
{}

/// The comparison of two calls holds if and only if they are equal. The same is true of replies.
pub fn calls_and_replies_are_compared_whole()
    ensures calls { (a b : TheCall) → IsTrue (same_call a b) ↔ (a ≡ b) }
    ensures replies { (a b : TheReply) → IsTrue (same_reply a b) ↔ (a ≡ b) }
{}

/// After a call has returned, whatever it answered, a start that finds rows which a stop may leave
/// then finds the records before the call, or the next ones. The call's clause `crash` says what
/// the call left, and the opening's clauses `reads` and `ruled` say what is found. It is the kit's
/// word that a stop within the call leaves no more, and that the store which is opened then is a
/// journal.
pub fn a_start_finds_the_records_before_or_after<S: Alter>()
    ensures { (old : BookState S) (asked : TheCall) (now : ℕ) (left : Held S) (db : Trees) (found : View) →
        IsBook S.Store old → AreRuled old asked now →
        IsStartedBehind S.Store old asked now left db found →
        IsFoundBehind old.me old.records asked now found }
{}
