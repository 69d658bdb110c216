//! Laws of servers that are killed: calls are lost, and starts find what was stored.
ghost use Rattle.std.specs.Prelude.{◌≡◌, ◌≤◌, ◌⊎◌, ℕ, List, [], ◌∷◌, ◌++◌, IsTrue, false, length, true};
ghost use Rattle.sqlite.specs.Held.{Held, state};
ghost use Rattle.sqlite.specs.State.{HasCleanDisk, Survives};
ghost use Rattle.sqlite.specs.Tree.{Trees};
ghost use Rattle.state_ids.specs.declared.TheConstants.{MAX_NODES};
ghost use Rattle.state_ids.specs.Fronts.{IsBelow};
ghost use Rattle.state_ids.specs.Ids.{Id};
ghost use Rattle.state_ids.specs.declared.outcome.Act.TheVariants.{Compensate};
ghost use Rattle.state_facts.specs.declared.command.Command.{Command};
ghost use Rattle.state_facts.specs.declared.fact.Fact.{Fact};
ghost use Rattle.state_facts.specs.Lists.{In};
ghost use Rattle.state_facts.specs.Sets.{is_held};
ghost use Rattle.theory_history.specs.Growth.{IsSettled};
ghost use Rattle.theory_history.specs.Histories.{History, IsClosed, IsLawful, facts};
ghost use Rattle.theory_history.specs.Replies.{body_for};
ghost use Rattle.theory_history.specs.Views.{View};
ghost use Rattle.wire_callbacks.specs.declared.duty.Duty.{Duty};
ghost use Rattle.wire_callbacks.specs.CallDuties.{IsDuty};
ghost use Rattle.wire_callbacks.specs.ViewDuties.{duties_of};
ghost use Rattle.script_world.specs.declared.event.Event.{Event};
ghost use Rattle.script_world.specs.declared.event.EventReply.{EventReply};
ghost use Rattle.script_world.specs.Headline.{IsNode};
ghost use Rattle.script_world.specs.Worlds.{IsWorld, Runs, State, set_of};
ghost use Rattle.theory_progress.specs.Calls.{IsActUnder, asks_to_act};
ghost use Rattle.theory_progress.specs.SagaOrder.{HasCompensated, IsBehind};
ghost use Rattle.state_journal.specs.Keeping.{IsOwn};
ghost use Rattle.state_journal.specs.Ruled.{AreTyped, KeepsRules};
ghost use Rattle.state_book.specs.Books.{AreRuled, BookState, IsBook, IsStartedBehind, MayCommit};
ghost use Rattle.state_book.specs.declared.calls.Call.{Call as TheCall};
ghost use Rattle.state_book.specs.declared.calls.Call.TheVariants.{Command as Enter};
ghost use Rattle.state_book.specs.declared.calls.Entry.{Entry};
ghost use Rattle.state_book.specs.declared.calls.Reply.{Reply as BookReply};
ghost use Rattle.state_book.specs.Next.{IsNext};
ghost use Rattle.theory_trail.specs.Answered.{IsHeld};
ghost use Rattle.theory_trail.specs.Crashes.{AreTrailsWithCrashes, CanBeHeard, CanBeLost, GoesOn, Happening, Heard, Keeps, Lost, LostCall, lost_call, with_view};
ghost use Rattle.theory_trail.specs.LastingCalls.{HasToCompensate, IsDone, IsEnded, IsEndedOrWaits, IsKept, IsNotLost, IsOvertaken, IsStillDue, IsToCompensate, ends_call};
ghost use Rattle.theory_trail.specs.NodeTrails.{Arrival, Here, IsPlayed, IsServed, WasSent};
ghost use Rattle.theory_trail.specs.Servers.{AnswersConverge, AreOneRun, AreServed, AreTrails, Turn};

use crate::laws::what_a_node_holds_keeps_the_rules;
use sqlite::Alter;
use state_book::laws::a_start_finds_the_records_before_or_after;
use theory_history::laws::rising::what_is_at_its_end_stays_there;
use theory_progress::laws::order::a_saga_goes_backwards;
use theory_progress::laws::{a_tree_goes_on_until_it_is_purged, nothing_is_stuck};

/// Servers that are killed behave like servers that are not. Each node of the world is a server,
/// which may stop in any call. The answer of that call is lost, and the next start finds the view
/// before the call or after it. Then everything that happened is one run without a stop. That run
/// has each answered turn, in order, and each lost call either is in it with some reply or isn't.
/// So the headline holds of what the servers answer.
///
/// The definition isn't empty. It holds when nothing happened, and it goes on with each turn and
/// each lost call that can come next, since the world goes on from each lost call.
pub fn servers_with_crashes_are_one_world()
    ensures trails { (s t : State) (views ends : ℕ → View) (happened : List Happening) →
        AreTrailsWithCrashes s views happened t ends →
        (turns : List Turn) × Keeps happened turns × AreTrails s views turns t ends }
    ensures run { (s t : State) (views ends : ℕ → View) (happened : List Happening) →
        AreTrailsWithCrashes s views happened t ends →
        (turns : List Turn) × Keeps happened turns × AreOneRun s turns t ends }
    ensures answers { (s t : State) (views ends : ℕ → View) (happened : List Happening) →
        AreTrailsWithCrashes s views happened t ends → AnswersConverge s views t ends }
    ensures goes_on { (s : State) (a : View) (lost : LostCall) →
        IsServed lost.node s a → CanBeLost s a lost → (t : State) × GoesOn s a lost t }
    ensures begins { (s : State) (views : ℕ → View) →
        IsWorld s → AreServed s views → AreTrailsWithCrashes s views [] s views }
    ensures turn { (s t : State) (views ends : ℕ → View)
        (happened : List Happening) (turn : Turn) (b : View) →
        AreTrailsWithCrashes s views happened t ends → CanBeHeard t (ends turn.node) turn b →
        (u : State) × AreTrailsWithCrashes s views
        (happened ++ Heard turn ∷ []) u (with_view ends turn.node b) }
    ensures crash { (s t : State) (views ends : ℕ → View)
        (happened : List Happening) (lost : LostCall) →
        AreTrailsWithCrashes s views happened t ends → CanBeLost t (ends lost.node) lost →
        (u : State) × AreTrailsWithCrashes s views
        (happened ++ Lost lost ∷ []) u (with_view ends lost.node lost.found) }
{}

/// A stop in a call is a lost call. The node's book kept the view of what the node holds, and it
/// was stopped in a call, or its journal failed there. By the clauses of the journal and of the
/// book, a start then finds rows that a stop may leave. They stand for what the next start of a
/// lost call finds. Two premises remain: that a frame of the call was sent, and that the views keep
/// the rules of rows. They keep them if the node's records, and those after the call, have the
/// types of records. Each open book over a clean disk is such a case: the call may be stopped
/// before it stores anything (`before`), or after it is done (`after`), as the clauses `crash`,
/// `rows` and `first` of `state_book::Book::call` leave it.
pub fn a_stop_in_a_call_is_a_lost_call<S: Alter>()
    ensures lost { (s : State) (old : BookState S) (asked : TheCall)
        (now : ℕ) (frame : Arrival) (left : Held S) (db : Trees) (found : View) →
        IsServed old.me s old.records → IsBook S.Store old → AreRuled old asked now →
        IsStartedBehind S.Store old asked now left db found →
        ((reply : BookReply) →
        IsNext old.me old.records asked now reply found → WasSent s frame asked reply) →
        CanBeLost s old.records (lost_call old.me asked now frame found) }
    ensures ruled { (s : State) (old : BookState S) (asked : TheCall) (now : ℕ) (frame : Arrival) →
        IsServed old.me s old.records → length old.records.front ≤ MAX_NODES →
        AreTyped old.records →
        ((reply : BookReply) (b : View) → IsNext old.me old.records asked now reply b →
        WasSent s frame asked reply × (length b.front ≤ MAX_NODES) × AreTyped b) →
        AreRuled old asked now }
    ensures before { (old : BookState S) (asked : TheCall) (now : ℕ) →
        IsBook S.Store old → AreRuled old asked now → IsOwn (state S.Store old.journal.opened) →
        IsTrue (state S.Store old.journal.connection).is_open →
        HasCleanDisk (state S.Store old.journal.connection) →
        IsStartedBehind S.Store old asked now old.journal.connection
        (state S.Store old.journal.connection).now.trees old.records }
    ensures after { (old new : BookState S) (asked : TheCall) (now : ℕ) →
        Survives (state S.Store old.journal.connection) (state S.Store new.journal.connection)
        (MayCommit S.Store old asked now) →
        IsBook S.Store new → new.me ≡ old.me → new.journal.opened ≡ old.journal.opened →
        KeepsRules new.records → IsOwn (state S.Store old.journal.opened) →
        IsTrue (state S.Store old.journal.connection).is_open →
        IsTrue (state S.Store new.journal.connection).is_open →
        HasCleanDisk (state S.Store new.journal.connection) →
        IsStartedBehind S.Store old asked now new.journal.connection
        (state S.Store new.journal.connection).now.trees new.records }
{
    a_start_finds_the_records_before_or_after::<S>();
    what_a_node_holds_keeps_the_rules();
}

/// A turn that can come makes a trail, of its node alone or of all servers. So what is said of
/// trails is not empty.
pub fn a_turn_that_can_come_is_a_trail()
    ensures played { (me : ℕ) (s : State) (a b : View) (entry : Entry) (frame : Arrival) →
        IsServed me s a → IsNext me a entry.call entry.moment entry.reply b →
        WasSent s frame entry.call entry.reply →
        (t : State) × IsPlayed me s a (Here entry frame ∷ []) t b }
    ensures trails { (s : State) (views : ℕ → View) (turn : Turn) (b : View) →
        AreServed s views → CanBeHeard s (views turn.node) turn b →
        (t : State) × AreTrails s views (turn ∷ []) t (with_view views turn.node b) }
{}

/// No crash loses a compensation. Suppose that a participant has to compensate at its LRA's home,
/// now or when its turn comes. Then, whatever servers do and however often they are killed, either
/// its end was heard, or it still has to compensate and a participant of its saga is on the home's
/// list of calls. A home doesn't purge the tree before.
///
/// The same holds for a participant that was on the list itself when its home is killed in one
/// call. By what the next start finds, it is still on the list, or its end was heard, or it waits
/// in its saga, which a cancel above made greater.
pub fn no_crash_loses_a_compensation()
    ensures each { (s t : State) (views ends : ℕ → View)
        (happened : List Happening) (node : ℕ) (l : Id) (m : ℕ) →
        AreTrailsWithCrashes s views happened t ends → IsNode s node →
        l.home ≡ node → HasToCompensate (set_of s node) l m →
        IsEndedOrWaits node (set_of t node) (ends node) l m }
    ensures lost { (s t : State) (a : View) (lost : LostCall) (call : Duty) →
        IsServed lost.node s a → GoesOn s a lost t →
        In call (duties_of a lost.node) → IsToCompensate call →
        IsNotLost lost.node (set_of t lost.node) lost.found call }
    ensures servers { (s t : State) (views ends : ℕ → View)
        (happened : List Happening) (node : ℕ) (call : Duty) →
        AreTrailsWithCrashes s views happened t ends → IsNode s node →
        In call (duties_of (views node) node) → IsToCompensate call →
        IsNotLost node (set_of t node) (ends node) call }
{
    nothing_is_stuck();
    what_is_at_its_end_stays_there();
}

/// No crash calls a saga out of order. Suppose that a home's list has a participant that is to
/// compensate. Then, whatever servers do and however often they are killed, each participant behind
/// it has ended at the home, until its tree is purged (`ended`), and no later list of the home asks
/// it for anything (`listed`).
pub fn no_crash_calls_out_of_order()
    ensures ended { (s t : State) (views ends : ℕ → View)
        (happened : List Happening) (node : ℕ) (call : Duty) (d : Id) (n : ℕ) →
        AreTrailsWithCrashes s views happened t ends → IsNode s node →
        In call (duties_of (views node) node) → IsToCompensate call →
        IsBehind (set_of s node) call.id call.member d n → HasCompensated (set_of t node) d n }
    ensures listed { (s t : State) (views ends : ℕ → View)
        (happened : List Happening) (node : ℕ) (call next : Duty) →
        AreTrailsWithCrashes s views happened t ends → IsNode s node →
        In call (duties_of (views node) node) → IsToCompensate call →
        IsBehind (set_of s node) call.id call.member next.id next.member →
        In next (duties_of (ends node) node) → asks_to_act next.kind ≡ true → ⊥ }
{
    a_saga_goes_backwards();
}

/// No call is lost. A call that was due is still due, or it was answered, or its LRA was purged, or
/// a cancel overtook it: an LRA was cancelled above all those that had been. After such a cancel, a
/// completion isn't called. A compensation must still be made: it waits in the greater saga, of
/// which a participant is to be called now. This holds for two closed sets of one history, one
/// inside the other; at each node of the world, whatever happens; for servers that are killed; and
/// for one lost call.
pub fn no_call_is_lost()
    ensures sets { (h : History) (v w : List ℕ) (home : ℕ) (call : Duty) →
        IsLawful h → IsClosed h v → IsClosed h w → IsBelow v w →
        IsDuty home (facts h v) call → IsKept home (facts h v) (facts h w) call }
    ensures world { (s t : State) (events : List Event) (replies : List EventReply)
        (node : ℕ) (call : Duty) → IsWorld s → Runs s events replies t → IsNode s node →
        IsDuty node (set_of s node) call → IsKept node (set_of s node) (set_of t node) call }
    ensures servers { (s t : State) (views ends : ℕ → View)
        (happened : List Happening) (node : ℕ) (call : Duty) →
        AreTrailsWithCrashes s views happened t ends → IsNode s node →
        In call (duties_of (views node) node) → IsKept node (set_of s node) (set_of t node) call }
    ensures lost { (s t : State) (a : View) (lost : LostCall) (call : Duty) →
        IsServed lost.node s a → GoesOn s a lost t → In call (duties_of a lost.node) →
        IsKept lost.node (set_of s lost.node) (set_of t lost.node) call }
    ensures waits { (S T : List Fact) (call : Duty) → IsSettled T → (o : IsOvertaken S T call) →
        call.act ≡ Compensate → (next : Duty) × IsActUnder T o.top next }
{
    nothing_is_stuck();
    what_is_at_its_end_stays_there();
}

/// Only its answer, a cancel or a purge ends a call. A call that was due is still due, unless a
/// fact that ends it was entered since then: its answer, a purge of an LRA of its chain, or, if it
/// asks to act, a cancel of one. This holds for two closed sets, and for servers that are killed. A
/// lost command ends a call only by its own fact: each other call is still due.
pub fn only_an_answer_a_cancel_or_a_purge_ends_a_call()
    ensures sets { (h : History) (v w : List ℕ) (home : ℕ) (call : Duty) →
        IsLawful h → IsClosed h v → IsClosed h w → IsBelow v w → IsDuty home (facts h v) call →
        IsStillDue home (facts h w) call ⊎ IsEnded (facts h v) (facts h w) call }
    ensures servers { (s t : State) (views ends : ℕ → View)
        (happened : List Happening) (node : ℕ) (call : Duty) →
        AreTrailsWithCrashes s views happened t ends → IsNode s node →
        In call (duties_of (views node) node) →
        IsStillDue node (set_of t node) call ⊎ IsEnded (set_of s node) (set_of t node) call }
    ensures lost { (s t : State) (a : View) (lost : LostCall) (c : Command) (call : Duty) →
        IsServed lost.node s a → GoesOn s a lost t →
        lost.asked ≡ Enter c → In call (duties_of a lost.node) →
        IsStillDue lost.node (set_of t lost.node) call
        ⊎ (ends_call (set_of t lost.node) call (body_for (set_of s lost.node) c) ≡ true) }
{
    what_is_at_its_end_stays_there();
}

/// A purge loses no call. If a call was on a home's list, and the participant's LRA was purged at
/// its home since then, the call was answered before the purge, or it asked to complete and the LRA
/// was cancelled before.
pub fn a_purge_loses_no_call()
    ensures { (s t : State) (views ends : ℕ → View)
        (happened : List Happening) (node : ℕ) (call : Duty) →
        AreTrailsWithCrashes s views happened t ends → IsNode s node →
        In call (duties_of (views node) node) →
        is_held (set_of t node) call.id ≡ false → IsDone (set_of t node) call }
{
    a_tree_goes_on_until_it_is_purged();
    what_is_at_its_end_stays_there();
}

/// What was answered is held for good. Servers do anything before and after an answer, and are killed at
/// any moment and any number of times. The node answered by what it held, and it holds all that it held
/// after the answer for good.
pub fn what_was_answered_is_held()
    ensures { (s t : State) (views ends : ℕ → View) (before after : List Happening) (turn : Turn) →
        AreTrailsWithCrashes s views (before ++ Heard turn ∷ after) t ends → IsHeld turn t }
{}
