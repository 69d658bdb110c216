//! Laws of what a participant is asked. The author of a service may rely on them. By the clause
//! `listed`, a call is due exactly when the home lists it.
ghost use Rattle.std.specs.Prelude.{◌≡◌, ◌↔◌, ℕ, List, false, true};
ghost use Rattle.state_ids.specs.Ids.{Id};
ghost use Rattle.state_ids.specs.declared.outcome.Act.{Act as TheAct};
ghost use Rattle.state_ids.specs.declared.outcome.Act.TheVariants.{Compensate, Complete};
ghost use Rattle.state_facts.specs.Duties.{is_pending};
ghost use Rattle.state_facts.specs.Lists.{In};
ghost use Rattle.state_facts.specs.Sets.{heard, is_root};
ghost use Rattle.theory_history.specs.Views.{View};
ghost use Rattle.wire_callbacks.specs.declared.answer.Kind.TheVariants.{After, Forget};
ghost use Rattle.wire_callbacks.specs.declared.duty.Duty.{Duty};
ghost use Rattle.wire_callbacks.specs.CallDuties.{IsDuty};
ghost use Rattle.wire_callbacks.specs.ViewDuties.{duties_of};
ghost use Rattle.script_world.specs.declared.event.Event.{Event};
ghost use Rattle.script_world.specs.declared.event.EventReply.{EventReply};
ghost use Rattle.script_world.specs.Headline.{IsAncestorCancelled, IsNode};
ghost use Rattle.script_world.specs.Worlds.{IsViewOf, IsWorld, Runs, State, front_of, set_of};
ghost use Rattle.theory_progress.specs.Asked.{IsAskedFor, IsCalledTo};

/// What a participant is asked only moves forward, whatever happens. Only the home of an LRA makes
/// calls, but this holds of the calls that are due by the set of any node, as if it were the home.
/// Once the participant was due to be asked to compensate, it isn't to be asked to complete, by the
/// same node's set (`compensated`), nor ever by its home (`home`). Once a node heard the end of an
/// act, that act isn't to be asked for again. Once the participant was due to be called to forget,
/// or to hear of the end, it is to be asked for no act any more.
pub fn what_is_asked_goes_one_way()
    ensures compensated { (s t : State) (events : List Event) (replies : List EventReply)
        (node : ℕ) (l : Id) (m : ℕ) → IsWorld s → Runs s events replies t → IsNode s node →
        IsAskedFor s node l m Compensate → IsAskedFor t node l m Complete → ⊥ }
    ensures home { (s t : State) (events : List Event) (replies : List EventReply)
        (node : ℕ) (l : Id) (m : ℕ) → IsWorld s → Runs s events replies t → IsNode s node →
        IsNode t l.home → IsAskedFor s node l m Compensate → IsAskedFor t l.home l m Complete → ⊥ }
    ensures ended { (s t : State) (events : List Event) (replies : List EventReply)
        (node : ℕ) (l : Id) (m : ℕ) (act : TheAct) → IsWorld s → Runs s events replies t →
        IsNode s node → is_pending (heard (set_of s node) l m act) ≡ false →
        IsAskedFor t node l m act → ⊥ }
    ensures forgets { (s t : State) (events : List Event) (replies : List EventReply)
        (node : ℕ) (l : Id) (m : ℕ) (act : TheAct) → IsWorld s → Runs s events replies t →
        IsNode s node → IsCalledTo s node l m Forget → IsAskedFor t node l m act → ⊥ }
    ensures hears { (s t : State) (events : List Event) (replies : List EventReply)
        (node : ℕ) (l : Id) (m : ℕ) (act : TheAct) → IsWorld s → Runs s events replies t →
        IsNode s node → IsCalledTo s node l m After → IsAskedFor t node l m act → ⊥ }
{}

/// A participant is asked for both acts only if an LRA above its own was cancelled. This holds of
/// what is due by the sets of any two nodes at any two moments. By the clauses `compensated` and
/// `home` it is asked to complete first. So a participant of a root is asked for only one of the
/// two.
pub fn both_acts_are_asked_only_so()
    ensures above { (s t : State) (events : List Event) (replies : List EventReply)
        (one other : ℕ) (l : Id) (m : ℕ) (act next : TheAct) → IsWorld s →
        Runs s events replies t → IsNode s one → IsNode t other → IsAskedFor s one l m act →
        IsAskedFor t other l m next → (act ≡ next → ⊥) → IsAncestorCancelled t l }
    ensures root { (s t : State) (events : List Event) (replies : List EventReply)
        (one other : ℕ) (l : Id) (m : ℕ) (act next : TheAct) → IsWorld s →
        Runs s events replies t → IsNode s one → IsNode t other →
        is_root (set_of s one) l ≡ true → IsAskedFor s one l m act →
        IsAskedFor t other l m next → (act ≡ next → ⊥) → ⊥ }
{}

/// A call is due at a node exactly when it is on the list that the node makes from its view. It is
/// a call to a participant of an LRA whose home is that node.
pub fn a_call_is_listed_where_it_is_due()
    ensures listed { (s : State) (node : ℕ) (view : View) (call : Duty) →
        IsWorld s → IsNode s node → IsViewOf s.history (front_of s node) view →
        In call (duties_of view node) ↔ IsDuty node (set_of s node) call }
    ensures home { (s : State) (node : ℕ) (call : Duty) →
        IsDuty node (set_of s node) call → call.id.home ≡ node }
{}
