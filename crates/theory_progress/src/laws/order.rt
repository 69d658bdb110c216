//! Laws of saga order over time.
ghost use Rattle.std.specs.Prelude.{◌≡◌, ◌<◌, ℕ, List, Some, true};
ghost use Rattle.state_ids.specs.Fronts.{IsBelow};
ghost use Rattle.state_ids.specs.Ids.{Id};
ghost use Rattle.state_ids.specs.declared.outcome.Act.{Act as TheAct};
ghost use Rattle.state_ids.specs.declared.outcome.Act.TheVariants.{Compensate};
ghost use Rattle.state_facts.specs.declared.fact.Fact.{Fact};
ghost use Rattle.state_facts.specs.Duties.{is_compensation_due};
ghost use Rattle.state_facts.specs.Sets.{is_participant};
ghost use Rattle.theory_history.specs.Histories.{History, IsClosed, IsLawful, facts};
ghost use Rattle.script_world.specs.declared.event.Event.{Event};
ghost use Rattle.script_world.specs.declared.event.EventReply.{EventReply};
ghost use Rattle.script_world.specs.Headline.{IsNode};
ghost use Rattle.script_world.specs.Worlds.{IsWorld, Runs, State, set_of};
ghost use Rattle.theory_progress.specs.Asked.{IsAskedFor};
ghost use Rattle.theory_progress.specs.SagaOrder.{HasCompensated, IsBehind};

/// A saga is compensated backwards. Once a participant is due to compensate, each participant
/// behind it has ended, then and for good: it is Compensated or FailedToCompensate, until its tree
/// is purged (`ended`, `shown`). So by the same node's set it isn't to be asked for anything any
/// more (`asked`). In one LRA, whoever joined later comes behind (`later`). There is such a
/// participant in a nested LRA (`met`).
pub fn a_saga_goes_backwards()
    ensures ended { (h : History) (v w : List ℕ) (l d : Id) (m n : ℕ) →
        IsLawful h → IsClosed h v → IsClosed h w → IsBelow v w →
        is_compensation_due (facts h v) l m ≡ true → IsBehind (facts h v) l m d n →
        HasCompensated (facts h w) d n }
    ensures shown { (s t : State) (events : List Event) (replies : List EventReply)
        (node : ℕ) (l d : Id) (m n : ℕ) → IsWorld s → Runs s events replies t → IsNode s node →
        IsAskedFor s node l m Compensate → IsBehind (set_of s node) l m d n →
        HasCompensated (set_of t node) d n }
    ensures asked { (s t : State) (events : List Event) (replies : List EventReply)
        (node : ℕ) (l d : Id) (m n : ℕ) (act : TheAct) → IsWorld s → Runs s events replies t →
        IsNode s node → IsAskedFor s node l m Compensate → IsBehind (set_of s node) l m d n →
        IsAskedFor t node d n act → ⊥ }
    ensures later { (S : List Fact) (l : Id) (m n : ℕ) →
        is_participant S l n ≡ true → m < n → IsBehind S l m l n }
    ensures met { (s : State) × (l : Id) × (d : Id) × IsWorld s × IsNode s 1
        × IsAskedFor s 1 l 1 Compensate × IsBehind (set_of s 1) l 1 d 1 }
{}
