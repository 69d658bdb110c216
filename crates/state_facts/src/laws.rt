// Laws of facts, for every list of them: of chains of parents, cancels, outcomes and statuses. Each
// function does nothing, and its contract is the law.
ghost use Rattle.std.specs.Prelude.{◌≡◌, ◌++◌, ◌∷◌, [], ℕ, List, Some, true};
ghost use Rattle.std.specs.List.{AllByRecursion};
ghost use Rattle.std.specs.Option.{option_map_or};
ghost use Rattle.state_ids.specs.Ids.{Id};
ghost use Rattle.state_ids.specs.States.{greater};
ghost use Rattle.state_ids.specs.declared.outcome.Act.{Act};
ghost use Rattle.state_ids.specs.declared.outcome.Verdict.TheVariants.{Cancel};
ghost use Rattle.state_facts.specs.declared.fact.Fact.{Fact};
ghost use Rattle.state_facts.specs.Lists.{In};
ghost use Rattle.state_facts.specs.Laws.{AreJoinedOnce, AreNumberedOnce, Falls, IsSameSet};
ghost use Rattle.state_facts.specs.Sets.{NamesEarlier, chain, heard, is_decided, member_status, parent_of, status, want};

/// The chain of an LRA is the LRA itself, followed by the chain of its parent. Numbers decrease
/// along a chain, and all its LRAs have the same home.
#[tactic(auto, using(crate::proofs::Chains::chain_is, crate::proofs::MoreFacts::chain_falls))]
pub fn numbers_fall_along_a_chain()
    ensures chain { (S : List Fact) (l : Id) →
        AllByRecursion NamesEarlier S → chain S l ≡ l ∷ option_map_or (chain S) (parent_of S l) [] }
    ensures falls { (S : List Fact) (l : Id) → AllByRecursion NamesEarlier S → Falls (chain S l) }
{}

/// An LRA wants Cancel once any LRA of its chain is cancelled, whatever facts follow.
#[tactic(auto, using(crate::proofs::MoreFacts::cancel_stays))]
pub fn a_cancel_stays()
    ensures { (S later : List Fact) (a l : Id) →
        In a (chain S l) → is_decided S Cancel a ≡ true → want (S ++ later) l ≡ Some Cancel }
{}

/// The greatest outcome is heard, whatever the order of the reports.
#[tactic(auto, using(crate::proofs::MoreFacts::heard_append, crate::proofs::Orders::heard_same))]
pub fn the_greatest_outcome_is_heard()
    ensures greatest { (S T : List Fact) (l : Id) (m : ℕ) (act : Act) →
        heard (S ++ T) l m act ≡ greater (heard S l m act) (heard T l m act) }
    ensures any_order { (S T : List Fact) →
        IsSameSet S T → (l : Id) (m : ℕ) (act : Act) → heard S l m act ≡ heard T l m act }
{}

/// The order of the facts in the list doesn't affect any status.
#[tactic(auto, using(crate::proofs::Orders::status_same, crate::proofs::Orders::member_same))]
pub fn order_changes_no_status()
    ensures lras { (S T : List Fact) (l : Id) →
        AreNumberedOnce S → IsSameSet S T → status S l ≡ status T l }
    ensures members { (S T : List Fact) (l : Id) (m : ℕ) → AreNumberedOnce S →
        AreJoinedOnce S → IsSameSet S T → member_status S l m ≡ member_status T l m }
{}
