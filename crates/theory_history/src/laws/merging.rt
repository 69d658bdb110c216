// Laws of merges. Each view is that of a closed set of one lawful history. A view is part of
// another if its set is part of the other's.
ghost use Rattle.std.specs.Prelude.{◌≡◌, ◌≤◌, ◌&&◌, ℕ, List, false, length, true};
ghost use Rattle.state_ids.specs.Fronts.{is_covered, join_fronts};
ghost use Rattle.state_ids.specs.Ids.{Id};
ghost use Rattle.state_ids.specs.States.{greater};
ghost use Rattle.state_ids.specs.declared.outcome.Act.{Act as TheAct};
ghost use Rattle.state_facts.specs.declared.fact.Fact.{Fact};
ghost use Rattle.state_facts.specs.Lists.{In};
ghost use Rattle.state_facts.specs.Sets.{heard, is_held};
ghost use Rattle.state_forest.specs.Records.{is_about, stamp};
ghost use Rattle.theory_history.specs.Histories.{History, IsClosed, IsLawful, facts};
ghost use Rattle.theory_history.specs.NodeViews.{IsCurrent};
ghost use Rattle.theory_history.specs.Merging.{IsAbsorbed, IsClosedView, IsMerged, IsPartOf, Telling, TellsNews, merged};
ghost use Rattle.theory_history.specs.Views.{IsInOrder, StandsFor, View};

/// Two views have exactly one merge if they count the same nodes and their homes' records are in
/// order.
pub fn two_views_have_a_merge()
    ensures merge { (a b : View) →
        length a.front ≡ length b.front → IsInOrder a → IsInOrder b → IsMerged a b (merged a b) }
    ensures only { (a b c : View) → IsInOrder a → IsInOrder b → IsMerged a b c → c ≡ merged a b }
{}

/// Taking what is news of another view is the same as merging it.
#[tactic(auto, using(crate::proofs::TellingNews::merged_from, crate::proofs::TellingNews::absorbed_from))]
pub fn telling_news_is_merging()
    ensures merged { (a b c : View) (telling : Telling) →
        TellsNews a telling b → IsAbsorbed a telling c → IsMerged a b c }
    ensures absorbed { (a b c : View) (telling : Telling) →
        TellsNews a telling b → IsMerged a b c → IsAbsorbed a telling c }
{}

/// The merge of the views of two closed sets is the view of the sets' union, which is closed too.
/// If a node's front is merged with another, it stays the node's: it counts everything that the
/// node entered.
pub fn a_merge_is_the_union()
    ensures view { (h : History) (v w : List ℕ) (a b c : View) →
        IsLawful h → IsClosed h v → IsClosed h w → StandsFor (facts h v) a →
        StandsFor (facts h w) b → IsMerged a b c → StandsFor (facts h (join_fronts v w)) c }
    ensures closed { (h : History) (v w : List ℕ) →
        IsClosed h v → IsClosed h w → IsClosed h (join_fronts v w) }
    ensures current { (h : History) (node : ℕ) (v w : List ℕ) → IsCurrent h node v → IsClosed h w →
        IsCurrent h node (join_fronts v w) }
{}

/// Whether an LRA is held in the union of two closed sets. If both count its begin, it is held if
/// both hold it, so an LRA that one of them purged stays away. If only one counts its begin, it is
/// held if that one holds it.
pub fn an_lra_is_held_in_the_union()
    ensures both { (h : History) (v w : List ℕ) → IsLawful h →
        IsClosed h v → IsClosed h w → (l : Id) → is_covered v l ≡ true → is_covered w l ≡ true →
        is_held (facts h (join_fronts v w)) l ≡ (is_held (facts h v) l && is_held (facts h w) l) }
    ensures one { (h : History) (v w : List ℕ) →
        IsLawful h → IsClosed h v → IsClosed h w → (l : Id) → is_covered v l ≡ true →
        is_covered w l ≡ false → is_held (facts h (join_fronts v w)) l ≡ is_held (facts h v) l }
{}

/// Of two closed sets, the one with the greater home stamp of an LRA has everything that the home
/// entered about the LRA. So a merge may take the home's part from one record as a whole.
pub fn the_greater_home_stamp_has_the_homes_facts()
    ensures { (h : History) (v w : List ℕ) → IsLawful h → IsClosed h v → IsClosed h w →
        (l : Id) (f : Fact) → stamp (facts h w) l l.home ≤ stamp (facts h v) l l.home →
        In f (facts h w) → f.origin ≡ l.home → is_about l f ≡ true → In f (facts h v) }
{}

/// In the union of two closed sets, the greater outcome of each act is heard.
pub fn the_greater_outcome_is_heard_in_the_union()
    ensures { (h : History) (v w : List ℕ) (l : Id) (m : ℕ) (act : TheAct) →
        heard (facts h (join_fronts v w)) l m act
        ≡ greater (heard (facts h v) l m act) (heard (facts h w) l m act) }
{}

/// Merging a view with itself changes nothing.
pub fn merging_again_changes_nothing()
    ensures { (h : History) (v : List ℕ) (a c : View) →
        IsLawful h → IsClosedView h v a → IsMerged a a c → c ≡ a }
{}

/// Merging either of two views into the other gives the same.
pub fn merges_go_either_way()
    ensures { (h : History) (v w : List ℕ) (a b c d : View) → IsLawful h →
        IsClosedView h v a → IsClosedView h w b → IsMerged a b c → IsMerged b a d → c ≡ d }
{}

/// Merging three views gives the same, whichever two are merged first.
pub fn merges_go_in_any_order()
    ensures { (h : History) (u v w : List ℕ) (a b c ab bc left right : View) → IsLawful h →
        IsClosedView h u a → IsClosedView h v b → IsClosedView h w c → IsMerged a b ab →
        IsMerged ab c left → IsMerged b c bc → IsMerged a bc right → left ≡ right }
{}

/// Both views are part of their merge, and the merge is part of each view of which both are part.
pub fn a_merge_is_the_least_upper_bound()
    ensures first { (h : History) (v w : List ℕ) (a b c : View) →
        IsLawful h → IsClosedView h v a → IsClosedView h w b → IsMerged a b c → IsPartOf h a c }
    ensures second { (h : History) (v w : List ℕ) (a b c : View) →
        IsLawful h → IsClosedView h v a → IsClosedView h w b → IsMerged a b c → IsPartOf h b c }
    ensures least { (h : History) (a b c d : View) → IsLawful h → IsPartOf h a d → IsPartOf h b d →
        IsMerged a b c → IsPartOf h c d }
{}
