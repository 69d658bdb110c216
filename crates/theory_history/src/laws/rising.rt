//! Statuses only rise, and no verdict is split: laws of what closed sets of a lawful history show.
ghost use Rattle.std.specs.Prelude.{◌≡◌, ◌≤◌, ℕ, List, Some, true};
ghost use Rattle.state_ids.specs.Fronts.{IsBelow, is_covered};
ghost use Rattle.state_ids.specs.Ids.{Id};
ghost use Rattle.state_ids.specs.declared.outcome.Verdict.{Verdict};
ghost use Rattle.state_ids.specs.declared.outcome.Verdict.TheVariants.{Cancel, Close};
ghost use Rattle.state_facts.specs.Duties.{is_at_end};
ghost use Rattle.state_facts.specs.Sets.{is_root, want};
ghost use Rattle.theory_history.specs.Histories.{History, IsClosed, IsLawful, Made, facts};
ghost use Rattle.theory_history.specs.Rising.{IsCancelledAbove, IsDecision, IsShownCancelled, IsShownClosed, rank_in};

/// What an LRA shows never falls in rank as more facts become known. This compares two closed sets
/// of a lawful history, where the front of the first is below that of the second and covers the
/// LRA. The last rank is that of an LRA that is not held, so an LRA that was purged does not come
/// back.
pub fn statuses_only_rise()
    ensures { (h : History) (v w : List ℕ) (l : Id) → IsLawful h → IsClosed h v → IsClosed h w →
        IsBelow v w → is_covered v l ≡ true → rank_in (facts h v) l ≤ rank_in (facts h w) l }
{}

/// An LRA is closed or cancelled at most once in a whole history, and only by its home.
pub fn one_decision_each()
    ensures once { (h : History) (l : Id) (one other : Verdict) (d e : Made) → IsLawful h →
        IsDecision h l one d → IsDecision h l other e → d ≡ e }
    ensures home { (h : History) (l : Id) (verdict : Verdict) (e : Made) → IsLawful h →
        IsDecision h l verdict e → e.fact.origin ≡ l.home }
{}

/// No verdict is split. If an LRA is shown Closed or FailedToClose in one closed set of a lawful
/// history and Cancelled or FailedToCancel in another, an LRA above it was cancelled. The same
/// holds for what the LRA wants. So a root never wants both, and no node shows it closed while
/// another shows it cancelled.
pub fn no_split_verdict()
    ensures shown { (h : History) (v w : List ℕ) (l : Id) →
        IsLawful h → IsClosed h v → IsClosed h w →
        IsShownClosed (facts h v) l → IsShownCancelled (facts h w) l → IsCancelledAbove h w l }
    ensures wanted { (h : History) (v w : List ℕ) (l : Id) →
        IsLawful h → IsClosed h v → IsClosed h w → want (facts h v) l ≡ Some Close →
        want (facts h w) l ≡ Some Cancel → IsCancelledAbove h w l }
    ensures root { (h : History) (v w : List ℕ) (l : Id) →
        IsLawful h → IsClosed h v → IsClosed h w → is_root (facts h v) l ≡ true →
        want (facts h v) l ≡ Some Close → want (facts h w) l ≡ Some Cancel → ⊥ }
    ensures shown_root { (h : History) (v w : List ℕ) (l : Id) →
        IsLawful h → IsClosed h v → IsClosed h w → is_root (facts h v) l ≡ true →
        IsShownClosed (facts h v) l → IsShownCancelled (facts h w) l → ⊥ }
{}

/// What a listener hears is decided for good. If an LRA is at its end in a closed set of a lawful
/// history, so that its listeners are to be told, it is at its end in each closed set with more
/// facts, and wants the same there. So only a worse report may still turn Closed into
/// FailedToClose, or Cancelled into FailedToCancel.
pub fn what_is_at_its_end_stays_there()
    ensures wants { (h : History) (v w : List ℕ) (l : Id) →
        IsLawful h → IsClosed h v → IsClosed h w → IsBelow v w →
        is_at_end (facts h v) l ≡ true → want (facts h w) l ≡ want (facts h v) l }
    ensures stays { (h : History) (v w : List ℕ) (l : Id) →
        IsLawful h → IsClosed h v → IsClosed h w → IsBelow v w →
        is_at_end (facts h v) l ≡ true → is_at_end (facts h w) l ≡ true }
{}
