//! The shape of views: a law of the views that nodes of one lawful history keep.
ghost use Rattle.std.specs.Prelude.{ℕ, List};
ghost use Rattle.theory_history.specs.Histories.{History, IsClosed, IsLawful, facts};
ghost use Rattle.theory_history.specs.Merging.{IsMerged};
ghost use Rattle.theory_history.specs.ViewShape.{HasShape};
ghost use Rattle.theory_history.specs.Views.{StandsFor, View};

/// The view of a closed set of a lawful history has the shape, and so has the merge of two such
/// views. That means: no home has more than 256 records; the parent that a record names has a
/// record, with the LRA as a member there; each nested LRA has a record; no LRA is deeper than 8;
/// and no stamp and no purge is beyond the front.
pub fn views_of_a_history_have_the_shape()
    ensures view { (h : History) (v : List ℕ) (view : View) →
        IsLawful h → IsClosed h v → StandsFor (facts h v) view → HasShape view }
    ensures merge { (h : History) (v w : List ℕ) (a b c : View) →
        IsLawful h → IsClosed h v → IsClosed h w →
        StandsFor (facts h v) a → StandsFor (facts h w) b → IsMerged a b c → HasShape c }
{}
