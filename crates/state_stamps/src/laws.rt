// Laws of indexes: what is known has exactly one. Each function does nothing, and its contract is the
// law.
ghost use Rattle.std.specs.Prelude.{◌≡◌, ℕ, List, Option};
ghost use Rattle.state_ids.specs.Ids.{Id};
ghost use Rattle.state_stamps.specs.declared.stamp_entry.StampEntry.{StampEntry};
ghost use Rattle.state_stamps.specs.Indexes.{AreIndexesOf, IsIndexOf};

/// The same known stamps have only one list of entries at each origin.
pub fn what_is_known_has_one_index()
    ensures { (origin : ℕ) (known : Id → Option (List ℕ)) (xs ys : List StampEntry) →
        IsIndexOf origin xs known → IsIndexOf origin ys known → xs ≡ ys }
{}

/// An index depends only on what is known of each LRA.
pub fn an_index_goes_by_what_is_known_of_each()
    ensures { (origins : List (List StampEntry)) (known other : Id → Option (List ℕ)) →
        ((l : Id) → known l ≡ other l) → AreIndexesOf origins known → AreIndexesOf origins other }
{}
