// Laws of records: a set of facts has one list of records, and one list of what is due. Each function
// does nothing, and its contract is the law.
ghost use Rattle.std.specs.Prelude.{◌≡◌, ℕ, List, Bool, true, false};
ghost use Rattle.state_ids.specs.Ids.{Id};
ghost use Rattle.state_facts.specs.declared.fact.Fact.{Fact};
ghost use Rattle.state_forest.specs.declared.record.Record.{Record};
ghost use Rattle.state_forest.specs.declared.duties.Due.{Due};
ghost use Rattle.state_forest.specs.Dues.{AreAll, IsDueAt};
ghost use Rattle.state_forest.specs.Forests.{AreOf};
ghost use Rattle.state_forest.specs.Standing.{Stands};

/// A set of facts has only one list of records of a home: two forests that stand for the same set
/// are equal.
pub fn a_set_has_one_list_of_records()
    ensures { (nodes home : ℕ) (S : List Fact) (xs ys : List Record) →
        AreOf home xs → AreOf home ys → Stands nodes home S xs → Stands nodes home S ys → xs ≡ ys }
{}

/// The participants of a home of which something is due have only one list. Two lists are equal if
/// each has all that are due and no others, in an order in which no two come before each other.
pub fn what_is_due_has_one_list()
    ensures { (home : ℕ) (S : List Fact) (due : List Fact → Id → ℕ → Bool) (before : Due →
        Due → Bool) (xs ys : List Due) → ((a b : Due) → before a b ≡ true → before b a ≡ false) →
        AreAll (IsDueAt home S due) before xs → AreAll (IsDueAt home S due) before ys → xs ≡ ys }
{}
