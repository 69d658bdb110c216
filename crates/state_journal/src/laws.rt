//! Laws of the journal: which rows stand for a view. Each function does nothing, and its contract is
//! the law.
ghost use Rattle.std.specs.Prelude.{◌≡◌, ◌≤◌, ℕ, List, length};
ghost use Rattle.sqlite.specs.Order.{Row};
ghost use Rattle.sqlite.specs.Tree.{Trees};
ghost use Rattle.state_ids.specs.declared.TheConstants.{MAX_NODES};
ghost use Rattle.theory_history.specs.Histories.{History, IsClosed, IsLawful, facts};
ghost use Rattle.theory_history.specs.Views.{StandsFor, View};
ghost use Rattle.wire_frames.specs.declared.version.Version.{Version};
ghost use Rattle.wire_frames.specs.declared.version.Version.TheVariants.{One};
ghost use Rattle.state_journal.specs.Broken.{IsBrokenAt};
ghost use Rattle.state_journal.specs.Tables.{IsFormed};
ghost use Rattle.state_journal.specs.Listings.{AreFrontRows, AreLraRows};
ghost use Rattle.state_journal.specs.NewStores.{IsRewritten};
ghost use Rattle.state_journal.specs.Reads.{AreRowsOf};
ghost use Rattle.state_journal.specs.Ruled.{AreTables, AreTyped, KeepsRules, KeepsRulesAs};
ghost use Rattle.state_journal.specs.Stands.{Stands, StandsAs};

use theory_history::laws::shape::views_of_a_history_have_the_shape;
use wire_frames::laws::{
    frames_of_a_history_keep_the_rules, records_of_a_history_have_an_encoding,
};

/// Rows as the SELECTs list them stand for a view if they are the rows of that view.
pub fn listed_rows_stand()
    ensures { (v : Version) (me : ℕ) (db : Trees) (front_rows lra_rows : List Row) (view : View) →
        IsFormed db → AreFrontRows db front_rows → AreLraRows db lra_rows →
        AreRowsOf v me front_rows lra_rows view → StandsAs v me db view }
{}

/// Rows that stand for a view which keeps the rules of their version are never refused: they break
/// the format at no place. It is a premise that no row stands twice, since the kit doesn't show the
/// store's invariant of a connection. Tests open what was stored.
pub fn rows_of_a_view_are_never_refused()
    ensures { (v : Version) (me place : ℕ) (db : Trees) (view : View) → me ≤ MAX_NODES → AreTables db →
        StandsAs v me db view → KeepsRulesAs v view → ¬ IsBrokenAt me (length view.front) db place }
{}

/// The view of a closed set of a lawful history keeps the rules, if its records have the types of
/// records and there are at most eight nodes. When its rows are read back, they are never E16, if
/// none stands twice in its table.
pub fn views_of_a_history_keep_the_rules()
    ensures { (h : History) (v : List ℕ) (view : View) → IsLawful h → IsClosed h v →
        StandsFor (facts h v) view → length view.front ≤ MAX_NODES → AreTyped view → KeepsRules view }
{
    frames_of_a_history_keep_the_rules();
    records_of_a_history_have_an_encoding();
    views_of_a_history_have_the_shape();
}

/// Rows stand in one version, and for at most one view that keeps the version's rules. So what is
/// found in them is what was stored, if that keeps the rules too. Rows that were rewritten stand
/// for the one view of the rows of version 1, in which nobody listens.
pub fn rows_stand_for_one_view()
    ensures view { (v : Version) (me : ℕ) (db : Trees) (a b : View) → StandsAs v me db a →
        StandsAs v me db b → KeepsRulesAs v a → KeepsRulesAs v b → a ≡ b }
    ensures version { (v w : Version) (me : ℕ) (db : Trees) (a b : View) →
        StandsAs v me db a → StandsAs w me db b → v ≡ w }
    ensures rewritten { (me : ℕ) (old new : Trees) (view : View) → StandsAs One me old view →
        KeepsRulesAs One view → IsRewritten me old new → Stands me new view }
{}
