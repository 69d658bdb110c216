// What a purge of a root removes, and what the root's tree shows before that.
ghost use Rattle.std.specs.Prelude.{◌≡◌, ◌↔◌, Err, None, Some, IfOk, List, find, if◌then◌else◌, is_some, ℕ};
ghost use Rattle.state_facts.specs.declared.fact.Fact.{Fact};
ghost use Rattle.state_facts.specs.Sets.{is_held};
ghost use Rattle.state_facts.specs.declared.refusal.Refusal.TheVariants.{NotHeld};
ghost use Rattle.state_forest.specs.Forests.{id_of, is_of};
ghost use Rattle.state_forest.specs.Said.{ids_below, is_below, is_root_at};
ghost use Rattle.state_forest.specs.Shape.{found_at};
ghost use Rattle.state_forest.specs.Standing.{IsNested, IsWhole, Stands, answered};
ghost use Rattle.state_forest.specs.Trees.{tree_shown_at, tree_shows, tree_status};

use crate::{Forest, MAX_DEPTH, Record};
use state_facts::Refusal;
use state_ids::{LraId, LraStatus};
use std::alloc::{AllocError, Global};

fn tree_status(status: LraStatus, uncompensated: bool) -> LraStatus
    ensures { result ≡ tree_status status uncompensated }
{
    match status {
        LraStatus::Closed => {
            if uncompensated {
                LraStatus::FailedToClose
            } else {
                LraStatus::Closed
            }
        }
        other => other,
    }
}

impl Forest {
    /// Whether an LRA is a root, that is, not nested in another.
    pub fn is_root(&self, id: LraId) -> Result<bool, Refusal>
        ensures says { let at = found_at id.home self.now.records
            in result ≡ answered (is_some (at id.num)) (is_root_at at id.num) }
        ensures refused { result ≡ Err NotHeld ↔ (find (is_of id) self.now.records ≡ None) }
    {
        let Some(record) = self.get(id) else {
            return Err(Refusal::NotHeld);
        };
        Ok(record.parent.is_none())
    }

    fn if_under(&self, above: LraId, kept: &Record) -> Option<LraId>
        ensures { result ≡ (if is_below (found_at self.now.home self.now.records)
            above.num kept.now then Some (id_of kept.now) else None) }
    {
        if !self.is_under(above.num(), kept.num) {
            return None;
        }
        LraId::new(kept.home, kept.num).ok()
    }

    /// Returns an LRA of this home and all LRAs nested in it, by number. It looks at each of the
    /// home's records once, and walks up from each.
    pub fn tree(&self, alloc: Global, above: LraId) -> Result<Vec<LraId>, AllocError>
        requires { above.home ≡ self.now.home }
        ensures { IfOk result (λ ids. ids.items
            ≡ ids_below (found_at self.now.home self.now.records) above.num self.now.records) }
    {
        let mut ids = Vec::new(alloc);
        for kept in self.records() {
            if let Some(id) = self.if_under(above, kept) {
                ids.push(id)?;
            }
        }
        Ok(ids)
    }

    /// Returns what the tree of an LRA shows: the LRA with everything nested in it. That is the
    /// LRA's status, or FailedToClose if it is Closed and an LRA nested in it was cancelled alone
    /// and failed to. It costs as much as `status`.
    pub fn tree_status(&self, id: LraId) -> Result<LraStatus, Refusal>
        ensures says { let at = found_at id.home self.now.records
            in result ≡ answered (is_some (at id.num)) (tree_shown_at at id.num) }
        ensures answer { (nodes : ℕ) (S : List Fact) →
            IsWhole S → IsNested S → Stands nodes id.home S self.now.records →
            result ≡ answered (is_held S id) (tree_shows S id) }
        ensures refused { result ≡ Err NotHeld ↔ (find (is_of id) self.now.records ≡ None) }
    {
        let Some(record) = self.get(id) else {
            return Err(Refusal::NotHeld);
        };
        let want = self.wanted_of(id.num(), record);
        let seen = self.seen(id.num(), want, record.members.as_slice(), MAX_DEPTH - 1);
        Ok(tree_status(seen.shown(want), seen.uncompensated))
    }
}
