// Pages of the LRAs that a node holds.
ghost use Rattle.std.specs.Prelude.{◌≡◌, ◌≤◌, ◌∷◌, [], List, None, Some, IfErr, IfOk, if◌then◌else◌, length};
ghost use Rattle.state_ids.specs.declared.TheConstants.{MAX_NODES};
ghost use Rattle.state_ids.specs.Ids.{is_fact_number};
ghost use Rattle.state_facts.specs.declared.refusal.Refusal.TheVariants.{NoMemory};
ghost use Rattle.state_forest.specs.declared.record.Record.{Record};
ghost use Rattle.state_forest.specs.Forests.{id_of};
ghost use Rattle.state_replica.specs.Pages.{IsFirstBeyond, IsNext, IsNextAt, IsNextRow, IsPage};
ghost use Rattle.theory_history.specs.Readings.{by_view};
ghost use Rattle.state_replica.specs.Replicas.{IsReplicaState, view_of};
ghost use Rattle.theory_history.specs.Replies.{by_facts};
ghost use Rattle.theory_history.specs.Views.{OfItsSet};

use crate::Replica;
use state_facts::Refusal;
use state_forest::Records;
use state_ids::{LraId, LraStatus, NodeId};
use std::alloc::{AllocError, Global};
use std::marker::Model;

/// The greatest number of rows on a page.
pub const MAX_ROWS: usize = 64;

/// An LRA and its status.
#[derive(Clone, Copy, Debug, PartialEq, Eq)]
pub struct Row {
    pub id: LraId,
    pub status: LraStatus,
}

/// The next LRAs that are held, and whether more follow.
#[derive(Clone, Debug, Drop)]
pub struct Page {
    rows: Vec<Row>,
    more: bool,
}

impl Model for Page {
    ghost use Rattle.state_replica.specs.Pages.{PageRows};

    ghost Value = { PageRows };

    ghost view = { λ p. record { rows = p.rows.items; more = p.more } };
}

impl Page {
    /// Returns the rows, in order of their homes and numbers.
    pub fn rows(&self) -> &[Row]
        ensures { result.now ≡ self.now.rows }
    {
        &self.rows
    }

    /// Whether more LRAs follow.
    pub fn more(&self) -> bool
        ensures { result ≡ self.now.more }
    {
        self.more
    }
}

fn first_of(records: Records<'_>) -> Option<LraId>
    ensures none { records.entry ≡ [] → result ≡ None }
    ensures first { (r : Record) (rs : List Record) →
        records.entry ≡ r ∷ rs → result ≡ (if is_fact_number r.num then Some (id_of r) else None) }
{
    let mut records = records;
    match records.next() {
        Some(record) => LraId::new(record.home, record.num).ok(),
        None => None,
    }
}

impl Replica {
    fn next_at(&self, home: NodeId, num: u64) -> Option<LraId>
        ensures { IsNextAt (by_view (view_of self.now)) home num result }
    {
        match self.home(home) {
            Some(records) => first_of(records.after(num)),
            None => None,
        }
    }

    fn nodes(&self) -> usize
        ensures count { result ≡ length self.now.front }
        ensures few { result ≤ MAX_NODES }
        ensures state { IsReplicaState self.now }
    {
        // Calling `homes` tells the prover what holds of every replica's state.
        let _ = self.homes();
        self.front().nodes()
    }

    fn first_beyond(&self, home: usize) -> Option<LraId>
        ensures first { IsFirstBeyond (by_view (view_of self.now)) home result }
        ensures state { IsReplicaState self.now }
    {
        for place in home..self.nodes() {
            let Ok(node) = NodeId::new(place as u8 + 1) else {
                unreachable!();
            };
            if let Some(next) = self.next_at(node, 0) {
                return Some(next);
            }
        }
        None
    }

    fn next_after(&self, after: Option<LraId>) -> Option<LraId>
        ensures { IsNext (by_view (view_of self.now)) after result }
    {
        let Some(id) = after else {
            return self.first_beyond(0);
        };
        match self.next_at(id.home(), id.num()) {
            Some(next) => Some(next),
            None => self.first_beyond(usize::from(id.home().number())),
        }
    }

    fn next_row(&self, after: Option<LraId>) -> Option<Row>
        ensures { IsNextRow (by_view (view_of self.now)) after result }
    {
        let Some(id) = self.next_after(after) else {
            return None;
        };
        match self.shown(id) {
            Ok(status) => Some(Row { id, status }),
            Err(_) => None,
        }
    }

    fn next_rows(&self, alloc: Global, after: Option<LraId>) -> Result<Page, AllocError>
        ensures { IfOk result (λ page. IsPage (by_view (view_of self.now)) after page) }
    {
        let mut rows = Vec::new(alloc);
        let mut last = after;
        for _ in 0..MAX_ROWS {
            let Some(row) = self.next_row(last) else {
                return Ok(Page { rows, more: false });
            };
            last = Some(row.id);
            rows.push(row)?;
        }
        let more = self.next_after(last).is_some();
        Ok(Page { rows, more })
    }

    /// Returns the next 64 LRAs that are held beyond this one, or the first ones of all, in order
    /// of their homes and numbers, each with its status. It fails only if memory runs out. For each
    /// row it looks at each home in between, and finds the LRA by binary search in its home's
    /// records. The status costs as much as `status`. An LRA whose number no fact can have is left
    /// out.
    pub fn page(&self, alloc: Global, after: Option<LraId>) -> Result<Page, Refusal>
        ensures page { IfOk result (λ page. IsPage (by_view (view_of self.now)) after page) }
        ensures settled { OfItsSet (view_of self.now)
            (λ S. IfOk result (λ page. IsPage (by_facts S) after page)) }
        ensures cause { IfErr result (λ refusal. refusal ≡ NoMemory) }
    {
        Ok(self.next_rows(alloc, after)?)
    }
}
