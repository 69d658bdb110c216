// Reading the rows of `lra`.
ghost use Rattle.std.specs.Prelude.{◌≡◌, ◌≤◌, ◌<◌, ◌+◌, ◌⊎◌, ◌↔◌, [], ℕ, true, false, Some, IfOk, IfErr, IfSome, length};
ghost use Rattle.std.specs.List.{AllByRecursion};
ghost use Rattle.state_ids.specs.declared.TheConstants.{MAX_NODES};
ghost use Rattle.state_facts.specs.declared.refusal.Refusal.TheVariants.{BadFrame, NoMemory};
ghost use Rattle.state_forest.specs.Forests.{AreOf};
ghost use Rattle.theory_history.specs.Merging.{AreToldFrom};
ghost use Rattle.state_journal.specs.Puts.{IsPut, IsPutLast};
ghost use Rattle.state_forest.specs.declared.record.Record.{Record};
ghost use Rattle.state_journal.specs.LraRows.{AreRecordRows, HasKey, IsRowOf, RecordBreaksAt, told_at};

use crate::front_rows::{node_at, number};
use sqlite::Row;
use sqlite_value::value::ValueRef;
use state_facts::Refusal;
use state_forest::{Forest, Record, Records, Told};
use state_ids::Front;
use std::alloc::{AllocError, Global};
use wire_frames::{LinksRead, Version, decode_record_with};

fn has_key(row: &Row, kept: &Record) -> bool
    ensures { result ≡ true ↔ HasKey row.now kept.now }
{
    number(row, 0) == Some(u64::from(kept.home.number())) && number(row, 1) == Some(kept.num)
}

fn record_of(
    alloc: Global,
    version: Version,
    row: &Row,
    front: &Front,
    links: &mut LinksRead,
) -> Result<Option<Record>, AllocError>
    ensures some { IfOk result (λ found. IfSome found (IsRowOf version front.now row.now)) }
    ensures only { IfOk result (λ found. (kept : Record) →
        IsRowOf version front.now row.now kept → found ≡ Some kept) }
{
    let Ok(ValueRef::Blob(body)) = row.get_ref(2) else {
        return Ok(None);
    };
    match decode_record_with(alloc, body, front, version, links) {
        Ok(kept) => {
            if has_key(row, &kept) {
                Ok(Some(kept))
            } else {
                Ok(None)
            }
        }
        Err(Refusal::BadFrame(_)) => Ok(None),
        Err(_) => Err(AllocError),
    }
}

fn is_after(records: Records<'_>, num: u64) -> bool
    ensures { result ≡ true ↔ AllByRecursion (λ q. q.num < num) records.entry }
{
    for record in records {
        if record.num >= num {
            return false;
        }
    }
    true
}

fn put_last(told: &mut Told, kept: Record) -> Result<bool, AllocError>
    requires { kept.home ≡ told.old.records.home }
    ensures put { IfOk result (λ put. put ≡ true → IsPutLast kept told.old told.new) }
    ensures not_put { IfOk result (λ put. put ≡ false →
        ¬ AllByRecursion (λ q. q.num < kept.num) told.old.records.records) }
{
    if !is_after(told.records.records(), kept.num) {
        return Ok(false);
    }
    told.records.push_last(kept)?;
    Ok(true)
}

fn put_home(homes: &mut Vec<Told>, kept: Record) -> Result<bool, AllocError>
    requires there { kept.home ≤ length homes.old.items }
    requires told { AreToldFrom 1 homes.old.items }
    ensures put { IfOk result (λ put. put ≡ true → IsPut kept homes.old.items homes.new.items) }
    ensures not_put { IfOk result (λ put. put ≡ false →
        ¬ AllByRecursion (λ q. q.num < kept.num) (told_at homes.old.items kept.home)) }
{
    let place = usize::from(kept.home.number()) - 1;
    put_last(&mut homes[place], kept)
}

fn empty_homes(alloc: Global, nodes: usize) -> Result<Vec<Told>, AllocError>
    requires { nodes ≤ MAX_NODES }
    ensures { IfOk result (λ homes. AreToldFrom 1 homes.items
        × (length homes.items ≡ nodes) × ((home : ℕ) → told_at homes.items home ≡ [])) }
{
    let mut homes = Vec::new(alloc);
    'places: for place in 0..nodes {
        homes.push(Told {
            records: Forest::new(alloc, node_at(place)),
            held: None,
        })?;
    }
    Ok(homes)
}

/// Returns the records in the rows of `lra`, home by home, for a journal of this version. E16 at
/// the place of the first row that is wrong, where `first` rows come before these.
pub fn homes_of(
    alloc: Global,
    version: Version,
    rows: &[Row],
    front: &Front,
    first: u64,
) -> Result<Vec<Told>, Refusal>
    requires { first ≤ 9 }
    ensures told { IfOk result (λ homes. AreToldFrom 1 homes.items
        × (length homes.items ≡ length front.now)) }
    ensures right { IfOk result
        (λ homes. AreRecordRows version front.now rows.now (length rows.now) (told_at homes.items)) }
    ensures order { IfOk result (λ homes. (home : ℕ) →
        1 ≤ home → AreOf home (told_at homes.items home)) }
    ensures refused { IfErr result (λ refusal. (refusal ≡ NoMemory) ⊎ ((place : ℕ)
        × (refusal ≡ BadFrame (first + place)) × RecordBreaksAt version front.now rows.now place)) }
{
    let mut homes = empty_homes(alloc, front.nodes())?;
    let mut links = LinksRead::new(alloc);
    'rows: for place in 0..rows.len() {
        let kept = match record_of(alloc, version, &rows[place], front, &mut links)? {
            Some(kept) => kept,
            None => return Err(Refusal::BadFrame(first + place as u64)),
        };
        if !put_home(&mut homes, kept)? {
            return Err(Refusal::BadFrame(first + place as u64));
        }
    }
    Ok(homes)
}
