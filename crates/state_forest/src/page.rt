// A page: up to 32 records in order of their numbers, with room for 32 from the start.
ghost use Rattle.std.specs.Prelude.{◌≡◌, ◌↔◌, ◌+◌, ◌≤◌, ◌<◌, ◌==◌, ◌++◌, ◌∷◌, [], None, Some, false, true, IfOk, IsTrue, OnOk, drop, filter, is_some, length, nat_lt, slice_get, vec_capacity, vec_len};
ghost use mathlib.Core.Bool.{not};
ghost use Rattle.std.specs.Option.{option_copied};
ghost use Rattle.state_forest.specs.declared.page.TheConstants.{PAGE_ROOM};
ghost use Rattle.state_forest.specs.Forests.{IsAscending};
ghost use Rattle.state_forest.specs.Pages.{lies_below};
ghost use Rattle.state_forest.specs.Places.{count_below, put_record, with_number};

use crate::Record;
use std::alloc::{AllocError, Global};
use std::marker::Model;
use std::mem;

/// The number of records that fit on a page.
const PAGE_ROOM: usize = 32;

/// Up to 32 records. There is always room for that many.
#[derive(Debug, Drop)]
pub(crate) struct RecordPage {
    records: Vec<Record>,
}

impl Model for RecordPage {
    ghost use Rattle.std.specs.Prelude.{◌≤◌, List, vec_capacity, vec_len};
    ghost use Rattle.state_forest.specs.declared.page.TheConstants.{PAGE_ROOM};
    ghost use Rattle.state_forest.specs.declared.record.Record.{Record};

    ghost Value = { List Record };

    ghost view = { λ p. p.records.items };

    ghost invariant = { λ p. (vec_len p.records ≤ PAGE_ROOM) × (PAGE_ROOM ≤ vec_capacity p.records) };
}

fn place_of(records: &[Record], num: u64) -> usize
    requires { IsAscending records.now }
    ensures { result ≡ count_below num records.now }
{
    records.partition_point(|record| record.num < num)
}

/// Returns the record with a number, among records in order of their numbers. It uses binary
/// search.
fn with_number(records: &[Record], num: u64) -> Option<&Record>
    requires { IsAscending records.now }
    ensures { option_copied result
        ≡ with_number num (slice_get records.now (count_below num records.now)) }
{
    let Some(record) = records.get(place_of(records, num)) else {
        return None;
    };
    if record.num == num {
        Some(record)
    } else {
        None
    }
}

fn stands_at(records: &[Record], place: usize, num: u64) -> bool
    ensures { result ≡ is_some (with_number num (slice_get records.now place)) }
{
    match records.get(place) {
        Some(record) => record.num == num,
        None => false,
    }
}

/// Puts a record in its place. There must be room for it, or a record with its number, which is
/// replaced.
#[tactic(auto, using(crate::proofs::Puts::put_set, crate::proofs::Puts::put_insert, crate::proofs::Puts::some_within, crate::proofs::Places::place_length))]
fn put_among(records: &mut Vec<Record>, added: Record)
    requires order { IsAscending records.old.items }
    requires room { with_number added.num
        (slice_get records.old.items (count_below added.num records.old.items)) ≡ None →
        vec_len records.old < vec_capacity records.old }
    ensures items { records.new.items ≡ put_record added records.old.items }
    ensures capacity { vec_capacity records.new ≡ vec_capacity records.old }
    ensures len { vec_len records.new ≤ vec_len records.old + 1 }
    ensures replaced { let place = count_below added.num records.old.items
        in is_some (with_number added.num (slice_get records.old.items place)) ≡ true →
        vec_len records.new ≡ vec_len records.old }
{
    let place = place_of(records, added.num);
    if stands_at(records, place, added.num) {
        records[place] = added;
        return;
    }
    let _ = records.insert(place, added);
}

fn exchange_among(records: &mut Vec<Record>, next: Record) -> Record
    requires order { IsAscending records.old.items }
    requires there { let place = count_below next.num records.old.items in
        is_some (with_number next.num (slice_get records.old.items place)) ≡ true }
    ensures items { records.new.items ≡ put_record next records.old.items }
    ensures capacity { vec_capacity records.new ≡ vec_capacity records.old }
    ensures len { vec_len records.new ≡ vec_len records.old }
    ensures back { let place = count_below next.num records.old.items in
        with_number next.num (slice_get records.old.items place) ≡ Some result }
{
    let place = place_of(records, next.num);
    mem::replace(&mut records[place], next)
}

fn count_to(records: &[Record], num: u64) -> usize
    requires { IsAscending records.now }
    ensures within { result ≤ length records.now }
    ensures rest { drop result records.now ≡ filter (λ r. nat_lt num r.num) records.now }
{
    let place = place_of(records, num);
    if stands_at(records, place, num) {
        place + 1
    } else {
        place
    }
}

#[tactic(auto, using(crate::proofs::Removals::remove_at, crate::proofs::Puts::some_within, crate::proofs::Places::place_length))]
fn remove_among(records: &mut Vec<Record>, num: u64)
    requires { IsAscending records.old.items }
    ensures items { records.new.items ≡ filter (λ r. not (r.num == num)) records.old.items }
    ensures capacity { vec_capacity records.new ≡ vec_capacity records.old }
    ensures len { vec_len records.new ≤ vec_len records.old }
{
    let place = place_of(records, num);
    if stands_at(records, place, num) {
        let _ = records.remove(place);
    }
}

impl RecordPage {
    /// Makes an empty page with room for 32 records.
    pub(crate) fn new(alloc: Global) -> Result<RecordPage, AllocError>
        ensures { IfOk result (λ page. page ≡ []) }
    {
        Ok(RecordPage {
            records: Vec::with_capacity(alloc, PAGE_ROOM)?,
        })
    }

    fn push_copy(&mut self, kept: &Record) -> Result<(), AllocError>
        requires { length self.old < PAGE_ROOM }
        ensures { OnOk result (self.new ≡ self.old ++ kept.now ∷ []) }
    {
        self.records.push(kept.clone()?)?;
        Ok(())
    }

    /// Returns the records in order of their numbers.
    pub(crate) fn as_slice(&self) -> &[Record]
        ensures records { result.now ≡ self.now }
        ensures few { length result.now ≤ PAGE_ROOM }
    {
        &self.records
    }

    /// Takes the page apart, and returns its records in order of their numbers.
    pub(crate) fn into_records(self) -> Vec<Record>
        ensures { result.items ≡ self }
    {
        self.records
    }

    pub(crate) fn is_full(&self) -> bool
        ensures full { IsTrue result → length self.now ≡ PAGE_ROOM }
        ensures room { result ≡ false → length self.now < PAGE_ROOM }
    {
        self.records.len() == PAGE_ROOM
    }

    pub(crate) fn is_empty(&self) -> bool
        ensures { IsTrue result ↔ self.now ≡ [] }
    {
        self.records.is_empty()
    }

    /// Whether there are records and the number of the last one is less than this.
    pub(crate) fn lies_below(&self, num: u64) -> bool
        ensures { result ≡ lies_below num self.now }
    {
        match self.records.last() {
            Some(last) => last.num < num,
            None => false,
        }
    }

    /// Returns the record with a number. It uses binary search.
    pub(crate) fn numbered(&self, num: u64) -> Option<&Record>
        requires { IsAscending self.now }
        ensures { option_copied result
            ≡ with_number num (slice_get self.now (count_below num self.now)) }
    {
        with_number(&self.records, num)
    }

    /// Returns the records with greater numbers.
    pub(crate) fn after(&self, num: u64) -> &[Record]
        requires { IsAscending self.now }
        ensures { result.now ≡ filter (λ r. nat_lt num r.num) self.now }
    {
        let records = self.as_slice();
        &records[count_to(records, num)..]
    }

    /// Puts a record behind the others. The page must not be full.
    pub(crate) fn push(&mut self, added: Record)
        requires { length self.old < PAGE_ROOM }
        ensures { self.new ≡ self.old ++ added ∷ [] }
    {
        self.records.push_reserved(added);
    }

    /// Puts a record in its place. The page must not be full.
    pub(crate) fn put(&mut self, added: Record)
        requires order { IsAscending self.old }
        requires room { length self.old < PAGE_ROOM }
        ensures records { self.new ≡ put_record added self.old }
        ensures len { length self.new ≤ length self.old + 1 }
    {
        put_among(&mut self.records, added);
    }

    /// Replaces the record with this record's number, and returns the old one.
    pub(crate) fn exchange(&mut self, next: Record) -> Record
        requires order { IsAscending self.old }
        requires there { let place = count_below next.num self.old in
            is_some (with_number next.num (slice_get self.old place)) ≡ true }
        ensures records { self.new ≡ put_record next self.old }
        ensures len { length self.new ≡ length self.old }
        ensures back { with_number next.num
            (slice_get self.old (count_below next.num self.old)) ≡ Some result }
    {
        exchange_among(&mut self.records, next)
    }

    /// Removes the record with a number.
    pub(crate) fn remove(&mut self, num: u64)
        requires { IsAscending self.old }
        ensures records { self.new ≡ filter (λ r. not (r.num == num)) self.old }
        ensures len { length self.new ≤ length self.old }
    {
        remove_among(&mut self.records, num);
    }

    /// Moves all but the first 16 records to an empty page.
    pub(crate) fn part(&mut self, upper: &mut RecordPage)
        requires full { length self.old ≡ PAGE_ROOM }
        requires empty { upper.old ≡ [] }
        ensures records { self.new ++ upper.new ≡ self.old }
        ensures lower { length self.new ≡ 16 }
        ensures upper { length upper.new ≡ 16 }
    {
        part_records(&mut self.records, &mut upper.records);
    }
}

/// Moves all but the first 16 of 32 records.
fn part_records(lower: &mut Vec<Record>, upper: &mut Vec<Record>)
    requires full { vec_len lower.old ≡ PAGE_ROOM }
    requires empty { vec_len upper.old ≡ 0 }
    requires room { PAGE_ROOM ≤ vec_capacity upper.old }
    ensures items { lower.new.items ++ upper.new.items ≡ lower.old.items }
    ensures lower { vec_len lower.new ≡ 16 }
    ensures upper { vec_len upper.new ≡ 16 }
    ensures lower_capacity { vec_capacity lower.new ≡ vec_capacity lower.old }
    ensures upper_capacity { vec_capacity upper.new ≡ vec_capacity upper.old }
{
    'down: while lower.len() > PAGE_ROOM / 2 {
        if let Some(last) = lower.pop() {
            let _ = upper.insert(0, last);
        }
    }
}

impl Clone for RecordPage {
    ghost is_clone = { λ x y. y ≡ x };

    fn clone(&self) -> Result<RecordPage, AllocError> {
        let mut copy = RecordPage::new(*self.records.allocator())?;
        for record in &self.records {
            copy.push_copy(record)?;
        }
        Ok(copy)
    }
}
