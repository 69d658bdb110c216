// The records of a home, on pages of at most 32.
ghost use Rattle.std.specs.Prelude.{◌≡◌, ◌+◌, ◌-◌, ◌*◌, ◌≤◌, ◌<◌, ◌==◌, ◌++◌, ◌∷◌, ◌^◌, ℕ, max, List, [], None, Some, true, IfOk, MatchOption, OnErr, OnOk, drop, filter, get_or, is_some, length, nat_lt, slice_get, vec_capacity, vec_len};
ghost use mathlib.Core.Bool.{not};
ghost use Rattle.std.specs.List.{insert, remove};
ghost use Rattle.std.specs.Iterator.{YieldsFirst, YieldsFirstRef, item_count};
ghost use Rattle.std.specs.Option.{option_copied};
ghost use Rattle.state_forest.specs.declared.page.TheConstants.{PAGE_ROOM};
ghost use Rattle.state_forest.specs.Forests.{IsAscending};
ghost use Rattle.state_forest.specs.Pages.{AreEmptyLast, FitsAt, IsLastSeat, IsPageOf, IsSeat, Reaches, empty_pages, lies_below, records_in, room_in, weight_in};
ghost use Rattle.state_forest.specs.Places.{count_below, put_record, with_number};

use crate::Record;
use crate::page::RecordPage;
use std::alloc::{AllocError, Global};
use std::marker::Model;
use std::vec;

/// The greatest number of pages of a home.
const MAX_PAGES: usize = 1 << 32;

/// Records in order of their numbers, on pages of at most 32.
///
/// Behind the pages with records there are empty pages, each with its room. A record for which its
/// page has no room takes one of these, and no memory. Since a full page is halved then, each empty
/// page is room for 16 records, less the records beyond 16 that the pages have now. So a put moves
/// the records of only one page.
///
/// A page is a vector and not an array, so inserting a page moves 24 bytes for each page after it.
/// Two sparse pages aren't merged. Room is counted when it is needed, so that no put has to keep a
/// count. No clause says that one empty page is kept.
#[derive(Debug, Drop)]
pub(crate) struct Pages {
    pages: Vec<RecordPage>,
}

impl Model for Pages {
    ghost use Rattle.std.specs.Prelude.{◌^◌, ◌≤◌, vec_len};
    ghost use Rattle.state_forest.specs.Pages.{AreEmptyLast, HeldPages, records_in, room_in};

    ghost Value = { HeldPages };

    ghost view = { λ p. record {
      items = records_in p.pages.items;
      spare = room_in p.pages.items;
    } };

    ghost invariant = { λ p. AreEmptyLast p.pages.items × (vec_len p.pages ≤ 2 ^ 32) };
}

/// Returns the place of the first page that doesn't lie below a number. It uses binary search.
fn page_of(pages: &[RecordPage], num: u64) -> usize
    requires order { IsAscending (records_in pages.now) }
    requires last { AreEmptyLast pages.now }
    ensures { IsPageOf num result pages.now }
{
    pages.partition_point(|page| page.lies_below(num))
}

fn numbered_in(pages: &[RecordPage], num: u64) -> Option<&Record>
    requires order { IsAscending (records_in pages.now) }
    requires last { AreEmptyLast pages.now }
    ensures { let all = records_in pages.now
        in option_copied result ≡ with_number num (slice_get all (count_below num all)) }
{
    match pages.get(page_of(pages, num)) {
        Some(page) => page.numbered(num),
        None => None,
    }
}

fn exchange_in(pages: &mut Vec<RecordPage>, next: Record) -> Record
    requires order { IsAscending (records_in pages.old.items) }
    requires last { AreEmptyLast pages.old.items }
    requires there { let all = records_in pages.old.items in
        is_some (with_number next.num (slice_get all (count_below next.num all))) ≡ true }
    ensures items { records_in pages.new.items ≡ put_record next (records_in pages.old.items) }
    ensures last { AreEmptyLast pages.new.items }
    ensures room { room_in pages.new.items ≡ room_in pages.old.items }
    ensures len { vec_len pages.new ≡ vec_len pages.old }
    ensures back { let all = records_in pages.old.items in
        with_number next.num (slice_get all (count_below next.num all)) ≡ Some result }
{
    let at = page_of(pages, next.num);
    pages[at].exchange(next)
}

/// Inserts a page at a place. There must be room for one more.
fn insert_page(pages: &mut Vec<RecordPage>, at: usize, page: RecordPage)
    requires within { at ≤ vec_len pages.old }
    requires room { vec_len pages.old < vec_capacity pages.old }
    ensures items { pages.new.items ≡ insert pages.old.items at page }
    ensures len { vec_len pages.new ≡ vec_len pages.old + 1 }
{
    let _ = pages.insert(at, page);
}

/// Moves half of the records of a full page to an empty page behind it, and returns the place of
/// the one on which a number belongs.
fn seat_on_half(pages: &mut Vec<RecordPage>, at: usize, num: u64) -> usize
    requires last { AreEmptyLast pages.old.items }
    requires spare { 1 ≤ empty_pages pages.old.items }
    requires fits { FitsAt num at pages.old.items }
    requires full { length (get_or pages.old.items at []) ≡ PAGE_ROOM }
    requires reached { Reaches num (get_or pages.old.items at []) }
    requires order { IsAscending (records_in pages.old.items) }
    ensures len { vec_len pages.new ≡ vec_len pages.old }
    ensures seat { IsSeat num result pages.old.items pages.new.items }
{
    let Some(mut upper) = pages.pop() else {
        return at;
    };
    pages[at].part(&mut upper);
    let seat = if pages[at].lies_below(num) {
        at + 1
    } else {
        at
    };
    insert_page(pages, at + 1, upper);
    seat
}

/// Returns the place of a page with room for one more record, whose number no record has. If the
/// page where it belongs is full, half of the records there move to an empty page.
fn seat(pages: &mut Vec<RecordPage>, num: u64) -> usize
    requires order { IsAscending (records_in pages.old.items) }
    requires last { AreEmptyLast pages.old.items }
    requires spare { 1 ≤ empty_pages pages.old.items }
    ensures len { vec_len pages.new ≡ vec_len pages.old }
    ensures seat { IsSeat num result pages.old.items pages.new.items }
{
    let at = page_of(pages, num);
    if pages[at].is_empty() {
        // The record belongs behind all others.
        if at > 0 && !pages[at - 1].is_full() {
            at - 1
        } else {
            at
        }
    } else if pages[at].is_full() {
        seat_on_half(pages, at, num)
    } else {
        at
    }
}

fn add_in(pages: &mut Vec<RecordPage>, added: Record)
    requires order { IsAscending (records_in pages.old.items) }
    requires last { AreEmptyLast pages.old.items }
    requires spare { 1 ≤ empty_pages pages.old.items }
    ensures items { records_in pages.new.items ≡ put_record added (records_in pages.old.items) }
    ensures last { AreEmptyLast pages.new.items }
    ensures room { room_in pages.old.items ≤ room_in pages.new.items + 1 }
    ensures len { vec_len pages.new ≡ vec_len pages.old }
{
    let at = seat(pages, added.num);
    pages[at].put(added);
}

/// Moves an empty page behind all others.
fn move_behind(pages: &mut Vec<RecordPage>, at: usize)
    requires within { at < vec_len pages.old }
    requires empty { get_or pages.old.items at [] ≡ [] }
    ensures items { pages.new.items ≡ remove pages.old.items at ++ [] ∷ [] }
    ensures len { vec_len pages.new ≡ vec_len pages.old }
{
    let emptied = pages.remove(at);
    let _ = pages.push(emptied);
}

fn remove_in(pages: &mut Vec<RecordPage>, num: u64)
    requires order { IsAscending (records_in pages.old.items) }
    requires last { AreEmptyLast pages.old.items }
    ensures items { records_in pages.new.items
        ≡ filter (λ r. not (r.num == num)) (records_in pages.old.items) }
    ensures last { AreEmptyLast pages.new.items }
    ensures room { room_in pages.old.items ≤ room_in pages.new.items }
    ensures len { vec_len pages.new ≡ vec_len pages.old }
{
    let at = page_of(pages, num);
    if at >= pages.len() {
        return;
    }
    pages[at].remove(num);
    if pages[at].is_empty() {
        move_behind(pages, at);
    }
}

/// Returns the number of empty pages.
fn empty_in(pages: &[RecordPage]) -> usize
    ensures { result ≡ empty_pages pages.now }
{
    let mut count = 0;
    for page in pages {
        if page.is_empty() {
            count += 1;
        }
    }
    count
}

/// Returns the weight of the pages. The room is 16 records for each empty page, less this weight.
fn weight_of(pages: &[RecordPage]) -> usize
    requires { length pages.now ≤ 2 ^ 32 }
    ensures { result ≡ weight_in pages.now }
{
    let mut weight: usize = 0;
    let mut count: usize = 16;
    for page in pages {
        if !page.is_empty() {
            weight += count.saturating_sub(16);
            count = page.as_slice().len();
        }
    }
    weight + count
}

/// Returns how many pages must be empty for this many more records to fit, if the pages have this
/// weight.
fn pages_for(more: usize, weight: usize) -> usize
    ensures room { (empty : ℕ) → result ≤ empty → more ≤ max empty (16 * empty - weight) }
    ensures few { 16 * result ≤ more + weight + 30 }
    ensures at_most { result ≤ more }
{
    more.min(more.div_ceil(16) + weight.div_ceil(16))
}

/// Returns the number of records.
fn count_in(pages: &[RecordPage]) -> usize
    requires { length pages.now ≤ 2 ^ 32 }
    ensures { result ≡ length (records_in pages.now) }
{
    let mut count = 0;
    for page in pages {
        count += page.as_slice().len();
    }
    count
}

fn add_page(alloc: Global, pages: &mut Vec<RecordPage>) -> Result<(), AllocError>
    requires few { vec_len pages.old ≤ 2 ^ 32 }
    ensures few { vec_len pages.new ≤ 2 ^ 32 }
    ensures ok { OnOk result (pages.new.items ≡ pages.old.items ++ [] ∷ []) }
    ensures err { OnErr result (pages.new.items ≡ pages.old.items) }
{
    if pages.len() >= MAX_PAGES {
        return Err(AllocError);
    }
    pages.push(RecordPage::new(alloc)?)?;
    Ok(())
}

/// Returns the place of the page for one more record behind all others: the last page with records,
/// or the place behind it if that page is full. The page may still have to be added. It doesn't
/// search.
fn last_seat(pages: &[RecordPage]) -> usize
    requires { AreEmptyLast pages.now }
    ensures { IsLastSeat result pages.now }
{
    let mut count = pages.len();
    'down: while count > 0 {
        let page = &pages[count - 1];
        if page.is_full() {
            return count;
        }
        if !page.is_empty() {
            return count - 1;
        }
        count -= 1;
    }
    0
}

/// Returns the place of the page for one more record behind all others, and adds that page if
/// needed.
fn make_last_seat(pages: &mut Vec<RecordPage>) -> Result<usize, AllocError>
    requires last { AreEmptyLast pages.old.items }
    requires few { vec_len pages.old ≤ 2 ^ 32 }
    ensures items { records_in pages.new.items ≡ records_in pages.old.items }
    ensures last { AreEmptyLast pages.new.items }
    ensures few { vec_len pages.new ≤ 2 ^ 32 }
    ensures seat { IfOk result (λ at. IsLastSeat at pages.new.items) }
    ensures there { IfOk result (λ at. at < vec_len pages.new) }
{
    let at = last_seat(pages);
    if at < pages.len() {
        return Ok(at);
    }
    let alloc = *pages.allocator();
    add_page(alloc, pages)?;
    Ok(at)
}

/// Adds a record behind all others.
fn push_in(pages: &mut Vec<RecordPage>, added: Record) -> Result<(), AllocError>
    requires last { AreEmptyLast pages.old.items }
    requires few { vec_len pages.old ≤ 2 ^ 32 }
    ensures ok { OnOk result
        (records_in pages.new.items ≡ records_in pages.old.items ++ added ∷ []) }
    ensures err { OnErr result (records_in pages.new.items ≡ records_in pages.old.items) }
    ensures last { AreEmptyLast pages.new.items }
    ensures few { vec_len pages.new ≤ 2 ^ 32 }
{
    let at = make_last_seat(pages)?;
    pages[at].push(added);
    Ok(())
}

/// Adds this many empty pages.
#[tactic(auto, using(crate::proofs::PageEdits::behind, crate::proofs::PageEdits::emptied_behind, crate::proofs::PageEdits::more_behind, crate::proofs::PageWeights::behind_weighs))]
fn add_pages(pages: &mut Vec<RecordPage>, more: usize) -> Result<(), AllocError>
    requires last { AreEmptyLast pages.old.items }
    requires few { vec_len pages.old ≤ 2 ^ 32 }
    ensures items { records_in pages.new.items ≡ records_in pages.old.items }
    ensures last { AreEmptyLast pages.new.items }
    ensures few { vec_len pages.new ≤ 2 ^ 32 }
    ensures ok { OnOk result (empty_pages pages.new.items ≡ empty_pages pages.old.items + more) }
    ensures kept { empty_pages pages.old.items ≤ empty_pages pages.new.items }
    ensures weight { weight_in pages.new.items ≡ weight_in pages.old.items }
{
    let alloc = *pages.allocator();
    for added in 0..more {
        add_page(alloc, pages)?;
    }
    Ok(())
}

/// Frees the last page, which must be empty.
fn drop_last(pages: &mut Vec<RecordPage>)
    requires last { AreEmptyLast pages.old.items }
    requires empty { 1 ≤ empty_pages pages.old.items }
    ensures items { records_in pages.new.items ≡ records_in pages.old.items }
    ensures last { AreEmptyLast pages.new.items }
    ensures spare { empty_pages pages.old.items ≡ empty_pages pages.new.items + 1 }
    ensures len { vec_len pages.new ≤ vec_len pages.old }
{
    let Some(_) = pages.pop() else {
        return;
    };
}

/// Frees all empty pages but one.
fn keep_one(pages: &mut Vec<RecordPage>)
    requires last { AreEmptyLast pages.old.items }
    ensures items { records_in pages.new.items ≡ records_in pages.old.items }
    ensures last { AreEmptyLast pages.new.items }
    ensures spare { empty_pages pages.new.items ≤ 1 }
    ensures kept { 1 ≤ empty_pages pages.old.items → 1 ≤ empty_pages pages.new.items }
    ensures len { vec_len pages.new ≤ vec_len pages.old }
{
    for dropped in 1..empty_in(pages) {
        drop_last(pages);
    }
}

/// The remaining records of some pages, in order.
#[derive(Drop)]
pub struct Records<'a> {
    page: &'a [Record],
    pages: &'a [RecordPage],
}

impl<'a> Model for Records<'a> {
    ghost use Rattle.std.specs.Prelude.{◌++◌, List};
    ghost use Rattle.state_forest.specs.declared.record.Record.{Record};
    ghost use Rattle.state_forest.specs.Pages.{records_in};

    ghost Value = { List Record };

    ghost view = { λ r. r.page.now ++ records_in r.pages.now };
}

impl<'a> Iterator for Records<'a> {
    type Item = &'a Record;

    ghost next_gives = { YieldsFirstRef (λ rest. rest) };

    ghost remaining = { item_count (λ rest. rest) };

    fn next(&mut self) -> Option<&'a Record> {
        let (first, page, pages) = first_of(self.page, self.pages)?;
        self.page = page;
        self.pages = pages;
        Some(first)
    }
}

/// Returns the first of the remaining records, from a page or from those behind it, and what
/// remains after it.
fn first_of<'a>(
    page: &'a [Record],
    pages: &'a [RecordPage],
) -> Option<(&'a Record, &'a [Record], &'a [RecordPage])>
    ensures { MatchOption result (page.now ++ records_in pages.now ≡ [])
        (λ r. page.now ++ records_in pages.now ≡ r.0.now ∷ (r.1.now ++ records_in r.2.now)) }
{
    let mut page = page;
    let mut pages = pages;
    'over: while page.is_empty() {
        let (next, rest) = pages.split_first()?;
        page = next.as_slice();
        pages = rest;
    }
    let (first, rest) = page.split_first()?;
    Some((first, rest, pages))
}

fn pages_behind(pages: &[RecordPage], at: usize) -> &[RecordPage]
    requires { at < length pages.now }
    ensures { result.now ≡ drop (at + 1) pages.now }
{
    &pages[at + 1..]
}

fn after_in(pages: &[RecordPage], num: u64) -> Records<'_>
    requires order { IsAscending (records_in pages.now) }
    requires last { AreEmptyLast pages.now }
    ensures { result ≡ filter (λ r. nat_lt num r.num) (records_in pages.now) }
{
    let at = page_of(pages, num);
    if at >= pages.len() {
        return Records {
            page: &[],
            pages: &[],
        };
    }
    let page = pages[at].after(num);
    let pages = pages_behind(pages, at);
    Records { page, pages }
}

impl Pages {
    /// Returns pages without records: none.
    pub(crate) fn new(alloc: Global) -> Pages
        ensures items { result.items ≡ [] }
    {
        Pages {
            pages: Vec::new(alloc),
        }
    }

    /// Returns the number of records.
    pub(crate) fn len(&self) -> usize
        ensures { result ≡ length self.now.items }
    {
        count_in(&self.pages)
    }

    /// Returns the records in order of their numbers.
    pub(crate) fn iter(&self) -> Records<'_>
        ensures { result ≡ self.now.items }
    {
        Records {
            page: &[],
            pages: &self.pages,
        }
    }

    /// Takes the pages apart, and returns the records one by one, in order of their numbers.
    pub(crate) fn into_records(self) -> IntoRecords
        ensures { result ≡ self.items }
    {
        let alloc = *self.pages.allocator();
        IntoRecords {
            page: Vec::new(alloc).into_iter(),
            pages: self.pages.into_iter(),
        }
    }

    /// Returns the records with greater numbers, in order. It finds the first by binary search.
    pub(crate) fn after(&self, num: u64) -> Records<'_>
        requires { IsAscending self.now.items }
        ensures { result ≡ filter (λ r. nat_lt num r.num) self.now.items }
    {
        after_in(&self.pages, num)
    }

    /// Returns the record with a number. It uses binary search, first among the pages and then on
    /// one page.
    pub(crate) fn numbered(&self, num: u64) -> Option<&Record>
        requires { IsAscending self.now.items }
        ensures { option_copied result
            ≡ with_number num (slice_get self.now.items (count_below num self.now.items)) }
    {
        numbered_in(&self.pages, num)
    }

    /// Reserves memory for this many more records.
    pub(crate) fn reserve(&mut self, more: usize) -> Result<(), AllocError>
        ensures items { self.new.items ≡ self.old.items }
        ensures ok { OnOk result (more ≤ self.new.spare) }
        ensures kept { self.old.spare ≤ self.new.spare }
    {
        let empty = empty_in(&self.pages);
        if empty < more {
            let wanted = pages_for(more, weight_of(&self.pages));
            add_pages(&mut self.pages, wanted.saturating_sub(empty))?;
        }
        Ok(())
    }

    /// Frees all empty pages but one.
    pub(crate) fn release(&mut self)
        ensures items { self.new.items ≡ self.old.items }
        ensures spare { self.new.spare ≤ 16 }
        ensures kept { 1 ≤ self.old.spare → 1 ≤ self.new.spare }
    {
        keep_one(&mut self.pages);
    }

    /// Puts a record in its place, and returns the record that it replaces. There must be room for
    /// it, or a record with its number.
    pub(crate) fn replace(&mut self, added: Record) -> Option<Record>
        requires order { IsAscending self.old.items }
        requires room { with_number added.num
            (slice_get self.old.items (count_below added.num self.old.items)) ≡ None →
            1 ≤ self.old.spare }
        ensures items { self.new.items ≡ put_record added self.old.items }
        ensures room { self.old.spare ≤ self.new.spare + 1 }
        ensures replaced { let place = count_below added.num self.old.items
            in is_some (with_number added.num (slice_get self.old.items place)) ≡ true →
            self.new.spare ≡ self.old.spare }
        ensures was { result ≡ with_number added.num
            (slice_get self.old.items (count_below added.num self.old.items)) }
    {
        if numbered_in(&self.pages, added.num).is_none() {
            add_in(&mut self.pages, added);
            return None;
        }
        Some(exchange_in(&mut self.pages, added))
    }

    /// Puts a record behind all others.
    pub(crate) fn push(&mut self, added: Record) -> Result<(), AllocError>
        ensures ok { OnOk result (self.new.items ≡ self.old.items ++ added ∷ []) }
        ensures err { OnErr result (self.new.items ≡ self.old.items) }
    {
        push_in(&mut self.pages, added)
    }

    /// Replaces the record with this record's number, and returns the old one.
    pub(crate) fn exchange(&mut self, next: Record) -> Record
        requires order { IsAscending self.old.items }
        requires there { let place = count_below next.num self.old.items in
            is_some (with_number next.num (slice_get self.old.items place)) ≡ true }
        ensures items { self.new.items ≡ put_record next self.old.items }
        ensures spare { self.new.spare ≡ self.old.spare }
        ensures back { let place = count_below next.num self.old.items in
            with_number next.num (slice_get self.old.items place) ≡ Some result }
    {
        exchange_in(&mut self.pages, next)
    }

    /// Removes the record with a number.
    pub(crate) fn remove(&mut self, num: u64)
        requires { IsAscending self.old.items }
        ensures items { self.new.items ≡ filter (λ r. not (r.num == num)) self.old.items }
        ensures room { self.old.spare ≤ self.new.spare }
    {
        remove_in(&mut self.pages, num);
    }
}

impl Clone for Pages {
    ghost is_clone = { λ x y. y.items ≡ x.items };

    fn clone(&self) -> Result<Pages, AllocError> {
        Ok(Pages {
            pages: self.pages.clone()?,
        })
    }
}

/// The remaining records of some pages, in order, each owned.
#[derive(Drop)]
pub struct IntoRecords {
    page: vec::IntoIter<Record>,
    pages: vec::IntoIter<RecordPage>,
}

impl Model for IntoRecords {
    ghost use Rattle.std.specs.Prelude.{◌++◌, List};
    ghost use Rattle.state_forest.specs.declared.record.Record.{Record};
    ghost use Rattle.state_forest.specs.Pages.{records_in};

    ghost Value = { List Record };

    ghost view = { λ r. r.page.rest.items ++ records_in r.pages.rest.items };
}

fn first_taken(
    page: &mut vec::IntoIter<Record>,
    pages: &mut vec::IntoIter<RecordPage>,
) -> Option<Record>
    ensures { MatchOption result
        ((page.old.rest.items ++ records_in pages.old.rest.items ≡ [])
        × (page.new.rest.items ++ records_in pages.new.rest.items ≡ []))
        (λ r. page.old.rest.items ++ records_in pages.old.rest.items
        ≡ r ∷ (page.new.rest.items ++ records_in pages.new.rest.items)) }
{
    if let Some(first) = page.next() {
        return Some(first);
    }
    'over: while pages.len() > 0 {
        let Some(next) = pages.next() else {
            return None;
        };
        let mut records = next.into_records().into_iter();
        if let Some(first) = records.next() {
            *page = records;
            return Some(first);
        }
    }
    None
}

impl Iterator for IntoRecords {
    type Item = Record;

    ghost next_gives = { YieldsFirst (λ rest. rest) };

    ghost remaining = { item_count (λ rest. rest) };

    fn next(&mut self) -> Option<Record> {
        match first_taken(&mut self.page, &mut self.pages) {
            Some(first) => Some(first),
            None => None,
        }
    }
}
