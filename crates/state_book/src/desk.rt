// The desk: a book under one lock, and the passes of the threads that share it.
ghost use Rattle.std.specs.Prelude.{◌≡◌, ◌+◌, ◌-◌, ◌<◌, ◌≤◌, ◌==◌, ◌++◌, ◌∷◌, [], None, Some, IfErr, IfNone, IfOk, IfSome, IsTrue, OnErr, OnOk, count_by, flat_map, length, slice_get, sum_by, vec_len};
ghost use Rattle.state_facts.specs.declared.refusal.Refusal.TheVariants.{NoMemory};
ghost use Rattle.sqlite.specs.Held.{state};
ghost use Rattle.sqlite.specs.State.{HasCleanDisk};
ghost use Rattle.sqlite.specs.Tree.{Trees};
ghost use Rattle.state_journal.specs.Keeping.{IsOwn, Keeps};
ghost use Rattle.state_journal.specs.Stands.{Stands};
ghost use Rattle.state_book.specs.Clerks.{IsOfClerk};
ghost use Rattle.state_book.specs.Looks.{IsRefusedAt};
ghost use Rattle.state_book.specs.Desks.{AreNew, AreSeen, HasTrail, IsCalled, IsLostBelow, first_stray, first_strange, names, new_pass, strange_of};
ghost use Rattle.state_book.specs.Trails.{LeadsTo};

use crate::book::{stands, tells};
use crate::receipts::make_room;
use crate::{Book, Call, Entry, Pass, Receipt};
use sqlite::Alter;
use state_facts::Refusal;
use std::alloc::{AllocError, Global};
use std::marker::{Brand, Model};
use std::sync::ledger::{Blank, Ledger, Share};
use std::sync::{Mutex, Wait, ledger};

/// Identifies a run: its ledger, its node, the view that the node had when the run began, and
/// whether it is known that the journal was opened on a store of its own. An implementation that
/// claims the last must prove it. No clause of the server needs it, so only `test_calls` claims it.
pub trait Run: Ledger {
    ghost use Rattle.state_book.specs.Desks.{Opening};

    ghost opening: { Opening };
}

impl Run for Brand {
    ghost use Rattle.std.specs.Prelude.{false};

    ghost opening = { record
        { node = 0; view = record { front = []; purges = []; records = [] }; own = false } };
}

/// What a thread keeps of its calls: what it has seen, its share of the run's ledger, and its
/// receipts.
#[derive(Drop)]
pub struct DeskPass<J: Run> {
    pass: Pass,
    share: Share<J>,
    receipts: Vec<Receipt>,
}

impl<J: Run> Model for DeskPass<J> {
    ghost use Rattle.std.specs.Prelude.{◌≡◌, length};
    ghost use Rattle.state_book.specs.Desks.{AreSeen, PassState};

    ghost Value = { PassState };

    ghost view = { λ p.
        record { seen = p.pass; share = p.share.amount; receipts = p.receipts.items } };

    ghost invariant = { λ p. (p.share.parts ≡ 1)
        × (p.share.amount ≡ length p.receipts.items) × AreSeen p.pass p.receipts.items };
}

/// What lies under the lock: the book, whose run is going on, and the count of its calls.
#[derive(Drop)]
pub(crate) struct Locked<J: Run, S: Alter> {
    book: Book<S>,
    calls: ledger::Book<J>,
}

impl<J: Run, S: Alter> Model for Locked<J, S> {
    ghost use Rattle.std.specs.Prelude.{◌≡◌, IsTrue, Some, length};
    ghost use Rattle.std.specs.Coded.{codes};
    ghost use Rattle.sqlite.specs.Held.{held_code, state};
    ghost use Rattle.state_journal.specs.Keeping.{IsOwn};
    ghost use Rattle.state_book.specs.Books.{BookState};

    ghost Value = { BookState S };

    ghost coded = { Prim.hlevel (codes, held_code S.code) };

    ghost view = { λ l. l.book };

    ghost invariant = { λ l. (l.book.opening ≡ Some J.opening.view)
        × (l.book.me ≡ J.opening.node) × (length l.book.trail ≡ l.calls.total)
        × (IsTrue J.opening.own → IsOwn (state S.Store l.book.journal.opened)) };
}

// Only here, under the lock, do clauses say exactly why a call is refused. Outside, a pass doesn't
// know how many calls the others made, so a desk that claims to be full at a hundred receipts could
// be proved as well. Tests therefore provoke E19 to E21 by their causes.
impl<J: Run, S: Alter> Locked<J, S> {
    fn enter(
        &mut self,
        alloc: Global,
        pass: &mut Pass,
        share: &mut Share<J>,
        receipts: &[Receipt],
        call: Call,
        now: u64,
    ) -> Result<Receipt, Refusal>
        requires { 0 < share.old.parts }
        ensures trail { IfOk result (λ r. HasTrail J.opening (receipts.now ++ r ∷ []) call now r) }
        ensures seen { IfOk result (λ r. (pass.old ≤ r.index) × (pass.new ≡ r.index + 1)) }
        ensures counted { OnOk result (share.new.amount ≡ share.old.amount + 1) }
        ensures parts { share.new.parts ≡ share.old.parts }
        ensures kept { OnErr result ((pass.new ≡ pass.old)
            × (share.new.amount ≡ share.old.amount)) }
        ensures lost { AreSeen pass.old receipts.now → IfErr result (IsLostBelow pass.old) }
        // While the connection is open, a stop leaves only rows for the records.
        ensures durable { HasCleanDisk (state S.Store self.new.journal.connection) →
            IsOwn (state S.Store self.new.journal.opened) →
            IsTrue (state S.Store self.new.journal.connection).is_open → (db : Trees) →
            (state S.Store self.new.journal.connection).may_leave db →
            Stands self.new.me db self.new.records }
        // The refusal is what a look finds, or else the book's refusal of the call.
        ensures refused { IfErr result
            (IsRefusedAt self.old pass.old receipts.now self.new call) }
    {
        if let Err(refusal) = self.book.look(pass, receipts) {
            return Err(refusal);
        }
        let receipt = match self.book.call(alloc, pass, call, now) {
            Ok(receipt) => receipt,
            Err(refusal) => return Err(refusal),
        };
        self.calls.add(share, 1);
        Ok(receipt)
    }
}

/// A book that threads share.
#[derive(Drop)]
pub struct Desk<J: Run, S: Alter> {
    locked: Mutex<Locked<J, S>>,
}

fn new_pass<J: Run>(alloc: Global, share: Share<J>) -> DeskPass<J>
    requires { (share.parts ≡ 1) × (share.amount ≡ 0) }
    ensures { result ≡ new_pass }
{
    DeskPass {
        pass: Pass::first(),
        share,
        receipts: Vec::new(alloc),
    }
}

#[tactic(auto, using(crate::proofs::NewPasses::are_new_push))]
fn passes<J: Run>(
    alloc: Global,
    mut all: Share<J>,
    workers: usize,
) -> Result<Vec<DeskPass<J>>, AllocError>
    requires parts { all.parts ≡ workers }
    requires amount { all.amount ≡ 0 }
    requires some { 1 ≤ workers }
    ensures { IfOk result (λ v. (vec_len v ≡ workers) × AreNew v.items) }
{
    let mut made = Vec::with_capacity(alloc, workers)?;
    for _i in 1..workers {
        let share = all.split_off(1, 0);
        made.push(new_pass(alloc, share))?;
    }
    made.push(new_pass(alloc, all))?;
    Ok(made)
}

fn merge_shares<J: Run>(mut passes: Vec<DeskPass<J>>) -> Option<Share<J>>
    ensures some { IfSome result (λ s. (s.parts ≡ vec_len passes)
        × (s.amount ≡ sum_by (λ p. p.share) passes.items)) }
    ensures none { IfNone result (vec_len passes ≡ 0) }
{
    let DeskPass {
        pass: _,
        share: mut all,
        receipts: _,
    } = passes.pop()?;
    while let Some(next) = passes.pop() {
        let DeskPass {
            pass: _,
            share,
            receipts: _,
        } = next;
        all.merge(share);
    }
    Some(all)
}

fn names(index: u64, entry: &Entry, receipt: &Receipt) -> bool
    ensures { result ≡ names index entry.now receipt.now }
{
    receipt.index == index && tells(entry, receipt)
}

fn count_in(receipts: &[Receipt], index: u64, entry: &Entry) -> usize
    ensures { result ≡ count_by (names index entry.now) receipts.now }
{
    let mut count = 0;
    for receipt in receipts {
        if names(index, entry, receipt) {
            count += 1;
        }
    }
    count
}

fn is_named_once<J: Run>(passes: &[DeskPass<J>], index: u64, entry: &Entry) -> bool
    ensures { result ≡ (sum_by (λ p. count_by (names index entry.now) p.receipts) passes.now == 1) }
{
    let mut count = 0;
    for pass in passes {
        count = 2.min(count + 2.min(count_in(pass.receipts(), index, entry)));
    }
    count == 1
}

/// Returns the first entry that isn't named exactly once.
fn strange_entry<J: Run>(trail: &[Entry], passes: &[DeskPass<J>]) -> Option<u64>
    ensures { result ≡ first_strange 0 trail.now (flat_map (λ p. p.receipts) passes.now) }
{
    for (index, entry) in trail.iter().enumerate() {
        if !is_named_once(passes, index as u64, entry) {
            return Some(index as u64);
        }
    }
    None
}

fn stray_in(trail: &[Entry], receipts: &[Receipt]) -> Option<u64>
    ensures { result ≡ first_stray trail.now receipts.now }
{
    for receipt in receipts {
        if !stands(trail, receipt) {
            return Some(receipt.index);
        }
    }
    None
}

fn stray<J: Run>(trail: &[Entry], passes: &[DeskPass<J>]) -> Option<u64>
    ensures { result ≡ first_stray trail.now (flat_map (λ p. p.receipts) passes.now) }
{
    for pass in passes {
        match stray_in(trail, pass.receipts()) {
            Some(index) => return Some(index),
            None => {}
        }
    }
    None
}

/// Checks whether the receipts are the trail's entries, each once.
fn compare<J: Run>(trail: &[Entry], passes: &[DeskPass<J>]) -> Result<(), Refusal>
    ensures ok { OnOk result (strange_of trail.now (flat_map (λ p. p.receipts) passes.now) ≡ None) }
    ensures err { IfErr result
        (λ refusal. strange_of trail.now (flat_map (λ p. p.receipts) passes.now) ≡ Some refusal) }
{
    if let Some(index) = strange_entry(trail, passes) {
        return Err(Refusal::Strange(index));
    }
    if let Some(index) = stray(trail, passes) {
        return Err(Refusal::Strange(index));
    }
    Ok(())
}

impl<J: Run> DeskPass<J> {
    /// Returns the receipts of this pass's calls, in order.
    pub fn receipts(&self) -> &[Receipt]
        ensures { result.now ≡ self.now.receipts }
    {
        self.receipts.as_slice()
    }

    /// Returns the receipt of this pass's last call.
    pub fn last(&self) -> &Receipt
        requires { 0 < length self.now.receipts }
        ensures { slice_get self.now.receipts (length self.now.receipts - 1) ≡ Some result.now }
    {
        &self.receipts[self.receipts.len() - 1]
    }
}

impl<J: Run, S: Alter> Desk<J, S> {
    /// Makes a desk over a book whose run has begun, and a pass for each worker. E17 returns the
    /// book.
    pub fn new(
        alloc: Global,
        book: Book<S>,
        blank: Blank,
        workers: usize,
    ) -> Result<(Desk<J, S>, Vec<DeskPass<J>>), (Refusal, Book<S>)>
        requires run { (book.opening ≡ Some J.opening.view)
            × (book.me ≡ J.opening.node) × (book.trail ≡ []) }
        requires name { blank.name ≡ J.name }
        requires parts { (blank.parts ≡ J.parts) × (blank.parts ≡ workers) × (1 ≤ workers) }
        requires own { IsTrue J.opening.own → IsOwn (state S.Store book.journal.opened) }
        ensures passes { IfOk result (λ r. (vec_len r.1 ≡ workers) × AreNew r.1.items) }
        ensures refused { IfErr result (λ e. (e.0 ≡ NoMemory) × (e.1 ≡ book)) }
    {
        let (calls, all) = blank.open::<J>();
        match passes(alloc, all, workers) {
            Ok(made) => Ok((
                Desk {
                    locked: Mutex::new(Locked { book, calls }),
                },
                made,
            )),
            Err(_) => Err((Refusal::NoMemory, book)),
        }
    }

    /// Makes a call at a moment, and puts its receipt at the end of the pass's list. The room for
    /// the receipt is made before the lock is taken. E17 to E21 leave the pass unchanged.
    pub fn call<R: Wait>(
        &self,
        alloc: Global,
        rt: &R,
        mine: &mut DeskPass<J>,
        call: Call,
        now: u64,
    ) -> Result<(), Refusal>
        ensures called { OnOk result (IsCalled J.opening mine.old mine.new call now) }
        ensures kept { OnErr result (mine.new ≡ mine.old) }
        ensures refused { IfErr result IsOfClerk }
        // E21 is at a place that the pass has seen.
        ensures lost { IfErr result (IsLostBelow mine.old.seen) }
    {
        let DeskPass {
            pass,
            share,
            receipts,
        } = mine;
        if let Err(refusal) = make_room(receipts) {
            return Err(refusal);
        }
        let entered = self
            .locked
            .lock(rt)
            .enter(alloc, pass, share, receipts.as_slice(), call, now);
        let receipt = match entered {
            Ok(receipt) => receipt,
            Err(refusal) => return Err(refusal),
        };
        receipts.push_reserved(receipt);
        Ok(())
    }

    /// Ends the run, given all passes that `new` returned. Returns the book, the trail, and whether
    /// the receipts are the trail's entries, each once: E22 at the place where they differ.
    pub fn close(self, passes: Vec<DeskPass<J>>) -> (Book<S>, Vec<Entry>, Result<(), Refusal>)
        requires all { (vec_len passes ≡ J.parts) × (1 ≤ vec_len passes) }
        ensures legal { LeadsTo J.opening.node J.opening.view result.1.items result.0.records }
        ensures counted { length result.1.items ≡ sum_by (λ p. p.share) passes.items }
        ensures ended { (result.0.opening ≡ None) × (result.0.me ≡ J.opening.node) }
        // The journal's rows stand for the records, if it was opened on a store of its own.
        ensures rows { Keeps S.Store result.0.me result.0.journal result.0.records }
        ensures own { IsTrue J.opening.own → IsOwn (state S.Store result.0.journal.opened) }
        ensures ok { OnOk result.2
            (strange_of result.1.items (flat_map (λ p. p.receipts) passes.items) ≡ None) }
        ensures err { IfErr result.2 (λ refusal.
            strange_of result.1.items (flat_map (λ p. p.receipts) passes.items) ≡ Some refusal) }
    {
        let Desk { locked } = self;
        let Locked {
            mut book,
            mut calls,
        } = locked.into_inner();
        let trail = book.end_run();
        let found = compare(trail.as_slice(), passes.as_slice());
        if let Some(mut all) = merge_shares(passes) {
            calls.audit(&mut all);
        }
        (book, trail, found)
    }
}
