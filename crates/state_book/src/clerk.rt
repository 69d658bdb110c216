// Clerks, which make calls and keep the receipts.
ghost use Rattle.std.specs.Prelude.{◌≡◌, ◌<◌, [], IfErr, IsSome, OnOk, length};
ghost use Rattle.state_book.specs.Clerks.{BookCalled, DeskCalled, IsEnteredBy, IsRefusedBy, last_reply};

use crate::desk::{Desk, DeskPass, Run};
use crate::receipts::{make_room, reply_of_last};
use crate::{Book, Call, Pass, Receipt, Reply};
use sqlite::Alter;
use state_facts::Refusal;
use std::alloc::Global;
use std::marker::Model;
use std::sync::Wait;

/// Makes calls and keeps their receipts.
pub trait Clerk {
    ghost use Rattle.std.specs.Prelude.{◌≡◌, ◌<◌, ℕ, List, Result, Ok, Err, MatchResult, length};
    ghost use Rattle.state_facts.specs.declared.refusal.Refusal.{Refusal as TheRefusal};
    ghost use Rattle.state_book.specs.declared.calls.Call.{Call as TheCall};
    ghost use Rattle.state_book.specs.declared.calls.Receipt.{Receipt as TheReceipt};
    ghost use Rattle.state_book.specs.declared.calls.Reply.{Reply as TheReply};
    ghost use Rattle.state_book.specs.Clerks.{IsOutcome, last_reply};

    /// The receipts of the clerk's calls, in order.
    ghost receipts: { Self → List TheReceipt };

    /// What is ensured of the clerk before and after one call at a moment with this result. Each
    /// clerk defines here what makes its replies true. It speaks of exactly one call: whatever
    /// satisfies it made that call once, and no other.
    ghost called: { (old new : Self) → TheCall → ℕ → Result TheReply TheRefusal → Type 0 };

    /// Makes a call at a moment and puts its receipt at the end of the list, or refuses it with E17
    /// to E21 and leaves the list unchanged. The result is lent by `reply`, not by this function. A
    /// reply lent by this function would tell a caller through this trait nothing, and no clause on
    /// it could say that the list grew by exactly that reply.
    fn call(&mut self, alloc: Global, call: Call, now: u64) -> Result<(), Refusal>
        ensures { MatchResult result (λ _. IsOutcome
            (receipts self.old) (receipts self.new) call (Ok (last_reply (receipts self.new)))
            × called self.old self.new call now (Ok (last_reply (receipts self.new))))
            (λ refusal. IsOutcome (receipts self.old) (receipts self.new) call (Err refusal)
            × called self.old self.new call now (Err refusal)) };

    fn reply(&self) -> &Reply
        requires { 0 < length (receipts self.now) }
        ensures { result.now ≡ last_reply (receipts self.now) };
}

/// A book with the pass of its run, and the receipts of the calls that were made with it.
#[derive(Drop)]
pub struct BookClerk<S: Alter> {
    book: Book<S>,
    pass: Pass,
    receipts: Vec<Receipt>,
}

impl<S: Alter> Model for BookClerk<S> {
    ghost use Rattle.std.specs.Prelude.{IsSome};
    ghost use Rattle.std.specs.Coded.{codes};
    ghost use Rattle.sqlite.specs.Held.{held_code};
    ghost use Rattle.state_book.specs.Clerks.{ClerkState};

    ghost Value = { ClerkState S };

    ghost coded = { Prim.hlevel (codes, held_code S.code) };

    ghost view = { λ c. record { book = c.book; seen = c.pass; receipts = c.receipts.items } };

    ghost invariant = { λ c. IsSome c.book.opening };
}

impl<S: Alter> BookClerk<S> {
    /// Makes a clerk without receipts, from a book in a run and a pass of that run.
    pub fn new(alloc: Global, book: Book<S>, pass: Pass) -> BookClerk<S>
        requires { IsSome book.opening }
        ensures { result ≡ record { book = book; seen = pass; receipts = [] } }
    {
        BookClerk {
            book,
            pass,
            receipts: Vec::new(alloc),
        }
    }

    /// Returns the book, the pass and the receipts.
    pub fn into_parts(self) -> (Book<S>, Pass, Vec<Receipt>)
        ensures { (result.0 ≡ self.book)
            × (result.1 ≡ self.seen) × (result.2.items ≡ self.receipts) }
    {
        let BookClerk {
            book,
            pass,
            receipts,
        } = self;
        (book, pass, receipts)
    }

    /// Makes a call at a moment, and puts its receipt at the end of the list. The room for the
    /// receipt is made before the call.
    fn enter(&mut self, alloc: Global, call: Call, now: u64) -> Result<(), Refusal>
        ensures entered { OnOk result (IsEnteredBy self.old self.new call now) }
        ensures refused { IfErr result (λ refusal. IsRefusedBy self.old self.new call refusal) }
    {
        if let Err(refusal) = make_room(&mut self.receipts) {
            return Err(refusal);
        }
        let receipt = match self.book.call(alloc, &mut self.pass, call, now) {
            Ok(receipt) => receipt,
            Err(refusal) => return Err(refusal),
        };
        self.receipts.push_reserved(receipt);
        Ok(())
    }
}

impl<S: Alter> Clerk for BookClerk<S> {
    ghost receipts = { λ c. c.receipts };

    ghost called = { BookCalled };

    fn call(&mut self, alloc: Global, call: Call, now: u64) -> Result<(), Refusal> {
        self.enter(alloc, call, now)
    }

    fn reply(&self) -> &Reply {
        reply_of_last(&self.receipts)
    }
}

/// A desk with a pass of it.
#[derive(Drop)]
pub struct DeskClerk<'a, J: Run, S: Alter, R: Wait> {
    rt: &'a R,
    desk: &'a Desk<J, S>,
    pass: DeskPass<J>,
}

impl<'a, J: Run, S: Alter, R: Wait> DeskClerk<'a, J, S, R> {
    /// Makes a clerk at a desk, with a pass of that desk.
    pub fn new(rt: &'a R, desk: &'a Desk<J, S>, pass: DeskPass<J>) -> DeskClerk<'a, J, S, R>
        ensures { result.pass ≡ pass }
    {
        DeskClerk { rt, desk, pass }
    }

    /// Returns the pass.
    pub fn into_pass(self) -> DeskPass<J>
        ensures { result ≡ self.entry.pass }
    {
        let DeskClerk {
            rt: _,
            desk: _,
            pass,
        } = self;
        pass
    }
}

impl<'a, J: Run, S: Alter, R: Wait> Clerk for DeskClerk<'a, J, S, R> {
    ghost receipts = { λ c. c.pass.receipts };

    ghost called = { λ old new. DeskCalled J.opening old.pass new.pass };

    fn call(&mut self, alloc: Global, call: Call, now: u64) -> Result<(), Refusal> {
        self.desk.call(alloc, self.rt, &mut self.pass, call, now)
    }

    fn reply(&self) -> &Reply {
        reply_of_last(self.pass.receipts())
    }
}
