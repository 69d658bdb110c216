// The book: what a node holds, its journal, and the trail of the current run.
ghost use Rattle.std.specs.Prelude.{◌≡◌, ◌≢◌, ◌+◌, ◌<◌, ◌≤◌, ◌⊎◌, ◌↔◌, ◌++◌, ◌∷◌, [], ℕ, None, false, true, IfErr, IfOk, IfSome, IsSome, IsTrue, MatchResult, OnErr, OnOk, length, vec_capacity};
ghost use Rattle.state_ids.specs.declared.TheConstants.{MAX_NODES};
ghost use Rattle.state_facts.specs.declared.refusal.Refusal.TheVariants.{BadFrame, JournalFailed, NoMemory};
ghost use Rattle.sqlite.specs.Held.{state};
ghost use Rattle.sqlite.specs.State.{HasCleanDisk, Survives};
ghost use Rattle.sqlite_disk.specs.Disk.{MoreFaults};
ghost use Rattle.sqlite.specs.Tree.{Trees};
ghost use Rattle.theory_history.specs.Views.{empty_view};
ghost use Rattle.theory_history.specs.Changes.{with_patch};
ghost use Rattle.state_replica.specs.Replicas.{Fits, view_of};
ghost use Rattle.state_book.specs.Books.{IsBegun, IsEntered, IsEnded, IsLegal, IsNotBegun, IsNotEntered, IsOpened, MayCommit, Stays, has_room_for, moves_in, refusal_at_once};
ghost use Rattle.state_journal.specs.Broken.{IsBrokenAt};
ghost use Rattle.state_journal.specs.Keeping.{IsOwn, Keeps};
ghost use Rattle.state_journal.specs.NewStores.{IsNew, MayLeaveOpened};
ghost use Rattle.state_journal.specs.Rewriting.{IsUnwritable};
ghost use Rattle.state_journal.specs.Ruled.{KeepsRules, KeepsRulesAs};
ghost use Rattle.state_journal.specs.Stands.{Stands, StandsAs};
ghost use Rattle.wire_frames.specs.declared.version.Version.{Version};
ghost use Rattle.state_journal.specs.Tables.{IsJournal};
ghost use Rattle.state_book.specs.Desks.{AreSeen, IsLostBelow};
ghost use Rattle.state_book.specs.Looks.{lesser, look_of, lost_from};
ghost use Rattle.state_book.specs.Next.{IsNext};
ghost use Rattle.state_book.specs.Trails.{entry, stands, tells};

use crate::preparing::{carry_out, prepare};
use crate::run_start::RunStart;
use crate::sameness::{same_call, same_reply};
use crate::{Call, Entry, Pass, Receipt, Reply};
use sqlite::{Alter, Connection};
use state_facts::Refusal;
use state_ids::{Front, NodeId};
use state_journal::Journal;
use state_replica::{Patch, Replica};
use std::alloc::{AllocError, Global};
use std::marker::Model;
use std::mem;

/// The greatest number of entries in a run.
pub const MAX_ENTRIES: usize = 1024;

/// The greatest number of entries in a run that move a frame.
pub const MAX_MOVES: usize = 16;

/// What a node holds and its journal, with the calls of the current run.
#[derive(Drop)]
pub struct Book<S: Alter> {
    me: NodeId,
    replica: Replica,
    journal: Journal<S>,
    opening: Option<RunStart>,
    trail: Vec<Entry>,
    stopped: bool,
}

impl<S: Alter> Model for Book<S> {
    ghost use Rattle.std.specs.Prelude.{◌≤◌, IsSome, option_map, vec_capacity};
    ghost use Rattle.state_replica.specs.Replicas.{view_of};
    ghost use Rattle.std.specs.Coded.{codes};
    ghost use Rattle.sqlite.specs.Held.{held_code};
    ghost use Rattle.state_book.specs.Books.{BookState, IsBook};

    ghost Value = { BookState S };

    ghost coded = { Prim.hlevel (codes, held_code S.code) };

    ghost view = { λ b. record {
      me = b.me;
      records = view_of b.replica;
      journal = b.journal;
      opening = option_map (λ s. s.held) b.opening;
      trail = b.trail.items;
      stopped = b.stopped;
    } };

    ghost invariant = { λ b.
        IsBook S.Store (record {
          me = b.me;
          records = view_of b.replica;
          journal = b.journal;
          opening = option_map (λ s. s.held) b.opening;
          trail = b.trail.items;
          stopped = b.stopped;
        })
        × (IsSome b.opening → 1024 ≤ vec_capacity b.trail) };
}

fn moves_in(trail: &[Entry]) -> usize
    ensures { result ≡ moves_in trail.now }
{
    let mut moves = 0;
    for entry in trail {
        if entry.call.is_move() {
            moves += 1;
        }
    }
    moves
}

fn has_room_for(trail: &[Entry], call: &Call) -> bool
    ensures { result ≡ has_room_for trail.now call.now }
{
    trail.len() < MAX_ENTRIES && (!call.is_move() || moves_in(trail) < MAX_MOVES)
}

/// A call that is ready to be carried out: its entry, a copy for the receipt, and what it changes,
/// if anything.
#[derive(Drop)]
struct Ready {
    entry: Entry,
    copy: CallAndReply,
    patch: Option<Patch>,
}

/// The call and the reply that a receipt will contain.
#[derive(Drop)]
struct CallAndReply {
    call: Call,
    reply: Reply,
}

/// Prepares a call, and makes the copies for its entry and its receipt. It fails only if memory
/// runs out.
fn make_ready(
    alloc: Global,
    replica: &mut Replica,
    me: NodeId,
    call: Call,
    now: u64,
) -> Result<Ready, Refusal>
    requires { me ≤ length replica.old.front }
    ensures view { view_of replica.new ≡ view_of replica.old }
    ensures room { IfOk result (λ ready. IfSome ready.patch (λ change. Fits change replica.new)) }
    ensures entry { IfOk result (λ ready. ready.entry ≡ entry call now ready.copy.reply) }
    ensures copy { IfOk result (λ ready. ready.copy.call ≡ call) }
    ensures next { IfOk result (λ ready. IsNext me (view_of replica.old) call now ready.copy.reply
        (with_patch ready.patch (view_of replica.old))) }
    ensures cause { IfErr result (λ refusal. refusal ≡ NoMemory) }
{
    let (first, second) = twice(&call)?;
    let step = prepare(alloc, replica, me, call, now)?;
    let reply = step.reply.clone()?;
    Ok(Ready {
        entry: Entry {
            call: first,
            moment: now,
            reply: step.reply,
        },
        copy: CallAndReply {
            call: second,
            reply,
        },
        patch: step.patch,
    })
}

fn twice(call: &Call) -> Result<(Call, Call), AllocError>
    ensures { IfOk result (λ copies. (copies.0 ≡ call.now) × (copies.1 ≡ call.now)) }
{
    Ok((call.clone()?, call.clone()?))
}

/// Whether a receipt has the same call and reply as an entry.
pub(crate) fn tells(entry: &Entry, receipt: &Receipt) -> bool
    ensures { result ≡ tells entry.now receipt.now }
{
    same_call(&entry.call, &receipt.call) && same_reply(&entry.reply, &receipt.reply)
}

/// Whether the trail's entry at the receipt's index has the receipt's call and reply.
pub(crate) fn stands(trail: &[Entry], receipt: &Receipt) -> bool
    ensures { result ≡ stands trail.now receipt.now }
{
    match trail.get(receipt.index as usize) {
        Some(entry) => tells(entry, receipt),
        None => false,
    }
}

fn lesser(index: u64, found: Option<u64>) -> u64
    ensures { result ≡ lesser index found }
{
    match found {
        Some(least) if least <= index => least,
        _ => index,
    }
}

fn lost_index(trail: &[Entry], receipts: &[Receipt]) -> Option<u64>
    ensures { result ≡ lost_from trail.now None receipts.now }
{
    let mut found = None;
    for receipt in receipts {
        if !stands(trail, receipt) {
            found = Some(lesser(receipt.index, found));
        }
    }
    found
}

impl<S: Alter> Book<S> {
    /// Opens the book of node `me`, for this many nodes, over its journal. No run has begun yet. A
    /// refusal returns the connection. This repeats the clauses of `Journal::open`, since nothing
    /// above a layer names the layer below it.
    pub fn open(
        alloc: Global,
        connection: Connection<S>,
        me: NodeId,
        nodes: usize,
    ) -> Result<Book<S>, (Refusal, Connection<S>)>
        requires me { me ≤ nodes }
        requires some { 1 ≤ nodes }
        requires nodes { nodes ≤ MAX_NODES }
        ensures opened { IfOk result (λ book. IsOpened me nodes book
            × (book.journal.opened ≡ connection)) }
        ensures rows { IfOk result (λ book. Keeps S.Store me book.journal book.records) }
        // A new store gets the rows of a view of no facts. From a journal's rows, in version 1 or
        // 2, the records are those that the rows stand for, by the rules of that version.
        ensures made { IfOk result (λ book. HasCleanDisk (state S.Store book.journal.connection) →
            IsNew (state S.Store connection) → book.records ≡ empty_view nodes) }
        ensures reads { IfOk result (λ book. HasCleanDisk (state S.Store book.journal.connection) →
            IsJournal (state S.Store connection) → (version : Version)
            × StandsAs version me (state S.Store connection).now.trees book.records
            × KeepsRulesAs version book.records) }
        // The records keep the rules by which rows are read. So rows that break them aren't opened,
        // if no row stands twice.
        ensures ruled { IfOk result (λ book. HasCleanDisk (state S.Store book.journal.connection) →
            IsOwn (state S.Store connection) → KeepsRules book.records) }
        // The reason for a refusal: the place where the rows break the format, out of memory, or
        // the database. What the connection shows is left unchanged, while the connection is open.
        ensures place { IfErr result (λ e. HasCleanDisk (state S.Store e.1) →
            IsJournal (state S.Store connection) → (k : ℕ) →
            e.0 ≡ BadFrame k → IsBrokenAt me nodes (state S.Store connection).now.trees k) }
        ensures unbroken { IfErr result (λ e. HasCleanDisk (state S.Store e.1) →
            IsNew (state S.Store connection) → (k : ℕ) → e.0 ≢ BadFrame k) }
        ensures unchanged { IfErr result (λ e. HasCleanDisk (state S.Store e.1) →
            IsOwn (state S.Store connection) → IsTrue (state S.Store e.1).is_open →
            (state S.Store e.1).now ≡ (state S.Store connection).now) }
        // A connection with a transaction on is refused before all else, and comes back as it was.
        ensures busy { connection.in_transaction ≡ true →
            MatchResult result (λ _. ⊥) (λ e. (e.0 ≡ JournalFailed) × (e.1 ≡ connection)) }
        // Otherwise E18 on a journal comes only if the disk failed, or if SQL refuses to rewrite
        // the rows of version 1.
        ensures failed { IfErr result (λ e. HasCleanDisk (state S.Store e.1) →
            IsJournal (state S.Store connection) → connection.in_transaction ≡ false →
            connection.step_limit ≡ None → e.0 ≡ JournalFailed →
            MoreFaults (state S.Store connection).faults (state S.Store e.1).faults
            ⊎ IsUnwritable me (state S.Store connection).now.trees) }
        ensures cause { IfErr result (λ e. (e.0 ≡ NoMemory)
            ⊎ ((e.0 ≡ JournalFailed) ⊎ ((k : ℕ) × (e.0 ≡ BadFrame k)))) }
        // For a journal of version 2, a stop leaves what it left before. For one of version 1 it
        // may also leave the rows in version 2, and for a new store the rows of a view of no facts.
        ensures crash { IfOk result
            (λ book. Survives (state S.Store connection) (state S.Store book.journal.connection)
            (MayLeaveOpened (state S.Store connection) me nodes)) }
        ensures crash_refused { IfErr result
            (λ e. Survives (state S.Store connection) (state S.Store e.1)
            (MayLeaveOpened (state S.Store connection) me nodes)) }
    {
        match Journal::open(alloc, connection, me, nodes) {
            Ok((journal, replica)) => Ok(Book {
                me,
                replica,
                journal,
                opening: None,
                trail: Vec::new(alloc),
                stopped: false,
            }),
            Err(refused) => Err(refused),
        }
    }

    /// Whether a run is going on.
    pub fn in_run(&self) -> bool
        ensures { IsTrue result ↔ IsSome self.now.opening }
    {
        self.opening.is_some()
    }

    /// Returns the calls of the current run, in order.
    pub fn trail(&self) -> &[Entry]
        ensures trail { result.now ≡ self.now.trail }
        ensures legal { IsLegal self.now }
    {
        &self.trail
    }

    /// Begins a run: empties the trail, reserves room for all entries of a run, and returns the
    /// run's first pass. The run's opening is what the node holds now, which only clauses read. E19
    /// if the journal failed.
    pub fn start_run(&mut self, alloc: Global) -> Result<Pass, Refusal>
        requires { self.old.opening ≡ None }
        ensures pass { IfOk result (λ pass. pass ≡ 0) }
        ensures begun { OnOk result (IsBegun self.old self.new) }
        ensures refused { IfErr result (λ refusal. IsNotBegun self.old refusal
            × (self.new ≡ self.old)) }
    {
        if self.stopped {
            return Err(Refusal::Stopped);
        }
        let trail = Vec::with_capacity(alloc, MAX_ENTRIES)?;
        self.opening = Some(RunStart::of(&self.replica));
        self.trail = trail;
        Ok(Pass::first())
    }

    fn refusal_at_once(&self, pass: &Pass, call: &Call) -> Option<Refusal>
        ensures { result ≡ refusal_at_once self.now pass.now call.now }
    {
        if self.stopped {
            return Some(Refusal::Stopped);
        }
        let count = self.trail.len() as u64;
        if count < pass.seen {
            return Some(Refusal::TrailLost(count));
        }
        if !has_room_for(&self.trail, call) {
            return Some(Refusal::RunFull);
        }
        None
    }

    /// Makes a call at a moment, and enters it with its reply. The call is prepared, stored,
    /// applied and entered, in this order. The receipt and the room for it exist before anything is
    /// stored.
    ///
    /// The first checks are, in this order: E19 if the journal failed before, E21 if the pass has
    /// seen more than the trail has, and E20 if the run has no room for the call. Later errors are
    /// E17, after which nothing has changed, and E18 if the journal refused, after which the book
    /// is stopped.
    pub fn call(
        &mut self,
        alloc: Global,
        pass: &mut Pass,
        call: Call,
        now: u64,
    ) -> Result<Receipt, Refusal>
        requires { IsSome self.old.opening }
        ensures entered { IfOk result
            (λ receipt. IsEntered self.old pass.old self.new call now receipt) }
        ensures legal { IsLegal self.new }
        // Whatever the result, the journal's rows stand for the records.
        ensures rows { Keeps S.Store self.new.me self.new.journal self.new.records }
        ensures first { self.new.journal.opened ≡ self.old.journal.opened }
        // A stop leaves what it left before, or rows for the next view.
        ensures crash { Survives (state S.Store self.old.journal.connection)
            (state S.Store self.new.journal.connection) (MayCommit S.Store self.old call now) }
        // While the connection is open, a stop leaves only rows for the records. So no answered
        // call is lost.
        ensures durable { HasCleanDisk (state S.Store self.new.journal.connection) →
            IsOwn (state S.Store self.new.journal.opened) →
            IsTrue (state S.Store self.new.journal.connection).is_open → (db : Trees) →
            (state S.Store self.new.journal.connection).may_leave db →
            Stands self.new.me db self.new.records }
        // If a call changed the records, the connection was open before it and still is.
        ensures open { HasCleanDisk (state S.Store self.new.journal.connection) →
            OnOk result ((self.new.records ≡ self.old.records)
            ⊎ (IsTrue (state S.Store self.old.journal.connection).is_open
            × IsTrue (state S.Store self.new.journal.connection).is_open)) }
        ensures seen { IfOk result (λ receipt. (pass.old ≤ receipt.index)
            × (pass.new ≡ receipt.index + 1)) }
        ensures refused { IfErr result
            (λ refusal. IsNotEntered self.old pass.old self.new call refusal) }
        ensures lost { IfErr result (IsLostBelow pass.old) }
        ensures kept { OnErr result (Stays self.old self.new × (pass.new ≡ pass.old)) }
    {
        if let Some(refusal) = self.refusal_at_once(pass, &call) {
            return Err(refusal);
        }
        let ready = match make_ready(alloc, &mut self.replica, self.me, call, now) {
            Ok(ready) => ready,
            Err(refusal) => return Err(refusal),
        };
        let Ready { entry, copy, patch } = ready;
        if let Err(refusal) = carry_out(alloc, &mut self.journal, &mut self.replica, patch) {
            self.stopped = refusal == Refusal::JournalFailed;
            return Err(refusal);
        }
        let index = self.trail.len() as u64;
        self.trail.push_reserved(entry);
        pass.seen = index + 1;
        Ok(Receipt {
            index,
            call: copy.call,
            reply: copy.reply,
        })
    }

    /// Checks whether the trail has everything that a pass has seen, and each of the pass's
    /// receipts. The checks are, in this order: E19 if the journal failed before; E21 with the
    /// trail's length if the pass has seen more than the trail has; and E21 with the least index of
    /// a receipt that isn't the trail's entry at its index.
    pub fn look(&self, pass: &Pass, receipts: &[Receipt]) -> Result<(), Refusal>
        ensures ok { OnOk result (look_of self.now pass.now receipts.now ≡ None) }
        ensures refused { IfErr result
            (λ refusal. look_of self.now pass.now receipts.now ≡ Some refusal) }
        // E21 is at a place that the pass has seen, if its receipts are of entries that it has
        // seen.
        ensures lost { AreSeen pass.now receipts.now → IfErr result (IsLostBelow pass.now) }
        ensures rows { Keeps S.Store self.now.me self.now.journal self.now.records }
    {
        if self.stopped {
            return Err(Refusal::Stopped);
        }
        let count = self.trail.len() as u64;
        if count < pass.seen {
            return Err(Refusal::TrailLost(count));
        }
        match lost_index(&self.trail, receipts) {
            Some(index) => Err(Refusal::TrailLost(index)),
            None => Ok(()),
        }
    }

    /// Ends the run, and returns its trail.
    pub(crate) fn end_run(&mut self) -> Vec<Entry>
        ensures trail { result.items ≡ self.old.trail }
        ensures legal { IsLegal self.old }
        ensures ended { IsEnded self.old self.new }
        ensures rows { Keeps S.Store self.new.me self.new.journal self.new.records }
    {
        let empty = Vec::new(*self.trail.allocator());
        self.opening = None;
        mem::replace(&mut self.trail, empty)
    }

    /// Returns the number of each node's facts that this node has.
    pub fn front(&self) -> Front
        ensures { result ≡ self.now.records.front }
    {
        self.replica.front()
    }

    /// Returns the connection, with the rows as they are.
    pub fn close(self) -> Connection<S>
        ensures connection { result ≡ self.journal.connection }
        ensures rows { Keeps S.Store self.me self.journal self.records }
    {
        self.journal.close()
    }
}
