// The journal of a replica.
ghost use Rattle.std.specs.Prelude.{◌≡◌, ◌≢◌, ◌≤◌, ◌⊎◌, ℕ, None, false, true, IfErr, IfOk, IsTrue, MatchResult, OnErr, OnOk, length};
ghost use Rattle.sqlite.specs.Held.{state};
ghost use Rattle.sqlite.specs.State.{HasCleanDisk, Survives};
ghost use Rattle.sqlite_disk.specs.Disk.{MoreFaults};
ghost use Rattle.sqlite.specs.Tree.{Trees};
ghost use Rattle.state_ids.specs.declared.TheConstants.{MAX_NODES};
ghost use Rattle.state_facts.specs.declared.refusal.Refusal.TheVariants.{BadFrame, JournalFailed, NoMemory};
ghost use Rattle.theory_history.specs.Changes.{patched};
ghost use Rattle.theory_history.specs.Views.{View, empty_view};
ghost use Rattle.wire_frames.specs.declared.version.Version.{Version};
ghost use Rattle.state_journal.specs.Broken.{IsBrokenAt};
ghost use Rattle.state_journal.specs.Keeping.{IsCounted, IsOwn, Keeps};
ghost use Rattle.state_journal.specs.NewStores.{IsNew, MayLeaveOpened};
ghost use Rattle.state_journal.specs.Rewriting.{IsUnwritable};
ghost use Rattle.state_journal.specs.Ruled.{KeepsRules, KeepsRulesAs};
ghost use Rattle.state_journal.specs.Stands.{IsPatchOf, Stands, StandsAs};
ghost use Rattle.state_journal.specs.Tables.{IsJournal};
ghost use Rattle.state_replica.specs.Replicas.{view_of};

use crate::first::First;
use crate::open::{read_or_make_replica, refusal_of};
use crate::store::write_patch;
use sqlite::{Alter, Connection, Error, ErrorCode};
use state_facts::Refusal;
use state_ids::NodeId;
use state_replica::{Patch, Replica};
use std::alloc::Global;
use std::marker::Model;

/// The journal of a replica: a connection to its rows. It also has, for clauses only, the state of
/// the connection when the journal was opened, and a count of the refusals of `sqlite` since then,
/// except for those because memory ran out.
#[derive(Drop)]
pub struct Journal<S: Alter> {
    connection: Connection<S>,
    opened: First<S>,
    refusals: u64,
}

impl<S: Alter> Model for Journal<S> {
    ghost use Rattle.std.specs.Prelude.{◌≡◌, false};
    ghost use Rattle.std.specs.Coded.{codes};
    ghost use Rattle.sqlite.specs.Held.{held_code};
    ghost use Rattle.state_journal.specs.Keeping.{JournalState};

    ghost Value = { JournalState S };

    ghost coded = { Prim.hlevel (codes, held_code S.code) };

    ghost view = { λ j.
        record { connection = j.connection; opened = j.opened.held; refusals = j.refusals } };

    ghost invariant = { λ j. j.connection.in_transaction ≡ false };
}

impl<S: Alter> Journal<S> {
    /// Opens the journal of a node, for this many nodes. A store without tables gets them, with the
    /// rows of a node that has no facts. Otherwise the replica is read from the rows, and rows of
    /// version 1 are rewritten in version 2, in one transaction.
    ///
    /// Errors: E16 at the place of the first row that breaks the format, also if it is of another
    /// node, number of nodes or version; E17, which leaves a new store as it was; E18 if a
    /// transaction is on or the rows can't be read. Each refusal returns the connection. Of E18
    /// because of a third table only the clauses `cause` and `busy` speak.
    pub fn open(
        alloc: Global,
        mut connection: Connection<S>,
        me: NodeId,
        nodes: usize,
    ) -> Result<(Journal<S>, Replica), (Refusal, Connection<S>)>
        requires some { 1 ≤ nodes }
        requires few { nodes ≤ MAX_NODES }
        ensures begins { IfOk result (λ r. (r.0.opened ≡ connection) × (r.0.refusals ≡ 0)) }
        ensures counted { IfOk result (λ r. length r.1.front ≡ nodes) }
        // A new store gets the rows of a view of no facts, and the replica has no facts.
        ensures made { IfOk result (λ r. HasCleanDisk (state S.Store r.0.connection) →
            IsNew (state S.Store connection) → (view_of r.1 ≡ empty_view nodes)
            × Stands me (state S.Store r.0.connection).now.trees (empty_view nodes)) }
        // From a journal's rows the replica is the one that they stand for, in version 1 or 2, by
        // the rules of that version. So nothing is made up that rows of version 1 can't say: nobody
        // listens, and nobody was told.
        ensures reads { IfOk result (λ r. HasCleanDisk (state S.Store r.0.connection) →
            IsJournal (state S.Store connection) → (version : Version)
            × StandsAs version me (state S.Store connection).now.trees (view_of r.1)
            × KeepsRulesAs version (view_of r.1)) }
        // The replica keeps the rules by which rows are read. So rows that break them aren't
        // opened, if no row stands twice.
        ensures ruled { IfOk result (λ r. HasCleanDisk (state S.Store r.0.connection) →
            IsOwn (state S.Store connection) → KeepsRules (view_of r.1)) }
        // For a book: the journal keeps the replica's view, in version 2.
        ensures keeps { IfOk result (λ r. Keeps S.Store me r.0 (view_of r.1)) }
        // The place where the rows break the format.
        ensures place { IfErr result (λ e. HasCleanDisk (state S.Store e.1) →
            IsJournal (state S.Store connection) → (k : ℕ) →
            e.0 ≡ BadFrame k → IsBrokenAt me nodes (state S.Store connection).now.trees k) }
        // The rows of a new store never break it.
        ensures unbroken { IfErr result (λ e. HasCleanDisk (state S.Store e.1) →
            IsNew (state S.Store connection) → (k : ℕ) → e.0 ≢ BadFrame k) }
        // A refusal leaves what the connection shows unchanged, while the connection is open.
        ensures unchanged { IfErr result (λ e. HasCleanDisk (state S.Store e.1) →
            IsOwn (state S.Store connection) → IsTrue (state S.Store e.1).is_open →
            (state S.Store e.1).now ≡ (state S.Store connection).now) }
        // A connection with a transaction on is refused before all else, and comes back as it was.
        ensures busy { connection.in_transaction ≡ true →
            MatchResult result (λ _. ⊥) (λ e. (e.0 ≡ JournalFailed) × (e.1 ≡ connection)) }
        // Otherwise E18 on a journal comes only if the disk failed, or if SQL refuses to rewrite
        // the rows of version 1: a table that holds the greatest row id takes no further row. Only
        // the kit's count applies here, since without a journal there is no counter of its own.
        ensures failed { IfErr result (λ e. HasCleanDisk (state S.Store e.1) →
            IsJournal (state S.Store connection) → connection.in_transaction ≡ false →
            connection.step_limit ≡ None → e.0 ≡ JournalFailed →
            MoreFaults (state S.Store connection).faults (state S.Store e.1).faults
            ⊎ IsUnwritable me (state S.Store connection).now.trees) }
        ensures cause { IfErr result (λ e. (e.0 ≡ NoMemory)
            ⊎ ((e.0 ≡ JournalFailed) ⊎ ((k : ℕ) × (e.0 ≡ BadFrame k)))) }
        // For a journal of version 2, a stop leaves what it left before. For one of version 1 it
        // may also leave the rows in version 2, and for a new store the rows of a view of no facts.
        ensures crash { IfOk result
            (λ r. Survives (state S.Store connection) (state S.Store r.0.connection)
            (MayLeaveOpened (state S.Store connection) me nodes)) }
        ensures crash_refused { IfErr result
            (λ e. Survives (state S.Store connection) (state S.Store e.1)
            (MayLeaveOpened (state S.Store connection) me nodes)) }
    {
        let first = First::of(&connection);
        match read_or_make_replica(alloc, &mut connection, me, nodes) {
            Ok(replica) => Ok((
                Journal {
                    connection,
                    opened: first,
                    refusals: 0,
                },
                replica,
            )),
            Err(refusal) => Err((refusal, connection)),
        }
    }

    /// Returns E17 if memory ran out. Otherwise it counts the refusal, and returns E18.
    fn refuse(&mut self, error: Error) -> Refusal
        ensures connection { self.new.connection ≡ self.old.connection }
        ensures opened { self.new.opened ≡ self.old.opened }
        ensures cause { ((result ≡ NoMemory) × (error ≡ Error.SqliteFailure ErrorCode.OutOfMemory)
            × (self.new.refusals ≡ self.old.refusals))
            ⊎ ((result ≡ JournalFailed) × (error ≢ Error.SqliteFailure ErrorCode.OutOfMemory)
            × IsCounted self.old.refusals self.new.refusals) }
    {
        let refusal = refusal_of(error);
        if refusal == Refusal::JournalFailed {
            self.refusals = self.refusals.saturating_add(1);
        }
        refusal
    }

    /// Applies a patch to the rows, in one transaction. E17 and E18 leave them as they were, or the
    /// connection is shut. It costs a statement for each record of the patch and for each node.
    pub fn store(&mut self, alloc: Global, patch: &Patch) -> Result<(), Refusal>
        ensures opened { self.new.opened ≡ self.old.opened }
        // The view for which the rows stand afterwards.
        ensures stands { (me : ℕ) (view : View) → HasCleanDisk (state S.Store self.new.connection) →
            IsJournal (state S.Store self.old.connection) →
            Stands me (state S.Store self.old.connection).now.trees view →
            IsPatchOf view patch.now → OnOk result (IsJournal (state S.Store self.new.connection)
            × Stands me (state S.Store self.new.connection).now.trees (patched patch.now view)) }
        // After a refusal the rows are as they were.
        ensures unchanged { HasCleanDisk (state S.Store self.new.connection) →
            IsJournal (state S.Store self.old.connection) →
            IsTrue (state S.Store self.new.connection).is_open → OnErr result
            (((state S.Store self.new.connection).now ≡ (state S.Store self.old.connection).now)
            × ((state S.Store self.new.connection).committed
            ≡ (state S.Store self.old.connection).committed)) }
        // Ok is returned only if the connection was open, and then it still is.
        ensures open { HasCleanDisk (state S.Store self.new.connection) →
            OnOk result (IsTrue (state S.Store self.old.connection).is_open
            × IsTrue (state S.Store self.new.connection).is_open) }
        // For a book: the journal keeps the patched view, or the old view after a refusal.
        ensures stored { (me : ℕ) (view : View) →
            Keeps S.Store me self.old view → IsPatchOf view patch.now →
            OnOk result (Keeps S.Store me self.new (patched patch.now view)) }
        ensures kept { (me : ℕ) (view : View) → Keeps S.Store me self.old view →
            OnErr result (Keeps S.Store me self.new view) }
        // A stop leaves what it left before, or rows of the patched view.
        ensures crash { Survives
            (state S.Store self.old.connection) (state S.Store self.new.connection)
            (λ db. IsJournal (state S.Store self.old.connection) →
            (me : ℕ) (view : View) → Stands me (state S.Store self.old.connection).now.trees view →
            IsPatchOf view patch.now → Stands me db (patched patch.now view)) }
        // So it leaves rows of the old view or of the patched view.
        ensures stops { (me : ℕ) (view : View) → HasCleanDisk (state S.Store self.new.connection) →
            IsJournal (state S.Store self.old.connection) →
            Stands me (state S.Store self.old.connection).now.trees view →
            IsPatchOf view patch.now →
            (db : Trees) → (state S.Store self.new.connection).may_leave db →
            Stands me db view ⊎ Stands me db (patched patch.now view) }
        // Once the patch is stored, a stop leaves exactly what is shown.
        ensures durable { HasCleanDisk (state S.Store self.new.connection) →
            IsJournal (state S.Store self.old.connection) →
            OnOk result ((db : _) → (state S.Store self.new.connection).may_leave db →
            db ≡ (state S.Store self.new.connection).now.trees) }
        // Which refusal it is. The count rises only with E18.
        ensures cause { MatchResult result (λ _. self.new.refusals ≡ self.old.refusals)
            (λ refusal. ((refusal ≡ NoMemory) × (self.new.refusals ≡ self.old.refusals))
            ⊎ ((refusal ≡ JournalFailed) × IsCounted self.old.refusals self.new.refusals)) }
    {
        match write_patch(alloc, &mut self.connection, patch) {
            Ok(()) => Ok(()),
            Err(error) => Err(self.refuse(error)),
        }
    }

    /// Returns the connection, with its rows as they are.
    pub fn close(self) -> Connection<S>
        ensures connection { result ≡ self.connection }
        ensures idle { result.in_transaction ≡ false }
    {
        let Journal {
            connection,
            opened: _,
            refusals: _,
        } = self;
        connection
    }
}
