// Opening a journal over the connection that it takes.
ghost use Rattle.std.specs.Prelude.{◌≡◌, ◌≢◌, ◌≤◌, ◌⊎◌, ℕ, Err, None, false, true, IfErr, IfNone, IfOk, IfSome, IsTrue, OnErr, OnOk, length};
ghost use Rattle.sqlite.specs.Held.{state};
ghost use Rattle.sqlite.specs.State.{HasCleanDisk, Survives};
ghost use Rattle.sqlite_disk.specs.Disk.{MoreFaults};
ghost use Rattle.state_ids.specs.declared.TheConstants.{MAX_NODES};
ghost use Rattle.state_facts.specs.declared.refusal.Refusal.TheVariants.{BadFrame, JournalFailed, NoMemory};
ghost use Rattle.theory_history.specs.Views.{empty_view};
ghost use Rattle.state_journal.specs.Broken.{IsBrokenAt};
ghost use Rattle.state_journal.specs.Keeping.{IsOwn};
ghost use Rattle.wire_frames.specs.declared.version.Version.{Version as TheVersion};
ghost use Rattle.wire_frames.specs.declared.version.Version.TheVariants.{One};
ghost use Rattle.state_journal.specs.NewStores.{IsNew, MayLeaveNew, MayLeaveOpened};
ghost use Rattle.state_journal.specs.Rewriting.{IsUnwritable, RefusesRewriting};
ghost use Rattle.state_journal.specs.Ruled.{KeepsRules, KeepsRulesAs};
ghost use Rattle.state_journal.specs.Stands.{KeepsView, Stands, StandsAs};
ghost use Rattle.state_journal.specs.Tables.{IsJournal};
ghost use Rattle.state_replica.specs.Replicas.{view_of};

use crate::rewriting::rewrite;
use crate::rows::read_rows;
use crate::schema::make;
use crate::selects::select;
use sqlite::{Alter, Connection, Error, ErrorCode};
use state_facts::Refusal;
use state_ids::NodeId;
use state_replica::Replica;
use std::alloc::Global;
use wire_frames::Version;

/// Returns E17 if memory ran out, otherwise E18.
pub(crate) fn refusal_of(error: Error) -> Refusal
    ensures { ((result ≡ NoMemory) × (error ≡ Error.SqliteFailure ErrorCode.OutOfMemory))
        ⊎ ((result ≡ JournalFailed) × (error ≢ Error.SqliteFailure ErrorCode.OutOfMemory)) }
{
    if error == Error::SqliteFailure(ErrorCode::OutOfMemory) {
        return Refusal::NoMemory;
    }
    Refusal::JournalFailed
}

fn is_ready<S: Alter>(connection: &Connection<S>) -> bool
    ensures idle { IsTrue result → connection.now.in_transaction ≡ false }
    ensures busy { result ≡ false → connection.now.in_transaction ≡ true }
    ensures settled { IsTrue result → IsTrue (state S.Store connection.now).is_open →
        (state S.Store connection.now).now ≡ (state S.Store connection.now).committed }
{
    connection.is_autocommit()
}

/// Returns the replica whose rows a connection has, with their version. For a new store it makes
/// the rows of a replica without facts, and returns `None`.
fn read_or_make<S: Alter>(
    alloc: Global,
    connection: &mut Connection<S>,
    me: NodeId,
    nodes: usize,
) -> Result<Option<(Version, Replica)>, Refusal>
    requires idle { connection.old.in_transaction ≡ false }
    requires some { 1 ≤ nodes }
    requires few { nodes ≤ MAX_NODES }
    ensures idle { connection.new.in_transaction ≡ false }
    ensures crash { Survives (state S.Store connection.old) (state S.Store connection.new)
        (MayLeaveNew (state S.Store connection.old) me nodes) }
    // A new store gets the rows of a view of no facts, and is not read.
    ensures made { HasCleanDisk (state S.Store connection.new) →
        IsNew (state S.Store connection.old) →
        IfOk result (λ read. (read ≡ None) × IsJournal (state S.Store connection.new)
        × Stands me (state S.Store connection.new).now.trees (empty_view nodes)) }
    // From a journal's rows the replica is the one that they stand for, and it keeps the rules of
    // their version.
    ensures reads { HasCleanDisk (state S.Store connection.new) →
        IsJournal (state S.Store connection.old) → IfOk result (λ read. IfSome read (λ r.
        StandsAs r.0 me (state S.Store connection.old).now.trees (view_of r.1)) × IfNone read ⊥) }
    ensures ruled { HasCleanDisk (state S.Store connection.new) →
        IsJournal (state S.Store connection.old) →
        IfOk result (λ read. IfSome read (λ r. KeepsRulesAs r.0 (view_of r.1))) }
    // The rows are as they were. After a refusal, so is what is shown.
    ensures same { HasCleanDisk (state S.Store connection.new) →
        IsJournal (state S.Store connection.old) → IsTrue (state S.Store connection.new).is_open →
        OnOk result (((state S.Store connection.new).now ≡ (state S.Store connection.old).now)
        × ((state S.Store connection.new).committed ≡ (state S.Store connection.old).committed)) }
    ensures unchanged { HasCleanDisk (state S.Store connection.new) →
        (state S.Store connection.old).now ≡ (state S.Store connection.old).committed →
        IsOwn (state S.Store connection.old) → IsTrue (state S.Store connection.new).is_open →
        OnErr result ((state S.Store connection.new).now ≡ (state S.Store connection.old).now) }
    ensures counted { IfOk result (λ read. IfSome read (λ r. length r.1.front ≡ nodes)) }
    // The place where the rows break the format.
    ensures place { HasCleanDisk (state S.Store connection.new) →
        IsJournal (state S.Store connection.old) → IfErr result (λ refusal. (k : ℕ) →
        refusal ≡ BadFrame k → IsBrokenAt me nodes (state S.Store connection.old).now.trees k) }
    // E18 comes only if the disk failed.
    ensures failed { HasCleanDisk (state S.Store connection.new) →
        IsJournal (state S.Store connection.old) → connection.old.step_limit ≡ None →
        IfErr result (λ refusal. refusal ≡ JournalFailed → MoreFaults
        (state S.Store connection.old).faults (state S.Store connection.new).faults) }
    // The rows of a new store never break it.
    ensures unbroken { HasCleanDisk (state S.Store connection.new) →
        IsNew (state S.Store connection.old) →
        IfErr result (λ refusal. (k : ℕ) → refusal ≢ BadFrame k) }
    ensures cause { IfErr result (λ refusal. (refusal ≡ NoMemory)
        ⊎ ((refusal ≡ JournalFailed) ⊎ ((k : ℕ) × (refusal ≡ BadFrame k)))) }
{
    let made = match make(connection, me, nodes) {
        Ok(made) => made,
        Err(error) => return Err(refusal_of(error)),
    };
    if made {
        return Ok(None);
    }
    let (front, lra) = match select(connection) {
        Ok(rows) => rows,
        Err(error) => return Err(refusal_of(error)),
    };
    match read_rows(alloc, &front, &lra, me, nodes) {
        Ok(read) => Ok(Some(read)),
        Err(refusal) => Err(refusal),
    }
}

/// Returns the replica that was read from rows of this version, once its rows are of version 2.
fn renew_rows<S: Alter>(
    alloc: Global,
    connection: &mut Connection<S>,
    me: NodeId,
    version: Version,
    replica: Replica,
) -> Result<Replica, Refusal>
    requires { connection.old.in_transaction ≡ false }
    ensures idle { connection.new.in_transaction ≡ false }
    ensures same { IfOk result (λ kept. kept ≡ replica) }
    ensures was_open { HasCleanDisk (state S.Store connection.new) →
        IsTrue (state S.Store connection.new).is_open →
        IsTrue (state S.Store connection.old).is_open }
    ensures stands { HasCleanDisk (state S.Store connection.new) →
        IsJournal (state S.Store connection.old) → IsTrue (state S.Store connection.new).is_open →
        StandsAs version me (state S.Store connection.old).now.trees (view_of replica) →
        OnOk result (IsJournal (state S.Store connection.new)
        × Stands me (state S.Store connection.new).now.trees (view_of replica)) }
    ensures kept { HasCleanDisk (state S.Store connection.new) →
        IsJournal (state S.Store connection.old) → IsTrue (state S.Store connection.new).is_open →
        OnErr result ((state S.Store connection.new).now ≡ (state S.Store connection.old).now) }
    ensures cause { IfErr result (λ refusal. (refusal ≡ NoMemory) ⊎ (refusal ≡ JournalFailed)) }
    ensures failed { HasCleanDisk (state S.Store connection.new) →
        IsJournal (state S.Store connection.old) → connection.old.step_limit ≡ None →
        IfErr result (λ refusal. refusal ≡ JournalFailed → MoreFaults
        (state S.Store connection.old).faults (state S.Store connection.new).faults
        ⊎ RefusesRewriting me (view_of replica).records (state S.Store connection.old).now.trees) }
    ensures first { OnErr result (version ≡ One) }
    ensures crash { Survives (state S.Store connection.old) (state S.Store connection.new)
        (λ db. (version ≡ One) × IsTrue (state S.Store connection.old).is_open
        × (IsJournal (state S.Store connection.old) →
        StandsAs One me (state S.Store connection.old).now.trees (view_of replica) →
        Stands me db (view_of replica))) }
{
    match version {
        Version::Two => Ok(replica),
        Version::One => match rewrite(alloc, connection, me, &replica) {
            Ok(()) => Ok(replica),
            Err(error) => Err(refusal_of(error)),
        },
    }
}

/// Returns the replica whose rows a connection has. For a new store it makes the rows of a replica
/// without facts, and returns that. The replica's room is taken before anything is written, so that
/// a new store stays new after each refusal.
pub(crate) fn read_or_make_replica<S: Alter>(
    alloc: Global,
    connection: &mut Connection<S>,
    me: NodeId,
    nodes: usize,
) -> Result<Replica, Refusal>
    requires some { 1 ≤ nodes }
    requires few { nodes ≤ MAX_NODES }
    ensures idle { OnOk result (connection.new.in_transaction ≡ false) }
    ensures crash { Survives (state S.Store connection.old) (state S.Store connection.new)
        (MayLeaveOpened (state S.Store connection.old) me nodes) }
    ensures counted { IfOk result (λ replica. length replica.front ≡ nodes) }
    // A new store gets these rows, and the replica has no facts.
    ensures made { HasCleanDisk (state S.Store connection.new) →
        IsNew (state S.Store connection.old) → IfOk result
        (λ replica. (view_of replica ≡ empty_view nodes) × IsJournal (state S.Store connection.new)
        × Stands me (state S.Store connection.new).now.trees (empty_view nodes)) }
    // From a journal's rows the replica is the one that they stand for, in version 1 or 2, by the
    // rules of that version.
    ensures reads { HasCleanDisk (state S.Store connection.new) →
        IsJournal (state S.Store connection.old) → IfOk result (λ replica. (version : TheVersion)
        × StandsAs version me (state S.Store connection.old).now.trees (view_of replica)
        × KeepsRulesAs version (view_of replica)) }
    // The replica keeps the rules by which rows are read.
    ensures ruled { HasCleanDisk (state S.Store connection.new) →
        IsOwn (state S.Store connection.old) →
        IfOk result (λ replica. KeepsRules (view_of replica)) }
    // Afterwards the rows are of version 2. After a refusal what is shown is as it was.
    ensures keeps { IfOk result (λ replica. IsOwn (state S.Store connection.old) →
        KeepsView me (state S.Store connection.new) (view_of replica)) }
    ensures unchanged { HasCleanDisk (state S.Store connection.new) →
        (state S.Store connection.old).now ≡ (state S.Store connection.old).committed →
        IsOwn (state S.Store connection.old) → IsTrue (state S.Store connection.new).is_open →
        OnErr result ((state S.Store connection.new).now ≡ (state S.Store connection.old).now) }
    // The place where the rows break the format. In a new store they don't.
    ensures place { HasCleanDisk (state S.Store connection.new) →
        IsJournal (state S.Store connection.old) → IfErr result (λ refusal. (k : ℕ) →
        refusal ≡ BadFrame k → IsBrokenAt me nodes (state S.Store connection.old).now.trees k) }
    ensures unbroken { HasCleanDisk (state S.Store connection.new) →
        IsNew (state S.Store connection.old) →
        IfErr result (λ refusal. (k : ℕ) → refusal ≢ BadFrame k) }
    // If a transaction is on, the call is refused before all else, and the transaction goes on.
    // Otherwise E18 on a journal comes only if the disk failed, or if SQL refuses to rewrite the
    // rows of version 1.
    ensures busy { connection.old.in_transaction ≡ true →
        (result ≡ Err JournalFailed) × (connection.new ≡ connection.old) }
    ensures failed { HasCleanDisk (state S.Store connection.new) →
        IsJournal (state S.Store connection.old) → connection.old.in_transaction ≡ false →
        connection.old.step_limit ≡ None →
        IfErr result (λ refusal. refusal ≡ JournalFailed → MoreFaults
        (state S.Store connection.old).faults (state S.Store connection.new).faults
        ⊎ IsUnwritable me (state S.Store connection.old).now.trees) }
    ensures cause { IfErr result (λ refusal. (refusal ≡ NoMemory)
        ⊎ ((refusal ≡ JournalFailed) ⊎ ((k : ℕ) × (refusal ≡ BadFrame k)))) }
{
    if !is_ready(connection) {
        return Err(Refusal::JournalFailed);
    }
    let empty = Replica::new(alloc, nodes)?;
    let read = read_or_make(alloc, connection, me, nodes)?;
    match read {
        Some((version, replica)) => renew_rows(alloc, connection, me, version, replica),
        None => Ok(empty),
    }
}
