// Rewriting the rows of a journal of version 1 in version 2.
ghost use Rattle.std.specs.Prelude.{◌≡◌, ◌<◌, None, false, true, IfErr, IsTrue, OnErr, OnOk};
ghost use Rattle.sqlite.specs.Held.{state};
ghost use Rattle.sqlite.specs.State.{HasCleanDisk, KeepsCommit, Survives};
ghost use Rattle.wire_frames.specs.declared.version.Version.TheVariants.{One};
ghost use Rattle.state_journal.specs.Rewriting.{MakesRow, RefusesOneOf, RefusesRewriting, Rewrites, all_records};
ghost use Rattle.state_journal.specs.Stands.{PutsRecord, Stands, StandsAs};
ghost use Rattle.state_journal.specs.Statements.{FailsFor};
ghost use Rattle.state_journal.specs.Tables.{GoesOn, IsJournal, IsWriting};
ghost use Rattle.state_journal.specs.Turns.{InTurn};
ghost use Rattle.state_replica.specs.Replicas.{records_in, view_of};

use crate::front_rows::VERSION;
use crate::patches::put_record;
use crate::selects::select_front;
use crate::steps::put_front;
use sqlite::{Alter, Connection, Error, Transaction};
use state_forest::{Forest, Records};
use state_ids::NodeId;
use state_replica::Replica;
use std::alloc::Global;

fn put_records<S: Alter>(
    alloc: Global,
    tx: &mut Transaction<'_, S>,
    records: Records<'_>,
) -> Result<(), Error>
    ensures same_reference { tx.new.conn.ghost_name ≡ tx.old.conn.ghost_name }
    ensures survives { Survives (state S.Store tx.old.conn.now) (state S.Store tx.new.conn.now)
        (λ _. ⊥) }
    ensures kept { HasCleanDisk (state S.Store tx.new.conn.now) →
        KeepsCommit (state S.Store tx.old.conn.now) (state S.Store tx.new.conn.now) }
    ensures ok { HasCleanDisk (state S.Store tx.new.conn.now) →
        IsWriting (state S.Store tx.old.conn.now) →
        OnOk result (GoesOn (InTurn PutsRecord records.entry)
        (state S.Store tx.old.conn.now) (state S.Store tx.new.conn.now)) }
    ensures made { HasCleanDisk (state S.Store tx.new.conn.now) →
        IsWriting (state S.Store tx.old.conn.now) →
        (state S.Store tx.old.conn.now).step_limit ≡ None →
        OnOk result (InTurn MakesRow records.entry (state S.Store tx.old.conn.now).now.trees
        (state S.Store tx.new.conn.now).now.trees) }
    ensures failed { HasCleanDisk (state S.Store tx.new.conn.now) →
        IsWriting (state S.Store tx.old.conn.now) →
        (state S.Store tx.old.conn.now).step_limit ≡ None →
        IfErr result (λ e. FailsFor e (state S.Store tx.old.conn.now).faults
        (state S.Store tx.new.conn.now).faults
        (RefusesOneOf records.entry (state S.Store tx.old.conn.now).now.trees)) }
{
    'records: for kept in records {
        put_record(alloc, tx, kept)?;
    }
    Ok(())
}

fn put_homes<S: Alter>(
    alloc: Global,
    tx: &mut Transaction<'_, S>,
    homes: &[Forest],
) -> Result<(), Error>
    ensures same_reference { tx.new.conn.ghost_name ≡ tx.old.conn.ghost_name }
    ensures survives { Survives (state S.Store tx.old.conn.now) (state S.Store tx.new.conn.now)
        (λ _. ⊥) }
    ensures kept { HasCleanDisk (state S.Store tx.new.conn.now) →
        KeepsCommit (state S.Store tx.old.conn.now) (state S.Store tx.new.conn.now) }
    ensures ok { HasCleanDisk (state S.Store tx.new.conn.now) →
        IsWriting (state S.Store tx.old.conn.now) →
        OnOk result (GoesOn (InTurn PutsRecord (all_records (records_in homes.now)))
        (state S.Store tx.old.conn.now) (state S.Store tx.new.conn.now)) }
    ensures made { HasCleanDisk (state S.Store tx.new.conn.now) →
        IsWriting (state S.Store tx.old.conn.now) →
        (state S.Store tx.old.conn.now).step_limit ≡ None →
        OnOk result (InTurn MakesRow (all_records (records_in homes.now)) (state S.Store tx.old.conn.now).now.trees
        (state S.Store tx.new.conn.now).now.trees) }
    ensures failed { HasCleanDisk (state S.Store tx.new.conn.now) →
        IsWriting (state S.Store tx.old.conn.now) →
        (state S.Store tx.old.conn.now).step_limit ≡ None →
        IfErr result (λ e. FailsFor e (state S.Store tx.old.conn.now).faults
        (state S.Store tx.new.conn.now).faults
        (RefusesOneOf (all_records (records_in homes.now)) (state S.Store tx.old.conn.now).now.trees)) }
{
    'homes: for home in homes {
        put_records(alloc, tx, home.records())?;
    }
    Ok(())
}

/// Writes the row of each record, and then that of the version. Records come from pages here, and
/// from a list in `put_patch`, so each has its own loop.
fn put_rows<S: Alter>(
    alloc: Global,
    tx: &mut Transaction<'_, S>,
    me: NodeId,
    replica: &Replica,
) -> Result<(), Error>
    ensures same_reference { tx.new.conn.ghost_name ≡ tx.old.conn.ghost_name }
    ensures survives { Survives (state S.Store tx.old.conn.now) (state S.Store tx.new.conn.now)
        (λ _. ⊥) }
    ensures kept { HasCleanDisk (state S.Store tx.new.conn.now) →
        KeepsCommit (state S.Store tx.old.conn.now) (state S.Store tx.new.conn.now) }
    ensures ok { HasCleanDisk (state S.Store tx.new.conn.now) →
        IsWriting (state S.Store tx.old.conn.now) →
        OnOk result (GoesOn (Rewrites me (view_of replica.now).records)
        (state S.Store tx.old.conn.now) (state S.Store tx.new.conn.now)) }
    ensures failed { HasCleanDisk (state S.Store tx.new.conn.now) →
        IsWriting (state S.Store tx.old.conn.now) →
        (state S.Store tx.old.conn.now).step_limit ≡ None →
        IfErr result (λ e. FailsFor e (state S.Store tx.old.conn.now).faults
        (state S.Store tx.new.conn.now).faults
        (RefusesRewriting me (view_of replica.now).records (state S.Store tx.old.conn.now).now.trees)) }
{
    put_homes(alloc, tx, replica.homes())?;
    put_front(tx, 0, u64::from(me.number()), VERSION)
}

/// Like `put_rows`. A connection that is shut was already refused by the question before this, so
/// nothing is said of one.
fn put_anew<S: Alter>(
    alloc: Global,
    tx: &mut Transaction<'_, S>,
    me: NodeId,
    replica: &Replica,
) -> Result<(), Error>
    ensures same_reference { tx.new.conn.ghost_name ≡ tx.old.conn.ghost_name }
    ensures survives { Survives (state S.Store tx.old.conn.now) (state S.Store tx.new.conn.now)
        (λ _. ⊥) }
    ensures kept { HasCleanDisk (state S.Store tx.new.conn.now) →
        (state S.Store tx.old.conn.now).in_transaction ≡ true →
        KeepsCommit (state S.Store tx.old.conn.now) (state S.Store tx.new.conn.now) }
    ensures open { HasCleanDisk (state S.Store tx.new.conn.now) →
        OnOk result (IsTrue (state S.Store tx.old.conn.now).is_open) }
    ensures ok { HasCleanDisk (state S.Store tx.new.conn.now) →
        IsWriting (state S.Store tx.old.conn.now) →
        OnOk result (GoesOn (Rewrites me (view_of replica.now).records)
        (state S.Store tx.old.conn.now) (state S.Store tx.new.conn.now)) }
    ensures failed { HasCleanDisk (state S.Store tx.new.conn.now) →
        IsWriting (state S.Store tx.old.conn.now) →
        (state S.Store tx.old.conn.now).step_limit ≡ None →
        IfErr result (λ e. FailsFor e (state S.Store tx.old.conn.now).faults
        (state S.Store tx.new.conn.now).faults
        (RefusesRewriting me (view_of replica.now).records (state S.Store tx.old.conn.now).now.trees)) }
{
    let _ = select_front(tx)?;
    put_rows(alloc, tx, me, replica)
}

#[tactic(auto, using(crate::proofs::StatementsFail::begun_failed, crate::proofs::StatementsFail::begun_free, crate::proofs::StatementsFail::begun_writing))]
fn write_anew<S: Alter>(
    alloc: Global,
    connection: &mut Connection<S>,
    me: NodeId,
    replica: &Replica,
) -> Result<(), Error>
    requires { connection.old.in_transaction ≡ false }
    ensures idle { connection.new.in_transaction ≡ false }
    ensures was_open { HasCleanDisk (state S.Store connection.new) →
        IsTrue (state S.Store connection.new).is_open →
        IsTrue (state S.Store connection.old).is_open }
    ensures open { HasCleanDisk (state S.Store connection.new) →
        OnOk result (IsTrue (state S.Store connection.old).is_open) }
    ensures ok { HasCleanDisk (state S.Store connection.new) →
        IsJournal (state S.Store connection.old) →
        OnOk result (IsJournal (state S.Store connection.new)
        × Rewrites me (view_of replica.now).records
        (state S.Store connection.old).now.trees (state S.Store connection.new).now.trees) }
    ensures kept { HasCleanDisk (state S.Store connection.new) →
        IsJournal (state S.Store connection.old) → IsTrue (state S.Store connection.new).is_open →
        OnErr result (((state S.Store connection.new).now ≡ (state S.Store connection.old).now)
        × ((state S.Store connection.new).committed ≡ (state S.Store connection.old).committed)) }
    ensures crash_open { Survives (state S.Store connection.old) (state S.Store connection.new)
        (λ _. IsTrue (state S.Store connection.old).is_open) }
    ensures crash { Survives (state S.Store connection.old) (state S.Store connection.new)
        (λ db. IsJournal (state S.Store connection.old) →
        Rewrites me (view_of replica.now).records (state S.Store connection.old).now.trees db) }
    ensures failed { HasCleanDisk (state S.Store connection.new) →
        IsJournal (state S.Store connection.old) → connection.old.step_limit ≡ None →
        IfErr result (λ e. FailsFor e (state S.Store connection.old).faults
        (state S.Store connection.new).faults
        (RefusesRewriting me (view_of replica.now).records (state S.Store connection.old).now.trees)) }
{
    let mut tx = connection.transaction();
    put_anew(alloc, &mut tx, me, replica)?;
    tx.commit()
}

/// Rewrites the rows of version 1 that stand for a replica in version 2, in one transaction. E17
/// and E18 leave them as they were, or the connection is shut.
pub(crate) fn rewrite<S: Alter>(
    alloc: Global,
    connection: &mut Connection<S>,
    me: NodeId,
    replica: &Replica,
) -> Result<(), Error>
    requires { connection.old.in_transaction ≡ false }
    ensures idle { connection.new.in_transaction ≡ false }
    ensures was_open { HasCleanDisk (state S.Store connection.new) →
        IsTrue (state S.Store connection.new).is_open →
        IsTrue (state S.Store connection.old).is_open }
    ensures open { HasCleanDisk (state S.Store connection.new) →
        OnOk result (IsTrue (state S.Store connection.old).is_open) }
    ensures stands { HasCleanDisk (state S.Store connection.new) →
        IsJournal (state S.Store connection.old) →
        StandsAs One me (state S.Store connection.old).now.trees (view_of replica.now) →
        OnOk result (IsJournal (state S.Store connection.new)
        × Stands me (state S.Store connection.new).now.trees (view_of replica.now)) }
    ensures kept { HasCleanDisk (state S.Store connection.new) →
        IsJournal (state S.Store connection.old) → IsTrue (state S.Store connection.new).is_open →
        OnErr result (((state S.Store connection.new).now ≡ (state S.Store connection.old).now)
        × ((state S.Store connection.new).committed ≡ (state S.Store connection.old).committed)) }
    ensures crash { Survives (state S.Store connection.old) (state S.Store connection.new)
        (λ db. IsTrue (state S.Store connection.old).is_open ×
        (IsJournal (state S.Store connection.old) →
        StandsAs One me (state S.Store connection.old).now.trees (view_of replica.now) →
        Stands me db (view_of replica.now))) }
    // It fails only if memory runs out, if the disk fails, or if SQL refuses one of the rows.
    ensures failed { HasCleanDisk (state S.Store connection.new) →
        IsJournal (state S.Store connection.old) → connection.old.step_limit ≡ None →
        IfErr result (λ e. FailsFor e (state S.Store connection.old).faults
        (state S.Store connection.new).faults
        (RefusesRewriting me (view_of replica.now).records (state S.Store connection.old).now.trees)) }
{
    write_anew(alloc, connection, me, replica)
}
