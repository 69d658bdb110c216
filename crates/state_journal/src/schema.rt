// Making the two tables of a new store, with the rows of a view of no facts.
ghost use Rattle.std.specs.Prelude.{◌≡◌, ◌≤◌, false, true, IfErr, IfOk, IsTrue, OnErr, OnOk};
ghost use Rattle.sqlite.specs.Held.{state};
ghost use Rattle.sqlite.specs.State.{HasCleanDisk, KeepsCommit, Survives};
ghost use Rattle.state_ids.specs.declared.TheConstants.{MAX_NODES};
ghost use Rattle.theory_history.specs.Views.{empty_view};
ghost use Rattle.state_journal.specs.Tables.{GoesOn, IsJournal, IsWriting};
ghost use Rattle.state_journal.specs.NewStores.{Empties, HasFrontTable, IsHalfMade, IsMaking, IsNew, IsThere, MayLeaveNew, SetsNone};
ghost use Rattle.state_journal.specs.Stands.{Stands};

use crate::front_rows::VERSION;
use crate::patches::put_fronts;
use crate::steps::put_front;
use sqlite::{Alter, Connection, Error, ErrorCode, Transaction};
use state_ids::{Front, NodeId};

fn create_front<S: Alter>(tx: &mut Transaction<'_, S>) -> Result<(), Error>
    ensures same_reference { tx.new.conn.ghost_name ≡ tx.old.conn.ghost_name }
    ensures survives { Survives (state S.Store tx.old.conn.now) (state S.Store tx.new.conn.now)
        (λ _. ⊥) }
    ensures kept { HasCleanDisk (state S.Store tx.new.conn.now) →
        KeepsCommit (state S.Store tx.old.conn.now) (state S.Store tx.new.conn.now) }
    ensures made { HasCleanDisk (state S.Store tx.new.conn.now) →
        IsMaking (state S.Store tx.old.conn.now) → OnOk result
        (HasFrontTable (state S.Store tx.old.conn.now) (state S.Store tx.new.conn.now)) }
    ensures again { HasCleanDisk (state S.Store tx.new.conn.now) →
        IsThere (state S.Store tx.old.conn.now) → OnOk result ⊥ }
{
    tx.execute(
        "CREATE TABLE front (origin INTEGER PRIMARY KEY, held INTEGER NOT NULL, purged INTEGER NOT NULL)",
        &[],
    )?;
    Ok(())
}

fn create_lra<S: Alter>(tx: &mut Transaction<'_, S>) -> Result<(), Error>
    ensures same_reference { tx.new.conn.ghost_name ≡ tx.old.conn.ghost_name }
    ensures survives { Survives (state S.Store tx.old.conn.now) (state S.Store tx.new.conn.now)
        (λ _. ⊥) }
    ensures kept { HasCleanDisk (state S.Store tx.new.conn.now) →
        KeepsCommit (state S.Store tx.old.conn.now) (state S.Store tx.new.conn.now) }
    ensures made { HasCleanDisk (state S.Store tx.new.conn.now) →
        IsHalfMade (state S.Store tx.old.conn.now) → OnOk result
        (GoesOn Empties (state S.Store tx.old.conn.now) (state S.Store tx.new.conn.now)) }
{
    tx.execute(
        "CREATE TABLE lra (home INTEGER NOT NULL, num INTEGER NOT NULL, body BLOB NOT NULL, PRIMARY KEY (home, num))",
        &[],
    )?;
    Ok(())
}

fn create_tables<S: Alter>(tx: &mut Transaction<'_, S>) -> Result<(), Error>
    ensures same_reference { tx.new.conn.ghost_name ≡ tx.old.conn.ghost_name }
    ensures survives { Survives (state S.Store tx.old.conn.now) (state S.Store tx.new.conn.now)
        (λ _. ⊥) }
    ensures kept { HasCleanDisk (state S.Store tx.new.conn.now) →
        KeepsCommit (state S.Store tx.old.conn.now) (state S.Store tx.new.conn.now) }
    ensures made { HasCleanDisk (state S.Store tx.new.conn.now) →
        IsMaking (state S.Store tx.old.conn.now) → OnOk result
        (GoesOn Empties (state S.Store tx.old.conn.now) (state S.Store tx.new.conn.now)) }
    ensures again { HasCleanDisk (state S.Store tx.new.conn.now) →
        IsThere (state S.Store tx.old.conn.now) → OnOk result ⊥ }
{
    create_front(tx)?;
    create_lra(tx)
}

fn put_rows<S: Alter>(tx: &mut Transaction<'_, S>, me: NodeId, nodes: usize) -> Result<(), Error>
    requires some { 1 ≤ nodes }
    requires few { nodes ≤ MAX_NODES }
    ensures same_reference { tx.new.conn.ghost_name ≡ tx.old.conn.ghost_name }
    ensures survives { Survives (state S.Store tx.old.conn.now) (state S.Store tx.new.conn.now)
        (λ _. ⊥) }
    ensures kept { HasCleanDisk (state S.Store tx.new.conn.now) →
        KeepsCommit (state S.Store tx.old.conn.now) (state S.Store tx.new.conn.now) }
    ensures put { HasCleanDisk (state S.Store tx.new.conn.now) →
        IsWriting (state S.Store tx.old.conn.now) → OnOk result (GoesOn
        (SetsNone me nodes) (state S.Store tx.old.conn.now) (state S.Store tx.new.conn.now)) }
{
    let none = Front::zero(nodes);
    put_front(tx, 0, u64::from(me.number()), VERSION)?;
    put_fronts(tx, &none, &none)
}

/// Returns false, because the tables were not made, unless the error is that memory ran out.
fn not_made(error: Error) -> Result<bool, Error>
    ensures made { IfOk result (λ made. made ≡ false) }
    ensures memory { IfErr result (λ e. e ≡ Error.SqliteFailure ErrorCode.OutOfMemory) }
{
    if error == Error::SqliteFailure(ErrorCode::OutOfMemory) {
        return Err(error);
    }
    Ok(false)
}

/// Makes both tables with the rows of a node that has no facts, in one transaction, and returns
/// whether it did. If one of the tables is already there, the store stays as it was. Each opening
/// tries this, and so needs no query of the schema.
pub fn make<S: Alter>(
    connection: &mut Connection<S>,
    me: NodeId,
    nodes: usize,
) -> Result<bool, Error>
    requires idle { connection.old.in_transaction ≡ false }
    requires some { 1 ≤ nodes }
    requires few { nodes ≤ MAX_NODES }
    ensures idle { connection.new.in_transaction ≡ false }
    ensures made { HasCleanDisk (state S.Store connection.new) →
        IsNew (state S.Store connection.old) →
        IfOk result (λ made. made ≡ true → IsJournal (state S.Store connection.new)
        × Stands me (state S.Store connection.new).now.trees (empty_view nodes)) }
    ensures there { HasCleanDisk (state S.Store connection.new) →
        IsJournal (state S.Store connection.old) → IfOk result (λ made. made ≡ false) }
    ensures left { HasCleanDisk (state S.Store connection.new) →
        (state S.Store connection.old).now ≡ (state S.Store connection.old).committed →
        IsTrue (state S.Store connection.new).is_open → IfOk result (λ made. made ≡ false →
        ((state S.Store connection.new).now ≡ (state S.Store connection.old).now)
        × ((state S.Store connection.new).committed ≡ (state S.Store connection.old).committed)) }
    ensures refused { HasCleanDisk (state S.Store connection.new) →
        IsNew (state S.Store connection.old) → IsTrue (state S.Store connection.new).is_open →
        OnErr result ((state S.Store connection.new).now ≡ (state S.Store connection.old).now) }
    ensures refused_again { HasCleanDisk (state S.Store connection.new) →
        IsJournal (state S.Store connection.old) → IsTrue (state S.Store connection.new).is_open →
        OnErr result ((state S.Store connection.new).now ≡ (state S.Store connection.old).now) }
    // If both tables are there, it fails only if memory runs out.
    ensures memory { HasCleanDisk (state S.Store connection.new) →
        IsJournal (state S.Store connection.old) →
        IfErr result (λ e. e ≡ Error.SqliteFailure ErrorCode.OutOfMemory) }
    ensures crash { Survives (state S.Store connection.old) (state S.Store connection.new)
        (MayLeaveNew (state S.Store connection.old) me nodes) }
{
    let mut tx = connection.transaction();
    if let Err(error) = create_tables(&mut tx) {
        return not_made(error);
    }
    put_rows(&mut tx, me, nodes)?;
    tx.commit()?;
    Ok(true)
}
