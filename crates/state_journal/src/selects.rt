// The two SELECT statements.
ghost use Rattle.std.specs.Prelude.{◌≡◌, ◌⊎◌, None, false, true, IfErr, IfOk, IsTrue};
ghost use Rattle.sqlite.specs.Held.{state};
ghost use Rattle.sqlite.specs.State.{HasCleanDisk, KeepsCommit, Survives};
ghost use Rattle.sqlite_disk.specs.Disk.{MoreFaults};
ghost use Rattle.state_journal.specs.Listings.{AreFrontRows, AreLraRows};
ghost use Rattle.state_journal.specs.Schema.{journal_schema, no_schema};

use sqlite::{Alter, Connection, Error, ErrorCode, Row, Transaction};

/// Selects the rows of `front`.
pub fn select_front<S: Alter>(tx: &mut Transaction<'_, S>) -> Result<Vec<Row>, Error>
    ensures same_reference { tx.new.conn.ghost_name ≡ tx.old.conn.ghost_name }
    ensures survives { Survives (state S.Store tx.old.conn.now) (state S.Store tx.new.conn.now)
        (λ _. ⊥) }
    ensures kept { HasCleanDisk (state S.Store tx.new.conn.now) →
        (state S.Store tx.old.conn.now).in_transaction ≡ true →
        KeepsCommit (state S.Store tx.old.conn.now) (state S.Store tx.new.conn.now) }
    ensures inside { HasCleanDisk (state S.Store tx.new.conn.now) →
        (state S.Store tx.old.conn.now).in_transaction ≡ true →
        IfOk result (λ rows. (state S.Store tx.new.conn.now).in_transaction ≡ true) }
    ensures listed { HasCleanDisk (state S.Store tx.new.conn.now) →
        (state S.Store tx.old.conn.now).now.schema ≡ journal_schema →
        IfOk result (λ rows. AreFrontRows (state S.Store tx.old.conn.now).now.trees rows.items) }
    ensures same { HasCleanDisk (state S.Store tx.new.conn.now) →
        (state S.Store tx.old.conn.now).now.schema ≡ journal_schema → IfOk result
        (λ rows. (state S.Store tx.new.conn.now).now ≡ (state S.Store tx.old.conn.now).now) }
    ensures was_open { HasCleanDisk (state S.Store tx.new.conn.now) →
        IfOk result (λ rows. IsTrue (state S.Store tx.old.conn.now).is_open) }
    ensures none { HasCleanDisk (state S.Store tx.new.conn.now) →
        (state S.Store tx.old.conn.now).now.schema ≡ no_schema → IfOk result (λ rows. ⊥) }
    ensures still { HasCleanDisk (state S.Store tx.new.conn.now) →
        (state S.Store tx.old.conn.now).now.schema ≡ journal_schema →
        IfOk result (λ rows. IsTrue (state S.Store tx.new.conn.now).is_open) }
    ensures refused { HasCleanDisk (state S.Store tx.new.conn.now) →
        IsTrue (state S.Store tx.old.conn.now).is_open →
        (state S.Store tx.old.conn.now).now.schema ≡ journal_schema →
        (state S.Store tx.old.conn.now).step_limit ≡ None →
        IfErr result (λ e. (e ≡ Error.SqliteFailure ErrorCode.OutOfMemory)
        ⊎ MoreFaults (state S.Store tx.old.conn.now).faults
        (state S.Store tx.new.conn.now).faults) }
{
    tx.query_all(
        "SELECT origin, held, purged FROM front ORDER BY origin",
        &[],
    )
}

/// Selects the rows of `lra`.
pub fn select_lra<S: Alter>(tx: &mut Transaction<'_, S>) -> Result<Vec<Row>, Error>
    ensures same_reference { tx.new.conn.ghost_name ≡ tx.old.conn.ghost_name }
    ensures survives { Survives (state S.Store tx.old.conn.now) (state S.Store tx.new.conn.now)
        (λ _. ⊥) }
    ensures kept { HasCleanDisk (state S.Store tx.new.conn.now) →
        (state S.Store tx.old.conn.now).in_transaction ≡ true →
        KeepsCommit (state S.Store tx.old.conn.now) (state S.Store tx.new.conn.now) }
    ensures listed { HasCleanDisk (state S.Store tx.new.conn.now) →
        (state S.Store tx.old.conn.now).now.schema ≡ journal_schema →
        IfOk result (λ rows. AreLraRows (state S.Store tx.old.conn.now).now.trees rows.items) }
    ensures same { HasCleanDisk (state S.Store tx.new.conn.now) →
        (state S.Store tx.old.conn.now).now.schema ≡ journal_schema → IfOk result
        (λ rows. (state S.Store tx.new.conn.now).now ≡ (state S.Store tx.old.conn.now).now) }
    ensures refused { HasCleanDisk (state S.Store tx.new.conn.now) →
        IsTrue (state S.Store tx.old.conn.now).is_open →
        (state S.Store tx.old.conn.now).now.schema ≡ journal_schema →
        (state S.Store tx.old.conn.now).step_limit ≡ None →
        IfErr result (λ e. (e ≡ Error.SqliteFailure ErrorCode.OutOfMemory)
        ⊎ MoreFaults (state S.Store tx.old.conn.now).faults
        (state S.Store tx.new.conn.now).faults) }
{
    tx.query_all("SELECT home, num, body FROM lra ORDER BY home, num", &[])
}

/// Selects the rows of both tables, as they are at one moment. It doesn't change what a stop
/// leaves.
pub fn select<S: Alter>(connection: &mut Connection<S>) -> Result<(Vec<Row>, Vec<Row>), Error>
    requires { connection.old.in_transaction ≡ false }
    ensures idle { connection.new.in_transaction ≡ false }
    ensures survives { Survives (state S.Store connection.old) (state S.Store connection.new)
        (λ _. ⊥) }
    ensures still { HasCleanDisk (state S.Store connection.new) →
        IsTrue (state S.Store connection.new).is_open →
        IsTrue (state S.Store connection.old).is_open }
    ensures same { HasCleanDisk (state S.Store connection.new) → (state S.Store connection.old).now
        ≡ (state S.Store connection.old).committed → IsTrue (state S.Store connection.new).is_open →
        ((state S.Store connection.new).now ≡ (state S.Store connection.old).now)
        × ((state S.Store connection.new).committed ≡ (state S.Store connection.old).committed) }
    ensures front { HasCleanDisk (state S.Store connection.new) →
        (state S.Store connection.old).now.schema ≡ journal_schema →
        IfOk result (λ rows. AreFrontRows (state S.Store connection.old).now.trees rows.0.items) }
    ensures lra { HasCleanDisk (state S.Store connection.new) →
        (state S.Store connection.old).now.schema ≡ journal_schema →
        IfOk result (λ rows. AreLraRows (state S.Store connection.old).now.trees rows.1.items) }
    ensures was_open { HasCleanDisk (state S.Store connection.new) →
        IfOk result (λ rows. IsTrue (state S.Store connection.old).is_open) }
    ensures none { HasCleanDisk (state S.Store connection.new) →
        (state S.Store connection.old).now.schema ≡ no_schema → IfOk result (λ rows. ⊥) }
    // For an open journal it fails only if memory runs out, or if the disk failed.
    ensures refused { HasCleanDisk (state S.Store connection.new) →
        IsTrue (state S.Store connection.old).is_open →
        (state S.Store connection.old).now.schema ≡ journal_schema →
        (state S.Store connection.old).step_limit ≡ None →
        IfErr result (λ e. (e ≡ Error.SqliteFailure ErrorCode.OutOfMemory)
        ⊎ MoreFaults (state S.Store connection.old).faults
        (state S.Store connection.new).faults) }
{
    let mut tx = connection.transaction();
    let front = select_front(&mut tx)?;
    let lra = select_lra(&mut tx)?;
    Ok((front, lra))
}
