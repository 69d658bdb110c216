// Writing or deleting one row of a table by one statement.

ghost use Rattle.std.specs.Prelude.{◌≡◌, Some, None, IfErr, OnOk};
ghost use Rattle.sqlite.specs.State.{HasCleanDisk, Survives, KeepsCommit};
ghost use Rattle.state_journal.specs.Statements.{FailsFor, IsRefusedOn, Makes, front_values, lra_values, put_front, put_lra};
ghost use Rattle.state_journal.specs.Tables.{GoesOn, SetsLra, SetsFront, IsWriting, signed};
ghost use Rattle.sqlite.specs.Held.{state};

use sqlite::{Alter, Error, Transaction, params};

pub fn delete_lra<S: Alter>(tx: &mut Transaction<'_, S>, home: u8, num: u64) -> Result<(), Error>
    ensures same_reference { tx.new.conn.ghost_name ≡ tx.old.conn.ghost_name }
    ensures survives { Survives (state S.Store tx.old.conn.now) (state S.Store tx.new.conn.now)
        (λ _. ⊥) }
    ensures kept { HasCleanDisk (state S.Store tx.new.conn.now) →
        KeepsCommit (state S.Store tx.old.conn.now) (state S.Store tx.new.conn.now) }
    ensures ok { HasCleanDisk (state S.Store tx.new.conn.now) →
        IsWriting (state S.Store tx.old.conn.now) →
        OnOk result (GoesOn (SetsLra home (signed num) None)
        (state S.Store tx.old.conn.now) (state S.Store tx.new.conn.now)) }
{
    tx.execute(
        "DELETE FROM lra WHERE home = ?1 AND num = ?2",
        params![u32::from(home), num.cast_signed()],
    )?;
    Ok(())
}

pub fn put_lra<S: Alter>(
    tx: &mut Transaction<'_, S>,
    home: u8,
    num: u64,
    body: &[u8],
) -> Result<(), Error>
    ensures same_reference { tx.new.conn.ghost_name ≡ tx.old.conn.ghost_name }
    ensures survives { Survives (state S.Store tx.old.conn.now) (state S.Store tx.new.conn.now)
        (λ _. ⊥) }
    ensures kept { HasCleanDisk (state S.Store tx.new.conn.now) →
        KeepsCommit (state S.Store tx.old.conn.now) (state S.Store tx.new.conn.now) }
    ensures ok { HasCleanDisk (state S.Store tx.new.conn.now) →
        IsWriting (state S.Store tx.old.conn.now) →
        OnOk result (GoesOn (SetsLra home (signed num) (Some body.now))
        (state S.Store tx.old.conn.now) (state S.Store tx.new.conn.now)) }
    ensures made { HasCleanDisk (state S.Store tx.new.conn.now) →
        IsWriting (state S.Store tx.old.conn.now) →
        (state S.Store tx.old.conn.now).step_limit ≡ None →
        OnOk result (Makes put_lra (lra_values home (signed num) body.now)
        (state S.Store tx.old.conn.now).now.trees (state S.Store tx.new.conn.now).now.trees) }
    ensures failed { HasCleanDisk (state S.Store tx.new.conn.now) →
        IsWriting (state S.Store tx.old.conn.now) →
        (state S.Store tx.old.conn.now).step_limit ≡ None →
        IfErr result (λ e. FailsFor e (state S.Store tx.old.conn.now).faults
        (state S.Store tx.new.conn.now).faults (IsRefusedOn put_lra
        (lra_values home (signed num) body.now) (state S.Store tx.old.conn.now).now.trees)) }
{
    tx.execute(
        "INSERT INTO lra (home, num, body) VALUES (?1, ?2, ?3) ON CONFLICT (home, num) DO UPDATE SET body = ?3",
        params![u32::from(home), num.cast_signed(), body],
    )?;
    Ok(())
}

pub fn put_front<S: Alter>(
    tx: &mut Transaction<'_, S>,
    origin: u8,
    held: u64,
    purged: u64,
) -> Result<(), Error>
    ensures same_reference { tx.new.conn.ghost_name ≡ tx.old.conn.ghost_name }
    ensures survives { Survives (state S.Store tx.old.conn.now) (state S.Store tx.new.conn.now)
        (λ _. ⊥) }
    ensures kept { HasCleanDisk (state S.Store tx.new.conn.now) →
        KeepsCommit (state S.Store tx.old.conn.now) (state S.Store tx.new.conn.now) }
    ensures ok { HasCleanDisk (state S.Store tx.new.conn.now) →
        IsWriting (state S.Store tx.old.conn.now) →
        OnOk result (GoesOn (SetsFront origin (signed held) (signed purged))
        (state S.Store tx.old.conn.now) (state S.Store tx.new.conn.now)) }
    ensures failed { HasCleanDisk (state S.Store tx.new.conn.now) →
        IsWriting (state S.Store tx.old.conn.now) →
        (state S.Store tx.old.conn.now).step_limit ≡ None →
        IfErr result (λ e. FailsFor e (state S.Store tx.old.conn.now).faults
        (state S.Store tx.new.conn.now).faults (IsRefusedOn put_front
        (front_values origin (signed held) (signed purged))
        (state S.Store tx.old.conn.now).now.trees)) }
{
    tx.execute(
        "INSERT INTO front (origin, held, purged) VALUES (?1, ?2, ?3) ON CONFLICT (origin) DO UPDATE SET held = ?2, purged = ?3",
        params![u32::from(origin), held.cast_signed(), purged.cast_signed()],
    )?;
    Ok(())
}
