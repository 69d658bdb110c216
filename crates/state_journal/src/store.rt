// Storing one patch in one transaction.
ghost use Rattle.std.specs.Prelude.{◌≡◌, ◌⊎◌, ℕ, false, IsTrue, MatchResult, OnErr, OnOk};
ghost use Rattle.sqlite.specs.Held.{state};
ghost use Rattle.sqlite.specs.State.{HasCleanDisk, Survives};
ghost use Rattle.state_journal.specs.Tables.{IsJournal};
ghost use Rattle.sqlite.specs.Tree.{Trees};
ghost use Rattle.theory_history.specs.Changes.{patched};
ghost use Rattle.theory_history.specs.Views.{View};
ghost use Rattle.state_journal.specs.Stands.{IsPatchOf, KeepsView, Patches, Stands};

use crate::patches::put_patch;
use sqlite::{Alter, Connection, Error};
use state_replica::Patch;
use std::alloc::Global;

fn write<S: Alter>(
    alloc: Global,
    connection: &mut Connection<S>,
    patch: &Patch,
) -> Result<(), Error>
    requires { connection.old.in_transaction ≡ false }
    ensures mode { connection.new.in_transaction ≡ false }
    ensures was_open { HasCleanDisk (state S.Store connection.new) →
        IsTrue (state S.Store connection.new).is_open →
        IsTrue (state S.Store connection.old).is_open }
    ensures open { HasCleanDisk (state S.Store connection.new) →
        OnOk result (IsTrue (state S.Store connection.old).is_open
        × IsTrue (state S.Store connection.new).is_open) }
    ensures ok { HasCleanDisk (state S.Store connection.new) →
        IsJournal (state S.Store connection.old) →
        OnOk result (IsJournal (state S.Store connection.new) × Patches patch.now
        (state S.Store connection.old).now.trees (state S.Store connection.new).now.trees) }
    ensures kept { HasCleanDisk (state S.Store connection.new) →
        IsJournal (state S.Store connection.old) → IsTrue (state S.Store connection.new).is_open →
        OnErr result (((state S.Store connection.new).now ≡ (state S.Store connection.old).now)
        × ((state S.Store connection.new).committed ≡ (state S.Store connection.old).committed)) }
    ensures crash { Survives (state S.Store connection.old) (state S.Store connection.new)
        (λ db. IsJournal (state S.Store connection.old) →
        Patches patch.now (state S.Store connection.old).now.trees db) }
    ensures left { HasCleanDisk (state S.Store connection.new) →
        IsJournal (state S.Store connection.old) →
        (db : Trees) → (state S.Store connection.new).may_leave db →
        (db ≡ (state S.Store connection.old).now.trees)
        ⊎ Patches patch.now (state S.Store connection.old).now.trees db }
    ensures durable { HasCleanDisk (state S.Store connection.new) →
        IsJournal (state S.Store connection.old) →
        OnOk result ((db : _) → (state S.Store connection.new).may_leave db →
        db ≡ (state S.Store connection.new).now.trees) }
{
    let mut tx = connection.transaction();
    put_patch(alloc, &mut tx, patch)?;
    tx.commit()
}

/// Like the function above, but its contract speaks of the views for which the rows stand.
pub(crate) fn write_patch<S: Alter>(
    alloc: Global,
    connection: &mut Connection<S>,
    patch: &Patch,
) -> Result<(), Error>
    requires { connection.old.in_transaction ≡ false }
    ensures mode { connection.new.in_transaction ≡ false }
    ensures open { HasCleanDisk (state S.Store connection.new) →
        OnOk result (IsTrue (state S.Store connection.old).is_open
        × IsTrue (state S.Store connection.new).is_open) }
    ensures stands { (me : ℕ) (view : View) →
        HasCleanDisk (state S.Store connection.new) → IsJournal (state S.Store connection.old) →
        Stands me (state S.Store connection.old).now.trees view →
        IsPatchOf view patch.now → OnOk result (IsJournal (state S.Store connection.new)
        × Stands me (state S.Store connection.new).now.trees (patched patch.now view)) }
    ensures kept { HasCleanDisk (state S.Store connection.new) →
        IsJournal (state S.Store connection.old) → IsTrue (state S.Store connection.new).is_open →
        OnErr result (((state S.Store connection.new).now ≡ (state S.Store connection.old).now)
        × ((state S.Store connection.new).committed ≡ (state S.Store connection.old).committed)) }
    ensures crash { Survives (state S.Store connection.old) (state S.Store connection.new)
        (λ db. IsJournal (state S.Store connection.old) →
        (me : ℕ) (view : View) → Stands me (state S.Store connection.old).now.trees view →
        IsPatchOf view patch.now → Stands me db (patched patch.now view)) }
    ensures stops { (me : ℕ) (view : View) →
        HasCleanDisk (state S.Store connection.new) → IsJournal (state S.Store connection.old) →
        Stands me (state S.Store connection.old).now.trees view →
        IsPatchOf view patch.now → (db : Trees) → (state S.Store connection.new).may_leave db →
        Stands me db view ⊎ Stands me db (patched patch.now view) }
    ensures durable { HasCleanDisk (state S.Store connection.new) →
        IsJournal (state S.Store connection.old) →
        OnOk result ((db : _) → (state S.Store connection.new).may_leave db →
        db ≡ (state S.Store connection.new).now.trees) }
    ensures keeps { (me : ℕ) (view : View) → KeepsView me (state S.Store connection.old) view →
        MatchResult result (λ _. IsPatchOf view patch.now →
        KeepsView me (state S.Store connection.new) (patched patch.now view))
        (λ _. KeepsView me (state S.Store connection.new) view) }
{
    write(alloc, connection, patch)
}
