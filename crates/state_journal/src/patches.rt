// Applying a patch to the rows, one row at a time.
ghost use Rattle.std.specs.Prelude.{◌≡◌, ◌<◌, None, IfErr, OnOk, length};
ghost use Rattle.sqlite.specs.Held.{state};
ghost use Rattle.sqlite.specs.State.{HasCleanDisk, KeepsCommit, Survives};
ghost use Rattle.state_ids.specs.Fronts.{count};
ghost use Rattle.state_journal.specs.Rewriting.{MakesRow, RefusesRow};
ghost use Rattle.state_journal.specs.Statements.{FailsFor};
ghost use Rattle.state_journal.specs.Tables.{GoesOn, IsWriting, SetsFront, SetsFronts, signed};
ghost use Rattle.state_journal.specs.Stands.{Patches, PutsRecord, RemovesRecord};
ghost use Rattle.state_journal.specs.Turns.{InTurn};

use crate::front_rows::node_at;
use crate::steps::{delete_lra, put_front, put_lra};
use sqlite::{Alter, Error, Transaction};
use state_forest::Record;
use state_ids::{Front, LraId, NodeId};
use state_replica::Patch;
use std::alloc::Global;
use wire_frames::encode_record;

fn remove_record<S: Alter>(tx: &mut Transaction<'_, S>, id: LraId) -> Result<(), Error>
    ensures same_reference { tx.new.conn.ghost_name ≡ tx.old.conn.ghost_name }
    ensures survives { Survives (state S.Store tx.old.conn.now) (state S.Store tx.new.conn.now)
        (λ _. ⊥) }
    ensures kept { HasCleanDisk (state S.Store tx.new.conn.now) →
        KeepsCommit (state S.Store tx.old.conn.now) (state S.Store tx.new.conn.now) }
    ensures ok { HasCleanDisk (state S.Store tx.new.conn.now) →
        IsWriting (state S.Store tx.old.conn.now) → OnOk result (GoesOn
        (RemovesRecord id) (state S.Store tx.old.conn.now) (state S.Store tx.new.conn.now)) }
{
    delete_lra(tx, id.home().number(), id.num())
}

pub(crate) fn put_record<S: Alter>(
    alloc: Global,
    tx: &mut Transaction<'_, S>,
    kept: &Record,
) -> Result<(), Error>
    ensures same_reference { tx.new.conn.ghost_name ≡ tx.old.conn.ghost_name }
    ensures survives { Survives (state S.Store tx.old.conn.now) (state S.Store tx.new.conn.now)
        (λ _. ⊥) }
    ensures kept { HasCleanDisk (state S.Store tx.new.conn.now) →
        KeepsCommit (state S.Store tx.old.conn.now) (state S.Store tx.new.conn.now) }
    ensures ok { HasCleanDisk (state S.Store tx.new.conn.now) →
        IsWriting (state S.Store tx.old.conn.now) → OnOk result (GoesOn
        (PutsRecord kept.now) (state S.Store tx.old.conn.now) (state S.Store tx.new.conn.now)) }
    ensures made { HasCleanDisk (state S.Store tx.new.conn.now) →
        IsWriting (state S.Store tx.old.conn.now) →
        (state S.Store tx.old.conn.now).step_limit ≡ None →
        OnOk result (MakesRow kept.now (state S.Store tx.old.conn.now).now.trees
        (state S.Store tx.new.conn.now).now.trees) }
    ensures failed { HasCleanDisk (state S.Store tx.new.conn.now) →
        IsWriting (state S.Store tx.old.conn.now) →
        (state S.Store tx.old.conn.now).step_limit ≡ None →
        IfErr result (λ e. FailsFor e (state S.Store tx.old.conn.now).faults
        (state S.Store tx.new.conn.now).faults
        (RefusesRow kept.now (state S.Store tx.old.conn.now).now.trees)) }
{
    let body = encode_record(alloc, kept)?;
    put_lra(tx, kept.home.number(), kept.num, &body)
}

fn put_node<S: Alter>(
    tx: &mut Transaction<'_, S>,
    node: NodeId,
    front: &Front,
    purges: &Front,
) -> Result<(), Error>
    ensures same_reference { tx.new.conn.ghost_name ≡ tx.old.conn.ghost_name }
    ensures survives { Survives (state S.Store tx.old.conn.now) (state S.Store tx.new.conn.now)
        (λ _. ⊥) }
    ensures kept { HasCleanDisk (state S.Store tx.new.conn.now) →
        KeepsCommit (state S.Store tx.old.conn.now) (state S.Store tx.new.conn.now) }
    ensures ok { HasCleanDisk (state S.Store tx.new.conn.now) →
        IsWriting (state S.Store tx.old.conn.now) → OnOk result
        (GoesOn (SetsFront node (signed (count front.now node)) (signed (count purges.now node)))
        (state S.Store tx.old.conn.now) (state S.Store tx.new.conn.now)) }
{
    put_front(tx, node.number(), front.count(node), purges.count(node))
}

fn remove_all<S: Alter>(tx: &mut Transaction<'_, S>, removed: &[LraId]) -> Result<(), Error>
    ensures same_reference { tx.new.conn.ghost_name ≡ tx.old.conn.ghost_name }
    ensures survives { Survives (state S.Store tx.old.conn.now) (state S.Store tx.new.conn.now)
        (λ _. ⊥) }
    ensures kept { HasCleanDisk (state S.Store tx.new.conn.now) →
        KeepsCommit (state S.Store tx.old.conn.now) (state S.Store tx.new.conn.now) }
    ensures ok { HasCleanDisk (state S.Store tx.new.conn.now) →
        IsWriting (state S.Store tx.old.conn.now) →
        OnOk result (GoesOn (InTurn RemovesRecord removed.now)
        (state S.Store tx.old.conn.now) (state S.Store tx.new.conn.now)) }
{
    'ids: for id in removed {
        remove_record(tx, *id)?;
    }
    Ok(())
}

fn put_all<S: Alter>(
    alloc: Global,
    tx: &mut Transaction<'_, S>,
    records: &[Record],
) -> Result<(), Error>
    ensures same_reference { tx.new.conn.ghost_name ≡ tx.old.conn.ghost_name }
    ensures survives { Survives (state S.Store tx.old.conn.now) (state S.Store tx.new.conn.now)
        (λ _. ⊥) }
    ensures kept { HasCleanDisk (state S.Store tx.new.conn.now) →
        KeepsCommit (state S.Store tx.old.conn.now) (state S.Store tx.new.conn.now) }
    ensures ok { HasCleanDisk (state S.Store tx.new.conn.now) →
        IsWriting (state S.Store tx.old.conn.now) →
        OnOk result (GoesOn (InTurn PutsRecord records.now)
        (state S.Store tx.old.conn.now) (state S.Store tx.new.conn.now)) }
{
    'records: for kept in records {
        put_record(alloc, tx, kept)?;
    }
    Ok(())
}

/// Writes the rows of the nodes that a front counts.
pub(crate) fn put_fronts<S: Alter>(
    tx: &mut Transaction<'_, S>,
    front: &Front,
    purges: &Front,
) -> Result<(), Error>
    ensures same_reference { tx.new.conn.ghost_name ≡ tx.old.conn.ghost_name }
    ensures survives { Survives (state S.Store tx.old.conn.now) (state S.Store tx.new.conn.now)
        (λ _. ⊥) }
    ensures kept { HasCleanDisk (state S.Store tx.new.conn.now) →
        KeepsCommit (state S.Store tx.old.conn.now) (state S.Store tx.new.conn.now) }
    ensures ok { HasCleanDisk (state S.Store tx.new.conn.now) →
        IsWriting (state S.Store tx.old.conn.now) →
        OnOk result (GoesOn (SetsFronts front.now purges.now (length front.now))
        (state S.Store tx.old.conn.now) (state S.Store tx.new.conn.now)) }
{
    'places: for place in 0..front.nodes() {
        put_node(tx, node_at(place), front, purges)?;
    }
    Ok(())
}

/// Applies a patch to the rows, one row at a time.
pub(crate) fn put_patch<S: Alter>(
    alloc: Global,
    tx: &mut Transaction<'_, S>,
    patch: &Patch,
) -> Result<(), Error>
    ensures same_reference { tx.new.conn.ghost_name ≡ tx.old.conn.ghost_name }
    ensures survives { Survives (state S.Store tx.old.conn.now) (state S.Store tx.new.conn.now)
        (λ _. ⊥) }
    ensures kept { HasCleanDisk (state S.Store tx.new.conn.now) →
        KeepsCommit (state S.Store tx.old.conn.now) (state S.Store tx.new.conn.now) }
    ensures ok { HasCleanDisk (state S.Store tx.new.conn.now) →
        IsWriting (state S.Store tx.old.conn.now) → OnOk result (GoesOn
        (Patches patch.now) (state S.Store tx.old.conn.now) (state S.Store tx.new.conn.now)) }
{
    remove_all(tx, patch.removed())?;
    put_all(alloc, tx, patch.records())?;
    put_fronts(tx, &patch.front(), &patch.purges())
}
