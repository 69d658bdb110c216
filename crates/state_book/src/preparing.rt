// Preparing a call, and carrying it out.
ghost use Rattle.std.specs.Prelude.{◌≡◌, ◌≤◌, ◌<◌, ℕ, Err, IfErr, IfOk, IfSome, IsTrue, OnErr, OnOk, length};
ghost use Rattle.state_facts.specs.declared.refusal.Refusal.TheVariants.{NoMemory};
ghost use Rattle.state_facts.specs.declared.command.Command.TheVariants.{Decide, Purge};
ghost use Rattle.theory_history.specs.Next.{member_shown_on, next_view, overdue_on, reply_on, shown_on};
ghost use Rattle.theory_history.specs.Views.{View};
ghost use Rattle.theory_history.specs.Changes.{with_patch};
ghost use Rattle.state_replica.specs.Replicas.{Fits, view_of};
ghost use Rattle.wire_pulls.specs.PullBodies.{asked};
ghost use Rattle.wire_callbacks.specs.ViewDuties.{duties_of};
ghost use Rattle.state_journal.specs.Keeping.{Keeps};
ghost use Rattle.state_journal.specs.Stands.{IsPatchOf, Stands};
ghost use Rattle.state_journal.specs.Tables.{IsJournal};
ghost use Rattle.sqlite.specs.Held.{state};
ghost use Rattle.sqlite.specs.State.{HasCleanDisk, Survives};
ghost use Rattle.state_book.specs.declared.calls.Reply.TheVariants.{Due};
ghost use Rattle.state_book.specs.Books.{IsStoreFault};
ghost use Rattle.state_book.specs.Next.{IsListing, IsNext, IsTakeReply, expire_reply, expired, member_reply, pull_reply, shows_so, status_reply, sweep_reply, view_expired, view_swept};
ghost use Rattle.state_book.specs.Trees.{tree_shown_on};

use crate::holdings::{hold, survey_beyond};
use crate::trees::tree_shown;
use crate::{Call, Reply};
use sqlite::Alter;
use state_facts::{Command, CommandReply, Refusal};
use state_ids::{LraId, LraStatus, NodeId, Verdict};
use state_journal::Journal;
use state_replica::{Patch, Prepared, Replica};
use std::alloc::Global;
use wire_callbacks::pick;
use wire_frames::Delta;
use wire_http::Bytes;
use wire_pulls::serve_pull;

/// A prepared call: its reply, and what it changes, if anything.
#[derive(Drop)]
pub struct PreparedCall {
    pub reply: Reply,
    pub patch: Option<Patch>,
}

/// Prepares a command. It fails only if memory runs out, since a refusal is its reply.
pub fn act(
    alloc: Global,
    replica: &mut Replica,
    me: NodeId,
    command: Command,
) -> Result<Prepared, Refusal>
    requires { me ≤ length replica.old.front }
    ensures view { view_of replica.new ≡ view_of replica.old }
    ensures room { IfOk result (λ act. IfSome act.patch (λ change. Fits change replica.new)) }
    ensures reply { IfOk result (λ act. act.reply ≡ reply_on (view_of replica.old) me command) }
    ensures next { IfOk result (λ act. with_patch act.patch (view_of replica.old)
        ≡ next_view (view_of replica.old) me command) }
    ensures cause { IfErr result (λ refusal. refusal ≡ NoMemory) }
{
    match replica.prepare(alloc, me, command) {
        Ok(prepared) => Ok(prepared),
        Err(refusal) => {
            if refusal == Refusal::NoMemory {
                return Err(Refusal::NoMemory);
            }
            Ok(Prepared {
                reply: CommandReply::Refused(refusal),
                patch: None,
            })
        }
    }
}

fn take(alloc: Global, replica: &mut Replica, delta: Delta) -> Result<PreparedCall, Refusal>
    ensures view { view_of replica.new ≡ view_of replica.old }
    ensures room { IfOk result (λ step. IfSome step.patch (λ change. Fits change replica.new)) }
    ensures next { IfOk result (λ step. IsTakeReply
        (view_of replica.old) delta step.reply (with_patch step.patch (view_of replica.old))) }
    ensures cause { IfErr result (λ refusal. refusal ≡ NoMemory) }
{
    match wire_frames::prepare(alloc, replica, delta) {
        Ok(patch) => Ok(PreparedCall {
            reply: Reply::Took,
            patch: Some(patch),
        }),
        Err(refusal) => {
            if refusal == Refusal::NoMemory {
                return Err(Refusal::NoMemory);
            }
            Ok(PreparedCall {
                reply: Reply::Refused(refusal),
                patch: None,
            })
        }
    }
}

/// Returns what a node gives another that asks with these bytes.
fn give(alloc: Global, replica: &Replica, body: &Bytes) -> Result<Reply, Refusal>
    ensures reply { IfOk result (λ reply. reply
        ≡ pull_reply (view_of replica.now) (asked (length replica.now.front) body.now)) }
    ensures cause { IfErr result (λ refusal. refusal ≡ NoMemory) }
{
    match serve_pull(alloc, body.as_slice(), replica) {
        Ok(delta) => Ok(Reply::Gave(delta)),
        Err(refusal) => {
            if refusal == Refusal::NoMemory {
                return Err(Refusal::NoMemory);
            }
            Ok(Reply::Refused(refusal))
        }
    }
}

fn show(replica: &Replica, id: LraId) -> Reply
    ensures { result ≡ status_reply id (shown_on (view_of replica.now) id) }
{
    match replica.status(id) {
        Ok(status) => Reply::Shown(id, status),
        Err(refusal) => Reply::Refused(refusal),
    }
}

fn show_member(replica: &Replica, id: LraId, member: u8) -> Reply
    ensures { result ≡ member_reply id member (member_shown_on (view_of replica.now) id member) }
{
    match replica.member(id, member) {
        Ok(status) => Reply::ShownMember(id, member, status),
        Err(refusal) => Reply::Refused(refusal),
    }
}

fn list(alloc: Global, replica: &Replica, after: Option<LraId>) -> Result<Reply, Refusal>
    ensures page { IfOk result (λ reply. IsListing (view_of replica.now) after reply) }
    ensures cause { IfErr result (λ refusal. refusal ≡ NoMemory) }
{
    let page = replica.page(alloc, after)?;
    Ok(Reply::Listed(page))
}

fn duties(alloc: Global, replica: &Replica, me: NodeId) -> Result<Reply, Refusal>
    requires { me ≤ length replica.now.front }
    ensures due { IfOk result (λ reply. reply ≡ Due (duties_of (view_of replica.now) me)) }
    ensures cause { IfErr result (λ refusal. refusal ≡ NoMemory) }
{
    let duties = pick(alloc, replica, me)?;
    Ok(Reply::Due(duties))
}

/// Returns the reply after an attempt to cancel an LRA whose deadline had passed.
fn reply_of_expiry(id: LraId, reply: CommandReply) -> Reply
    ensures { result ≡ expired id reply }
{
    match reply {
        CommandReply::Refused(refusal) => Reply::Refused(refusal),
        _ => Reply::Expired(id),
    }
}

fn expire(
    alloc: Global,
    replica: &mut Replica,
    me: NodeId,
    now: u64,
) -> Result<PreparedCall, Refusal>
    requires { me ≤ length replica.old.front }
    ensures view { view_of replica.new ≡ view_of replica.old }
    ensures room { IfOk result (λ step. IfSome step.patch (λ change. Fits change replica.new)) }
    ensures reply { IfOk result (λ step. step.reply
        ≡ expire_reply (view_of replica.old) me (overdue_on (view_of replica.old) me now)) }
    ensures next { IfOk result (λ step. with_patch step.patch (view_of replica.old)
        ≡ view_expired (view_of replica.old) me (overdue_on (view_of replica.old) me now)) }
    ensures cause { IfErr result (λ refusal. refusal ≡ NoMemory) }
{
    let Some(id) = replica.expire(me, now) else {
        return Ok(PreparedCall {
            reply: Reply::Quiet,
            patch: None,
        });
    };
    let cancel = Command::Decide {
        id,
        verdict: Verdict::Cancel,
    };
    let act = act(alloc, replica, me, cancel)?;
    Ok(PreparedCall {
        reply: reply_of_expiry(id, act.reply),
        patch: act.patch,
    })
}

/// Whether the tree of an LRA shows what was seen.
fn shows_so(replica: &Replica, id: LraId, seen: LraStatus) -> bool
    ensures { result ≡ shows_so seen (tree_shown_on (view_of replica.now) id) }
{
    match tree_shown(replica, id) {
        Ok(status) => status == seen,
        Err(_) => false,
    }
}

fn sweep(
    alloc: Global,
    replica: &mut Replica,
    me: NodeId,
    root: LraId,
    seen: LraStatus,
) -> Result<PreparedCall, Refusal>
    requires { me ≤ length replica.old.front }
    ensures view { view_of replica.new ≡ view_of replica.old }
    ensures room { IfOk result (λ step. IfSome step.patch (λ change. Fits change replica.new)) }
    ensures reply { IfOk result (λ step. step.reply ≡ sweep_reply
        (view_of replica.old) me root (shows_so seen (tree_shown_on (view_of replica.old) root))) }
    ensures next { IfOk result (λ step. with_patch step.patch (view_of replica.old) ≡ view_swept
        (view_of replica.old) me root (shows_so seen (tree_shown_on (view_of replica.old) root))) }
    ensures cause { IfErr result (λ refusal. refusal ≡ NoMemory) }
{
    if !shows_so(replica, root, seen) {
        return Ok(PreparedCall {
            reply: show(replica, root),
            patch: None,
        });
    }
    let act = act(alloc, replica, me, Command::Purge { root })?;
    Ok(PreparedCall {
        reply: Reply::Command(act.reply),
        patch: act.patch,
    })
}

fn answer(reply: Result<Reply, Refusal>) -> Result<PreparedCall, Refusal>
    ensures ok { IfOk result (λ step. (reply ≡ Ok step.reply) × (step.patch ≡ None)) }
    ensures err { IfErr result (λ refusal. reply ≡ Err refusal) }
{
    let reply = reply?;
    Ok(PreparedCall { reply, patch: None })
}

/// Prepares a node's call at a moment: its reply, and what it changes, if anything. It fails only
/// if memory runs out.
pub fn prepare(
    alloc: Global,
    replica: &mut Replica,
    me: NodeId,
    call: Call,
    now: u64,
) -> Result<PreparedCall, Refusal>
    requires { me ≤ length replica.old.front }
    ensures view { view_of replica.new ≡ view_of replica.old }
    ensures room { IfOk result (λ step. IfSome step.patch (λ change. Fits change replica.new)) }
    ensures next { IfOk result (λ step. IsNext me
        (view_of replica.old) call now step.reply (with_patch step.patch (view_of replica.old))) }
    ensures cause { IfErr result (λ refusal. refusal ≡ NoMemory) }
{
    match call {
        Call::Command(command) => {
            let act = act(alloc, replica, me, command)?;
            Ok(PreparedCall {
                reply: Reply::Command(act.reply),
                patch: act.patch,
            })
        }
        Call::Take(delta) => take(alloc, replica, delta),
        Call::Pull(body) => answer(give(alloc, replica, &body)),
        Call::Status(id) => answer(Ok(show(replica, id))),
        Call::Member { id, member } => answer(Ok(show_member(replica, id, member))),
        Call::Page(after) => answer(list(alloc, replica, after)),
        Call::Record(id) => answer(hold(alloc, replica, me, id)),
        Call::Survey(after) => answer(survey_beyond(alloc, replica, after)),
        Call::Duties => answer(duties(alloc, replica, me)),
        Call::Expire => expire(alloc, replica, me, now),
        Call::Sweep { root, seen } => sweep(alloc, replica, me, root, seen),
    }
}

fn change(replica: &mut Replica, patch: Option<Patch>)
    requires { IfSome patch (λ change. Fits change replica.old) }
    ensures view { view_of replica.new ≡ with_patch patch (view_of replica.old) }
    ensures nodes { length replica.new.front ≡ length replica.old.front }
{
    if let Some(patch) = patch {
        replica.apply(patch);
    }
}

fn store<S: Alter>(
    alloc: Global,
    journal: &mut Journal<S>,
    patch: &Option<Patch>,
) -> Result<(), Refusal>
    ensures stored { (me : ℕ) (view : View) →
        Keeps S.Store me journal.old view → IfSome patch.now (IsPatchOf view) →
        OnOk result (Keeps S.Store me journal.new (with_patch patch.now view)) }
    ensures kept { (me : ℕ) (view : View) →
        Keeps S.Store me journal.old view → OnErr result (Keeps S.Store me journal.new view) }
    // A stop leaves what it left before, or rows of the patched view.
    ensures crash { Survives
        (state S.Store journal.old.connection) (state S.Store journal.new.connection)
        (λ db. IsJournal (state S.Store journal.old.connection) →
        (me : ℕ) (view : View) → Stands me (state S.Store journal.old.connection).now.trees view →
        IfSome patch.now (IsPatchOf view) → Stands me db (with_patch patch.now view)) }
    ensures open { HasCleanDisk (state S.Store journal.new.connection) →
        OnOk result (IfSome patch.now (λ _. IsTrue (state S.Store journal.old.connection).is_open
        × IsTrue (state S.Store journal.new.connection).is_open)) }
    ensures opened { journal.new.opened ≡ journal.old.opened }
    ensures cause { IfErr result (IsStoreFault journal.old journal.new) }
{
    match patch {
        Some(patch) => journal.store(alloc, patch),
        None => Ok(()),
    }
}

/// Stores a patch, if there is one, and then applies it. If it can't be stored, nothing is changed.
pub fn carry_out<S: Alter>(
    alloc: Global,
    journal: &mut Journal<S>,
    replica: &mut Replica,
    patch: Option<Patch>,
) -> Result<(), Refusal>
    requires { IfSome patch (λ change. Fits change replica.old) }
    ensures view { OnOk result (view_of replica.new ≡ with_patch patch (view_of replica.old)) }
    ensures same { OnErr result (view_of replica.new ≡ view_of replica.old) }
    ensures nodes { length replica.new.front ≡ length replica.old.front }
    // Whatever the result, the journal's rows correspond to the replica.
    ensures keeps { (me : ℕ) → Keeps S.Store me journal.old (view_of replica.old) →
        Keeps S.Store me journal.new (view_of replica.new) }
    // A stop leaves what it left before, or rows for what the replica holds afterwards.
    ensures crash { Survives
        (state S.Store journal.old.connection) (state S.Store journal.new.connection)
        (λ db. IsJournal (state S.Store journal.old.connection) → (me : ℕ) →
        Stands me (state S.Store journal.old.connection).now.trees (view_of replica.old) →
        Stands me db (with_patch patch (view_of replica.old))) }
    // What changed was stored, and the connection is open.
    ensures open { HasCleanDisk (state S.Store journal.new.connection) →
        OnOk result (IfSome patch (λ _. IsTrue (state S.Store journal.old.connection).is_open
        × IsTrue (state S.Store journal.new.connection).is_open)) }
    ensures opened { journal.new.opened ≡ journal.old.opened }
    ensures cause { IfErr result (IsStoreFault journal.old journal.new) }
{
    store(alloc, journal, &patch)?;
    change(replica, patch);
    Ok(())
}
