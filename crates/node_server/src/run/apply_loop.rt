// The writer thread, in each run of a node: it applies what the other threads received, and
// everything else that changes the journal without a client.
ghost use Rattle.std.specs.Prelude.{◌≡◌, IfErr, IfOk, IfSome, List, Option, true};
ghost use Rattle.state_facts.specs.declared.refusal.Refusal.TheVariants.{NoMemory};
ghost use Rattle.state_book.specs.declared.calls.Call.TheVariants.{Duties as AskDuties, Expire as AskExpire, Take as TakeDelta};
ghost use Rattle.state_book.specs.declared.calls.Call.{Call as TheCall};
ghost use Rattle.node_agenda.specs.declared.task.Task.{Task as TheTask};
ghost use Rattle.node_server.specs.Entering.{Counts, DoesEach, DoesTask, EntersLetter, IsMade, IsMadeAndCopied, IsMadeInMemory, MakesIf, duties_in, fits, told};

use crate::operators::calls::{OperatorCall, OperatorCalls};
use crate::operators::errand::Numbered;
use crate::run::refusals::stop_reason_of;
use crate::run::sweeping::sweep;
use node_agenda::{OperatorWant, Task};
use node_effects::{body_of_all, is_taken, refused_by};
use node_inbox::{Letter, Telling};
use node_sockets::{Sockets, now, unix_millis};
use node_threads::Node;
use node_worker::ending_by;
use state_book::{Call, Clerk, Reply};
use state_facts::Refusal;
use state_ids::{Front, MAX_NODES, NodeId};
use std::alloc::Global;
use std::sync::Wait;
use std::thread;
use std::time::{Clock, Duration};
use wire_callbacks::Duties;

/// The time from one look at the waiting pulls and answers to the next.
const LOOK_MS: u64 = 200;

/// How long it rests if memory runs out.
const REST_MS: u64 = 20;

/// Records what a participant answered. A letter that the clerk refuses goes back.
fn enter<R: Wait + Clock, C: Clerk>(
    rt: &R,
    alloc: Global,
    node: &Node,
    clerk: &mut C,
    letter: Letter,
) -> Result<(), Refusal>
    ensures { EntersLetter C.Clerk clerk.old clerk.new letter result }
{
    let Some(command) = letter.command() else {
        return Ok(());
    };
    match clerk.call(alloc, Call::Command(command), unix_millis(rt)) {
        Ok(()) => {
            node.core.note_entered(rt, &letter);
            Ok(())
        }
        Err(refusal) => {
            node.core.put_back(rt, letter);
            Err(refusal)
        }
    }
}

/// Whether an LRA was cancelled because its deadline had passed.
fn is_expired(reply: &Reply) -> bool {
    matches!(reply, Reply::Expired(_))
}

/// Whether what another node sent was taken. The reason for a refusal is recorded.
fn note_result<R: Wait>(rt: &R, node: &Node, from: NodeId, reply: &Reply) -> bool {
    if let Some(number) = refused_by(reply) {
        node.core.note_refused(rt, from, number);
    }
    is_taken(reply)
}

/// Copies what another node sent, to be kept if the journal can't take it. Makes no copy if all
/// nodes are in one process, whose disk is the same.
fn spare_of(node: &Node, telling: &Telling) -> Option<Telling> {
    if !node.site.is_apart() {
        return None;
    }
    telling.copy().ok()
}

/// Decides what happens to what another node sent and couldn't be taken, which has this front. If
/// memory ran out it isn't kept, but sent again.
fn keep<R: Wait + Clock>(
    rt: &R,
    node: &Node,
    front: &Front,
    spare: Option<Telling>,
    refusal: Refusal,
) {
    match spare {
        Some(telling) if refusal != Refusal::NoMemory => node.core.keep_telling(rt, telling),
        _ => node.core.end_telling(rt, front, 0, false),
    }
}

/// Takes what another node sent. What couldn't be taken is kept.
fn take<R: Wait + Clock, C: Clerk>(
    rt: &R,
    alloc: Global,
    node: &Node,
    clerk: &mut C,
    telling: Telling,
) -> Result<(), Refusal>
    ensures { IsMade C.Clerk clerk.old clerk.new (TakeDelta telling.frame) result }
{
    let (front, from) = (telling.front(), telling.from());
    let (spare, known) = (spare_of(node, &telling), node.core.front(rt).count(node.me));
    let taken = clerk.call(alloc, Call::Take(telling.into_delta()), unix_millis(rt));
    match &taken {
        Ok(()) => {
            let is_taken = note_result(rt, node, from, clerk.reply());
            node.core.end_telling(rt, &front, known, is_taken);
        }
        Err(refusal) => keep(rt, node, &front, spare, *refusal),
    }
    if node.queue.holding() > 0 {
        node.queue.free(rt);
    }
    taken
}

/// Returns the participants that are to be called, given a reply.
fn duties_of(reply: &Reply) -> Result<Option<Duties>, Refusal>
    ensures duties { IfOk result (λ duties. duties ≡ duties_in reply.now) }
    ensures error { IfErr result (λ refusal. refusal ≡ NoMemory) }
{
    match reply {
        Reply::Due(duties) => match duties.clone() {
            Ok(duties) => Ok(Some(duties)),
            Err(_) => Err(Refusal::NoMemory),
        },
        _ => Ok(None),
    }
}

/// Asks for a new list of duties.
fn ask<R: Wait + Clock, C: Clerk>(
    rt: &R,
    alloc: Global,
    node: &Node,
    clerk: &mut C,
) -> Result<(), Refusal>
    ensures { IsMadeInMemory C.Clerk clerk.old clerk.new AskDuties result }
{
    node.core.begin_list(rt);
    clerk.call(alloc, Call::Duties, unix_millis(rt))?;
    if let Some(duties) = duties_of(clerk.reply())? {
        node.core.put_duties(rt, duties);
    }
    Ok(())
}

/// Cancels an LRA whose deadline has passed, if there is one, and then looks for the next.
fn expire<R: Wait + Clock, C: Clerk>(
    rt: &R,
    alloc: Global,
    node: &Node,
    clerk: &mut C,
) -> Result<(), Refusal>
    ensures { IsMade C.Clerk clerk.old clerk.new AskExpire result }
{
    clerk.call(alloc, Call::Expire, unix_millis(rt))?;
    if is_expired(clerk.reply()) {
        node.core.tick(rt);
    }
    Ok(())
}

/// Asks as a node would that has all facts: so the answer only says how many this node has. After
/// that the other nodes are asked, and learn it from the question (`Node::hear_front`).
fn count<R: Wait + Clock, C: Clerk>(
    rt: &R,
    alloc: Global,
    node: &Node,
    clerk: &mut C,
) -> Result<(), Refusal>
    ensures { Counts C.Clerk clerk.old clerk.new result }
{
    match body_of_all(alloc, node.nodes.clamp(1, MAX_NODES)) {
        Ok(body) => clerk.call(alloc, Call::Pull(body), unix_millis(rt)),
        Err(_) => Err(Refusal::NoMemory),
    }
}

/// Makes a call, and copies its reply.
fn make<C: Clerk>(alloc: Global, clerk: &mut C, call: Call, now: u64) -> Result<Reply, Refusal>
    ensures { IsMadeAndCopied C.Clerk clerk.old clerk.new now call result }
{
    match clerk.call(alloc, call, now) {
        Ok(()) => match clerk.reply().clone() {
            Ok(reply) => Ok(reply),
            Err(_) => Err(Refusal::NoMemory),
        },
        Err(refusal) => Err(refusal),
    }
}

/// Hands back the result of a call that operators want. If nobody waits for it any more, that is
/// counted.
fn hand_back<R: Wait>(
    rt: &R,
    node: &Node,
    errands: &OperatorCalls,
    number: u64,
    outcome: Result<Reply, Refusal>,
) {
    if !errands.hand_back(rt, number, outcome) {
        node.note_late();
    }
}

/// Makes the call that operators want, if there is one of this kind.
fn serve_errand<R: Wait + Clock, C: Clerk>(
    rt: &R,
    alloc: Global,
    node: &Node,
    errands: &OperatorCalls,
    clerk: &mut C,
    wanted: OperatorWant,
) -> Result<(), Refusal>
    ensures { (asked : Option TheCall) × IfSome asked (λ c. fits wanted c ≡ true)
        × MakesIf C.Clerk clerk.old clerk.new asked result }
{
    let Some(errand) = errands.next(rt, wanted) else {
        return Ok(());
    };
    let Numbered {
        number,
        wanted: OperatorCall { call, now },
    } = errand;
    let outcome = make(alloc, clerk, call, now);
    let told = told(&outcome);
    hand_back(rt, node, errands, number, outcome);
    told
}

fn told(outcome: &Result<Reply, Refusal>) -> Result<(), Refusal>
    ensures { result ≡ told outcome.now }
{
    match outcome {
        Ok(_) => Ok(()),
        Err(refusal) => Err(*refusal),
    }
}

/// Does a task. A question that failed is asked again later.
fn do_task<R: Wait + Clock, C: Clerk>(
    rt: &R,
    alloc: Global,
    node: &Node,
    errands: &OperatorCalls,
    clerk: &mut C,
    task: Task,
) -> Result<(), Refusal>
    ensures { DoesTask C.Clerk clerk.old clerk.new task result }
{
    match task {
        Task::Enter(letter) => enter(rt, alloc, node, clerk, letter),
        Task::Take(telling) => take(rt, alloc, node, clerk, telling),
        Task::Ask => {
            let asked = ask(rt, alloc, node, clerk);
            if asked.is_err() {
                node.core.stir(rt, false);
            }
            asked
        }
        Task::Tick => expire(rt, alloc, node, clerk),
        Task::Count => {
            let counted = count(rt, alloc, node, clerk);
            if counted.is_err() {
                node.core.want_count(rt);
            }
            counted
        }
        Task::Sweep(chore) => sweep(rt, alloc, node, clerk, chore),
        Task::Errand(wanted) => serve_errand(rt, alloc, node, errands, clerk, wanted),
        Task::Rest => Ok(()),
    }
}

/// Makes waiting pulls and answers be looked at again, some times a second. Returns when that was
/// last done.
fn look_again<R: Wait + Clock>(rt: &R, node: &Node, last: Duration) -> Duration {
    let moment = now(rt);
    let is_due = moment.saturating_sub(last) >= Duration::from_millis(LOOK_MS);
    if !is_due {
        return last;
    }
    if node.queue.holding() > 0 {
        node.queue.free(rt);
    }
    if node.queue.promises() > 0 {
        node.queue.fulfil(rt, u64::MAX);
    }
    moment
}

/// Ends the run if the refusal does; rests for a moment if memory ran out.
fn rest<R: Wait + Clock + Sockets>(rt: &R, node: &Node, refusal: Refusal) {
    match ending_by(refusal) {
        Some(refusal) => node.end_run(rt, stop_reason_of(refusal)),
        None => thread::sleep(rt, Duration::from_millis(REST_MS)),
    }
}

/// Records what the caller and puller threads received, looks for deadlines, sweeps, and makes the
/// calls that operators want, until the run is over. Returns the clerk.
pub fn enter_all<R: Wait + Clock + Sockets, C: Clerk + Drop>(
    rt: &R,
    alloc: Global,
    node: &Node,
    errands: &OperatorCalls,
    mut clerk: C,
) -> C
    ensures { (tasks : List TheTask) × DoesEach C.Clerk clerk tasks result }
{
    let mut looked = now(rt);
    for _ in rt.forever() {
        node.pass_on(rt);
        if node.signal.stop_reason(rt).is_some() {
            return clerk;
        }
        looked = look_again(rt, node, looked);
        let (task, has_opened) = node.core.next(rt);
        if has_opened {
            node.queue.free(rt);
        }
        if let Err(refusal) = do_task(rt, alloc, node, errands, &mut clerk, task) {
            rest(rt, node, refusal);
        }
    }
    unreachable!()
}
