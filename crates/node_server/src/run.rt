// One run of a node: its desk, and the threads at it.
pub(crate) mod apply_loop;
pub(crate) mod clerk;
pub(crate) mod connections;
pub(crate) mod pull_holder;
pub(crate) mod refusals;
pub(crate) mod sweeping;

ghost use Rattle.std.specs.Prelude.{◌≡◌, [], IfSome, IsTrue, None, Some};
ghost use Rattle.sqlite.specs.Held.{state};
ghost use Rattle.state_journal.specs.Keeping.{IsOwn};
ghost use Rattle.node_server.specs.Running.{IsFresh};

use crate::operators::calls::OperatorCalls;
use crate::run::apply_loop::enter_all;
use crate::run::clerk::CountingClerk;
use crate::run::connections::Connections;
use crate::run::refusals::stop_reason_of;
use crate::shared::Shared;
use log::{Log, warn};
use node_sockets::{Promise, Sockets, StopReason};
use node_threads::Node;
use node_worker::{Addressee, Open, work};
use sqlite::Alter;
use state_book::{Book, Desk, DeskClerk, DeskPass, Run};
use std::alloc::Global;
use std::marker::Brand;
use std::sync::Wait;
use std::sync::ledger::Blank;
use std::thread;
use std::thread::{JoinHandle, Scope, Threads};
use std::time::Clock;
use wire_api::Paths;

/// The number of threads that have a pass: four workers, and the writer thread.
const PASSES: usize = 5;

/// Serves the connections that wait, until the run is over.
fn run_worker<R: Wait + Clock + Sockets, J: Run, S: Alter + Drop>(
    rt: &R,
    alloc: Global,
    node: &Node,
    paths: &Paths,
    addressee: &Addressee,
    desk: &Desk<J, S>,
    pass: DeskPass<J>,
    place: usize,
) -> DeskPass<J> {
    let promise = Promise::new();
    let mut connections = Connections::new(rt, alloc, node, addressee, &promise);
    let clerk = DeskClerk::new(rt, desk, pass);
    let mut clerk = CountingClerk::of_worker(rt, node, clerk, place, &promise);
    for _ in rt.forever() {
        let (back, ending) = work(rt, alloc, paths, &mut connections, clerk, &Open, addressee);
        connections.close_served();
        clerk = back;
        // A call that was held back doesn't end the run.
        if clerk.take_held() {
            continue;
        }
        if let Some(refusal) = ending {
            node.end_run(rt, stop_reason_of(refusal));
        }
        return clerk.into_clerk().into_pass();
    }
    unreachable!()
}

/// Runs the writer thread, until the run is over.
fn run_apply_loop<R: Wait + Clock + Sockets, J: Run, S: Alter + Drop>(
    rt: &R,
    alloc: Global,
    node: &Node,
    errands: &OperatorCalls,
    desk: &Desk<J, S>,
    pass: DeskPass<J>,
) -> DeskPass<J> {
    let clerk = CountingClerk::new(rt, node, DeskClerk::new(rt, desk, pass), 0);
    let clerk = enter_all(rt, alloc, node, errands, clerk);
    clerk.into_clerk().into_pass()
}

/// Starts the writer thread, or ends the run and returns the pass. Each start is a function of its
/// own because otherwise the prover's search ends at a limit (docs/PROVING.md,
/// "spawn-requires-send").
fn start_apply_loop<'s, E, J: Run + Send + Sync + 's, S: Alter + Send + Drop + 's, R>(
    scope: &Scope<'s, E>,
    rt: &'s R,
    alloc: Global,
    node: &'s Node,
    errands: &'s OperatorCalls,
    desk: &'s Desk<J, S>,
    pass: DeskPass<J>,
) -> Result<JoinHandle<DeskPass<J>>, DeskPass<J>>
where
    R: Threads + Wait + Clock + Sockets + Sync,
{
    match scope.spawn(move || run_apply_loop(rt, alloc, node, errands, desk, pass)) {
        Ok(thread) => Ok(thread),
        Err(refused) => {
            // The run is over, so this returns at once.
            node.end_run(rt, StopReason::Starved);
            Err((refused.value)())
        }
    }
}

/// Starts a worker, or ends the run and returns the pass.
fn start_worker<'s, E, J: Run + Send + Sync + 's, S: Alter + Send + Drop + 's, R>(
    scope: &Scope<'s, E>,
    rt: &'s R,
    alloc: Global,
    node: &'s Node,
    paths: &'s Paths,
    addressee: &'s Addressee,
    desk: &'s Desk<J, S>,
    pass: DeskPass<J>,
    place: usize,
) -> Result<JoinHandle<DeskPass<J>>, DeskPass<J>>
where
    R: Threads + Wait + Clock + Sockets + Sync,
{
    match scope.spawn(move || run_worker(rt, alloc, node, paths, addressee, desk, pass, place)) {
        Ok(thread) => Ok(thread),
        Err(refused) => {
            // The run is over, so this returns at once.
            node.end_run(rt, StopReason::Starved);
            Err((refused.value)())
        }
    }
}

/// Starts the thread with the pass at a place: the first is the writer thread, and the others are
/// workers.
fn start<'s, E, J: Run + Send + Sync + 's, S: Alter + Send + Drop + 's, R>(
    scope: &Scope<'s, E>,
    rt: &'s R,
    alloc: Global,
    node: &'s Node,
    shared: &'s Shared,
    desk: &'s Desk<J, S>,
    pass: DeskPass<J>,
    place: usize,
) -> Result<JoinHandle<DeskPass<J>>, DeskPass<J>>
where
    R: Threads + Wait + Clock + Sockets + Sync,
{
    if place == 0 {
        start_apply_loop(scope, rt, alloc, node, &shared.errands, desk, pass)
    } else {
        let (paths, addressee) = (&shared.paths, &shared.addressee);
        start_worker(scope, rt, alloc, node, paths, addressee, desk, pass, place)
    }
}

/// Starts a thread for each pass. If one can't be started, its pass comes back at once.
fn start_all<'s, E, J: Run + Send + Sync + 's, S: Alter + Send + Drop + 's, R>(
    scope: &Scope<'s, E>,
    rt: &'s R,
    alloc: Global,
    node: &'s Node,
    shared: &'s Shared,
    desk: &'s Desk<J, S>,
    passes: Vec<DeskPass<J>>,
    threads: &mut Vec<JoinHandle<DeskPass<J>>>,
    back: &mut Vec<DeskPass<J>>,
)
where
    R: Threads + Wait + Clock + Sockets + Sync,
{
    for (place, pass) in passes.into_iter().enumerate() {
        match start(scope, rt, alloc, node, shared, desk, pass, place) {
            Ok(thread) => {
                let _ = threads.push(thread);
            }
            Err(pass) => {
                let _ = back.push(pass);
            }
        }
    }
}

/// Makes room for the threads of a run and for their passes.
fn room_for<T: Drop, P: Drop>(alloc: Global) -> Option<(Vec<T>, Vec<P>)> {
    let mut threads = Vec::new(alloc);
    let mut back = Vec::new(alloc);
    if threads.reserve(PASSES).is_err() || back.reserve(PASSES).is_err() {
        return None;
    }
    Some((threads, back))
}

/// Runs the threads of one run: they begin, serve until the run is over, and are joined. Returns
/// all passes.
fn run_threads<J: Run + Send + Sync, S: Alter + Send + Drop, R>(
    rt: &R,
    alloc: Global,
    node: &Node,
    shared: &Shared,
    desk: &Desk<J, S>,
    passes: Vec<DeskPass<J>>,
) -> Vec<DeskPass<J>>
where
    R: Threads + Wait + Clock + Sockets + Sync,
{
    thread::scope(thread::scope_env(), rt, move |scope| -> Vec<DeskPass<J>> {
        let Some((mut threads, mut back)) = room_for(alloc) else {
            node.signal.end(rt, StopReason::Starved);
            return passes;
        };
        start_all(
            scope,
            rt,
            alloc,
            node,
            shared,
            desk,
            passes,
            &mut threads,
            &mut back,
        );
        if node.signal.stop_reason(rt).is_some() {
            // (The program's end may have come before the queue began.)
            node.queue.end(rt);
        }
        for thread in threads {
            let _ = back.push(thread.join(rt));
        }
        back
    })
}

/// Makes one run of a book. Returns the book, or `None` if the desk couldn't be opened or closed.
fn run<J: Run + Send + Sync, S: Alter + Send + Drop, R, L>(
    rt: &R,
    log: &L,
    alloc: Global,
    node: &Node,
    shared: &Shared,
    book: Book<S>,
    blank: Blank,
) -> Option<Book<S>>
where
    R: Threads + Wait + Clock + Sockets + Sync,
    L: Log + Sync,
    requires run { (book.opening ≡ Some J.opening.view)
        × (book.me ≡ J.opening.node) × (book.trail ≡ []) }
    requires own { IsTrue J.opening.own → IsOwn (state S.Store book.journal.opened) }
    requires blank { (blank.name ≡ J.name) × (blank.parts ≡ J.parts) × (blank.parts ≡ 5) }
    ensures { IfSome result (λ b. b.opening ≡ None) }
{
    let Ok((desk, passes)) = Desk::<J, S>::new(alloc, book, blank, PASSES) else {
        return None;
    };
    node.core.begin_run(rt);
    node.queue.begin(rt);
    let passes = run_threads(rt, alloc, node, shared, &desk, passes);
    if passes.len() != PASSES {
        return None;
    }
    let (book, _trail, found) = desk.close(passes);
    if let Err(refusal) = found {
        warn!(log; "node {}: {}", node.number(), refusal);
    }
    Some(book)
}

/// Makes one run of a book, under a name of its own: the ledger is the blank's, and the opening the
/// book's.
pub fn named_run<S: Alter + Send + Drop, R, L>(
    rt: &R,
    log: &L,
    alloc: Global,
    node: &Node,
    shared: &Shared,
    book: Book<S>,
) -> Option<Book<S>>
where
    R: Threads + Wait + Clock + Sockets + Sync,
    L: Log + Sync,
    requires { IsFresh book }
    ensures { IfSome result (λ b. b.opening ≡ None) }
{
    run::<Brand, S, R, L>(rt, log, alloc, node, shared, book, Blank::new(5))
}
