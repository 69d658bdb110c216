// A node at work: its runs, one after another, and the threads that outlive them.
pub(crate) mod backoff;
pub(crate) mod closed;
pub(crate) mod fresh_run;
pub(crate) mod helpers;
pub(crate) mod opening;
pub(crate) mod reopening;

ghost use Rattle.std.specs.Prelude.{◌≡◌, IfOk, IfSome, None};
ghost use Rattle.node_server.specs.Ending.{goes_on};

use crate::node::backoff::Backoff;
use crate::node::fresh_run::{FreshRun, Shut, begun_by};
use crate::node::helpers::{roles_of, start_helper};
use crate::node::opening::{Stores, Unopened};
use crate::node::reopening::reopened;
use crate::operators::calls::OperatorCalls;
use crate::operators::operate;
use crate::run::named_run;
use crate::run::refusals::refusal_of;
use crate::shared::Shared;
use log::{Log, warn};
use node_sockets::{Sockets, StopReason, now};
use node_threads::{Node, accept_operators};
use node_worker::Addressee;
use sqlite::Alter;
use state_book::Book;
use std::alloc::Global;
use std::io::ErrorKind;
use std::net::{SocketAddr, TcpListener};
use std::sync::Wait;
use std::thread;
use std::thread::{Scope, Threads};
use std::time::{Clock, Duration};
use wire_api::Paths;

/// How long a node waits if there is no memory for its table of paths.
const PAUSE_MS: u64 = 10;

/// What a node couldn't do.
#[derive(Clone, Copy, PartialEq, Eq, Debug)]
pub enum Failure {
    Journal(Unopened),
    Run,
}

/// Whether the next run uses the same book, given why the last run ended: nothing was wrong with
/// the book, or no thread or no memory was to be had.
fn goes_on(reason: Option<StopReason>) -> bool
    ensures { result ≡ goes_on reason }
{
    match reason {
        Some(
            StopReason::Full | StopReason::RunFull | StopReason::TrailLost(_) | StopReason::Starved,
        )
        | None => true,
        Some(StopReason::Program | StopReason::JournalFailed | StopReason::Stopped) => false,
    }
}

/// Rests if a run had no threads; otherwise records that it had them. Returns whether the node can
/// go on: at the start it can't without threads.
fn rest_if_starved<R: Wait + Clock>(
    rt: &R,
    node: &Node,
    reason: Option<StopReason>,
    backoff: &mut Backoff,
) -> bool {
    if reason != Some(StopReason::Starved) {
        backoff.note_run();
        return true;
    }
    if backoff.has_run() {
        node.signal.rest(rt, backoff.next_rest());
        return true;
    }
    false
}

/// Returns the book for the next run, given why the last run ended: the same book or, if the
/// journal failed or the desk was lost, one whose journal is opened again; `None` if the program is
/// to end.
fn next_book<R, L: Log, S: Stores>(
    rt: &R,
    log: &L,
    alloc: Global,
    node: &Node,
    stores: &S,
    shared: &Shared,
    book: Option<Book<S::Store>>,
    reason: Option<StopReason>,
    backoff: &mut Backoff,
) -> Result<Option<Book<S::Store>>, Failure>
where
    R: Wait + Clock + Sockets,
    requires { IfSome book (λ b. b.opening ≡ None) }
    ensures { IfOk result (λ next. IfSome next (λ b. b.opening ≡ None)) }
{
    if reason == Some(StopReason::Program) {
        return Ok(None);
    }
    if goes_on(reason) && !rest_if_starved(rt, node, reason, backoff) {
        return Err(Failure::Run);
    }
    let Some(book) = book else {
        let had = node.core.front(rt);
        return reopened(rt, log, alloc, node, stores, shared, &had, backoff);
    };
    if goes_on(reason) {
        return Ok(Some(book));
    }
    let had = book.front();
    // (The connection holds the file's lock until it is dropped.)
    drop(book.close());
    reopened(rt, log, alloc, node, stores, shared, &had, backoff)
}

/// Counts a run that ended, and a failure of the journal, if one ended it.
fn count_of<R: Wait>(rt: &R, node: &Node, reason: Option<StopReason>) {
    let Some(reason) = reason else {
        return;
    };
    node.counts.run(rt, reason);
    if reason == StopReason::JournalFailed {
        node.counts.failure(rt);
    }
}

/// Warns of why a run ended, if it was a refusal or a lack of threads or memory, at most once a
/// second.
fn warn_of<R: Clock, L: Log>(
    rt: &R,
    log: &L,
    node: &Node,
    reason: Option<StopReason>,
    backoff: &mut Backoff,
) {
    let now = now(rt);
    let Some(reason) = reason else {
        return;
    };
    if let Some(refusal) = refusal_of(reason) {
        if backoff.note_warning(now) {
            warn!(log; "node {}: {}", node.number(), refusal);
        }
    } else if reason == StopReason::Starved && backoff.note_warning(now) {
        warn!(log; "node {}: can't start a run: out of threads or memory", node.number());
    }
}

/// Returns a book with a run begun, once there is memory for one; `None` if the program is to end
/// before that.
fn begun_in_time<R: Wait + Clock, S: Alter + Drop>(
    rt: &R,
    alloc: Global,
    node: &Node,
    mut shut: Shut<S>,
) -> Option<FreshRun<S>> {
    for _ in rt.forever() {
        match begun_by(alloc, shut) {
            Ok(begun) => return Some(begun),
            Err(same) => shut = same,
        }
        if node.signal.has_ended(rt) {
            return None;
        }
        thread::sleep(rt, Duration::from_millis(PAUSE_MS));
    }
    unreachable!()
}

/// Returns the next run, begun, or `None` if the program is to end. The last run's book is `None`
/// if there was no memory for a desk.
fn next_run<R, L: Log, S: Stores>(
    rt: &R,
    log: &L,
    alloc: Global,
    node: &Node,
    stores: &S,
    shared: &Shared,
    book: Option<Book<S::Store>>,
    backoff: &mut Backoff,
) -> Result<Option<FreshRun<S::Store>>, Failure>
where
    R: Wait + Clock + Sockets,
    requires { IfSome book (λ b. b.opening ≡ None) }
{
    if node.core.has_stored(rt) {
        backoff.forget();
    }
    let mut reason = node.signal.stop_reason(rt);
    if book.is_none() && reason != Some(StopReason::Program) {
        reason = Some(StopReason::Starved);
    }
    count_of(rt, node, reason);
    warn_of(rt, log, node, reason, backoff);
    let Some(book) = next_book(rt, log, alloc, node, stores, shared, book, reason, backoff)? else {
        return Ok(None);
    };
    if !node.signal.begin(rt) {
        return Ok(None);
    }
    Ok(begun_in_time(rt, alloc, node, Shut { book }))
}

/// Makes a table of paths, once there is memory for it; returns `None` if the program is to end
/// before that.
fn paths_of<R: Wait + Clock>(rt: &R, alloc: Global, node: &Node) -> Option<Paths> {
    for _ in rt.forever() {
        if let Ok(paths) = Paths::new(alloc) {
            return Some(paths);
        }
        if node.signal.stop_reason(rt).is_some() {
            return None;
        }
        thread::sleep(rt, Duration::from_millis(PAUSE_MS));
    }
    unreachable!()
}

/// Makes the runs of a node, one after another, until the program is to end.
fn run_on<R, L, S: Stores>(
    rt: &R,
    log: &L,
    alloc: Global,
    node: &Node,
    stores: &S,
    shared: &Shared,
    mut begun: FreshRun<S::Store>,
) -> Result<(), Failure>
where
    R: Threads + Wait + Clock + Sockets + Sync,
    L: Log + Sync,
{
    let mut backoff = Backoff::new();
    for _ in rt.forever() {
        let FreshRun { book } = begun;
        let ended = named_run(rt, log, alloc, node, shared, book);
        match next_run(rt, log, alloc, node, stores, shared, ended, &mut backoff)? {
            Some(next) => begun = next,
            None => return Ok(()),
        }
    }
    unreachable!()
}

/// Where a node's threads accept connections.
#[derive(Drop)]
pub struct Listeners {
    listener: TcpListener,
    /// For operators, if they are served.
    operators: Option<TcpListener>,
}

/// What a node begins with: its first run, its ports, and the name by which it is asked.
#[derive(Drop)]
pub struct NodeRuntime<S: Alter + Drop> {
    pub begun: FreshRun<S>,
    pub listeners: Listeners,
    pub addressee: Addressee,
}

/// Binds the port of an address. Errors: the port that can't be bound, and why.
fn bound<R: Sockets>(rt: &R, address: SocketAddr) -> Result<TcpListener, (u16, ErrorKind)> {
    match TcpListener::bind(rt, address) {
        Ok(listener) => Ok(listener),
        Err(error) => Err((address.port(), error.kind())),
    }
}

/// Makes what a node begins with, given its run and the name by which it is asked, at its ports.
/// Errors: the port that can't be bound, and why.
pub fn runtime_of<R: Sockets, S: Alter + Drop>(
    rt: &R,
    node: &Node,
    begun: FreshRun<S>,
    addressee: Addressee,
) -> Result<NodeRuntime<S>, (u16, ErrorKind)> {
    let listener = bound(rt, node.site.listen)?;
    let operators = match node.site.operate {
        Some(address) => Some(bound(rt, address)?),
        None => None,
    };
    let listeners = Listeners {
        listener,
        operators,
    };
    Ok(NodeRuntime {
        begun,
        listeners,
        addressee,
    })
}

/// Starts the thread that serves operators. Returns whether a thread was to be had.
fn start_operator<'s, E, R, L>(
    scope: &Scope<'s, E>,
    rt: &'s R,
    log: &'s L,
    alloc: Global,
    node: &'s Node,
    paths: &'s Paths,
    errands: &'s OperatorCalls,
) -> bool
where
    R: Threads + Wait + Clock + Sockets + Sync,
    L: Log + Sync,
{
    scope
        .spawn(move || operate(rt, log, alloc, node, paths, errands))
        .is_ok()
}

/// Starts the thread that accepts operators' connections. Returns whether a thread was to be had.
fn start_accepting<'s, E, R>(
    scope: &Scope<'s, E>,
    rt: &'s R,
    node: &'s Node,
    listener: &'s TcpListener,
) -> bool
where
    R: Threads + Wait + Clock + Sockets + Sync,
{
    scope
        .spawn(move || accept_operators(rt, node, listener))
        .is_ok()
}

/// Starts the threads that outlive the runs. Returns whether all were to be had.
fn start_helpers<'s, E, R, L>(
    scope: &Scope<'s, E>,
    rt: &'s R,
    log: &'s L,
    alloc: Global,
    node: &'s Node,
    shared: &'s Shared,
    listeners: &'s Listeners,
) -> bool
where
    R: Threads + Wait + Clock + Sockets + Sync,
    L: Log + Sync,
{
    let Ok(roles) = roles_of(alloc, node) else {
        return false;
    };
    for role in roles {
        if !start_helper(scope, rt, log, alloc, node, &listeners.listener, role) {
            return false;
        }
    }
    match &listeners.operators {
        Some(operators) => {
            let (paths, errands) = (&shared.paths, &shared.errands);
            start_operator(scope, rt, log, alloc, node, paths, errands)
                && start_accepting(scope, rt, node, operators)
        }
        None => true,
    }
}

/// Makes the runs of a node beside the threads that outlive them. It is a function of its own
/// because otherwise the prover's search ends at a limit (docs/PROVING.md, "spawn-requires-send").
fn run_beside<'s, E, R, L, S: Stores>(
    scope: &Scope<'s, E>,
    rt: &'s R,
    log: &'s L,
    alloc: Global,
    node: &'s Node,
    stores: &S,
    shared: &'s Shared,
    listeners: &'s Listeners,
    begun: FreshRun<S::Store>,
) -> Result<(), Failure>
where
    R: Threads + Wait + Clock + Sockets + Sync,
    L: Log + Sync,
{
    if !start_helpers(scope, rt, log, alloc, node, shared, listeners) {
        node.end_program(rt);
        return Err(Failure::Run);
    }
    let outcome = run_on(rt, log, alloc, node, stores, shared, begun);
    node.end_program(rt);
    outcome
}

/// Runs a node: its runs, and beside them the threads that accept, call and pull, until the program
/// is to end.
pub fn run_node<R, L, S: Stores + Sync>(
    rt: &R,
    log: &L,
    alloc: Global,
    node: &Node,
    stores: &S,
    runtime: NodeRuntime<S::Store>,
) -> Result<(), Failure>
where
    R: Threads + Wait + Clock + Sockets + Sync,
    L: Log + Sync,
{
    let NodeRuntime {
        begun,
        listeners,
        addressee,
    } = runtime;
    node.note_start(rt);
    node.core.start(rt, &begun.book.front());
    let Some(paths) = paths_of(rt, alloc, node) else {
        return Ok(());
    };
    let shared = Shared {
        paths,
        addressee,
        errands: OperatorCalls::new(),
    };
    let (listeners, shared) = (&listeners, &shared);
    thread::scope(thread::scope_env(), rt, move |scope| {
        run_beside(
            scope, rt, log, alloc, node, stores, shared, listeners, begun,
        )
    })
}
