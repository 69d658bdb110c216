// All nodes of a program.
pub(crate) mod files;

ghost use Rattle.std.specs.Prelude.{◌≡◌, ◌≤◌, vec_len};
ghost use Rattle.state_ids.specs.declared.TheConstants.{MAX_NODES};
ghost use Rattle.node_server.specs.Ending.{status_of};

use crate::node::fresh_run::{FreshRun, Shut, begun_by};
use crate::node::reopening::open_book;
use crate::node::{Failure, NodeRuntime, run_node, runtime_of};
use crate::{Stores, Unopened};
use log::{Log, info, warn};
use node_agenda::Keep;
use node_sockets::{Peer, Site, Sockets, StopReason};
use node_threads::{Build, End, Manners, News, Node, RunLength, Shutdown, Wants, drain};
use node_worker::{Addressee, GroupName, query_by};
use sqlite::Alter;
use state_book::{Book, MAX_ENTRIES, MAX_MOVES};
use state_ids::NodeId;
use std::alloc::{AllocError, Global};
use std::io::{ErrorKind, Read};
use std::net::SocketAddr;
use std::sync::{Arc, Wait};
use std::thread;
use std::thread::{Scope, Threads};
use std::time::Clock;
use wire_http::Bytes;

/// How many entries are left for calls that are under way when a run is ended early.
const ENTRIES_LEFT: u64 = 64;

/// How many frames are left for them: for four workers and the writer thread.
const MOVES_LEFT: u64 = 5;

/// Why the program can't go on.
#[derive(Clone, Copy, PartialEq, Eq, Debug)]
enum Trouble {
    /// The journal of this node can't be opened.
    Journal(u8, Unopened),
    /// The run of this node can't be started.
    Run(u8),
    /// The port at which this node is to listen can't be bound.
    Port(u8, u16, ErrorKind),
}

/// Why a port can't be bound.
fn cause_of(kind: ErrorKind) -> &'static str {
    match kind {
        ErrorKind::AddrInUse => "it is in use",
        ErrorKind::AddrNotAvailable => "this machine has no such address",
        ErrorKind::PermissionDenied => "permission is denied",
        _ => "the system refuses",
    }
}

/// Prints what is not to be had, and why, a line each.
fn print_trouble<R: Eprint>(rt: &R, trouble: Trouble) {
    let _ = match trouble {
        Trouble::Journal(number, why) => eprintln!(rt;
            "node {number}: can't open its journal: {why}\njournal {number}"
        ),
        Trouble::Run(number) => eprintln!(rt;
            "node {number}: can't start a run: out of threads or memory\nrun {number}"
        ),
        Trouble::Port(number, port, kind) => {
            let why = cause_of(kind);
            eprintln!(rt; "node {number}: can't listen on port {port}: {why}\nport {port}")
        }
    };
}

/// Whether other machines, and so nodes of another group, may reach the port of a node that has
/// nodes elsewhere.
fn is_in_reach(node: &Node) -> bool {
    node.nodes > 1 && node.site.is_apart() && !node.site.listen.ip().is_loopback()
}

/// Logs where each node listens, and warns if nodes of another group may be taken for its own.
fn log_addresses<L: Log>(log: &L, nodes: &[Node], group: Option<&GroupName>) {
    for node in nodes {
        info!(log; "node {}: listens on {}", node.number(), node.site.listen);
        if let Some(address) = node.site.operate {
            info!(log; "node {}: listens for operators on {}", node.number(), address);
        }
        if group.is_none() && is_in_reach(node) {
            warn!(log; "node {}: its group has no name, so it can't tell a node of another group from one of its own: start all members with the same group=NAME", node.number());
        }
    }
}

/// Opens the books of all nodes. Errors: the first node whose journal can't be opened.
fn books_of<S: Stores>(
    alloc: Global,
    nodes: &[Node],
    stores: &S,
) -> Result<Vec<Shut<S::Store>>, Trouble> {
    let mut books = Vec::new(alloc);
    for node in nodes {
        let book = match open_book(alloc, stores, node) {
            Ok(book) => book,
            Err(why) => return Err(Trouble::Journal(node.number(), why)),
        };
        if books.push(Shut { book }).is_err() {
            return Err(Trouble::Run(node.number()));
        }
    }
    Ok(books)
}

/// Begins a run in each book. Errors: the first node whose run can't be started.
fn begun_of<S: Alter + Drop>(
    alloc: Global,
    nodes: &[Node],
    books: Vec<Shut<S>>,
) -> Result<Vec<FreshRun<S>>, Trouble> {
    let mut begun = Vec::new(alloc);
    for (node, shut) in nodes.iter().zip(books) {
        let Ok(next) = begun_by(alloc, shut) else {
            return Err(Trouble::Run(node.number()));
        };
        if begun.push(next).is_err() {
            return Err(Trouble::Run(node.number()));
        }
    }
    Ok(begun)
}

/// Returns the name by which a node is asked: its number and group, if the others are in other
/// processes.
fn addressee_of(
    alloc: Global,
    node: &Node,
    group: Option<&GroupName>,
) -> Result<Addressee, AllocError> {
    if !node.site.is_apart() {
        return Ok(Addressee::anyone());
    }
    let Some(group) = group else {
        return Ok(Addressee::of(node.me, None));
    };
    let name = String::from_str(alloc, group.as_str())?;
    Ok(Addressee::of(node.me, GroupName::new(name)))
}

/// Makes what all nodes begin with. Errors: the first port that can't be bound.
fn runtimes_of<R: Sockets, S: Alter + Drop>(
    rt: &R,
    alloc: Global,
    nodes: &[Node],
    books: Vec<FreshRun<S>>,
    group: Option<&GroupName>,
) -> Result<Vec<NodeRuntime<S>>, Trouble> {
    let mut runtimes = Vec::new(alloc);
    for (node, begun) in nodes.iter().zip(books) {
        let Ok(addressee) = addressee_of(alloc, node, group) else {
            return Err(Trouble::Run(node.number()));
        };
        let runtime = match runtime_of(rt, node, begun, addressee) {
            Ok(runtime) => runtime,
            Err((port, why)) => return Err(Trouble::Port(node.number(), port, why)),
        };
        if runtimes.push(runtime).is_err() {
            return Err(Trouble::Run(node.number()));
        }
    }
    Ok(runtimes)
}

/// Returns how long a run is, so that it ends before it is full.
fn run_length() -> RunLength {
    RunLength {
        max_calls: (MAX_ENTRIES as u64).saturating_sub(ENTRIES_LEFT),
        max_moves: (MAX_MOVES as u64).saturating_sub(MOVES_LEFT),
    }
}

/// Returns the same places of news once more.
fn same_news(alloc: Global, all: &[Arc<News>]) -> Result<Vec<Arc<News>>, AllocError> {
    let mut same = Vec::new(alloc);
    for news in all {
        same.push(Arc::try_clone(news)?)?;
    }
    Ok(same)
}

/// Makes what the nodes share with their threads.
fn nodes_of(alloc: Global, nodes: u8, port: u16) -> Result<Vec<Node>, AllocError>
    requires { (1 ≤ nodes) × (nodes ≤ MAX_NODES) }
{
    let news = Arc::new(alloc, News::new())?;
    let keep = Keep {
        ended: None,
        failed: None,
    };
    let mut all = Vec::new(alloc);
    for number in 1..=nodes {
        let Ok(me) = NodeId::new(number) else {
            continue;
        };
        let shared = Arc::try_clone(&news)?;
        let mut told = Vec::new(alloc);
        told.push(Arc::try_clone(&news)?)?;
        let site = Site::here(port, number);
        let manners = Manners::of_nobody(alloc);
        all.push(Node::new(
            alloc,
            me,
            nodes,
            site,
            keep,
            run_length(),
            shared,
            told,
            manners,
        ))?;
    }
    Ok(all)
}

/// Nodes of a group that run in this process, while the others run in processes of their own.
#[derive(Drop)]
pub struct LocalMembers {
    /// The first and the last of them.
    pub first: u8,
    pub last: u8,
    /// Where all nodes of the group are reached, in order.
    pub peers: Vec<Peer>,
    /// Where each listens, if that is given; otherwise on the loopback interface, at the port where
    /// it is reached.
    pub listen: Option<SocketAddr>,
    /// Where the first of them listens for operators, if that is given; each other one listens at
    /// the next port.
    pub operate: Option<SocketAddr>,
    /// The names by which operators may ask them, besides `localhost` and addresses, separated by
    /// commas.
    pub names: String,
    /// How long each keeps roots that have ended.
    pub keep: Keep,
    /// The name of their group, if it has one. A pull by a node of another group is refused, and so
    /// is an answer of a node of another group.
    pub group: Option<GroupName>,
    /// How many other nodes are to have a fact before answers that may show it are sent.
    pub wants: Wants,
    /// Whether each waits at its start, without limit, until it has heard from all others: its
    /// journal is lost, or not the newest.
    pub anew: bool,
    /// Which build of the program runs them.
    pub build: Build,
}

/// Makes the queries of a node's pulls from each of `nodes` nodes, which say who asks whom.
fn queries_of(
    alloc: Global,
    me: NodeId,
    nodes: u8,
    group: Option<&GroupName>,
    waits: bool,
) -> Result<Vec<String>, AllocError> {
    let mut queries = Vec::new(alloc);
    for number in 1..=nodes {
        let Ok(other) = NodeId::new(number) else {
            continue;
        };
        queries.push(query_by(alloc, waits, me, other, group)?)?;
    }
    Ok(queries)
}

/// Returns the names in a text, which are separated by commas.
fn names_in(alloc: Global, text: &str) -> Result<Vec<Bytes>, AllocError> {
    let mut names = Vec::new(alloc);
    for name in text.split(',') {
        names.push(Bytes::new(Vec::from_slice(alloc, name.as_bytes())?))?;
    }
    Ok(names)
}

/// Makes the settings by which a member of a group of `nodes` nodes deals with others.
fn manners_of(
    alloc: Global,
    me: NodeId,
    nodes: u8,
    group: Option<&GroupName>,
    anew: bool,
    wants: Wants,
    names: &str,
    build: &Build,
) -> Result<Manners, AllocError> {
    Ok(Manners {
        waits_for_all: anew,
        wants,
        queries: queries_of(alloc, me, nodes, group, false)?,
        waiting: queries_of(alloc, me, nodes, group, true)?,
        names: names_in(alloc, names)?,
        build: Some(build.copied(alloc)?),
    })
}

/// Returns an address at the port `count` above its own.
fn port_after(address: Option<SocketAddr>, count: u8) -> Option<SocketAddr> {
    let address = address?;
    let port = address.port().saturating_add(u16::from(count));
    Some(SocketAddr::new(address.ip(), port))
}

/// Makes what members of a group share with their threads.
fn nodes_of_members(
    alloc: Global,
    members: LocalMembers,
) -> Result<(Vec<Node>, Option<GroupName>), AllocError>
    requires { (1 ≤ vec_len members.peers) × (vec_len members.peers ≤ MAX_NODES) }
{
    let LocalMembers {
        first,
        last,
        peers,
        listen,
        operate,
        names,
        keep,
        group,
        wants,
        anew,
        build,
    } = members;
    let nodes = peers.len() as u8;
    let peers = Arc::new(alloc, peers)?;
    let mut news = Vec::new(alloc);
    for _number in first..=last {
        news.push(Arc::new(alloc, News::new())?)?;
    }
    let mut all = Vec::new(alloc);
    let mut number = first;
    for own in news.iter() {
        let Ok(me) = NodeId::new(number) else {
            break;
        };
        let operators = port_after(operate, number.saturating_sub(first));
        let site = Site::apart(listen, operators, number, Arc::try_clone(&peers)?);
        let own = Arc::try_clone(own)?;
        let told = same_news(alloc, &news)?;
        let manners = manners_of(
            alloc,
            me,
            nodes,
            group.as_ref(),
            anew,
            wants,
            names.as_str(),
            &build,
        )?;
        all.push(Node::new(
            alloc,
            me,
            nodes,
            site,
            keep,
            run_length(),
            own,
            told,
            manners,
        ))?;
        number = number.saturating_add(1);
    }
    Ok((all, group))
}

/// Runs a node, and reports a failure.
fn run_and_report<R, L, S: Stores + Sync>(
    rt: &R,
    log: &L,
    alloc: Global,
    node: &Node,
    stores: &S,
    runtime: NodeRuntime<S::Store>,
    shutdown: &Shutdown,
)
where
    R: Threads + Wait + Clock + Sockets + Eprint + Sync,
    L: Log + Sync,
{
    if let Err(failure) = run_node(rt, log, alloc, node, stores, runtime) {
        match failure {
            Failure::Journal(why) => print_trouble(rt, Trouble::Journal(node.number(), why)),
            Failure::Run => print_trouble(rt, Trouble::Run(node.number())),
        }
        shutdown.announce(rt, End::Failed);
    }
}

/// Starts the thread of a node. If no thread is to be had, it announces the end.
fn start<'s, E, R, L, S: Stores + Sync + 's>(
    scope: &Scope<'s, E>,
    rt: &'s R,
    log: &'s L,
    alloc: Global,
    node: &'s Node,
    stores: &'s S,
    runtime: NodeRuntime<S::Store>,
    shutdown: &'s Shutdown,
)
where
    R: Threads + Wait + Clock + Sockets + Eprint + Sync,
    L: Log + Sync,
{
    if scope
        .spawn(move || run_and_report(rt, log, alloc, node, stores, runtime, shutdown))
        .is_err()
    {
        print_trouble(rt, Trouble::Run(node.number()));
        shutdown.announce(rt, End::Failed);
    }
}

/// Starts the threads of all nodes.
fn start_all<'s, E, R, L, S: Stores + Sync + 's>(
    scope: &Scope<'s, E>,
    rt: &'s R,
    log: &'s L,
    alloc: Global,
    nodes: &'s [Node],
    stores: &'s S,
    runtimes: Vec<NodeRuntime<S::Store>>,
    shutdown: &'s Shutdown,
)
where
    R: Threads + Wait + Clock + Sockets + Eprint + Sync,
    L: Log + Sync,
{
    for (node, runtime) in nodes.iter().zip(runtimes) {
        start(scope, rt, log, alloc, node, stores, runtime, shutdown);
    }
}

/// Runs the nodes' threads, until the input ends or a node fails.
fn run_all<R, L, S: Stores + Sync>(
    rt: &R,
    log: &L,
    alloc: Global,
    nodes: &[Node],
    stores: &S,
    runtimes: Vec<NodeRuntime<S::Store>>,
    shutdown: &Shutdown,
)
where
    R: Threads + Wait + Clock + Sockets + Eprint + Sync,
    L: Log + Sync,
{
    thread::scope(thread::scope_env(), rt, move |scope| {
        start_all(scope, rt, log, alloc, nodes, stores, runtimes, shutdown);
        shutdown.wait(rt);
        for node in nodes {
            node.end_program(rt);
        }
    })
}

/// Opens all journals, starts all runs, and binds all ports, in this order, by node number.
fn begin<R: Sockets, S: Stores>(
    rt: &R,
    alloc: Global,
    nodes: &[Node],
    stores: &S,
    group: Option<&GroupName>,
) -> Result<Vec<NodeRuntime<S::Store>>, Trouble> {
    let books = books_of(alloc, nodes, stores)?;
    let begun = begun_of(alloc, nodes, books)?;
    runtimes_of(rt, alloc, nodes, begun, group)
}

/// Makes a thread read the input, which announces its end. If no thread is to be had, the run of
/// node `first` can't be started.
fn watch<R: Threads, H: Wait + Send + Drop + 'static, I: Read + Send + Drop + 'static>(
    rt: &R,
    alloc: Global,
    host: H,
    first: u8,
    input: I,
) -> Result<Arc<Shutdown>, Trouble> {
    let Ok(shutdown) = Arc::new(alloc, Shutdown::new()) else {
        return Err(Trouble::Run(first));
    };
    let Ok(theirs) = Arc::try_clone(&shutdown) else {
        return Err(Trouble::Run(first));
    };
    if thread::spawn(rt, move || drain(&host, input, &theirs)).is_err() {
        return Err(Trouble::Run(first));
    }
    Ok(shutdown)
}

/// Runs these nodes, the first of which has this number, until the input ends or a node fails.
fn serve_these<R, L, H, S, I>(
    rt: &R,
    log: &L,
    host: H,
    alloc: Global,
    first: u8,
    nodes: &[Node],
    group: Option<&GroupName>,
    stores: &S,
    input: I,
) -> Result<End, Trouble>
where
    R: Threads + Wait + Clock + Sockets + Eprint + Sync,
    L: Log + Sync,
    H: Wait + Send + Drop + 'static,
    S: Stores + Sync,
    I: Read + Send + Drop + 'static,
{
    let runtimes = begin(rt, alloc, nodes, stores, group)?;
    let shutdown = watch(rt, alloc, host, first, input)?;
    log_addresses(log, nodes, group);
    run_all(rt, log, alloc, nodes, stores, runtimes, &shutdown);
    Ok(shutdown.end(rt))
}

/// Returns the exit status of a program that ended in this way.
fn status_of(ended: Result<End, Trouble>) -> u8
    ensures { result ≡ status_of ended }
{
    match ended {
        Ok(End::Input) => 0,
        Ok(End::Failed) | Err(_) => 1,
    }
}

/// Prints why the program can't begin, if it can't, and returns the exit status.
fn close<R: Eprint>(rt: &R, ended: Result<End, Trouble>) -> u8
    ensures { result ≡ status_of ended }
{
    if let Err(trouble) = ended {
        print_trouble(rt, trouble);
    }
    status_of(ended)
}

/// Runs `nodes` nodes, 1 to 8, whose journals lie in these stores; node I listens at the port + I -
/// 1 of the loopback interface. It ends with 0 when the input ends, and with 1 at the first journal
/// that can't be opened, run that can't be started, or port that can't be bound, which it prints on
/// standard error.
pub fn serve<R, L, H, S, I>(
    rt: &R,
    log: &L,
    host: H,
    alloc: Global,
    nodes: u8,
    port: u16,
    stores: &S,
    input: I,
) -> u8
where
    R: Threads + Wait + Clock + Sockets + Eprint + Sync,
    L: Log + Sync,
    H: Wait + Send + Drop + 'static,
    S: Stores + Sync,
    I: Read + Send + Drop + 'static,
    requires nodes { (1 ≤ nodes) × (nodes ≤ MAX_NODES) }
    ensures status { result ≤ 1 }
{
    let Ok(all) = nodes_of(alloc, nodes, port) else {
        return close(rt, Err(Trouble::Run(1)));
    };
    close(
        rt,
        serve_these(rt, log, host, alloc, 1, &all, None, stores, input),
    )
}

/// Runs some nodes of a group, 1 to 8, whose journals lie in these stores. They pull from the
/// others where those are reached. It ends as `serve` does.
pub fn serve_members<R, L, H, S, I>(
    rt: &R,
    log: &L,
    host: H,
    alloc: Global,
    members: LocalMembers,
    stores: &S,
    input: I,
) -> u8
where
    R: Threads + Wait + Clock + Sockets + Eprint + Sync,
    L: Log + Sync,
    H: Wait + Send + Drop + 'static,
    S: Stores + Sync,
    I: Read + Send + Drop + 'static,
    requires nodes { (1 ≤ vec_len members.peers) × (vec_len members.peers ≤ MAX_NODES) }
    ensures status { result ≤ 1 }
{
    let first = members.first;
    let Ok((all, group)) = nodes_of_members(alloc, members) else {
        return close(rt, Err(Trouble::Run(first)));
    };
    close(
        rt,
        serve_these(
            rt,
            log,
            host,
            alloc,
            first,
            &all,
            group.as_ref(),
            stores,
            input,
        ),
    )
}
