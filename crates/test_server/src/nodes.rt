// Nodes on loopback.
ghost use Rattle.std.specs.Prelude.{◌≤◌, IfSome, vec_len};

use crate::loopback::{InMemory, Until, address, answers, comes_to, needs, stopped, take_part};
use crate::{halves, hanging};
use log::sink::Console;
use log::{Level, Log, Logged};
use node_agenda::Keep;
use node_server::{LocalMembers, serve, serve_members};
use node_sockets::Peer;
use node_threads::{Build, Wants};
use std::alloc::Global;
use std::io::Read;
use std::net::{Net, TcpListener, TcpStream};
use std::sync::atomic::{AtomicU64, Ordering};
use std::sync::{Arc, Wait};
use std::test::Fail;
use std::thread::{Threads, join};
use std::time::Clock;

/// The ports of the nodes of the first test, and of its participant.
const PORT: u16 = 18_470;

const PARTICIPANT: u16 = 18_477;

/// The number of node 1's next fact, after a begin, a join, a close and the participant's answer.
const NEXT: u64 = 5;

const BEGIN: &str = "POST /lra HTTP/1.1\r\nHost: p\r\nContent-Length: 2\r\n\r\n{}";

const BEGUN: &str =
    "HTTP/1.1 201 Created\r\nLong-Running-Action: urn:uuid:00000000-0000-8001-8000-000000000001\r\nContent-Type: application/json\r\nContent-Length: 64\r\nConnection: close\r\n\r\n{\"lra\":\"00000000-0000-8001-8000-000000000001\",\"status\":\"Active\"}";

const JOIN: &str =
    "PUT /lra/00000000-0000-8001-8000-000000000001/join HTTP/1.1\r\nHost: p\r\nContent-Length: 79\r\n\r\n{\"compensate\":\"http://127.0.0.1:18477/c\",\"complete\":\"http://127.0.0.1:18477/k\"}";

const JOINED: &str =
    "HTTP/1.1 200 OK\r\nLong-Running-Action-Recovery: /lra/00000000-0000-8001-8000-000000000001/member/1\r\nContent-Type: application/json\r\nContent-Length: 76\r\nConnection: close\r\n\r\n{\"member\":1,\"recovery\":\"/lra/00000000-0000-8001-8000-000000000001/member/1\"}";

const CLOSE: &str =
    "PUT /lra/00000000-0000-8001-8000-000000000001/close HTTP/1.1\r\nHost: p\r\nContent-Length: 0\r\n\r\n";

const CLOSING: &str =
    "HTTP/1.1 200 OK\r\nContent-Type: application/json\r\nContent-Length: 65\r\nConnection: close\r\n\r\n{\"lra\":\"00000000-0000-8001-8000-000000000001\",\"status\":\"Closing\"}";

const STATUS: &str = "GET /lra/00000000-0000-8001-8000-000000000001 HTTP/1.1\r\nHost: p\r\n\r\n";

const CLOSED: &str =
    "HTTP/1.1 200 OK\r\nContent-Type: application/json\r\nContent-Length: 64\r\nConnection: close\r\n\r\n{\"lra\":\"00000000-0000-8001-8000-000000000001\",\"status\":\"Closed\"}";

/// The port of the first node of the group whose nodes pull from one another as if they were in
/// processes of their own.
const APART: u16 = 18_492;

const ACTIVE: &str =
    "HTTP/1.1 200 OK\r\nContent-Type: application/json\r\nContent-Length: 64\r\nConnection: close\r\n\r\n{\"lra\":\"00000000-0000-8001-8000-000000000001\",\"status\":\"Active\"}";

const GONE: &str =
    "HTTP/1.1 410 Gone\r\nContent-Type: application/json\r\nContent-Length: 24\r\nConnection: close\r\n\r\n{\"refused\":\"E3 NotHeld\"}";

/// Begins an LRA at node 1, lets a participant join, closes the LRA, and waits until node 2 shows
/// it closed, while four connections send nothing and two have sent half a request.
fn visit<R: Net<Listener = TcpListener, Stream = TcpStream> + Clock>(rt: &R) -> Result<(), Fail> {
    let participant = TcpListener::bind(rt, address(PARTICIPANT))?;
    needs(comes_to(rt, PORT, BEGIN, BEGUN)?, "no LRA was begun")?;
    let _silent = (
        stopped(rt, PORT, "")?,
        stopped(rt, PORT, "")?,
        stopped(rt, PORT, "")?,
        stopped(rt, PORT, "")?,
    );
    let _half = (
        stopped(rt, PORT, "GET /lra HT")?,
        stopped(rt, PORT, "GET /lra HT")?,
    );
    needs(answers(rt, PORT, JOIN, JOINED)?, "nobody joined")?;
    needs(answers(rt, PORT, CLOSE, CLOSING)?, "it isn't closing")?;
    needs(take_part(rt, &participant)?, "nobody was called")?;
    needs(comes_to(rt, PORT, STATUS, CLOSED)?, "node 1 shows it open")?;
    needs(
        comes_to(rt, PORT + 1, STATUS, CLOSED)?,
        "node 2 shows it open",
    )
}

/// Does the same, and then sends half a request, after which the run of its node ends.
fn visit_both<R: Net<Listener = TcpListener, Stream = TcpStream> + Clock>(
    rt: &R,
) -> Result<(), Fail> {
    visit(rt)?;
    halves::visit(rt, PORT)
}

/// Runs two nodes until the visit is over.
fn two_serve<R, L, H>(rt: &R, log: &L, host: H, clock: H, alloc: Global) -> Result<u8, Fail>
where
    R: Threads + Wait + Clock + Net<Listener = TcpListener, Stream = TcpStream> + Eprint + Sync,
    L: Log + Sync,
    H: Wait + Clock + Send + Drop + 'static,
{
    let over = Arc::new(alloc, AtomicU64::new(0))?;
    let input = Until {
        clock,
        over: Arc::try_clone(&over)?,
    };
    let stores = InMemory { alloc };
    let (status, visited) = join(
        rt,
        || serve(rt, log, host, alloc, 2, PORT, &stores, input),
        || {
            let visited = match visit_both(rt) {
                Ok(()) => hanging::visit(rt, alloc, PORT, NEXT),
                Err(failed) => Err(failed),
            };
            over.store(1, Ordering::SeqCst);
            visited
        },
    );
    visited?;
    Ok(status)
}

#[test]
fn two_nodes_on_loopback(rt: HostRuntime) -> Result<(), Fail> {
    let logged = Logged::new(&rt, Level::Warn, Console(&rt));
    let status = two_serve(&rt, &logged, rt, rt, rt.alloc())?;
    assert_eq!(&rt; status, 0);
    Ok(())
}

/// Begins an LRA at node 1 of a group, which node 2 shows, and closes it. Then both nodes purge it
/// on their own.
fn visit_group<R: Net<Listener = TcpListener, Stream = TcpStream> + Clock>(
    rt: &R,
) -> Result<(), Fail> {
    needs(comes_to(rt, APART, BEGIN, BEGUN)?, "no LRA was begun")?;
    needs(
        comes_to(rt, APART + 1, STATUS, ACTIVE)?,
        "node 2 doesn't show it",
    )?;
    needs(answers(rt, APART, CLOSE, CLOSED)?, "it isn't closed")?;
    needs(comes_to(rt, APART, STATUS, GONE)?, "it isn't purged")?;
    needs(
        comes_to(rt, APART + 1, STATUS, GONE)?,
        "node 2 still shows it",
    )
}

/// Returns how a node of the group is reached.
fn peer(alloc: Global, port: u16) -> Option<Peer> {
    let host = String::from_str(alloc, "127.0.0.1").ok()?;
    Some(Peer { host, port })
}

/// Makes both nodes of the group, in this process. They purge what has ended at once.
fn group(alloc: Global) -> Option<LocalMembers>
    ensures { IfSome result (λ members. (1 ≤ vec_len members.peers) × (vec_len members.peers ≤ 8)) }
{
    let mut peers = Vec::new(alloc);
    for port in APART..=APART + 1 {
        if peers.push(peer(alloc, port)?).is_err() {
            return None;
        }
    }
    if peers.is_empty() || peers.len() > 8 {
        return None;
    }
    Some(LocalMembers {
        first: 1,
        last: 2,
        peers,
        listen: None,
        operate: None,
        names: String::new(alloc),
        keep: Keep {
            ended: Some(0),
            failed: None,
        },
        group: None,
        wants: Wants::none(),
        anew: false,
        build: Build::said(alloc, "1.2.3", "unknown", "none").ok()?,
    })
}

/// Serves the group until the input ends.
fn serve_group<R, L, H, I>(
    rt: &R,
    log: &L,
    host: H,
    alloc: Global,
    stores: &InMemory,
    input: I,
) -> u8
where
    R: Threads + Wait + Clock + Net<Listener = TcpListener, Stream = TcpStream> + Eprint + Sync,
    L: Log + Sync,
    H: Wait + Send + Drop + 'static,
    I: Read + Send + Drop + 'static,
{
    let Some(members) = group(alloc) else {
        return 1;
    };
    serve_members(rt, log, host, alloc, members, stores, input)
}

/// Runs two nodes of a group until the visit is over.
fn two_members_serve<R, L, H>(rt: &R, log: &L, host: H, clock: H, alloc: Global) -> Result<u8, Fail>
where
    R: Threads + Wait + Clock + Net<Listener = TcpListener, Stream = TcpStream> + Eprint + Sync,
    L: Log + Sync,
    H: Wait + Clock + Send + Drop + 'static,
{
    let over = Arc::new(alloc, AtomicU64::new(0))?;
    let input = Until {
        clock,
        over: Arc::try_clone(&over)?,
    };
    let stores = InMemory { alloc };
    let (status, visited) = join(
        rt,
        || serve_group(rt, log, host, alloc, &stores, input),
        || {
            let visited = visit_group(rt);
            over.store(1, Ordering::SeqCst);
            visited
        },
    );
    visited?;
    Ok(status)
}

#[test]
fn two_members_on_loopback(rt: HostRuntime) -> Result<(), Fail> {
    let logged = Logged::new(&rt, Level::Warn, Console(&rt));
    let status = two_members_serve(&rt, &logged, rt, rt, rt.alloc())?;
    assert_eq!(&rt; status, 0);
    Ok(())
}

#[test]
fn a_port_in_use(rt: HostRuntime) -> Result<(), Fail> {
    let alloc = rt.alloc();
    let _taken = TcpListener::bind(&rt, address(18_491))?;
    let logged = Logged::new(&rt, Level::Warn, Console(&rt));
    let input = Until {
        clock: rt,
        over: Arc::new(alloc, AtomicU64::new(1))?,
    };
    let status = serve(
        &rt,
        &logged,
        rt,
        alloc,
        2,
        18_490,
        &InMemory { alloc },
        input,
    );
    assert_eq!(&rt; status, 1);
    Ok(())
}
