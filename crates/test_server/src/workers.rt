// Two workers at one desk, each held before its first call until the other has arrived there.
ghost use Rattle.std.specs.Prelude.{◌≡◌, [], ⊤, Some, false};

use node_worker::{Addressee, Arrivals, Connection, Gate, work};
use sqlite::{Alter, Connection as Database};
use state_book::{Book, Desk, DeskClerk, DeskPass, Reply, Run};
use state_ids::{LraStatus, NodeId};
use std::alloc::Global;
use std::marker::Brand;
use std::sync::Wait;
use std::sync::atomic::{AtomicU64, Ordering};
use std::sync::ledger::Blank;
use std::test::Fail;
use std::thread;
use std::thread::{Threads, join};
use std::time::{Clock, Duration};
use wire_api::Paths;
use wire_http::{OverRead, OverWrite};

/// Requests that arrive one after another.
#[derive(Drop)]
struct Given {
    alloc: Global,
    texts: &'static [&'static str],
    given: usize,
}

impl Arrivals for Given {
    type Reader = OverRead<&'static [u8]>;

    type Writer = OverWrite<Vec<u8>>;

    ghost gives = { λ _ _ _. ⊤ };

    fn next(&mut self) -> Option<Connection<OverRead<&'static [u8]>, OverWrite<Vec<u8>>>> {
        let text = self.texts.get(self.given)?;
        self.given = self.given.saturating_add(1);
        Some(Connection {
            reader: OverRead::new(text.as_bytes()),
            writer: OverWrite::new(Vec::new(self.alloc)),
            now: 0,
        })
    }
}

/// Holds each worker before a call until two have arrived there, at most 10,000 turns. Counts the
/// workers that arrive before a call, those that have made one, and those that waited without
/// success.
#[derive(Drop)]
struct Meeting<'a, C: Clock> {
    clock: &'a C,
    came: &'a AtomicU64,
    left: &'a AtomicU64,
    missed: &'a AtomicU64,
}

impl<'a, C: Clock> Gate for Meeting<'a, C> {
    fn pause(&self, place: u64) {
        if place != 1 {
            self.left.fetch_add(u64::from(place == 2), Ordering::SeqCst);
            return;
        }
        self.came.fetch_add(1, Ordering::SeqCst);
        for _turn in 0..10_000u32 {
            if self.came.load(Ordering::SeqCst) >= 2 {
                return;
            }
            thread::sleep(self.clock, Duration::from_millis(1));
        }
        self.missed.fetch_add(1, Ordering::SeqCst);
    }
}

const FIRST: [&str; 3] = [
    "POST /lra HTTP/1.1\r\nHost: p\r\n\r\n",
    "PUT /lra/00000000-0000-8001-8000-000000000001/close HTTP/1.1\r\nHost: p\r\nContent-Length: 0\r\n\r\n",
    "GET /lra/00000000-0000-8001-8000-000000000001 HTTP/1.1\r\nHost: p\r\n\r\n",
];

/// The calls of both workers.
const CALLS: u64 = 4;

const SECOND: [&str; 1] = [
    "GET /lra/00000000-0000-8002-8000-000000000001 HTTP/1.1\r\nHost: p\r\n\r\n",
];

/// Lets a worker serve these requests.
fn serve<J: Run, S: Alter, R: Wait + Clock, G: Gate>(
    rt: &R,
    alloc: Global,
    desk: &Desk<J, S>,
    pass: DeskPass<J>,
    texts: &'static [&'static str],
    gate: &G,
) -> DeskPass<J> {
    let clerk = DeskClerk::new(rt, desk, pass);
    let mut given = Given {
        alloc,
        texts,
        given: 0,
    };
    let Ok(paths) = Paths::new(alloc) else {
        return clerk.into_pass();
    };
    let anyone = Addressee::anyone();
    let (clerk, _ending) = work(rt, alloc, &paths, &mut given, clerk, gate, &anyone);
    clerk.into_pass()
}

/// Whether a reply shows an LRA closed.
fn is_closed(reply: &Reply) -> bool {
    matches!(reply, Reply::Shown(_, LraStatus::Closed))
}

/// Whether the last of three receipts shows an LRA closed.
fn ends_closed<J: Run>(pass: &DeskPass<J>) -> bool {
    let receipts = pass.receipts();
    receipts.len() == 3 && is_closed(&receipts[2].reply)
}

/// Lets two workers serve at a desk, and checks that their receipts are then its trail.
fn by_two<J: Run + Send + Sync, S: Alter + Send + Drop, R: Threads + Wait + Clock + Sync>(
    rt: &R,
    alloc: Global,
    book: Book<S>,
    blank: Blank,
) -> Result<(), Fail>
    requires run { (book.opening ≡ Some J.opening.view)
        × (book.me ≡ J.opening.node) × (book.trail ≡ []) }
    requires own { J.opening.own ≡ false }
    requires blank { (blank.name ≡ J.name) × (blank.parts ≡ J.parts) × (blank.parts ≡ 2) }
{
    let Ok((desk, mut passes)) = Desk::<J, S>::new(alloc, book, blank, 2) else {
        return Err(Fail::new("no desk"));
    };
    let (Some(one), Some(two)) = (passes.pop(), passes.pop()) else {
        return Err(Fail::new("no passes"));
    };
    let (came, left, missed) = (AtomicU64::new(0), AtomicU64::new(0), AtomicU64::new(0));
    let gate = Meeting {
        clock: rt,
        came: &came,
        left: &left,
        missed: &missed,
    };
    let (one, two) = join(
        rt,
        || serve(rt, alloc, &desk, one, &FIRST, &gate),
        || serve(rt, alloc, &desk, two, &SECOND, &gate),
    );
    if missed.load(Ordering::SeqCst) != 0 {
        return Err(Fail::new("one waits for the other"));
    }
    if came.load(Ordering::SeqCst) != CALLS || left.load(Ordering::SeqCst) != CALLS {
        return Err(Fail::new("the gate isn't asked before and behind each call"));
    }
    if !ends_closed(&one) {
        return Err(Fail::new("the close isn't shown"));
    }
    passes.push(one)?;
    passes.push(two)?;
    let (_book, trail, found) = desk.close(passes);
    if trail.len() as u64 != CALLS {
        return Err(Fail::new("another trail"));
    }
    Ok(found?)
}

#[test]
fn two_workers_on_one_desk(rt: HostRuntime) -> Result<(), Fail> {
    let alloc = rt.alloc();
    let connection = Database::open_in_memory(alloc)?;
    let mut book = match Book::open(alloc, connection, NodeId::new(1)?, 1) {
        Ok(book) => book,
        Err(_) => return Err(Fail::new("no book")),
    };
    let _pass = book.start_run(alloc)?;
    by_two::<Brand, _, _>(&rt, alloc, book, Blank::new(2))
}
