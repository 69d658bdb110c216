// Opens a node's book, and opens it again after its journal has failed.
ghost use Rattle.std.specs.Prelude.{◌≡◌, IfOk, IfSome, None};
ghost use Rattle.state_ids.specs.Fronts.{IsBelow};

use crate::node::Failure;
use crate::node::backoff::Backoff;
use crate::node::closed::Closed;
use crate::node::opening::{Stores, Unopened};
use crate::run::connections::Connections;
use crate::shared::Shared;
use log::{Log, warn};
use node_sockets::{Sockets, now};
use node_threads::Node;
use node_worker::{Open, work};
use sqlite::{Alter, Connection};
use state_book::Book;
use state_facts::Refusal;
use state_ids::{Front, MAX_NODES};
use std::alloc::Global;
use std::sync::Wait;
use std::time::{Clock, Duration};

/// How many files a journal takes, with its log and the look at its folder.
const FILES: u8 = 4;

/// Opens the journal of a node, and returns its book. Errors: why it can't be opened.
pub fn open_book<S: Stores>(
    alloc: Global,
    stores: &S,
    node: &Node,
) -> Result<Book<S::Store>, Unopened>
    ensures { IfOk result (λ b. b.opening ≡ None) }
{
    let connection = stores.open(node.number())?;
    book_over(alloc, node, connection)
}

/// Does the same for a journal that was open before, and had at least these facts. It makes no
/// file, and accepts none with fewer facts.
fn book_again<S: Stores>(
    alloc: Global,
    stores: &S,
    node: &Node,
    had: &Front,
) -> Result<Book<S::Store>, Unopened>
    ensures { IfOk result (λ b. (b.opening ≡ None) × IsBelow had.now b.records.front) }
{
    stores.is_there(node.number())?;
    let connection = stores.open(node.number())?;
    let book = book_over(alloc, node, connection)?;
    if !had.below(&book.front()) {
        return Err(Unopened::Older);
    }
    Ok(book)
}

/// Makes the book of a node over a connection to its journal.
fn book_over<S: Alter + Drop>(
    alloc: Global,
    node: &Node,
    connection: Connection<S>,
) -> Result<Book<S>, Unopened>
    ensures { IfOk result (λ b. b.opening ≡ None) }
{
    let me = node.me;
    if me.number() > node.nodes || node.nodes > MAX_NODES {
        return Err(Unopened::Broken(0));
    }
    match Book::open(alloc, connection, me, usize::from(node.nodes)) {
        Ok(book) => Ok(book),
        Err((Refusal::BadFrame(place), _)) => Err(Unopened::Broken(place)),
        Err((Refusal::NoMemory, _)) => Err(Unopened::NoMemory),
        Err(_) => Err(Unopened::NoJournal),
    }
}

/// Warns that a journal can't be opened again, at most once a second.
fn warn_of_journal<R: Clock, L: Log>(
    rt: &R,
    log: &L,
    node: &Node,
    why: Unopened,
    backoff: &mut Backoff,
) {
    let now = now(rt);
    if backoff.note_warning(now) {
        warn!(log; "node {}: can't open its journal again yet: {}", node.number(), why);
    }
}

/// Closes the connections that have waited longest for a worker, so that a journal and its log each
/// find a file handle.
fn close_some<R: Wait>(rt: &R, node: &Node) {
    for _turn in 0..FILES {
        node.queue.close_first(rt);
    }
}

/// Answers what comes while the journal is closed with E19, for this long or until the program is
/// to end.
fn refuse_for<R: Wait + Clock + Sockets>(
    rt: &R,
    alloc: Global,
    node: &Node,
    shared: &Shared,
    time: Duration,
) {
    let (until, addressee) = (now(rt).saturating_add(time), &shared.addressee);
    let mut connections = Connections::between_runs(rt, alloc, node, addressee, until);
    for _ in rt.forever() {
        let (_clerk, ending) = work(
            rt,
            alloc,
            &shared.paths,
            &mut connections,
            Closed::new(alloc),
            &Open,
            &shared.addressee,
        );
        connections.close_served();
        if ending.is_none() {
            return;
        }
    }
}

/// Opens again the book of a node whose journal was closed with at least these facts, once that is
/// possible; returns `None` if the program is to end before that. Meanwhile each request is
/// refused. The time before the next try grows each time.
pub fn reopened<R, L: Log, S: Stores>(
    rt: &R,
    log: &L,
    alloc: Global,
    node: &Node,
    stores: &S,
    shared: &Shared,
    had: &Front,
    backoff: &mut Backoff,
) -> Result<Option<Book<S::Store>>, Failure>
where
    R: Wait + Clock + Sockets,
    ensures { IfOk result (λ next. IfSome next (λ b. b.opening ≡ None)) }
{
    node.core.note_shut(rt, true);
    for _ in rt.forever() {
        if node.signal.has_ended(rt) {
            return Ok(None);
        }
        let why = match book_again(alloc, stores, node, had) {
            Ok(book) => {
                node.core.note_shut(rt, false);
                backoff.end_rest();
                node.core.spare_journal(rt, backoff.next_pause());
                return Ok(Some(book));
            }
            Err(why) => why,
        };
        if why.is_for_good() {
            return Err(Failure::Journal(why));
        }
        node.counts.failure(rt);
        warn_of_journal(rt, log, node, why, backoff);
        refuse_for(rt, alloc, node, shared, backoff.next_rest());
        if why == Unopened::NoFile {
            close_some(rt, node);
        }
    }
    unreachable!()
}
