// A book's clerk that is called by its bound: over a journal in memory, and over files that can
// stop.
ghost use Rattle.std.specs.Prelude.{◌≡◌, [], None, Some, IfOk};

use sqlite::{Alter, Connection, FileStore, Options};
use sqlite_disk::{Files, Fuse, Memory};
use state_book::{Book, BookClerk, Call, Clerk, Pass, Receipt, Reply};
use state_facts::Refusal;
use state_ids::NodeId;
use std::alloc::Global;
use std::test::Fail;

/// Opens the book of node 1 of 2 over a connection. The book is opened only here, because a
/// function is proved sooner without the long clauses of that call. For the same reason each other
/// long call is in a function of its own.
fn open<S: Alter + Drop>(
    alloc: Global,
    connection: Connection<S>,
) -> Result<Book<S>, (Refusal, Connection<S>)>
    ensures { IfOk result (λ book. (book.opening ≡ None)
        × (book.trail ≡ []) × (book.journal.opened ≡ connection)) }
{
    match NodeId::new(1) {
        Ok(me) => Book::open(alloc, connection, me, 2),
        Err(_) => Err((Refusal::BadText, connection)),
    }
}

/// Opens the book over a connection.
fn opened<S: Alter + Drop>(alloc: Global, connection: Connection<S>) -> Result<Book<S>, Fail>
    ensures { IfOk result (λ book. (book.opening ≡ None)
        × (book.trail ≡ []) × (book.journal.opened ≡ connection)) }
{
    match open(alloc, connection) {
        Ok(book) => Ok(book),
        Err((refusal, _connection)) => Err(Fail::new(refusal)),
    }
}

/// Opens the book over a connection and begins a run. Returns the book and the run's pass.
pub(crate) fn begun<S: Alter + Drop>(
    alloc: Global,
    connection: Connection<S>,
) -> Result<(Book<S>, Pass), Fail>
    ensures { IfOk result (λ made. (made.0.opening ≡ Some made.0.records)
        × (made.0.trail ≡ []) × (made.0.journal.opened ≡ connection)) }
{
    let mut book = opened(alloc, connection)?;
    let pass = book.start_run(alloc)?;
    Ok((book, pass))
}

/// Makes a clerk of a run over a connection.
pub(crate) fn clerk<S: Alter + Drop>(
    alloc: Global,
    connection: Connection<S>,
) -> Result<BookClerk<S>, Fail> {
    let (book, pass) = begun(alloc, connection)?;
    Ok(BookClerk::new(alloc, book, pass))
}

/// Whether nothing is due.
fn is_idle(reply: &Reply) -> bool {
    match reply {
        Reply::Due(duties) => duties.as_slice().is_empty(),
        _ => false,
    }
}

/// Whether a clerk says that nothing is due.
fn idles<C: Clerk>(alloc: Global, clerk: &mut C) -> Result<bool, Fail> {
    clerk.call(alloc, Call::Duties, 0)?;
    Ok(is_idle(clerk.reply()))
}

/// Checks that a book has what a pass has seen, and these receipts.
fn looked<S: Alter>(book: &Book<S>, pass: &Pass, receipts: &[Receipt]) -> Result<(), Refusal> {
    book.look(pass, receipts)
}

/// Lets a clerk of a book over a connection make one call, and checks the trail.
fn plays<S: Alter + Drop>(alloc: Global, connection: Connection<S>) -> Result<Connection<S>, Fail> {
    let mut clerk = clerk(alloc, connection)?;
    let is_idle = idles(alloc, &mut clerk)?;
    let (book, pass, receipts) = clerk.into_parts();
    let is_whole = book.in_run() && book.trail().len() == 1;
    looked(&book, &pass, &receipts)?;
    if is_idle && is_whole {
        return Ok(book.close());
    }
    Err(Fail::new("another trail"))
}

#[test]
fn a_clerk_of_a_book_in_memory(rt: HostRuntime) -> Result<(), Fail> {
    let alloc = rt.alloc();
    let _connection = plays(alloc, Connection::open_in_memory(alloc)?)?;
    Ok(())
}

/// Opens a connection to new files that can stop.
fn fused(alloc: Global) -> Result<Connection<FileStore<Fuse<Memory>>>, Fail> {
    let files = Files {
        log: Fuse::new(Memory::new(alloc), u64::MAX),
        db: Fuse::new(Memory::new(alloc), u64::MAX),
    };
    match Connection::open_files(alloc, files, Options::new(7)) {
        Ok(connection) => Ok(connection),
        Err((error, _left)) => Err(Fail::new(error)),
    }
}

#[test]
fn a_clerk_of_a_book_over_files(rt: HostRuntime) -> Result<(), Fail> {
    let alloc = rt.alloc();
    let _connection = plays(alloc, fused(alloc)?)?;
    Ok(())
}
