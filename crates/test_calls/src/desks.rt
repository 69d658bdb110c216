// A desk at which a worker makes calls, and the rows of the book that comes back.
ghost use Rattle.std.specs.Prelude.{◌≡◌, [], Some, IfOk, IsTrue};
ghost use Rattle.sqlite.specs.Held.{state};
ghost use Rattle.sqlite.specs.State.{HasCleanDisk};
ghost use Rattle.sqlite.specs.Steps.{over_memory};
ghost use Rattle.state_journal.specs.Keeping.{IsOwn};
ghost use Rattle.state_journal.specs.Tables.{IsJournal};

use crate::books::begun;
use sqlite::{Alter, Connection, MemStore};
use state_book::{Book, Call, Desk, DeskPass, Run};
use std::alloc::Global;
use std::marker::Brand;
use std::sync::Wait;
use std::sync::ledger::Blank;
use std::test::Fail;

/// Makes a call at a desk. Returns whether it was answered.
fn makes_call<J: Run, S: Alter, R: Wait>(
    rt: &R,
    alloc: Global,
    desk: &Desk<J, S>,
    pass: &mut DeskPass<J>,
) -> bool {
    desk.call(alloc, rt, pass, Call::Duties, 0).is_ok()
}

/// Closes a book whose journal was opened on a store of its own.
fn closed<S: Alter + Drop>(book: Book<S>) -> Connection<S>
    requires { IsOwn (state S.Store book.journal.opened) }
    ensures { HasCleanDisk (state S.Store result) →
        IsTrue (state S.Store result).is_open → IsJournal (state S.Store result) }
{
    book.close()
}

/// Makes two calls at a desk of one worker, and closes it. If the journal was opened on a store of
/// its own, the connection that comes back is still a journal, if it is open.
fn by_one<J: Run, S: Alter + Drop, R: Wait>(
    rt: &R,
    alloc: Global,
    book: Book<S>,
    blank: Blank,
) -> Result<Connection<S>, Fail>
    requires run { (book.opening ≡ Some J.opening.view)
        × (book.me ≡ J.opening.node) × (book.trail ≡ []) }
    requires own { IsTrue J.opening.own × IsOwn (state S.Store book.journal.opened) }
    requires blank { (blank.name ≡ J.name) × (blank.parts ≡ J.parts) × (blank.parts ≡ 1) }
    ensures { IfOk result (λ c. HasCleanDisk (state S.Store c) →
        IsTrue (state S.Store c).is_open → IsJournal (state S.Store c)) }
{
    let Ok((desk, mut passes)) = Desk::<J, S>::new(alloc, book, blank, 1) else {
        return Err(Fail::new("no desk"));
    };
    let Some(mut pass) = passes.pop() else {
        return Err(Fail::new("no pass"));
    };
    if !makes_call(rt, alloc, &desk, &mut pass) {
        return Err(Fail::new("the first call was refused"));
    }
    if !makes_call(rt, alloc, &desk, &mut pass) {
        return Err(Fail::new("the second call was refused"));
    }
    passes.push(pass)?;
    let (book, _trail, found) = desk.close(passes);
    found?;
    Ok(closed(book))
}

/// Makes a book over a new store in memory, with a run begun.
fn begun_in_memory(alloc: Global) -> Result<Book<MemStore>, Fail>
    ensures { IfOk result (λ book. (book.opening ≡ Some book.records)
        × (book.trail ≡ []) × IsOwn (state over_memory book.journal.opened)) }
{
    let (book, _pass) = begun(alloc, Connection::open_in_memory(alloc)?)?;
    Ok(book)
}

#[test]
fn a_desk_is_called(rt: HostRuntime) -> Result<(), Fail> {
    let alloc = rt.alloc();
    let book = begun_in_memory(alloc)?;
    let _connection = by_one::<Brand, _, _>(&rt, alloc, book, Blank::new(1))?;
    Ok(())
}
