// A book in which a run has just begun.
ghost use Rattle.std.specs.Prelude.{◌≡◌, None};
ghost use Rattle.node_server.specs.Running.{IsFresh};

use sqlite::Alter;
use state_book::Book;
use std::alloc::Global;

/// A book in which no run is on.
#[derive(Drop)]
pub struct Shut<S: Alter + Drop> {
    pub book: Book<S>,
    ghost shut: { book.opening ≡ None },
}

/// A book in which a run has just begun.
#[derive(Drop)]
pub struct FreshRun<S: Alter + Drop> {
    pub book: Book<S>,
    ghost fresh: { IsFresh book },
}

/// Begins a run in a book. Errors: the same book, if there is no memory for a run.
pub fn begun_by<S: Alter + Drop>(alloc: Global, shut: Shut<S>) -> Result<FreshRun<S>, Shut<S>> {
    let Shut { mut book } = shut;
    match book.start_run(alloc) {
        Ok(_) => Ok(FreshRun { book }),
        Err(_) => Err(Shut { book }),
    }
}
