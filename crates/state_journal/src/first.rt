// The state of a connection when its journal was opened.
ghost use Rattle.std.specs.Prelude.{◌≡◌};
ghost use Rattle.std.specs.Borrow.{ftrue};
ghost use Rattle.sqlite.specs.Held.{Held, held_code};

use sqlite::{Alter, Connection};
use std::marker::{Model, PhantomData};

/// The state of a connection when its journal was opened, which only clauses read. It has no bytes.
/// With std's `Snapshot` in its place, a journal isn't found to cross threads.
#[derive(Drop)]
pub struct First<S: Alter> {
    of: PhantomData<S>,
    pub ghost held: { Held S } by { held_code S.code },
}

impl<S: Alter> Model for First<S> {
    ghost also_owns = { λ _. ftrue };
}

// It owns nothing.
unsafe impl<S: Alter + Send> Send for First<S> {}

unsafe impl<S: Alter + Sync> Sync for First<S> {}

impl<S: Alter> First<S> {
    /// Takes the state of this connection.
    pub fn of(connection: &Connection<S>) -> First<S>
        ensures { result.held ≡ connection.now }
    {
        let _ = connection;
        First { of: PhantomData }
    }
}
