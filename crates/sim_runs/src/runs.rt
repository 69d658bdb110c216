// A run as a node uses it, whatever the book is stored on.

use crate::run::{Beginning, SimRun, begin};
use sim_env::{DiskFaults, Halt, Image, Luck, Remains, SimStore};
use sqlite::Connection;
use state_book::{Call, Reply};
use state_facts::Refusal;
use state_ids::{Front, NodeId};
use std::alloc::Global;

/// The result of opening a journal.
#[derive(Drop)]
pub enum JournalOpening<R: Drop> {
    /// A run of the book.
    Begun(R),
    /// A call of the files failed, and this is left of them.
    Failed(Remains),
}

/// A run of a node's book over its disk.
pub trait Runs: Drop + Sized {
    /// Begins the first run of a node's book over a copy of its disk, some of whose calls may fail.
    fn open(
        alloc: Global,
        copy: &Image,
        fate: DiskFaults,
        luck: &mut Luck,
        me: NodeId,
        nodes: u8,
    ) -> Result<JournalOpening<Self>, Halt>;

    /// Begins the next run of the book, over the same files.
    fn next(self, alloc: Global, me: NodeId, nodes: u8) -> Result<JournalOpening<Self>, Halt>;

    /// Returns the facts that the book has.
    fn front(&self) -> Front;

    /// Makes a call for a caller at a given time.
    fn call(&mut self, caller: usize, call: Call, now: u64) -> Result<Reply, Refusal>;

    /// Ends the run and returns what is left of its files.
    fn close(self) -> Result<Remains, Halt>;
}

/// Closes a connection and leaves its files as they are.
fn close(connection: Connection<SimStore>) {
    drop(connection.into_store().close());
}

/// Returns what is left if a book isn't opened. Only a disk may be at fault.
fn left_by(
    alloc: Global,
    refusal: Refusal,
    files: Remains,
) -> Result<JournalOpening<SimRun<SimStore>>, Halt> {
    if refusal == Refusal::JournalFailed {
        return Ok(JournalOpening::Failed(files));
    }
    Err(Halt::Found(format!(in alloc; "the journal can't be opened: {refusal}")?))
}

fn opened(
    alloc: Global,
    connection: Connection<SimStore>,
    files: Remains,
    me: NodeId,
    nodes: u8,
) -> Result<JournalOpening<SimRun<SimStore>>, Halt> {
    match begin(alloc, connection, files, me, nodes) {
        Ok(Beginning::Begun(run)) => Ok(JournalOpening::Begun(run)),
        Ok(Beginning::Refused(refusal, connection, files)) => {
            close(connection);
            left_by(alloc, refusal, files)
        }
        Err(halt) => Err(halt),
    }
}

impl Runs for SimRun<SimStore> {
    fn open(
        alloc: Global,
        copy: &Image,
        fate: DiskFaults,
        luck: &mut Luck,
        me: NodeId,
        nodes: u8,
    ) -> Result<JournalOpening<SimRun<SimStore>>, Halt> {
        let (connection, files) = match copy.open(alloc, fate, luck) {
            Ok(opened) => opened,
            Err(halt) => return Err(halt),
        };
        match connection {
            Some(connection) => opened(alloc, connection, files, me, nodes),
            None => Ok(JournalOpening::Failed(files)),
        }
    }

    fn next(
        self,
        alloc: Global,
        me: NodeId,
        nodes: u8,
    ) -> Result<JournalOpening<SimRun<SimStore>>, Halt> {
        match self.end() {
            Ok((connection, files)) => opened(alloc, connection, files, me, nodes),
            Err(halt) => Err(halt),
        }
    }

    fn front(&self) -> Front {
        self.book_front()
    }

    fn call(&mut self, caller: usize, call: Call, now: u64) -> Result<Reply, Refusal> {
        self.make(caller, call, now)
    }

    fn close(self) -> Result<Remains, Halt> {
        match self.end() {
            Ok((connection, files)) => {
                close(connection);
                Ok(files)
            }
            Err(halt) => Err(halt),
        }
    }
}
