// A run of a node: its book, and the receipts that the book's callers keep. It does what a desk of
// state_book does, without a lock and without a ledger. A desk can't be stored in a value, because
// its type has to name the run that it belongs to.
ghost use Rattle.std.specs.Prelude.{◌≡◌, ◌≤◌, IfOk, None};
ghost use Rattle.state_ids.specs.declared.TheConstants.{MAX_NODES};

use sim_env::{Halt, Remains};
use sqlite::{Alter, Connection};
use state_book::{Book, Call, Entry, Pass, Receipt, Reply};
use state_facts::Refusal;
use state_ids::{Front, MAX_NODES, NodeId};
use std::alloc::Global;

/// The callers of a node's book: the writer thread, and four workers.
const PASSES: usize = 5;

/// The number of receipts that are checked before each call; at the end of a run all of them are.
const LOOKED: usize = 8;

/// A book with a run begun, and the receipts of its callers. They share one pass, which has seen
/// all of them.
#[derive(Drop)]
pub struct SimRun<S: Alter + Drop> {
    alloc: Global,
    book: Book<S>,
    pass: Pass,
    kept: Vec<Vec<Receipt>>,
    /// The files of its journal.
    files: Remains,
}

/// The result of beginning a run over a journal.
#[derive(Drop)]
pub(crate) enum Beginning<S: Alter + Drop> {
    Begun(SimRun<S>),
    /// The book wasn't opened: the reason, the connection, and its files.
    Refused(Refusal, Connection<S>, Remains),
}

fn no_receipts(alloc: Global) -> Result<Vec<Vec<Receipt>>, Halt> {
    let mut lists = Vec::new(alloc);
    for _pass in 0..PASSES {
        lists.push(Vec::new(alloc))?;
    }
    Ok(lists)
}

/// Opens a book, with no run begun.
fn book_of<S: Alter + Drop>(
    alloc: Global,
    connection: Connection<S>,
    me: NodeId,
    nodes: u8,
) -> Result<Book<S>, (Refusal, Connection<S>)>
    requires me { me ≤ nodes }
    requires nodes { nodes ≤ MAX_NODES }
    ensures { IfOk result (λ book. book.opening ≡ None) }
{
    Book::open(alloc, connection, me, usize::from(nodes))
}

/// Begins a run of a book that has none.
fn run_of<S: Alter + Drop>(
    alloc: Global,
    mut book: Book<S>,
    files: Remains,
) -> Result<SimRun<S>, Halt>
    requires { book.opening ≡ None }
{
    let Ok(pass) = book.start_run(alloc) else {
        return Err(Halt::Stuck("no run"));
    };
    let kept = no_receipts(alloc)?;
    Ok(SimRun {
        alloc,
        book,
        pass,
        kept,
        files,
    })
}

/// Whether an entry and a receipt say the same.
fn is_told(alloc: Global, entry: &Entry, receipt: &Receipt) -> Result<bool, Halt> {
    let one = format!(in alloc; "{:?} {:?}", entry.call, entry.reply)?;
    let other = format!(in alloc; "{:?} {:?}", receipt.call, receipt.reply)?;
    Ok(one == other)
}

/// Whether each receipt agrees with the trail's entry at its place.
fn are_told(alloc: Global, trail: &[Entry], receipts: &[Receipt]) -> Result<bool, Halt> {
    for receipt in receipts {
        let Some(entry) = trail.get(place_of(receipt)) else {
            return Ok(false);
        };
        if !is_told(alloc, entry, receipt)? {
            return Ok(false);
        }
    }
    Ok(true)
}

fn place_of(receipt: &Receipt) -> usize {
    usize::try_from(receipt.index).unwrap_or(usize::MAX)
}

/// Marks the places of receipts. Returns false if one was marked before.
fn mark(receipts: &[Receipt], marked: &mut [bool]) -> bool {
    for receipt in receipts {
        let Some(slot) = marked.get_mut(place_of(receipt)) else {
            return false;
        };
        if *slot {
            return false;
        }
        *slot = true;
    }
    true
}

/// Makes room for one more item in the list at a place.
fn reserve<T>(lists: &mut [Vec<T>], place: usize) -> Result<(), Refusal> {
    let Some(list) = lists.get_mut(place) else {
        return Err(Refusal::Stopped);
    };
    list.reserve(1)?;
    Ok(())
}

/// Appends an item to the list at a place.
fn keep<T: Drop>(lists: &mut [Vec<T>], place: usize, one: T) -> Result<(), Refusal> {
    let Some(list) = lists.get_mut(place) else {
        return Err(Refusal::Stopped);
    };
    if list.push(one).is_err() {
        return Err(Refusal::NoMemory);
    }
    Ok(())
}

/// Returns the last few items of a list.
fn newest<T>(list: &[T]) -> &[T] {
    &list[list.len().saturating_sub(LOOKED)..]
}

fn are_all(marked: &[bool]) -> bool {
    for is_marked in marked {
        if !*is_marked {
            return false;
        }
    }
    true
}

/// Begins a run of the book over a journal on which no run is open.
pub(crate) fn begin<S: Alter + Drop>(
    alloc: Global,
    connection: Connection<S>,
    files: Remains,
    me: NodeId,
    nodes: u8,
) -> Result<Beginning<S>, Halt> {
    if nodes > MAX_NODES || me.number() > nodes {
        return Err(Halt::Stuck("no such node"));
    }
    match book_of(alloc, connection, me, nodes) {
        Ok(book) => match run_of(alloc, book, files) {
            Ok(run) => Ok(Beginning::Begun(run)),
            Err(halt) => Err(halt),
        },
        Err((refusal, connection)) => Ok(Beginning::Refused(refusal, connection, files)),
    }
}

/// Reports that receipts and trail differ.
fn differ(alloc: Global) -> Result<Halt, Halt> {
    Ok(Halt::Found(format!(in alloc; "receipts and trail differ")?))
}

impl<S: Alter + Drop> SimRun<S> {
    /// Returns the facts that the book has.
    pub(crate) fn book_front(&self) -> Front {
        self.book.front()
    }

    /// Checks that a caller's receipts are in the trail.
    fn look(&self, receipts: &[Receipt]) -> Result<(), Refusal> {
        self.book.look(&self.pass, receipts)
    }

    fn enter(&mut self, call: Call, now: u64) -> Result<Receipt, Refusal> {
        if !self.book.in_run() {
            return Err(Refusal::Stopped);
        }
        self.book.call(self.alloc, &mut self.pass, call, now)
    }

    /// Makes room for a caller's receipt, and checks that the newest of its other receipts are in
    /// the trail.
    fn make_room(&mut self, caller: usize) -> Result<(), Refusal> {
        reserve(&mut self.kept, caller)?;
        match self.kept.get(caller) {
            Some(receipts) => self.look(newest(receipts)),
            None => Ok(()),
        }
    }

    /// Makes a call for a caller at a given time.
    pub(crate) fn make(&mut self, caller: usize, call: Call, now: u64) -> Result<Reply, Refusal> {
        self.make_room(caller)?;
        let receipt = match self.enter(call, now) {
            Ok(receipt) => receipt,
            Err(refusal) => return Err(refusal),
        };
        let reply = receipt.reply.clone()?;
        keep(&mut self.kept, caller, receipt)?;
        Ok(reply)
    }

    /// Whether receipts are in the trail, even if the journal failed.
    fn stand(&self, receipts: &[Receipt]) -> Result<bool, Halt> {
        let Err(refusal) = self.look(receipts) else {
            return Ok(true);
        };
        if refusal != Refusal::Stopped {
            return Ok(false);
        }
        are_told(self.alloc, self.book.trail(), receipts)
    }

    /// Whether the receipts are exactly the trail's entries, each once.
    fn is_whole(&self) -> Result<bool, Halt> {
        let mut marked: Vec<bool> = Vec::new(self.alloc);
        marked.resize(self.book.trail().len(), false)?;
        for receipts in self.kept.iter() {
            if !self.stand(receipts)? || !mark(receipts, &mut marked) {
                return Ok(false);
            }
        }
        Ok(are_all(&marked))
    }

    /// Ends the run and returns the connection and its files.
    pub(crate) fn end(self) -> Result<(Connection<S>, Remains), Halt> {
        if !self.is_whole()? {
            return Err(differ(self.alloc)?);
        }
        let SimRun {
            alloc: _,
            book,
            pass: _,
            kept: _,
            files,
        } = self;
        Ok((book.close(), files))
    }
}
