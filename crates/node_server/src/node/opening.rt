// Where the journals of nodes lie.

use sqlite::{Alter, Connection, Error, ErrorCode, FileFrom, FileStore, Start};
use std::alloc::Global;
use std::fmt;
use std::fs::File;
use std::io::ErrorKind;
use std::string::String;

/// Why a journal can't be opened.
#[derive(Clone, Copy, PartialEq, Eq, Debug)]
pub enum Unopened {
    /// Another handle has it open.
    Locked,
    /// There is no folder, no right to the file, or no file handle left.
    NoFile,
    /// The disk failed, or is full.
    DiskFailed,
    /// Memory ran out.
    NoMemory,
    /// It is not a database, or has other tables; or the disk failed while it was read.
    NoJournal,
    /// The file that was open before is gone.
    Missing,
    /// It has fewer facts than the one that was open before.
    Older,
    /// It isn't this node's journal: behind this many rows comes one that breaks the format, or
    /// that another node wrote.
    Broken(u64),
}

impl Unopened {
    /// Whether it can't be opened later either.
    pub fn is_for_good(self) -> bool {
        matches!(self, Unopened::Broken(_))
    }
}

impl fmt::Display for Unopened {
    fn fmt<W: fmt::Write>(&self, f: &mut fmt::Formatter<W>) -> fmt::Result {
        match self {
            Unopened::Locked => f.write_str("another process has it open"),
            Unopened::NoFile => {
                f.write_str(
                    "the folder is missing, permission is denied, or no file descriptor is left",
                )
            }
            Unopened::DiskFailed => f.write_str("the disk failed, or is full"),
            Unopened::NoMemory => f.write_str("out of memory"),
            Unopened::NoJournal => {
                f.write_str("the file is no database, or has other tables, or the disk failed")
            }
            Unopened::Missing => f.write_str("the file is gone"),
            Unopened::Older => f.write_str("the file has fewer facts than the one before"),
            Unopened::Broken(place) => {
                write!(f, "the row after {place} isn't one of this node's journal")
            }
        }
    }
}

/// Where the journals of nodes lie.
pub trait Stores {
    type Store: Alter + Send + Drop;

    /// Opens the journal of a node, or makes it.
    fn open(&self, number: u8) -> Result<Connection<Self::Store>, Unopened>;

    /// Checks that the journal's file is there and can be read. Errors: why not. (A second method
    /// that returns a connection costs `main` of a program more steps than a check may take.)
    fn is_there(&self, number: u8) -> Result<(), Unopened>;
}

/// A folder in which node I has its journal in the file `node-I.db`. The program says what it
/// assumes about the files when they are opened.
#[derive(Drop)]
pub struct Folder<T: Start + Send + Copy> {
    host: HostRuntime,
    path: String,
    start: T,
}

impl<T: Start + Send + Copy> Folder<T> {
    /// Makes a folder of this path, whose files are opened from this start. The folder must exist.
    pub fn new(host: HostRuntime, path: String, start: T) -> Folder<T> {
        Folder { host, path, start }
    }
}

/// Returns why a journal can't be opened, given the database's error.
fn unopened_by(error: Error) -> Unopened {
    match error {
        Error::SqliteFailure(code) => match code {
            ErrorCode::CannotOpen => Unopened::NoFile,
            ErrorCode::DatabaseBusy => Unopened::Locked,
            ErrorCode::OutOfMemory => Unopened::NoMemory,
            ErrorCode::DiskFull | ErrorCode::SystemIoFailure => Unopened::DiskFailed,
            _ => Unopened::NoJournal,
        },
        _ => Unopened::NoJournal,
    }
}

/// Returns why a journal can't be opened, given the error of its file.
fn unread_by(kind: ErrorKind) -> Unopened {
    match kind {
        ErrorKind::NotFound => Unopened::Missing,
        _ => Unopened::NoFile,
    }
}

/// Returns the path of a node's journal in a folder. (It is a function of no type: see
/// docs/PROVING.md, "assumed of this thread alone".)
fn file_of(alloc: Global, folder: &str, number: u8) -> Result<String, Unopened> {
    match format!(in alloc; "{folder}/node-{number}.db") {
        Ok(file) => Ok(file),
        Err(_) => Err(Unopened::NoMemory),
    }
}

impl<T: Start + Send + Copy> Stores for Folder<T> {
    type Store = FileStore<FileFrom<T>>;

    fn open(&self, number: u8) -> Result<Connection<FileStore<FileFrom<T>>>, Unopened> {
        let file = file_of(self.host.alloc(), self.path.as_str(), number)?;
        // (A new file has no sums.)
        match Connection::open_from(&self.host, file.as_str(), false, self.start) {
            Ok(connection) => Ok(connection),
            Err((error, _)) => Err(unopened_by(error)),
        }
    }

    fn is_there(&self, number: u8) -> Result<(), Unopened> {
        let file = file_of(self.host.alloc(), self.path.as_str(), number)?;
        match File::open(&self.host, file.as_str()) {
            Ok(_file) => Ok(()),
            Err(error) => Err(unread_by(error.kind())),
        }
    }
}
