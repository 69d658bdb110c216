// The disk of a node: the contents of its two files while no journal is open over them, and
// journals over copies of them.

use crate::drive::{Drive, FileHandle, Ills};
use crate::halt::Halt;
use crate::luck::Luck;
use sqlite::{Connection, FileStore, Options, Unknown};
use sqlite_disk::{Files, Modelled};
use state_facts::Body;
use state_ids::{Front, MAX_NODES};
use std::alloc::Global;

pub type SimStore = FileStore<Modelled<Drive, Unknown>>;

/// What a call that was cut off would have stored.
#[derive(Drop)]
pub enum Doubt {
    Nothing,
    /// A fact of the node's own.
    Fact(Body),
    /// A frame that leads to this front.
    Frame(Front),
}

/// The contents of a node's files, and the facts that they have, perhaps also those of a call that
/// was cut off.
#[derive(Drop)]
pub struct Image {
    log: Vec<u8>,
    db: Vec<u8>,
    pub front: Front,
    pub doubt: Doubt,
}

/// When the calls of a journal's files fail.
#[derive(Clone, Copy)]
pub struct DiskFaults {
    log: Ills,
    db: Ills,
}

/// The files of a journal, to read what is left of them once it is closed.
#[derive(Drop)]
pub struct Remains {
    log: FileHandle,
    db: FileHandle,
}

impl DiskFaults {
    /// No call fails.
    pub fn good() -> DiskFaults {
        let well = Ills {
            well: u64::MAX,
            fail: 0,
        };
        DiskFaults {
            log: well,
            db: well,
        }
    }

    /// Picks a call that fails, and whether all calls behind it fail too, or only a few; or no call
    /// fails.
    pub fn by(luck: &mut Luck) -> DiskFaults {
        let mut fate = DiskFaults::good();
        if luck.is_one_in(3) {
            return fate;
        }
        let fail = if luck.is_one_in(2) {
            u64::MAX
        } else {
            1 + luck.below(3)
        };
        if luck.is_one_in(4) {
            fate.db = Ills {
                well: luck.below(120),
                fail,
            };
        } else {
            fate.log = Ills {
                well: 20 + luck.below(700),
                fail,
            };
        }
        fate
    }
}

/// Returns what is left of a file.
fn left_of(file: &FileHandle, loses_power: bool) -> Result<Vec<u8>, Halt> {
    match file.left(loses_power) {
        Some(bytes) => Ok(bytes),
        None => Err(Halt::Stuck("a file is in use")),
    }
}

/// Opens a connection over files that weren't called yet. Returns `None` if one of their calls
/// fails.
fn connect(
    alloc: Global,
    files: &Remains,
    key: u64,
    options: Options,
) -> Result<Option<Connection<SimStore>>, Halt> {
    let log = files.log.drive(key)?;
    let db = files.db.drive(key)?;
    let files = Files {
        log: Modelled::new(log, true, key),
        db: Modelled::new(db, false, key),
    };
    match Connection::open_files(alloc, files, options) {
        Ok(connection) => Ok(Some(connection)),
        Err(_) => Ok(None),
    }
}

impl Image {
    /// Returns the disk of a new node.
    pub fn empty(alloc: Global, nodes: u8) -> Image {
        let nodes = usize::from(nodes.max(1).min(MAX_NODES));
        Image {
            log: Vec::new(alloc),
            db: Vec::new(alloc),
            front: Front::zero(nodes),
            doubt: Doubt::Nothing,
        }
    }

    /// Returns what is left of files whose connection is closed.
    pub fn of(
        files: &Remains,
        loses_power: bool,
        front: Front,
        doubt: Doubt,
    ) -> Result<Image, Halt> {
        let log = left_of(&files.log, loses_power)?;
        let db = left_of(&files.db, loses_power)?;
        Ok(Image {
            log,
            db,
            front,
            doubt,
        })
    }

    /// Makes copies of the files and opens a connection to them. Returns no connection if a call
    /// fails before it is open. The log is copied into the database file at a length that luck
    /// decides, which is sooner than in the server.
    pub fn open(
        &self,
        alloc: Global,
        fate: DiskFaults,
        luck: &mut Luck,
    ) -> Result<(Option<Connection<SimStore>>, Remains), Halt> {
        let log = FileHandle::new(alloc, &self.log, fate.log, luck.below(u64::MAX))?;
        let db = FileHandle::new(alloc, &self.db, fate.db, luck.below(u64::MAX))?;
        let files = Remains { log, db };
        let (checkpoint_frames, seed) = (5 + luck.place(60), luck.below(u64::MAX));
        let options = Options {
            cache_pages: 24,
            spill_pages: 24,
            checkpoint_frames,
            seed,
        };
        let connection = connect(alloc, &files, luck.below(u64::MAX), options)?;
        Ok((connection, files))
    }
}
