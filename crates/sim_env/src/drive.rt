// A file in memory as a database sees it. `sqlite_disk` says what may happen to bytes that were
// written and not synced.
ghost use Rattle.std.specs.Prelude.{◌≡◌, ◌<◌, ◌≤◌, ◌^◌, [], ◌∷◌, length, IfOk};
ghost use Rattle.sqlite_disk.specs.Events.{settled};
ghost use Rattle.sqlite_disk.specs.Refusal.{is_no_room, as_number};

use crate::file_calls::FileCall;
use crate::file_log::FileLog;
use crate::luck::Luck;
use sqlite_disk::{Calls, is_no_room};
use std::alloc::{AllocError, Global};
use std::cell::RefCell;
use std::io;
use std::rc::Rc;
use wire_http::Log;

const MAX_OFFSET: usize = (1 << 63) - 1;

/// What one call since the last sync changed.
#[derive(Drop)]
struct Undo {
    at: usize,
    old: Vec<u8>,
    /// The length of the file before the call.
    len: usize,
    /// Whether the call cut the old bytes off, rather than overwriting them.
    is_cut: bool,
}

/// When the calls of a file fail.
#[derive(Clone, Copy)]
pub struct Ills {
    /// The number of calls that succeed first.
    pub well: u64,
    /// The number of calls that fail after that.
    pub fail: u64,
}

/// The contents of a file.
#[derive(Drop)]
struct Content {
    alloc: Global,
    bytes: Vec<u8>,
    undos: Vec<Undo>,
    ills: Ills,
    luck: Luck,
}

/// A file in memory, some of whose calls fail.
#[derive(Drop)]
pub struct Drive {
    file: Rc<RefCell<Content>>,
    log: FileLog,
}

/// The same file, to read what is left of it.
#[derive(Drop)]
pub struct FileHandle {
    file: Rc<RefCell<Content>>,
}

fn failed() -> io::Error {
    io::Error::other("the disk fails")
}

fn lengthen(file: &mut Vec<u8>, end: usize) -> Result<(), AllocError> {
    if end > file.len() {
        file.resize(end, 0)?;
    }
    Ok(())
}

/// Returns the bytes from one offset to another, if the file has them, and otherwise none.
fn part(alloc: Global, file: &[u8], at: usize, end: usize) -> Result<Vec<u8>, AllocError> {
    if at > end || end > file.len() {
        return Ok(Vec::new(alloc));
    }
    let old = Vec::from_slice(alloc, &file[at..end])?;
    Ok(old)
}

/// Overwrites bytes of a file, but writes nothing if they would go past its end.
fn overwrite(file: &mut [u8], at: usize, bytes: &[u8]) {
    let end = at.saturating_add(bytes.len());
    if end <= file.len() && end - at == bytes.len() {
        file[at..end].copy_from_slice(bytes);
    }
}

/// Reads as many bytes as there is room for. Returns false if the file doesn't have them.
fn copy_out(file: &[u8], at: usize, buf: &mut [u8]) -> bool {
    let end = at.saturating_add(buf.len());
    if end > file.len() || end - at != buf.len() {
        return false;
    }
    buf.copy_from_slice(&file[at..end]);
    true
}

impl Content {
    fn fails(&mut self) -> bool {
        if self.ills.well > 0 {
            self.ills.well -= 1;
            return false;
        }
        if self.ills.fail > 0 {
            self.ills.fail -= 1;
            return true;
        }
        false
    }

    fn put(&mut self, at: usize, bytes: &[u8]) -> Result<(), AllocError> {
        let len = self.bytes.len();
        let end = at.saturating_add(bytes.len());
        lengthen(&mut self.bytes, end)?;
        let old = part(self.alloc, &self.bytes, at, end)?;
        self.undos.push(Undo {
            at,
            old,
            len,
            is_cut: false,
        })?;
        overwrite(&mut self.bytes, at, bytes);
        Ok(())
    }

    fn cut(&mut self, at: usize) -> Result<(), AllocError> {
        let len = self.bytes.len();
        let old = part(self.alloc, &self.bytes, at, len)?;
        self.undos.push(Undo {
            at,
            old,
            len,
            is_cut: true,
        })?;
        self.bytes.truncate(at);
        Ok(())
    }

    /// Fills the buffer from an offset. Returns false if that fails.
    fn read(&mut self, at: usize, buf: &mut [u8]) -> bool {
        if self.fails() {
            return false;
        }
        copy_out(&self.bytes, at, buf)
    }

    /// Writes bytes. A write that fails may have written some of them.
    fn write(&mut self, at: usize, bytes: &[u8]) -> bool {
        if !self.fails() {
            return self.put(at, bytes).is_ok();
        }
        let some = self.luck.place(bytes.len());
        if self.luck.is_one_in(2) && some < bytes.len() {
            let _ = self.put(at, &bytes[..some]);
        }
        false
    }

    fn resize(&mut self, len: usize) -> bool {
        if self.fails() {
            return false;
        }
        if len < self.bytes.len() {
            return self.cut(len).is_ok();
        }
        lengthen(&mut self.bytes, len).is_ok()
    }

    fn sync(&mut self) -> bool {
        if self.fails() {
            return false;
        }
        self.undos.clear();
        true
    }

    /// Returns how many bytes of a call survive a loss of power.
    fn kept_of(&mut self, count: usize) -> usize {
        match self.luck.below(4) {
            0 => count,
            1 => self.luck.place(count).min(count),
            _ => 0,
        }
    }

    /// Undoes a write, or part of it, because power is lost.
    fn undo_write(&mut self, undo: &Undo) {
        let kept = self.kept_of(undo.old.len());
        if kept < undo.old.len() {
            overwrite(
                &mut self.bytes,
                undo.at.saturating_add(kept),
                &undo.old[kept..],
            );
        }
        if kept == 0 && self.luck.is_one_in(2) {
            self.bytes.truncate(undo.len);
        }
    }

    /// Undoes a cut because power is lost: the file gets back its old length, or nearly; or it
    /// stays cut.
    fn undo_cut(&mut self, undo: &Undo) {
        let kept = self.kept_of(undo.old.len());
        if kept >= undo.old.len() {
            return;
        }
        let back = undo.old.len() - kept;
        self.bytes.truncate(undo.at);
        if self.bytes.len() == undo.at {
            let _ = self.bytes.extend_from_slice(&undo.old[..back]);
        }
    }

    /// Loses power: what was synced stays, and so do any parts of the rest.
    fn lose_power(&mut self) {
        for _ in 0..self.undos.len() {
            let Some(undo) = self.undos.pop() else {
                return;
            };
            if undo.is_cut {
                self.undo_cut(&undo);
            } else {
                self.undo_write(&undo);
            }
        }
    }
}

impl FileHandle {
    /// Makes a file with these bytes.
    pub fn new(
        alloc: Global,
        bytes: &[u8],
        ills: Ills,
        seed: u64,
    ) -> Result<FileHandle, AllocError> {
        let bytes = Vec::from_slice(alloc, bytes)?;
        let content = Content {
            alloc,
            bytes,
            undos: Vec::new(alloc),
            ills,
            luck: Luck::new(seed),
        };
        let file = Rc::new(alloc, RefCell::new(content))?;
        Ok(FileHandle { file })
    }

    /// Returns the file as a database uses it. It hasn't been called yet.
    pub(crate) fn drive(&self, key: u64) -> Result<Drive, AllocError>
        ensures { IfOk result (λ drive. drive.log ≡ settled key ∷ []) }
    {
        let file = self.file.clone()?;
        let mut log = FileLog::new();
        log.note(&FileCall::Settle(key));
        Ok(Drive { file, log })
    }

    /// Returns what is left of the file: all that was written or, if power is lost, what was synced
    /// and any parts of the rest. Returns `None` if the file is in use.
    pub fn left(&self, loses_power: bool) -> Option<Vec<u8>> {
        let Ok(mut content) = self.file.try_borrow_mut() else {
            return None;
        };
        if loses_power {
            content.lose_power();
        }
        let alloc = content.alloc;
        Some(std::mem::replace(&mut content.bytes, Vec::new(alloc)))
    }
}

fn measure(file: &Rc<RefCell<Content>>) -> io::Result<usize> {
    let Ok(mut content) = file.try_borrow_mut() else {
        return Err(failed());
    };
    if content.fails() {
        Err(failed())
    } else {
        Ok(content.bytes.len())
    }
}

fn read(file: &Rc<RefCell<Content>>, at: usize, buf: &mut [u8]) -> io::Result<usize>
    requires { 0 < length buf.old }
    ensures { IfOk result (λ n. (0 < n) × (n ≤ length buf.old) × (at < 2 ^ 63)) }
{
    let count = buf.len();
    let Ok(mut content) = file.try_borrow_mut() else {
        return Err(failed());
    };
    if at > MAX_OFFSET || !content.read(at, buf) {
        return Err(failed());
    }
    Ok(count)
}

fn write(file: &Rc<RefCell<Content>>, at: usize, bytes: &[u8]) -> io::Result<usize>
    requires { 0 < length bytes.now }
    ensures { IfOk result (λ n. (0 < n) × (n ≤ length bytes.now) × (at < 2 ^ 63)) }
{
    let Ok(mut content) = file.try_borrow_mut() else {
        return Err(failed());
    };
    if at > MAX_OFFSET || !content.write(at, bytes) {
        return Err(failed());
    }
    Ok(bytes.len())
}

fn resize(file: &Rc<RefCell<Content>>, len: usize) -> io::Result<()> {
    let Ok(mut content) = file.try_borrow_mut() else {
        return Err(failed());
    };
    if content.resize(len) {
        Ok(())
    } else {
        Err(failed())
    }
}

fn sync(file: &Rc<RefCell<Content>>) -> io::Result<()> {
    let Ok(mut content) = file.try_borrow_mut() else {
        return Err(failed());
    };
    if content.sync() {
        Ok(())
    } else {
        Err(failed())
    }
}

/// Returns these bytes as clauses read them.
fn log_of(bytes: &[u8]) -> Log
    ensures { result ≡ bytes.now }
{
    let mut log = Log::new();
    log.extend(bytes);
    log
}

/// Returns 1 if a call failed because there was no room.
fn no_room(error: &io::Error) -> usize
    ensures { result ≡ as_number (is_no_room error.now) }
{
    usize::from(is_no_room(error))
}

// Each makes one call of the file, and then notes the call with its answer.
impl Calls for Drive {
    ghost history = { λ d. d.log };

    fn len(&mut self) -> io::Result<usize> {
        let answer = measure(&self.file);
        let call = match answer {
            Ok(n) => FileCall::Measure(true, n),
            Err(_) => FileCall::Measure(false, 0),
        };
        self.log.note(&call);
        answer
    }

    fn read_some(&mut self, at: usize, buf: &mut [u8]) -> io::Result<usize> {
        let room = buf.len();
        let answer = read(&self.file, at, buf);
        let call = match answer {
            Ok(n) => FileCall::Fetch(at, room, true, log_of(&buf[..n])),
            Err(_) => FileCall::Fetch(at, room, false, Log::new()),
        };
        self.log.note(&call);
        answer
    }

    fn read_under(&mut self, key: u64, want: u64, at: usize, buf: &mut [u8]) -> io::Result<usize> {
        let room = buf.len();
        let answer = read(&self.file, at, buf);
        let call = match answer {
            Ok(n) => FileCall::Test(key, want, at, room, true, log_of(&buf[..n])),
            Err(_) => FileCall::Test(key, want, at, room, false, Log::new()),
        };
        self.log.note(&call);
        answer
    }

    fn write_some(&mut self, at: usize, bytes: &[u8]) -> io::Result<usize> {
        let answer = write(&self.file, at, bytes);
        let call = match answer {
            Ok(n) => FileCall::Store(at, log_of(bytes), true, n),
            Err(error) => FileCall::Store(at, log_of(bytes), false, no_room(&error)),
        };
        self.log.note(&call);
        answer
    }

    fn resize(&mut self, len: usize) -> io::Result<()> {
        let answer = resize(&self.file, len);
        let call = match answer {
            Ok(()) => FileCall::Resize(len, true, 0),
            Err(error) => FileCall::Resize(len, false, no_room(&error)),
        };
        self.log.note(&call);
        answer
    }

    fn sync(&mut self) -> io::Result<()> {
        let answer = sync(&self.file);
        let call = match answer {
            Ok(()) => FileCall::Flush(true, 0),
            Err(error) => FileCall::Flush(false, no_room(&error)),
        };
        self.log.note(&call);
        answer
    }
}
