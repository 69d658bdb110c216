// Lines for standard error, which a thread of their own writes: nothing waits for a reader that
// doesn't read them.

use log::kv::Source;
use log::span::Spans;
use log::{Line, Log, Metadata, Record};
use std::alloc::Global;
use std::collections::VecDeque;
use std::fmt::Display;
use std::sync::{Arc, Condvar, CondvarTimeouts, Mutex, Wait};
use std::thread;
use std::thread::Threads;
use std::time::{Clock, Duration};

/// The most lines that wait to be written.
const MAX_LINES: usize = 256;

// What the lock guards.
#[derive(Drop)]
struct Queued {
    lines: VecDeque<String>,
    /// How many were dropped since the last one that was written.
    dropped: u64,
    /// Whether one is being written.
    is_writing: bool,
}

/// Lines that wait to be written to standard error.
#[derive(Drop)]
pub struct Lines {
    queued: Mutex<Queued>,
    came: Condvar,
    written: Condvar,
}

impl Lines {
    fn new(alloc: Global) -> Lines {
        Lines {
            queued: Mutex::new(Queued {
                lines: VecDeque::new(alloc),
                dropped: 0,
                is_writing: false,
            }),
            came: Condvar::new(),
            written: Condvar::new(),
        }
    }

    /// Puts a line last. It is dropped, and counted, if too many wait or memory runs out.
    fn put<R: Wait>(&self, rt: &R, line: String) {
        let mut queued = self.queued.lock(rt);
        self.came.notify_one();
        if queued.lines.len() >= MAX_LINES {
            queued.dropped = queued.dropped.saturating_add(1);
            return;
        }
        if queued.lines.push_back(line).is_err() {
            queued.dropped = queued.dropped.saturating_add(1);
        }
    }

    /// Counts a line that was lost because memory ran out.
    fn note_dropped<R: Wait>(&self, rt: &R) {
        let mut queued = self.queued.lock(rt);
        queued.dropped = queued.dropped.saturating_add(1);
        self.came.notify_one();
    }

    /// Waits for the next line. Returns it, and how many were dropped before it.
    fn next<R: Wait>(&self, rt: &R) -> (u64, Option<String>) {
        let mut queued = self.came.wait_while(rt, self.queued.lock(rt), |queued| {
            queued.lines.is_empty() && queued.dropped == 0
        });
        let dropped = queued.dropped;
        queued.dropped = 0;
        queued.is_writing = true;
        (dropped, queued.lines.pop_front())
    }

    /// Records that a line is written.
    fn note_written<R: Wait>(&self, rt: &R) {
        self.queued.lock(rt).is_writing = false;
        self.written.notify_all();
    }

    /// Waits until all lines are written, but at most this long.
    pub fn wait<R: Wait + Clock>(&self, rt: &R, time: Duration) {
        let _waited = self
            .written
            .wait_timeout_while(rt, self.queued.lock(rt), time, |queued| {
                queued.is_writing || !queued.lines.is_empty()
            });
    }
}

/// Writes lines to standard error as they come, for ever.
fn write_lines<R: Wait + Eprint>(rt: &R, lines: &Lines) {
    for _ in rt.forever() {
        let (dropped, line) = lines.next(rt);
        if dropped > 0 {
            let _ = eprintln!(rt;
                "{} warnings were dropped: standard error is not read, or there is no memory",
                dropped
            );
        }
        if let Some(line) = line {
            let _ = eprintln!(rt; "{}", line.as_str());
        }
        lines.note_written(rt);
    }
}

/// Makes lines that a thread writes to standard error; `None` if no thread or no memory is to be
/// had.
pub fn lines_of<R: Threads, H: Wait + Eprint + Send + Drop + 'static>(
    rt: &R,
    host: H,
    alloc: Global,
) -> Option<Arc<Lines>> {
    let lines = Arc::new(alloc, Lines::new(alloc)).ok()?;
    let theirs = Arc::try_clone(&lines).ok()?;
    if thread::spawn(rt, move || write_lines(&host, &theirs)).is_err() {
        return None;
    }
    Some(lines)
}

/// Logs to such lines.
#[derive(Drop)]
pub struct ToLines<'a, R> {
    pub rt: &'a R,
    pub alloc: Global,
    pub lines: &'a Lines,
}

impl<'a, R: Wait> Log for ToLines<'a, R> {
    fn enabled(&self, _metadata: &Metadata<'_>) -> bool {
        true
    }

    fn log<D: Display, K: Source, S: Spans>(&self, record: &Record<'_, D, K, S>) {
        match format!(in self.alloc; "{}", Line::new(record)) {
            Ok(line) => self.lines.put(self.rt, line),
            Err(_) => self.lines.note_dropped(self.rt),
        }
    }

    fn flush(&self) {}

    fn target(&self) -> &str {
        ""
    }
}
