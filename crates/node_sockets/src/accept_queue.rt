// Queues connections that wait for a worker.
ghost use Rattle.std.specs.Prelude.{◌≡◌, ◌⊎◌, ◌++◌, ◌∷◌, [], IfNone, IfSome};

use crate::holder::NoHolder;
use crate::pending_connection::{PendingConnection, Readiness};
use crate::room::{AnswerRoom, Share};
use crate::shared_socket::SharedSocket;
use std::alloc::Global;
use std::collections::VecDeque;
use std::rc::Rc;
use std::sync::atomic::{AtomicU64, Ordering};
use std::sync::{Condvar, CondvarTimeouts, Mutex, Wait};
use std::time::{Clock, Duration};
use std::{io, thread};

/// How long a worker watches for a connection before it sleeps. A connection that comes meanwhile
/// needs to wake nobody. One worker at a time watches. On an idle virtual machine a wake-up costs
/// more than an answer.
const WATCH_US: u64 = 100;

/// The most times that it looks while it watches.
const MAX_LOOKS: u32 = 10_000;

/// The most connections that wait without anybody having looked at them. More wait in the system.
/// Without a bound, a flood of clients left 14,000, for which every other client waited.
const MAX_UNSEEN: usize = 1_024;

/// The most workers that read a long request as it comes.
const MAX_READING: u64 = 2;

// What the lock guards.
#[derive(Drop)]
struct Waiting {
    pending: VecDeque<PendingConnection>,
    /// Pulls and commands that are held: no worker looks at them until they are freed.
    held: VecDeque<PendingConnection>,
    /// Answers that wait until other nodes have what they show.
    promised: VecDeque<PendingConnection>,
    /// How many of the connections that wait for a worker nobody has looked at yet.
    unseen: usize,
    /// How much of the room their answers take.
    room: AnswerRoom,
    /// Whether a worker watches instead of sleeping.
    watched: bool,
    /// How many workers sleep.
    asleep: usize,
    ended: bool,
}

/// Connections that wait for a worker, first come, first served. The queue outlives the runs of its
/// node: what waits when a run ends is served in the next.
#[derive(Drop)]
pub struct AcceptQueue {
    waiting: Mutex<Waiting>,
    came: Condvar,
    /// How many wait, for readers without the lock; `u64::MAX` once the run is over.
    count: AtomicU64,
    /// How many bytes of short and of long answers wait, for readers without the lock.
    short: AtomicU64,
    long: AtomicU64,
    /// How many pulls are held, for readers without the lock, and how often they were freed.
    holding: AtomicU64,
    freed: AtomicU64,
    /// How many answers wait, for readers without the lock.
    promises: AtomicU64,
    /// How many workers read a long request as it comes.
    reading: AtomicU64,
    /// How many connections were closed for lack of files since this was last asked.
    closed: AtomicU64,
}

impl Waiting {
    /// Puts a connection last. If memory runs out, it is closed.
    fn push(&mut self, pending: PendingConnection)
        ensures { (self.new.pending.items ≡ self.old.pending.items ++ pending ∷ [])
            ⊎ (self.new.pending.items ≡ self.old.pending.items) }
    {
        let (unseen, share) = (usize::from(pending.is_unseen()), pending.share());
        if self.pending.push_back(pending).is_ok() {
            self.unseen = self.unseen.saturating_add(unseen);
            self.room = self.room.with(share);
        }
    }

    /// Stops holding the pulls of this node, because it has sent another.
    fn release(&mut self, asker: Option<u8>) {
        if asker.is_none() {
            return;
        }
        let count = self.held.len();
        for _pull in 0..count {
            let Some(mut pending) = self.held.pop_front() else {
                return;
            };
            if pending.asker() == asker {
                pending.release();
                self.push(pending);
            } else {
                let _ = self.held.push_back(pending);
            }
        }
    }

    /// Puts the held pulls behind the connections that wait, and returns how many.
    fn free(&mut self) -> usize {
        let count = self.held.len();
        for _pull in 0..count {
            if let Some(pending) = self.held.pop_front() {
                self.push(pending);
            }
        }
        count
    }

    /// Keeps an answer that waits. If memory runs out, it is never sent.
    fn keep(&mut self, pending: PendingConnection) {
        let share = pending.share();
        if self.promised.push_back(pending).is_ok() {
            self.room = self.room.with(share);
        }
    }

    /// Puts the answers for this ticket and lower ones behind the connections that wait, and
    /// returns how many.
    fn fulfil(&mut self, ticket: u64) -> usize {
        let (count, mut put) = (self.promised.len(), 0usize);
        for _answer in 0..count {
            let Some(pending) = self.promised.pop_front() else {
                return put;
            };
            if pending.ticket().is_some_and(|wanted| wanted > ticket) {
                let _ = self.promised.push_back(pending);
                continue;
            }
            self.room = self.room.without(pending.share());
            self.push(pending);
            put = put.saturating_add(1);
        }
        put
    }

    /// Drops the connection that has waited longest for a worker; if there is none, the oldest
    /// answer that waits; if there is none, the oldest held pull. Returns whether it dropped one.
    fn drop_first(&mut self) -> bool {
        if self.pop().is_some() {
            return true;
        }
        if let Some(pending) = self.promised.pop_front() {
            self.room = self.room.without(pending.share());
            return true;
        }
        self.held.pop_front().is_some()
    }

    /// Takes the connection that has waited longest.
    fn pop(&mut self) -> Option<PendingConnection>
        ensures first { IfSome result (λ pending. self.old.pending.items ≡ pending ∷ self.new.pending.items) }
        ensures none { IfNone result (self.old.pending.items ≡ []) }
    {
        let pending = self.pending.pop_front()?;
        let unseen = usize::from(pending.is_unseen());
        self.unseen = self.unseen.saturating_sub(unseen);
        self.room = self.room.without(pending.share());
        Some(pending)
    }
}

// Makes of a served connection one that waits for its end: the rest of its answer is to be sent, or
// what its client still sends is to be read.
fn to_close<R: Clock>(rt: &R, socket: SharedSocket) -> io::Result<PendingConnection> {
    let size = socket.size();
    let (stream, kept) = socket.into_parts();
    if kept.is_empty() {
        PendingConnection::closing(rt, stream)
    } else {
        PendingConnection::sending(rt, stream, kept, size)
    }
}

impl AcceptQueue {
    pub fn new(alloc: Global) -> AcceptQueue {
        AcceptQueue {
            waiting: Mutex::new(Waiting {
                pending: VecDeque::new(alloc),
                held: VecDeque::new(alloc),
                promised: VecDeque::new(alloc),
                unseen: 0,
                room: AnswerRoom { short: 0, long: 0 },
                watched: false,
                asleep: 0,
                ended: false,
            }),
            came: Condvar::new(),
            count: AtomicU64::new(0),
            short: AtomicU64::new(0),
            long: AtomicU64::new(0),
            holding: AtomicU64::new(0),
            freed: AtomicU64::new(0),
            promises: AtomicU64::new(0),
            reading: AtomicU64::new(0),
            closed: AtomicU64::new(0),
        }
    }

    // Publishes how many connections wait and how much room is taken, for readers without the lock.
    fn tell(&self, waiting: &Waiting) -> usize {
        let count = waiting.pending.len();
        let told = if waiting.ended {
            u64::MAX
        } else {
            count as u64
        };
        self.count.store(told, Ordering::SeqCst);
        self.short
            .store(waiting.room.short as u64, Ordering::SeqCst);
        self.long.store(waiting.room.long as u64, Ordering::SeqCst);
        self.holding
            .store(waiting.held.len() as u64, Ordering::SeqCst);
        self.promises
            .store(waiting.promised.len() as u64, Ordering::SeqCst);
        count
    }

    /// Whether a worker may read a long request as it comes: half of the workers may.
    pub fn may_read_on(&self) -> bool {
        self.reading.load(Ordering::SeqCst) < MAX_READING
    }

    /// Records that a worker reads a long request as it comes.
    pub fn note_reading(&self) {
        self.reading.fetch_add(1, Ordering::SeqCst);
    }

    /// Records that a worker has read a long request.
    pub fn note_read(&self) {
        self.reading.fetch_sub(1, Ordering::SeqCst);
    }

    // Returns how much of the room is taken.
    fn room(&self) -> AnswerRoom {
        AnswerRoom {
            short: self.short.load(Ordering::SeqCst) as usize,
            long: self.long.load(Ordering::SeqCst) as usize,
        }
    }

    /// Whether this share of an answer may wait here besides those that already do.
    pub(crate) fn may_keep(&self, share: Share) -> bool {
        self.room().may_keep(share)
    }

    // Puts a connection last. Returns how many wait, and whether the watching worker takes this
    // one.
    fn push<R: Wait>(&self, rt: &R, pending: PendingConnection) -> (usize, bool) {
        let mut waiting = self.waiting.lock(rt);
        waiting.push(pending);
        let count = self.tell(&waiting);
        (count, waiting.watched && count <= 1)
    }

    /// Puts a new connection last. If memory runs out, it is closed.
    pub fn put<R: Wait>(&self, rt: &R, pending: PendingConnection) {
        let (_count, is_seen) = self.push(rt, pending);
        if !is_seen {
            self.came.notify_one();
        }
    }

    /// Returns how many connections wait.
    pub fn waiting<R: Wait>(&self, rt: &R) -> u64 {
        self.waiting.lock(rt).pending.len() as u64
    }

    /// Whether the number of connections that nobody has looked at yet is at its limit.
    pub fn is_full<R: Wait>(&self, rt: &R) -> bool {
        self.waiting.lock(rt).unseen >= MAX_UNSEEN
    }

    /// Puts a connection last from which nothing comes, and returns how many wait. The worker that
    /// puts it back looks at it again, so nobody is woken. If memory runs out, the connection is
    /// closed.
    pub fn put_back<R: Wait>(&self, rt: &R, pending: PendingConnection) -> usize {
        let (count, _is_seen) = self.push(rt, pending);
        count
    }

    /// Returns how often held pulls were freed.
    pub fn freed(&self) -> u64 {
        self.freed.load(Ordering::SeqCst)
    }

    /// Returns how many pulls are held.
    pub fn holding(&self) -> u64 {
        self.holding.load(Ordering::SeqCst)
    }

    /// Holds a pull until `free`. If that was called since `freed` was read, a worker looks at the
    /// pull again. An earlier pull of the same node is served. If memory runs out, the connection
    /// is closed.
    pub fn hold<R: Wait>(&self, rt: &R, pending: PendingConnection, freed: u64) {
        let mut waiting = self.waiting.lock(rt);
        waiting.release(pending.asker());
        if self.freed() != freed {
            waiting.push(pending);
        } else {
            let _ = waiting.held.push_back(pending);
        }
        let _count = self.tell(&waiting);
    }

    /// Makes workers look again at the pulls that are held.
    pub fn free<R: Wait>(&self, rt: &R) {
        let mut waiting = self.waiting.lock(rt);
        self.freed.fetch_add(1, Ordering::SeqCst);
        let count = waiting.free();
        let _count = self.tell(&waiting);
        for _pull in 0..count {
            self.came.notify_one();
        }
    }

    /// Returns how many answers wait until other nodes have what they show.
    pub fn promises(&self) -> u64 {
        self.promises.load(Ordering::SeqCst)
    }

    /// Keeps an answer until the answers for its ticket are sent (`fulfil`).
    pub fn keep<R: Wait>(&self, rt: &R, pending: PendingConnection) {
        let mut waiting = self.waiting.lock(rt);
        waiting.keep(pending);
        let _count = self.tell(&waiting);
    }

    /// Makes workers look again at the answers that wait for this ticket or a lower one.
    pub fn fulfil<R: Wait>(&self, rt: &R, ticket: u64) {
        let mut waiting = self.waiting.lock(rt);
        let count = waiting.fulfil(ticket);
        let _count = self.tell(&waiting);
        for _answer in 0..count {
            self.came.notify_one();
        }
    }

    /// Closes a connection that was served in such a way that its client gets the whole answer: the
    /// rest of the answer is sent from this queue, and what the client still sends is read for a
    /// moment.
    pub fn close<R: Wait + Clock>(&self, rt: &R, socket: Rc<SharedSocket>) {
        if socket.kept() == 0 && socket.is_done() {
            return;
        }
        if let Some(socket) = Rc::into_inner(socket) {
            if let Ok(pending) = to_close(rt, socket) {
                if let Readiness::Pending(pending) = pending.look(rt, false, &NoHolder) {
                    let _waiting = self.put_back(rt, pending);
                }
            }
        }
    }

    /// Wakes a sleeping worker if connections wait, because the worker that looked at them now has
    /// something else to do.
    pub fn hand_on<R: Wait>(&self, rt: &R) {
        let is_wanted = self.wants_another(rt);
        if is_wanted {
            self.came.notify_one();
        }
    }

    // Whether connections wait and a worker sleeps.
    fn wants_another<R: Wait>(&self, rt: &R) -> bool {
        let waiting = self.waiting.lock(rt);
        !waiting.pending.is_empty() && waiting.asleep > 0
    }

    /// Sleeps for this long while nothing comes from any connection that waits, or until a new one
    /// comes or the run is over.
    pub fn rest<R: Wait + Clock>(&self, rt: &R, time: Duration) {
        let mut waiting = self.waiting.lock(rt);
        if waiting.ended {
            return;
        }
        waiting.asleep = waiting.asleep.saturating_add(1);
        let (mut waiting, _) = self.came.wait_timeout(rt, waiting, time);
        waiting.asleep = waiting.asleep.saturating_sub(1);
    }

    // Watches for a connection for a moment.
    fn watch<R: Wait + Clock>(&self, rt: &R) {
        let Ok(began) = rt.monotonic() else {
            return;
        };
        let until = began.saturating_add(Duration::from_micros(WATCH_US));
        for _look in 0..MAX_LOOKS {
            if self.count.load(Ordering::SeqCst) > 0 {
                return;
            }
            thread::yield_now();
            match rt.monotonic() {
                Ok(now) if now < until => {}
                _ => return,
            }
        }
    }

    // Begins to watch, unless something already waits or another worker watches. Returns whether it
    // did.
    fn begin_watching<R: Wait>(&self, rt: &R) -> bool {
        let mut waiting = self.waiting.lock(rt);
        if waiting.watched || waiting.ended || !waiting.pending.is_empty() {
            return false;
        }
        waiting.watched = true;
        true
    }

    /// Takes the first connection. It waits for one, and returns `None` once the run is over.
    pub fn take<R: Wait + Clock>(&self, rt: &R) -> Option<PendingConnection> {
        let watches = self.begin_watching(rt);
        if watches {
            self.watch(rt);
        }
        let mut waiting = self.waiting.lock(rt);
        if watches {
            waiting.watched = false;
        }
        waiting.asleep = waiting.asleep.saturating_add(1);
        let mut waiting = self.came.wait_while(rt, waiting, |waiting| {
            waiting.pending.is_empty() && !waiting.ended
        });
        waiting.asleep = waiting.asleep.saturating_sub(1);
        if waiting.ended {
            return None;
        }
        let first = waiting.pop();
        let _left = self.tell(&waiting);
        first
    }

    /// Takes the first connection, if one comes within this time, even while there is no run.
    pub fn take_within<R: Wait + Clock>(
        &self,
        rt: &R,
        time: Duration,
    ) -> Option<PendingConnection> {
        let mut waiting = self.waiting.lock(rt);
        waiting.asleep = waiting.asleep.saturating_add(1);
        let (mut waiting, _) = self
            .came
            .wait_timeout_while(rt, waiting, time, |waiting| waiting.pending.is_empty());
        waiting.asleep = waiting.asleep.saturating_sub(1);
        let first = waiting.pop();
        let _left = self.tell(&waiting);
        first
    }

    /// Closes the connection that has waited longest, because no file is left. Returns whether
    /// there was one.
    pub fn close_first<R: Wait>(&self, rt: &R) -> bool {
        let mut waiting = self.waiting.lock(rt);
        let is_closed = waiting.drop_first();
        if is_closed {
            self.closed.fetch_add(1, Ordering::SeqCst);
        }
        let _left = self.tell(&waiting);
        is_closed
    }

    /// Returns how many connections were closed for lack of files since this was last asked.
    pub fn take_closed(&self) -> u64 {
        self.closed.swap(0, Ordering::SeqCst)
    }

    /// Makes the workers stop taking connections.
    pub fn end<R: Wait>(&self, rt: &R) {
        let mut waiting = self.waiting.lock(rt);
        waiting.ended = true;
        self.freed.fetch_add(1, Ordering::SeqCst);
        let _freed = waiting.free();
        let _put = waiting.fulfil(u64::MAX);
        let _left = self.tell(&waiting);
        self.came.notify_all();
    }

    /// Lets the workers of the next run take connections.
    pub fn begin<R: Wait>(&self, rt: &R) {
        let mut waiting = self.waiting.lock(rt);
        waiting.ended = false;
        let _left = self.tell(&waiting);
    }
}
