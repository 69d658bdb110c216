// What the threads of a node share.
ghost use Rattle.std.specs.Prelude.{◌≤◌};
ghost use Rattle.state_ids.specs.declared.TheConstants.{MAX_NODES};

use crate::build::Build;
use crate::counts::Counts;
use crate::locked::Core;
use crate::news::News;
use crate::wants::{LEAST_MS, Wants};
use node_agenda::{Keep, Sweeping};
use node_core::{AskedPull, NodeSettings};
use node_replication::PullDecision;
use node_sockets::{AcceptQueue, Signal, Site, Sockets, StopReason, now};
use state_ids::{Front, MAX_NODES, NodeId};
use std::alloc::Global;
use std::io::ErrorKind;
use std::net::{SocketAddr, TcpStream};
use std::sync::atomic::{AtomicBool, AtomicU64, Ordering};
use std::sync::{Arc, Wait};
use std::thread;
use std::time::{Clock, Duration};
use wire_callbacks::Duties;
use wire_http::Bytes;

/// How long a node tries to reach its own port.
const REACH_MS: u64 = 100;

/// How long it waits before the next try.
const PAUSE_MS: u64 = 10;

/// How often it tries.
const MAX_TURNS: u32 = 100;

/// How often, at the end, it checks whether answers still wait, with that pause in between: for
/// half a second.
const LAST_TURNS: u32 = 50;

/// How many checks in a row must find none.
const QUIET_TURNS: u32 = 5;

/// How a node deals with others, as its program was told.
#[derive(Drop)]
pub struct Manners {
    /// Whether a start waits without limit until all others were heard from.
    pub waits_for_all: bool,
    /// The query of a pull from each node, which says who asks whom, in the order of the nodes;
    /// empty for a node that isn't there.
    pub queries: Vec<String>,
    /// The same for a pull that waits until there is something new.
    pub waiting: Vec<String>,
    /// How many other nodes are to have a fact before answers that may show it are sent.
    pub wants: Wants,
    /// The names by which operators may ask it besides `localhost` and addresses.
    pub names: Vec<Bytes>,
    /// Which build of the program runs it, if the program says so.
    pub build: Option<Build>,
}

impl Manners {
    /// Makes the settings of a node about which nothing was said.
    pub fn of_nobody(alloc: Global) -> Manners {
        Manners {
            waits_for_all: false,
            queries: Vec::new(alloc),
            waiting: Vec::new(alloc),
            wants: Wants::none(),
            names: Vec::new(alloc),
            build: None,
        }
    }
}

/// How long a run of a node is: after so many calls, and after so many moves of a frame, it ends.
#[derive(Clone, Copy)]
pub struct RunLength {
    pub max_calls: u64,
    pub max_moves: u64,
}

/// Returns how a node at a site deals with others, and how long its runs are.
fn settings_of(site: &Site, manners: &Manners, length: RunLength) -> NodeSettings {
    let wants = manners.wants;
    NodeSettings {
        is_apart: site.is_apart(),
        is_anew: manners.waits_for_all,
        copies: wants.copies,
        patience: Duration::from_millis(wants.patience_ms.max(LEAST_MS)),
        is_strict: wants.is_strict,
        max_calls: length.max_calls,
        max_moves: length.max_moves,
    }
}

/// What the threads of a node share besides the desk.
#[derive(Drop)]
pub struct Node {
    pub me: NodeId,
    pub nodes: u8,
    pub site: Site,
    pub queue: AcceptQueue,
    /// Connections of its operators.
    pub operators: AcceptQueue,
    pub signal: Signal,
    /// Its state besides the journal.
    pub core: Core,
    pub counts: Counts,
    /// Where it learns that others have something new.
    pub news: Arc<News>,
    /// Where it announces that it has something new: where the nodes of its process learn it.
    told: Vec<Arc<News>>,
    /// How many calls of operators were made after they had been answered that their outcome is
    /// unknown (E18).
    late: AtomicU64,
    manners: Manners,
    /// When it started: milliseconds by the monotonic clock, and seconds since 1970.
    started_ms: AtomicU64,
    start_seconds: AtomicU64,
}

impl Node {
    /// Makes a node in a group of `nodes` nodes, at this site. It keeps roots that have ended as
    /// long as `keep` says. It learns news in one place, and announces it in those where the nodes of
    /// its process learn it.
    pub fn new(
        alloc: Global,
        me: NodeId,
        nodes: u8,
        site: Site,
        keep: Keep,
        length: RunLength,
        news: Arc<News>,
        told: Vec<Arc<News>>,
        manners: Manners,
    ) -> Node
        requires { (1 ≤ nodes) × (nodes ≤ MAX_NODES) }
    {
        let sweeping = Sweeping::new(alloc, me, keep, site.is_apart(), site.operate.is_some());
        let settings = settings_of(&site, &manners, length);
        Node {
            me,
            nodes,
            queue: AcceptQueue::new(alloc),
            operators: AcceptQueue::new(alloc),
            signal: Signal::new(),
            core: Core::new(alloc, me, nodes, &settings, sweeping),
            counts: Counts::new(),
            site,
            news,
            told,
            late: AtomicU64::new(0),
            manners,
            started_ms: AtomicU64::new(0),
            start_seconds: AtomicU64::new(0),
        }
    }

    /// Returns how many copies it wants of its facts, and how long answers wait for them.
    pub fn wants(&self) -> Wants {
        self.manners.wants
    }

    /// Returns the names by which operators may ask it besides `localhost` and addresses.
    pub fn names(&self) -> &[Bytes] {
        self.manners.names.as_slice()
    }

    /// Returns which build of the program runs it, if the program says so.
    pub fn build(&self) -> Option<&Build> {
        self.manners.build.as_ref()
    }

    /// Returns the query of a pull from another node, which says who asks whom, if anything: of a
    /// pull that waits until there is something new, or of one that doesn't.
    pub(crate) fn query_of(&self, other: NodeId, waits: bool) -> &str {
        let place = usize::from(other.number().saturating_sub(1));
        let queries = if waits {
            &self.manners.waiting
        } else {
            &self.manners.queries
        };
        match queries.as_slice().get(place) {
            Some(query) => query.as_str(),
            None => "",
        }
    }

    /// Returns its number, 1 to 8.
    pub fn number(&self) -> u8 {
        self.me.number()
    }

    /// Records that it starts now.
    pub fn note_start<R: Clock>(&self, rt: &R) {
        let millis = u64::try_from(now(rt).as_millis()).unwrap_or(0);
        self.started_ms.store(millis, Ordering::SeqCst);
        let since = rt.since_1970().unwrap_or(Duration::ZERO);
        self.start_seconds.store(since.as_secs(), Ordering::SeqCst);
    }

    /// Returns when it started, by the monotonic clock.
    pub fn started(&self) -> Duration {
        Duration::from_millis(self.started_ms.load(Ordering::SeqCst))
    }

    /// Returns when it started, in seconds since 1970.
    pub fn start_seconds(&self) -> u64 {
        self.start_seconds.load(Ordering::SeqCst)
    }

    /// Records that a call of an operator was made after it had been answered that its outcome is
    /// unknown (E18).
    pub fn note_late(&self) {
        self.late.fetch_add(1, Ordering::SeqCst);
    }

    /// Returns how many were since this was last asked.
    pub(crate) fn take_late(&self) -> u64 {
        self.late.swap(0, Ordering::SeqCst)
    }

    /// Returns why it accepts no commands now, if it doesn't: `journal` from when the journal
    /// failed until a fact was stored; `disk` if a call has waited for seconds; `behind` if the
    /// other nodes weren't heard from yet or have more of its facts; `copies` if too few nodes have
    /// what is stored and copies are strict, or there are two processes with its number; `ending`
    /// if the program is to end.
    pub fn unready<R: Wait + Clock>(&self, rt: &R) -> Option<&'static str> {
        if self.signal.has_ended(rt) {
            return Some("ending");
        }
        match self.core.unready(rt) {
            Some(why) => Some(why.word()),
            None => None,
        }
    }

    /// Wakes the threads and nodes that go on with the effects of the calls so far: the writer
    /// thread, and the other nodes. Ends a run that is nearly full. This is done after the answer, so
    /// that no client waits for it.
    pub fn pass_on<R: Wait + Clock>(&self, rt: &R) {
        let wakeups = self.core.hand_on(rt);
        if wakeups.is_spent {
            self.end_run(rt, StopReason::Full);
        }
        if !wakeups.others {
            return;
        }
        for news in self.told.iter() {
            news.announce(rt, self.number());
        }
        if self.site.is_apart() {
            self.queue.free(rt);
        }
    }

    /// Hears a pull of another node, the first time or again. Returns what happens to it. What it
    /// says of this node's facts releases the answers that were waiting for that; and a node that
    /// couldn't be reached until now is asked at once.
    pub fn hear_pull<R: Wait + Clock>(&self, rt: &R, pull: &AskedPull) -> PullDecision {
        let heard = self.core.hear_pull(rt, pull);
        if heard.was_silent {
            self.news.announce(rt, pull.from.number());
        }
        if pull.since.is_some() {
            return heard.decision;
        }
        if self.wants().any() && self.queue.promises() > 0 {
            self.queue.fulfil(rt, heard.covered);
        }
        if heard.decision == PullDecision::Later {
            self.hear_front(rt, &pull.front);
        }
        heard.decision
    }

    /// Looks at how many facts of each node the pulling node has. If it has more of a third node's
    /// facts than this node has, that node is asked: so a pull also announces what its asker has.
    pub fn hear_front<R: Wait>(&self, rt: &R, front: &Front) {
        let are_ahead = self.core.are_ahead(rt, front);
        for (is_ahead, number) in are_ahead.iter().zip(1..=MAX_NODES) {
            if *is_ahead {
                self.news.announce(rt, number);
            }
        }
    }

    /// Ends the run for this reason: sets the signal, and makes the threads of the run look at it.
    pub fn end_run<R: Wait + Clock>(&self, rt: &R, why: StopReason) {
        if self.signal.end(rt, why) {
            self.core.end_run(rt);
            self.queue.end(rt);
            self.core.wake(rt);
        }
    }

    /// Ends all the node's threads, because the program is to end. This is the only place that does
    /// so. It sets the signal, and wakes the threads that wait for a connection, a task, a duty, or
    /// news, so that they look at it.
    pub fn end_program<R: Wait + Clock + Sockets>(&self, rt: &R) {
        self.wait_for_answers(rt);
        let _is_first = self.signal.end(rt, StopReason::Program);
        self.queue.end(rt);
        self.operators.end(rt);
        self.core.end(rt);
        self.news.end(rt);
        self.knock(rt, self.site.own_door());
        if let Some(door) = self.site.own_operators_door() {
            self.knock(rt, door);
        }
    }

    // Waits a little until answers are sent that wait for other nodes, including those of calls
    // that are still at the desk. No command is stored meanwhile.
    fn wait_for_answers<R: Wait + Clock>(&self, rt: &R) {
        self.core.note_ending(rt);
        let mut quiet = 0u32;
        for _turn in 0..LAST_TURNS {
            quiet = if self.queue.promises() == 0 {
                quiet.saturating_add(1)
            } else {
                0
            };
            let is_needless = !self.wants().any() || quiet >= QUIET_TURNS;
            if is_needless || self.signal.has_ended(rt) {
                return;
            }
            thread::sleep(rt, Duration::from_millis(PAUSE_MS));
        }
    }

    // Connects once to one of the node's own ports, so that the thread that accepts there looks at
    // the signal. If the port's queue is full, the attempt times out: then that thread has others
    // to accept, and looks after each of them. If no socket is to be had, it tries again: then that
    // thread gets none either, and looks each time.
    fn knock<R: Wait + Clock + Sockets>(&self, rt: &R, address: SocketAddr) {
        for _turn in 0..MAX_TURNS {
            match TcpStream::connect_timeout(rt, &address, Duration::from_millis(REACH_MS)) {
                Err(error) if error.kind() != ErrorKind::TimedOut => {}
                _ => return,
            }
            thread::sleep(rt, Duration::from_millis(PAUSE_MS));
        }
    }
}
