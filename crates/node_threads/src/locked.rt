// A node's state as its threads share it: one lock, and what wakes the threads that wait. It outlives
// the runs of a node, so that a participant that is slow to answer holds up no run.

mod mail;
mod waits;

ghost use Rattle.std.specs.Prelude.{◌≤◌};
ghost use Rattle.state_ids.specs.declared.TheConstants.{MAX_NODES};

use crate::plaints::Sought;
use node_agenda::{Sweeping, Task};
use node_core::{
    Admission, AskedCall, AskedPull, CallResult, Caller, NodeSettings, NodeState, Receipt,
    ReplyKind, Unready, Wakeups,
};
use node_inbox::Telling;
use node_replication::{PullDecision, Standing};
use node_sockets::now;
use state_ids::{Front, MAX_NODES, NodeId};
use std::alloc::Global;
use std::sync::{Condvar, CondvarTimeouts, Mutex, Wait};
use std::time::{Clock, Duration};
use wire_callbacks::Duties;

/// How long the writer thread rests at most.
const REST_MS: u64 = 250;

/// What the lock guards.
#[derive(Drop)]
struct Held {
    alloc: Global,
    state: NodeState,
    /// The participants whose last call failed, and where they were called.
    sought: Vec<Sought>,
}

/// What a pull leads to.
#[derive(Clone, Copy)]
pub(crate) struct HeardPull {
    pub(crate) decision: PullDecision,
    /// Whether the last pull from its node had failed.
    pub(crate) was_silent: bool,
    /// The ticket up to which as many other nodes as are wanted have each fact.
    pub(crate) covered: u64,
}

/// A node's state as its threads share it. Each method locks it once.
#[derive(Drop)]
pub struct Core {
    held: Mutex<Held>,
    /// Wakes the writer thread.
    came: Condvar,
    /// Wakes the caller threads.
    due: Condvar,
    /// Wakes threads that wait for a telling to be taken, for the node's facts to be counted, or for
    /// the program's end.
    changed: Condvar,
}

impl Core {
    /// Makes the state of a node in a group of `nodes` nodes, before its journal is looked at.
    pub fn new(
        alloc: Global,
        me: NodeId,
        nodes: u8,
        settings: &NodeSettings,
        sweeping: Sweeping,
    ) -> Core
        requires { (1 ≤ nodes) × (nodes ≤ MAX_NODES) }
    {
        let held = Held {
            alloc,
            state: NodeState::new(alloc, me, nodes, settings, sweeping),
            sought: Vec::new(alloc),
        };
        Core {
            held: Mutex::new(held),
            came: Condvar::new(),
            due: Condvar::new(),
            changed: Condvar::new(),
        }
    }

    /// Records which facts the journal has at the start.
    pub fn start<R: Wait>(&self, rt: &R, front: &Front) {
        self.held.lock(rt).state.start(front);
    }

    /// Whether the node answers only pulls, because its disk may be lost.
    pub fn answers_nothing<R: Wait>(&self, rt: &R) -> bool {
        self.held.lock(rt).state.answers_nothing()
    }

    /// Returns why it accepts no commands now, if it doesn't.
    pub(crate) fn unready<R: Wait + Clock>(&self, rt: &R) -> Option<Unready> {
        let moment = now(rt);
        self.held.lock(rt).state.unready(moment)
    }

    /// Records whether the journal is closed, to be opened again.
    pub fn note_shut<R: Wait>(&self, rt: &R, is_shut: bool) {
        self.held.lock(rt).state.is_shut = is_shut;
    }

    /// Whether the journal is closed, to be opened again.
    pub fn is_shut<R: Wait>(&self, rt: &R) -> bool {
        self.held.lock(rt).state.is_shut
    }

    /// Records that the program is about to end: answers that wait are sent, and nothing is stored.
    pub(crate) fn note_ending<R: Wait>(&self, rt: &R) {
        self.held.lock(rt).state.is_ending = true;
    }

    /// Returns how long the longest-waiting call has waited at the desk, if the disk seems to hang.
    pub(crate) fn hangs<R: Wait + Clock>(&self, rt: &R) -> Option<Duration> {
        let moment = now(rt);
        let held = self.held.lock(rt);
        if held.state.desk.hangs(moment) {
            Some(held.state.desk.longest(moment))
        } else {
            None
        }
    }
}

/// The calls at the desk.
impl Core {
    /// Admits a call by the thread with the pass at a place, or refuses it.
    pub fn admit<R: Wait + Clock>(
        &self,
        rt: &R,
        caller: Caller,
        asked: AskedCall,
        place: usize,
    ) -> Option<Admission> {
        let moment = now(rt);
        self.held.lock(rt).state.admit(caller, asked, place, moment)
    }

    /// Records that an admitted call is over, and had this result. Returns the ticket for which the
    /// answer of a worker waits.
    pub fn settle<R: Wait + Clock>(
        &self,
        rt: &R,
        admission: Admission,
        came: &CallResult,
    ) -> Option<u64> {
        let moment = now(rt);
        let ticket = self.held.lock(rt).state.settle(admission, came, moment);
        if matches!(came.kind, ReplyKind::Gave(_)) {
            self.changed.notify_all();
        }
        ticket
    }

    /// Records that an admitted call is over, and was refused.
    pub fn give_up<R: Wait>(&self, rt: &R, admission: Admission, has_failed: bool) {
        self.held.lock(rt).state.give_up(admission, has_failed);
    }

    /// Whether commands are accepted now.
    pub fn takes_commands<R: Wait + Clock>(&self, rt: &R) -> bool {
        let moment = now(rt);
        self.held.lock(rt).state.takes_commands(moment)
    }

    /// Whether operators ask nothing of the writer thread now.
    pub fn is_closed<R: Wait + Clock>(&self, rt: &R) -> bool {
        let moment = now(rt);
        self.held.lock(rt).state.is_closed(moment)
    }

    /// Whether operators don't wait for a call: the journal is closed, or the call would wait behind
    /// one that has waited too long.
    pub fn is_stuck<R: Wait + Clock>(&self, rt: &R) -> bool {
        let moment = now(rt);
        let held = self.held.lock(rt);
        held.state.is_shut || held.state.desk.stalls(moment)
    }

    /// Whether a command that has waited since a moment waits on for the others to be heard from.
    pub fn holds_command<R: Wait + Clock>(&self, rt: &R, since: Option<Duration>) -> bool {
        let moment = now(rt);
        self.held.lock(rt).state.holds_command(since, moment)
    }

    /// Returns the ticket for which an answer waits that may show what is stored now, or 0. If it
    /// waits, the other nodes are to ask for that (`Node::pass_on`), even if nothing more is stored.
    pub fn target<R: Wait>(&self, rt: &R) -> u64 {
        self.held.lock(rt).state.target()
    }

    /// Returns the standing of an answer that has waited for a ticket since a moment.
    pub fn stand<R: Wait + Clock>(&self, rt: &R, ticket: u64, since: Duration) -> Standing {
        let moment = now(rt);
        self.held
            .lock(rt)
            .state
            .followers
            .stand(ticket, since, moment)
    }

    /// Returns the ticket up to which as many other nodes as are wanted have each fact.
    pub fn covered<R: Wait>(&self, rt: &R) -> u64 {
        self.held.lock(rt).state.followers.covered()
    }

    /// Records that a run begins.
    pub fn begin_run<R: Wait + Clock>(&self, rt: &R) {
        let moment = now(rt);
        let mut held = self.held.lock(rt);
        held.state.tally.begin();
        held.state.followers.note_begun(moment);
    }

    /// Records that a run ends.
    pub(crate) fn end_run<R: Wait + Clock>(&self, rt: &R) {
        let moment = now(rt);
        self.held.lock(rt).state.followers.note_end(moment);
    }

    /// Whether a fact was stored in this run.
    pub fn has_stored<R: Wait>(&self, rt: &R) -> bool {
        self.held.lock(rt).state.tally.has_stored()
    }
}

/// Pulls in both directions.
impl Core {
    /// Hears a pull of another node, the first time or again.
    pub(crate) fn hear_pull<R: Wait + Clock>(&self, rt: &R, pull: &AskedPull) -> HeardPull {
        let moment = now(rt);
        let mut held = self.held.lock(rt);
        let (decision, was_silent) = held.state.hear_pull(pull, moment);
        let (covered, holds_calls) = (
            held.state.followers.covered(),
            held.state.followers.holds_calls(),
        );
        if holds_calls && pull.since.is_none() {
            self.came.notify_all();
        }
        HeardPull {
            decision,
            was_silent,
            covered,
        }
    }

    /// Returns for each of eight nodes whether a node that asks with this front has more of its facts
    /// than this one.
    pub(crate) fn are_ahead<R: Wait>(&self, rt: &R, front: &Front) -> [bool; MAX_NODES as usize] {
        let held = self.held.lock(rt);
        let mut are_ahead = [false; MAX_NODES as usize];
        for (is_ahead, number) in are_ahead.iter_mut().zip(1..=MAX_NODES) {
            *is_ahead = match NodeId::new(number) {
                Ok(other) => held.state.is_ahead(other, front),
                Err(_) => false,
            };
        }
        are_ahead
    }

    /// Receives what another node sent, which was asked with the front `asked` and had begun anew
    /// `seen` times then.
    pub(crate) fn receive<R: Wait>(
        &self,
        rt: &R,
        asked: &Front,
        seen: u64,
        telling: Telling,
    ) -> Receipt {
        // (The one that isn't kept may be long. It is dropped only after the lock is released.)
        let (receipt, _left) = self.held.lock(rt).state.receive(asked, seen, telling);
        self.came.notify_all();
        receipt
    }

    /// Records the end of the telling that is being taken, which has this front: it was taken, or is
    /// given up. `known` is the number of this node's own facts before that.
    pub fn end_telling<R: Wait>(&self, rt: &R, front: &Front, known: u64, is_taken: bool) {
        self.held.lock(rt).state.end_telling(front, known, is_taken);
        self.changed.notify_all();
    }
}

/// The writer thread.
impl Core {
    /// Hands on the effects of the calls so far: wakes the writer thread if it has something to do.
    pub(crate) fn hand_on<R: Wait + Clock>(&self, rt: &R) -> Wakeups {
        let moment = now(rt);
        let wakeups = self.held.lock(rt).state.hand_on(moment);
        if wakeups.writer {
            self.came.notify_all();
        }
        wakeups
    }

    /// Returns what the writer thread does next, and whether commands are accepted from now on. It
    /// waits for at most a quarter of a second.
    pub fn next<R: Wait + Clock>(&self, rt: &R) -> (Task, bool) {
        let moment = now(rt);
        let mut held = self.held.lock(rt);
        let readied = held.state.ready(moment);
        if held.state.mail.may_call() && (readied.may_call || readied.is_put) {
            self.due.notify_all();
        }
        if let Some(rest) = held.state.mail.idle_time(moment) {
            let (waited, _) = self
                .came
                .wait_timeout(rt, held, rest.min(Duration::from_millis(REST_MS)));
            held = waited;
        }
        let task = held.state.next_task(now(rt));
        if matches!(&task, Task::Take(_)) {
            self.changed.notify_all();
        }
        (task, readied.has_opened)
    }

    /// Hands a list of duties to the caller threads, once other nodes have what was seen. If the list
    /// waits, the other nodes must ask for that (`Node::pass_on`).
    pub fn put_duties<R: Wait + Clock>(&self, rt: &R, duties: Duties) {
        let moment = now(rt);
        let mut held = self.held.lock(rt);
        if held.state.put_duties(duties, moment) && held.state.mail.may_call() {
            self.due.notify_all();
        }
    }
}
