// What the other nodes sent that isn't stored yet.
ghost use Rattle.std.specs.Prelude.{◌≡◌, ◌<◌, ◌-◌};
ghost use Rattle.node_agenda.specs.Backlogs.{IsFirstDue, IsKept, IsTakenNext, after_end, after_put, ended_of, has_as_many, is_any_due, is_due_of, is_kept, is_owed, is_queued, left_over, next_pause, no_backlog, node_behind, not_returned, own_in, own_of, own_taken, settled};

use node_inbox::Telling;
use state_ids::{Front, MAX_NODES, NodeId};
use std::time::Duration;

/// The most nodes that there are.
const NODES: usize = MAX_NODES as usize;

/// How long it takes until what the journal couldn't take is tried again, in milliseconds: the first
/// time. The pause doubles each time.
pub const FIRST_RETRY_MS: u64 = 500;

/// The longest pause, in milliseconds.
pub const LAST_RETRY_MS: u64 = 16_000;

/// Returns the pause that follows a pause of this many milliseconds.
fn next_pause(pause_ms: u64) -> u64
    ensures { result ≡ next_pause pause_ms }
{
    pause_ms.saturating_mul(2).min(LAST_RETRY_MS)
}

/// Returns how many facts of its own the node counted that sent a telling.
fn own_of(telling: &Telling) -> u64
    ensures { result ≡ own_of telling.now }
{
    telling.front().count(telling.from())
}

/// How many it counted in what may wait.
fn own_in(waiting: &Option<Telling>) -> u64
    ensures { result ≡ own_in waiting.now }
{
    match waiting {
        Some(telling) => own_of(telling),
        None => 0,
    }
}

/// Whether what waits counts at least as many facts of its node as a telling.
fn has_as_many(waiting: &Option<Telling>, telling: &Telling) -> bool
    ensures { result ≡ has_as_many waiting.now telling.now }
{
    match waiting {
        Some(other) => own_of(telling) <= own_of(other),
        None => false,
    }
}

/// Returns the node behind another in the circle of all.
fn node_behind(node: NodeId) -> NodeId
    ensures { result ≡ node_behind node }
{
    let number = node.number();
    let next = if number < MAX_NODES { number + 1 } else { 1 };
    match NodeId::new(next) {
        Ok(next) => next,
        Err(_) => node,
    }
}

/// The place of a node in a list of all.
fn place_of(node: NodeId) -> usize
    ensures is { result ≡ node - 1 }
    ensures less { result < 8 }
{
    usize::from(node.number()) - 1
}

/// What is being taken: which node sent it, and how many facts of its own that node counted.
#[derive(Clone, Copy)]
pub(crate) struct Taking {
    pub(crate) from: NodeId,
    pub(crate) own: u64,
}

/// What the other nodes sent that isn't stored yet: of each node, at most one telling that waits; and
/// the telling that is being taken. A node is owed the facts of its own that lie here.
#[derive(Drop)]
pub(crate) struct Backlog {
    /// The telling of each node that waits to be taken.
    pub(crate) waiting: [Option<Telling>; NODES],
    /// Whether the journal couldn't take what a node sent, so that it is tried again after a pause.
    pub(crate) failed: [bool; NODES],
    pub(crate) taking: Option<Taking>,
    /// How many tellings of each node were taken, put back or given up.
    pub(crate) ended: [u64; NODES],
    /// The node whose telling was taken last.
    pub(crate) last: NodeId,
    /// What the journal couldn't take isn't tried before this moment.
    pub(crate) retry_at: Duration,
    pub(crate) pause_ms: u64,
}

impl Backlog {
    /// Makes the backlog of a node in which nothing waits.
    pub(crate) fn new(me: NodeId) -> Backlog
        ensures { result ≡ no_backlog me }
    {
        Backlog {
            waiting: [None, None, None, None, None, None, None, None],
            failed: [false; NODES],
            taking: None,
            ended: [0; NODES],
            last: me,
            retry_at: Duration::ZERO,
            pause_ms: FIRST_RETRY_MS,
        }
    }

    /// Returns how many facts of its own a node counted in what is being taken.
    fn own_taken(&self, node: NodeId) -> u64
        ensures { result ≡ own_taken node self.now.taking }
    {
        let Some(taking) = self.taking else {
            return 0;
        };
        if taking.from == node { taking.own } else { 0 }
    }

    /// Whether a node that asks is owed facts of its own, by a node with this front: it sent more of
    /// them than it counts, and they aren't stored yet.
    pub(crate) fn is_owed(&self, from: NodeId, asks: &Front, front: &Front) -> bool
        ensures { result ≡ is_owed from asks.now front.now self.now }
    {
        let waiting = own_in(&self.waiting[place_of(from)]);
        let most = waiting.max(self.own_taken(from));
        asks.count(from) < most && front.count(from) < most
    }

    /// Puts a telling in place of the one of its node that waits, unless that counts more facts of
    /// the node. Returns the one that then doesn't wait, if there are two.
    pub(crate) fn put(&mut self, telling: Telling) -> Option<Telling>
        ensures put { self.new ≡ after_put telling self.old }
        ensures left { result ≡ left_over telling self.old }
    {
        let place = place_of(telling.from());
        if own_of(&telling) < own_in(&self.waiting[place]) {
            return Some(telling);
        }
        self.waiting[place].replace(telling)
    }

    /// Whether what a node sent waits because the journal couldn't take it.
    pub(crate) fn is_kept(&self, node: NodeId) -> bool
        ensures { result ≡ is_kept node self.now }
    {
        self.waiting[place_of(node)].is_some() && self.failed[place_of(node)]
    }

    /// Whether what a node sent waits for its turn: the journal hasn't failed to take it.
    pub(crate) fn is_queued(&self, node: NodeId) -> bool
        ensures { result ≡ is_queued node self.now }
    {
        self.waiting[place_of(node)].is_some() && !self.failed[place_of(node)]
    }

    /// Whether what a node sent is to be taken now, as far as nothing else is being taken.
    fn is_due_of(&self, node: NodeId, now: Duration) -> bool
        ensures { result ≡ is_due_of now self.now node }
    {
        self.waiting[place_of(node)].is_some()
            && (!self.failed[place_of(node)] || self.retry_at.as_nanos() <= now.as_nanos())
    }

    /// Returns the first node, behind the one whose telling was taken last, whose telling is to be
    /// taken now.
    fn first_due(&self, now: Duration) -> Option<NodeId>
        ensures { IsFirstDue now self.now result }
    {
        let mut node = self.last;
        node.is_a_node();
        for step in 0..NODES {
            node = node_behind(node);
            if self.is_due_of(node, now) {
                return Some(node);
            }
        }
        None
    }

    /// Whether a telling is to be taken now. None is while one is being taken.
    pub(crate) fn is_due(&self, now: Duration) -> bool
        ensures { result ≡ is_any_due now self.now }
    {
        self.taking.is_none() && self.first_due(now).is_some()
    }

    /// Takes the next telling that is to be taken now, node by node in turn.
    pub(crate) fn next(&mut self, now: Duration) -> Option<Telling>
        ensures { IsTakenNext now self.old self.new result }
    {
        if self.taking.is_some() {
            return None;
        }
        let Some(node) = self.first_due(now) else {
            return None;
        };
        let Some(telling) = self.waiting[place_of(node)].take() else {
            return None;
        };
        let own = own_of(&telling);
        self.taking = Some(Taking { from: node, own });
        self.last = node;
        Some(telling)
    }

    /// Records that the taking of a telling ends. The next one of its node is tried at once, unless
    /// the journal failed.
    fn settle(&mut self, has_failed: bool)
        ensures { self.new ≡ settled self.old.taking has_failed self.old }
    {
        let Some(taking) = self.taking else {
            return;
        };
        let place = place_of(taking.from);
        self.failed[place] = has_failed;
        self.taking = None;
        self.ended[place] = self.ended[place].saturating_add(1);
    }

    /// Records that a telling was taken, or is given up.
    pub(crate) fn end(&mut self, is_taken: bool)
        ensures { self.new ≡ after_end is_taken self.old }
    {
        self.settle(false);
        if is_taken {
            self.pause_ms = FIRST_RETRY_MS;
        }
    }

    /// Makes a telling wait again that the journal couldn't take, unless its node sent one meanwhile
    /// that counts as many facts of the node. What that node sent is tried again after a pause, which
    /// doubles each time. Returns the telling that then doesn't wait, if there are two.
    pub(crate) fn keep(&mut self, telling: Telling, now: Duration) -> Option<Telling>
        ensures kept { IsKept now telling self.old self.new }
        ensures left { result ≡ not_returned telling self.old }
    {
        self.settle(true);
        self.retry_at = now.saturating_add(Duration::from_millis(self.pause_ms));
        self.pause_ms = next_pause(self.pause_ms);
        let place = place_of(telling.from());
        if has_as_many(&self.waiting[place], &telling) {
            return Some(telling);
        }
        self.waiting[place].replace(telling)
    }

    /// Returns how many tellings of a node were taken, put back or given up.
    pub(crate) fn ended(&self, node: NodeId) -> u64
        ensures { result ≡ ended_of node self.now }
    {
        self.ended[place_of(node)]
    }
}
