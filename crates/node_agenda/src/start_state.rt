// Decides whether commands are accepted yet. At a start they wait for what other nodes send.
ghost use Rattle.state_ids.specs.declared.TheConstants.{MAX_NODES};
ghost use Rattle.std.specs.Prelude.{◌≡◌, ◌≤◌, ◌&&◌, ◌↔◌, IsTrue, None, false, length, nat_le, not, replicate};
ghost use Rattle.std.specs.Duration.{as_nanos};
ghost use Rattle.state_ids.specs.Fronts.{count, join_fronts};
ghost use Rattle.std.specs.List.{list_any};
ghost use Rattle.node_agenda.specs.Starts.{IsLookedAt, IsNextLook, IsOpened, IsOpenedBy, IsReady, are_heard, are_met, claim_of, claimed_by, count_at, has_own, heard_by, heard_with, is_met, is_silent, own_awaited, patient, with_awaited};

use state_ids::{Front, NodeId};
use std::time::Duration;

/// How long a start waits at most for what other nodes send before it stores anything of its own,
/// in milliseconds, unless it waits for all of them.
pub const OPENING_MS: u64 = 1_000;

/// Whether a node wasn't heard from, given how often it was.
fn is_silent(count: u64) -> bool
    ensures { result ≡ is_silent count }
{
    count == 0
}

/// Whether some node wasn't heard from, given how often each was.
fn is_any_silent(counts: &[u64]) -> bool
    ensures { result ≡ list_any is_silent counts.now }
{
    counts.iter().any(|count| is_silent(*count))
}

/// Returns when to check again whether to open: later, if it is late.
fn next_look(is_late: bool, now: Duration, until: Duration) -> Duration
    ensures { IsNextLook is_late now until result }
{
    if is_late {
        now.saturating_add(Duration::from_millis(OPENING_MS))
    } else {
        until
    }
}

/// Whether a node with `own` facts of its own has as many as is claimed.
fn is_met(own: u64, claim: u64) -> bool
    ensures { result ≡ is_met own claim }
{
    claim <= own
}

/// Whether it has as many as each node claims.
fn are_met(own: u64, claims: &[u64]) -> bool
    ensures { result ≡ are_met own claims.now }
{
    claims.iter().all(|claim| is_met(own, *claim))
}

/// Returns the counts with another number for a node, if it has a place there.
pub(crate) fn count_at(node: NodeId, count: u64, mut counts: Front) -> Front
    ensures { result ≡ count_at node count counts }
{
    if usize::from(node.number()) <= counts.nodes() {
        counts.set(node, count);
    }
    counts
}

/// Returns the counts after a node was heard from too.
fn heard_with(node: NodeId, mut heard: Front) -> Front
    ensures { result ≡ heard_with node heard }
{
    if usize::from(node.number()) <= heard.nodes() {
        heard.set(node, 1);
    }
    heard
}

/// Whether commands are accepted yet.
#[derive(Drop)]
pub(crate) struct StartState {
    pub(crate) me: NodeId,
    /// Whether it waits without limit until all others were heard from.
    pub(crate) waits_for_all: bool,
    pub(crate) is_open: bool,
    /// When they are accepted at the latest, or when that is checked again.
    pub(crate) opens_at: Option<Duration>,
    /// Whether it has waited as long as it may, and didn't open.
    pub(crate) is_late: bool,
    /// 1 for the node itself and for each other node that was heard from since the start.
    pub(crate) heard: Front,
    /// How many facts of each node the others sent.
    pub(crate) awaited: Front,
    /// How many facts of this node each other node claimed to have when it asked, since it last
    /// answered; and what it had claimed before that. Anybody who can connect may claim something.
    pub(crate) claimed: Front,
    pub(crate) doubtful: Front,
}

impl StartState {
    /// Makes the state of a node in a group of `nodes` nodes. If the others are in other processes,
    /// it hears from them first: for a second, or until it has heard from them all.
    pub(crate) fn new(me: NodeId, nodes: u8, are_apart: bool, waits_for_all: bool) -> StartState
        requires { (1 ≤ nodes) × (nodes ≤ MAX_NODES) }
        ensures { result ≡ record {
          me = me;
          waits_for_all = waits_for_all;
          is_open = not are_apart;
          opens_at = None;
          is_late = false;
          heard = heard_with me (replicate nodes 0);
          awaited = replicate nodes 0;
          claimed = replicate nodes 0;
          doubtful = replicate nodes 0;
        } }
    {
        StartState {
            me,
            waits_for_all,
            is_open: !are_apart,
            opens_at: None,
            is_late: false,
            heard: heard_with(me, Front::zero(usize::from(nodes))),
            awaited: Front::zero(usize::from(nodes)),
            claimed: Front::zero(usize::from(nodes)),
            doubtful: Front::zero(usize::from(nodes)),
        }
    }

    /// Returns when it opens at the latest, or when that is checked again.
    fn opens_by(&self, now: Duration) -> Duration
        ensures { IsOpenedBy now self.now.opens_at result }
    {
        match self.opens_at {
            Some(until) => until,
            None => now.saturating_add(Duration::from_millis(OPENING_MS)),
        }
    }

    /// Whether each other node was heard from.
    fn are_heard(&self) -> bool
        ensures { result ≡ are_heard self.now.heard }
    {
        !is_any_silent(self.heard.as_slice())
    }

    /// Whether a node with this front has all facts of its own that another node sent or claims to
    /// have.
    fn has_own(&self, front: &Front) -> bool
        ensures { result ≡ has_own front.now self.now }
    {
        let own = front.count(self.me);
        self.awaited.count(self.me) <= own
            && (are_met(own, self.claimed.as_slice()) && are_met(own, self.doubtful.as_slice()))
    }

    /// Whether a node with this front needn't hear more from the others.
    fn is_ready(&self, is_over: bool, front: &Front) -> bool
        ensures { IsTrue result ↔ IsReady is_over front.now self.now }
    {
        if is_over {
            return !self.waits_for_all || self.are_heard();
        }
        if !self.are_heard() {
            return false;
        }
        self.awaited.below(front)
    }

    /// Whether a check opens it, if the node has this front.
    fn is_opened(&self, is_over: bool, front: &Front) -> bool
        ensures { IsLookedAt is_over front.now self.now result }
    {
        if !self.has_own(front) {
            return false;
        }
        self.is_ready(is_over, front)
    }

    /// Accepts commands from here on, if the node has all facts of its own that others sent, all
    /// others were heard from, and what they sent is taken; or, once a second is over, if all were
    /// heard from or it doesn't wait for all. Returns whether this begins now.
    pub(crate) fn open_if_due(&mut self, now: Duration, front: &Front) -> bool
        ensures { IsOpened now front.now self.old self.new result }
    {
        if self.is_open {
            return false;
        }
        let until = self.opens_by(now);
        let is_over = until.as_nanos() <= now.as_nanos();
        let opens = self.is_opened(is_over, front);
        let is_late = is_over && !opens;
        self.opens_at = Some(next_look(is_late, now, until));
        self.is_late = self.is_late || is_late;
        self.is_open = opens;
        opens
    }

    /// Records what another node sent to this node, which has the front `known`. If that has more
    /// of this node's own facts, nothing is stored from here on until they are taken: this node's
    /// journal is older.
    pub(crate) fn hear(&mut self, other: NodeId, told: &Front, known: &Front)
        ensures { self.new ≡ heard_by other told.now known.now self.old }
    {
        if told.nodes() != self.awaited.nodes() {
            return;
        }
        self.heard = heard_with(other, self.heard);
        self.awaited = self.awaited.join(told);
        self.doubtful = count_at(other, self.claimed.count(other), self.doubtful);
        self.claimed = count_at(other, 0, self.claimed);
        self.is_open = self.is_open && told.count(self.me) <= known.count(self.me);
    }

    /// Records that another node, which asks, claims to have this many facts of this one. A start
    /// waits for them until that node has answered twice since. The second answer was asked for
    /// after the claim, so it has what was claimed, unless the other node has lost that or never
    /// had it.
    pub(crate) fn hear_claim(&mut self, other: NodeId, count: u64)
        ensures { self.new ≡ claimed_by other count self.old }
    {
        if self.is_open {
            return;
        }
        let more = self.claimed.count(other).max(count);
        self.claimed = count_at(other, more, self.claimed);
    }

    /// Makes the node store nothing before it has this many facts of its own.
    pub(crate) fn wait_for_own(&mut self, count: u64)
        ensures { self.new ≡ own_awaited count self.old }
    {
        let more = self.awaited.count(self.me).max(count);
        self.awaited = count_at(self.me, more, self.awaited);
        self.is_open = false;
    }

    /// Returns how many facts of this node another claims to have.
    pub(crate) fn claim_of(&self, other: NodeId) -> u64
        ensures { result ≡ claim_of other self.now }
    {
        self.claimed.count(other).max(self.doubtful.count(other))
    }

    /// Makes a start wait for all others, however long that takes.
    pub(crate) fn wait_for_all(&mut self)
        ensures { self.new ≡ patient self.old }
    {
        self.waits_for_all = true;
    }

    /// Makes commands wait for these facts too.
    pub(crate) fn wait_for(&mut self, told: &Front)
        ensures { self.new ≡ with_awaited told.now self.old }
    {
        self.awaited = self.awaited.join(told);
    }
}
