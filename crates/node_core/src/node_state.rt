// A node's state besides its journal.
ghost use Rattle.state_ids.specs.declared.TheConstants.{MAX_NODES};
ghost use Rattle.std.specs.Prelude.{◌≡◌, ◌≤◌};
ghost use Rattle.node_core.specs.Nodes.{answers_nothing, is_lost, node_at_first, started, unready};

use crate::desk_watch::DeskWatch;
use crate::peers::Peers;
use crate::run_tally::RunTally;
use node_agenda::{Asks, MailboxState, Sweeping};
use node_replication::FollowersState;
use state_ids::{Front, MAX_NODES, NodeId};
use std::alloc::Global;
use std::time::Duration;
use wire_callbacks::Duties;

/// How a node deals with others, and how long its runs are.
#[derive(Clone, Copy)]
pub struct NodeSettings {
    /// Whether the other nodes are in processes of their own.
    pub is_apart: bool,
    /// Whether it was said that the journal is lost, or isn't the newest: then a start waits for all
    /// other nodes.
    pub is_anew: bool,
    /// How many other nodes are to have a fact before answers that may show it are sent.
    pub copies: u8,
    /// How long these wait for that.
    pub patience: Duration,
    /// Whether, after that time, nothing is acknowledged, and nothing is stored while too few nodes
    /// have what is already stored.
    pub is_strict: bool,
    /// After how many calls, and after how many moves of a frame, a run ends.
    pub max_calls: u64,
    pub max_moves: u64,
}

/// Why a node accepts no commands.
#[derive(Clone, Copy, Debug, PartialEq, Eq)]
pub enum Unready {
    /// The program is about to end.
    Ending,
    /// Too few nodes have what is stored, and copies are strict; or two processes have its number.
    Copies,
    /// The journal failed, and nothing was stored since.
    Journal,
    /// A call has waited for the disk for seconds.
    Disk,
    /// The other nodes weren't heard from, or have more facts of this node.
    Behind,
}

impl Unready {
    /// Returns its word, as operators see it.
    pub fn word(self) -> &'static str {
        match self {
            Unready::Ending => "ending",
            Unready::Copies => "copies",
            Unready::Journal => "journal",
            Unready::Disk => "disk",
            Unready::Behind => "behind",
        }
    }
}

/// A node's state besides its journal, as one value. Each part guards itself. What ties parts
/// together is a call of this type.
#[derive(Drop)]
pub struct NodeState {
    pub me: NodeId,
    pub nodes: u8,
    /// Whether the other nodes are in processes of their own.
    pub is_apart: bool,
    /// Whether it was said that the journal is lost, or isn't the newest.
    pub is_anew: bool,
    /// What its threads hand to one another, and when what is to be done with it.
    pub mail: MailboxState,
    /// How many facts of its own each other node counted when it asked.
    pub asks: Asks,
    /// What the other nodes have of its facts, and what waits for that.
    pub followers: FollowersState<Duties>,
    pub peers: Peers,
    pub tally: RunTally,
    pub desk: DeskWatch,
    /// Whether the journal is new although copies are wanted, and nobody said that the old one is
    /// lost; until the node has heard from all others.
    pub is_new: bool,
    /// Whether a fact of its own was stored since the start.
    pub has_entered: bool,
    /// Whether its journal is closed, to be opened again.
    pub is_shut: bool,
    /// Whether the program is about to end: answers that wait are sent, and nothing is stored.
    pub is_ending: bool,
    /// Whether it has something new that other nodes don't know of.
    pub has_news: bool,
}

impl NodeState {
    /// Makes the state of a node in a group of `nodes` nodes, 1 to 8, before its journal is looked
    /// at.
    pub fn new(
        alloc: Global,
        me: NodeId,
        nodes: u8,
        settings: &NodeSettings,
        sweeping: Sweeping,
    ) -> NodeState
        requires { (1 ≤ nodes) × (nodes ≤ MAX_NODES) }
        ensures { result ≡ node_at_first me nodes settings.now sweeping }
    {
        let (is_apart, is_anew) = (settings.is_apart, settings.is_anew);
        let (copies, patience, is_strict) = (
            settings.copies,
            settings.patience,
            settings.is_strict,
        );
        NodeState {
            me,
            nodes,
            is_apart,
            is_anew,
            mail: MailboxState::new(alloc, me, nodes, is_apart, is_anew, sweeping),
            asks: Asks::new(nodes),
            followers: FollowersState::new(me, nodes, copies, patience, is_strict),
            peers: Peers::new(),
            tally: RunTally::new(settings.max_calls, settings.max_moves),
            desk: DeskWatch::new(),
            is_new: false,
            has_entered: false,
            is_shut: false,
            is_ending: false,
            has_news: false,
        }
    }

    /// Records which facts the journal has at the start. If copies are wanted and the journal has no
    /// fact of this node, the disk may be lost: the start waits for all others. If it has some, the
    /// others may lack the last of them, so answers wait as if it had been stored just now.
    pub fn start(&mut self, front: &Front)
        ensures { self.new ≡ started front.now self.old }
    {
        let own = front.count(self.me);
        self.followers.note_count(own);
        if !self.followers.wants_any() {
            return;
        }
        if own == 0 {
            self.is_new = !self.is_anew;
            self.mail.wait_for_all();
        } else {
            self.followers.begin();
            let _ticket = self.followers.end(true);
        }
    }

    /// Whether the journal is new although another node knows facts of this one, as this front says,
    /// and nobody said that the old journal is lost.
    pub fn is_lost(&self, told: &Front) -> bool
        ensures { result ≡ is_lost told.now self.now }
    {
        let is_said = self.is_anew || !self.followers.wants_any();
        !is_said && told.count(self.me) > 0 && self.mail.front().count(self.me) == 0
    }

    /// Whether this node answers only pulls. Its disk may have been replaced, so a missing LRA would
    /// wrongly look like an unknown one. At a group's first start this ends once all others were
    /// heard from.
    pub fn answers_nothing(&self) -> bool
        ensures { result ≡ answers_nothing self.now }
    {
        self.is_new && !self.mail.is_open()
    }

    /// Returns why it accepts no commands now, if it doesn't.
    pub fn unready(&self, now: Duration) -> Option<Unready>
        ensures { result ≡ unready now self.now }
    {
        if self.is_ending {
            return Some(Unready::Ending);
        }
        if self.followers.refuses() {
            return Some(Unready::Copies);
        }
        if self.is_shut || self.tally.has_failed() || self.mail.is_spared(now) {
            return Some(Unready::Journal);
        }
        if self.desk.hangs(now) {
            return Some(Unready::Disk);
        }
        if !self.mail.is_open() {
            return Some(Unready::Behind);
        }
        None
    }
}
