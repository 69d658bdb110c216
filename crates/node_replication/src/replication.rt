// Tracks how far a node's facts have spread.
ghost use Rattle.std.specs.Prelude.{◌≡◌, ◌≤◌, [], false, length, replicate};
ghost use Rattle.state_ids.specs.Fronts.{count};
ghost use Rattle.state_ids.specs.declared.TheConstants.{MAX_NODES};
ghost use Rattle.node_replication.specs.Spreads.{begun, counted, drawn, drawn_to_wait, ended, fact_ticket, given, has_news, heard, is_covered, looked, next_ticket, settled, standing_of, stood, target, told_by};

use crate::acknowledgements::Acknowledgements;
use crate::mark::{Mark, MarkList, covered_by, is_any_in_time, put, uncopied};
use crate::moment::is_over;
use crate::standing::Standing;
use state_ids::NodeId;
use std::marker::Model;
use std::time::Duration;

/// What other nodes have of this node's facts, and the tickets that answers showing these facts
/// wait for.
#[derive(Drop)]
pub struct Replication {
    others: Acknowledgements,
    /// How long an answer waits.
    patience: Duration,
    /// How many calls that may store a fact are under way.
    entering: u64,
    /// The last ticket that was drawn; 0 if none was.
    drawn: u64,
    /// The last ticket for which an answer may wait.
    stored: u64,
    /// The greatest ticket of a frame that was given.
    marked: u64,
    /// How many facts of its own this node is known to have.
    counted: u64,
    marks: MarkList,
    /// Enough other nodes have each fact with a ticket up to this one.
    covered: u64,
    is_short: bool,
    has_strange: bool,
}

impl Model for Replication {
    ghost use Rattle.node_replication.specs.Spreads.{Spread};

    ghost Value = { Spread };

    ghost view = { λ c. record {
      others = c.others;
      patience = c.patience;
      entering = c.entering;
      drawn = c.drawn;
      stored = c.stored;
      marked = c.marked;
      counted = c.counted;
      marks = c.marks.items;
      covered = c.covered;
      is_short = c.is_short;
      has_strange = c.has_strange;
    } };
}

impl Replication {
    /// Makes the state of a node in a group of `nodes` nodes, 1 to 8. It wants each fact to be
    /// copied to `wanted` other nodes (0: none), and waits for that as long as `patience`.
    pub fn new(me: NodeId, nodes: u8, wanted: u8, patience: Duration) -> Replication
        requires { (1 ≤ nodes) × (nodes ≤ MAX_NODES) }
        ensures { result ≡ record {
          others = record { me = me; wanted = wanted; told = replicate nodes 0 };
          patience = patience;
          entering = 0;
          drawn = 0;
          stored = 0;
          marked = 0;
          counted = 0;
          marks = [];
          covered = 0;
          is_short = false;
          has_strange = false;
        } }
    {
        Replication {
            others: Acknowledgements::new(me, nodes, wanted),
            patience,
            entering: 0,
            drawn: 0,
            stored: 0,
            marked: 0,
            counted: 0,
            marks: MarkList::new(),
            covered: 0,
            is_short: false,
            has_strange: false,
        }
    }

    fn draw(&mut self) -> u64
        ensures drawn { self.new ≡ drawn self.old }
        ensures ticket { result ≡ next_ticket self.old }
    {
        self.drawn = self.drawn.saturating_add(1);
        self.drawn
    }

    fn draw_to_wait(&mut self) -> u64
        ensures drawn { self.new ≡ drawn_to_wait self.old }
        ensures ticket { result ≡ next_ticket self.old }
    {
        self.stored = self.draw();
        self.stored
    }

    /// Records that a call begins that may store a fact of this node.
    pub fn begin(&mut self)
        ensures { self.new ≡ begun self.old }
    {
        self.entering = self.entering.saturating_add(1);
    }

    /// Records that such a call is over, and draws the ticket of its fact; returns 0 if none was
    /// stored.
    pub fn end(&mut self, is_stored: bool) -> u64
        ensures ended { self.new ≡ ended is_stored self.old }
        ensures ticket { result ≡ fact_ticket is_stored self.old }
    {
        self.entering = self.entering.saturating_sub(1);
        if !is_stored {
            return 0;
        }
        self.draw_to_wait()
    }

    /// Records that a frame is asked for, and draws its ticket: the frame has each fact with a
    /// lower one.
    pub fn ask(&mut self) -> u64
        ensures drawn { self.new ≡ drawn self.old }
        ensures ticket { result ≡ next_ticket self.old }
    {
        self.draw()
    }

    /// Records that a frame was given that was asked for with this ticket and counts this many
    /// facts of this node. `MAX_MARKS` frames that too few other nodes have are remembered: one
    /// more replaces the last.
    pub fn give(&mut self, ticket: u64, count: u64, now: Duration)
        ensures { self.new ≡ given (record { ticket = ticket; count = count; at = now }) self.old }
    {
        self.marked = self.marked.max(ticket);
        self.counted = self.counted.max(count);
        if self.others.wanted > 0 && ticket < u64::MAX {
            let at = now;
            put(&mut self.marks, Mark { ticket, count, at });
        }
    }

    /// Records how many facts of its own this node has.
    pub fn note_count(&mut self, count: u64)
        ensures { self.new ≡ counted count self.old }
    {
        self.counted = self.counted.max(count);
    }

    /// Forgets the frames that enough other nodes have.
    fn settle(&mut self, now: Duration)
        ensures { self.new ≡ settled now self.old }
    {
        let marks = self.marks.as_slice();
        let is_in_time = is_any_in_time(marks, &self.others, self.patience, now);
        self.covered = covered_by(marks, &self.others, self.covered);
        self.is_short = self.is_short && !is_in_time;
        self.marks = uncopied(&self.marks, &self.others);
    }

    /// Records how many facts of this node another node acknowledges.
    fn acknowledge(&mut self, other: NodeId, count: u64)
        requires { other ≤ length self.old.others.told }
        ensures { self.new ≡ told_by other count self.old }
    {
        let is_strange = count > self.counted;
        let count = if is_strange { 0 } else { count };
        self.others.note(other, count);
        self.has_strange = self.has_strange || is_strange;
    }

    /// Records that another node reports how many facts of this node it has stored. A number
    /// greater than this node knows of acknowledges nothing.
    pub fn hear(&mut self, other: NodeId, count: u64, now: Duration)
        ensures { self.new ≡ heard other count now self.old }
    {
        if self.others.has(other) {
            self.acknowledge(other, count);
            self.settle(now);
        }
    }

    /// Returns the ticket that must be covered before an answer is sent that may show what is
    /// stored now; 0 if there is nothing to wait for. While a call is under way, a new ticket is
    /// drawn.
    pub fn target(&mut self) -> u64
        ensures looked { self.new ≡ looked self.old }
        ensures ticket { result ≡ target (looked self.old) }
    {
        if self.others.wanted > 0 && self.entering > 0 {
            let _ = self.draw_to_wait();
        }
        if self.is_covered(self.stored) {
            0
        } else {
            self.stored
        }
    }

    /// Whether as many other nodes as are wanted have each fact with a ticket up to this one.
    pub fn is_covered(&self, ticket: u64) -> bool
        ensures { result ≡ is_covered ticket self.now }
    {
        self.others.wanted == 0 || ticket <= self.covered
    }

    /// Returns the ticket up to which as many other nodes as are wanted have each fact.
    pub fn covered(&self) -> u64
        ensures { result ≡ self.now.covered }
    {
        self.covered
    }

    /// Whether there is news of this node's own for a node that has this many facts of it.
    pub fn has_news(&self, count: u64) -> bool
        ensures { result ≡ has_news count self.now }
    {
        self.stored > self.marked || self.counted > count
    }

    /// Returns how many facts of this node another node reported to have.
    pub fn told(&self, other: NodeId) -> u64
        ensures { result ≡ count self.now.others.told other }
    {
        self.others.told.count(other)
    }

    /// Whether other nodes fell behind for longer than the patience, so that an answer waits only
    /// if it is strict. This ends once enough nodes have a frame within the patience.
    pub fn is_short(&self) -> bool
        ensures { result ≡ self.now.is_short }
    {
        self.is_short
    }

    /// Whether another node reported more facts of this node than this node knew of: this node's
    /// journal is older, or there are two processes with its number.
    pub fn has_strange(&self) -> bool
        ensures { result ≡ self.now.has_strange }
    {
        self.has_strange
    }

    /// Returns the standing of an answer that has waited for a ticket since a moment. If it is
    /// strict, it waits even though other nodes fell behind.
    pub fn standing(
        &mut self,
        ticket: u64,
        since: Duration,
        now: Duration,
        is_strict: bool,
    ) -> Standing
        ensures standing { result ≡ standing_of ticket since now is_strict self.old }
        ensures stood { self.new ≡ stood ticket since now is_strict self.old }
    {
        if self.is_covered(ticket) {
            return Standing::Copied;
        }
        if (!is_strict && self.is_short) || is_over(self.patience, since, now) {
            self.is_short = true;
            return Standing::Late;
        }
        Standing::Waits
    }
}
