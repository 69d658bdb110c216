// How other nodes follow this one: what they have of its facts, and what waits for that.
ghost use Rattle.std.specs.Prelude.{◌≡◌, ◌≤◌, ◌↔◌, IsTrue, is_some};
ghost use Rattle.state_ids.specs.declared.TheConstants.{MAX_NODES};
ghost use Rattle.node_replication.specs.Followers.{counts};

use crate::pacing::Pacing;
use crate::replication::Replication;
use crate::standing::{CallbackFate, PullDecision, Standing};
use crate::waiters::Waiters;
use state_ids::{LAST_NUMBER, MAX_NODES, NodeId};
use std::marker::Model;
use std::time::Duration;

/// How the other nodes of a group follow one node: what they have of its facts, when their pulls are
/// served, which answers and which list of duties (`L`) wait for them, and whether the node still
/// trusts its own journal. It outlives the runs of the node.
#[derive(Drop)]
pub struct FollowersState<L: Drop> {
    me: NodeId,
    nodes: u8,
    wanted: u8,
    patience: Duration,
    is_strict: bool,
    replication: Replication,
    pacing: Pacing,
    waiters: Waiters,
    /// The list of duties that waits; `None` if no list waits, or if the one that waited is too old.
    list: Option<L>,
    /// Whether another node has facts of this node that it never gave: there are two processes with
    /// its number, or its journal is older.
    is_doubted: bool,
}

impl<L: Drop> Model for FollowersState<L> {
    ghost use Rattle.node_replication.specs.Followers.{Followed, IsSound};

    ghost Value = { Followed L };

    ghost view = { λ b. record {
      node = record { me = b.me; nodes = b.nodes; wanted = b.wanted; patience = b.patience };
      is_strict = b.is_strict;
      spread = b.replication;
      pace = b.pacing;
      wait = b.waiters;
      list = b.list;
      is_doubted = b.is_doubted;
    } };

    ghost invariant = { λ b. IsSound (record {
      node = record { me = b.me; nodes = b.nodes; wanted = b.wanted; patience = b.patience };
      is_strict = b.is_strict;
      spread = b.replication;
      pace = b.pacing;
      wait = b.waiters;
      list = b.list;
      is_doubted = b.is_doubted;
    }) };
}

/// A list of duties that waits no longer.
#[derive(Drop)]
pub struct Released<L: Drop> {
    /// The list, whose participants are called now; `None` if it is too old.
    pub list: Option<L>,
    /// Whether a new list is asked for.
    pub asks_again: bool,
}

/// Whether a pull counts as an acknowledgement. One that asks as if it had all facts that there can
/// be acknowledges nothing. Before this node has heard from the others, one that has more of its
/// facts than its own journal doesn't count either: those facts are taken back first.
fn counts(theirs: u64, ours: u64, is_behind: bool) -> bool
    ensures { result ≡ counts theirs ours is_behind }
{
    theirs < LAST_NUMBER && !(is_behind && ours < theirs)
}

impl<L: Drop> FollowersState<L> {
    ghost use Rattle.node_replication.specs.Followers.{IsGoing, MayGo, at_first, doubted, hearing, judged, judging, kept, promised, put_off_to, refuses, standing_at, to_call, wants_any, with_pace, with_spread, with_wait};
    ghost use Rattle.node_replication.specs.Paces.{DoAllListen, with_begin, with_end};
    ghost use Rattle.node_replication.specs.Waits.{with_told};
    ghost use Rattle.state_ids.specs.Fronts.{count};
    ghost use Rattle.node_replication.specs.Spreads.{begun, counted, drawn, ended, given, looked, next_ticket, standing_of, target};
    ghost use Rattle.node_replication.specs.declared.standing.Standing.TheVariants.{Copied};

    /// Makes the state of a node in a group of `nodes` nodes, 1 to 8, before any other node asked. It
    /// wants each fact to be copied to `wanted` other nodes (0: none), and waits for that as long as
    /// `patience`. If it is strict, nothing is acknowledged after that, and nothing is entered.
    pub fn new(
        me: NodeId,
        nodes: u8,
        wanted: u8,
        patience: Duration,
        is_strict: bool,
    ) -> FollowersState<L>
        requires { (1 ≤ nodes) × (nodes ≤ MAX_NODES) }
        ensures { result ≡ at_first
            (record { me = me; nodes = nodes; wanted = wanted; patience = patience }) is_strict }
    {
        FollowersState {
            me,
            nodes,
            wanted,
            patience,
            is_strict,
            replication: Replication::new(me, nodes, wanted, patience),
            pacing: Pacing::new(),
            waiters: Waiters::new(),
            list: None,
            is_doubted: false,
        }
    }

    /// Whether any copies are wanted.
    pub fn wants_any(&self) -> bool
        ensures { result ≡ wants_any self.now }
    {
        self.wanted > 0
    }

    /// Records that a call begins that may store a fact of this node.
    pub fn begin(&mut self)
        ensures { self.new ≡ with_spread (begun self.old.spread) self.old }
    {
        self.replication.begin();
    }

    /// Records that such a call is over. Returns the ticket that its answer waits for; 0 if there is
    /// nothing to wait for.
    pub fn end(&mut self, is_stored: bool) -> u64
        ensures ended { self.new ≡ with_spread (ended is_stored self.old.spread) self.old }
        ensures ticket { result ≡ promised is_stored self.old }
    {
        let ticket = self.replication.end(is_stored);
        if self.wanted > 0 { ticket } else { 0 }
    }

    /// Returns the ticket that an answer waits for that may show what is stored now; 0 if there is
    /// nothing to wait for.
    pub fn target(&mut self) -> u64
        ensures looked { self.new ≡ with_spread (looked self.old.spread) self.old }
        ensures ticket { result ≡ target (looked self.old.spread) }
    {
        self.replication.target()
    }

    /// Records how many facts of its own this node has.
    pub fn note_count(&mut self, count: u64)
        ensures { self.new ≡ with_spread (counted count self.old.spread) self.old }
    {
        self.replication.note_count(count);
    }

    /// Records that a frame is asked for, and draws its ticket.
    pub fn ask(&mut self) -> u64
        ensures drawn { self.new ≡ with_spread (drawn self.old.spread) self.old }
        ensures ticket { result ≡ next_ticket self.old.spread }
    {
        self.replication.ask()
    }

    /// Records that a frame was given that was asked for with this ticket and counts this many facts
    /// of this node.
    pub fn give(&mut self, ticket: u64, count: u64, now: Duration)
        ensures { self.new ≡
            with_spread (given (record { ticket = ticket; count = count; at = now }) self.old.spread) self.old }
    {
        self.replication.give(ticket, count, now);
    }

    /// Records that another node asks and reports how many facts of this node it has stored, given
    /// how many this node has, and whether it still has to hear from the others. Returns the ticket
    /// up to which as many other nodes as are wanted have each fact.
    pub fn hear(
        &mut self,
        other: NodeId,
        theirs: u64,
        ours: u64,
        is_behind: bool,
        now: Duration,
    ) -> u64
        ensures heard { self.new ≡ hearing other theirs ours is_behind now self.old }
        ensures covered { result ≡ self.new.spread.covered }
    {
        if !counts(theirs, ours, is_behind) {
            return self.replication.covered();
        }
        self.replication.note_count(ours);
        self.replication.hear(other, theirs, now);
        self.replication.covered()
    }

    /// Returns the standing of an answer that has waited for a ticket since a moment. It goes on as
    /// copied only if as many other nodes as are wanted had what it shows.
    pub fn stand(&mut self, ticket: u64, since: Duration, now: Duration) -> Standing
        ensures standing { result ≡ standing_of ticket since now self.old.is_strict self.old.spread }
        ensures stood { self.new ≡ standing_at ticket since now self.old }
        ensures copied { result ≡ Copied → MayGo ticket self.old }
    {
        self.waiters
            .stand(&mut self.replication, ticket, since, now, self.is_strict)
    }

    /// Takes a list of duties. Returns it if its participants may be called at once. Otherwise it
    /// replaces the list that waits, until other nodes have what was stored when it came.
    pub fn keep_list(&mut self, list: L, now: Duration) -> Option<L>
        ensures kept { self.new ≡ kept list now self.old }
        ensures called { result ≡ to_call list self.old }
    {
        let ticket = self.replication.target();
        if ticket == 0 {
            return Some(list);
        }
        self.waiters.hold_calls(ticket, now);
        self.list = Some(list);
        None
    }

    /// Whether callbacks are on hold.
    pub fn holds_calls(&self) -> bool
        ensures { result ≡ is_some self.now.wait.calls }
    {
        self.waiters.holds_calls()
    }

    /// Whether callbacks are on hold. If so, a new list of duties is asked for once they are
    /// released.
    pub fn puts_off(&mut self) -> bool
        ensures holds { result ≡ is_some self.old.wait.calls }
        ensures asks { self.new ≡ put_off_to self.old }
    {
        self.waiters.puts_off()
    }

    /// Returns the list that waits no longer, if there is one. If it is too old, a new one is asked
    /// for in its place, so that no participant is forgotten.
    pub fn take_list(&mut self, now: Duration) -> Option<Released<L>>
        ensures { IsGoing now self.old self.new result }
    {
        match self
            .waiters
            .take_calls(&mut self.replication, now, self.is_strict)
        {
            CallbackFate::OnHold => None,
            CallbackFate::Outdated => {
                self.list = None;
                None
            }
            CallbackFate::Called { asks_again } => {
                let list = self.list.take();
                Some(Released { list, asks_again })
            }
            CallbackFate::Asked => Some(Released {
                list: None,
                asks_again: true,
            }),
        }
    }

    /// Returns what is done with a pull by another node that has this many facts of this node, given
    /// whether it lacks facts of others, and since when it has been held, if it has.
    pub fn judge(
        &mut self,
        other: NodeId,
        theirs: u64,
        lacks_others: bool,
        since: Option<Duration>,
        now: Duration,
    ) -> PullDecision
        ensures verdict { result ≡ judged other theirs lacks_others since now self.old }
        ensures paced { self.new ≡ judging other theirs lacks_others since now self.old }
    {
        self.pacing.note_asked(other, now);
        let has_news = self.replication.has_news(theirs);
        let since = since.unwrap_or(now);
        let verdict = self
            .pacing
            .verdict(self.nodes, other, since, has_news, lacks_others, now);
        if verdict == PullDecision::Serve {
            self.pacing.note_given(other, now);
        }
        verdict
    }

    /// Records that another node has facts of this node that it never gave. If copies are wanted,
    /// nothing is entered from here on.
    pub fn doubt(&mut self)
        ensures { self.new ≡ doubted self.old }
    {
        self.is_doubted = self.is_doubted || self.wanted > 0;
    }

    /// Whether nothing is entered: other nodes fell behind and this one is strict, or another has
    /// facts of this node that it never gave.
    pub fn refuses(&self) -> bool
        ensures { result ≡ refuses self.now }
    {
        self.is_doubted || (self.wanted > 0 && (self.is_strict && self.replication.is_short()))
    }

    /// Whether another node was heard to have facts of this node that it never gave.
    pub fn is_doubted(&self) -> bool
        ensures { result ≡ self.now.is_doubted }
    {
        self.is_doubted
    }

    /// Whether other nodes fell behind for longer than the patience.
    pub fn is_short(&self) -> bool
        ensures { result ≡ self.now.spread.is_short }
    {
        self.replication.is_short()
    }

    /// Whether another node asked as if it had facts of this node that it never gave. Anybody who can
    /// connect may say so.
    pub fn has_strange(&self) -> bool
        ensures { result ≡ self.now.spread.has_strange }
    {
        self.replication.has_strange()
    }

    /// Returns the ticket up to which as many other nodes as are wanted have each fact.
    pub fn covered(&self) -> u64
        ensures { result ≡ self.now.spread.covered }
    {
        self.replication.covered()
    }

    /// Returns how many facts of this node another node reported to have stored.
    pub fn told(&self, other: NodeId) -> u64
        ensures { result ≡ count self.now.spread.others.told other }
    {
        self.replication.told(other)
    }

    /// Returns how many answers and lists went on because as many other nodes as are wanted had what
    /// they show.
    pub fn copied(&self) -> u64
        ensures { result ≡ self.now.wait.copied }
    {
        self.waiters.copied()
    }

    /// Returns how many went on although they were late.
    pub fn late(&self) -> u64
        ensures { result ≡ self.now.wait.late }
    {
        self.waiters.late()
    }

    /// Returns how many were late since this was last asked.
    pub fn take_untold(&mut self) -> u64
        ensures untold { result ≡ self.old.wait.untold }
        ensures told { self.new ≡ with_wait (with_told self.old.wait) self.old }
    {
        self.waiters.take_untold()
    }

    /// Whether each other node asked within the last second, and so gets what is new without being
    /// told.
    pub fn do_all_listen(&self, now: Duration) -> bool
        ensures { IsTrue result ↔ DoAllListen self.now.node.me self.now.node.nodes now self.now.pace }
    {
        self.pacing.do_all_listen(self.me, self.nodes, now)
    }

    /// Records that a run ends.
    pub fn note_end(&mut self, now: Duration)
        ensures { self.new ≡ with_pace (with_end now self.old.pace) self.old }
    {
        self.pacing.note_end(now);
    }

    /// Records that the next run has begun.
    pub fn note_begun(&mut self, now: Duration)
        ensures { self.new ≡ with_pace (with_begin now self.old.pace) self.old }
    {
        self.pacing.note_begun(now);
    }
}
