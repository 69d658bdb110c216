// Decides when held pulls are served.
ghost use Rattle.std.specs.Prelude.{◌≡◌, ◌<◌, ◌+◌, ◌↔◌, IsTrue, length};
ghost use Rattle.std.specs.Duration.{as_nanos};
ghost use Rattle.node_replication.specs.Paces.{DoAllListen, asked_at, at_rest, gap, given_at, listens, mean_with, moment_of, nanos_between, verdict_of, with_begin, with_end};

use crate::moment::{is_over, is_over_since};
use crate::standing::PullDecision;
use state_ids::{MAX_NODES, NodeId};
use std::marker::Model;
use std::time::Duration;

/// The most nodes that there are.
const NODES: usize = MAX_NODES as usize;

/// How recently another node must have asked to count as ready for news, in milliseconds.
const LISTENS_MS: u64 = 1_000;

/// The longest gap between two frames for the same node, in nanoseconds.
const MAX_GAP: u64 = 50_000_000;

/// How long a pull is held if its asker lacks nothing, and if its asker lacks facts of others, in
/// milliseconds.
const REST_MS: u64 = 4_000;

const ROUND_MS: u64 = 500;

/// Returns the nanoseconds from one moment to another, or the most that there can be.
fn nanos_between(since: Duration, now: Duration) -> u64
    ensures { result ≡ nanos_between since now }
{
    let nanos = now.saturating_sub(since).as_nanos();
    nanos.min(u128::from(u64::MAX)) as u64
}

/// Returns the mean after a change that took this long.
fn mean_with(mean: Option<u64>, nanos: u64) -> u64
    ensures { result ≡ mean_with mean nanos }
{
    match mean {
        Some(mean) => mean - mean / 8 + nanos / 8,
        None => nanos,
    }
}

/// Whether a node that asked at this moment, if ever, asked within the last second.
fn listens(asked: Option<Duration>, now: Duration) -> bool
    ensures { result ≡ listens asked now }
{
    match asked {
        Some(at) => !is_over(Duration::from_millis(LISTENS_MS), at, now),
        None => false,
    }
}

/// When held pulls are served.
#[derive(Drop)]
pub struct Pacing {
    /// When each node last asked, and when it last got a frame.
    asked: [Option<Duration>; NODES],
    given: [Option<Duration>; NODES],
    /// When a run ended that no other has followed yet.
    ended: Option<Duration>,
    /// How long a change from one run to the next takes, in nanoseconds; `None` before the first.
    change: Option<u64>,
}

impl Model for Pacing {
    ghost use Rattle.node_replication.specs.Paces.{Pace};

    ghost Value = { Pace };

    ghost view = { λ p. record { asked = p.asked; given = p.given; ended = p.ended; change = p.change } };
}

impl Pacing {
    /// Makes the state in which no node has asked.
    pub fn new() -> Pacing
        ensures { result ≡ at_rest }
    {
        Pacing {
            asked: [None; NODES],
            given: [None; NODES],
            ended: None,
            change: None,
        }
    }

    /// Records that another node asks, and is ready to wait.
    pub fn note_asked(&mut self, other: NodeId, now: Duration)
        ensures { self.new ≡ asked_at other now self.old }
    {
        self.asked[usize::from(other.number()) - 1] = Some(now);
    }

    /// Records that another node gets a frame.
    pub fn note_given(&mut self, other: NodeId, now: Duration)
        ensures { self.new ≡ given_at other now self.old }
    {
        self.given[usize::from(other.number()) - 1] = Some(now);
    }

    /// Returns when the node at a position asked, if ever.
    fn asked_by(&self, place: usize) -> Option<Duration>
        ensures { result ≡ moment_of self.now.asked (place + 1) }
    {
        match self.asked.get(place) {
            Some(asked) => *asked,
            None => None,
        }
    }

    /// Whether each other node of a group of `nodes` nodes asked within the last second.
    pub fn do_all_listen(&self, me: NodeId, nodes: u8, now: Duration) -> bool
        ensures { IsTrue result ↔ DoAllListen me nodes now self.now }
    {
        for place in 0..usize::from(nodes) {
            if place + 1 != usize::from(me.number()) && !listens(self.asked_by(place), now) {
                return false;
            }
        }
        true
    }

    /// Records that a run ends.
    pub fn note_end(&mut self, now: Duration)
        ensures { self.new ≡ with_end now self.old }
    {
        self.ended = Some(now);
    }

    /// Records that the next run has begun.
    pub fn note_begun(&mut self, now: Duration)
        ensures { self.new ≡ with_begin now self.old }
    {
        if let Some(ended) = self.ended {
            self.change = Some(mean_with(self.change, nanos_between(ended, now)));
            self.ended = None;
        }
    }

    /// Returns the least gap between two frames for the same node: a change of runs for each other
    /// node, and at most 50 ms.
    pub fn gap(&self, nodes: u8) -> Duration
        ensures { as_nanos result ≡ gap nodes self.now }
    {
        let others = u64::from(nodes.saturating_sub(1));
        let gap = others.saturating_mul(self.change.unwrap_or(0));
        Duration::from_nanos(gap.min(MAX_GAP))
    }

    /// Returns what is done with a pull that has waited since a moment, given whether there is news
    /// of this node for its asker, and whether the asker lacks facts of other nodes.
    pub fn verdict(
        &self,
        nodes: u8,
        other: NodeId,
        since: Duration,
        has_news: bool,
        lacks_others: bool,
        now: Duration,
    ) -> PullDecision
        ensures { result ≡ verdict_of nodes other since has_news lacks_others now self.now }
    {
        if has_news {
            let given = self.given[usize::from(other.number()) - 1];
            return if is_over_since(self.gap(nodes), given, now) {
                PullDecision::Serve
            } else {
                PullDecision::Soon
            };
        }
        let time = if lacks_others { ROUND_MS } else { REST_MS };
        if is_over(Duration::from_millis(time), since, now) {
            PullDecision::Serve
        } else {
            PullDecision::Later
        }
    }
}
