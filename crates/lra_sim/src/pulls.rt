// Pulls between nodes.

use crate::play::Play;
use node_core::AskedPull;
use node_inbox::{Telling, ask_for};
use node_replication::PullDecision;
use sim_env::{Halt, Pull, PullAsked, PullStage};
use sim_runs::Runs;
use state_book::{Call, Reply};
use state_ids::{Front, MAX_NODES, NodeId};
use std::alloc::Global;
use std::time::Duration;
use wire_frames::{Delta, encode};
use wire_http::{Bytes, OverRead, OverWrite};
use wire_pulls::{front_of_pull, pull_body};

/// The pass of the worker that serves pulls.
const SERVES: usize = 4;

/// Returns the front that the body of a pull states for its sender.
fn front_told(count: u8, body: &[u8]) -> Result<Front, Halt> {
    match front_of_pull(usize::from(count.clamp(1, MAX_NODES)), body) {
        Ok(front) => Ok(front),
        Err(_) => Err(Halt::Stuck("a pull has no front")),
    }
}

/// Makes the response that carries a frame.
fn response_of(alloc: Global, delta: &Delta) -> Result<Vec<u8>, Halt> {
    let frame = encode(alloc, delta)?;
    let size = frame.len();
    let mut bytes = format!(in alloc;
        "HTTP/1.1 200 OK\r\nContent-Length: {size}\r\n\r\n"
    )?.into_bytes();
    bytes.extend_from_slice(frame.as_slice())?;
    Ok(bytes)
}

/// Returns what another node sent with these bytes, if it is whole.
fn told_by(alloc: Global, other: NodeId, front: &Front, bytes: &[u8]) -> Option<Telling> {
    let mut writer = OverWrite::new(Vec::new(alloc));
    let mut reader = OverRead::new(bytes);
    match ask_for(alloc, &mut reader, &mut writer, other, "", front) {
        Ok(telling) => Some(telling),
        Err(_) => None,
    }
}

fn owed_for_ever(alloc: Global, from: NodeId) -> Result<Halt, Halt> {
    Ok(Halt::Found(format!(in alloc; "a pull of node {from} waits for what was given up")?))
}

impl<R: Runs> Play<R> {
    /// Returns the front from which a node pulls from another one, once it knows what it has, and
    /// how often that one has begun anew, as far as it knows.
    fn asks_from(&mut self, asker: usize, other: NodeId) -> Option<(Front, u64)> {
        self.life(asker)?.asks_from(other)
    }

    fn is_open(&self, place: usize) -> bool {
        match self.nodes.get(place) {
            Some(node) => node.is_open(),
            None => false,
        }
    }

    fn is_pulling(&self, asker: usize, teller: usize) -> bool {
        for pull in self.pulls.iter() {
            if pull.asked.asker == asker && pull.asked.teller == teller {
                return true;
            }
        }
        false
    }

    /// Whether something that another node sent waits for its turn to be taken.
    fn queues(&mut self, asker: usize, teller: usize) -> Result<bool, Halt> {
        let other = self.me(teller)?;
        match self.life(asker) {
            Some(life) => Ok(life.queues(other)),
            None => Ok(false),
        }
    }

    /// Begins a pull, unless the node already pulls from that other node, hasn't begun to take what
    /// that sent, or doesn't know what it has.
    pub fn begin_pull(&mut self, asker: usize, teller: usize) -> Result<(), Halt> {
        if asker == teller || self.is_pulling(asker, teller) || self.queues(asker, teller)? {
            return Ok(());
        }
        let other = self.me(teller)?;
        let Some((front, anew)) = self.asks_from(asker, other) else {
            return Ok(());
        };
        let waits = self.is_open(asker) && self.copies.pull_waits();
        let asked = PullAsked {
            asker,
            teller,
            front,
            anew,
            waits,
        };
        self.send(&asked, PullStage::Asked)
    }

    /// Sends a pull on its way, or holds it.
    fn send(&mut self, asked: &PullAsked, stage: PullStage) -> Result<(), Halt> {
        self.pulls.push(Pull {
            asked: *asked,
            stage,
        })?;
        Ok(())
    }

    /// Whether a pull is lost now. One that waits isn't, while it is held: it is looked at often.
    fn is_lost(&mut self, pull: &Pull) -> bool {
        let asked = pull.asked;
        if self.is_cut(asked.asker, asked.teller) {
            return true;
        }
        let is_safe = asked.waits && pull.is_held_by(asked.teller);
        !self.is_quiet && !is_safe && self.luck.is_one_in(10)
    }

    /// Takes a pull one stage further: it is served, or comes back, or is lost.
    pub fn go_on(&mut self, chosen: usize) -> Result<(), Halt> {
        if chosen >= self.pulls.len() {
            return Ok(());
        }
        let pull = self.pulls.remove(chosen);
        if self.is_lost(&pull) {
            return Ok(());
        }
        let Pull { asked, stage } = pull;
        match stage {
            PullStage::Asked => self.hear_pull(&asked, None),
            PullStage::Held { since } => self.hear_pull(&asked, Some(since)),
            PullStage::Answered(bytes) => self.hear_answer(&asked, bytes),
        }
    }

    /// Lets the node that is asked hear a pull, for the first time or again, and serves it unless it
    /// waits.
    fn hear_pull(&mut self, asked: &PullAsked, since: Option<u64>) -> Result<(), Halt> {
        let decision = self.decide(asked, since)?;
        if decision == PullDecision::Serve {
            return self.serve(asked);
        }
        let since = since.unwrap_or(self.now);
        self.send(asked, PullStage::Held { since })
    }

    /// Returns what the node that is asked does with a pull. Checks that the node owes nothing that
    /// was given up. One that doesn't run serves nothing.
    fn decide(&mut self, asked: &PullAsked, since: Option<u64>) -> Result<PullDecision, Halt> {
        let (from, now) = (self.me(asked.asker)?, self.now);
        let body = pull_body(self.alloc, &asked.front)?;
        let front = front_told(self.count(), body.as_slice())?;
        let Some(life) = self.life(asked.teller) else {
            return Ok(PullDecision::Serve);
        };
        let (is_owed, waits_for) = (life.is_owed(from, &front), life.waits_for(from));
        let pull = AskedPull {
            from,
            front,
            waits: asked.waits,
            since: since.map(Duration::from_millis),
        };
        let decision = life.hear_pull(&pull, now)?;
        if is_owed && !waits_for {
            return Err(owed_for_ever(self.alloc, from)?);
        }
        Ok(decision)
    }

    /// Lets a worker of the node that is asked serve a pull.
    fn serve(&mut self, asked: &PullAsked) -> Result<(), Halt> {
        let body = pull_body(self.alloc, &asked.front)?;
        let reply = self.call(asked.teller, SERVES, Call::Pull(Bytes::new(body)))?;
        let Some(Reply::Gave(delta)) = &reply else {
            return Ok(());
        };
        self.answer(asked, delta)
    }

    /// Sends the response to a pull on its way. It may be cut off.
    fn answer(&mut self, asked: &PullAsked, delta: &Delta) -> Result<(), Halt> {
        let mut bytes = response_of(self.alloc, delta)?;
        if !self.is_quiet && self.luck.is_one_in(12) {
            bytes.truncate(self.luck.place(bytes.len()));
        }
        self.send(asked, PullStage::Answered(bytes))
    }

    /// Handles the bytes that another node sent.
    fn hear_answer(&mut self, asked: &PullAsked, bytes: Vec<u8>) -> Result<(), Halt> {
        let (teller, front) = (asked.teller, asked.front);
        let other = self.me(teller)?;
        let Some(telling) = told_by(self.alloc, other, &front, bytes.as_slice()) else {
            return Ok(());
        };
        match self.life(asked.asker) {
            Some(life) => life.hear_telling(teller, &front, asked.anew, telling),
            None => Ok(()),
        }
    }
}
