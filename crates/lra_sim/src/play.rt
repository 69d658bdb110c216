// One to eight nodes in one thread, under a clock, a network, disks and participants that a seed decides.

use crate::copies::Copies;
use node_agenda::Keep;
use node_core::NodeState;
use sim_env::{Halt, History, Luck, Manner, Pull};
use sim_node::{HOSTS, Life, SimNode, Wants};
use sim_runs::Runs;
use state_facts::Body;
use state_ids::{Front, LraId, MAX_NODES, NodeId};
use std::alloc::Global;
use std::collections::VecDeque;

/// The number of events that are printed once something is found.
pub const TOLD: usize = 20;

/// The nodes and their surroundings.
#[derive(Drop)]
pub struct Play<R: Runs> {
    pub alloc: Global,
    pub luck: Luck,
    pub now: u64,
    pub history: History,
    pub nodes: Vec<SimNode<R>>,
    pub pulls: Vec<Pull>,
    /// The pairs of nodes between which there is no network, by their places.
    pub cuts: Vec<Cut>,
    pub hosts: Vec<Manner>,
    /// Whether nothing fails any more.
    pub is_quiet: bool,
    pub steps: u64,
    pub copies: Copies,
    /// The state to which a call is handed back whose node stopped in the middle of it.
    pub gone: NodeState,
    events: VecDeque<String>,
    most: usize,
}

/// Two nodes between which there is no network, the lower place first.
#[derive(Clone, Copy)]
pub struct Cut {
    pub low: usize,
    pub high: usize,
}

fn time_by(luck: &mut Luck) -> Option<u64> {
    match luck.below(4) {
        0 => None,
        1 => Some(0),
        2 => Some(300),
        _ => Some(5_000),
    }
}

/// Makes hosts that all answer well.
pub fn good_hosts(alloc: Global) -> Result<Vec<Manner>, Halt> {
    let mut hosts = Vec::new(alloc);
    for _host in 0..HOSTS {
        hosts.push(Manner::Well)?;
    }
    Ok(hosts)
}

/// Makes hosts that answer as luck decides.
fn hosts_by(alloc: Global, luck: &mut Luck) -> Result<Vec<Manner>, Halt> {
    let mut hosts = Vec::new(alloc);
    for _host in 0..HOSTS {
        hosts.push(Manner::by(luck))?;
    }
    Ok(hosts)
}

fn new_node<R: Runs>(
    alloc: Global,
    luck: &mut Luck,
    number: u8,
    nodes: u8,
    wants: Wants,
) -> Result<SimNode<R>, Halt> {
    let ended = time_by(luck);
    let failed = time_by(luck);
    let skew = luck.below(20_000);
    SimNode::new(alloc, number, nodes, Keep { ended, failed }, wants, skew)
}

/// Makes the state of a node that doesn't run.
fn new_gone(alloc: Global) -> Result<NodeState, Halt> {
    let keep = Keep {
        ended: None,
        failed: None,
    };
    Ok(Wants::none().new_state(alloc, NodeId::new(1)?, 1, keep, false))
}

fn new_nodes<R: Runs>(
    alloc: Global,
    luck: &mut Luck,
    nodes: u8,
    wants: Wants,
) -> Result<Vec<SimNode<R>>, Halt> {
    let mut all = Vec::new(alloc);
    for number in 1..=nodes {
        all.push(new_node(alloc, luck, number, nodes, wants)?)?;
    }
    Ok(all)
}

fn given_twice(alloc: Global, me: NodeId, number: u64) -> Result<Halt, Halt> {
    Ok(Halt::Found(format!(in alloc; "{me} gives number {number} twice")?))
}

/// Returns why a simulation ends if a place is no node's.
pub fn nowhere() -> Halt {
    Halt::Stuck("no such node")
}

impl<R: Runs> Play<R> {
    pub fn new(alloc: Global, seed: u64, nodes: u8, most: usize) -> Result<Play<R>, Halt> {
        let mut luck = Luck::new(seed);
        let copies = Copies::new(alloc, seed, nodes)?;
        let all = new_nodes(alloc, &mut luck, nodes, copies.wants())?;
        let hosts = hosts_by(alloc, &mut luck)?;
        Ok(Play {
            alloc,
            luck,
            now: 1,
            history: History::new(alloc),
            nodes: all,
            pulls: Vec::new(alloc),
            cuts: Vec::new(alloc),
            hosts,
            is_quiet: false,
            steps: 0,
            copies,
            gone: new_gone(alloc)?,
            events: VecDeque::new(alloc),
            most,
        })
    }

    /// Returns how many nodes there are.
    pub fn count(&self) -> u8 {
        u8::try_from(self.nodes.len()).unwrap_or(MAX_NODES)
    }

    /// Returns the node at a place.
    pub fn me(&self, place: usize) -> Result<NodeId, Halt> {
        match self.nodes.get(place) {
            Some(node) => Ok(node.me),
            None => Err(nowhere()),
        }
    }

    /// Returns the facts that the node at a place has.
    pub fn front(&self, place: usize) -> Result<Front, Halt> {
        match self.nodes.get(place) {
            Some(node) => Ok(node.front()),
            None => Err(nowhere()),
        }
    }

    /// Returns the state of the node at a place, while it runs.
    pub fn life(&mut self, place: usize) -> Option<&mut Life<R>> {
        match self.nodes.get_mut(place) {
            Some(node) => node.life.as_mut(),
            None => None,
        }
    }

    /// Picks a node by its place.
    pub fn some_place(&mut self) -> usize {
        self.luck.place(self.nodes.len())
    }

    /// Notes an event in words.
    pub fn note_event(&mut self, words: String) -> Result<(), Halt> {
        if self.events.len() >= self.most {
            let _oldest = self.events.pop_front();
        }
        let (steps, now) = (self.steps, self.now);
        let line = format!(in self.alloc; "{steps}, at {now} ms: {words}")?;
        self.events.push_back(line)?;
        Ok(())
    }

    pub fn events(&self) -> &VecDeque<String> {
        &self.events
    }

    pub fn is_cut(&self, one: usize, other: usize) -> bool {
        let (low, high) = (one.min(other), one.max(other));
        for cut in self.cuts.iter() {
            if cut.low == low && cut.high == high {
                return true;
            }
        }
        false
    }

    /// Gives a node the facts of a front.
    pub fn grow(&mut self, place: usize, front: Front) -> Result<(), Halt> {
        let Some(node) = self.nodes.get_mut(place) else {
            return Err(nowhere());
        };
        node.grow(&self.history, front, self.now)?;
        self.note_had(place)
    }

    /// Adds a fact that a node stored.
    pub fn add(&mut self, place: usize, body: Body) -> Result<(), Halt> {
        let Some(node) = self.nodes.get_mut(place) else {
            return Err(nowhere());
        };
        let (me, number) = (node.me, node.known.own().saturating_add(1));
        if self.history.count(me) >= number {
            return Err(given_twice(self.alloc, me, number)?);
        }
        node.see_opening(place, self.now)?;
        self.history.add(me, number, body)?;
        node.grow_by_one(&self.history, self.now)
    }

    /// Picks an LRA about which a node may be asked.
    pub fn some_lra(&mut self, place: usize) -> Result<Option<LraId>, Halt> {
        let home = if self.luck.is_one_in(5) {
            self.some_place()
        } else {
            place
        };
        let begun = self.history.begun(self.alloc, self.me(home)?, 6)?;
        if begun.is_empty() {
            return Ok(None);
        }
        Ok(begun.get(self.luck.place(begun.len())).copied())
    }
}
