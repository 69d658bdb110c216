// The choice of the next step, and the end of a simulation: quiet, and one round.

use crate::play::{Cut, Play, good_hosts};
use sim_env::{Doubt, Halt, Manner};
use sim_node::{HOSTS, SimNode};
use sim_runs::Runs;
use state_ids::{LraStatus, NodeId};

/// The number of rounds of the quiet at the end, and the length of each in milliseconds.
const ROUNDS: u64 = 240;

const ROUND_MS: u64 = 500;

/// The least number of rounds.
const LEAST_ROUNDS: u64 = 9;

/// More tasks than a node has at one moment.
const TASKS: u64 = 400;

/// Whether an LRA is ending.
fn is_ending(status: LraStatus) -> bool {
    matches!(status, LraStatus::Closing | LraStatus::Cancelling)
}

/// Whether a node shows that an LRA is ending.
fn is_any_ending<R: Runs>(node: &SimNode<R>) -> bool {
    for shown in node.known.shown() {
        if is_ending(shown.status) {
            return true;
        }
    }
    false
}

/// Whether a node has nothing left to do and accepts commands.
fn is_idle<R: Runs>(node: &SimNode<R>) -> Result<bool, Halt> {
    Ok(node.is_open() && node.known.dues()?.is_empty() && !is_any_ending(node))
}

impl<R: Runs> Play<R> {
    /// Starts all nodes, one after another.
    pub fn start_all(&mut self) -> Result<(), Halt> {
        for place in 0..self.nodes.len() {
            self.start(place, 0)?;
        }
        Ok(())
    }

    fn is_up(&self, place: usize) -> bool {
        match self.nodes.get(place) {
            Some(node) => node.is_up(),
            None => false,
        }
    }

    fn is_shut(&self, place: usize) -> bool {
        match self.nodes.get(place) {
            Some(node) => node.is_shut(),
            None => false,
        }
    }

    /// Simulates one step.
    pub fn step(&mut self) -> Result<(), Halt> {
        self.steps = self.steps.saturating_add(1);
        self.forget_lost()?;
        let place = self.some_place();
        if (!self.is_up(place) || self.is_shut(place)) && self.luck.is_one_in(4) {
            self.power(place)?;
        }
        self.happen(place)?;
        self.mislead(place)?;
        self.look_at_answers()?;
        self.look(place)
    }

    fn happen(&mut self, place: usize) -> Result<(), Halt> {
        match self.luck.below(100) {
            0..=22 => self.ask_client(place),
            23..=24 => self.ask_operator(place),
            25 => self.end_run(place),
            26..=54 => self.enter_one(place),
            55..=60 => self.begin_one(place),
            61..=66 => self.end_one(place),
            67..=82 => self.pull(place),
            83..=94 => self.pass_time(),
            95..=96 => self.power(place),
            _ => self.trouble(),
        }
    }

    fn enter_one(&mut self, place: usize) -> Result<(), Halt> {
        let _is_any = self.enter(place)?;
        Ok(())
    }

    fn begin_one(&mut self, place: usize) -> Result<(), Halt> {
        let _is_any = self.begin_call(place)?;
        Ok(())
    }

    fn end_one(&mut self, place: usize) -> Result<(), Halt> {
        let _is_any = self.end_call(place)?;
        Ok(())
    }

    /// Ends a run without a fault, and begins the next.
    fn end_run(&mut self, place: usize) -> Result<(), Halt> {
        if self.luck.is_one_in(8) {
            self.next_run(place)
        } else {
            Ok(())
        }
    }

    fn pass_time(&mut self) -> Result<(), Halt> {
        let time = match self.luck.below(10) {
            0..=3 => self.luck.below(60),
            4..=8 => self.luck.below(700),
            _ => self.luck.below(12_000),
        };
        self.now = self.now.saturating_add(time);
        Ok(())
    }

    fn pull(&mut self, place: usize) -> Result<(), Halt> {
        if self.pulls.is_empty() || self.luck.is_one_in(3) {
            let teller = self.some_place();
            return self.begin_pull(place, teller);
        }
        let chosen = self.luck.place(self.pulls.len());
        self.go_on(chosen)
    }

    /// Whether a node has started over an older copy and doesn't accept commands yet, or an empty
    /// disk is in the place of its own.
    fn is_anyone_behind(&self) -> bool {
        for node in self.nodes.iter() {
            if node.is_recovering || node.is_unmounted() {
                return true;
            }
        }
        false
    }

    fn are_others_open(&self, me: NodeId) -> bool {
        for node in self.nodes.iter() {
            if node.me != me && !node.is_open() {
                return false;
            }
        }
        true
    }

    /// Starts or stops a node.
    fn power(&mut self, place: usize) -> Result<(), Halt> {
        if self.is_shut(place) {
            return self.reopen(place);
        }
        if !self.is_up(place) {
            return self.start_any(place);
        }
        if self.is_unmounted(place) {
            return self.notice_disk(place);
        }
        if self.is_anyone_behind() || !self.luck.is_one_in(5) {
            return Ok(());
        }
        self.stop(place, Doubt::Nothing)
    }

    /// Stops a node, and starts it over an older copy at once, if there is one and the others know
    /// what the node sent.
    pub fn strike(&mut self, place: usize) -> Result<(), Halt> {
        let may_stop = !self.is_quiet && self.is_up(place) && !self.is_shut(place);
        if !may_stop || self.is_anyone_behind() {
            return Ok(());
        }
        self.stop(place, Doubt::Nothing)?;
        self.start_any(place)
    }

    /// Starts a node over the newest copy or, if the others know what it sent, over an older one.
    fn start_any(&mut self, place: usize) -> Result<(), Halt> {
        let is_anyone_behind = self.is_anyone_behind();
        self.change_disk(place, !is_anyone_behind)?;
        let (me, newest) = (self.me(place)?, self.newest(place));
        let may_be_older = newest > 0 && self.nodes.len() > 1 && self.are_others_open(me);
        if may_be_older && !self.luck.is_one_in(3) {
            let image = self.luck.place(newest);
            return self.start_older(place, image);
        }
        self.start(place, newest)
    }

    /// Starts a node over an older copy or, if copies are wanted, perhaps over an empty disk.
    fn start_older(&mut self, place: usize, image: usize) -> Result<(), Halt> {
        if !self.copies.loses_disk() {
            return self.start(place, image);
        }
        if let Some(node) = self.nodes.get_mut(place) {
            node.lose_disk();
        }
        self.start(place, 0)
    }

    /// Changes how a host answers, cuts or mends the network, or sets a clock.
    fn trouble(&mut self) -> Result<(), Halt> {
        match self.luck.below(4) {
            0 => self.change_host(),
            1 => self.cut(),
            2 => self.cuts.clear(),
            _ => self.set_clock(),
        }
        Ok(())
    }

    fn change_host(&mut self) {
        let host = self.luck.place(HOSTS);
        let manner = Manner::by(&mut self.luck);
        if let Some(slot) = self.hosts.get_mut(host) {
            *slot = manner;
        }
    }

    /// Cuts the network between two nodes, unless memory for that runs out.
    fn cut(&mut self) {
        let one = self.some_place();
        let other = self.some_place();
        let _is_kept = self
            .cuts
            .push(Cut {
                low: one.min(other),
                high: one.max(other),
            })
            .is_ok();
    }

    fn set_clock(&mut self) {
        let place = self.some_place();
        let skew = self.luck.below(20_000);
        if let Some(node) = self.nodes.get_mut(place) {
            node.skew = skew;
        }
    }

    /// Makes everything work from now on: every node runs, every host answers, and the network is
    /// there. Some nodes are restarted, and some go on as they are.
    fn calm(&mut self) -> Result<(), Halt> {
        self.is_quiet = true;
        self.cuts.clear();
        self.hosts = good_hosts(self.alloc)?;
        for place in 0..self.nodes.len() {
            if self.is_unmounted(place) || self.luck.is_one_in(2) {
                self.restart(place)?;
            }
        }
        Ok(())
    }

    fn restart(&mut self, place: usize) -> Result<(), Halt> {
        if self.is_up(place) {
            self.stop(place, Doubt::Nothing)?;
        }
        self.change_disk(place, false)?;
        self.start(place, self.newest(place))
    }

    /// Starts a node that is down, and opens the journal of a node whose journal is closed.
    fn revive(&mut self, place: usize) -> Result<(), Halt> {
        if self.is_shut(place) {
            return self.reopen(place);
        }
        if self.is_up(place) {
            return Ok(());
        }
        self.start(place, self.newest(place))
    }

    /// Lets each node do all that it has to do at one moment.
    fn settle_down(&mut self) -> Result<(), Halt> {
        for place in 0..self.nodes.len() {
            self.revive(place)?;
            self.forget_lost()?;
            self.do_all(place)?;
        }
        Ok(())
    }

    fn do_all(&mut self, place: usize) -> Result<(), Halt> {
        for _turn in 0..TASKS {
            if !self.do_some(place)? {
                return Ok(());
            }
        }
        Ok(())
    }

    /// Lets a node do what is next. Returns false if there was nothing to do.
    fn do_some(&mut self, place: usize) -> Result<bool, Halt> {
        let has_entered = self.enter(place)?;
        let has_begun = self.begin_call(place)?;
        let has_ended = self.end_call(place)?;
        Ok(has_entered || has_begun || has_ended)
    }

    fn begin_pulls(&mut self, asker: usize) -> Result<(), Halt> {
        for teller in 0..self.nodes.len() {
            self.begin_pull(asker, teller)?;
        }
        Ok(())
    }

    /// Lets each node pull from each other, until all pulls end: each goes on at most twice.
    fn pull_all(&mut self) -> Result<(), Halt> {
        for asker in 0..self.nodes.len() {
            self.begin_pulls(asker)?;
        }
        self.end_pulls()
    }

    fn end_pulls(&mut self) -> Result<(), Halt> {
        for _stage in 0..self.pulls.len().saturating_mul(2) {
            self.go_on(0)?;
        }
        Ok(())
    }

    /// Whether nothing is left to do and all nodes are alike.
    fn is_done(&self) -> Result<bool, Halt> {
        let first = self.front(0)?;
        for node in self.nodes.iter() {
            if node.front() != first || !is_idle(node)? {
                return Ok(false);
            }
        }
        Ok(self.is_all_out())
    }

    fn look_at_all(&mut self) -> Result<(), Halt> {
        for place in 0..self.nodes.len() {
            self.look(place)?;
        }
        Ok(())
    }

    /// Simulates a round of the quiet. Returns whether nothing is left to do.
    fn go_round(&mut self, round: u64) -> Result<bool, Halt> {
        self.steps = self.steps.saturating_add(1);
        self.now = self.now.saturating_add(ROUND_MS);
        self.settle_down()?;
        if round % 4 == 0 {
            self.pull_all()?;
        }
        self.look_at_answers()?;
        if round < LEAST_ROUNDS {
            return Ok(false);
        }
        self.is_done()
    }

    /// Checks that after quiet and a round all nodes are alike, and all that was decided has ended.
    pub fn end(&mut self) -> Result<(), Halt> {
        self.calm()?;
        for round in 0..ROUNDS {
            if self.go_round(round)? {
                return self.look_at_all();
            }
        }
        Err(Halt::Found(format!(in self.alloc; "work is left two minutes after the last fault")?))
    }
}
