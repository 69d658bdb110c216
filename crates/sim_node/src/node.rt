// A simulated node: what outlives its lives, and what the simulator knows about it.

use crate::call_summary::{CallSummary, body_of, cancel};
use crate::life::Life;
use crate::wants::Wants;
use node_agenda::Keep;
use sim_env::{DiskCopies, DiskFaults, Doubt, Halt, History, KnownFacts, Luck, Remains, raised};
use sim_runs::{JournalOpening, Runs};
use state_book::{Call, Reply};
use state_facts::{Command, Refusal};
use state_ids::{Front, LraStatus, MAX_NODES, NodeId};
use std::alloc::Global;
use wire_callbacks::Duties;

/// The disk of a node, and the facts that are on it.
#[derive(Drop)]
struct OwnDisk {
    copies: DiskCopies,
    known: KnownFacts,
}

/// A simulated node.
#[derive(Drop)]
pub struct SimNode<R: Runs> {
    pub(crate) alloc: Global,
    pub me: NodeId,
    /// The number of nodes.
    pub(crate) nodes: u8,
    keep: Keep,
    wants: Wants,
    /// How far the node's clock is ahead of the others', in milliseconds.
    pub skew: u64,
    /// The node's state while it runs.
    pub life: Option<Life<R>>,
    /// The contents of its files at each stop.
    copies: DiskCopies,
    /// The facts that it has, and what they say.
    pub known: KnownFacts,
    /// Whether it has started over an older copy and doesn't accept commands yet.
    pub is_recovering: bool,
    /// The node's own disk, while an empty one is in its place.
    unmounted: Option<OwnDisk>,
}

impl<R: Runs> SimNode<R> {
    /// Makes the node with this number in a group of `nodes` nodes. It doesn't run yet.
    pub fn new(
        alloc: Global,
        number: u8,
        nodes: u8,
        keep: Keep,
        wants: Wants,
        skew: u64,
    ) -> Result<SimNode<R>, Halt> {
        let (me, nodes) = (NodeId::new(number)?, nodes.clamp(1, MAX_NODES));
        let copies = DiskCopies::new(alloc, me, nodes)?;
        let known = KnownFacts::new(alloc, me, nodes)?;
        Ok(SimNode {
            alloc,
            me,
            nodes,
            keep,
            wants,
            skew,
            life: None,
            copies,
            known,
            is_recovering: false,
            unmounted: None,
        })
    }

    pub fn is_up(&self) -> bool {
        self.life.is_some()
    }

    /// Whether the node runs and its journal is closed.
    pub fn is_shut(&self) -> bool {
        match &self.life {
            Some(life) => life.is_shut(),
            None => false,
        }
    }

    /// Whether the node runs and may store something of its own.
    pub fn is_open(&self) -> bool {
        match &self.life {
            Some(life) => life.is_open(),
            None => false,
        }
    }

    /// Returns the facts that the node has.
    pub fn front(&self) -> Front {
        self.known.front()
    }

    /// Returns how many facts of another node this one has received, including those not taken yet.
    pub fn heard_of(&self, other: NodeId) -> u64 {
        let heard = match &self.life {
            Some(life) => life.heard_of(other),
            None => 0,
        };
        let doubted = self.copies.doubted_of(other);
        self.front().count(other).max(heard).max(doubted)
    }

    /// Whether an empty disk is in the place of the node's own.
    pub fn is_unmounted(&self) -> bool {
        self.unmounted.is_some()
    }

    /// Puts an empty disk in the place of the node's own, which it gets back later.
    pub fn unmount(&mut self) -> Result<(), Halt> {
        let copies = DiskCopies::new(self.alloc, self.me, self.nodes)?;
        let known = KnownFacts::new(self.alloc, self.me, self.nodes)?;
        self.unmounted = Some(OwnDisk {
            copies: std::mem::replace(&mut self.copies, copies),
            known: std::mem::replace(&mut self.known, known),
        });
        Ok(())
    }

    /// Gives the node its own disk back, if an empty one is in its place.
    pub fn mount(&mut self) {
        if let Some(OwnDisk { copies, known }) = self.unmounted.take() {
            self.copies = copies;
            self.known = known;
        }
    }

    /// Makes the oldest copy of the node's disk empty, as if the disk was lost.
    pub fn lose_disk(&mut self) {
        self.copies.empty_oldest(self.alloc, self.nodes);
    }

    /// Returns the place of the newest copy of the node's disk.
    pub fn newest(&self) -> usize {
        self.copies.newest()
    }

    /// Returns how many calls of the node are under way.
    pub fn calls(&self) -> usize {
        match &self.life {
            Some(life) => life.calls(),
            None => 0,
        }
    }

    /// Returns the time by the node's own clock, in milliseconds since 1970.
    pub fn unix(&self, now: u64) -> u64 {
        now.saturating_add(self.skew)
            .saturating_add(1_700_000_000_000)
    }

    /// Returns how long the node keeps a root that shows this.
    pub fn time_of(&self, status: LraStatus) -> Option<u64> {
        match status {
            LraStatus::Closed | LraStatus::Cancelled => self.keep.ended,
            LraStatus::FailedToClose | LraStatus::FailedToCancel => self.keep.failed,
            _ => None,
        }
    }

    /// Makes a call of one of the node's threads. Returns no reply if the journal is closed.
    pub fn make(&mut self, caller: usize, call: Call, now: u64) -> Result<Option<Reply>, Refusal> {
        let unix = self.unix(now);
        match self.life.as_mut() {
            Some(life) => life.make(caller, call, unix),
            None => Ok(None),
        }
    }

    /// Returns the member number that a call would have been given: for a join the facts determine
    /// it.
    fn given_to(&self, asked: &CallSummary) -> u8 {
        let Some(Command::Join { id, .. }) = &asked.command else {
            return 0;
        };
        u8::try_from(self.known.model().members(*id).saturating_add(1)).unwrap_or(u8::MAX)
    }

    /// Returns what a call that was cut off would have stored.
    pub fn doubt_of(&self, asked: CallSummary, now: u64) -> Doubt {
        if let Some(front) = asked.taken {
            return Doubt::Frame(front);
        }
        let given = self.given_to(&asked);
        let overdue = self.known.model().first_overdue(self.me, self.unix(now));
        match (asked.command, overdue) {
            (Some(command), _) => Doubt::Fact(body_of(command, given)),
            (None, Some(id)) => Doubt::Fact(cancel(id)),
            (None, None) => Doubt::Nothing,
        }
    }

    /// Moves the node on to a front, all of whose facts it had or are in the history.
    pub fn grow(&mut self, history: &History, front: Front, now: u64) -> Result<(), Halt> {
        self.known.grow(history, front, now)
    }

    /// Adds the next fact of the node's own, which is in the history.
    pub fn grow_by_one(&mut self, history: &History, now: u64) -> Result<(), Halt> {
        let front = raised(self.front(), self.me, self.known.own().saturating_add(1));
        self.known.grow(history, front, now)
    }

    /// Puts the duties of a reply, after checking that they are those that the facts demand.
    pub fn put_duties(&mut self, duties: Duties, now: u64) -> Result<(), Halt> {
        let (listed, own) = (self.see_duties(&duties)?, self.known.own());
        if let Some(life) = self.life.as_mut() {
            life.put_duties(duties, listed, own, now);
        }
        Ok(())
    }
}

/// Starting and stopping, and opening and closing the journal.
impl<R: Runs> SimNode<R> {
    /// Opens the journal over a copy of the node's disk, some of whose calls may fail.
    pub fn open(
        &self,
        copy: usize,
        fate: DiskFaults,
        luck: &mut Luck,
    ) -> Result<JournalOpening<R>, Halt> {
        match self.copies.get(copy) {
            Ok(image) => R::open(self.alloc, image, fate, luck, self.me, self.nodes),
            Err(halt) => Err(halt),
        }
    }

    /// Checks that a book that was opened over a copy has the facts of that copy, and settles what
    /// was in doubt.
    pub fn settle(&mut self, history: &mut History, copy: usize, has: Front) -> Result<(), Halt> {
        self.copies.settle(history, copy, has)
    }

    /// Keeps what is left of a copy of the node's disk after one of its calls failed before the
    /// journal was open.
    pub fn leave(&mut self, copy: usize, files: &Remains, loses_power: bool) -> Result<(), Halt> {
        self.copies.leave(copy, files, loses_power)
    }

    /// Begins the node's life.
    pub fn begin(&mut self, run: R, now: u64) {
        let (me, keep, nodes, wants) = (self.me, self.keep, self.nodes, self.wants);
        let is_anew = self.is_recovering || wants.is_anew;
        self.life = Some(Life::new(self.alloc, me, keep, nodes, run, now, is_anew, wants));
    }

    /// Leaves the node with exactly the facts of an older copy, and drops the copies beyond that
    /// one.
    pub fn fall_back(
        &mut self,
        history: &History,
        copy: usize,
        front: Front,
        now: u64,
    ) -> Result<(), Halt> {
        self.known.fall_back(history, front, now)?;
        self.copies.drop_beyond(copy);
        self.is_recovering = true;
        Ok(())
    }

    /// Goes on over the journal, which is open again. Nothing is stored until the given moment.
    pub fn reopen(&mut self, run: R, now: u64, until: u64) {
        if let Some(life) = self.life.as_mut() {
            life.reopen(run, now, until);
        }
    }

    fn take_run(&mut self, now: u64) -> Option<R> {
        match self.life.as_mut() {
            Some(life) => life.take_run(now),
            None => None,
        }
    }

    /// Keeps the contents of the node's files as the newest copy.
    pub fn keep_files(
        &mut self,
        files: &Remains,
        loses_power: bool,
        doubt: Doubt,
    ) -> Result<(), Halt> {
        let front = self.front();
        self.copies.keep(files, loses_power, front, doubt)
    }

    /// Closes the node's journal, if it is open.
    pub fn shut(&mut self, loses_power: bool, doubt: Doubt, now: u64) -> Result<(), Halt> {
        let Some(run) = self.take_run(now) else {
            return Ok(());
        };
        match run.close() {
            Ok(files) => self.keep_files(&files, loses_power, doubt),
            Err(halt) => Err(halt),
        }
    }

    /// Ends the node's run, if one is on, and opens the next, over the same files.
    pub fn open_next(&mut self, now: u64) -> Result<Option<JournalOpening<R>>, Halt> {
        let Some(run) = self.take_run(now) else {
            return Ok(None);
        };
        match run.next(self.alloc, self.me, self.nodes) {
            Ok(opening) => Ok(Some(opening)),
            Err(halt) => Err(halt),
        }
    }

    /// Goes on with the next run, after checking that its book has what the last one had.
    pub fn go_on_with(&mut self, run: R, now: u64) -> Result<(), Halt> {
        let (had, has) = (self.front(), run.front());
        if let Some(life) = self.life.as_mut() {
            life.put_run(run, now);
        }
        self.see_next_run(had, has)
    }
}
