// Starting and stopping nodes, and opening and closing their journals.

use crate::play::{Play, nowhere};
use crate::texts;
use sim_env::{DiskFaults, Doubt, Halt, Remains};
use sim_runs::{JournalOpening, Runs};
use state_ids::{Front, NodeId};

/// How long nothing is stored after a journal was opened again, in milliseconds.
const PAUSE_MS: u64 = 100;

impl<R: Runs> Play<R> {
    /// Picks when the calls of the disk that is opened now fail.
    fn fate(&mut self) -> DiskFaults {
        if self.is_quiet {
            DiskFaults::good()
        } else {
            DiskFaults::by(&mut self.luck)
        }
    }

    fn open_journal(&mut self, place: usize, copy: usize) -> Result<JournalOpening<R>, Halt> {
        let fate = self.fate();
        match self.nodes.get(place) {
            Some(node) => node.open(copy, fate, &mut self.luck),
            None => Err(nowhere()),
        }
    }

    /// Opens the journal of a node over a copy of its disk.
    fn open(&mut self, place: usize, copy: usize) -> Result<Option<R>, Halt> {
        match self.open_journal(place, copy)? {
            JournalOpening::Begun(run) => {
                self.settle(place, copy, run.front())?;
                Ok(Some(run))
            }
            JournalOpening::Failed(files) => {
                self.leave(place, copy, &files)?;
                Ok(None)
            }
        }
    }

    /// Checks that a book that was opened has the facts of its copy.
    fn settle(&mut self, place: usize, copy: usize, has: Front) -> Result<(), Halt> {
        match self.nodes.get_mut(place) {
            Some(node) => node.settle(&mut self.history, copy, has),
            None => Err(nowhere()),
        }
    }

    /// Handles a call of a node's disk that failed before its journal was open.
    fn leave(&mut self, place: usize, copy: usize, files: &Remains) -> Result<(), Halt> {
        let loses_power = self.luck.is_one_in(2);
        if let Some(node) = self.nodes.get_mut(place) {
            node.leave(copy, files, loses_power)?;
        }
        self.note_event(texts::of_text(self.alloc, "its disk fails before it is open")?)
    }

    /// Returns the place of the newest copy of a node's disk.
    pub fn newest(&self, place: usize) -> usize {
        match self.nodes.get(place) {
            Some(node) => node.newest(),
            None => 0,
        }
    }

    /// Starts a node over a copy of its disk.
    pub fn start(&mut self, place: usize, copy: usize) -> Result<(), Halt> {
        let (is_older, me) = (copy < self.newest(place), self.me(place)?);
        self.note_event(texts::of_start(self.alloc, me, is_older)?)?;
        let Some(run) = self.open(place, copy)? else {
            return Ok(());
        };
        if is_older {
            self.fall_back(place, copy, me, run.front())?;
        } else {
            self.grow(place, run.front())?;
        }
        self.begin(place, run)
    }

    /// Leaves a node with what an older copy has.
    fn fall_back(
        &mut self,
        place: usize,
        copy: usize,
        me: NodeId,
        front: Front,
    ) -> Result<(), Halt> {
        self.see_left(me, front.count(me))?;
        self.lose(place, me, front.count(me))?;
        let Some(node) = self.nodes.get_mut(place) else {
            return Err(nowhere());
        };
        node.fall_back(&self.history, copy, front, self.now)?;
        self.note_left_besides(me)
    }

    fn begin(&mut self, place: usize, run: R) -> Result<(), Halt> {
        let Some(node) = self.nodes.get_mut(place) else {
            return Err(nowhere());
        };
        node.begin(run, self.now);
        Ok(())
    }

    /// Returns how many facts of a node the others have received.
    fn known_of(&self, me: NodeId) -> u64 {
        let mut most = 0;
        for node in self.nodes.iter() {
            if node.me != me {
                most = node.heard_of(me).max(most);
            }
        }
        most
    }

    /// Loses the facts of a node beyond the `count` that it has, except those that another node has
    /// received. What it sent and is still in transit is lost too.
    fn lose(&mut self, place: usize, me: NodeId, count: u64) -> Result<(), Halt> {
        self.pulls.retain(|pull| pull.asked.teller != place);
        let known = self.known_of(me);
        self.forget_had(me, count.max(known));
        self.history.forget(me, count.max(known))
    }

    /// Loses the facts that no node has or has received any more, for nodes that started over an
    /// older copy and don't accept commands yet.
    pub fn forget_lost(&mut self) -> Result<(), Halt> {
        for place in 0..self.nodes.len() {
            self.forget_lost_of(place)?;
        }
        Ok(())
    }

    fn forget_lost_of(&mut self, place: usize) -> Result<(), Halt> {
        let Some(node) = self.nodes.get(place) else {
            return Err(nowhere());
        };
        if !node.is_recovering {
            return Ok(());
        }
        let (me, own) = (node.me, node.known.own());
        let known = self.known_of(me);
        self.forget_had(me, own.max(known));
        self.history.forget(me, own.max(known))
    }

    /// Opens the closed journal of a node again. Nothing is stored for a while.
    pub fn reopen(&mut self, place: usize) -> Result<(), Halt> {
        let me = self.me(place)?;
        self.note_event(texts::of_reopening(self.alloc, me)?)?;
        let Some(run) = self.open(place, self.newest(place))? else {
            return Ok(());
        };
        self.grow(place, run.front())?;
        let now = self.now;
        if let Some(node) = self.nodes.get_mut(place) {
            node.reopen(run, now, now.saturating_add(PAUSE_MS));
        }
        Ok(())
    }

    /// Closes the journal of a node, in the middle of a call or between two.
    fn shut(&mut self, place: usize, loses_power: bool, doubt: Doubt) -> Result<(), Halt> {
        match self.nodes.get_mut(place) {
            Some(node) => node.shut(loses_power, doubt, self.now),
            None => Err(nowhere()),
        }
    }

    /// Stops a node, in the middle of a call or between two.
    pub fn stop(&mut self, place: usize, doubt: Doubt) -> Result<(), Halt> {
        let (me, loses_power) = (self.me(place)?, self.luck.is_one_in(2));
        self.note_event(texts::of_stop(self.alloc, me, loses_power)?)?;
        self.shut(place, loses_power, doubt)?;
        self.end_life(place);
        Ok(())
    }

    /// Ends the life of a node. The pulls that it made are lost, and those that it held.
    fn end_life(&mut self, place: usize) {
        self.pulls.retain(|pull| pull.asked.asker != place && !pull.is_held_by(place));
        self.drop_answers(place);
        if let Some(node) = self.nodes.get_mut(place) {
            node.life = None;
        }
    }

    /// Handles a failed call of the disk: the machine stops, or the node goes on and opens its
    /// journal again.
    pub fn fail(&mut self, place: usize, doubt: Doubt) -> Result<(), Halt> {
        if self.luck.is_one_in(2) {
            return self.stop(place, doubt);
        }
        let me = self.me(place)?;
        self.note_event(texts::of_failure(self.alloc, me)?)?;
        let loses_written = self.luck.is_one_in(2);
        self.shut(place, loses_written, doubt)
    }

    fn open_next(&mut self, place: usize) -> Result<Option<JournalOpening<R>>, Halt> {
        match self.nodes.get_mut(place) {
            Some(node) => node.open_next(self.now),
            None => Err(nowhere()),
        }
    }

    /// Ends a run of a node and begins the next, with the book over the same connection.
    pub fn next_run(&mut self, place: usize) -> Result<(), Halt> {
        match self.open_next(place)? {
            Some(JournalOpening::Begun(run)) => self.go_on_with(place, run),
            Some(JournalOpening::Failed(files)) => self.fail_between(place, &files),
            None => Ok(()),
        }
    }

    fn go_on_with(&mut self, place: usize, run: R) -> Result<(), Halt> {
        match self.nodes.get_mut(place) {
            Some(node) => node.go_on_with(run, self.now),
            None => Err(nowhere()),
        }
    }

    fn keep_files(&mut self, place: usize, files: &Remains, loses_power: bool) -> Result<(), Halt> {
        match self.nodes.get_mut(place) {
            Some(node) => node.keep_files(files, loses_power, Doubt::Nothing),
            None => Err(nowhere()),
        }
    }

    /// Handles a call of the disk that failed between two runs.
    fn fail_between(&mut self, place: usize, files: &Remains) -> Result<(), Halt> {
        let loses_power = self.luck.is_one_in(2);
        self.keep_files(place, files, loses_power)?;
        if self.luck.is_one_in(2) {
            self.end_life(place);
        }
        self.note_event(texts::of_text(self.alloc, "its disk fails between two runs")?)
    }
}
