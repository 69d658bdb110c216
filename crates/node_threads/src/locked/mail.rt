// What the threads of a node hand to one another.

use crate::locked::{Core, Held};
use crate::plaints::{Plaint, drop_sought, forget_found, note_sought, plaints_of};
use crate::wants::Waited;
use node_agenda::{Fill, OperatorWant, Purged};
use node_inbox::{Letter, Telling, Unheard};
use node_schedule::{Called, Plight};
use node_sockets::now;
use state_ids::{Front, LraId, LraStatus, NodeId};
use std::alloc::{AllocError, Global};
use std::sync::Wait;
use std::time::{Clock, Duration};

impl Held {
    /// Records the result of a call that took this long. Returns what is to be logged of failing
    /// calls.
    fn hear(
        &mut self,
        time: Duration,
        came: Result<Letter, Unheard>,
        now: Duration,
    ) -> Option<Plight> {
        match &came {
            Ok(letter) => drop_sought(&mut self.sought, &Called::of(letter.duty())),
            Err(unheard) => {
                let calls = self.state.mail.calls();
                note_sought(&mut self.sought, calls, self.alloc, unheard.due.duty());
            }
        }
        self.state.mail.hear(time, came, now)
    }

    /// Returns the participants whose calls fail, those that have failed for longest first.
    fn plaints(&mut self, alloc: Global, now: Duration) -> Result<Vec<Plaint>, AllocError> {
        forget_found(&mut self.sought, self.state.mail.calls());
        plaints_of(&self.sought, self.state.mail.calls(), alloc, now)
    }
}

/// What is handed to the writer thread.
impl Core {
    /// Records that other participants may be due, after a completion or something else.
    pub fn stir<R: Wait>(&self, rt: &R, is_completion: bool) {
        self.held.lock(rt).state.mail.stir(is_completion);
    }

    /// Makes nothing be stored for this long: the journal failed, and questions are to be answered
    /// meanwhile.
    pub fn spare_journal<R: Wait + Clock>(&self, rt: &R, time: Duration) {
        let until = now(rt).saturating_add(time);
        self.held.lock(rt).state.mail.hold_until(until);
    }

    /// Makes the writer thread check whether the run is over, even if it is only about to wait.
    pub(crate) fn wake<R: Wait>(&self, rt: &R) {
        self.held.lock(rt).state.mail.hurry();
        self.came.notify_all();
    }

    /// Ends the caller and puller threads.
    pub(crate) fn end<R: Wait>(&self, rt: &R) {
        self.held.lock(rt).state.mail.end();
        self.came.notify_all();
        self.due.notify_all();
        self.changed.notify_all();
    }

    /// Records that the number of the node's facts is to be asked for.
    pub fn want_count<R: Wait>(&self, rt: &R) {
        self.held.lock(rt).state.mail.want_count();
        self.came.notify_all();
    }

    /// Makes the telling that is being taken wait again, because the journal couldn't take it. It is
    /// tried again after a pause: the other node may have lost it meanwhile, and is owed it.
    pub fn keep_telling<R: Wait + Clock>(&self, rt: &R, telling: Telling) {
        let moment = now(rt);
        // (The one that doesn't wait may be long. It is dropped only after the lock is released.)
        let _other = self.held.lock(rt).state.mail.keep_telling(telling, moment);
        self.changed.notify_all();
    }

    /// Puts a telling of another node of the same process to be taken. Returns whether anything in it
    /// is new.
    pub(crate) fn put_telling<R: Wait>(&self, rt: &R, telling: Telling) -> bool {
        // (The one that isn't kept may be long. It is dropped only after the lock is released.)
        let put = self.held.lock(rt).state.mail.put_telling(telling);
        if put.is_ok() {
            self.came.notify_all();
        }
        put.is_ok()
    }

    /// Asks for a call to be made for operators: a question, or a command.
    pub fn want<R: Wait>(&self, rt: &R, wanted: OperatorWant) {
        self.held.lock(rt).state.mail.want(wanted);
        self.came.notify_all();
    }

    /// Withdraws that call. Returns whether it was still wanted: otherwise it was made, or is being
    /// made.
    pub fn take_back<R: Wait>(&self, rt: &R) -> bool {
        self.held.lock(rt).state.mail.take_back()
    }

    /// Shows the sweep an LRA on a page: what it shows, and what its tree shows.
    pub fn see<R: Wait + Clock>(&self, rt: &R, id: LraId, shown: LraStatus, tree: LraStatus) {
        let moment = now(rt);
        self.held.lock(rt).state.mail.see(moment, id, shown, tree);
    }

    /// Tells the sweep that the page is over, and whether more pages follow.
    pub fn turn<R: Wait>(&self, rt: &R, more: bool) {
        self.held.lock(rt).state.mail.turn(more);
    }

    /// Tells the sweep the result of a purge.
    pub fn purged<R: Wait + Clock>(&self, rt: &R, id: LraId, purged: Purged) {
        let moment = now(rt);
        self.held.lock(rt).state.mail.purged(moment, id, purged);
    }

    /// Records that a list of duties is asked for now: participants that are heard from after this
    /// aren't called by it.
    pub fn begin_list<R: Wait + Clock>(&self, rt: &R) {
        let moment = now(rt);
        self.held.lock(rt).state.mail.begin_list(moment);
    }

    /// Makes deadlines be checked once more at once.
    pub fn tick<R: Wait>(&self, rt: &R) {
        self.held.lock(rt).state.mail.tick();
    }

    /// Puts back a letter that couldn't be stored now.
    pub fn put_back<R: Wait>(&self, rt: &R, letter: Letter) {
        self.held.lock(rt).state.mail.put_letter(letter);
    }

    /// Records that an answer is stored. A participant that is busy is called again after a pause.
    pub fn note_entered<R: Wait + Clock>(&self, rt: &R, letter: &Letter) {
        let moment = now(rt);
        self.held.lock(rt).state.mail.note_entered(letter, moment);
    }

    /// Records the result of a call that began at this moment: what was learned, or why the
    /// participant is called again. From then on its host may be called once more, by another
    /// thread too. Returns what is to be logged of failing calls.
    pub(crate) fn end_call<R: Wait + Clock>(
        &self,
        rt: &R,
        began: Duration,
        came: Result<Letter, Unheard>,
    ) -> Option<Plight> {
        let moment = now(rt);
        let mut held = self.held.lock(rt);
        let plight = held.hear(moment.saturating_sub(began), came, moment);
        self.came.notify_all();
        if held.state.mail.may_call() {
            self.due.notify_one();
        }
        plight
    }

    /// Records the number of the refusal by which what another node sent was refused.
    pub fn note_refused<R: Wait>(&self, rt: &R, other: NodeId, number: u8) {
        self.held.lock(rt).state.peers.note_refused(other, number);
    }

    /// Takes the number of that refusal, if there was one since this was last asked.
    pub(crate) fn take_refused<R: Wait>(&self, rt: &R, other: NodeId) -> Option<u8> {
        self.held.lock(rt).state.peers.take_refused(other)
    }

    /// Records whether the last pull from another node failed.
    pub(crate) fn note_silent<R: Wait>(&self, rt: &R, other: NodeId, is_silent: bool) {
        self.held.lock(rt).state.peers.note_silent(other, is_silent);
    }
}

/// What is known, and what is shown to operators.
impl Core {
    /// Returns how many facts of each node this one has at least.
    pub fn front<R: Wait>(&self, rt: &R) -> Front {
        self.held.lock(rt).state.mail.front()
    }

    /// Returns the front with which another node is asked, and how often that node began anew, as far
    /// as it has asked since.
    pub(crate) fn asking<R: Wait>(&self, rt: &R, other: NodeId) -> (Front, u64) {
        let held = self.held.lock(rt);
        (held.state.mail.front(), held.state.asks.times_anew(other))
    }

    /// Whether another node was seen to send pulls that wait: a node that does also holds pulls.
    pub(crate) fn asks_waiting<R: Wait>(&self, rt: &R, other: NodeId) -> bool {
        self.held.lock(rt).state.peers.asks_waiting(other)
    }

    /// Whether a telling of another node waits because the journal couldn't take it.
    pub(crate) fn keeps<R: Wait>(&self, rt: &R, other: NodeId) -> bool {
        self.held.lock(rt).state.mail.keeps(other)
    }

    /// Returns how many facts of this node another claims to have, while a start waits for them, and
    /// `None` otherwise.
    pub(crate) fn claim_of<R: Wait>(&self, rt: &R, other: NodeId) -> Option<u64> {
        let held = self.held.lock(rt);
        let claim = held.state.mail.claim_of(other);
        if held.state.mail.is_open() || claim == 0 {
            return None;
        }
        Some(claim)
    }

    /// Returns how many participants wait for a call, are being called, or pause before the next.
    pub fn due<R: Wait>(&self, rt: &R) -> u64 {
        self.held.lock(rt).state.mail.calls().len() as u64
    }

    /// Returns how many participants have failing calls, and for how long the worst of them has.
    pub fn in_vain<R: Wait>(&self, rt: &R, moment: Duration) -> (u64, Duration) {
        self.held.lock(rt).state.mail.calls().in_vain(moment)
    }

    /// Returns the participants whose calls fail, those that have failed for longest first.
    pub fn plaints<R: Wait>(
        &self,
        rt: &R,
        alloc: Global,
        moment: Duration,
    ) -> Result<Vec<Plaint>, AllocError> {
        self.held.lock(rt).plaints(alloc, moment)
    }

    /// Returns how many LRAs of the home showed each status at the last look, in the order of their
    /// ranks.
    pub fn held<R: Wait>(&self, rt: &R) -> [u64; 7] {
        self.held.lock(rt).state.mail.held()
    }

    /// Returns how full the home is.
    pub fn fill<R: Wait>(&self, rt: &R) -> Fill {
        self.held.lock(rt).state.mail.fill()
    }

    /// Returns how many facts of this node another reported to have stored.
    pub fn acknowledged<R: Wait>(&self, rt: &R, other: NodeId) -> u64 {
        self.held.lock(rt).state.followers.told(other)
    }

    /// Returns how the answers and lists that waited went on.
    pub fn waited<R: Wait>(&self, rt: &R) -> Waited {
        let held = self.held.lock(rt);
        Waited {
            copied: held.state.followers.copied(),
            late: held.state.followers.late(),
        }
    }

    /// Returns how many were late since this was last asked.
    pub(crate) fn take_late<R: Wait>(&self, rt: &R) -> u64 {
        self.held.lock(rt).state.followers.take_untold()
    }

    /// Whether other nodes fell behind for longer than an answer waits.
    pub fn is_short<R: Wait>(&self, rt: &R) -> bool {
        self.held.lock(rt).state.followers.is_short()
    }

    /// Whether another node asked as if it had facts of this node that it never gave. Anybody who
    /// can connect may claim this.
    pub(crate) fn has_strange<R: Wait>(&self, rt: &R) -> bool {
        self.held.lock(rt).state.followers.has_strange()
    }

    /// Whether another node was found to have facts of this node that it never gave.
    pub fn is_doubted<R: Wait>(&self, rt: &R) -> bool {
        self.held.lock(rt).state.followers.is_doubted()
    }
}
