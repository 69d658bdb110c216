// Which calls are made at the desk, and what each of them leaves.
ghost use Rattle.std.specs.Prelude.{◌≡◌, IfSome, false, true};
ghost use Rattle.node_agenda.specs.Noted.{Notes};
ghost use Rattle.node_core.specs.Calls.{Admits, IsSettled, after_reply, after_step, answer_of, begun_by, given_up, holds_command, is_admitted, is_closed, is_stored_by, step_of, ticket_of, with_answer};
ghost use Rattle.node_core.specs.Nodes.{as_looked, shown, takes_commands};
ghost use Rattle.node_core.specs.declared.calls.Caller.TheVariants.{Worker};

use crate::calls::{Admission, AskedCall, CallResult, CallStep, Caller, ReplyKind};
use crate::node_state::NodeState;
use node_agenda::OPENING_MS;
use std::time::Duration;

/// Whether a fact of the node was stored.
fn is_stored_by(kind: &ReplyKind) -> bool
    ensures { result ≡ is_stored_by kind.now }
{
    match kind {
        ReplyKind::Stored => true,
        ReplyKind::Gave(_) | ReplyKind::Other => false,
    }
}

impl NodeState {
    /// Whether commands are accepted now.
    pub fn takes_commands(&self, now: Duration) -> bool
        ensures { result ≡ takes_commands now self.now }
    {
        !self.is_ending
            && ((self.mail.is_open() && !self.mail.is_spared(now)) && !self.followers.refuses())
    }

    /// Whether operators ask nothing of the writer thread: it has no journal, is to answer nothing,
    /// or a call would wait behind one that has waited too long.
    pub fn is_closed(&self, now: Duration) -> bool
        ensures { result ≡ is_closed now self.now }
    {
        self.is_shut || self.answers_nothing() || self.desk.stalls(now)
    }

    /// Whether a command that has waited since a moment waits on, because a start still has to hear
    /// from the others: for at most a second.
    pub fn holds_command(&self, since: Option<Duration>, now: Duration) -> bool
        ensures { result ≡ holds_command since now self.now }
    {
        let is_opening = !self.mail.is_open() && !self.mail.is_late() && !self.mail.has_ended();
        let waited = now.saturating_sub(since.unwrap_or(now));
        self.is_apart
            && is_opening
            && waited.as_nanos() < Duration::from_millis(OPENING_MS).as_nanos()
    }

    /// Whether a call is made. The writer thread's are: its tasks are given out only if they may be
    /// done. Of a worker's, only pulls are while the disk may be lost, and none that may store a fact
    /// of the node's own while no commands are accepted.
    fn is_admitted(&self, caller: Caller, asked: AskedCall, now: Duration) -> bool
        ensures { result ≡ is_admitted caller asked now self.now }
    {
        match caller {
            Caller::Writer => true,
            Caller::Worker => {
                (asked.pulls || !self.answers_nothing())
                    && (!asked.enters || self.takes_commands(now))
            }
        }
    }

    /// Records that a call begins, if others pull from this process. A frame that the writer thread
    /// asks for, to count facts, goes to nobody.
    fn begin_step(&mut self, caller: Caller, asked: AskedCall) -> CallStep
        ensures step { result ≡ step_of caller asked self.old }
        ensures begun { self.new ≡ begun_by (step_of caller asked self.old) self.old }
    {
        if !self.is_apart {
            return CallStep::Other;
        }
        if asked.enters {
            self.followers.begin();
            return CallStep::Enters;
        }
        match caller {
            Caller::Worker if asked.pulls => CallStep::Asks(self.followers.ask()),
            _ => CallStep::Other,
        }
    }

    /// Admits a call by the thread with the pass at a place, which begins now; or refuses it, and
    /// changes nothing. A worker's call that may store a fact of the node's own is admitted only
    /// while commands are accepted.
    pub fn admit(
        &mut self,
        caller: Caller,
        asked: AskedCall,
        place: usize,
        now: Duration,
    ) -> Option<Admission>
        ensures admits { Admits caller asked place now self.old self.new result }
        ensures open { IfSome result (λ a. caller ≡ Worker → asked.enters ≡ true → takes_commands now self.old ≡ true) }
    {
        if !self.is_admitted(caller, asked, now) {
            return None;
        }
        let step = self.begin_step(caller, asked);
        self.desk.begin(place, now);
        Some(Admission {
            caller,
            place,
            step,
        })
    }

    /// Records that a call is over with such a reply. Returns the ticket of the fact that it stored,
    /// or 0.
    fn end_step(&mut self, step: CallStep, kind: &ReplyKind, now: Duration) -> u64
        ensures ended { self.new ≡ after_step step kind.now now self.old }
        ensures ticket { result ≡ ticket_of step kind.now self.old }
    {
        match (step, kind) {
            (CallStep::Enters, _) => self.followers.end(is_stored_by(kind)),
            (CallStep::Asks(ticket), ReplyKind::Gave(front)) => {
                self.followers.give(ticket, front.count(self.me), now);
                0
            }
            _ => 0,
        }
    }

    /// Returns the ticket for which an answer waits that may show what is stored now; 0 if it waits
    /// for nothing. If it waits, the other nodes are told that there is something new.
    pub fn target(&mut self) -> u64
        ensures ticket { result ≡ shown self.old }
        ensures looked { self.new ≡ with_answer (shown self.old) (as_looked self.old) }
    {
        let ticket = self.followers.target();
        self.has_news = self.has_news || ticket > 0;
        ticket
    }

    /// Returns the ticket for which a worker's answer waits: that of the fact that its call stored,
    /// or of everything that the answer may show. A frame is no answer.
    fn answer(&mut self, caller: Caller, step: CallStep, ticket: u64) -> Option<u64>
        ensures { answer_of caller step ticket self.old self.new result }
    {
        match (caller, step) {
            (Caller::Writer, _) => None,
            (Caller::Worker, CallStep::Asks(_)) => None,
            (Caller::Worker, _) => {
                if ticket > 0 {
                    Some(ticket)
                } else {
                    Some(self.target())
                }
            }
        }
    }

    /// Records what a reply says of the node's own facts.
    fn hear_reply(&mut self, kind: &ReplyKind)
        ensures { self.new ≡ after_reply kind.now self.old }
    {
        match kind {
            ReplyKind::Stored => {
                self.has_entered = true;
                self.has_news = true;
            }
            ReplyKind::Gave(front) => {
                self.mail.learn(front);
                self.mail.note_counted();
            }
            ReplyKind::Other => {}
        }
    }

    /// Records that an admitted call is over, and had this result. Returns the ticket for which the
    /// answer of a worker waits, 0 if it waits for nothing, or `None` if there is no answer: it was
    /// the writer thread's call, or gave a frame.
    pub fn settle(&mut self, admission: Admission, came: &CallResult, now: Duration) -> Option<u64>
        ensures { IsSettled admission came.now now self.old self.new result }
    {
        let Admission {
            caller,
            place,
            step,
        } = admission;
        self.desk.end(place);
        let ticket = self.end_step(step, &came.kind, now);
        let answer = self.answer(caller, step, ticket);
        self.tally.count(came.weight, came.is_move, came.is_stored);
        self.hear_reply(&came.kind);
        self.mail.note(&came.effects, now);
        answer
    }

    /// Records that an admitted call is over, and was refused. If the journal failed, something may
    /// be stored.
    pub fn give_up(&mut self, admission: Admission, has_failed: bool)
        ensures { self.new ≡ given_up admission has_failed self.old }
    {
        let Admission {
            caller: _,
            place,
            step,
        } = admission;
        self.desk.end(place);
        if step == CallStep::Enters {
            let _ticket = self.followers.end(has_failed);
        }
        if has_failed {
            self.tally.note_failure();
        }
    }
}
