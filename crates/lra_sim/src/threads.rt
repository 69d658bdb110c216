// The threads of a node, each of which does a step: the writer thread, and the caller threads.
// `do_task` and what it calls do the same as `apply_loop.rt` and `sweeping.rt` of
// node_server/src/run.

use crate::play::{Play, nowhere};
use crate::texts;
use node_agenda::{Chore, Ripe, Task};
use node_inbox::{Letter, Telling, Unheard, call_for};
use node_schedule::{CallFailure, StartedCall};
use sim_env::{DueCall, Halt, Manner};
use sim_node::{due_call, host_of, pull_of_all};
use sim_runs::Runs;
use state_book::{Call, Reply};
use state_ids::{Front, LraId, NodeId};
use std::alloc::Global;
use wire_callbacks::{Duties, NetCaller};
use wire_http::{OverRead, OverWrite};

/// The most calls to a host at a time.
const SHARE: usize = 2;

/// How long a host may take, in milliseconds.
const PATIENCE_MS: u64 = 10_000;

/// The pass of the writer thread.
const ENTERS: usize = 0;

fn is_took(reply: &Option<Reply>) -> bool {
    matches!(reply, Some(Reply::Took))
}

fn untaken(alloc: Global, me: NodeId, from: NodeId) -> Result<Halt, Halt> {
    Ok(Halt::Found(format!(in alloc; "node {me} can't take what node {from} sent")?))
}

fn not_listed(alloc: Global, who: &DueCall) -> Result<Halt, Halt> {
    let (kind, id, member) = (who.kind, who.id, who.member);
    Ok(Halt::Found(format!(in alloc;
        "{id} member {member} is called ({kind:?}), and the newest list has no such call"
    )?))
}

fn too_many(alloc: Global) -> Result<Halt, Halt> {
    Ok(Halt::Found(format!(in alloc; "a host has three calls at a time")?))
}

/// Returns the result of a call to which these bytes are the response.
fn called(alloc: Global, due: StartedCall, bytes: &[u8]) -> Result<Letter, Unheard> {
    let mut caller = NetCaller::new(OverRead::new(bytes), OverWrite::new(Vec::new(alloc)));
    call_for(alloc, &mut caller, due)
}

/// Returns the result of a call to a host that answers in this manner.
fn heard_of(
    alloc: Global,
    manner: Manner,
    due: StartedCall,
) -> Result<Result<Letter, Unheard>, Halt> {
    if manner == Manner::Hangs {
        return Ok(Err(Unheard {
            due,
            came: CallFailure::NoConnection,
        }));
    }
    let bytes = manner.answer(alloc, due.duty().kind, due.duty().act)?;
    Ok(called(alloc, due, bytes.as_slice()))
}

impl<R: Runs> Play<R> {
    /// Lets the writer thread take its next task, or do the one that it took. Returns whether there
    /// was one.
    pub fn enter(&mut self, place: usize) -> Result<bool, Halt> {
        let waits = !self.is_quiet && self.luck.is_one_in(3);
        if let Some(taken) = self.take_task(place) {
            self.do_task(place, taken)?;
            return Ok(true);
        }
        let Some((next, is_open)) = self.next_task(place) else {
            return Ok(false);
        };
        self.see_release(place)?;
        let is_any = self.do_or_wait(place, next, waits)?;
        self.note_back(place, is_open)?;
        Ok(is_any)
    }

    fn take_task(&mut self, place: usize) -> Option<Task> {
        self.life(place)?.take_task()
    }

    /// Returns what the writer thread does next, if the journal is open, and whether it may store
    /// something of the node's own.
    fn next_task(&mut self, place: usize) -> Option<(Task, bool)> {
        let now = self.now;
        let life = self.life(place)?;
        if life.is_shut() {
            return None;
        }
        let next = life.next_task(now);
        Some((next, life.is_open()))
    }

    /// Does a task, or leaves it for the next step. Returns whether there was one.
    fn do_or_wait(&mut self, place: usize, task: Task, waits: bool) -> Result<bool, Halt> {
        let is_rest = matches!(&task, Task::Rest);
        if !waits {
            self.do_task(place, task)?;
        } else if let Some(life) = self.life(place) {
            life.put_task(task);
        }
        Ok(!is_rest)
    }

    /// Notes that an open node has back what it had lost.
    fn note_back(&mut self, place: usize, is_open: bool) -> Result<(), Halt> {
        let Some(node) = self.nodes.get_mut(place) else {
            return Ok(());
        };
        if !is_open || !node.is_recovering {
            return Ok(());
        }
        node.is_recovering = false;
        self.see_back(place)
    }

    fn do_task(&mut self, place: usize, task: Task) -> Result<(), Halt> {
        match task {
            Task::Enter(letter) => self.enter_letter(place, letter),
            Task::Take(telling) => self.take(place, telling),
            Task::Ask => self.ask(place),
            Task::Tick => self.expire(place),
            Task::Count => self.count_facts(place),
            Task::Sweep(chore) => self.sweep(place, chore),
            Task::Errand(_) => self.serve_errand(place),
            Task::Rest => Ok(()),
        }
    }

    /// Asks how many facts the node has, which it tells the others.
    fn count_facts(&mut self, place: usize) -> Result<(), Halt> {
        let call = pull_of_all(self.alloc, self.count())?;
        let reply = self.call(place, ENTERS, call)?;
        if reply.is_some() {
            return Ok(());
        }
        if let Some(life) = self.life(place) {
            life.want_count();
        }
        Ok(())
    }

    fn take_errand(&mut self, place: usize) -> Option<Call> {
        self.life(place)?.take_errand()
    }

    /// Makes the call that operators want.
    fn serve_errand(&mut self, place: usize) -> Result<(), Halt> {
        let Some(call) = self.take_errand(place) else {
            return Ok(());
        };
        let reply = self.call(place, ENTERS, call)?;
        self.note_event(texts::of_errand(self.alloc, &reply)?)
    }

    fn enter_letter(&mut self, place: usize, letter: Letter) -> Result<(), Halt> {
        let Some(command) = letter.command() else {
            return Ok(());
        };
        let (who, heard) = (due_call(letter.duty()), letter.heard().name());
        let reply = self.call(place, ENTERS, Call::Command(command))?;
        self.note_event(texts::of_entered(self.alloc, &who, heard, &reply)?)?;
        let (is_entered, now) = (reply.is_some(), self.now);
        if let Some(life) = self.life(place) {
            life.end_letter(letter, &who, is_entered, now);
        }
        Ok(())
    }

    fn take(&mut self, place: usize, telling: Telling) -> Result<(), Halt> {
        let (me, front, from) = (self.me(place)?, telling.front(), telling.from());
        self.note_event(texts::of_taking(self.alloc, me, from, &front)?)?;
        let (known, spare) = (self.known(place)?, telling.copy()?);
        let reply = self.call(place, ENTERS, Call::Take(telling.into_delta()))?;
        if reply.is_some() && !is_took(&reply) {
            return Err(untaken(self.alloc, me, from)?);
        }
        if reply.is_none() {
            return self.put_back(place, spare);
        }
        if let Some(life) = self.life(place) {
            life.end_telling(from, &front, &known, true);
        }
        Ok(())
    }

    /// Makes a telling wait again that the journal couldn't take; in few cases it is given up, as if
    /// memory had run out. Its node may stop then, and start over an older copy.
    fn put_back(&mut self, place: usize, telling: Telling) -> Result<(), Halt> {
        let (from, front, now) = (telling.from(), telling.front(), self.now);
        let (known, is_kept) = (self.known(place)?, !self.luck.is_one_in(4));
        if let Some(life) = self.life(place) {
            if is_kept {
                life.keep_telling(telling, now);
            } else {
                life.end_telling(from, &front, &known, false);
            }
        }
        if self.luck.is_one_in(2) {
            return Ok(());
        }
        self.strike(usize::from(from.number()).saturating_sub(1))
    }

    /// Asks for the duties, and checks that the model demands the same.
    fn ask(&mut self, place: usize) -> Result<(), Halt> {
        let now = self.now;
        if let Some(life) = self.life(place) {
            life.begin_list(now);
        }
        match self.call(place, ENTERS, Call::Duties)? {
            Some(Reply::Due(duties)) => self.put_duties(place, duties),
            _ => {
                self.stir(place);
                Ok(())
            }
        }
    }

    fn stir(&mut self, place: usize) {
        if let Some(life) = self.life(place) {
            life.stir();
        }
    }

    fn put_duties(&mut self, place: usize, duties: Duties) -> Result<(), Halt> {
        let Some(node) = self.nodes.get_mut(place) else {
            return Err(nowhere());
        };
        node.put_duties(duties, self.now)?;
        self.see_release(place)
    }

    /// Returns the facts that a node's mailbox knows of.
    fn known(&mut self, place: usize) -> Result<Front, Halt> {
        let front = self.front(place)?;
        match self.life(place) {
            Some(life) => Ok(life.known()),
            None => Ok(front),
        }
    }

    fn expire(&mut self, place: usize) -> Result<(), Halt> {
        let reply = self.call(place, ENTERS, Call::Expire)?;
        match &reply {
            Some(Reply::Expired(id)) => self.note_expired(place, *id),
            Some(_) => self.see_quiet(place),
            None => Ok(()),
        }
    }

    fn note_expired(&mut self, place: usize, id: LraId) -> Result<(), Halt> {
        if let Some(life) = self.life(place) {
            life.tick();
        }
        self.note_event(texts::of_expiry(self.alloc, id)?)
    }

    /// Checks that no LRA of a node is overdue.
    fn see_quiet(&self, place: usize) -> Result<(), Halt> {
        match self.nodes.get(place) {
            Some(node) => node.see_quiet(self.now),
            None => Err(nowhere()),
        }
    }

    fn sweep(&mut self, place: usize, chore: Chore) -> Result<(), Halt> {
        match chore {
            Chore::List(beyond) => self.list(place, beyond),
            Chore::Purge(ripe) => self.purge(place, ripe),
        }
    }

    fn list(&mut self, place: usize, beyond: Option<LraId>) -> Result<(), Halt> {
        let reply = self.call(place, ENTERS, Call::Survey(beyond))?;
        let now = self.now;
        if let (Some(Reply::Surveyed(survey)), Some(life)) = (&reply, self.life(place)) {
            life.see_survey(survey, now);
        }
        Ok(())
    }

    fn purge(&mut self, place: usize, ripe: Ripe) -> Result<(), Halt> {
        let (root, seen) = (ripe.root(), ripe.seen());
        let reply = self.call(place, ENTERS, Call::Sweep { root, seen })?;
        self.note_event(texts::of_sweep(self.alloc, root, seen, &reply)?)?;
        let now = self.now;
        if let (Some(reply), Some(life)) = (&reply, self.life(place)) {
            life.end_sweep(root, reply, now);
        }
        Ok(())
    }

    /// Lets a thread begin to call a participant, if one is to be called.
    pub fn begin_call(&mut self, place: usize) -> Result<bool, Halt> {
        let now = self.now;
        let Some(life) = self.life(place) else {
            return Ok(false);
        };
        let Some(due) = life.take_due() else {
            return Ok(false);
        };
        let (who, host) = (due_call(due.duty()), host_of(due.duty()));
        let (is_listed, is_full) = (life.is_listed(&who), life.calls_to(host) >= SHARE);
        life.begin_call(due, now)?;
        self.see_call(&who, is_listed, is_full)?;
        Ok(true)
    }

    /// Checks that a call that begins is on the newest list, and that its host has room for it.
    fn see_call(&mut self, who: &DueCall, is_listed: bool, is_full: bool) -> Result<(), Halt> {
        self.note_event(texts::of_call(self.alloc, who)?)?;
        if is_full {
            return Err(too_many(self.alloc)?);
        }
        if !is_listed {
            return Err(not_listed(self.alloc, who)?);
        }
        Ok(())
    }

    /// Returns how many calls of a node are under way.
    fn calls_of(&self, place: usize) -> usize {
        match self.nodes.get(place) {
            Some(node) => node.calls(),
            None => 0,
        }
    }

    /// Returns the host of a node's call, and how long ago the call began.
    fn seen_of(&mut self, place: usize, chosen: usize) -> Option<(usize, u64)> {
        let now = self.now;
        let (host, began) = self.life(place)?.call_at(chosen)?;
        Some((host, now.saturating_sub(began)))
    }

    fn land(&mut self, place: usize, chosen: usize) -> Option<StartedCall> {
        self.life(place)?.end_call(chosen)
    }

    /// Ends a call of a node, if one can end.
    pub fn end_call(&mut self, place: usize) -> Result<bool, Halt> {
        let count = self.calls_of(place);
        if count == 0 {
            return Ok(false);
        }
        let chosen = self.luck.place(count);
        let Some((host, time)) = self.seen_of(place, chosen) else {
            return Ok(false);
        };
        let manner = self.manner_of(host);
        if manner == Manner::Hangs && time < PATIENCE_MS {
            return Ok(false);
        }
        let Some(due) = self.land(place, chosen) else {
            return Ok(false);
        };
        self.hear(place, manner, due, time)?;
        Ok(true)
    }

    /// Returns how a host answers.
    fn manner_of(&self, host: usize) -> Manner {
        self.hosts.get(host).copied().unwrap_or(Manner::Well)
    }

    fn hear(
        &mut self,
        place: usize,
        manner: Manner,
        due: StartedCall,
        time: u64,
    ) -> Result<(), Halt> {
        let (who, now) = (due_call(due.duty()), self.now);
        let came = heard_of(self.alloc, manner, due)?;
        if let Some(life) = self.life(place) {
            life.hear(time, came, now);
        }
        self.note_event(texts::of_answer(self.alloc, &who, manner)?)
    }
}
