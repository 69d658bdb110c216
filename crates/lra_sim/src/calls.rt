// The calls of a node's threads, and the effects of each.

use crate::play::{Play, nowhere};
use node_core::{Admission, CallResult};
use sim_env::{Doubt, Halt};
use sim_node::{CallSummary, named_in, stored, taken_by};
use sim_runs::Runs;
use state_book::{Call, Reply};
use state_facts::Refusal;
use state_ids::LraId;
use std::alloc::Global;

/// A call that was made, whose node's state doesn't know of its reply yet.
struct MadeCall {
    admission: Admission,
    reply: Reply,
    came: CallResult,
    /// How many facts of the node the reply may show.
    own: u64,
}

fn refused(alloc: Global, refusal: Refusal) -> Result<Halt, Halt> {
    Ok(Halt::Found(format!(in alloc; "a call is refused: {refusal}")?))
}

/// What a node's state hears of its calls.
impl<R: Runs> Play<R> {
    /// Admits a call of a thread of a node, unless the node isn't up or holds the call back.
    fn admit(&mut self, place: usize, caller: usize, asked: &CallSummary) -> Option<Admission> {
        let now = self.now;
        self.life(place)?.admit(caller, asked, now)
    }

    /// Records that an admitted call is over that was refused, or wasn't made; or whose node
    /// stopped.
    fn give_up(&mut self, place: usize, admission: Admission, has_failed: bool) {
        match self.life(place) {
            Some(life) => life.give_up(admission, has_failed),
            None => self.gone.give_up(admission, has_failed),
        }
    }

    /// Goes on with an admitted call, unless something was found meanwhile.
    fn go_on_admitted(
        &mut self,
        place: usize,
        admission: Admission,
        came: Result<(), Halt>,
    ) -> Result<Admission, Halt> {
        match came {
            Ok(()) => Ok(admission),
            Err(halt) => {
                self.give_up(place, admission, false);
                Err(halt)
            }
        }
    }

    /// Records that a call is over. The answer of a worker may wait from now on. Returns the reply.
    fn end_made(&mut self, place: usize, made: MadeCall) -> Result<Reply, Halt> {
        let MadeCall {
            admission,
            reply,
            came,
            own,
        } = made;
        let now = self.now;
        let ticket = match self.life(place) {
            Some(life) => life.settle(admission, &came, now),
            None => {
                self.gone.give_up(admission, true);
                None
            }
        };
        if let Some(ticket) = ticket {
            self.keep_answer(place, ticket, own)?;
        }
        Ok(reply)
    }
}

impl<R: Runs> Play<R> {
    fn make(&mut self, place: usize, caller: usize, call: Call) -> Result<Option<Reply>, Refusal> {
        match self.nodes.get_mut(place) {
            Some(node) => node.make(caller, call, self.now),
            None => Ok(None),
        }
    }

    /// Makes a call of a thread of a node. Returns no reply if the node isn't up, holds the call
    /// back, or stops. Another call may come between its beginning and the call itself, and another
    /// between the call and its end.
    pub fn call(&mut self, place: usize, caller: usize, call: Call) -> Result<Option<Reply>, Halt> {
        let Some((asked, admission)) = self.begin_asked(place, caller, &call)? else {
            return Ok(None);
        };
        let is_followed = asked.notes.asked.enters || (asked.notes.asked.pulls && caller > 0);
        let fallen = self.fall_into(place, caller > 0);
        let admission = self.go_on_admitted(place, admission, fallen)?;
        let Some(made) = self.make_begun(place, caller, call, asked, admission)? else {
            return Ok(None);
        };
        let made = if is_followed {
            self.fall_behind(place, caller, made)?
        } else {
            made
        };
        Ok(Some(self.end_made(place, made)?))
    }

    /// Lets another call come between a call that was made and its end, in some cases.
    fn fall_behind(
        &mut self,
        place: usize,
        caller: usize,
        made: MadeCall,
    ) -> Result<MadeCall, Halt> {
        let MadeCall {
            admission,
            reply,
            came,
            own,
        } = made;
        let fallen = self.fall_into(place, caller > 0);
        Ok(MadeCall {
            admission: self.go_on_admitted(place, admission, fallen)?,
            reply,
            came,
            own,
        })
    }

    /// Makes a call that comes in the middle of another one of the same node.
    pub fn call_between(
        &mut self,
        place: usize,
        caller: usize,
        call: Call,
    ) -> Result<Option<Reply>, Halt> {
        let Some((asked, admission)) = self.begin_asked(place, caller, &call)? else {
            return Ok(None);
        };
        match self.make_begun(place, caller, call, asked, admission)? {
            Some(made) => Ok(Some(self.end_made(place, made)?)),
            None => Ok(None),
        }
    }

    /// Begins a call, unless it is held back.
    fn begin_asked(
        &mut self,
        place: usize,
        caller: usize,
        call: &Call,
    ) -> Result<Option<(CallSummary, Admission)>, Halt> {
        let asked = CallSummary::of(call)?;
        let Some(admission) = self.admit(place, caller, &asked) else {
            return Ok(None);
        };
        let seen = self.see_admitted(place, caller, &asked);
        let admission = self.go_on_admitted(place, admission, seen)?;
        Ok(Some((asked, admission)))
    }

    /// Checks that a call may be made that was admitted.
    fn see_admitted(
        &mut self,
        place: usize,
        caller: usize,
        asked: &CallSummary,
    ) -> Result<(), Halt> {
        if caller > 0 && asked.notes.asked.enters {
            self.see_not_short(place)?;
        }
        if caller > 0 && !asked.notes.asked.pulls {
            self.see_mounted(place)?;
        }
        Ok(())
    }

    /// Makes a call that has begun, and notes its reply. Returns it, unless the call was refused.
    fn make_begun(
        &mut self,
        place: usize,
        caller: usize,
        call: Call,
        asked: CallSummary,
        admission: Admission,
    ) -> Result<Option<MadeCall>, Halt> {
        match self.make(place, caller, call) {
            Ok(Some(reply)) => Ok(Some(self.note_made(place, asked, admission, reply)?)),
            Ok(None) => {
                self.give_up(place, admission, false);
                Ok(None)
            }
            Err(refusal) => {
                self.give_up(place, admission, refusal == Refusal::JournalFailed);
                self.refuse(place, asked, refusal)?;
                Ok(None)
            }
        }
    }

    /// Notes a call that was made and its reply, and checks that.
    fn note_made(
        &mut self,
        place: usize,
        asked: CallSummary,
        admission: Admission,
        reply: Reply,
    ) -> Result<MadeCall, Halt> {
        let came = asked.notes.result(&reply);
        let entered = self.enter_reply(place, asked, &reply);
        let admission = self.go_on_admitted(place, admission, entered)?;
        let own = self.own(place);
        Ok(MadeCall {
            admission,
            reply,
            came,
            own,
        })
    }

    /// Returns how many facts of its own a node has.
    fn own(&self, place: usize) -> u64 {
        match self.nodes.get(place) {
            Some(node) => node.known.own(),
            None => 0,
        }
    }

    /// Handles the refusal of a call: the journal failed, or the run is full. It may have no other
    /// cause.
    fn refuse(&mut self, place: usize, asked: CallSummary, refusal: Refusal) -> Result<(), Halt> {
        if refusal == Refusal::RunFull {
            return self.next_run(place);
        }
        if refusal != Refusal::JournalFailed {
            return Err(refused(self.alloc, refusal)?);
        }
        let doubt = self.doubt_of(place, asked)?;
        self.fail(place, doubt)
    }

    /// Returns what a call that was cut off would have stored.
    fn doubt_of(&self, place: usize, asked: CallSummary) -> Result<Doubt, Halt> {
        match self.nodes.get(place) {
            Some(node) => Ok(node.doubt_of(asked, self.now)),
            None => Err(nowhere()),
        }
    }

    /// Records a call that was made and its reply.
    fn enter_reply(&mut self, place: usize, asked: CallSummary, reply: &Reply) -> Result<(), Halt> {
        if let Some(taken) = taken_by(&asked, reply) {
            let front = self.front(place)?.join(&taken);
            return self.grow(place, front);
        }
        self.see_told(place, reply)?;
        self.see_entered(place, &asked, reply)?;
        let named = named_in(&asked);
        if let Some(body) = stored(asked, reply) {
            self.add(place, body)?;
        }
        self.see_reply(place, named, reply)
    }

    /// Checks that a node sends all that it has.
    fn see_told(&self, place: usize, reply: &Reply) -> Result<(), Halt> {
        match (self.nodes.get(place), reply) {
            (Some(node), Reply::Gave(delta)) => node.see_told(delta),
            _ => Ok(()),
        }
    }

    /// Checks that what a call stored was allowed to be stored.
    fn see_entered(&self, place: usize, asked: &CallSummary, reply: &Reply) -> Result<(), Halt> {
        let Some(node) = self.nodes.get(place) else {
            return Err(nowhere());
        };
        node.see_expiry(reply, self.now)?;
        node.see_purge(asked, reply, self.now)
    }

    fn see_reply(&self, place: usize, named: Option<LraId>, reply: &Reply) -> Result<(), Halt> {
        match self.nodes.get(place) {
            Some(node) => node.see_reply(named, reply),
            None => Err(nowhere()),
        }
    }
}
