// Records which participants were heard from while a list of duties is pending.
ghost use Rattle.std.specs.Prelude.{◌≡◌};
ghost use Rattle.wire_callbacks.specs.declared.answer.Heard.TheVariants.{Outcome as AnOutcome};
ghost use Rattle.state_ids.specs.declared.outcome.Outcome.TheVariants.{Busy as IsBusy};
ghost use Rattle.node_agenda.specs.Since.{IsAlsoHeard, IsAnswerNotedIf, IsMentioned, PausesEach, WaitsWithPause, asked_now, at_rest, is_unheard, unheard, was_heard};

use node_schedule::{Called, Schedule};
use state_ids::Outcome;
use std::alloc::Global;
use std::marker::Model;
use std::time::Duration;
use wire_callbacks::{Duties, Duty, Heard};

/// Whether a participant is among those that were heard from.
fn was_heard(heard: &[Called], who: &Called) -> bool
    ensures { result ≡ was_heard heard.now who.now }
{
    heard.iter().any(|other| who.is(other))
}

/// Whether a duty's participant isn't among those that were heard from.
fn is_unheard(heard: &[Called], duty: &Duty) -> bool
    ensures { result ≡ is_unheard heard.now duty.now }
{
    !was_heard(heard, &Called::of(duty))
}

/// Removes the duties of the participants that were heard from.
fn leave_out(duties: &mut Vec<Duty>, heard: &[Called])
    ensures { duties.new.items ≡ unheard heard.now duties.old.items }
{
    duties.retain(|duty| is_unheard(heard, duty));
}

/// Pauses each of these participants, one after another.
pub(crate) fn pause_each(calls: &mut Schedule, busy: &[Called], now: Duration)
    ensures { PausesEach now busy.now calls.old calls.new }
{
    for who in busy {
        calls.pause(*who, now);
    }
}

/// Which participants were heard from while a list of duties is pending: from when the list was
/// asked for until it is put. The list calls none of them.
#[derive(Drop)]
pub(crate) struct HeardSince {
    is_out: bool,
    /// Whether every participant that was heard from is recorded: one isn't if memory ran out.
    is_whole: bool,
    heard: Vec<Called>,
    /// The participants whose pause begins once the list is put: they answered that they are busy.
    busy: Vec<Called>,
}

impl Model for HeardSince {
    ghost use Rattle.node_agenda.specs.Since.{Since};

    ghost Value = { Since };

    ghost view = { λ s. record {
      is_out = s.is_out;
      is_whole = s.is_whole;
      heard = s.heard.items;
      busy = s.busy.items;
    } };
}

impl HeardSince {
    /// Makes the record with no list pending.
    pub(crate) fn new(alloc: Global) -> HeardSince
        ensures { result ≡ at_rest }
    {
        HeardSince {
            is_out: false,
            is_whole: true,
            heard: Vec::new(alloc),
            busy: Vec::new(alloc),
        }
    }

    /// Records that a list is asked for now.
    pub(crate) fn begin(&mut self)
        ensures { self.new ≡ asked_now }
    {
        self.is_out = true;
        self.is_whole = true;
        self.heard.clear();
        self.busy.clear();
    }

    /// Records that no list is pending any more.
    pub(crate) fn end(&mut self)
        ensures { self.new ≡ at_rest }
    {
        self.begin();
        self.is_out = false;
    }

    /// Whether every participant that was heard from is recorded.
    pub(crate) fn is_whole(&self) -> bool
        ensures { result ≡ self.now.is_whole }
    {
        self.is_whole
    }

    /// Returns the participants whose pause begins once the list is put.
    pub(crate) fn busy(&self) -> &[Called]
        ensures { result.now ≡ self.now.busy }
    {
        &self.busy
    }

    fn note(&mut self, who: &Called)
        ensures { IsAlsoHeard who.now self.old self.new }
    {
        if was_heard(&self.heard, who) {
            return;
        }
        if self.heard.push(*who).is_err() {
            self.is_whole = false;
        }
    }

    /// Records that a participant was heard from, if a list is pending.
    pub(crate) fn mention(&mut self, who: Option<Called>)
        ensures { IsMentioned who self.old self.new }
    {
        if let Some(who) = who {
            if self.is_out {
                self.note(&who);
            }
        }
    }

    /// Puts off the pause of a busy participant. Returns false if memory ran out.
    fn put_off_pause(&mut self, who: &Called) -> bool
        ensures { WaitsWithPause (AnOutcome IsBusy) who.now self.old self.new result }
    {
        let is_put = self.busy.push(*who).is_ok();
        if !is_put {
            self.is_whole = false;
        }
        is_put
    }

    /// Records the answer of a participant, if a list is pending. Returns whether the participant's
    /// pause is put off until the list is put.
    pub(crate) fn note_answer(&mut self, who: &Called, heard: Heard) -> bool
        ensures { IsAnswerNotedIf heard who.now self.old self.new result }
    {
        if !self.is_out {
            return false;
        }
        self.note(who);
        match heard {
            Heard::Outcome(Outcome::Busy) => self.put_off_pause(who),
            _ => false,
        }
    }

    /// Returns the duties of a list without those of the participants that were heard from.
    pub(crate) fn unheard(&self, duties: Duties) -> Vec<Duty>
        ensures { result.items ≡ unheard self.now.heard duties }
    {
        let mut left = duties.into_vec();
        leave_out(&mut left, &self.heard);
        left
    }
}
