// Answers and lists that wait until other nodes have what they may show.
ghost use Rattle.std.specs.Prelude.{◌≡◌, is_some};
ghost use Rattle.node_replication.specs.Spreads.{standing_of, stood};
ghost use Rattle.node_replication.specs.Waits.{after_of, counted, fate_kept, fate_of, fate_released, go_on, kept, nobody, released, stood_of, with_calls, with_question, with_told};

use crate::replication::Replication;
use crate::standing::{CallbackFate, Standing};
use std::marker::Model;
use std::time::Duration;

/// Participants and listeners that wait to be called until a ticket is covered.
#[derive(Clone, Copy)]
pub(crate) struct CallsHeld {
    pub(crate) ticket: u64,
    pub(crate) since: Duration,
    /// Whether their list is too old by now.
    pub(crate) is_old: bool,
}

/// Whether participants with this standing wait no longer.
fn go_on(standing: Standing, is_strict: bool) -> bool
    ensures { result ≡ go_on standing is_strict }
{
    match standing {
        Standing::Copied => true,
        Standing::Late => !is_strict,
        Standing::Waits => false,
    }
}

/// What waits until other nodes have what it may show, and how many of these went on. It doesn't
/// know the participants' list.
#[derive(Drop)]
pub struct Waiters {
    calls: Option<CallsHeld>,
    /// Whether a new list is to be asked for once the participants no longer wait.
    asks_again: bool,
    copied: u64,
    late: u64,
    /// How many were late since that was last logged.
    untold: u64,
}

impl Model for Waiters {
    ghost use Rattle.node_replication.specs.Waits.{Wait};

    ghost Value = { Wait };

    ghost view = { λ w. record {
      calls = w.calls;
      asks_again = w.asks_again;
      copied = w.copied;
      late = w.late;
      untold = w.untold;
    } };
}

impl Waiters {
    /// Makes the state in which nothing waits.
    pub fn new() -> Waiters
        ensures { result ≡ nobody }
    {
        Waiters {
            calls: None,
            asks_again: false,
            copied: 0,
            late: 0,
            untold: 0,
        }
    }

    /// Counts an answer or a list with this standing, if it goes on.
    fn count(&mut self, standing: Standing)
        ensures { self.new ≡ counted standing self.old }
    {
        match standing {
            Standing::Copied => self.copied = self.copied.saturating_add(1),
            Standing::Late => {
                self.late = self.late.saturating_add(1);
                self.untold = self.untold.saturating_add(1);
            }
            Standing::Waits => {}
        }
    }

    /// Returns the standing of an answer that has waited for a ticket since a moment. It is counted
    /// once it goes on.
    pub fn stand(
        &mut self,
        copies: &mut Replication,
        ticket: u64,
        since: Duration,
        now: Duration,
        is_strict: bool,
    ) -> Standing
        ensures standing { result ≡ standing_of ticket since now is_strict copies.old }
        ensures stood { copies.new ≡ stood ticket since now is_strict copies.old }
        ensures counted { self.new ≡ counted (standing_of ticket since now is_strict copies.old) self.old }
    {
        let standing = copies.standing(ticket, since, now, is_strict);
        self.count(standing);
        standing
    }

    /// Makes participants wait for a ticket.
    pub fn hold_calls(&mut self, ticket: u64, now: Duration)
        ensures { self.new ≡ with_calls ticket now self.old }
    {
        self.calls = Some(CallsHeld {
            ticket,
            since: now,
            is_old: false,
        });
    }

    /// Whether participants wait.
    pub fn holds_calls(&self) -> bool
        ensures { result ≡ is_some self.now.calls }
    {
        self.calls.is_some()
    }

    /// Whether callbacks are on hold. If so, a new list of duties is asked for once they are
    /// released.
    pub fn puts_off(&mut self) -> bool
        ensures holds { result ≡ is_some self.old.calls }
        ensures asks { self.new ≡ with_question self.old }
    {
        let holds = self.holds_calls();
        self.asks_again = self.asks_again || holds;
        holds
    }

    /// Releases the participants that waited, given their standing.
    fn release(&mut self, calls: CallsHeld, standing: Standing) -> CallbackFate
        ensures released { self.new ≡ released standing self.old }
        ensures fate { result ≡ fate_released calls self.old.asks_again }
    {
        let asks_again = self.asks_again;
        self.count(standing);
        self.calls = None;
        self.asks_again = false;
        if calls.is_old {
            CallbackFate::Asked
        } else {
            CallbackFate::Called { asks_again }
        }
    }

    /// Makes the participants go on waiting, given their standing.
    fn keep(&mut self, calls: CallsHeld, standing: Standing) -> CallbackFate
        ensures kept { self.new ≡ kept calls standing self.old }
        ensures fate { result ≡ fate_kept standing }
    {
        let is_late = standing == Standing::Late;
        self.calls = Some(CallsHeld {
            ticket: calls.ticket,
            since: calls.since,
            is_old: calls.is_old || is_late,
        });
        if is_late {
            CallbackFate::Outdated
        } else {
            CallbackFate::OnHold
        }
    }

    /// Returns what happens to the participants that wait, if any. If calls are strict,
    /// participants that are late aren't called: a new list is asked for once other nodes are back.
    pub fn take_calls(
        &mut self,
        copies: &mut Replication,
        now: Duration,
        is_strict: bool,
    ) -> CallbackFate
        ensures fate { result ≡ fate_of self.old.calls now is_strict copies.old self.old.asks_again }
        ensures stood { copies.new ≡ stood_of self.old.calls now is_strict copies.old }
        ensures after { self.new ≡ after_of self.old.calls now is_strict copies.old self.old }
    {
        let Some(calls) = self.calls else {
            return CallbackFate::OnHold;
        };
        let standing = copies.standing(calls.ticket, calls.since, now, is_strict);
        if go_on(standing, is_strict) {
            return self.release(calls, standing);
        }
        self.keep(calls, standing)
    }

    /// Returns how many answers and lists went on because as many others as are wanted had what
    /// they show.
    pub fn copied(&self) -> u64
        ensures { result ≡ self.now.copied }
    {
        self.copied
    }

    /// Returns how many went on although they were late.
    pub fn late(&self) -> u64
        ensures { result ≡ self.now.late }
    {
        self.late
    }

    /// Returns how many were late since this was last asked.
    pub fn take_untold(&mut self) -> u64
        ensures untold { result ≡ self.old.untold }
        ensures told { self.new ≡ with_told self.old }
    {
        let untold = self.untold;
        self.untold = 0;
        untold
    }
}
