// Decides when deadlines are checked, and when a new list of duties is asked for.
ghost use Rattle.std.specs.Prelude.{◌≡◌, ◌-◌, ◌||◌, ◌&&◌, false, nat_le, not, true};
ghost use Rattle.std.specs.Duration.{as_nanos};
ghost use Rattle.node_agenda.specs.Moments.{IsAfter, is_by};
ghost use Rattle.node_agenda.specs.Mail.{asked, hastened, is_to_ask_again, looked, put_off, stirred};
ghost use Rattle.node_schedule.specs.Slips.{at_once};

use std::time::Duration;

/// How often deadlines are checked.
const TICK_MS: u64 = 500;

/// How long after the last list of duties a new one is asked for, whatever happens, in nanoseconds.
const ASK_NANOS: u128 = 30_000_000_000;

/// When deadlines are checked, and when a new list of duties is asked for.
#[derive(Drop)]
pub(crate) struct Asking {
    /// Whether a new list is to be asked for now.
    pub(crate) is_stirred: bool,
    /// Whether a new list is to be asked for when deadlines are next checked.
    pub(crate) is_put_off: bool,
    pub(crate) asked_at: Duration,
    pub(crate) ticks_at: Duration,
}

impl Asking {
    pub(crate) fn new() -> Asking
        ensures { result ≡ record { is_stirred = true; is_put_off = false; asked_at = at_once; ticks_at = at_once } }
    {
        Asking {
            is_stirred: true,
            is_put_off: false,
            asked_at: Duration::ZERO,
            ticks_at: Duration::ZERO,
        }
    }

    /// Asks for a new list now.
    pub(crate) fn stir(&mut self)
        ensures { self.new ≡ stirred self.old }
    {
        self.is_stirred = true;
    }

    /// Asks for a new list when deadlines are next checked.
    pub(crate) fn put_off(&mut self)
        ensures { self.new ≡ put_off self.old }
    {
        self.is_put_off = true;
    }

    /// Makes deadlines be checked at once.
    pub(crate) fn hasten(&mut self)
        ensures { self.new ≡ hastened self.old }
    {
        self.ticks_at = Duration::ZERO;
    }

    /// Whether deadlines are to be checked at this moment.
    pub(crate) fn is_tick_due(&self, now: Duration) -> bool
        ensures { result ≡ is_by now self.now.ticks_at }
    {
        self.ticks_at.as_nanos() <= now.as_nanos()
    }

    /// Whether a tick is to ask for a new list: that was put off, or the last list was long ago and
    /// some participant is to be called.
    fn is_to_ask_again(&self, now: Duration, is_anyone: bool) -> bool
        ensures { result ≡ is_to_ask_again now is_anyone self.now }
    {
        let since = now.saturating_sub(self.asked_at);
        self.is_put_off || (is_anyone && since.as_nanos() >= ASK_NANOS)
    }

    /// Records that deadlines are checked at this moment, and schedules the next check.
    pub(crate) fn tick(&mut self, now: Duration, is_anyone: bool)
        ensures at { IsAfter 500 now self.new.ticks_at }
        ensures rest { self.new ≡ looked now is_anyone self.new.ticks_at self.old }
    {
        self.is_stirred = self.is_stirred || self.is_to_ask_again(now, is_anyone);
        self.is_put_off = false;
        self.ticks_at = now.saturating_add(Duration::from_millis(TICK_MS));
    }

    /// Records that the list is asked for at this moment.
    pub(crate) fn ask(&mut self, now: Duration)
        ensures { self.new ≡ asked now self.old }
    {
        self.is_stirred = false;
        self.asked_at = now;
    }
}
