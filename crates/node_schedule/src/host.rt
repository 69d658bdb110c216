// A host at which participants are called, with the duties that are queued there.
ghost use Rattle.std.specs.Prelude.{◌≡◌, ◌<◌, [], IfNone, IfSome, if◌then◌else◌};
ghost use Rattle.std.specs.List.{after_first};
ghost use Rattle.std.specs.Str.{bytes_eq};
ghost use Rattle.node_schedule.specs.Keys.{key_of};
ghost use Rattle.node_schedule.specs.Links.{host_in, host_of, is_slash};
ghost use Rattle.node_schedule.specs.Turns.{Begins, has_room, is_before, is_called_as_hanging, is_called_slowly, is_called_unsurely, is_due, is_hanging, is_new, is_newer, is_quick, is_slow, is_unknown, listed, may_be_called, newcomer, recalled, share, with_due, with_end, is_kept};

use crate::Pace;
use std::alloc::Global;
use std::collections::VecDeque;
use std::marker::Model;
use wire_callbacks::Duty;

/// How many calls to slow hosts may be under way at once. The other threads are left to hosts that
/// answer at once.
const MAX_SLOW: usize = 2;

/// How many calls to hanging hosts may be under way at once. A slow host that does answer waits for
/// none of these.
const MAX_HANGING: usize = 2;

/// How many calls may be under way at once to hosts that aren't quick. So, of four threads, one is
/// always left to hosts that answered quickly, whichever other hosts never answer.
const MAX_UNSURE: usize = 3;

/// Returns what stands behind the first slash.
fn past_slash(text: &str) -> &str
    ensures { result.now ≡ after_first is_slash text.now }
{
    match text.split_once('/') {
        Some((_, rest)) => rest,
        None => "",
    }
}

/// Returns what stands behind the second slash of a link, up to the next slash.
fn host_in(link: &str) -> &str
    ensures { result.now ≡ host_in link.now }
{
    let rest = past_slash(past_slash(link));
    match rest.split_once('/') {
        Some((host, _)) => host,
        None => rest,
    }
}

/// Returns the host at which a duty's participant is called, with its port.
pub(crate) fn host_of(duty: &Duty) -> &str
    ensures { result.now ≡ host_of duty.now }
{
    host_in(duty.link.as_str())
}

/// Returns a number made from a name. Names with different numbers are different, so that few names
/// have to be compared.
pub(crate) fn key_of(name: &str) -> u64
    ensures { result ≡ key_of name.now }
{
    let bytes = name.as_bytes();
    let mut key: u64 = 0;
    for place in 0..bytes.len() {
        key = key.wrapping_mul(31).wrapping_add(bytes[place] as u64);
    }
    key
}

/// Returns how many calls to a host may be under way at once: two to a quick host.
fn share(pace: Pace) -> usize
    ensures { result ≡ share pace }
{
    match pace {
        Pace::Quick => 2,
        Pace::Unknown | Pace::Slow | Pace::Refusing | Pace::Hanging => 1,
    }
}

fn is_slow(pace: Pace) -> bool
    ensures { result ≡ is_slow pace }
{
    matches!(pace, Pace::Slow)
}

fn is_hanging(pace: Pace) -> bool
    ensures { result ≡ is_hanging pace }
{
    matches!(pace, Pace::Hanging)
}

fn is_quick(pace: Pace) -> bool
    ensures { result ≡ is_quick pace }
{
    matches!(pace, Pace::Quick)
}

fn is_unknown(pace: Pace) -> bool
    ensures { result ≡ is_unknown pace }
{
    matches!(pace, Pace::Unknown)
}

/// How many calls are under way to hosts that may hold a thread for long.
#[derive(Clone, Copy)]
pub(crate) struct Busy {
    /// To hosts that aren't quick.
    pub(crate) unsure: usize,
    /// To the slow hosts among them.
    pub(crate) slow: usize,
    /// To the hanging hosts among them.
    pub(crate) hanging: usize,
}

impl Busy {
    /// Whether another call may begin beside these, to a host of this pace.
    pub(crate) fn has_room(self, pace: Pace) -> bool
        ensures { result ≡ has_room self pace }
    {
        match pace {
            Pace::Quick => true,
            Pace::Unknown | Pace::Refusing => self.unsure < MAX_UNSURE,
            Pace::Slow => self.slow < MAX_SLOW && self.unsure < MAX_UNSURE,
            Pace::Hanging => self.hanging < MAX_HANGING && self.unsure < MAX_UNSURE,
        }
    }
}

/// A host at which participants are to be called, or were by the last list.
#[derive(Drop)]
pub(crate) struct Host {
    name: String,
    /// The number made from the name.
    key: u64,
    /// The duties that are queued there, in order.
    due: VecDeque<Duty>,
    calls: usize,
    pace: Pace,
    /// The turn, counted over all hosts, at which its last call began, or at which it came if it
    /// was never called.
    turn: u64,
    /// Whether the last list had a participant there.
    is_listed: bool,
}

impl Model for Host {
    ghost use Rattle.std.specs.Prelude.{◌≡◌, ◌≤◌, string_bytes};
    ghost use Rattle.node_schedule.specs.Keys.{key_of};
    ghost use Rattle.node_schedule.specs.Turns.{AtHost, share};

    ghost Value = { AtHost };

    ghost view = { λ h. record {
      name = string_bytes h.name;
      due = h.due.items;
      calls = h.calls;
      pace = h.pace;
      turn = h.turn;
      is_listed = h.is_listed;
    } };

    ghost invariant = { λ h. (h.calls ≤ share h.pace) × (h.key ≡ key_of (string_bytes h.name)) };
}

impl Host {
    /// Makes the host of a duty. It has come at this turn, and the duty is first in its queue.
    /// Returns `None` if memory ran out.
    pub(crate) fn of(alloc: Global, duty: Duty, turn: u64) -> Option<Host>
        ensures { IfSome result (λ host. host ≡ newcomer duty turn) }
    {
        let name = String::from_str(alloc, host_of(&duty)).ok()?;
        let key = key_of(name.as_str());
        let mut due = VecDeque::new(alloc);
        due.push_back(duty).ok()?;
        Some(Host {
            name,
            key,
            due,
            calls: 0,
            pace: Pace::Unknown,
            turn,
            is_listed: true,
        })
    }

    /// Whether the host has this name, whose number is `key`.
    pub(crate) fn is_named(&self, key: u64, name: &str) -> bool
        requires { key ≡ key_of name.now }
        ensures { result ≡ bytes_eq self.now.name name.now }
    {
        if self.key != key {
            return false;
        }
        self.name.as_str() == name
    }

    /// Whether a duty is queued there.
    pub(crate) fn is_due(&self) -> bool
        ensures { result ≡ is_due self.now }
    {
        !self.due.is_empty()
    }

    /// Whether a call to it is under way, and it is slow.
    pub(crate) fn is_called_slowly(&self) -> bool
        ensures { result ≡ is_called_slowly self.now }
    {
        is_slow(self.pace) && self.calls > 0
    }

    /// Whether a call to it is under way, and its last one hung.
    pub(crate) fn is_called_as_hanging(&self) -> bool
        ensures { result ≡ is_called_as_hanging self.now }
    {
        is_hanging(self.pace) && self.calls > 0
    }

    /// Whether a call to it is under way, and it isn't quick.
    pub(crate) fn is_called_unsurely(&self) -> bool
        ensures { result ≡ is_called_unsurely self.now }
    {
        !is_quick(self.pace) && self.calls > 0
    }

    /// Whether a thread may call there now, while these other calls are under way.
    pub(crate) fn may_be_called(&self, busy: Busy) -> bool
        ensures { result ≡ may_be_called busy self.now }
    {
        self.calls < share(self.pace) && busy.has_room(self.pace) && !self.due.is_empty()
    }

    /// Whether it was never called, and has a duty queued.
    pub(crate) fn is_new(&self) -> bool
        ensures { result ≡ is_new self.now }
    {
        is_unknown(self.pace) && self.calls == 0 && !self.due.is_empty()
    }

    /// Whether its turn comes before another's. A host that isn't being called goes first, and then
    /// the one whose last call began longest ago.
    pub(crate) fn is_before(&self, other: &Host) -> bool
        ensures { result ≡ is_before self.now other.now }
    {
        match (self.calls == 0, other.calls == 0) {
            (true, false) => true,
            (false, true) => false,
            _ => self.turn < other.turn,
        }
    }

    /// Whether it came later than another host.
    pub(crate) fn is_newer(&self, other: &Host) -> bool
        ensures { result ≡ is_newer self.now other.now }
    {
        self.turn > other.turn
    }

    /// Takes the first duty in its queue, if there is one. The duty's call counts as begun, at this
    /// turn.
    pub(crate) fn begin(&mut self, turn: u64) -> Option<Duty>
        requires { self.old.calls < share self.old.pace }
        ensures begun { IfSome result (λ duty. Begins turn duty self.old self.new) }
        ensures none { IfNone result (self.old.due ≡ []) }
    {
        let duty = self.due.pop_front()?;
        self.calls = self.calls.saturating_add(1);
        self.turn = turn;
        Some(duty)
    }

    /// Records that a participant there is to be called later.
    pub(crate) fn note(&mut self)
        ensures { self.new ≡ listed self.old }
    {
        self.is_listed = true;
    }

    /// Queues a duty there behind the others. Returns false if memory ran out.
    pub(crate) fn put(&mut self, duty: Duty) -> bool
        ensures { self.new ≡ (if result then with_due duty self.old else listed self.old) }
    {
        self.is_listed = true;
        self.due.push_back(duty).is_ok()
    }

    /// Takes back the duties that no thread has begun.
    pub(crate) fn recall(&mut self)
        ensures { self.new ≡ recalled self.old }
    {
        self.due.clear();
        self.is_listed = false;
    }

    /// Whether a participant there is to be called, or is being called.
    pub(crate) fn is_kept(&self) -> bool
        ensures { result ≡ is_kept self.now }
    {
        self.is_listed || self.calls > 0
    }

    /// Counts a call that is over, and records how it was answered.
    pub(crate) fn end(&mut self, pace: Pace)
        ensures { self.new ≡ with_end pace self.old }
    {
        self.calls = self.calls.saturating_sub(1);
        self.pace = pace;
    }
}
