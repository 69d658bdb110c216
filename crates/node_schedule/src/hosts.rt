// The hosts at which participants are called. They take turns, so that none holds up the others.
ghost use Rattle.std.specs.Prelude.{◌≡◌, ◌<◌, ◌+◌, [], IfNone, IfSome, None, false, filter, length, map, slice_set};
ghost use Rattle.std.specs.List.{list_any};
ghost use Rattle.node_schedule.specs.Turns.{Begins, IsFirstOf, IsLongest, IsNewest, IsNewestNow, IsNext, IsPut, IsPutAt, IsTaken, MayTake, busy_with, changed_at, hanging_calls, host_at, is_before, is_due, is_kept, is_new, is_newer, is_newest_turn, listed, may_be_called, place_of, recalled, share, slow_calls, unsure_calls, with_end, with_hosts};

use crate::Pace;
use crate::host::{Busy, Host, host_of, key_of};
use std::alloc::Global;
use std::marker::Model;
use wire_callbacks::Duty;

/// Returns how many calls to slow hosts are under way.
fn slow_calls(hosts: &[Host]) -> usize
    ensures { result ≡ slow_calls hosts.now }
{
    hosts.iter().filter(|host| host.is_called_slowly()).count()
}

/// Returns how many calls to hanging hosts are under way.
fn hanging_calls(hosts: &[Host]) -> usize
    ensures { result ≡ hanging_calls hosts.now }
{
    hosts
        .iter()
        .filter(|host| host.is_called_as_hanging())
        .count()
}

/// Returns how many calls to hosts that aren't quick are under way.
fn unsure_calls(hosts: &[Host]) -> usize
    ensures { result ≡ unsure_calls hosts.now }
{
    hosts
        .iter()
        .filter(|host| host.is_called_unsurely())
        .count()
}

/// Returns how many calls are under way to hosts that may hold a thread for long.
fn busy_with(hosts: &[Host]) -> Busy
    ensures { result ≡ busy_with hosts.now }
{
    Busy {
        unsure: unsure_calls(hosts),
        slow: slow_calls(hosts),
        hanging: hanging_calls(hosts),
    }
}

/// Returns the place of the host that has waited longer: the first of those before a place, or the
/// host at that place, if it may be called.
fn longer(hosts: &[Host], busy: Busy, place: usize, first: Option<usize>) -> Option<usize>
    requires within { place < length hosts.now }
    requires first { IsFirstOf place (may_be_called busy) is_before hosts.now first }
    ensures { IsFirstOf (place + 1) (may_be_called busy) is_before hosts.now result }
{
    if !hosts[place].may_be_called(busy) {
        return first;
    }
    let Some(other) = first else {
        return Some(place);
    };
    if hosts[place].is_before(&hosts[other]) {
        return Some(place);
    }
    Some(other)
}

/// Returns the place of the host that has waited longest for its turn, of those that may be called.
fn longest(hosts: &[Host]) -> Option<usize>
    ensures { IsLongest hosts.now result }
{
    let busy = busy_with(hosts);
    let mut first: Option<usize> = None;
    for place in 0..hosts.len() {
        first = longer(hosts, busy, place, first);
    }
    first
}

/// Returns the place of the host that came later: the last of those before a place, or the host at
/// that place, if it was never called.
fn newer(hosts: &[Host], place: usize, last: Option<usize>) -> Option<usize>
    requires within { place < length hosts.now }
    requires last { IsFirstOf place is_new is_newer hosts.now last }
    ensures { IsFirstOf (place + 1) is_new is_newer hosts.now result }
{
    if !hosts[place].is_new() {
        return last;
    }
    let Some(other) = last else {
        return Some(place);
    };
    if hosts[place].is_newer(&hosts[other]) {
        return Some(place);
    }
    Some(other)
}

/// Returns the place of the host that came last, of those that were never called.
fn newest(hosts: &[Host]) -> Option<usize>
    ensures { IsNewest hosts.now result }
{
    let mut last: Option<usize> = None;
    for place in 0..hosts.len() {
        last = newer(hosts, place, last);
    }
    last
}

/// Returns that place if it is the newest host's turn.
fn newest_now(is_for_new: bool, hosts: &[Host]) -> Option<usize>
    ensures { IsNewestNow is_for_new hosts.now result }
{
    if !is_for_new {
        return None;
    }
    newest(hosts)
}

/// Takes the first duty queued at the host at this place, if there is one. The duty's call counts
/// as begun, at this turn.
fn begin_at(hosts: &mut [Host], place: usize, turn: u64) -> Option<Duty>
    requires within { place < length hosts.old }
    requires share { (host_at hosts.old place).calls < share (host_at hosts.old place).pace }
    ensures begun { IfSome result (λ duty. Begins turn duty (host_at hosts.old place) (host_at hosts.new place)) }
    ensures others { hosts.new ≡ slice_set hosts.old place (host_at hosts.new place) }
    ensures none { IfNone result ((host_at hosts.old place).due ≡ []) }
{
    hosts[place].begin(turn)
}

/// Returns the place of a duty's host, if the host is known.
fn place_of(hosts: &[Host], duty: &Duty) -> Option<usize>
    ensures place { result ≡ place_of duty.now hosts.now }
    ensures within { IfSome result (λ place. place < length hosts.now) }
{
    let name = host_of(duty);
    let key = key_of(name);
    for place in 0..hosts.len() {
        if hosts[place].is_named(key, name) {
            return Some(place);
        }
    }
    None
}

/// Forgets the hosts at which no participant is to be called.
fn forget_each(hosts: &mut Vec<Host>)
    ensures { hosts.new.items ≡ filter is_kept hosts.old.items }
{
    hosts.retain(|host| host.is_kept());
}

/// Takes back the duties that no thread has begun.
fn recall_each(hosts: &mut [Host])
    ensures { hosts.new ≡ map recalled hosts.old }
{
    for host in hosts.iter_mut() {
        host.recall();
    }
}

/// The hosts at which participants are to be called.
#[derive(Drop)]
pub(crate) struct Hosts {
    alloc: Global,
    list: Vec<Host>,
    turns: u64,
    /// Whether the next turn belongs to the newest host that was never called, if there is one.
    is_for_new: bool,
}

impl Model for Hosts {
    ghost use Rattle.node_schedule.specs.Turns.{Turns};

    ghost Value = { Turns };

    ghost view = { λ h. record {
      hosts = h.list.items;
      turns = h.turns;
      is_for_new = h.is_for_new;
    } };
}

impl Hosts {
    pub(crate) fn new(alloc: Global) -> Hosts
        ensures { result ≡ record { hosts = []; turns = 0; is_for_new = false } }
    {
        Hosts {
            alloc,
            list: Vec::new(alloc),
            turns: 0,
            is_for_new: false,
        }
    }

    /// Whether the next turn belongs to the newest host that was never called, if there is one, and
    /// a thread is left for it.
    fn is_newest_turn(&self) -> bool
        ensures { result ≡ is_newest_turn self.now }
    {
        self.is_for_new && busy_with(&self.list).has_room(Pace::Unknown)
    }

    /// Returns the place of the host that is called next, if one may be. Every second turn belongs
    /// to the newest host that was never called. So a crowd of hosts that never answer, all called
    /// for the first time, holds up no other host for long: each of them gets that turn once.
    fn next(&self) -> Option<usize>
        ensures { IsNext self.now result }
    {
        let new = newest_now(self.is_newest_turn(), &self.list);
        match new {
            Some(place) => Some(place),
            None => longest(&self.list),
        }
    }

    /// Whether a thread may call some participant now.
    pub(crate) fn may_take(&self) -> bool
        ensures { MayTake self.now result }
    {
        self.next().is_some()
    }

    /// Whether a duty is queued at some host.
    pub(crate) fn is_any_due(&self) -> bool
        ensures { result ≡ list_any is_due self.now.hosts }
    {
        self.list.iter().any(|host| host.is_due())
    }

    /// Takes the duty to call for next, if a call may begin. Its call counts as begun.
    pub(crate) fn take(&mut self) -> Option<Duty>
        ensures { IsTaken self.old self.new result }
    {
        let place = self.next()?;
        let turn = self.turns.saturating_add(1);
        let duty = begin_at(&mut self.list, place, turn)?;
        self.turns = turn;
        self.is_for_new = !self.is_for_new;
        Some(duty)
    }

    /// Records that a duty's participant is to be called later, so that its host isn't forgotten.
    pub(crate) fn note(&mut self, duty: &Duty)
        ensures { self.new ≡ with_hosts (changed_at (place_of duty.now self.old.hosts) listed self.old.hosts) self.old }
    {
        if let Some(place) = place_of(&self.list, duty) {
            self.list[place].note();
        }
    }

    /// Adds the host of a duty, with the duty, if there is memory for it.
    fn add(&mut self, duty: Duty) -> bool
        ensures { IsPutAt None duty self.old self.new result }
    {
        let turn = self.turns.saturating_add(1);
        let Some(host) = Host::of(self.alloc, duty, turn) else {
            return false;
        };
        if self.list.push(host).is_err() {
            return false;
        }
        self.turns = turn;
        true
    }

    /// Queues a duty at its host behind the others. Returns false if memory ran out.
    pub(crate) fn put(&mut self, duty: Duty) -> bool
        ensures { IsPut duty self.old self.new result }
    {
        match place_of(&self.list, &duty) {
            Some(place) => self.list[place].put(duty),
            None => self.add(duty),
        }
    }

    /// Takes back the duties that no thread has begun.
    pub(crate) fn recall(&mut self)
        ensures { self.new ≡ with_hosts (map recalled self.old.hosts) self.old }
    {
        recall_each(&mut self.list);
    }

    /// Forgets the hosts at which no participant is to be called.
    pub(crate) fn forget(&mut self)
        ensures { self.new ≡ with_hosts (filter is_kept self.old.hosts) self.old }
    {
        forget_each(&mut self.list);
    }

    /// Counts a call that is over.
    pub(crate) fn end(&mut self, duty: &Duty, pace: Pace)
        ensures { self.new ≡ with_hosts (changed_at (place_of duty.now self.old.hosts) (with_end pace) self.old.hosts) self.old }
    {
        if let Some(place) = place_of(&self.list, duty) {
            self.list[place].end(pace);
        }
    }
}
