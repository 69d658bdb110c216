// Laws of the schedule of callbacks: who is called next, and how long a host waits for its turn. Each
// function does nothing, and its contract is the law.
ghost use Rattle.std.specs.Prelude.{[], ◌≡◌, ◌+◌, ◌*◌, ◌<◌, ◌≤◌, Bool, List, None, Option, Some, ℕ, false, filter, length, map, max, nat_lt, true};
ghost use Rattle.std.specs.List.{All};
ghost use Rattle.state_facts.specs.declared.fact.Fact.{Fact};
ghost use Rattle.state_forest.specs.Dues.{AreAll};
ghost use Rattle.theory_history.specs.Growth.{IsSettled};
ghost use Rattle.theory_history.specs.Views.{StandsFor, View};
ghost use Rattle.wire_callbacks.specs.ViewDuties.{duties_of};
ghost use Rattle.wire_callbacks.specs.CallDuties.{IsDuty, comes_first};
ghost use Rattle.wire_callbacks.specs.declared.duty.Duty.{Duty};
ghost use Rattle.node_schedule.specs.Calling.{Calling, IsTakenFrom, ended, forgotten, nothing};
ghost use Rattle.node_schedule.specs.Latest.{Event, Happen, begun_in};
ghost use Rattle.node_schedule.specs.Named.{AllNamed, NamesOnly, Passes};
ghost use Rattle.node_schedule.specs.Once.{BeginsNoCall, BeginsOnce, HasEachOnce, IsBeingCalled, LeavesOthers, NamesNobodyTwice, calls_of, current_of};
ghost use Rattle.node_schedule.specs.Pausing.{IsBusyAt, IsFound, IsMissed};
ghost use Rattle.node_schedule.specs.Resuming.{ResumesAt};
ghost use Rattle.node_schedule.specs.Slips.{called_of, place_of, same_called};
ghost use Rattle.node_schedule.specs.declared.host.Busy.{Busy as TheBusy};
ghost use Rattle.node_schedule.specs.declared.pace.Pace.{Pace as ThePace};
ghost use Rattle.node_schedule.specs.declared.pace.Pace.TheVariants.{Hanging, Quick, Slow};
ghost use Rattle.node_schedule.specs.declared.plight.CallFailure.{CallFailure as TheCame};
ghost use Rattle.node_schedule.specs.declared.plight.Plight.{Plight as ThePlight};
ghost use Rattle.node_schedule.specs.declared.slip.Called.{Called as TheCalled};
ghost use Rattle.std.specs.declared.time.Duration.{Duration};
ghost use Rattle.node_schedule.specs.Turns.{AtHost, BeginsAt, IsLongest, IsNext, IsPut, IsTaken, Turns, busy_with, changed_at, hanging_calls, host_at, is_called_unsurely, is_due, is_kept, is_new, is_newest_turn, is_quick, listed, may_be_called, next_turn, recalled, share, slow_calls, unsure_calls, with_end};
ghost use Rattle.node_schedule.specs.Turns.{place_of as host_place};
ghost use Rattle.node_schedule.specs.Waiting.{LeavesOne, WaitsFor, ahead, all_calls, other_calls};

/// A host that was called gets its turn again only after each other host that may be called and
/// isn't being called: its last call began before the other's last call, or before the other came.
pub fn who_was_called_waits_for_the_others()
    ensures { (now : Turns) (place other : ℕ) → IsNext now (Some place) →
        is_new (host_at now.hosts place) ≡ false →
        other < length now.hosts → may_be_called (busy_with now.hosts) (host_at now.hosts other) ≡ true →
        (host_at now.hosts other).calls ≡ 0 →
        ((host_at now.hosts place).calls ≡ 0) × ((host_at now.hosts place).turn ≤ (host_at now.hosts other).turn) }
{}

/// A host that is called next may be called: a duty is queued there, and fewer calls to it are
/// under way than its share.
pub fn who_is_next_may_be_called()
    ensures { (now : Turns) (place : ℕ) → IsNext now (Some place) →
        (place < length now.hosts) × (may_be_called (busy_with now.hosts) (host_at now.hosts place) ≡ true) }
{}

/// A duty that is taken is one of those that were queued or kept, and the others stay: it passes
/// each test that all of them pass, and so do those that are left.
pub fn who_is_taken_was_named()
    ensures { (old new : Calling) (duty : Duty) (test : Duty → Bool) →
        IsTakenFrom old new (Some duty) → AllNamed test old → Passes test duty × AllNamed test new }
{}

/// While a host may be called, one is.
pub fn nobody_waits_for_nothing()
    ensures { (now : Turns) (other : ℕ) → other < length now.hosts →
        may_be_called (busy_with now.hosts) (host_at now.hosts other) ≡ true → IsNext now None → ⊥ }
{}

/// A quick host waits for no call to another host: while a duty is queued there, and fewer calls to
/// it are under way than its share, it may be called, whichever hosts hang. So some host may be
/// called.
pub fn a_quick_host_waits_for_no_call()
    ensures may { (busy : TheBusy) (host : AtHost) → host.pace ≡ Quick →
        host.calls < share Quick → is_due host ≡ true → may_be_called busy host ≡ true }
    ensures next { (now : Turns) (place : ℕ) → place < length now.hosts →
        (host_at now.hosts place).pace ≡ Quick → (host_at now.hosts place).calls < share Quick →
        is_due (host_at now.hosts place) ≡ true → IsNext now None → ⊥ }
{}

/// One of four callers is left to quick hosts: whatever happens, at most three calls to other hosts
/// are under way. If a host is no longer quick once one of two calls to it is over, the other call
/// is one of the three.
pub fn one_caller_is_left_to_quick_hosts()
    ensures none { LeavesOne [] }
    ensures taken { (old new : Turns) (duty : Option Duty) →
        IsTaken old new duty → LeavesOne old.hosts → LeavesOne new.hosts }
    ensures ended { (duty : Duty) (pace : ThePace) (hosts : List AtHost) →
        all_calls hosts ≤ 4 → LeavesOne hosts →
        LeavesOne (changed_at (host_place duty hosts) (with_end pace) hosts) }
    ensures put { (duty : Duty) (old new : Turns) (is_put : Bool) →
        IsPut duty old new is_put → unsure_calls new.hosts ≡ unsure_calls old.hosts }
    ensures noted { (duty : Duty) (hosts : List AtHost) →
        unsure_calls (changed_at (host_place duty hosts) listed hosts) ≡ unsure_calls hosts }
    ensures recalled { (hosts : List AtHost) →
        unsure_calls (map recalled hosts) ≡ unsure_calls hosts }
    ensures forgotten { (hosts : List AtHost) →
        unsure_calls (filter is_kept hosts) ≡ unsure_calls hosts }
{}

/// Only a quick host takes the caller that is left to quick hosts. A host that refuses at once, or
/// isn't quick for another reason, may be called only while fewer than three calls to hosts that
/// aren't quick are under way. Its own call is then one of the three.
pub fn who_refuses_at_once_never_takes_the_last_caller()
    ensures begins { (busy : TheBusy) (host : AtHost) → is_quick host.pace ≡ false →
        may_be_called busy host ≡ true → busy.unsure < 3 }
    ensures counts { (host : AtHost) → is_quick host.pace ≡ false →
        is_called_unsurely host ≡ nat_lt 0 host.calls }
{}

/// Hanging hosts hold at most two callers: a call to one begins only while fewer than two calls to
/// hosts whose last call hung are under way, and nothing else makes a third, with one exception. If
/// two calls to a quick host are under way and one of them hangs, the other, which began while the
/// host was quick, counts too. There is never a fourth, because one caller is left to quick hosts.
pub fn hosts_that_hang_hold_two_callers()
    ensures begins { (busy : TheBusy) (host : AtHost) → host.pace ≡ Hanging →
        may_be_called busy host ≡ true → busy.hanging < 2 }
    ensures none { hanging_calls [] ≡ 0 }
    ensures taken { (old new : Turns) (duty : Option Duty) →
        IsTaken old new duty → hanging_calls new.hosts ≤ max 2 (hanging_calls old.hosts) }
    ensures ended { (duty : Duty) (pace : ThePace) (hosts : List AtHost) →
        hanging_calls (changed_at (host_place duty hosts) (with_end pace) hosts)
        ≤ hanging_calls hosts + other_calls duty hosts }
    ensures three { (hosts : List AtHost) → LeavesOne hosts → hanging_calls hosts ≤ 3 }
    ensures put { (duty : Duty) (old new : Turns) (is_put : Bool) →
        IsPut duty old new is_put → hanging_calls new.hosts ≡ hanging_calls old.hosts }
    ensures noted { (duty : Duty) (hosts : List AtHost) →
        hanging_calls (changed_at (host_place duty hosts) listed hosts) ≡ hanging_calls hosts }
    ensures recalled { (hosts : List AtHost) →
        hanging_calls (map recalled hosts) ≡ hanging_calls hosts }
    ensures forgotten { (hosts : List AtHost) →
        hanging_calls (filter is_kept hosts) ≡ hanging_calls hosts }
{}

/// A slow host, which does answer, waits for no hanging host. While a duty is queued there and it
/// isn't being called, it may be called if fewer than two calls to slow hosts are under way, and
/// fewer than three to all hosts that aren't quick. So, however many hosts hang, it may be called
/// while two calls to these are under way, and none to any other host that isn't quick.
pub fn a_slow_host_waits_for_no_host_that_hangs()
    ensures may { (busy : TheBusy) (host : AtHost) → host.pace ≡ Slow →
        host.calls < share Slow → is_due host ≡ true → busy.slow < 2 → busy.unsure < 3 →
        may_be_called busy host ≡ true }
    ensures beside { (hosts : List AtHost) (host : AtHost) → host.pace ≡ Slow →
        host.calls < share Slow → is_due host ≡ true →
        hanging_calls hosts ≤ 2 → unsure_calls hosts ≤ hanging_calls hosts →
        may_be_called (busy_with hosts) host ≡ true }
    ensures next { (now : Turns) (place : ℕ) → place < length now.hosts →
        (host_at now.hosts place).pace ≡ Slow → (host_at now.hosts place).calls < share Slow →
        is_due (host_at now.hosts place) ≡ true →
        slow_calls now.hosts < 2 → unsure_calls now.hosts < 3 → IsNext now None → ⊥ }
{}

/// A host waits only for those whose turn isn't behind its own. Each turn, except the newest
/// host's, that comes while it may be called and isn't being called makes them one fewer, and
/// nothing makes them more. So, while it may be called, at most twice as many calls plus one begin
/// before it has its turn.
///
/// The law says nothing about times in which the host may not be called. A quick host always may,
/// while a duty is queued there and fewer calls to it are under way than its share. Any other host
/// may only while fewer than three calls to hosts that aren't quick are under way. In addition, a
/// hanging host, as one whose calls fail for long often is, may only while fewer than two calls to
/// hanging hosts are under way, and a slow one only while fewer than two to slow hosts are.
pub fn a_host_waits_for_those_before_it()
    ensures by_turn { (now : Turns) (place : ℕ) →
        is_newest_turn now ≡ false → IsNext now (Some place) → IsLongest now.hosts (Some place) }
    ensures longest { (old new : Turns) (duty : Duty) (place other : ℕ) →
        IsLongest old.hosts (Some place) → BeginsAt place duty old new → other < length old.hosts →
        may_be_called (busy_with old.hosts) (host_at old.hosts other) ≡ true →
        (host_at old.hosts other).calls ≡ 0 →
        (host_at old.hosts other).turn < next_turn old.turns →
        ahead (host_at old.hosts other).turn new.hosts + 1
        ≡ ahead (host_at old.hosts other).turn old.hosts }
    ensures taken { (turn : ℕ) (old new : Turns) (duty : Duty) → IsTaken old new (Some duty) →
        turn < next_turn old.turns → ahead turn new.hosts ≤ ahead turn old.hosts }
    ensures put { (turn : ℕ) (duty : Duty) (old new : Turns) (is_put : Bool) →
        IsPut duty old new is_put → turn < next_turn old.turns →
        ahead turn new.hosts ≡ ahead turn old.hosts }
    ensures noted { (turn : ℕ) (duty : Duty) (hosts : List AtHost) →
        ahead turn (changed_at (host_place duty hosts) listed hosts) ≡ ahead turn hosts }
    ensures ended { (turn : ℕ) (duty : Duty) (pace : ThePace) (hosts : List AtHost) →
        ahead turn (changed_at (host_place duty hosts) (with_end pace) hosts) ≡ ahead turn hosts }
    ensures recalled { (turn : ℕ) (hosts : List AtHost) →
        ahead turn (map recalled hosts) ≡ ahead turn hosts }
    ensures forgotten { (turn : ℕ) (hosts : List AtHost) →
        ahead turn (filter is_kept hosts) ≤ ahead turn hosts }
    ensures in_all { (count turn : ℕ) (now : Turns) →
        WaitsFor count turn now → count ≤ 2 * ahead turn now.hosts + 1 }
{}

/// The list of all duties of a home, in their order, which is the list that a node makes, names no
/// participant twice. A participant that is to complete or to compensate has nothing to forget yet.
pub fn a_list_names_nobody_twice()
    ensures set { (home : ℕ) (S : List Fact) (duties : List Duty) →
        AreAll (IsDuty home S) (comes_first S) duties → NamesNobodyTwice duties }
    ensures view { (S : List Fact) (view : View) (me : ℕ) → IsSettled S → StandsFor S view →
        1 ≤ me → me ≤ length view.front → NamesNobodyTwice (duties_of view me) }
{}

/// No participant is called twice at a time: the one whose duty is taken was not being called
/// before, and is called once now; and no call to any other participant begins.
pub fn who_is_taken_was_not_called()
    ensures begins { (old new : Calling) (duty : Duty) →
        HasEachOnce old → IsTakenFrom old new (Some duty) → BeginsOnce (called_of duty) old new }
    ensures keeps { (old new : Calling) (duty : Duty) →
        HasEachOnce old → IsTakenFrom old new (Some duty) → HasEachOnce new }
{}

/// Every other event keeps each participant there once, and leaves alone the other participants
/// that are being called. These events are: pauses that are over; and for a participant that is
/// being called, that its call ends, was answered, found it busy, or failed, and that it is
/// forgotten.
pub fn who_is_called_is_left_alone()
    ensures resumed { (at : Option Duration) (now : Duration) (old new : Calling) (may : Bool) →
        ResumesAt at now old new may → HasEachOnce old →
        HasEachOnce new × ((who : TheCalled) → calls_of who new.slips ≡ calls_of who old.slips) }
    ensures ended { (duty : Duty) (pace : ThePace) (now : Calling) →
        HasEachOnce now → HasEachOnce (ended duty pace now) }
    ensures found { (duty : Duty) (now : Duration) (old new : Calling) (plight : Option ThePlight) →
        IsFound (place_of (called_of duty) old.slips) duty now old new plight →
        (HasEachOnce old → HasEachOnce new)
        × ((who : TheCalled) → calls_of who new.slips ≡ calls_of who old.slips) }
    ensures busy { (who : TheCalled) (now : Duration) (old new : Calling) →
        IsBusyAt (place_of who old.slips) now old new →
        (IsBeingCalled who old → HasEachOnce old → HasEachOnce new) × LeavesOthers who old new }
    ensures missed { (duty : Duty) (came : TheCame) (now : Duration)
        (old new : Calling) (plight : Option ThePlight) →
        IsMissed (place_of (called_of duty) old.slips) duty came now old new plight →
        (IsBeingCalled (called_of duty) old → HasEachOnce old → HasEachOnce new)
        × LeavesOthers (called_of duty) old new }
    ensures forgotten { (who : TheCalled) (old : Calling) →
        (IsBeingCalled who old → HasEachOnce old → HasEachOnce (forgotten who old))
        × LeavesOthers who old (forgotten who old) }
    ensures none { HasEachOnce nothing }
{}

/// A participant is called only for what the last list names. By the contract of `put_all`, every
/// duty that is queued or kept is of that list, and no call is under way that began after the list
/// came. So if a call that began before the list fails, it is repeated only for what the list has,
/// and otherwise forgotten. A call that began after the list is for what was named
/// (`who_is_taken_was_named`), and is repeated for the same. Only a call that begins turns one of
/// the first kind into one of the second.
pub fn only_what_the_last_list_names_is_called()
    ensures before { (test : Duty → Bool) (duty : Duty) (came : TheCame) (now : Duration)
        (old new : Calling) (plight : Option ThePlight) →
        IsMissed (place_of (called_of duty) old.slips) duty came now old new plight →
        HasEachOnce old → IsBeingCalled (called_of duty) old →
        current_of (called_of duty) old.slips ≡ 0 → AllNamed test old → AllNamed test new }
    ensures behind { (test : Duty → Bool) (duty : Duty) (came : TheCame) (now : Duration)
        (old new : Calling) (plight : Option ThePlight) →
        IsMissed (place_of (called_of duty) old.slips) duty came now old new plight →
        Passes test duty → AllNamed test old → AllNamed test new }
    ensures taken { (who : TheCalled) (old new : Calling) (duty : Duty) →
        IsTakenFrom old new (Some duty) → same_called (called_of duty) who ≡ false →
        current_of who new.slips ≡ current_of who old.slips }
    ensures resumed { (at : Option Duration) (now : Duration) (old new : Calling) (may : Bool) →
        ResumesAt at now old new may → HasEachOnce old → BeginsNoCall old new }
    ensures ended { (duty : Duty) (pace : ThePace) (now : Calling) →
        BeginsNoCall now (ended duty pace now) }
    ensures found { (duty : Duty) (now : Duration) (old new : Calling) (plight : Option ThePlight) →
        IsFound (place_of (called_of duty) old.slips) duty now old new plight →
        BeginsNoCall old new }
    ensures busy { (who : TheCalled) (now : Duration) (old new : Calling) →
        IsBusyAt (place_of who old.slips) now old new → BeginsNoCall old new }
    ensures missed { (duty : Duty) (came : TheCame) (now : Duration)
        (old new : Calling) (plight : Option ThePlight) →
        IsMissed (place_of (called_of duty) old.slips) duty came now old new plight →
        HasEachOnce old → BeginsNoCall old new }
    ensures forgotten { (who : TheCalled) (old : Calling) →
        BeginsNoCall old (forgotten who old) }
{}

/// So, whatever happens between two lists, each call that begins is for what the first of them has:
/// its duty passes each test that all duties of that list pass.
pub fn between_two_lists_only_what_the_first_names_is_called()
    ensures { (list : List Duty) (events : List Event) (old new : Calling) (test : Duty → Bool) →
        HasEachOnce old → NamesOnly old list → ((who : TheCalled) → current_of who old.slips ≡ 0) →
        Happen [] events old new → All (Passes test) list → All (Passes test) (begun_in [] events) }
{}
