// Laws of the agenda: turns of tasks, starts, purges, and callbacks that are put off. Each function
// does nothing, and its contract is the law.
ghost use Rattle.std.specs.Prelude.{◌≡◌, ◌≢◌, ◌⊎◌, ◌<◌, ◌≤◌, [], ℕ, Bool, List, None, Option, Some, false, length, true};
ghost use Rattle.std.specs.Duration.{as_nanos};
ghost use Rattle.std.specs.declared.time.Duration.{Duration as TheDuration};
ghost use Rattle.state_ids.specs.Fronts.{count};
ghost use Rattle.state_ids.specs.Ids.{Id};
ghost use Rattle.state_ids.specs.declared.status.LraStatus.{LraStatus as TheStatus};
ghost use Rattle.wire_callbacks.specs.declared.duty.Duty.{Duty};
ghost use Rattle.node_inbox.specs.Letters.{Said};
ghost use Rattle.node_inbox.specs.Tellings.{Told};
ghost use Rattle.node_schedule.specs.Named.{AllNamed};
ghost use Rattle.node_schedule.specs.Slips.{called_of};
ghost use Rattle.node_schedule.specs.declared.slip.Called.{Called as TheCalled};
ghost use Rattle.node_agenda.specs.Hearing.{IsListed, IsNoted};
ghost use Rattle.node_agenda.specs.Kept.{Kept};
ghost use Rattle.node_agenda.specs.Backlogs.{AreInPlace, HasPlaces, IsFirstBehind, IsKept, IsTaken, after_end, after_put, is_owed, no_backlog, own_of, steps_to};
ghost use Rattle.node_agenda.specs.Mail.{Mail};
ghost use Rattle.node_agenda.specs.Noted.{Notes, freed_by, with_became};
ghost use Rattle.node_agenda.specs.Since.{IsHeardIn, is_unheard};
ghost use Rattle.node_agenda.specs.declared.effects.Became.{Became as TheBecame};
ghost use Rattle.node_agenda.specs.declared.effects.Effects.{Effects as TheNoted};
ghost use Rattle.node_agenda.specs.Resting.{has_task, is_occupied, rests_until};
ghost use Rattle.node_agenda.specs.Sweeps.{AreSince, IsNextChore, IsSeen, Root, Sight, Sweeps, WasKept, first_due, is_chore, kept_of, last_seen, left_by, next_pause, sights_after, sweeps, time_of, turned};
ghost use Rattle.node_agenda.specs.declared.backlog.Backlog.{Backlog as TheBacklog};
ghost use Rattle.node_agenda.specs.declared.backlog.Taking.{Taking as TheTaking};
ghost use Rattle.node_agenda.specs.declared.sweep.Chore.{Chore as TheChore};
ghost use Rattle.node_agenda.specs.declared.sweep.Chore.TheVariants.{List as ToList, Purge};
ghost use Rattle.node_agenda.specs.declared.sweep.Purged.{Purged as ThePurged};
ghost use Rattle.node_agenda.specs.declared.sweep.TheConstants.{FIRST_PAUSE_MS, LAST_PAUSE_MS};
ghost use Rattle.node_agenda.specs.Tasks.{IsFirstAfter, IsNextTask, StoresNothing, may_enter, turns_to};
ghost use Rattle.node_agenda.specs.declared.task.Task.{Task as TheTask};
ghost use Rattle.node_agenda.specs.declared.turn.Turn.{Turn as TheTurn};

/// Each kind of task gets its turn: while there is a task of a kind, it is done, or its turn comes
/// nearer. So at most one task of each other kind goes before it.
pub fn each_kind_has_its_turn()
    ensures nearer { (is_there : TheTurn → Bool) (last next kind : TheTurn) →
        IsFirstAfter last is_there next → is_there kind ≡ true →
        (next ≡ kind) ⊎ (turns_to next kind < turns_to last kind) }
    ensures few { (last kind : TheTurn) → turns_to last kind ≤ 7 }
{}

/// The writer thread never waits beyond the moment when there is something to do: nothing in the
/// mailbox becomes a task before the wait is over. Chores are the exception: it looks for them
/// every quarter of a second.
pub fn a_wait_is_over_when_there_is_a_task()
    ensures { (mail : Mail) (now later : TheDuration) →
        is_chore later mail.sweeps ≡ is_chore now mail.sweeps →
        is_occupied now mail ≡ false → as_nanos now ≤ as_nanos later →
        has_task later mail ≡ true → as_nanos (rests_until now mail) ≤ as_nanos later }
{}

/// Nothing is purged before its time. A root is remembered with the moment since when looks have
/// shown what its tree shows: the look at that moment did, and so has each look since. The tree is
/// purged, as one that shows this, only once that moment is as long ago as trees that show this are
/// to be kept. Whatever else happens, what is remembered stays true.
pub fn nothing_is_purged_before_its_time()
    ensures none { AreSince [] [] }
    ensures seen { (now : TheDuration) (id : Id) (shown seen : TheStatus) (sights : List Sight) (old new : Sweeps) →
        IsSeen now id shown seen old new → AreSince sights old.ended →
        AreSince (sights_after now id seen old sights) new.ended }
    ensures turned { (more : Bool) (sights : List Sight) (s : Sweeps) →
        AreSince sights s.ended → AreSince sights (turned more s).ended }
    ensures purged { (purged : ThePurged) (id : Id) (now : TheDuration) (sights : List Sight) (s : Sweeps) →
        AreSince sights s.ended → AreSince sights (left_by purged id now s).ended }
    ensures noted { (became : TheBecame) (took : Bool) (freed : Option Id) (now : TheDuration) (sights : List Sight) (s : Sweeps) →
        AreSince sights s.ended → AreSince sights (freed_by took freed now (with_became became s)).ended }
    ensures lists { (now : TheDuration) (beyond : Option Id) (sights : List Sight) (old new : Sweeps) →
        IsNextChore now old new (Some (ToList beyond)) → AreSince sights old.ended →
        AreSince sights new.ended }
    ensures purges { (now : TheDuration) (kept : Kept) (sights : List Sight) (old new : Sweeps) →
        IsNextChore now old new (Some (Purge kept)) → AreSince sights old.ended →
        WasKept old.keep now kept sights × (new ≡ old) }
{}

/// What is due is purged. While no look is under way, the next chore is the purge of the first root
/// that is due. A look goes on beyond the last LRA that it was shown. A purge that is tried again
/// is tried after at least a second, and at most a minute.
pub fn what_is_due_is_purged()
    ensures due { (now : TheDuration) (root : Root) (old new : Sweeps) (chore : Option TheChore) →
        sweeps old ≡ true → old.looks ≡ false → first_due old.keep now old.ended ≡ Some root →
        IsNextChore now old new chore → chore ≡ Some (Purge (kept_of root)) }
    ensures goes_on { (now later : TheDuration) (id : Id) (shown seen : TheStatus) (old new next : Sweeps) (chore : Option TheChore) →
        IsSeen now id shown seen old new → sweeps new ≡ true → new.looks ≡ true →
        IsNextChore later new next chore → chore ≡ Some (ToList (Some id)) }
    ensures pauses { (pause : ℕ) → (FIRST_PAUSE_MS ≤ next_pause pause) × (next_pause pause ≤ LAST_PAUSE_MS) }
{}

/// What is kept for ever is never purged: a tree that last showed that it is still going on, or a
/// status whose trees are kept for ever.
pub fn what_is_kept_for_ever_is_never_purged()
    ensures { (now : TheDuration) (kept : Kept) (seen : TheStatus) (sights : List Sight) (old new : Sweeps) →
        IsNextChore now old new (Some (Purge kept)) → AreSince sights old.ended →
        last_seen kept.root sights ≡ Some seen → time_of old.keep seen ≡ None → ⊥ }
{}

/// Before the other nodes are heard, and while nothing may be stored because the journal failed,
/// the writer thread does nothing that stores a fact of the node's own, not even for operators: it
/// has no such task.
pub fn nothing_is_entered_before_the_others_are_heard()
    ensures { (now : TheDuration) (old new : Mail) (task : TheTask) →
        may_enter now old ≡ false → IsNextTask now old new task → StoresNothing task }
{}

/// A node that is answered lacks none of its own facts that it sent here, except those that are
/// stored here and so are in the answer. What it is owed stays owed until that is stored or given
/// up: whatever else comes, is being taken, is taken or given up, and also if the journal couldn't
/// take it, so that it waits again.
pub fn who_is_answered_lacks_nothing_that_it_told()
    ensures told { (told : Told) (asks front : List ℕ) (b : TheBacklog) → HasPlaces b → 1 ≤ told.from → told.from ≤ 8 →
        is_owed told.from asks front (after_put told b) ≡ false →
        (own_of told ≤ count asks told.from) ⊎ (own_of told ≤ count front told.from) }
    ensures put { (told : Told) (from : ℕ) (asks front : List ℕ) (b : TheBacklog) → HasPlaces b → 1 ≤ from →
        1 ≤ told.from → told.from ≤ 8 →
        is_owed from asks front b ≡ true → is_owed from asks front (after_put told b) ≡ true }
    ensures taken { (now : TheDuration) (from : ℕ) (asks front : List ℕ) (old new : TheBacklog) (told : Told) →
        HasPlaces old → 1 ≤ from → IsTaken now old new told →
        is_owed from asks front old ≡ true → is_owed from asks front new ≡ true }
    ensures kept { (now : TheDuration) (told : Told) (from : ℕ) (asks front : List ℕ) (old new : TheBacklog) →
        HasPlaces old → 1 ≤ from → 1 ≤ told.from → told.from ≤ 8 →
        old.taking ≡ Some (record { from = told.from; own = own_of told }) → IsKept now told old new →
        is_owed from asks front old ≡ true → is_owed from asks front new ≡ true }
    ensures left { (taking : TheTaking) (is_taken : Bool) (from : ℕ) (asks front : List ℕ) (b : TheBacklog) →
        b.taking ≡ Some taking → from ≢ taking.from →
        is_owed from asks front b ≡ true → is_owed from asks front (after_end is_taken b) ≡ true }
    ensures empty { (me : ℕ) → HasPlaces (no_backlog me) }
{}

/// What waits at a node's place came from that node: at first, and after each call. So what is being
/// taken came from the node that is owed it, as the law on what a node is owed asks.
pub fn what_waits_is_at_its_nodes_place()
    ensures empty { (me : ℕ) → AreInPlace (no_backlog me) }
    ensures put { (told : Told) (b : TheBacklog) → HasPlaces b → 1 ≤ told.from → told.from ≤ 8 →
        AreInPlace b → HasPlaces (after_put told b) × AreInPlace (after_put told b) }
    ensures taken { (now : TheDuration) (old new : TheBacklog) (told : Told) → HasPlaces old → AreInPlace old →
        IsTaken now old new told →
        HasPlaces new × AreInPlace new
        × (new.taking ≡ Some (record { from = told.from; own = own_of told })) }
    ensures kept { (now : TheDuration) (told : Told) (old new : TheBacklog) → HasPlaces old → 1 ≤ told.from → told.from ≤ 8 →
        AreInPlace old → IsKept now told old new → HasPlaces new × AreInPlace new }
    ensures ended { (is_taken : Bool) (b : TheBacklog) → HasPlaces b → AreInPlace b →
        HasPlaces (after_end is_taken b) × AreInPlace (after_end is_taken b) }
{}

/// What a node sent waits for at most one telling of each other node: while it is to be taken, it is
/// taken, or its turn comes nearer.
pub fn each_node_has_its_turn()
    ensures { (is_there : ℕ → Bool) (last next node : ℕ) → 1 ≤ last → last ≤ 8 → 1 ≤ node → node ≤ 8 →
        IsFirstBehind last is_there next → is_there node ≡ true →
        (next ≡ node) ⊎ (steps_to next node < steps_to last node) }
{}

/// No list calls a participant for what was learned after the list was asked for. While a list is
/// pending, each participant whose answer is recorded, and each whose outcome is reported, is
/// marked as heard from, and stays so. Of the list, only the duties of participants that weren't
/// heard from are put. If memory ran out for marking one, nothing of the list is put, and a new one
/// is asked for.
pub fn nobody_is_called_for_what_was_heard_behind_the_asking()
    ensures answered { (said : Said) (now : TheDuration) (old new : Mail) → old.since.is_out ≡ true →
        IsNoted said now old new → IsHeardIn (called_of said.duty) new.since }
    ensures said { (noted : TheNoted) (who : TheCalled) (now : TheDuration) (old new : Mail) → old.since.is_out ≡ true → noted.heard ≡ Some who →
        Notes noted now old new → IsHeardIn who new.since }
    ensures answered_stays { (one : TheCalled) (said : Said) (now : TheDuration) (old new : Mail) →
        IsNoted said now old new → IsHeardIn one old.since → IsHeardIn one new.since }
    ensures said_stays { (noted : TheNoted) (one : TheCalled) (now : TheDuration) (old new : Mail) →
        Notes noted now old new → IsHeardIn one old.since → IsHeardIn one new.since }
    ensures put { (duties : List Duty) (now : TheDuration) (old new : Mail) → old.since.is_whole ≡ true →
        IsListed duties now old new → AllNamed (is_unheard old.since.heard) new.calls }
    ensures let_go { (test : Duty → Bool) (duties : List Duty) (now : TheDuration) (old new : Mail) → old.since.is_whole ≡ false →
        IsListed duties now old new → AllNamed test old.calls → AllNamed test new.calls × (new.asking.is_stirred ≡ true) }
{}
