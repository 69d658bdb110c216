// Laws of a node's state. Each function does nothing, and its contract is the law.
ghost use Rattle.std.specs.Prelude.{◌≡◌, ◌≢◌, ◌<◌, ◌≤◌, ◌+◌, ℕ, Bool, List, Option, Some, false, length, true};
ghost use Rattle.std.specs.Duration.{as_nanos};
ghost use Rattle.std.specs.declared.time.Duration.{Duration as TheDuration};
ghost use Rattle.state_ids.specs.Fronts.{IsBelow, count};
ghost use Rattle.state_ids.specs.declared.TheConstants.{LAST_NUMBER};
ghost use Rattle.node_inbox.specs.Tellings.{Told};
ghost use Rattle.node_replication.specs.Followers.{wants_any};
ghost use Rattle.node_replication.specs.Spreads.{next_ticket};
ghost use Rattle.node_replication.specs.declared.standing.PullDecision.{PullDecision as TheDecision};
ghost use Rattle.node_replication.specs.declared.standing.PullDecision.TheVariants.{Later as WaitsLonger};
ghost use Rattle.node_agenda.specs.Starts.{IsOpened, heard_by};
ghost use Rattle.node_agenda.specs.declared.start_state.StartState.{StartState as TheStart};
ghost use Rattle.node_core.specs.Calls.{Admitted, IsSettled, is_admitted};
ghost use Rattle.node_core.specs.Doubts.{IsBarred};
ghost use Rattle.node_core.specs.Pulls.{IsJudged, after_told, casts_doubt, owes};
ghost use Rattle.node_core.specs.declared.calls.AskedCall.{AskedCall as TheAsked};
ghost use Rattle.node_core.specs.declared.calls.Caller.TheVariants.{Worker as AWorker};
ghost use Rattle.node_core.specs.declared.calls.CallResult.{CallResult as TheResult};
ghost use Rattle.node_core.specs.declared.calls.CallStep.TheVariants.{Enters as ItEnters};
ghost use Rattle.node_core.specs.declared.calls.ReplyKind.TheVariants.{Gave as ItGave, Stored as ItStored};
ghost use Rattle.node_core.specs.declared.node_state.NodeState.{NodeState as TheNode};
ghost use Rattle.node_core.specs.declared.pulling.AskedPull.{AskedPull as ThePull};

/// A node that is in doubt stores nothing more of its own. Another node sent facts of this node that
/// this one never gave, so two processes may have its number. From then on no worker's call is
/// admitted that may store something, and commands are barred: the opening is closed, and it doesn't
/// open at a look unless the node has all facts that there can be. What other nodes send later changes
/// nothing of that.
pub fn who_is_in_doubt_stores_nothing()
    ensures told { (told : Told) (n : TheNode) → casts_doubt told n ≡ true → 1 ≤ n.mail.opening.me →
        n.mail.opening.me ≤ length n.mail.opening.awaited →
        ((after_told told n).followers.is_doubted ≡ true) × IsBarred (after_told told n).mail.opening }
    ensures refused { (now : TheDuration) (asked : TheAsked) (n : TheNode) → n.followers.is_doubted ≡ true →
        asked.enters ≡ true → is_admitted AWorker asked now n ≡ false }
    ensures looked { (now : TheDuration) (front : List ℕ) (old new : TheStart) (opens : Bool) → IsBarred old →
        count front old.me < LAST_NUMBER → IsOpened now front old new opens → (opens ≡ false) × IsBarred new }
    ensures heard { (other : ℕ) (told known : List ℕ) (o : TheStart) → IsBarred o → IsBarred (heard_by other told known o) }
{}

/// An answer waits for what its call stored: if a worker's call stored a fact and copies are wanted,
/// its answer waits for the ticket of that fact, which is drawn then.
pub fn an_answer_waits_for_what_its_call_stored()
    ensures { (a : Admitted) (came : TheResult) (now : TheDuration) (old new : TheNode) (ticket : Option ℕ) →
        a.caller ≡ AWorker → a.step ≡ ItEnters → came.kind ≡ ItStored → wants_any old.followers ≡ true →
        IsSettled a came now old new ticket → ticket ≡ Some (next_ticket old.followers.spread) }
{}

/// A node knows of each fact that it gave: once a frame is given, the node's own front is above it. So
/// if another node has more facts of this one, they weren't given by this process.
pub fn each_frame_that_was_given_is_known()
    ensures { (a : Admitted) (came : TheResult) (now : TheDuration) (old new : TheNode) (ticket : Option ℕ) (front : List ℕ) →
        came.kind ≡ ItGave front → length front ≡ length old.mail.known.front →
        IsSettled a came now old new ticket → IsBelow front new.mail.known.front }
{}

/// A pull is held for at most four seconds, unless its node is owed facts of its own.
pub fn a_pull_is_held_for_four_seconds()
    ensures { (pull : ThePull) (since now : TheDuration) (old new : TheNode) (decision : TheDecision) →
        owes pull old ≡ false → pull.since ≡ Some since → as_nanos since + 4_000_000_000 ≤ as_nanos now →
        IsJudged pull now old new decision → decision ≢ WaitsLonger }
{}
