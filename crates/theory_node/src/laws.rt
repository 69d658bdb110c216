// Laws of a node's state over whatever calls come. Each function does nothing, and its contract is the
// law.
ghost use Rattle.std.specs.Prelude.{◌≡◌, ◌<◌, ◌≤◌, ℕ, List, None, Option, Some, false, length, true};
ghost use Rattle.std.specs.declared.time.Duration.{Duration as TheDuration};
ghost use Rattle.state_ids.specs.Fronts.{IsBelow, count};
ghost use Rattle.state_ids.specs.declared.TheConstants.{LAST_NUMBER};
ghost use Rattle.node_inbox.specs.Tellings.{Told};
ghost use Rattle.node_replication.specs.Followers.{wants_any};
ghost use Rattle.node_agenda.specs.Sweeps.{Sweeps as TheSweeps};
ghost use Rattle.node_agenda.specs.Tasks.{StoresNothing};
ghost use Rattle.node_agenda.specs.declared.task.Task.{Task as TheTask};
ghost use Rattle.node_core.specs.Calls.{Admits, Admitted, IsSettled};
ghost use Rattle.node_core.specs.Nodes.{unready};
ghost use Rattle.node_core.specs.Pulls.{IsReceived, casts_doubt};
ghost use Rattle.node_core.specs.Turns.{IsNext};
ghost use Rattle.node_core.specs.declared.calls.AskedCall.{AskedCall as TheAsked};
ghost use Rattle.node_core.specs.declared.calls.Caller.TheVariants.{Worker as AWorker};
ghost use Rattle.node_core.specs.declared.calls.CallResult.{CallResult as TheResult};
ghost use Rattle.node_core.specs.declared.calls.ReplyKind.TheVariants.{Gave as ItGave};
ghost use Rattle.node_core.specs.declared.node_state.NodeState.{NodeState as TheNode};
ghost use Rattle.node_core.specs.declared.node_state.Unready.TheVariants.{Copies as WantsCopies};
ghost use Rattle.node_core.specs.declared.pulling.Receipt.TheVariants.{Newer as HasNewer};
ghost use Rattle.theory_node.specs.Happenings.{DoubtGoesOn, DoubtIsCast, FactIsStored, FrameIsGiven, PullIsHeld};
ghost use Rattle.theory_node.specs.Parts.{IsPartCall};
ghost use Rattle.theory_node.specs.Steps.{AreSteps, IsApart, IsInDoubt, IsReached, WasDoubted};

use node_agenda::laws::nothing_is_entered_before_the_others_are_heard;
use node_core::laws::{each_frame_that_was_given_is_known, who_is_in_doubt_stores_nothing};

/// What a thread does to one part of the state by itself leaves alone what a start waits for, how many
/// facts the node knows of, and whether it is in doubt. So it is one of the steps of the other laws.
pub fn what_is_done_to_one_part_is_apart()
    ensures { (old new : TheNode) → IsPartCall old new → IsApart old new }
{}

/// A node of a group has a place in the lists of its state, whatever calls come. That is what the laws of
/// `node_core` ask of a state.
pub fn a_node_has_its_place()
    ensures { (n : TheNode) → IsReached n →
        (1 ≤ n.mail.opening.me) × (n.mail.opening.me ≤ length n.mail.opening.awaited)
        × (length n.mail.known.front ≡ length n.mail.opening.awaited) }
{
    who_is_in_doubt_stores_nothing();
}

/// One in doubt stays in doubt until its process ends, whatever calls come. A telling casts doubt if it has
/// more facts of this node than this one knows of, although commands are accepted, a fact was stored, and
/// copies are wanted. From then on no worker's call is admitted that may store something, and operators see
/// why. Until the node has all facts that there can be, commands stay barred too, and the writer thread has
/// no task that stores something. A call that was admitted before that may still store something.
pub fn one_in_doubt_stays_in_doubt()
    ensures cast { (asked : List ℕ) (seen : ℕ) (told : Told) (old new : TheNode) (left : Option Told) →
        IsReached old → wants_any old.followers ≡ true → old.has_entered ≡ true → old.mail.opening.is_open ≡ true →
        IsReceived asked seen told old new HasNewer left → IsInDoubt new }
    ensures stays { (old new : TheNode) → IsInDoubt old → AreSteps old new →
        count new.mail.known.front new.mail.opening.me < LAST_NUMBER → IsInDoubt new }
    ensures refused { (asked : TheAsked) (place : ℕ) (now : TheDuration) (old new later : TheNode) (result : Option Admitted) →
        IsInDoubt old → AreSteps old new → asked.enters ≡ true →
        Admits AWorker asked place now new later result → (result ≡ None) × (later ≡ new) }
    ensures rests { (now : TheDuration) (old new later : TheNode) (task : TheTask) →
        IsInDoubt old → AreSteps old new → count new.mail.known.front new.mail.opening.me < LAST_NUMBER →
        IsNext now new later task → StoresNothing task }
    ensures says { (now : TheDuration) (old new : TheNode) → IsInDoubt old → AreSteps old new →
        new.is_ending ≡ false → unready now new ≡ Some WantsCopies }
{
    who_is_in_doubt_stores_nothing();
    nothing_is_entered_before_the_others_are_heard();
}

/// Nobody is in doubt without a cause: since its start the node received a telling that cast doubt on it.
pub fn nobody_is_in_doubt_without_a_cause()
    ensures { (n : TheNode) → IsReached n → n.followers.is_doubted ≡ true → WasDoubted n }
{
    who_is_in_doubt_stores_nothing();
}

/// What was given stays known: the front of a frame that a node gave stays below the node's own front,
/// whatever calls come. So a telling that casts doubt has facts of this node that no earlier frame of it had.
pub fn what_was_given_stays_known()
    ensures grows { (old new : TheNode) → AreSteps old new → IsBelow old.mail.known.front new.mail.known.front }
    ensures known { (a : Admitted) (came : TheResult) (now : TheDuration) (old new later : TheNode) (ticket : Option ℕ) (front : List ℕ) →
        came.kind ≡ ItGave front → length front ≡ length old.mail.known.front →
        IsSettled a came now old new ticket → AreSteps new later → IsBelow front later.mail.known.front }
    ensures newer { (a : Admitted) (came : TheResult) (now : TheDuration) (old new later : TheNode) (ticket : Option ℕ) (front : List ℕ) (told : Told) →
        came.kind ≡ ItGave front → length front ≡ length old.mail.known.front →
        IsSettled a came now old new ticket → AreSteps new later → casts_doubt told later ≡ true →
        count front later.me < count told.frame.front later.me }
{
    who_is_in_doubt_stores_nothing();
    each_frame_that_was_given_is_known();
}

/// What these laws and those of `node_core` speak of does happen. Node 1 of two counts its facts, hears
/// from node 2, accepts commands and stores a fact. A pull of node 2 waits for four seconds. Then node 2
/// sends more facts of node 1 than there are, and node 1 is in doubt from then on.
pub fn these_happen()
    ensures given { (sweeping : TheSweeps) → FrameIsGiven }
    ensures stored { (sweeping : TheSweeps) → FactIsStored }
    ensures held { (sweeping : TheSweeps) → PullIsHeld }
    ensures cast { (sweeping : TheSweeps) → DoubtIsCast }
    ensures goes_on { (sweeping : TheSweeps) → DoubtGoesOn }
{}
