//! Laws of progress. Each function does nothing, and its contract is the law. No law mentions time,
//! and none assumes fairness.
pub mod asked;
pub mod bound;
pub mod diagram;
pub mod order;

ghost use Rattle.std.specs.Prelude.{◌≡◌, ◌⊎◌, ◌≤◌, ◌<◌, ◌+◌, ◌↔◌, ℕ, List, Some, false, is_some, length, replicate, true};
ghost use Rattle.std.specs.List.{list_any};
ghost use Rattle.state_ids.specs.Fronts.{IsBelow, count};
ghost use Rattle.state_ids.specs.Ids.{Id, last_number};
ghost use Rattle.state_ids.specs.declared.outcome.Outcome.{Outcome as TheOutcome};
ghost use Rattle.state_ids.specs.declared.outcome.Verdict.{Verdict as TheVerdict};
ghost use Rattle.state_ids.specs.declared.outcome.Verdict.TheVariants.{Close};
ghost use Rattle.state_facts.specs.declared.fact.Fact.{Fact};
ghost use Rattle.state_facts.specs.Duties.{is_pending};
ghost use Rattle.state_facts.specs.Lists.{In};
ghost use Rattle.state_facts.specs.Sets.{is_ended, is_held, is_root, want};
ghost use Rattle.state_facts.specs.declared.command.Command.TheVariants.{Purge, Report};
ghost use Rattle.theory_history.specs.Growth.{IsSettled};
ghost use Rattle.theory_history.specs.Histories.{History, IsClosed, IsLawful, entries_of, facts};
ghost use Rattle.theory_history.specs.Replies.{Accepted, judge};
ghost use Rattle.theory_history.specs.Views.{IsCounted, StandsFor, View};
ghost use Rattle.state_replica.specs.ViewDues.{compensations_of, completions_of};
ghost use Rattle.wire_frames.specs.declared.version.Version.TheVariants.{Two};
ghost use Rattle.wire_callbacks.specs.declared.duty.Duty.{Duty};
ghost use Rattle.wire_callbacks.specs.CallDuties.{due_of};
ghost use Rattle.wire_callbacks.specs.ViewDuties.{duties_of};
ghost use Rattle.script_world.specs.declared.event.Event.{Event};
ghost use Rattle.script_world.specs.declared.event.Event.TheVariants.{Deliver, Send};
ghost use Rattle.script_world.specs.declared.event.EventReply.{EventReply};
ghost use Rattle.script_world.specs.declared.event.EventReply.TheVariants.{Sent, Took};
ghost use Rattle.script_world.specs.Headline.{Agree, IsNode};
ghost use Rattle.script_world.specs.Worlds.{IsEncoded, IsViewOf, IsWorld, Runs, SentFrame, State, Steps, frame_at, front_of, nodes_of, set_of, start};
ghost use Rattle.theory_progress.specs.Calls.{HearsAnEnd, IsActUnder, IsCallUnder, IsUnderWay, answers_left, asks_to_act, open_under, saga_of};
ghost use Rattle.theory_progress.specs.Ends.{CanEnd, CanPurge, GetAnswered, GetsAnswered, GoOn, GoesOn, last_state};
ghost use Rattle.theory_progress.specs.Rounds.{CanTell, HasRound, HearsOf, IsRound, all_counted, may_enter};

/// Nothing decided is stuck. If an LRA shows Closing or Cancelling by a set, then by that set some
/// participant is to be called to complete or to compensate. That is a participant of this LRA or
/// of one nested in it. If an LRA above it is cancelled, it is one under the topmost cancelled LRA.
///
/// This holds for every set that a node may hold, and at each node in each state of the world. Only
/// the home makes calls, and it goes by its own set. So if the home shows the LRA so, its list has
/// such a call now (`home`). By the clause `next` of `wire_callbacks::pick` that list is `duties_of`
/// of the replica's view, and the participant is one that `complete_duties` or `next_compensations`
/// lists for that view. Another node may show Closing for an LRA that has ended at its home, until
/// a frame brings that news.
pub fn nothing_is_stuck()
    ensures set { (S : List Fact) (l : Id) → IsSettled S → IsUnderWay S l →
        (call : Duty) × IsActUnder S (saga_of S l) call }
    ensures world { (s : State) (node : ℕ) (l : Id) →
        IsWorld s → IsNode s node → IsUnderWay (set_of s node) l →
        (call : Duty) × IsActUnder (set_of s node) (saga_of (set_of s node) l) call }
    ensures listed { (S : List Fact) (view : View) (l : Id) →
        IsSettled S → StandsFor S view → IsUnderWay S l →
        (call : Duty) × In call (duties_of view l.home) × IsActUnder S (saga_of S l) call }
    ensures home { (s : State) (view : View) (l : Id) → IsWorld s → IsNode s l.home →
        IsViewOf s.history (front_of s l.home) view → IsUnderWay (set_of s l.home) l →
        (call : Duty) × In call (duties_of view l.home)
        × IsActUnder (set_of s l.home) (saga_of (set_of s l.home) l) call }
    ensures due { (view : View) (home : ℕ) (call : Duty) →
        In call (duties_of view home) → asks_to_act call.kind ≡ true →
        In (due_of call) (completions_of view home) ⊎ In (due_of call) (compensations_of view home) }
{}

/// A root, or an LRA that is to close, waits only for participants under itself. Wherever an LRA
/// waits: once the LRA there has ended, it has ended too.
pub fn an_lra_ends_with_its_saga()
    ensures root { (S : List Fact) (l : Id) →
        IsSettled S → is_root S l ≡ true → saga_of S l ≡ l }
    ensures closing { (S : List Fact) (l : Id) →
        IsSettled S → want S l ≡ Some Close → saga_of S l ≡ l }
    ensures ends { (S : List Fact) (l : Id) →
        IsSettled S → is_ended S (saga_of S l) ≡ true → is_ended S l ≡ true }
{}

/// The answer is taken. If such a call ended as done or failed, the report of that is accepted at
/// every node that holds the set, unless the node has given its last number.
pub fn an_end_is_accepted()
    ensures { (S : List Fact) (v : List ℕ) (node : ℕ)
        (l : Id) (call : Duty) (outcome : TheOutcome) →
        IsCounted S v → IsActUnder S l call →
        is_pending (Some outcome) ≡ false → count v node < last_number →
        judge S v node (Report call.id call.member call.act outcome) ≡ Accepted }
{}

/// The number of open participants never rises. While an LRA wants the same, there are never more
/// participants under it that are not final, whatever else is entered. Each end that is heard of a
/// call under it leaves fewer, and the LRA has ended exactly when there are none.
pub fn open_participants_only_get_fewer()
    ensures stays { (h : History) (v w : List ℕ) (l : Id) (verdict : TheVerdict) →
        IsLawful h → IsClosed h v → IsClosed h w → IsBelow v w →
        want (facts h v) l ≡ Some verdict → want (facts h w) l ≡ Some verdict →
        open_under (facts h w) l ≤ open_under (facts h v) l }
    ensures falls { (h : History) (v w : List ℕ) (l : Id) (verdict : TheVerdict) →
        IsLawful h → IsClosed h v → IsClosed h w → IsBelow v w →
        want (facts h v) l ≡ Some verdict → want (facts h w) l ≡ Some verdict →
        HearsAnEnd (facts h v) (facts h w) l → open_under (facts h w) l < open_under (facts h v) l }
    ensures none { (S : List Fact) (l : Id) → is_some (want S l) ≡ true →
        (is_ended S l ≡ true) ↔ (open_under S l ≡ 0) }
{}

/// The same holds at a node of the world, whatever happens there and elsewhere. While an LRA wants
/// the same at the node, the number of ends heard of calls under it is at most the number of
/// participants open there. After that many ends the LRA has ended.
pub fn after_so_many_ends_it_has_ended()
    ensures stays { (s t : State) (events : List Event) (replies : List EventReply)
        (node : ℕ) (l : Id) (verdict : TheVerdict) →
        IsWorld s → Runs s events replies t → IsNode s node →
        want (set_of s node) l ≡ Some verdict → want (set_of t node) l ≡ Some verdict →
        open_under (set_of t node) l ≤ open_under (set_of s node) l }
    ensures most { (s : State) (ts : List State) (node : ℕ) (l : Id) (verdict : TheVerdict) →
        IsWorld s → IsNode s node → want (set_of s node) l ≡ Some verdict →
        GoOn node l s ts → length ts ≤ open_under (set_of s node) l }
    ensures ended { (s : State) (ts : List State) (node : ℕ) (l : Id) (verdict : TheVerdict) →
        IsWorld s → IsNode s node → want (set_of s node) l ≡ Some verdict →
        GoOn node l s ts → length ts ≡ open_under (set_of s node) l →
        is_ended (set_of (last_state s ts) node) l ≡ true }
{}

/// What is under way can be ended. From each state of the world, answers alone lead to a state in
/// which the LRA has ended. Each of them answers a call that is due then, and is entered at one
/// node that holds the LRA. There are at most as many as participants are open where it waits, and
/// the node needs that many numbers. From each such state one more end can be heard (`on`), so
/// `after_so_many_ends_it_has_ended` is not empty.
pub fn what_is_under_way_can_be_ended()
    ensures ends { (s : State) (node : ℕ) (l : Id) →
        IsWorld s → IsNode s node → IsUnderWay (set_of s node) l →
        count (front_of s node) node
        + open_under (set_of s node) (saga_of (set_of s node) l) < last_number →
        CanEnd s node l (saga_of (set_of s node) l)
        (open_under (set_of s node) (saga_of (set_of s node) l)) }
    ensures on { (s : State) (node : ℕ) (l : Id) →
        IsWorld s → IsNode s node → IsUnderWay (set_of s node) l →
        count (front_of s node) node < last_number →
        (t : State) × GoesOn node (saga_of (set_of s node) l) s t }
{}

/// A decided tree goes on until it is purged: either a participant in it is to be called, or its
/// root can be purged, unless the home has given its last number. In an LRA that has ended no
/// participant is called to complete or to compensate.
pub fn a_tree_goes_on_until_it_is_purged()
    ensures on { (S : List Fact) (v : List ℕ) (root : Id) → IsSettled S → IsCounted S v →
        is_held S root ≡ true → is_root S root ≡ true → is_some (want S root) ≡ true →
        count v root.home < last_number →
        ((call : Duty) × IsCallUnder S root call)
        ⊎ (judge S v root.home (Purge root) ≡ Accepted) }
    ensures ended { (S : List Fact) (l : Id) (call : Duty) →
        IsSettled S → is_ended S l ≡ true → IsActUnder S l call → ⊥ }
{}

/// A decided tree waits for a limited number of answers. Whatever happens at a node and elsewhere,
/// no event adds to the answers that are left in the tree, and each answer to a call in it leaves
/// fewer. When none is left, no participant in it is to be called. So after that many answers at
/// the latest the root can be purged, if it was not purged already.
pub fn a_decided_tree_waits_for_so_many_answers()
    ensures stays { (s t : State) (events : List Event) (replies : List EventReply)
        (node : ℕ) (root : Id) (verdict : TheVerdict) →
        IsWorld s → Runs s events replies t → IsNode s node →
        is_root (set_of s node) root ≡ true → want (set_of s node) root ≡ Some verdict →
        answers_left (set_of t node) root ≤ answers_left (set_of s node) root }
    ensures falls { (s : State) (ts : List State)
        (node : ℕ) (root : Id) (verdict : TheVerdict) → IsWorld s → IsNode s node →
        is_root (set_of s node) root ≡ true → want (set_of s node) root ≡ Some verdict →
        GetAnswered node root s ts → length ts
        + answers_left (set_of (last_state s ts) node) root ≤ answers_left (set_of s node) root }
    ensures none { (S : List Fact) (l : Id) (call : Duty) →
        IsSettled S → answers_left S l ≡ 0 → IsCallUnder S l call → ⊥ }
{}

/// A decided tree can be purged. From each state of the world, answers alone lead to a state in
/// which the root's home accepts the purge. Each of them answers a call that is due then, and is
/// entered at that home. There are at most as many as are left, and the home needs that many
/// numbers. Whenever a call is due, its answer can be heard (`on`).
pub fn a_decided_tree_can_be_purged()
    ensures purged { (s : State) (root : Id) (verdict : TheVerdict) → IsWorld s → IsNode s root.home →
        is_held (set_of s root.home) root ≡ true → is_root (set_of s root.home) root ≡ true →
        want (set_of s root.home) root ≡ Some verdict → count (front_of s root.home) root.home
        + answers_left (set_of s root.home) root < last_number →
        CanPurge s root.home root (answers_left (set_of s root.home) root) }
    ensures on { (s : State) (node : ℕ) (root : Id) (call : Duty) →
        IsWorld s → IsNode s node → IsCallUnder (set_of s node) root call →
        count (front_of s node) node < last_number → (t : State) × GetsAnswered node root s t }
{}

/// A frame brings everything that its sender had. If a node takes a frame that another sends during
/// these events, it counts at the end everything that the sender counted at the start, whatever
/// else happens.
pub fn a_frame_brings_what_its_sender_had()
    ensures { (s t : State) (events : List Event) (replies : List EventReply) (from to : ℕ) →
        IsWorld s → Runs s events replies t → IsNode s from → IsNode s to →
        HearsOf from to events replies → IsBelow (front_of s from) (front_of t to) }
{}

/// One round makes all nodes alike. Nothing is entered during these events, and each node sends a
/// frame to each other node, which takes it. Frames may also be cut, repeated and taken in any
/// order. Then each node counts at the end everything that was ever entered. So all nodes have the
/// same view, and show the same of every LRA and every participant.
pub fn one_round_makes_all_alike()
    ensures all { (s t : State) (events : List Event) (replies : List EventReply) (node : ℕ) →
        IsWorld s → Runs s events replies t → t.history ≡ s.history → IsRound s events replies →
        IsNode s node → front_of t node ≡ all_counted t.history }
    ensures agree { (s t : State) (events : List Event) (replies : List EventReply) (one other : ℕ) →
        IsWorld s → Runs s events replies t → t.history ≡ s.history → IsRound s events replies →
        IsNode s one → IsNode s other → Agree t one other }
{}

/// One round brings what was entered before it, whatever is entered meanwhile: each node counts at
/// the end everything that each node had entered at the start. So no node's view is older than one
/// round.
pub fn one_round_brings_what_was_entered()
    ensures { (s t : State) (events : List Event) (replies : List EventReply) (node from : ℕ) →
        IsWorld s → Runs s events replies t → IsRound s events replies → IsNode s node →
        IsNode s from → length (entries_of s.history from) ≤ count (front_of t node) from }
{}

/// A round can be made from each state in which what the nodes hold fits into frames: each node
/// sends one frame since nothing, and takes the frames of all others. The start of two nodes is
/// such a state (`met`).
pub fn a_round_can_be_made()
    ensures made { (s : State) → IsWorld s → CanTell s → HasRound s }
    ensures met { IsWorld (start 2) × CanTell (start 2) }
{}

/// Without commands and ticks nothing is entered: frames and restarts leave the history as it was.
pub fn frames_enter_nothing()
    ensures { (s t : State) (events : List Event) (replies : List EventReply) →
        Runs s events replies t → list_any may_enter events ≡ false → t.history ≡ s.history }
{}

/// Nothing refuses such a round: a frame since nothing is sent whenever it is asked for, and is
/// taken wherever it arrives whole.
pub fn a_frame_since_nothing_is_taken()
    ensures sent { (s t : State) (node : ℕ) (reply : EventReply) → IsWorld s → IsNode s node →
        Steps s (Send node (replicate (nodes_of s) 0) Two) reply t →
        reply ≡ Sent (length s.sent + 1) }
    ensures taken { (s t : State) (number node : ℕ)
        (frame : SentFrame) (bytes : List ℕ) (reply : EventReply) →
        IsNode s node → frame_at s number ≡ Some frame →
        frame.base ≡ replicate (nodes_of s) 0 → IsEncoded s.history frame bytes →
        Steps s (Deliver number node (length bytes)) reply t → reply ≡ Took }
{}
