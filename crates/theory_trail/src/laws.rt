//! Laws of a node in the world. Each function does nothing, and its contract is the law.
pub mod copies;
pub mod crashes;
pub mod rounds;
pub mod upgrades;

ghost use Rattle.std.specs.Prelude.{◌≡◌, ◌≤◌, ◌⊎◌, ℕ, List, Ok, Some, length};
ghost use Rattle.state_ids.specs.declared.TheConstants.{MAX_NODES};
ghost use Rattle.state_ids.specs.Ids.{Id};
ghost use Rattle.state_ids.specs.declared.status.LraStatus.{LraStatus};
ghost use Rattle.state_ids.specs.declared.status.MemberStatus.{MemberStatus};
ghost use Rattle.theory_history.specs.Views.{StandsFor, View, empty_view};
ghost use Rattle.wire_frames.specs.Frames.{Frame};
ghost use Rattle.wire_frames.specs.Rules.{IsDelta, IsDeltaAs};
ghost use Rattle.wire_frames.specs.Encoding.{encoding_as};
ghost use Rattle.wire_frames.specs.declared.version.Version.{Version};
ghost use Rattle.wire_frames.specs.Typed.{IsTyped};
ghost use Rattle.script_world.specs.Headline.{IsNode, member_at, shown_at};
ghost use Rattle.script_world.specs.Worlds.{IsEncoded, IsWorld, SentFrame, State, frame_at, front_of, nodes_of, set_of, start};
ghost use Rattle.state_book.specs.declared.calls.Call.{Call};
ghost use Rattle.state_book.specs.declared.calls.Call.TheVariants.{Member, Pull, Status};
ghost use Rattle.state_book.specs.declared.calls.Entry.{Entry};
ghost use Rattle.state_book.specs.declared.calls.Reply.{Reply};
ghost use Rattle.state_book.specs.declared.calls.Reply.TheVariants.{Gave, Shown, ShownMember};
ghost use Rattle.state_book.specs.Next.{IsFoundBehind, IsNext};
ghost use Rattle.state_book.specs.OfSets.{IsReplyOf};
ghost use Rattle.theory_trail.specs.Servers.{AnswersConverge, AreOneRun, AreTrails, Turn};
ghost use Rattle.state_journal.specs.Ruled.{AreTyped, KeepsRules};
ghost use Rattle.theory_trail.specs.NodeTrails.{Arrival, Follows, IsPlayed, IsReplied, IsRun, IsServed, IsToldAs, Item, WasSent, event_of};

use state_journal::laws::views_of_a_history_keep_the_rules;

/// A node's trail is a run of the world, whatever happens at the other nodes between its entries.
/// In the world, the node's accepted commands and passed deadlines get the replies that the trail's
/// entries have, and the frames that the node gives are those that are sent. The trail's replay is
/// the view of what the node holds at the end. So the headline holds of it.
pub fn a_trail_is_a_run_of_the_world()
    ensures { (me : ℕ) (s t : State) (a b : View) (items : List Item) →
        IsPlayed me s a items t b → IsRun me s items t b }
{}

/// An entry that is legal next can always happen next in the world, if a frame that it takes was
/// sent, in either version.
pub fn an_entry_can_happen()
    ensures { (me : ℕ) (s : State) (a b : View) (entry : Entry) (frame : Arrival) → IsServed me s a →
        IsNext me a entry.call entry.moment entry.reply b → WasSent s frame entry.call entry.reply →
        (t : State) × Follows s (event_of me frame entry) t }
{}

/// A call whose answer was lost, because the program stopped in it or its journal failed, is at
/// most one event. If the next start finds what the node held before the call, or what it holds
/// after it, then in the world the call is no event, or it is the event of its entry. The node is
/// served by what was found. The law `a_start_finds_the_records_before_or_after` of `state_book` says
/// that a start finds nothing else.
pub fn a_lost_answer_is_at_most_one_event()
    ensures entry { (me : ℕ) (s : State) (a b found : View) (entry : Entry) (frame : Arrival) →
        IsServed me s a → IsNext me a entry.call entry.moment entry.reply b →
        WasSent s frame entry.call entry.reply → (found ≡ a) ⊎ (found ≡ b) → (t : State)
        × ((t ≡ s) ⊎ Follows s (event_of me frame entry) t) × IsServed me t found }
    ensures found { (me : ℕ) (s : State) (a found : View) (asked : Call) (now : ℕ) (frame : Arrival) →
        IsServed me s a →
        ((reply : Reply) → IsNext me a asked now reply found → WasSent s frame asked reply) →
        IsFoundBehind me a asked now found → (t : State)
        × ((t ≡ s) ⊎ IsReplied me s a asked now frame found t) × IsServed me t found }
{}

/// What a node holds keeps the rules by which rows are read, if its records have the types of
/// records and there are at most eight nodes. The same holds for what it holds after its next call.
pub fn what_a_node_holds_keeps_the_rules()
    ensures held { (me : ℕ) (s : State) (a : View) →
        IsServed me s a → length a.front ≤ MAX_NODES → AreTyped a → KeepsRules a }
    ensures next { (me now : ℕ) (frame : Arrival) (s : State) (a b : View) (call : Call) (reply : Reply) →
        IsServed me s a → IsNext me a call now reply b → WasSent s frame call reply →
        length b.front ≤ MAX_NODES → AreTyped b → KeepsRules b }
{
    views_of_a_history_keep_the_rules();
}

/// A node's answer is what the definitions give for what it holds in the world. Of an LRA and of a
/// participant it shows what the headline speaks of.
pub fn a_node_answers_as_the_world()
    ensures set { (me now : ℕ) (s : State) (a b : View) (call : Call) (reply : Reply) →
        IsServed me s a →
        IsNext me a call now reply b → IsReplyOf (set_of s me) (front_of s me) me call now reply b }
    ensures shown { (me now : ℕ) (s : State) (a b : View) (l k : Id) (status : LraStatus) →
        IsServed me s a →
        IsNext me a (Status l) now (Shown k status) b → (k ≡ l) × (shown_at s me l ≡ Ok status) }
    ensures member { (me now : ℕ)
        (s : State) (a b : View) (l k : Id) (m n : ℕ) (status : MemberStatus) →
        IsServed me s a → IsNext me a (Member l m) now (ShownMember k n status) b →
        (k ≡ l) × (n ≡ m) × (member_at s me l m ≡ Ok status) }
{}

/// From the first state on a node is served by the view of no facts. To be served, it is enough
/// that a view of as many nodes stands for the node's set: then it is the view of what the node
/// holds.
pub fn a_view_that_stands_is_served()
    ensures first { (nodes me : ℕ) →
        IsNode (start nodes) me → IsServed me (start nodes) (empty_view nodes) }
    ensures stands { (me : ℕ) (s : State) (a : View) → IsWorld s →
        IsNode s me → length a.front ≡ nodes_of s → StandsFor (set_of s me) a → IsServed me s a }
{}

/// A frame that a node gives can be taken by another. A frame tells what its bytes encode, in the
/// version in which it was sent. What a node gives has an encoding, if its types say that its
/// numbers and texts fit.
pub fn a_frame_that_is_given_can_be_taken()
    ensures encoded { (v : Version) (s : State) (number : ℕ) (delta : Frame) →
        IsDeltaAs v delta → IsToldAs v s number delta → (sent : SentFrame)
        × (frame_at s number ≡ Some sent) × IsEncoded s.history sent (encoding_as v delta) }
    ensures told { (v : Version) (s : State) (number : ℕ) (sent : SentFrame) (delta : Frame) →
        IsDeltaAs v delta → frame_at s number ≡ Some sent →
        IsEncoded s.history sent (encoding_as v delta) → IsToldAs v s number delta }
    ensures given { (me now : ℕ) (s : State) (a b : View) (body : List ℕ) (delta : Frame) →
        IsServed me s a →
        IsNext me a (Pull body) now (Gave delta) b → IsTyped delta → IsDelta delta }
{}

/// If each node of the world is a server, all their trails together are one run of the world. So
/// the headline holds of what the servers answer.
pub fn servers_are_one_world()
    ensures run { (s t : State) (views ends : ℕ → View) (turns : List Turn) →
        AreTrails s views turns t ends → AreOneRun s turns t ends }
    ensures answers { (s t : State) (views ends : ℕ → View) (turns : List Turn) →
        AreTrails s views turns t ends → AnswersConverge s views t ends }
{}
