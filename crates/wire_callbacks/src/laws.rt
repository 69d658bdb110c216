// Laws of callbacks: which are due, and what their answers mean. Each function does nothing, and its
// contract is the law.
ghost use Rattle.std.specs.Prelude.{◌≡◌, ◌⊎◌, ◌<◌, ◌≤◌, ◌++◌, ℕ, List, IfSome, Some, length};
ghost use Rattle.state_ids.specs.declared.outcome.Act.{Act as TheAct};
ghost use Rattle.state_facts.specs.declared.fact.Fact.{Fact};
ghost use Rattle.state_forest.specs.Dues.{AreAll};
ghost use Rattle.theory_history.specs.Growth.{IsSettled};
ghost use Rattle.theory_history.specs.Views.{StandsFor, View};
ghost use Rattle.wire_http.specs.ByteResponses.{Response as TheResponse};
ghost use Rattle.wire_http.specs.Responses.{HasNoResponse, IsResponseMessage, head_room};
ghost use Rattle.wire_http.specs.Streams.{Calls, GivenBytes, Gives, IsLost};
ghost use Rattle.wire_http.specs.Bodies.{max_body_bytes};
ghost use Rattle.wire_callbacks.specs.declared.answer.Answer.{Answer as TheAnswer};
ghost use Rattle.wire_callbacks.specs.declared.answer.Heard.TheVariants.{Again};
ghost use Rattle.wire_callbacks.specs.declared.answer.Kind.{Kind as TheKind};
ghost use Rattle.wire_callbacks.specs.declared.duty.Duty.{Duty};
ghost use Rattle.wire_callbacks.specs.Answers.{heard_of};
ghost use Rattle.wire_callbacks.specs.OneCall.{IsCodeOf, IsUnanswered, answer_reads};
ghost use Rattle.wire_callbacks.specs.CallDuties.{IsDuty, comes_first};
ghost use Rattle.wire_callbacks.specs.ViewDuties.{duties_of};

/// Due calls have only one list: two lists that have all duties of a home, and no others, in their
/// order, are equal.
pub fn duties_have_one_list()
    ensures { (home : ℕ) (S : List Fact) (xs ys : List Duty) →
        AreAll (IsDuty home S) (comes_first S) xs →
        AreAll (IsDuty home S) (comes_first S) ys → xs ≡ ys }
{}

/// The calls that are due by the view of a settled set are exactly the duties of the set, in their
/// order.
pub fn duties_of_a_view_are_those_of_its_set()
    ensures { (S : List Fact) (view : View) (me : ℕ) → IsSettled S → StandsFor S view →
        1 ≤ me → me ≤ length view.front → AreAll (IsDuty me S) (comes_first S) (duties_of view me) }
{}

/// If what was given since a call is no whole response, the answer counts for nothing. The same
/// holds if the bytes that are left are known and don't begin with a whole response.
pub fn no_response_is_heard_again()
    ensures given { (act : TheAct) (kind : TheKind) (bytes : List ℕ) (old new : GivenBytes)
        (answer : TheAnswer) → HasNoResponse head_room max_body_bytes bytes →
        Gives old new bytes → IsCodeOf old new answer → heard_of act kind answer ≡ Again }
    ensures left { (act : TheAct) (kind : TheKind) (input : List ℕ) (old new : GivenBytes)
        (answer : TheAnswer) → HasNoResponse head_room max_body_bytes input →
        old.left ≡ Some input → IsCodeOf old new answer → heard_of act kind answer ≡ Again }
{}

/// An answer that was cut counts for nothing, at whatever byte it was cut: it never means that the
/// act is done. The bytes before the cut are those that were given, or those that were left, if
/// these are known.
pub fn a_cut_answer_is_heard_again()
    ensures given { (act : TheAct) (kind : TheKind)
        (before more : List ℕ) (whole : TheResponse) (old new : GivenBytes) (answer : TheAnswer) →
        0 < length more → IsResponseMessage max_body_bytes (before ++ more) whole →
        Gives old new before → IsCodeOf old new answer → heard_of act kind answer ≡ Again }
    ensures left { (act : TheAct) (kind : TheKind)
        (before more : List ℕ) (whole : TheResponse) (old new : GivenBytes) (answer : TheAnswer) →
        0 < length more → IsResponseMessage max_body_bytes (before ++ more) whole →
        old.left ≡ Some before → IsCodeOf old new answer → heard_of act kind answer ≡ Again }
{}

/// If all of the request was written, the answer is broken only if a read failed or, as far as the
/// bytes that were left are known, no whole response stands there.
pub fn an_answer_is_broken_only_so()
    ensures { (old new : GivenBytes) (before after : Calls) →
        IsUnanswered old new before after → IsLost answer_reads 0 before after
        ⊎ IfSome old.left (HasNoResponse head_room max_body_bytes) }
{}
