// Laws of the HTTP interface: what an answer says, and what it says of a body that is wrong. Each
// function does nothing, and its contract is the law.
ghost use Rattle.std.specs.Prelude.{◌≡◌, ◌<◌, ◌≤◌, ◌^◌, ◌||◌, ℕ, List, None, Some, is_err, is_some, length, true};
ghost use Rattle.std.specs.List.{list_all};
ghost use Rattle.serde_json.specs.Data.{Data};
ghost use Rattle.state_ids.specs.Ids.{Id, IsId};
ghost use Rattle.state_ids.specs.declared.status.LraStatus.{LraStatus as TheLraStatus};
ghost use Rattle.state_ids.specs.declared.status.MemberStatus.{MemberStatus as TheMemberStatus};
ghost use Rattle.wire_http.specs.declared.fault.Fault.{Fault as TheFault};
ghost use Rattle.wire_http.specs.declared.message.Request.{Request as TheRequest};
ghost use Rattle.state_book.specs.declared.calls.Reply.{Reply as TheReply};
ghost use Rattle.wire_api.specs.declared.body_faults.Form.{Form as TheForm};
ghost use Rattle.wire_api.specs.declared.routing.Unrouted.{Unrouted as TheUnrouted};
ghost use Rattle.wire_api.specs.Answers.{answer_of, begun_answer, fault_answer, joined_answer, ok_json, status_answer, unrouted_answer};
ghost use Rattle.wire_api.specs.Bodies.{object_in};
ghost use Rattle.wire_api.specs.BodyFaults.{form_of, has_unknown, is_plain_byte, unknown_of, unknown_text, why_in};
ghost use Rattle.wire_api.specs.Routes.{routed};
ghost use Rattle.wire_api.specs.Texts.{member_body};
ghost use Rattle.wire_api.specs.Wholes.{IsNumbered, IsWhole};

/// The status, fields and body of an answer tell its client everything that was replied: which LRA
/// it is about, what that shows, and which member number was given. About a participant they tell
/// the LRA and what the participant shows, to a client that knows which number it asked for.
pub fn an_answer_tells_its_reply()
    ensures begun { (a b : Id) → IsId a → IsId b → begun_answer a ≡ begun_answer b → a ≡ b }
    ensures joined { (a b : Id) (m n : ℕ) →
        IsId a → IsId b → m < 2 ^ 64 → n < 2 ^ 64 → joined_answer a m ≡ joined_answer b n → (a ≡ b) × (m ≡ n) }
    ensures shown { (a b : Id) (x y : TheLraStatus) →
        IsId a → IsId b → status_answer a x ≡ status_answer b y → (a ≡ b) × (x ≡ y) }
    ensures member { (a b : Id) (m : ℕ) (x y : TheMemberStatus) → IsId a →
        IsId b → ok_json (member_body a m x) ≡ ok_json (member_body b m y) → (a ≡ b) × (x ≡ y) }
{}

/// If a request reads a body, the body is wrong exactly if it has a member that its call doesn't
/// know, or if the request is refused. An unknown member is named before anything else. If a
/// request reads no body, nothing is wrong.
pub fn only_what_is_refused_or_unknown_is_wrong()
    ensures exact { (now : ℕ) (request : TheRequest) (form : TheForm) → form_of request ≡ Some form →
        is_some (why_in now request) ≡ (has_unknown form request.body || is_err (routed now request)) }
    ensures named { (now : ℕ) (request : TheRequest) (form : TheForm) (body : Data) (name : List ℕ) →
        form_of request ≡ Some form → object_in request.body ≡ Some body → unknown_of form body ≡ Some name →
        why_in now request ≡ Some (unknown_text name) }
    ensures none { (now : ℕ) (request : TheRequest) → form_of request ≡ None → why_in now request ≡ None }
{}

/// The text about a wrong body stands unescaped in the JSON of its answer: it is printable ASCII
/// without quotes and backslashes, whatever the client sent.
pub fn what_is_said_of_a_body_needs_no_escape()
    ensures { (now : ℕ) (request : TheRequest) (why : List ℕ) →
        why_in now request ≡ Some why → list_all is_plain_byte why ≡ true }
{}

/// The text of each answer is one whole response with its status, fields and body, for every reader
/// whose limit on bodies is at least the body's length, and whatever follows it.
pub fn an_answer_is_a_whole_response()
    ensures reply { (limit : ℕ) (r : TheReply) (rest : List ℕ) → limit < 2 ^ 64 →
        IsNumbered r → length (answer_of r).body ≤ limit → IsWhole limit (answer_of r) rest }
    ensures unrouted { (limit : ℕ) (u : TheUnrouted) (rest : List ℕ) → limit < 2 ^ 64 →
        length (unrouted_answer u).body ≤ limit → IsWhole limit (unrouted_answer u) rest }
    ensures fault { (limit : ℕ) (f : TheFault) (rest : List ℕ) → limit < 2 ^ 64 →
        length (fault_answer f).body ≤ limit → IsWhole limit (fault_answer f) rest }
{}
