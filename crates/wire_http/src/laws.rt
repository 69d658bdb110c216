// Laws of HTTP messages: which are whole, how one is taken off a stream, and which fault it has. Each
// function does nothing, and its contract is the law.
ghost use Rattle.std.specs.Prelude.{◌≡◌, ◌<◌, ◌⊎◌, ◌++◌, [], ◌∷◌, ℕ, List, length, map, IfSome, Some};
ghost use Rattle.httparse.specs.Grammar.{RequestHead, ResponseHead, status_code};
ghost use Rattle.httparse.specs.Spans.{name_and_value};
ghost use Rattle.wire_http.specs.Faults.{IsOfBytes, Stops};
ghost use Rattle.wire_http.specs.HeadFields.{field_bytes};
ghost use Rattle.wire_http.specs.Heads.{Exceeds, max_head_lines};
ghost use Rattle.wire_http.specs.Requests.{IsRequestMessage, IsRequest, IsTextSoFar, RefusesRequest, ShowsNoRequest};
ghost use Rattle.wire_http.specs.Responses.{Behind, HasNoResponse, IsCrowded, IsResponseMessage, IsResponse, RefusesResponse, ShowsNoResponse, head_room};
ghost use Rattle.wire_http.specs.MessageTexts.{request_text, response_text};
ghost use Rattle.wire_http.specs.WholeMessages.{IsSound, IsSoundCall, host_field};
ghost use Rattle.wire_http.specs.Streams.{GivenBytes, GivesWhat};
ghost use Rattle.wire_http.specs.declared.fault.Fault.{Fault as TheFault};
ghost use Rattle.wire_http.specs.declared.fault.Fault.TheVariants.{NoMemory, ReadFault};
ghost use Rattle.wire_http.specs.declared.head.HeadKind.TheVariants.{Request as OfRequest};
ghost use Rattle.wire_http.specs.declared.message.CallRequest.{CallRequest as TheCall};
ghost use Rattle.wire_http.specs.declared.message.Request.{Request as TheRequest};
ghost use Rattle.wire_http.specs.ByteResponses.{Response as TheResponse};

/// An input of a request has only one fault that lies in its bytes, unless more than 64 field lines
/// came, or what came of a target can no longer be a text: then the parser may report either of two
/// faults.
pub fn a_request_has_one_fault()
    ensures { (limit : ℕ) (input : List ℕ) (a b : TheFault) →
        IsOfBytes a → IsOfBytes b → ¬ (Exceeds OfRequest max_head_lines input) →
        IsTextSoFar input → RefusesRequest limit input a → RefusesRequest limit input b → a ≡ b }
{}

/// An input of a response has only one fault that lies in its bytes, unless more field lines came
/// than heads may have: then the parser may report either of two faults.
pub fn a_response_has_one_fault()
    ensures { (limit : ℕ) (input : List ℕ) (a b : TheFault) →
        IsOfBytes a → IsOfBytes b → ¬ (Behind head_room IsCrowded input) →
        RefusesResponse head_room limit input a → RefusesResponse head_room limit input b → a ≡ b }
{}

/// A whole response that is cut anywhere is no longer one, and no whole response stands before the
/// cut.
pub fn a_cut_response_is_none()
    ensures { (limit : ℕ) (prefix more : List ℕ) (h : ResponseHead) (body : List ℕ) →
        0 < length more → IsResponse head_room limit (prefix ++ more) h body [] →
        HasNoResponse head_room limit prefix }
{}

/// The text of a request with plain fields that state the length of its body is a whole request
/// with the same parts.
pub fn a_written_request_is_whole()
    ensures { (limit : ℕ) (r : TheCall) (rest : List ℕ) → IsSoundCall limit r →
        (h : RequestHead) × IsRequest limit (request_text r ++ rest) h r.body rest
        × (h.method ≡ r.method) × (h.target ≡ r.target)
        × (map name_and_value h.fields ≡ map field_bytes (host_field r.host ∷ r.fields)) }
{}

/// The text of a response with plain fields that state the length of its body is a whole response
/// with the same parts.
pub fn a_written_response_is_whole()
    ensures { (limit : ℕ) (r : TheResponse) (rest : List ℕ) → IsSound limit r
        → (h : ResponseHead) × IsResponse head_room limit (response_text r ++ rest) h r.body rest
        × (status_code h ≡ r.status) × (map name_and_value h.fields ≡ map field_bytes r.fields) }
{}

/// If the bytes that are left are known, a request that was read stood at their start, and what was
/// behind it is still left.
pub fn a_request_is_taken_off()
    ensures { (limit : ℕ) (old new : GivenBytes) (r : TheRequest) → GivesWhat old new
        (λ bytes. IsRequestMessage limit bytes r) → IfSome old.left (λ input. (rest : List ℕ)
        × ((h : RequestHead) × IsRequest limit input h r.body rest) × (new.left ≡ Some rest)) }
{}

/// If the bytes that are left are known, a fault is a fault of those bytes.
pub fn a_fault_is_of_the_request()
    ensures { (limit : ℕ) (old new : GivenBytes) (fault : TheFault) →
        Stops old new (ShowsNoRequest limit) fault →
        IfSome old.left (λ input. RefusesRequest limit input fault) }
{}

/// If the bytes that are left are known and begin with a whole request, it is read, unless a call
/// fails or memory runs out.
pub fn a_whole_request_is_read()
    ensures { (limit : ℕ) (old new : GivenBytes) (fault : TheFault) →
        Stops old new (ShowsNoRequest limit) fault →
        IfSome old.left (λ input. (h : RequestHead) (body rest : List ℕ) →
        IsRequest limit input h body rest → (fault ≡ ReadFault) ⊎ (fault ≡ NoMemory)) }
{}

/// The same as `a_request_is_taken_off`, for a response that was read.
pub fn a_response_is_taken_off()
    ensures { (limit : ℕ) (old new : GivenBytes) (r : TheResponse) →
        GivesWhat old new (λ bytes. IsResponseMessage limit bytes r) →
        IfSome old.left (λ input. (rest : List ℕ) × ((h : ResponseHead)
        × IsResponse head_room limit input h r.body rest) × (new.left ≡ Some rest)) }
{}

/// The same as `a_fault_is_of_the_request`, for the faults of a response.
pub fn a_fault_is_of_the_response()
    ensures { (limit : ℕ) (old new : GivenBytes) (fault : TheFault) →
        Stops old new (ShowsNoResponse limit) fault →
        IfSome old.left (λ input. RefusesResponse head_room limit input fault) }
{}

/// The same as `a_whole_request_is_read`, for a whole response.
pub fn a_whole_response_is_read()
    ensures { (limit : ℕ) (old new : GivenBytes) (fault : TheFault) →
        Stops old new (ShowsNoResponse limit) fault →
        IfSome old.left (λ input. (h : ResponseHead) (body rest : List ℕ) →
        IsResponse head_room limit input h body rest → (fault ≡ ReadFault) ⊎ (fault ≡ NoMemory)) }
{}
