// Laws of pulls: each function does nothing, and its contract is the law.
ghost use Rattle.std.specs.Prelude.{◌≡◌, ◌++◌, ◌≤◌, ℕ, List, [], Ok, codes, length};
ghost use Rattle.httparse.specs.Grammar.{RequestHead};
ghost use Rattle.state_ids.specs.declared.TheConstants.{MAX_NODES};
ghost use Rattle.state_ids.specs.Fronts.{IsBelow, join_fronts};
ghost use Rattle.theory_history.specs.Histories.{History, IsClosed, IsLawful, facts};
ghost use Rattle.theory_history.specs.ViewShape.{HasShape};
ghost use Rattle.theory_history.specs.Views.{StandsFor, View};
ghost use Rattle.wire_frames.specs.Frames.{Frame};
ghost use Rattle.wire_frames.specs.Encoding.{encoding};
ghost use Rattle.wire_frames.specs.TakenFrames.{IsTaken};
ghost use Rattle.wire_http.specs.Requests.{IsRequest};
ghost use Rattle.wire_http.specs.MessageTexts.{response_text};
ghost use Rattle.wire_http.specs.WholeMessages.{IsSound};
ghost use Rattle.wire_http.specs.ByteResponses.{Response as TheResponse};
ghost use Rattle.wire_pulls.specs.PullAnswers.{IsAnswer, max_frame_bytes};
ghost use Rattle.wire_pulls.specs.PullBodies.{IsAsked, asked, pull_body};
ghost use Rattle.wire_pulls.specs.Serving.{Serves};
ghost use Rattle.wire_pulls.specs.Texts.{IsQuery, pull_target, pull_text};

/// By a pull, a node gets the union of what it and another node of the same history have. A node
/// with the same nodes that asks from a front which it has itself may take the frame that is
/// served, and the result stands for the union, with the shape. The front may be an earlier one of
/// its own.
pub fn a_pull_is_the_union()
    ensures some { (h : History) (v w front : List ℕ) (own other : View) (frame : Frame) →
        IsLawful h → IsClosed h v → IsClosed h w → StandsFor (facts h v) own →
        StandsFor (facts h w) other → length own.front ≡ length other.front →
        length own.front ≤ MAX_NODES → IsAsked (length own.front) front → IsBelow front own.front →
        Serves other (asked (length other.front) (pull_body front)) (Ok frame) →
        IsBelow frame.base own.front × ((taken : View) × IsTaken own frame taken × HasShape taken) }
    ensures union { (h : History) (v w front : List ℕ) (own other taken : View) (frame : Frame) →
        IsLawful h → IsClosed h v → IsClosed h w → StandsFor (facts h v) own →
        StandsFor (facts h w) other → length own.front ≡ length other.front →
        length own.front ≤ MAX_NODES → IsAsked (length own.front) front → IsBelow front own.front →
        Serves other (asked (length other.front) (pull_body front)) (Ok frame) →
        IsTaken own frame taken → StandsFor (facts h (join_fronts v w)) taken }
{}

/// The text of a pull from a front of 1 to 8 nodes is one whole request with the front as its body,
/// for a reader whose limit is at least 65 bytes. That holds without a query, and with each query
/// that may stand in a target and has at most 16,000 bytes.
pub fn a_pull_is_a_whole_request()
    ensures bare { (limit : ℕ) (front rest : List ℕ) → 65 ≤ limit → length front ≤ MAX_NODES →
        (h : RequestHead) × IsRequest limit (pull_text [] front ++ rest) h (pull_body front) rest
        × (h.method ≡ codes "POST") × (h.target ≡ codes "/peer/pull") }
    ensures query { (limit : ℕ) (query front rest : List ℕ) →
        65 ≤ limit → IsQuery query → length front ≤ MAX_NODES → (h : RequestHead)
        × IsRequest limit (pull_text query front ++ rest) h (pull_body front) rest
        × (h.method ≡ codes "POST") × (h.target ≡ pull_target query) }
{}

/// A response with status 200, whose body encodes a frame and whose fields are plain and state its
/// length, has a text from which a pull takes that frame.
pub fn a_written_frame_is_an_answer()
    ensures { (r : TheResponse) (frame : Frame) → IsSound max_frame_bytes r →
        r.status ≡ 200 → r.body ≡ encoding frame → IsAnswer (response_text r) 200 (encoding frame) }
{}
