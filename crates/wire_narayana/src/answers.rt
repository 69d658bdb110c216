// What the gateway tells a node about a participant's answer. It is never stronger than what the
// participant said.
ghost use Rattle.std.specs.Prelude.{◌≡◌, ◌≢◌, ◌↔◌, IfSome, MatchOption, None, Some};
ghost use Rattle.state_ids.specs.declared.status.MemberStatus.{MemberStatus};
ghost use Rattle.state_ids.specs.Names.{member_name};
ghost use Rattle.wire_narayana.specs.Saying.{IsAct, IsHeardDone, SaysBusy, SaysDone, SaysFailed, bare, again, plain, told_by_word, told_compensate, told_complete, told_in, act_rows, passed_rows, status_rows, told_of, told_of_whole, told_word, unquoted, without_leading, without_trailing};
ghost use Rattle.wire_narayana.specs.declared.link_kind.LinkKind.TheVariants as kinds;
ghost use Rattle.wire_narayana.specs.declared.answers.ParticipantAnswer.TheVariants.{Whole};

use crate::LinkKind;
use state_ids::MemberStatus;

/// The outcome of a participant's call.
#[derive(Clone, Copy, PartialEq, Eq, Debug)]
pub enum ParticipantAnswer {
    /// A whole answer: its code, and the status that its body names, if any.
    Whole(u16, Option<MemberStatus>),
    /// An answer that was cut off, ends with the connection, or is too long.
    Broken,
    /// No connection was established.
    Unreached,
    /// No answer came in time.
    Late,
}

/// The code with which a node is answered and, for a question about the status, the word.
#[derive(Clone, Copy, PartialEq, Eq, Debug)]
pub struct AnswerToNode {
    pub code: u16,
    pub word: Option<MemberStatus>,
}

/// Returns the text without its leading blanks.
fn without_leading(text: &[u8]) -> &[u8]
    ensures { result.now ≡ without_leading text.now }
{
    let mut rest = text;
    while let [b' ' | b'\t' | b'\r' | b'\n', after @ ..] = rest {
        rest = after;
    }
    rest
}

/// Returns the text without its trailing blanks.
fn without_trailing(text: &[u8]) -> &[u8]
    ensures { result.now ≡ without_trailing text.now }
{
    let mut rest = text;
    while let [before @ .., b' ' | b'\t' | b'\r' | b'\n'] = rest {
        rest = before;
    }
    rest
}

fn unquoted(text: &[u8]) -> &[u8]
    ensures { result.now ≡ unquoted text.now }
{
    match text {
        [b'"', inner @ .., b'"'] => inner,
        _ => text,
    }
}

/// Returns the status that a body names, if any: its name (MicroProfile LRA 2.0,
/// `ParticipantStatus`), in double quotes or bare, with spaces, tabs and ends of lines around it.
pub fn word_in(body: &[u8]) -> Option<MemberStatus>
    ensures { MatchOption result ((word : MemberStatus) → bare body.now ≢ member_name word)
        (λ word. bare body.now ≡ member_name word) }
{
    let Ok(text) = str::from_utf8(unquoted(without_trailing(without_leading(body)))) else {
        return None;
    };
    match MemberStatus::from_name(text) {
        Ok(status) => Some(status),
        Err(_) => None,
    }
}

fn plain(code: u16) -> AnswerToNode
    ensures { result ≡ plain code }
{
    AnswerToNode { code, word: None }
}

/// Returns the answer after which a node calls again.
fn again() -> AnswerToNode
    ensures { result ≡ again }
{
    plain(503)
}

/// Returns what a 200 or 204 to compensate counts as. Without a word the act is done, because most
/// services answer with a text of their own.
fn told_compensate(word: Option<MemberStatus>) -> AnswerToNode
    ensures table { result ≡ told_by_word told_compensate word }
    ensures none { result.word ≡ None }
{
    match word {
        None | Some(MemberStatus::Compensated) => plain(200),
        Some(MemberStatus::Compensating) => plain(202),
        Some(MemberStatus::FailedToCompensate) => plain(409),
        _ => again(),
    }
}

/// Returns what a 200 or 204 to complete counts as.
fn told_complete(word: Option<MemberStatus>) -> AnswerToNode
    ensures table { result ≡ told_by_word told_complete word }
    ensures none { result.word ≡ None }
{
    match word {
        None | Some(MemberStatus::Completed) => plain(200),
        Some(MemberStatus::Completing) => plain(202),
        Some(MemberStatus::FailedToComplete) => plain(409),
        _ => again(),
    }
}

fn told_of_act(code: u16, good: AnswerToNode) -> AnswerToNode
    ensures table { result ≡ told_in (act_rows good) code }
    ensures none { good.word ≡ None → result.word ≡ None }
{
    match code {
        200 | 204 => good,
        202 | 404 | 409 | 410 => plain(code),
        _ => again(),
    }
}

fn told_word(word: Option<MemberStatus>) -> AnswerToNode
    ensures table { result ≡ told_word word }
    ensures word { result.word ≡ word }
{
    match word {
        Some(_) => AnswerToNode { code: 200, word },
        None => again(),
    }
}

fn told_of_status(code: u16, good: AnswerToNode) -> AnswerToNode
    ensures table { result ≡ told_in (status_rows good) code }
    ensures word { IfSome result.word (λ w. (code ≡ 200) × (good.word ≡ Some w)) }
{
    match code {
        200 => good,
        202 | 404 | 410 => plain(code),
        _ => again(),
    }
}

fn passed(code: u16) -> AnswerToNode
    ensures table { result ≡ told_in passed_rows code }
    ensures none { result.word ≡ None }
{
    match code {
        200 | 202 | 204 | 404 | 410 => plain(code),
        _ => again(),
    }
}

fn told_of_whole(kind: LinkKind, code: u16, word: Option<MemberStatus>) -> AnswerToNode
    ensures table { result ≡ told_of_whole kind code word }
    ensures word { IfSome result.word
        (λ w. (kind ≡ kinds.Status) × ((code ≡ 200) × (word ≡ Some w))) }
{
    match kind {
        LinkKind::Compensate => told_of_act(code, told_compensate(word)),
        LinkKind::Complete => told_of_act(code, told_complete(word)),
        LinkKind::Status => told_of_status(code, told_word(word)),
        LinkKind::Forget | LinkKind::After => passed(code),
    }
}

/// Returns what a node is told about the outcome of a call of this kind: 502 if no connection was
/// established, 504 if no answer came in time, and 503 for every answer that counts for nothing.
/// After a 503 the node calls again.
pub fn told_of(kind: LinkKind, answer: ParticipantAnswer) -> AnswerToNode
    ensures table { result ≡ told_of kind answer }
    // The node is told that the act is done, goes on or failed if and only if the participant said
    // so.
    ensures done { IsAct kind → (IsHeardDone result.code ↔ SaysDone kind answer) }
    ensures busy { IsAct kind → ((result.code ≡ 202) ↔ SaysBusy kind answer) }
    ensures failed { IsAct kind → ((result.code ≡ 409) ↔ SaysFailed kind answer) }
    // The node is told a word if and only if the participant, when asked for its status, named it.
    ensures word { IfSome result.word
        (λ word. (kind ≡ kinds.Status) × (answer ≡ Whole 200 (Some word))) }
    ensures told { (word : MemberStatus) → kind ≡ kinds.Status → answer ≡ Whole 200 (Some word) →
        result.word ≡ Some word }
{
    match answer {
        ParticipantAnswer::Whole(code, word) => told_of_whole(kind, code, word),
        ParticipantAnswer::Broken => again(),
        ParticipantAnswer::Unreached => plain(502),
        ParticipantAnswer::Late => plain(504),
    }
}
