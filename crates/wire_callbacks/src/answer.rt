// Decides what a participant's answer means.
ghost use Rattle.std.specs.Prelude.{◌≡◌, Some};
ghost use Rattle.wire_callbacks.specs.CallWords.{heard_name, kind_name};
ghost use Rattle.wire_callbacks.specs.HeardCommands.{command_heard};
ghost use Rattle.wire_callbacks.specs.Answers.{done_status, failed_status, heard_by_act, heard_by_after, heard_by_forget, heard_by_status, heard_of, unquoted, without_leading, without_trailing};

use state_facts::Command;
use state_ids::{Act, LraId, MemberStatus, Outcome};
use std::fmt;
use wire_http::Bytes;

/// What a participant is called for: to complete, to compensate, to report the status of one of
/// these, to forget, or to be notified that its LRA has ended.
#[derive(Clone, Copy, Debug, PartialEq, Eq)]
pub enum Kind {
    Complete,
    Compensate,
    Status,
    Forget,
    After,
}

impl Kind {
    /// Returns the word for it in commands.
    pub fn name(self) -> &'static str
        ensures { result.now ≡ kind_name self }
    {
        match self {
            Kind::Complete => "complete",
            Kind::Compensate => "compensate",
            Kind::Status => "status",
            Kind::Forget => "forget",
            Kind::After => "after",
        }
    }
}

impl fmt::Display for Kind {
    ghost output = { λ kind. Some (kind_name kind) };

    fn fmt<W: fmt::Write>(&self, f: &mut fmt::Formatter<W>) -> fmt::Result {
        f.write_str(self.name())
    }
}

/// What came back from a call: the code and the body of a whole response, or no whole response. A
/// code is a `u16`, because `StatusCode` of `http` has none below 100 or above 999, and every code
/// must have a meaning here.
#[derive(Debug, Drop)]
pub enum Answer {
    Code(u16, Bytes),
    Broken,
}

/// What an answer means. If it counts for nothing, the participant is called again.
#[derive(Clone, Copy, Debug, PartialEq, Eq)]
pub enum Heard {
    /// The act has this outcome.
    Outcome(Outcome),
    /// The participant was told to forget.
    Forgot,
    /// The participant was notified that its LRA has ended.
    Told,
    /// The answer counts for nothing.
    Again,
}

impl Heard {
    /// Returns the word for it.
    pub fn name(self) -> &'static str
        ensures { result.now ≡ heard_name self }
    {
        match self {
            Heard::Outcome(Outcome::Busy) => "Busy",
            Heard::Outcome(Outcome::Done) => "Done",
            Heard::Outcome(Outcome::Failed) => "Failed",
            Heard::Forgot => "Forgotten",
            Heard::Told => "Told",
            Heard::Again => "Again",
        }
    }

    /// Returns the command that records it, if a participant gave this answer in a call for this
    /// act: a report of the act, a forgot or a told. Returns `None` if the participant is to be
    /// called again.
    pub fn command(self, id: LraId, member: u8, act: Act) -> Option<Command>
        ensures { result ≡ command_heard id member act self }
    {
        match self {
            Heard::Outcome(outcome) => Some(Command::Report {
                id,
                member,
                act,
                outcome,
            }),
            Heard::Forgot => Some(Command::Forgot { id, member }),
            Heard::Told => Some(Command::Told { id, member }),
            Heard::Again => None,
        }
    }
}

/// Returns the text without the spaces, CR and LF at its start.
fn without_leading(text: &[u8]) -> &[u8]
    ensures { result.now ≡ without_leading text.now }
{
    let mut rest = text;
    while let [b' ' | b'\r' | b'\n', after @ ..] = rest {
        rest = after;
    }
    rest
}

/// Returns the text without the spaces, CR and LF at its end.
fn without_trailing(text: &[u8]) -> &[u8]
    ensures { result.now ≡ without_trailing text.now }
{
    let mut rest = text;
    while let [before @ .., b' ' | b'\r' | b'\n'] = rest {
        rest = before;
    }
    rest
}

fn unquoted(text: &[u8]) -> &[u8]
    ensures { result.now ≡ unquoted text.now }
{
    match text {
        [b'"', inner @ .., b'"'] => inner,
        _ => text,
    }
}

fn done_status(act: Act) -> MemberStatus
    ensures { result ≡ done_status act }
{
    match act {
        Act::Complete => MemberStatus::Completed,
        Act::Compensate => MemberStatus::Compensated,
    }
}

fn failed_status(act: Act) -> MemberStatus
    ensures { result ≡ failed_status act }
{
    match act {
        Act::Complete => MemberStatus::FailedToComplete,
        Act::Compensate => MemberStatus::FailedToCompensate,
    }
}

fn heard_by_act(code: u16) -> Heard
    ensures { result ≡ heard_by_act code }
{
    match code {
        200 | 204 | 410 => Heard::Outcome(Outcome::Done),
        202 => Heard::Outcome(Outcome::Busy),
        409 => Heard::Outcome(Outcome::Failed),
        _ => Heard::Again,
    }
}

fn heard_by_status(act: Act, code: u16, body: &[u8]) -> Heard
    ensures { result ≡ heard_by_status act code body.now }
{
    if code == 410 {
        return Heard::Outcome(Outcome::Done);
    }
    if code != 200 {
        return Heard::Again;
    }
    let name = unquoted(without_trailing(without_leading(body)));
    if name == done_status(act).name().as_bytes() {
        Heard::Outcome(Outcome::Done)
    } else if name == failed_status(act).name().as_bytes() {
        Heard::Outcome(Outcome::Failed)
    } else {
        Heard::Again
    }
}

fn heard_by_forget(code: u16) -> Heard
    ensures { result ≡ heard_by_forget code }
{
    match code {
        200 | 204 | 404 | 410 => Heard::Forgot,
        _ => Heard::Again,
    }
}

fn heard_by_after(code: u16) -> Heard
    ensures { result ≡ heard_by_after code }
{
    match code {
        200 | 204 | 410 => Heard::Told,
        _ => Heard::Again,
    }
}

/// Returns what the answer to a call of this kind means. A broken answer counts for nothing.
pub fn hear(act: Act, kind: Kind, answer: &Answer) -> Heard
    ensures { result ≡ heard_of act kind answer.now }
{
    let Answer::Code(code, body) = answer else {
        return Heard::Again;
    };
    match kind {
        Kind::Complete | Kind::Compensate => heard_by_act(*code),
        Kind::Status => heard_by_status(act, *code, body.as_slice()),
        Kind::Forget => heard_by_forget(*code),
        Kind::After => heard_by_after(*code),
    }
}
