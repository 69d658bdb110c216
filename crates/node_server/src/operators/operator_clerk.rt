// The clerk of the thread that serves operators: it has the writer thread make its calls.
ghost use Rattle.std.specs.Prelude.{⊤, Err, IfErr, Ok, OnOk};
ghost use Rattle.state_book.specs.Clerks.{IsOfClerk, IsOutcome, last_reply};

use crate::operators::calls::OperatorCalls;
use log::{Log, warn};
use node_agenda::OperatorWant;
use node_effects::enters;
use node_replication::Standing;
use node_sockets::now;
use node_threads::Node;
use state_book::{Call, Clerk, Receipt, Reply};
use state_facts::{Command, CommandReply, Refusal};
use state_ids::{Act, LraId, Outcome};
use std::alloc::Global;
use std::sync::Wait;
use std::time::{Clock, Duration};
use std::{str, thread};

/// How long an answer waits at most until other nodes have what it shows, and how often that is
/// checked.
const COPIES_MS: u64 = 1_000;

const LOOK_MS: u64 = 2;

/// A clerk whose calls the writer thread makes. It refuses them at once (E19) if the journal is
/// closed, or a call has waited for a second at the desk. It also refuses commands while nothing is
/// stored because the journal failed, while the others weren't heard from, or must first have more.
/// Its answers wait until the others have what they show.
#[derive(Drop)]
pub struct OperatorClerk<'n, R, L> {
    rt: &'n R,
    log: &'n L,
    node: &'n Node,
    errands: &'n OperatorCalls,
    receipts: Vec<Receipt>,
}

impl<'n, R: Wait + Clock, L: Log> OperatorClerk<'n, R, L> {
    pub fn new(
        rt: &'n R,
        log: &'n L,
        alloc: Global,
        node: &'n Node,
        errands: &'n OperatorCalls,
    ) -> OperatorClerk<'n, R, L> {
        OperatorClerk {
            rt,
            log,
            node,
            errands,
            receipts: Vec::new(alloc),
        }
    }

    // Has the writer thread make a call.
    fn make(&self, call: Call, now: u64) -> Result<Reply, Refusal> {
        let core = &self.node.core;
        if core.is_closed(self.rt) || (enters(&call) && !core.takes_commands(self.rt)) {
            return Err(Refusal::Stopped);
        }
        let wanted = wanted_by(&call);
        self.errands.want(self.rt, call, now);
        core.want(self.rt, wanted);
        self.errands.wait(self.rt, self.node)
    }
}

/// Returns what kind of call it is for the writer thread.
fn wanted_by(call: &Call) -> OperatorWant {
    if enters(call) {
        OperatorWant::Command
    } else {
        OperatorWant::Question
    }
}

/// Logs what was said on behalf of a participant.
fn warn_of<L: Log>(log: &L, number: u8, id: LraId, member: u8, what: &str) {
    let text = id.to_text();
    let text = str::from_utf8(&text).unwrap_or("");
    warn!(log; "node {number}: an operator says that /lra/{text}/member/{member} {what}");
}

/// Returns the words for what is reported of an act.
fn reported(act: Act, outcome: Outcome) -> &'static str {
    match (act, outcome) {
        (Act::Complete, Outcome::Busy) => "is completing",
        (Act::Complete, Outcome::Done) => "completed",
        (Act::Complete, Outcome::Failed) => "failed to complete",
        (Act::Compensate, Outcome::Busy) => "is compensating",
        (Act::Compensate, Outcome::Done) => "compensated",
        (Act::Compensate, Outcome::Failed) => "failed to compensate",
    }
}

/// Logs a command that speaks on behalf of a participant: of an act, that it forgot, or that it was
/// notified.
fn warn_by<L: Log>(log: &L, number: u8, command: &Command) {
    match command {
        Command::Report {
            id,
            member,
            act,
            outcome,
        } => warn_of(log, number, *id, *member, reported(*act, *outcome)),
        Command::Forgot { id, member } => warn_of(log, number, *id, *member, "has forgotten"),
        Command::Told { id, member } => warn_of(
            log,
            number,
            *id,
            *member,
            "was notified of the end",
        ),
        _ => {}
    }
}

/// Whether a report, a forgot or a told was recorded.
fn is_entered(reply: &Reply) -> bool {
    matches!(
        reply,
        Reply::Command(CommandReply::Reported | CommandReply::Forgotten | CommandReply::Told)
    )
}

/// Returns the answer if too few other nodes have what an answer shows, and copies are strict: it
/// is unknown whether a command is kept (E18), and for a question nothing was done (E19).
fn unacknowledged(call: &Call) -> Refusal
    ensures { IsOfClerk result }
{
    if enters(call) {
        Refusal::JournalFailed
    } else {
        Refusal::Stopped
    }
}

/// Makes it a refusal of a clerk: E17 to E21.
fn of_clerk(refusal: Refusal) -> Refusal
    ensures { IsOfClerk result }
{
    match refusal {
        Refusal::NoMemory => Refusal::NoMemory,
        Refusal::JournalFailed => Refusal::JournalFailed,
        Refusal::RunFull => Refusal::RunFull,
        Refusal::TrailLost(number) => Refusal::TrailLost(number),
        _ => Refusal::Stopped,
    }
}

/// Puts a receipt of a call last, if there is memory for it.
fn put_last(receipts: &mut Vec<Receipt>, call: Call, reply: Reply) -> Result<(), Refusal>
    ensures ok { OnOk result (IsOutcome receipts.old.items receipts.new.items call
        (Ok (last_reply receipts.new.items))) }
    ensures err { IfErr result (λ refusal. IsOutcome receipts.old.items receipts.new.items call
        (Err refusal)) }
{
    let receipt = Receipt {
        index: 0,
        call,
        reply,
    };
    let Ok(()) = receipts.push(receipt) else {
        return Err(Refusal::NoMemory);
    };
    Ok(())
}

impl<'n, R: Wait + Clock, L: Log> OperatorClerk<'n, R, L> {
    // Returns the standing of an answer that has waited for a ticket since a moment. It waits for
    // at most a second, because the questions of others wait behind it.
    fn stand(&self, ticket: u64, since: Duration) -> Standing {
        let standing = self.node.core.stand(self.rt, ticket, since);
        let is_over = now(self.rt).saturating_sub(since) >= Duration::from_millis(COPIES_MS);
        if standing == Standing::Waits && (is_over || self.node.signal.has_ended(self.rt)) {
            return Standing::Late;
        }
        standing
    }

    // Waits until other nodes have what an answer may show. Returns whether it may be given: a late
    // answer may not if copies are strict.
    fn wait_for_copies(&self) -> bool {
        let (ticket, is_strict) = (self.node.core.target(self.rt), self.node.wants().is_strict);
        if ticket == 0 {
            return true;
        }
        if is_strict && self.node.core.is_short(self.rt) {
            return false;
        }
        self.node.pass_on(self.rt);
        let since = now(self.rt);
        for _ in self.rt.forever() {
            match self.stand(ticket, since) {
                Standing::Copied => return true,
                Standing::Late => return !is_strict,
                Standing::Waits => thread::sleep(self.rt, Duration::from_millis(LOOK_MS)),
            }
        }
        unreachable!()
    }

    // Logs what was said on behalf of a participant, if it was recorded.
    fn log_recorded(&self, call: &Call, reply: &Reply) {
        if let Call::Command(command) = call {
            if is_entered(reply) {
                warn_by(self.log, self.node.number(), command);
            }
        }
    }
}

impl<'n, R: Wait + Clock, L: Log> Clerk for OperatorClerk<'n, R, L> {
    ghost receipts = { λ w. w.receipts.items };

    // Nothing is said about who made the call: it went to another thread.
    ghost called = { λ _ _ _ _ _. ⊤ };

    fn call(&mut self, _alloc: Global, call: Call, now: u64) -> Result<(), Refusal> {
        let copy = call.clone()?;
        match self.make(copy, now) {
            Ok(reply) => {
                self.log_recorded(&call, &reply);
                if !self.wait_for_copies() {
                    return Err(unacknowledged(&call));
                }
                put_last(&mut self.receipts, call, reply)
            }
            Err(refusal) => Err(of_clerk(refusal)),
        }
    }

    fn reply(&self) -> &Reply {
        &self.receipts[self.receipts.len() - 1].reply
    }
}
