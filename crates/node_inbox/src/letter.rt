// The outcome of a callback, as a value that only a call can make.
ghost use Rattle.std.specs.Prelude.{◌≡◌, IfErr, IfOk, Some};
ghost use Rattle.wire_callbacks.specs.Answers.{heard_of};
ghost use Rattle.wire_callbacks.specs.HeardCommands.{command_heard};
ghost use Rattle.wire_callbacks.specs.declared.answer.Heard.TheVariants.{Again};
ghost use Rattle.node_inbox.specs.Letters.{IsHeardIn, IsUnheardIn, came_of};

use node_schedule::{CallFailure, StartedCall};
use state_facts::Command;
use std::alloc::Global;
use std::marker::Model;
use wire_callbacks::{Answer, Caller, Duty, Heard, hear, request_of};

/// What a participant answered when it was called for a duty. Only `call_for` makes a letter, and
/// none is made from another. So each answer was received once, and is recorded at most once, for
/// the participant that was called.
#[derive(Drop)]
pub struct Letter {
    duty: Duty,
    heard: Heard,
}

impl Model for Letter {
    ghost use Rattle.node_inbox.specs.Letters.{IsHeard, Said};

    ghost Value = { Said };

    ghost view = { λ l. record { duty = l.duty; heard = l.heard } };

    ghost invariant = { λ l. IsHeard l.duty l.heard };
}

impl Letter {
    /// Returns the duty for which the participant was called.
    pub fn duty(&self) -> &Duty
        ensures { result.now ≡ self.now.duty }
    {
        &self.duty
    }

    /// Returns what was learned. It counts for something.
    pub fn heard(&self) -> Heard
        ensures { result ≡ self.now.heard }
    {
        self.heard
    }

    /// Returns the command that records it.
    pub fn command(&self) -> Option<Command>
        ensures { result ≡ command_heard self.now.duty.id self.now.duty.member self.now.duty.act self.now.heard }
    {
        self.heard
            .command(self.duty.id, self.duty.member, self.duty.act)
    }
}

/// Says that nothing counts of what a participant answered that was to be called for a duty, and
/// why.
#[derive(Drop)]
pub struct Unheard {
    pub due: StartedCall,
    pub came: CallFailure,
}

/// Returns the result of an answer that counts for nothing.
fn came_of(answer: &Answer) -> CallFailure
    ensures { result ≡ came_of answer.now }
{
    match answer {
        Answer::Code(code, _) => CallFailure::Code(*code),
        Answer::Broken => CallFailure::Broken,
    }
}

/// Returns what an answer to a call for a duty means, if it counts.
fn letter_of(due: StartedCall, answer: &Answer) -> Result<Letter, Unheard>
    ensures heard { IfOk result (λ letter. (letter.duty ≡ due)
        × (letter.heard ≡ heard_of due.act due.kind answer.now)) }
    ensures unheard { IfErr result (λ unheard. (unheard.due ≡ due)
        × (heard_of due.act due.kind answer.now ≡ Again) × (unheard.came ≡ came_of answer.now)) }
{
    let heard = hear(due.duty().act, due.duty().kind, answer);
    if heard == Heard::Again {
        let came = came_of(answer);
        return Err(Unheard { due, came });
    }
    let duty = due.into_duty();
    Ok(Letter { duty, heard })
}

/// Calls a participant for a duty, once: makes the request, makes the call, and reads the answer.
/// Errors: nothing was learned that counts, because the answer counts for nothing or memory ran
/// out, which is treated as no whole answer.
pub fn call_for<C: Caller>(
    alloc: Global,
    caller: &mut C,
    due: StartedCall,
) -> Result<Letter, Unheard>
    // The caller answered the request for this duty, and what that answer means counts.
    ensures heard { IfOk result (IsHeardIn C.Caller caller.old caller.new due) }
    // The answer counts for nothing, and the error says what it was; or memory ran out for the
    // request, and nobody was called; or memory ran out for the answer.
    ensures unheard { IfErr result (λ unheard. (unheard.due ≡ due)
        × IsUnheardIn C.Caller caller.old caller.new due unheard.came) }
{
    let Ok(request) = request_of(alloc, due.duty()) else {
        let came = CallFailure::Broken;
        return Err(Unheard { due, came });
    };
    match caller.call(alloc, &request) {
        Ok(answer) => letter_of(due, &answer),
        Err(_) => {
            let came = CallFailure::Broken;
            Err(Unheard { due, came })
        }
    }
}
