// What is known of a call of the desk before it is made. The desk takes the call itself, so this is
// what is left of it when its reply is there.
ghost use Rattle.std.specs.Prelude.{◌≡◌, ◌≤◌};
ghost use Rattle.node_effects.specs.CallNotes.{result_with};
ghost use Rattle.node_effects.specs.Kinds.{call_kind};
ghost use Rattle.node_effects.specs.Noting.{freed_by, heard_by, is_completion};
ghost use Rattle.node_effects.specs.Results.{asked_call};
ghost use Rattle.state_book.specs.Next.{is_move};

use crate::kinds::call_kind;
use crate::noting::{freed_by, heard_by, is_completion, noted_by};
use crate::results::{asked_call, result_of};
use node_core::{AskedCall, CallKind, CallResult};
use node_schedule::Called;
use state_book::{Call, Reply};
use state_ids::LraId;
use wire_frames::Delta;

/// How many facts of a frame, or duties of a list, count as one more call. The trail keeps each
/// frame and list, so a run with long ones ends early.
const SHARE: u64 = 64;

/// How many members of a record count as one more call.
const MEMBERS: u64 = 8;

/// The most calls that a frame adds: many of the facts that it could have may be purged.
const MAX_SHARES: u64 = 320;

/// Returns how many more calls a frame counts as, by the facts between its base and its front.
fn shares_of(delta: &Delta) -> u64
    ensures { result ≤ 320 }
{
    let (base, front) = (delta.base(), delta.front());
    let mut facts = 0u64;
    for (since, now) in base.as_slice().iter().zip(front.as_slice()) {
        facts = facts.saturating_add(now.saturating_sub(*since));
    }
    (facts / SHARE).min(MAX_SHARES)
}

/// Returns how many calls a call counts as, by what it hands over.
fn weight_of_call(call: &Call) -> u64
    ensures { (1 ≤ result) × (result ≤ 321) }
{
    match call {
        Call::Take(delta) => shares_of(delta) + 1,
        _ => 1,
    }
}

/// Returns how many more calls it counts as, by its reply.
fn weight_of_reply(reply: &Reply) -> u64 {
    match reply {
        Reply::Due(duties) => duties.as_slice().len() as u64 / SHARE,
        Reply::Gave(delta) => shares_of(delta),
        Reply::Held(holding) => holding.record.members.len() as u64 / MEMBERS,
        _ => 0,
    }
}

/// What is known of a call before it is made.
#[derive(Clone, Copy)]
pub struct CallNotes {
    /// What a node's state needs to know to admit it.
    pub asked: AskedCall,
    /// As what it is counted.
    pub kind: CallKind,
    /// Whether it moves a frame.
    pub is_move: bool,
    /// Whether it reports a completion.
    pub completes: bool,
    /// The LRA of which it says that a participant was notified as it was to be.
    pub freed: Option<LraId>,
    /// The participant whose outcome it reports.
    pub heard: Option<Called>,
    /// As how many calls of a run it counts: a frame as more than one.
    pub weight: u64,
}

impl CallNotes {
    /// Returns what is known of a call.
    pub fn of(call: &Call) -> CallNotes
        ensures asked { result.asked ≡ asked_call call.now }
        ensures kind { result.kind ≡ call_kind call.now }
        ensures is_move { result.is_move ≡ is_move call.now }
        ensures completes { result.completes ≡ is_completion call.now }
        ensures freed { result.freed ≡ freed_by call.now }
        ensures heard { result.heard ≡ heard_by call.now }
        ensures weight { (1 ≤ result.weight) × (result.weight ≤ 321) }
    {
        CallNotes {
            asked: asked_call(call),
            kind: call_kind(call),
            is_move: call.is_move(),
            completes: is_completion(call),
            freed: freed_by(call),
            heard: heard_by(call),
            weight: weight_of_call(call),
        }
    }

    /// Returns what the call resulted in, given its reply. A long list, frame or record counts as
    /// more calls.
    pub fn result(&self, reply: &Reply) -> CallResult
        ensures result { result ≡ result_with result.weight self.now reply.now }
        ensures weight { self.now.weight ≤ result.weight }
    {
        let effects = noted_by(self.completes, &self.freed, &self.heard, reply);
        let weight = self.weight.saturating_add(weight_of_reply(reply));
        result_of(effects, weight, self.is_move, reply)
    }
}
