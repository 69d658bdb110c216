// What the state of a node needs to know of a call at the desk, and of its reply.
ghost use Rattle.std.specs.Prelude.{◌≡◌};
ghost use Rattle.node_effects.specs.Results.{asked_call, kind_of, result_of};

use crate::noting::{enters, is_own_fact, is_stored};
use node_agenda::Effects;
use node_core::{AskedCall, CallResult, ReplyKind};
use state_book::{Call, Reply};

/// Returns what is known of a call before it is made.
pub fn asked_call(call: &Call) -> AskedCall
    ensures { result ≡ asked_call call.now }
{
    AskedCall {
        enters: enters(call),
        pulls: matches!(call, Call::Pull(_)),
    }
}

/// Returns what a reply means for the nodes that pull.
fn kind_of(reply: &Reply) -> ReplyKind
    ensures { result ≡ kind_of reply.now }
{
    if let Reply::Gave(delta) = reply {
        return ReplyKind::Gave(delta.front());
    }
    if is_own_fact(reply) {
        ReplyKind::Stored
    } else {
        ReplyKind::Other
    }
}

/// Returns what a call resulted in that had these effects and this reply, moved a frame or didn't, and
/// counts as `weight` calls of a run.
pub fn result_of(effects: Effects, weight: u64, is_move: bool, reply: &Reply) -> CallResult
    ensures { result ≡ result_of effects weight is_move reply.now }
{
    CallResult {
        kind: kind_of(reply),
        effects,
        weight,
        is_move,
        is_stored: is_stored(reply),
    }
}
