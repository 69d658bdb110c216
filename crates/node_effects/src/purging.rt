// Works out the result of a purge by a sweep.
ghost use Rattle.std.specs.Prelude.{◌≡◌};
ghost use Rattle.node_effects.specs.Purging.{purged_by, purged_in, put_off_by};

use node_agenda::Purged;
use state_book::Reply;
use state_facts::{CommandReply, Refusal};

/// Returns the result of a purge that is refused.
fn put_off_by(refusal: Refusal) -> Purged
    ensures { result ≡ put_off_by refusal }
{
    match refusal {
        Refusal::NotHeld => Purged::Missing,
        Refusal::NotRoot => Purged::Nested,
        Refusal::StillToForget(id, _) | Refusal::StillToTell(id, _) => Purged::Waits(id),
        _ => Purged::Later,
    }
}

fn purged_in(reply: &CommandReply) -> Purged
    ensures { result ≡ purged_in reply.now }
{
    match reply {
        CommandReply::Refused(refusal) => put_off_by(*refusal),
        _ => Purged::Gone,
    }
}

/// Returns the result of a purge by a sweep, given its reply.
pub fn purged_by(reply: &Reply) -> Purged
    ensures { result ≡ purged_by reply.now }
{
    match reply {
        Reply::Shown(_, _) => Purged::Changed,
        Reply::Refused(refusal) => put_off_by(*refusal),
        Reply::Command(reply) => purged_in(reply),
        _ => Purged::Later,
    }
}
