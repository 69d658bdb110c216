// Whether two calls or two replies are the same.
ghost use Rattle.std.specs.Prelude.{◌≡◌};
ghost use Rattle.state_book.specs.Sameness.{same_call, same_duties, same_holding, same_page, same_reply, same_survey};

use crate::{Call, Holding, Reply, Survey};
use state_replica::Page;
use wire_callbacks::Duties;

/// Whether two calls are the same.
pub fn same_call(a: &Call, b: &Call) -> bool
    ensures { result ≡ same_call a.now b.now }
{
    match (a, b) {
        (Call::Command(a), Call::Command(b)) => *a == *b,
        (Call::Take(a), Call::Take(b)) => a.same(b),
        (Call::Pull(a), Call::Pull(b)) => a.as_slice() == b.as_slice(),
        (Call::Status(a), Call::Status(b)) => *a == *b,
        (
            Call::Member { id, member },
            Call::Member {
                id: other,
                member: number,
            },
        ) => *id == *other && *member == *number,
        (Call::Page(a), Call::Page(b)) => *a == *b,
        (Call::Record(a), Call::Record(b)) => *a == *b,
        (Call::Survey(a), Call::Survey(b)) => *a == *b,
        (
            Call::Sweep { root, seen },
            Call::Sweep {
                root: other,
                seen: shown,
            },
        ) => *root == *other && *seen == *shown,
        (Call::Duties, Call::Duties) | (Call::Expire, Call::Expire) => true,
        _ => false,
    }
}

fn same_page(a: &Page, b: &Page) -> bool
    ensures { result ≡ same_page a.now b.now }
{
    a.rows() == b.rows() && a.more() == b.more()
}

fn same_duties(a: &Duties, b: &Duties) -> bool
    ensures { result ≡ same_duties a.now b.now }
{
    a.as_slice() == b.as_slice()
}

fn same_holding(a: &Holding, b: &Holding) -> bool
    ensures { result ≡ same_holding a.now b.now }
{
    a.id == b.id
        && (a.status == b.status
            && (a.record == b.record
                && (a.members.as_slice() == b.members.as_slice() && a.purge == b.purge)))
}

fn same_survey(a: &Survey, b: &Survey) -> bool
    ensures { result ≡ same_survey a.now b.now }
{
    a.rows() == b.rows() && a.more() == b.more()
}

/// Whether two replies are the same.
pub fn same_reply(a: &Reply, b: &Reply) -> bool
    ensures { result ≡ same_reply a.now b.now }
{
    match (a, b) {
        (Reply::Command(a), Reply::Command(b)) => *a == *b,
        (Reply::Gave(a), Reply::Gave(b)) => a.same(b),
        (Reply::Shown(id, status), Reply::Shown(other, shown)) => *id == *other
            && *status == *shown,
        (Reply::ShownMember(id, member, status), Reply::ShownMember(other, number, shown)) => {
            *id == *other && (*member == *number && *status == *shown)
        }
        (Reply::Listed(a), Reply::Listed(b)) => same_page(a, b),
        (Reply::Held(a), Reply::Held(b)) => same_holding(a, b),
        (Reply::Surveyed(a), Reply::Surveyed(b)) => same_survey(a, b),
        (Reply::Due(a), Reply::Due(b)) => same_duties(a, b),
        (Reply::Expired(a), Reply::Expired(b)) => *a == *b,
        (Reply::Refused(a), Reply::Refused(b)) => *a == *b,
        (Reply::Took, Reply::Took) | (Reply::Quiet, Reply::Quiet) => true,
        _ => false,
    }
}
