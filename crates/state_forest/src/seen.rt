// What is seen of participants under an LRA.
ghost use Rattle.std.specs.Prelude.{◌≡◌, ◌&&◌, is_some};
ghost use mathlib.Core.Bool.{not};
ghost use Rattle.state_ids.specs.States.{shown};
ghost use Rattle.state_forest.specs.Statuses.{seen_by, seen_or, status_in};

use crate::Participant;
use state_facts::plain;
use state_ids::{LraStatus, MemberStatus, Verdict};

/// What is seen of some participants: whether one still has something to do, whether one failed to
/// complete, and whether one failed to compensate.
#[derive(Clone, Copy)]
pub struct Seen {
    pub unsettled: bool,
    pub incomplete: bool,
    pub uncompensated: bool,
}

impl Seen {
    /// What is seen if there are no participants.
    pub const NOTHING: Seen = Seen {
        unsettled: false,
        incomplete: false,
        uncompensated: false,
    };

    /// Returns what is seen of a participant with this status.
    pub fn of(status: MemberStatus) -> Seen
        ensures { result ≡ seen_by (λ test. test status) }
    {
        Seen {
            unsettled: plain::is_open(status),
            incomplete: status == MemberStatus::FailedToComplete,
            uncompensated: status == MemberStatus::FailedToCompensate,
        }
    }

    /// Returns what is seen of these participants and the others together.
    pub fn or(self, other: Seen) -> Seen
        ensures { result ≡ seen_or self other }
    {
        Seen {
            unsettled: self.unsettled || other.unsettled,
            incomplete: self.incomplete || other.incomplete,
            uncompensated: self.uncompensated || other.uncompensated,
        }
    }

    /// Whether an LRA that wants this is ended, if this is what is seen under it.
    pub fn is_ended(self, want: Option<Verdict>) -> bool
        ensures { result ≡ (is_some want && not self.unsettled) }
    {
        want.is_some() && !self.unsettled
    }

    /// Returns the status of an LRA that wants this, if this is what is seen under it.
    pub fn shown(self, want: Option<Verdict>) -> LraStatus
        ensures { result
            ≡ shown want (is_some want && not self.unsettled) self.incomplete self.uncompensated }
    {
        plain::shown_status(want, self.unsettled, self.incomplete, self.uncompensated)
    }
}

/// Returns the status of a participant, by what its LRA wants. A participant without a link to
/// complete is Completed as soon as its LRA closes.
pub fn status_of(want: Option<Verdict>, participant: &Participant) -> MemberStatus
    ensures { result ≡ status_in want participant.now }
{
    plain::status_for(
        want,
        &participant.links,
        participant.completed,
        participant.compensated,
    )
}
