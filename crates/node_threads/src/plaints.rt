// The participants whose calls fail, as they are shown to an operator.

use node_schedule::{CallFailure, Called, Schedule};
use state_ids::LraId;
use std::alloc::{AllocError, Global};
use std::time::Duration;
use wire_callbacks::{Duty, Kind};

/// The most that are remembered: the first ones.
const MAX_SOUGHT: usize = 1_024;

/// The most that are shown: those that have failed for longest.
const MAX_TOLD: usize = 256;

/// A participant whose last call failed: who it is, what it was called for, and where.
#[derive(Drop)]
pub(crate) struct Sought {
    who: Called,
    kind: Kind,
    link: String,
}

/// A participant whose calls fail, as it is shown.
#[derive(Drop)]
pub struct Plaint {
    pub id: LraId,
    pub member: u8,
    pub kind: Kind,
    pub link: String,
    pub times: u32,
    /// How long ago the first failed call was over.
    pub since: Duration,
    pub came: CallFailure,
    /// In how much time it is called again; `None` while it waits for a thread or is being called.
    pub next: Option<Duration>,
}

fn is_same(a: &Called, b: &Called) -> bool {
    a.id == b.id && a.member == b.member && a.of_end == b.of_end
}

/// Remembers the participant of a duty whose call failed. If there is no room, participants whose
/// calls no longer fail make room; if there is still none, it isn't remembered.
pub(crate) fn note_sought(sought: &mut Vec<Sought>, calls: &Schedule, alloc: Global, duty: &Duty) {
    let who = Called::of(duty);
    let Ok(link) = String::from_str(alloc, duty.link.as_str()) else {
        return;
    };
    let kind = duty.kind;
    for one in sought.iter_mut() {
        if is_same(&one.who, &who) {
            one.kind = kind;
            one.link = link;
            return;
        }
    }
    if sought.len() >= MAX_SOUGHT {
        forget_found(sought, calls);
    }
    if sought.len() < MAX_SOUGHT {
        let _ = sought.push(Sought { who, kind, link });
    }
}

/// Forgets a participant whose answer counted.
pub(crate) fn drop_sought(sought: &mut Vec<Sought>, who: &Called) {
    sought.retain(|one| !is_same(&one.who, who));
}

/// Forgets the participants whose calls no longer fail.
pub(crate) fn forget_found(sought: &mut Vec<Sought>, calls: &Schedule) {
    sought.retain(|one| calls.vain_of(&one.who).is_some());
}

/// Returns how a participant is shown at a moment, if its calls still fail.
fn plaint_of(
    one: &Sought,
    calls: &Schedule,
    alloc: Global,
    now: Duration,
) -> Result<Option<Plaint>, AllocError> {
    let Some(vain) = calls.vain_of(&one.who) else {
        return Ok(None);
    };
    let next = match calls.next_of(&one.who) {
        Some(next) => Some(next.saturating_sub(now)),
        None => None,
    };
    Ok(Some(Plaint {
        id: one.who.id,
        member: one.who.member,
        kind: one.kind,
        link: String::from_str(alloc, one.link.as_str())?,
        times: vain.calls,
        since: now.saturating_sub(vain.since),
        came: vain.came,
        next,
    }))
}

/// Returns the participants that are shown at a moment: the one whose calls failed first comes
/// first.
pub(crate) fn plaints_of(
    sought: &[Sought],
    calls: &Schedule,
    alloc: Global,
    now: Duration,
) -> Result<Vec<Plaint>, AllocError> {
    let mut all = Vec::new(alloc);
    for one in sought.iter().take(MAX_TOLD) {
        if let Some(plaint) = plaint_of(one, calls, alloc, now)? {
            all.push(plaint)?;
        }
    }
    Ok(all)
}
