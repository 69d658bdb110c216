// The participants that a node calls.

use sim_env::{DueCall, Halt};
use std::alloc::Global;
use wire_callbacks::{Duties, Duty};

/// The number of hosts that participants are on.
pub const HOSTS: usize = 5;

/// Returns the call for a duty, and the participant that it goes to.
pub fn due_call(duty: &Duty) -> DueCall {
    DueCall {
        kind: duty.kind,
        id: duty.id,
        member: duty.member,
    }
}

pub fn is_same(one: &DueCall, other: &DueCall) -> bool {
    one.id == other.id && one.member == other.member && one.kind == other.kind
}

pub fn is_among(listed: &[DueCall], who: &DueCall) -> bool {
    for one in listed {
        if is_same(one, who) {
            return true;
        }
    }
    false
}

/// Returns the place of the host of a link `http://h1/..`.
pub fn host_of(duty: &Duty) -> usize {
    let number = duty
        .link
        .as_str()
        .as_bytes()
        .get(8)
        .copied()
        .unwrap_or(b'1');
    usize::from(number.saturating_sub(b'1')) % HOSTS
}

/// Returns the calls on a list.
pub fn named_on(alloc: Global, duties: &Duties) -> Result<Vec<DueCall>, Halt> {
    let mut listed = Vec::new(alloc);
    for duty in duties.as_slice() {
        listed.push(due_call(duty))?;
    }
    Ok(listed)
}

/// Whether two lists have the same calls, in the same order.
pub fn are_same(ones: &[DueCall], others: &[DueCall]) -> bool {
    for (one, other) in ones.iter().zip(others.iter()) {
        if !is_same(one, other) {
            return false;
        }
    }
    ones.len() == others.len()
}
