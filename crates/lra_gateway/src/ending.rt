// What an LRA shows, and how it is ended.

use crate::agent::{Agent, Platform, moment};
use crate::asking::{NodeAnswer, Question, ask_node, ask_now, look_at};
use crate::exchange::Fail;
use crate::names::NamedLra;
use crate::reply::{ServiceAnswer, plain, refusal};
use crate::status_groups::{goes_so, is_to_end};
use http::Method;
use state_ids::LraStatus;
use std::thread;
use std::time::Duration;
use wire_narayana::{Repeat, text_of};

/// The first pause between two looks at an LRA that is to end, in milliseconds. Each further pause
/// is twice as long.
const FIRST_LOOK_MS: u64 = 5;

/// The longest pause.
const LAST_LOOK_MS: u64 = 50;

/// How long to wait before all nodes are asked again, in milliseconds.
const PAUSE_MS: u64 = 100;

/// Whether a node said something about an LRA.
fn is_told(came: &Result<NodeAnswer, Fail>) -> bool {
    match came {
        Ok(answer) => answer.code != 503,
        Err(_) => false,
    }
}

/// Returns what an LRA shows, by its home or, if the home doesn't say, by another node that this
/// gateway asks itself.
pub fn status_of<R: Platform>(agent: &Agent<R>, lra: &NamedLra) -> Result<NodeAnswer, Fail> {
    let alloc = agent.alloc;
    let id = text_of(alloc, lra.id)?;
    let path = format!(in alloc; "/lra/{id}")?;
    let question = look_at(path.as_str());
    let mut last = Err(Fail::Unsent);
    if lra.home.operate.is_some() {
        last = ask_now(agent, &lra.home.peer, &question);
    }
    for door in lra.group.doors.iter() {
        if is_told(&last) {
            return last;
        }
        if door.operate.is_some() {
            last = ask_now(agent, &door.peer, &question);
        }
    }
    last
}

/// Returns what an LRA shows. As long as no node says anything, asks again for some time.
pub fn status_in_time<R: Platform>(agent: &Agent<R>, lra: &NamedLra) -> Result<NodeAnswer, Fail> {
    let until = moment(agent.rt, agent.gateway.again);
    for _ in agent.rt.forever() {
        let came = status_of(agent, lra);
        if is_told(&came) || agent.is_over(until) {
            return came;
        }
        thread::sleep(agent.rt, Duration::from_millis(PAUSE_MS));
    }
    unreachable!()
}

/// Returns the status of an LRA: `GET /lra-coordinator/UID/status`.
pub fn status<R: Platform>(agent: &Agent<R>, lra: &NamedLra) -> Result<ServiceAnswer, Fail> {
    let answer = status_in_time(agent, lra)?;
    if answer.code != 200 {
        return Ok(refusal(agent.alloc, &answer)?);
    }
    Ok(plain(agent.alloc, 200, answer.text("status"))?)
}

/// Returns what an LRA shows after a close or cancel, by the answer or by the refusal of a repeat.
fn shown_by(answer: &NodeAnswer) -> Option<LraStatus> {
    let text = match answer.refused().strip_prefix("E6 NotActive ") {
        Some(status) => status,
        None => answer.text("status"),
    };
    LraStatus::from_name(text).ok()
}

/// Waits for some time for the end of an LRA.
fn wait_for_end<R: Platform>(agent: &Agent<R>, lra: &NamedLra, first: LraStatus) -> LraStatus {
    let until = moment(agent.rt, agent.gateway.wait);
    let mut shown = first;
    let mut pause = FIRST_LOOK_MS;
    for _ in agent.rt.forever() {
        if !is_to_end(shown) || agent.is_over(until) {
            return shown;
        }
        thread::sleep(agent.rt, Duration::from_millis(pause));
        pause = LAST_LOOK_MS.min(pause.saturating_mul(2));
        if let Ok(answer) = status_of(agent, lra) {
            shown = LraStatus::from_name(answer.text("status")).unwrap_or(shown);
        }
    }
    unreachable!()
}

/// Closes or cancels an LRA: `PUT /lra-coordinator/UID/close`, or `/cancel`. A repeat is answered
/// as the first call is; if the LRA was ended the other way, the answer is 412.
pub fn end<R: Platform>(
    agent: &Agent<R>,
    lra: &NamedLra,
    closes: bool,
) -> Result<ServiceAnswer, Fail> {
    let alloc = agent.alloc;
    let id = text_of(alloc, lra.id)?;
    let word = if closes { "close" } else { "cancel" };
    let path = format!(in alloc; "/lra/{id}/{word}")?;
    let question = Question {
        method: Method::PUT,
        path: path.as_str(),
        body: "",
        repeat: Repeat::Always,
    };
    let answer = ask_node(agent, lra.home, &question)?;
    match shown_by(&answer) {
        Some(shown) if goes_so(closes, shown) => {
            let shown = wait_for_end(agent, lra, shown);
            Ok(plain(alloc, 200, shown.name())?)
        }
        Some(shown) => Ok(plain(alloc, 412, shown.name())?),
        None => Ok(refusal(alloc, &answer)?),
    }
}
