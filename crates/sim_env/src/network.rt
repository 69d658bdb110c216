// Pulls in transit between nodes, and the answers of participants' hosts.

use crate::halt::Halt;
use crate::luck::Luck;
use state_ids::{Act, Front};
use std::alloc::Global;
use wire_callbacks::Kind;

/// How far a pull has got.
#[derive(Drop)]
pub enum PullStage {
    /// The request is in transit.
    Asked,
    /// The request has come at this moment, and waits.
    Held { since: u64 },
    /// The response is in transit, with these bytes.
    Answered(Vec<u8>),
}

/// What a pull asks.
#[derive(Clone, Copy)]
pub struct PullAsked {
    /// The places of the node that pulls and of the node that is asked.
    pub asker: usize,
    pub teller: usize,
    /// The facts that the pulling node has.
    pub front: Front,
    /// How often the node that is asked had begun anew, as far as the pulling node knew.
    pub anew: u64,
    /// Whether it waits until there is something new.
    pub waits: bool,
}

/// A pull in transit.
#[derive(Drop)]
pub struct Pull {
    pub asked: PullAsked,
    pub stage: PullStage,
}

impl Pull {
    /// Whether the node at a place holds it.
    pub fn is_held_by(&self, place: usize) -> bool {
        self.asked.teller == place && matches!(&self.stage, PullStage::Held { .. })
    }
}

/// How a host answers.
#[derive(Clone, Copy, Debug, PartialEq, Eq)]
pub enum Manner {
    Well,
    /// It accepts, and has to be asked again.
    Busy,
    /// It says that it can't do the act.
    Failing,
    /// It answers 503.
    Down,
    /// It answers 404.
    Missing,
    /// It answers 410.
    Gone,
    /// It cuts its answer off.
    Cut,
    /// It doesn't answer.
    Hangs,
}

/// Returns what a host says about an act when it is asked for the status.
fn status_body(act: Act, manner: Manner) -> &'static str {
    match manner {
        Manner::Failing => match act {
            Act::Complete => "FailedToComplete",
            Act::Compensate => "\"FailedToCompensate\"",
        },
        Manner::Well => match act {
            Act::Complete => "Completed",
            Act::Compensate => "\"Compensated\"\n",
        },
        Manner::Busy => "Completing",
        _ => "",
    }
}

impl Manner {
    pub fn by(luck: &mut Luck) -> Manner {
        match luck.below(12) {
            0..=4 => Manner::Well,
            5 => Manner::Busy,
            6 => Manner::Failing,
            7 => Manner::Down,
            8 => Manner::Missing,
            9 => Manner::Gone,
            10 => Manner::Cut,
            _ => Manner::Hangs,
        }
    }

    fn code(self) -> u64 {
        match self {
            Manner::Well | Manner::Cut | Manner::Hangs => 200,
            Manner::Busy => 202,
            Manner::Failing => 409,
            Manner::Down => 503,
            Manner::Missing => 404,
            Manner::Gone => 410,
        }
    }

    /// Returns the answer to a call of this kind, byte by byte.
    pub fn answer(self, alloc: Global, kind: Kind, act: Act) -> Result<Vec<u8>, Halt> {
        let body = if kind == Kind::Status {
            status_body(act, self)
        } else {
            ""
        };
        let code = if body.is_empty() { self.code() } else { 200 };
        let size = body.len();
        let whole = format!(in alloc; "HTTP/1.1 {code} X\r\nContent-Length: {size}\r\n\r\n{body}")?;
        let mut bytes = whole.into_bytes();
        if self == Manner::Cut {
            bytes.truncate(20);
        }
        Ok(bytes)
    }
}
