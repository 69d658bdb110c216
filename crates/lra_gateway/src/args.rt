// What the words of the command line ask for.

use crate::arg_texts::given_by;
pub use crate::arg_values::Door;
use crate::arg_values::{address_of, allowed_by, base_of, calls_of, doors_of, short_of, time_of};
pub use crate::key::key_of;
pub use crate::wrong_arg::GatewayError;
use crate::wrong_arg::{stray, wrong, wrong_unless_full};
use node_sockets::Peer;
use state_ids::MAX_NODES;
use std::alloc::Global;
use std::net::SocketAddr;
use wire_narayana::Short;

/// The most groups.
const MOST_GROUPS: usize = 8;

/// What words have to be.
const BASE: &str = "URL has to begin with http:// or https:// and a host";

const SHORT: &str =
    "has to be NAME=HOST:PORT/PATH, NAME being 1 to 16 letters, digits, hyphens and underscores";

const GROUP: &str = "has to be HOST:PORT or HOST:PORT/PORT, with commas between several";

const PORTS: &str = "the last group's port, here or in via=, would be above 65535";

/// How long an end is waited for, and how long a call is repeated, in milliseconds.
const USUAL_WAIT: u64 = 1_000;

const USUAL_AGAIN: u64 = 8_000;

/// What the words ask for.
#[derive(Drop)]
pub struct GatewayArgs {
    /// The address at which services reach it.
    pub listen: SocketAddr,
    /// The beginning of ids.
    pub base: String,
    /// The address at which it listens for the nodes of the first group, and the one at which these
    /// reach it; for each further group it is the next port. Nodes reach it over the loopback
    /// interface if none is given.
    pub calls: SocketAddr,
    pub via: Option<Peer>,
    /// The time limit of an LRA that is begun without one, in milliseconds; 0 for none.
    pub limit: u64,
    /// How long a close or cancel waits for the end, in milliseconds.
    pub wait: u64,
    /// How long a call that may be repeated is repeated, in milliseconds.
    pub again: u64,
    /// The hosts on which participants may be, each perhaps with a port; any if none is given.
    pub allow: Vec<String>,
    /// The short forms, the one with the longest beginning first.
    pub shorts: Vec<Short>,
    /// The groups, each with its nodes in order.
    pub groups: Vec<Vec<Door>>,
}

/// Whether this is one of some short forms.
fn stands_in(short: &str, shorts: &[Short]) -> bool {
    for other in shorts {
        if other.short.as_str() == short {
            return true;
        }
    }
    false
}

/// Returns the short forms that words give, each with another name, in their order.
fn shorts_said<'a>(alloc: Global, words: &'a [String]) -> Result<Vec<Short>, GatewayError<'a>> {
    let mut shorts = Vec::new(alloc);
    for word in words {
        let word = word.as_str();
        let Some(text) = word.strip_prefix("short=") else {
            return Err(stray(word));
        };
        let short = match short_of(alloc, text) {
            Ok(short) => short,
            Err(fault) => return Err(wrong_unless_full(fault, "short=", text, SHORT)),
        };
        if stands_in(short.short.as_str(), &shorts) {
            return Err(wrong("short=", text, "each short form needs a NAME of its own"));
        }
        if shorts.push(short).is_err() {
            return Err(GatewayError::NoMemory);
        }
    }
    Ok(shorts)
}

/// Returns the short forms that words give, the one with the longest beginning first.
fn shorts_of<'a>(alloc: Global, words: &'a [String]) -> Result<Vec<Short>, GatewayError<'a>> {
    let mut shorts = match shorts_said(alloc, words) {
        Ok(shorts) => shorts,
        Err(fault) => return Err(fault),
    };
    match shorts.sort_by_key(|short| usize::MAX - short.long.len()) {
        Ok(()) => Ok(shorts),
        Err(_) => Err(GatewayError::NoMemory),
    }
}

/// Returns the nodes of the group that a word gives.
fn group_of<'a>(alloc: Global, word: &'a str) -> Result<Vec<Door>, GatewayError<'a>> {
    let Some(text) = word.strip_prefix("group=") else {
        return Err(stray(word));
    };
    let doors = match doors_of(alloc, text) {
        Ok(doors) => doors,
        Err(fault) => return Err(wrong_unless_full(fault, "group=", text, GROUP)),
    };
    if doors.len() > usize::from(MAX_NODES) {
        return Err(wrong("group=", text, "a group has at most 8 nodes"));
    }
    Ok(doors)
}

/// Returns the groups that words give.
fn groups_of<'a>(alloc: Global, words: &'a [String]) -> Result<Vec<Vec<Door>>, GatewayError<'a>> {
    if words.is_empty() {
        return Err(wrong("group=", "HOST:PORT", "has to be given"));
    }
    let mut groups = Vec::new(alloc);
    for word in words {
        let word = word.as_str();
        match group_of(alloc, word) {
            Ok(doors) => {
                if groups.push(doors).is_err() {
                    return Err(GatewayError::NoMemory);
                }
            }
            Err(fault) => return Err(fault),
        }
        if groups.len() > MOST_GROUPS {
            return Err(wrong("", word, "a gateway has at most 8 groups"));
        }
    }
    Ok(groups)
}

/// Whether `count` port numbers, beginning with this one, are valid.
fn are_ports(first: u16, count: usize) -> bool {
    usize::from(first).saturating_add(count) <= usize::from(u16::MAX) + 1
}

/// Whether there is a port for each group to listen at, and one at which its nodes reach the
/// gateway.
fn have_ports(calls: SocketAddr, via: &Option<Peer>, groups: usize) -> bool {
    if let Some(peer) = via
        && !are_ports(peer.port, groups)
    {
        return false;
    }
    are_ports(calls.port(), groups)
}

/// Returns what the words ask for, or what is wrong with one of them.
pub fn asked_by<'a>(alloc: Global, words: &'a [String]) -> Result<GatewayArgs, GatewayError<'a>> {
    let given = given_by(words)?;
    let Some(listen) = address_of(given.listen) else {
        return Err(wrong("listen=", given.listen, "has to be IP:PORT"));
    };
    let Some(base) = base_of(given.base) else {
        return Err(wrong("base=", given.base, BASE));
    };
    let (calls, via) = calls_of(alloc, given.calls, given.via)?;
    let limit = time_of("limit=", given.limit, 0)?;
    let wait = time_of("wait=", given.wait, USUAL_WAIT)?;
    let again = time_of("again=", given.again, USUAL_AGAIN)?;
    let allow = allowed_by(alloc, given.allow)?;
    let shorts = shorts_of(alloc, given.shorts)?;
    let groups = groups_of(alloc, given.groups)?;
    if !have_ports(calls, &via, groups.len()) {
        return Err(wrong("calls=", given.calls, PORTS));
    }
    let Ok(base) = String::from_str(alloc, base) else {
        return Err(GatewayError::NoMemory);
    };
    Ok(GatewayArgs {
        listen,
        base,
        calls,
        via,
        limit,
        wait,
        again,
        allow,
        shorts,
        groups,
    })
}
