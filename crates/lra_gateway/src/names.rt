// LRAs and participants, as services name them.

use crate::agent::Agent;
use crate::args::Door;
use crate::gateway::{Gateway, Group};
use state_ids::LraId;
use std::alloc::{AllocError, Global};
use wire_narayana::{id_in, text_of};

/// An LRA: its group, its id there, and how its home is reached.
#[derive(Clone, Copy)]
pub struct NamedLra<'a> {
    pub group: &'a Group,
    pub id: LraId,
    pub home: &'a Door,
}

/// Splits a name into the part without its query and its group, and the group's number. The number
/// is what follows the last dot, if that is a number, and otherwise 1.
fn parted(text: &str) -> (&str, u8) {
    let path = match text.split_once('?') {
        Some((path, _query)) => path,
        None => text,
    };
    let path = path.trim_end_matches('/');
    if let Some((front, number)) = path.rsplit_once('.') {
        if let Ok(number) = number.parse::<u8>() {
            return (front, number);
        }
    }
    (path, 1)
}

/// The contents of a name: the number of a group, and an id there.
#[derive(Clone, Copy)]
pub struct Name {
    pub number: u8,
    pub id: LraId,
}

/// Returns what a text names: the text is a URL of this gateway, or the last part of one.
pub fn name_in(alloc: Global, text: &str) -> Result<Option<Name>, AllocError> {
    let (front, number) = parted(text);
    match id_in(alloc, front.as_bytes())? {
        Some(id) => Ok(Some(Name { number, id })),
        None => Ok(None),
    }
}

/// Returns the LRA of a name, if its group and its home exist.
pub fn lra_of(gateway: &Gateway, name: Option<Name>) -> Option<NamedLra> {
    let Name { number, id } = name?;
    let group = gateway.group(number)?;
    let place = usize::from(id.home().number()).saturating_sub(1);
    let home = group.doors.get(place)?;
    Some(NamedLra { group, id, home })
}

/// Returns an id as services know it, with the group's number behind it unless that is the first
/// group: `URL` or `URL.2`. It is the same text each time, because services use it as the key of
/// their rows.
pub fn url_of<R>(agent: &Agent<R>, group: &Group, id: LraId) -> Result<String, AllocError> {
    let (alloc, number) = (agent.alloc, group.number);
    let url = wire_narayana::url_of(alloc, agent.gateway.base.as_str(), id)?;
    if number <= 1 {
        return Ok(url);
    }
    format!(in alloc; "{url}.{number}")
}

/// Returns the URL at which services find a participant, with the group's number in the same way.
pub fn recovery_of<R>(
    agent: &Agent<R>,
    group: &Group,
    id: LraId,
    member: u8,
) -> Result<String, AllocError> {
    let (alloc, number, base) = (agent.alloc, group.number, agent.gateway.base.as_str());
    if number <= 1 {
        return wire_narayana::recovery_of(alloc, base, id, member);
    }
    let id = text_of(alloc, id)?;
    format!(in alloc; "{base}/lra-coordinator/recovery/{id}.{number}/{member}")
}

/// Returns the number of a participant, with which its path or recovery URL ends.
pub fn member_in(text: &str) -> Option<u8> {
    let (_front, number) = text.trim_end_matches('/').rsplit_once('/')?;
    number.parse::<u8>().ok()
}
