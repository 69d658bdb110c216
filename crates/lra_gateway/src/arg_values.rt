// Values of single arguments of the command line.

use crate::wrong_arg::{GatewayError, wrong, wrong_unless_full};
use node_sockets::Peer;
use program_args::{ArgsError, host_of, number_of, peer_of, port_of};
use std::alloc::Global;
use std::net::{Ipv4Addr, SocketAddr, SocketAddrV4};
use wire_narayana::Short;

/// The most letters of the name of a short form.
const MOST_NAME: usize = 16;

/// How a node is reached.
#[derive(Drop)]
pub struct Door {
    pub peer: Peer,
    /// The node's port for operators on the same host. `None` if the door leads to a gateway, to
    /// which calls are handed.
    pub operate: Option<u16>,
}

/// Parses an address with a port.
pub(crate) fn address_of(text: &str) -> Option<SocketAddr> {
    match text.parse::<SocketAddr>() {
        Ok(address) if address.port() > 0 => Some(address),
        _ => None,
    }
}

/// Returns the number of milliseconds that the text of an option states, or `usual` if there is no
/// text.
pub(crate) fn time_of<'a>(
    name: &'static str,
    text: Option<&'a str>,
    usual: u64,
) -> Result<u64, GatewayError<'a>> {
    let Some(text) = text else {
        return Ok(usual);
    };
    match number_of(text) {
        Some(time) => Ok(time),
        None => Err(wrong(name, text, "MS has to be a number of milliseconds")),
    }
}

/// Returns the address at which the gateway listens for nodes, and the one at which nodes reach it.
/// If only a port is given, it listens on all IPv4 addresses, and nodes reach it over the loopback
/// interface.
pub(crate) fn calls_of<'a>(
    alloc: Global,
    calls: &'a str,
    via: Option<&'a str>,
) -> Result<(SocketAddr, Option<Peer>), GatewayError<'a>> {
    let Some(via) = via else {
        let Some(port) = port_of(calls) else {
            return Err(wrong("calls=", calls, "without via= it has to be a PORT"));
        };
        let address = SocketAddrV4::new(Ipv4Addr::UNSPECIFIED, port);
        return Ok((SocketAddr::V4(address), None));
    };
    let Some(address) = address_of(calls) else {
        return Err(wrong("calls=", calls, "with via= it has to be IP:PORT"));
    };
    match peer_of(alloc, via) {
        Ok(peer) => Ok((address, Some(peer))),
        Err(fault) => Err(wrong_unless_full(fault, "via=", via, "has to be HOST:PORT")),
    }
}

/// Whether a byte may be in the beginning of ids. Ids are written between quotes in JSON, and in
/// fields.
fn is_base_byte(byte: u8) -> bool {
    byte.is_ascii_graphic() && byte != b'"' && byte != b'\\' && byte != b'?' && byte != b'#'
}

fn are_base_bytes(bytes: &[u8]) -> bool {
    bytes.iter().all(|byte| is_base_byte(*byte))
}

/// Returns the part of a URL behind its scheme.
fn behind_scheme(text: &str) -> Option<&str> {
    if let Some(rest) = text.strip_prefix("http://") {
        return Some(rest);
    }
    text.strip_prefix("https://")
}

/// Returns the beginning of ids that a text gives, without the slashes at its end.
pub(crate) fn base_of(text: &str) -> Option<&str> {
    let base = text.trim_end_matches('/');
    let Some(rest) = behind_scheme(base) else {
        return None;
    };
    if rest.is_empty() || rest.starts_with('/') || !are_base_bytes(base.as_bytes()) {
        return None;
    }
    Some(base)
}

/// Whether a text is a host, or a host and a port.
fn is_place(text: &str) -> bool {
    if host_of(text).is_some() {
        return true;
    }
    let Some((host, port)) = text.rsplit_once(':') else {
        return false;
    };
    host_of(host).is_some() && port_of(port).is_some()
}

/// Returns the hosts that a text allows, separated by commas. If there is no text, any host is
/// allowed.
pub(crate) fn allowed_by<'a>(
    alloc: Global,
    text: Option<&'a str>,
) -> Result<Vec<String>, GatewayError<'a>> {
    let mut hosts = Vec::new(alloc);
    let Some(text) = text else {
        return Ok(hosts);
    };
    for host in text.split(',') {
        if !is_place(host) {
            return Err(wrong(
                "allow=",
                text,
                "has to be HOST or HOST:PORT, with commas between several",
            ));
        }
        let Ok(host) = String::from_str(alloc, host) else {
            return Err(GatewayError::NoMemory);
        };
        if hosts.push(host).is_err() {
            return Err(GatewayError::NoMemory);
        }
    }
    Ok(hosts)
}

fn is_name_byte(byte: u8) -> bool {
    byte.is_ascii_alphanumeric() || byte == b'-' || byte == b'_'
}

fn are_name_bytes(bytes: &[u8]) -> bool {
    bytes.iter().all(|byte| is_name_byte(*byte))
}

/// Whether a text may be the name of a short form.
fn is_name(text: &str) -> bool {
    let bytes = text.as_bytes();
    if bytes.len() < 1 || bytes.len() > MOST_NAME {
        return false;
    }
    are_name_bytes(bytes)
}

/// Whether a text may be the beginning of links behind `http://`: a host, perhaps with a port and a
/// path.
fn is_front(text: &str) -> bool {
    if text.ends_with('/') {
        return false;
    }
    match text.split_once('/') {
        Some((place, _)) => is_place(place),
        None => is_place(text),
    }
}

/// Returns the short form that a text describes: its name, and the beginning for which it stands.
pub(crate) fn short_of(alloc: Global, text: &str) -> Result<Short, ArgsError> {
    let Some((name, long)) = text.split_once('=') else {
        return Err(ArgsError::OtherWords);
    };
    if !is_name(name) || !is_front(long) {
        return Err(ArgsError::OtherWords);
    }
    match Short::new(alloc, name, long) {
        Ok(short) => Ok(short),
        Err(_) => Err(ArgsError::NoMemory),
    }
}

/// Returns how to reach the node that a text names.
fn door_of(alloc: Global, text: &str) -> Result<Door, ArgsError> {
    let (place, operate) = match text.split_once('/') {
        Some((place, port)) => {
            let Some(port) = port_of(port) else {
                return Err(ArgsError::OtherWords);
            };
            (place, Some(port))
        }
        None => (text, None),
    };
    match peer_of(alloc, place) {
        Ok(peer) => Ok(Door { peer, operate }),
        Err(fault) => Err(fault),
    }
}

/// Returns how to reach the nodes of a group. The text separates them by commas.
pub(crate) fn doors_of(alloc: Global, text: &str) -> Result<Vec<Door>, ArgsError> {
    let mut doors = Vec::new(alloc);
    for part in text.split(',') {
        match door_of(alloc, part) {
            Ok(door) => {
                if doors.push(door).is_err() {
                    return Err(ArgsError::NoMemory);
                }
            }
            Err(fault) => return Err(fault),
        }
    }
    Ok(doors)
}
