// What all threads of a gateway share. None of it changes an answer, except whose turn it is.

use crate::args::{Door, GatewayArgs};
use crate::port::Port;
use node_sockets::{Peer, Signal};
use sha2::{Digest, Sha256};
use std::alloc::{AllocError, Global};
use std::net::SocketAddr;
use std::sync::atomic::{AtomicU64, Ordering};
use wire_narayana::{Key, Short, Via};

/// Nodes that give out the same ids, and how they and the gateway reach each other.
#[derive(Drop)]
pub struct Group {
    /// 1 for the first group.
    pub number: u8,
    pub doors: Vec<Door>,
    /// The key that seals the links that these nodes store.
    pub key: Key,
    pub via: Via,
    /// The port at which the gateway listens for these nodes.
    pub port: Port,
    turn: AtomicU64,
}

impl Group {
    /// Returns the place of the node whose turn it is to begin an LRA.
    pub fn next_turn(&self) -> usize {
        self.turn.fetch_add(1, Ordering::SeqCst) as usize
    }
}

/// A gateway, as the words of its command line describe it.
#[derive(Drop)]
pub struct Gateway {
    /// The port at which it listens for services.
    pub port: Port,
    /// The beginning of ids, before `/lra-coordinator/`.
    pub base: String,
    /// The time limit of LRAs that are begun without one, in milliseconds; 0 for none.
    pub limit: u64,
    /// How long a close or cancel waits for the end, in milliseconds.
    pub wait: u64,
    /// How long a call is repeated, in milliseconds.
    pub again: u64,
    /// The hosts on which participants may be, each with a port unless all its ports are meant. If
    /// no host is named, any is allowed.
    pub allow: Vec<String>,
    pub shorts: Vec<Short>,
    pub groups: Vec<Group>,
    pub signal: Signal,
    turn: AtomicU64,
    /// The second after that of the last complaint.
    quiet: AtomicU64,
}

impl Gateway {
    /// Returns the place of the group whose turn it is to begin an LRA.
    pub fn next_turn(&self) -> usize {
        self.turn.fetch_add(1, Ordering::SeqCst) as usize
    }

    /// Whether a complaint may be logged in this second: only one may.
    pub fn may_complain(&self, second: u64) -> bool {
        self.quiet
            .fetch_max(second.saturating_add(1), Ordering::SeqCst)
            <= second
    }

    /// Returns the group with a number, if there is one.
    pub fn group(&self, number: u8) -> Option<&Group> {
        self.groups.get(usize::from(number).checked_sub(1)?)
    }

    /// Returns the port of the group with a number, or the port for services for 0.
    pub fn port_of(&self, number: u8) -> &Port {
        match self.group(number) {
            Some(group) => &group.port,
            None => &self.port,
        }
    }
}

/// Returns the key of a group. The first group has the key of the gateway. A seal of one group
/// isn't a seal of another.
fn key_for(key: &Key, number: u8) -> Key {
    if number <= 1 {
        return *key;
    }
    let mut hasher = Sha256::new();
    hasher.update(&key.bytes);
    hasher.update(&[number]);
    Key {
        bytes: hasher.finalize(),
    }
}

/// Returns the address at which the gateway listens for the nodes of a group: one port further for
/// each group.
fn calls_for(calls: SocketAddr, number: u8) -> SocketAddr {
    let port = calls
        .port()
        .saturating_add(u16::from(number.saturating_sub(1)));
    SocketAddr::new(calls.ip(), port)
}

/// Returns the address at which the nodes of a group reach the gateway.
fn via_for(
    alloc: Global,
    via: &Option<Peer>,
    calls: SocketAddr,
    number: u8,
) -> Result<Via, AllocError> {
    let Some(peer) = via else {
        return Ok(Via {
            host: None,
            port: calls.port(),
        });
    };
    let host = String::from_str(alloc, peer.host.as_str())?;
    let port = peer
        .port
        .saturating_add(u16::from(number.saturating_sub(1)));
    Ok(Via {
        host: Some(host),
        port,
    })
}

/// Makes the groups that the words ask for.
fn groups_of(
    alloc: Global,
    key: &Key,
    via: &Option<Peer>,
    calls: SocketAddr,
    asked: Vec<Vec<Door>>,
) -> Result<Vec<Group>, AllocError> {
    let mut groups = Vec::new(alloc);
    let mut number = 0u8;
    for doors in asked {
        number = number.saturating_add(1);
        let calls = calls_for(calls, number);
        groups.push(Group {
            number,
            doors,
            key: key_for(key, number),
            via: via_for(alloc, via, calls, number)?,
            port: Port::new(alloc, calls, via.is_none()),
            turn: AtomicU64::new(0),
        })?;
    }
    Ok(groups)
}

/// Makes the gateway that the words ask for, with this key.
pub fn gateway_of(alloc: Global, asked: GatewayArgs, key: &Key) -> Result<Gateway, AllocError> {
    let GatewayArgs {
        listen,
        base,
        calls,
        via,
        limit,
        wait,
        again,
        allow,
        shorts,
        groups,
    } = asked;
    let groups = groups_of(alloc, key, &via, calls, groups)?;
    Ok(Gateway {
        port: Port::new(alloc, listen, false),
        base,
        limit,
        wait,
        again,
        allow,
        shorts,
        groups,
        signal: Signal::new(),
        turn: AtomicU64::new(0),
        quiet: AtomicU64::new(0),
    })
}
