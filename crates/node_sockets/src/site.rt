// Where a node listens, and where it reaches the others.
ghost use Rattle.std.specs.Prelude.{◌≡◌, ◌+◌, ◌-◌, ◌^◌, IfNone, min};
ghost use Rattle.std.specs.Net.Socket.{socket_ip, socket_port};

use crate::address::address_of;
use crate::reaching::connect_to_one;
use crate::signal::Signal;
use std::alloc::Global;
use std::io;
use std::io::{Error, ErrorKind};
use std::net::{IpAddr, Ipv4Addr, Ipv6Addr, Net, SocketAddr, TcpStream, ToSocketAddrs};
use std::sync::{Arc, Wait};
use std::time::{Clock, Duration};

/// How long connecting to another node of this process may take.
const REACH_MS: u64 = 1_000;

/// How long connecting to a node of another process may take, however many addresses its name has.
const REACH_APART_MS: u64 = 2_000;

/// Where a node is reached: a host, given by its name or IP address, and a port.
#[derive(Drop)]
pub struct Peer {
    pub host: String,
    pub port: u16,
}

/// Where the other nodes are.
#[derive(Drop)]
enum PeerSites {
    /// In this process, whose first node listens at this port.
    Here(u16),
    /// At these places, maybe in other processes: all nodes in order, including the node itself.
    Apart(Arc<Vec<Peer>>),
}

/// Returns the node with this number, if there is one.
fn peer_at(peers: &[Peer], number: u8) -> Option<&Peer> {
    peers.get(usize::from(number.saturating_sub(1)))
}

/// Returns where a node listens that is reached at this port: at the given address or, if none is
/// given, at this port of the loopback interface.
fn listens_at(said: Option<SocketAddr>, port: u16) -> SocketAddr
    ensures { IfNone said (socket_ip result ≡ IpAddr.V4 Ipv4Addr.LOCALHOST) }
{
    match said {
        Some(address) => address,
        None => address_of(port, 1),
    }
}

/// Connects to a node.
fn connect<R: Wait + Clock + Net<Stream = TcpStream>>(
    rt: &R,
    alloc: Global,
    signal: &Signal,
    peer: &Peer,
) -> io::Result<TcpStream> {
    let (host, time) = (peer.host.as_str(), Duration::from_millis(REACH_APART_MS));
    connect_to_one(
        rt,
        alloc,
        signal,
        (host, peer.port).to_socket_addrs(rt)?,
        time,
    )
}

/// Returns where a node that listens at this address is reached from its own machine: on the
/// loopback interface, if it listens on every interface.
pub fn door_of(address: SocketAddr) -> SocketAddr {
    let port = address.port();
    match address.ip() {
        IpAddr::V4(ip) if ip.is_unspecified() => {
            SocketAddr::new(IpAddr::V4(Ipv4Addr::LOCALHOST), port)
        }
        IpAddr::V6(ip) if ip.is_unspecified() => {
            SocketAddr::new(IpAddr::V6(Ipv6Addr::LOCALHOST), port)
        }
        _ => address,
    }
}

/// Where a node listens, and where it reaches the others.
#[derive(Drop)]
pub struct Site {
    pub listen: SocketAddr,
    /// Where it listens for operators, if it does.
    pub operate: Option<SocketAddr>,
    others: PeerSites,
}

impl Site {
    /// Makes the site of one of the nodes of a process whose first node listens at this port of the
    /// loopback interface.
    pub fn here(first_port: u16, number: u8) -> Site
        ensures ip { socket_ip result.listen ≡ IpAddr.V4 Ipv4Addr.LOCALHOST }
        ensures port { socket_port result.listen ≡ min (first_port + (number - 1)) (2 ^ 16 - 1) }
    {
        Site {
            listen: address_of(first_port, number),
            operate: None,
            others: PeerSites::Here(first_port),
        }
    }

    /// Makes the site of a node that reaches the others at these addresses, in order, and is itself
    /// reached at one of them. If no address to listen at is given, it listens at its own port on
    /// the loopback interface. It listens for operators if that address is given.
    pub fn apart(
        said: Option<SocketAddr>,
        operate: Option<SocketAddr>,
        number: u8,
        peers: Arc<Vec<Peer>>,
    ) -> Site
        ensures { IfNone said (socket_ip result.listen ≡ IpAddr.V4 Ipv4Addr.LOCALHOST) }
    {
        let port = match peer_at(peers.as_slice(), number) {
            Some(peer) => peer.port,
            None => 0,
        };
        Site {
            listen: listens_at(said, port),
            operate,
            others: PeerSites::Apart(peers),
        }
    }

    /// Whether the other nodes may be in other processes.
    pub fn is_apart(&self) -> bool {
        matches!(&self.others, PeerSites::Apart(_))
    }

    /// Returns where the node reaches its own port.
    pub fn own_door(&self) -> SocketAddr {
        door_of(self.listen)
    }

    /// Returns where it reaches its own port for operators, if it has one.
    pub fn own_operators_door(&self) -> Option<SocketAddr> {
        match self.operate {
            Some(address) => Some(door_of(address)),
            None => None,
        }
    }

    /// Connects to another node.
    pub fn reach<R: Wait + Clock + Net<Stream = TcpStream>>(
        &self,
        rt: &R,
        alloc: Global,
        signal: &Signal,
        other: u8,
    ) -> io::Result<TcpStream> {
        match &self.others {
            PeerSites::Here(first) => {
                let time = Duration::from_millis(REACH_MS);
                TcpStream::connect_timeout(rt, &address_of(*first, other), time)
            }
            PeerSites::Apart(peers) => match peer_at(peers.as_slice(), other) {
                Some(peer) => connect(rt, alloc, signal, peer),
                None => Err(Error::from(ErrorKind::NotFound)),
            },
        }
    }
}
