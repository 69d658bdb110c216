// The addresses at which nodes listen.
ghost use Rattle.std.specs.Prelude.{◌≡◌, ◌+◌, ◌-◌, ◌^◌, min};
ghost use Rattle.std.specs.Net.Socket.{socket_ip, socket_port};

use std::net::{IpAddr, Ipv4Addr, SocketAddr};

/// Returns the address at which a node listens, given the port of the first node: on the loopback
/// interface, each node one port above the one before.
pub fn address_of(first: u16, number: u8) -> SocketAddr
    ensures ip { socket_ip result ≡ IpAddr.V4 Ipv4Addr.LOCALHOST }
    ensures port { socket_port result ≡ min (first + (number - 1)) (2 ^ 16 - 1) }
{
    SocketAddr::new(IpAddr::V4(Ipv4Addr::LOCALHOST), port_of(first, number))
}

/// Returns a node's port.
pub fn port_of(first: u16, number: u8) -> u16
    ensures { result ≡ min (first + (number - 1)) (2 ^ 16 - 1) }
{
    first.saturating_add(u16::from(number.saturating_sub(1)))
}
