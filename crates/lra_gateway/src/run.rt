// The threads of a gateway.

use crate::agent::{Agent, Platform};
use crate::gateway::Gateway;
use crate::serving::{accept, look, serve};
use node_sockets::{StopReason, door_of};
use std::alloc::{AllocError, Global};
use std::io::{ErrorKind, Read};
use std::net::{SocketAddr, TcpListener, TcpStream};
use std::thread;
use std::thread::{Scope, Threads};

/// The number of threads that serve services. Each of them may wait for a node.
const SERVICES: usize = 128;

/// The number of calls that each node makes at a time.
const CALLS_OF_NODE: usize = 4;

/// The work of a thread for the port of this number. 0 is the port for services.
#[derive(Clone, Copy, PartialEq, Eq)]
enum PortRole {
    Accept(u8),
    Look(u8),
    Serve(u8),
}

/// The sockets at which a gateway accepts connections: of services, and of the nodes of each group.
#[derive(Drop)]
struct GatewayListeners {
    services: TcpListener,
    groups: Vec<TcpListener>,
}

impl GatewayListeners {
    fn of(&self, number: u8) -> &TcpListener {
        let place = usize::from(number).wrapping_sub(1);
        self.groups.get(place).unwrap_or(&self.services)
    }
}

/// Adds the roles of a port's threads.
fn push_roles(roles: &mut Vec<PortRole>, number: u8, workers: usize) -> Result<(), AllocError> {
    roles.push(PortRole::Accept(number))?;
    roles.push(PortRole::Look(number))?;
    for _worker in 0..workers {
        roles.push(PortRole::Serve(number))?;
    }
    Ok(())
}

/// Returns the roles of all threads.
fn roles_of(alloc: Global, gateway: &Gateway) -> Result<Vec<PortRole>, AllocError> {
    let mut roles = Vec::new(alloc);
    push_roles(&mut roles, 0, SERVICES)?;
    for group in gateway.groups.iter() {
        let workers = group.doors.len().saturating_mul(CALLS_OF_NODE);
        push_roles(&mut roles, group.number, workers)?;
    }
    Ok(roles)
}

/// Does the work of a role until the program is to end.
fn play<R: Platform>(
    rt: &R,
    alloc: Global,
    gateway: &Gateway,
    listeners: &GatewayListeners,
    role: PortRole,
) {
    let agent = Agent { rt, alloc, gateway };
    match role {
        PortRole::Accept(number) => accept(&agent, gateway.port_of(number), listeners.of(number)),
        PortRole::Look(number) => look(&agent, gateway.port_of(number)),
        PortRole::Serve(number) => serve(&agent, number),
    }
}

/// Starts a thread. Returns false if none was to be had.
fn start<'s, E, R>(
    scope: &Scope<'s, E>,
    rt: &'s R,
    alloc: Global,
    gateway: &'s Gateway,
    listeners: &'s GatewayListeners,
    role: PortRole,
) -> bool
where
    R: Threads + Platform + Sync,
{
    scope
        .spawn(move || play(rt, alloc, gateway, listeners, role))
        .is_ok()
}

/// Starts all threads. Returns whether all were to be had.
fn start_all<'s, E, R>(
    scope: &Scope<'s, E>,
    rt: &'s R,
    alloc: Global,
    gateway: &'s Gateway,
    listeners: &'s GatewayListeners,
) -> bool
where
    R: Threads + Platform + Sync,
{
    let Ok(roles) = roles_of(alloc, gateway) else {
        return false;
    };
    for role in roles {
        if !start(scope, rt, alloc, gateway, listeners, role) {
            return false;
        }
    }
    true
}

/// Reads an input to its end.
fn drain<I: Read + Drop>(mut input: I) {
    let mut bytes = [0u8; 512];
    for _turn in 0..u64::MAX {
        match input.read(&mut bytes) {
            Ok(0) => return,
            Ok(_) => {}
            Err(error) if error.kind() == ErrorKind::Interrupted => {}
            Err(_) => return,
        }
    }
}

/// Makes all threads end. Those that accept connections are woken by a connection.
fn end<R: Platform>(rt: &R, gateway: &Gateway) {
    let _first = gateway.signal.end(rt, StopReason::Program);
    gateway.port.end(rt);
    let _ = TcpStream::connect(rt, door_of(gateway.port.address));
    for group in gateway.groups.iter() {
        group.port.end(rt);
        let _ = TcpStream::connect(rt, door_of(group.port.address));
    }
}

/// Serves services and nodes until the input ends. Returns whether all threads were to be had.
fn run<R, I: Read + Drop + Send>(
    rt: &R,
    alloc: Global,
    gateway: &Gateway,
    listeners: &GatewayListeners,
    input: I,
) -> bool
where
    R: Threads + Platform + Sync,
{
    thread::scope(thread::scope_env(), rt, move |scope| {
        let is_whole = start_all(scope, rt, alloc, gateway, listeners);
        if is_whole {
            drain(input);
        }
        end(rt, gateway);
        is_whole
    })
}

/// Binds the port of an address. Logs it if that fails.
fn bound<R: Platform>(rt: &R, address: SocketAddr) -> Option<TcpListener> {
    match TcpListener::bind(rt, address) {
        Ok(listener) => Some(listener),
        Err(_) => {
            let _ = eprintln!(rt; "lra_gateway: {address} can't be had");
            None
        }
    }
}

/// Binds all ports.
fn listeners_of<R: Platform>(rt: &R, alloc: Global, gateway: &Gateway) -> Option<GatewayListeners> {
    let services = bound(rt, gateway.port.address)?;
    let mut groups = Vec::new(alloc);
    for group in gateway.groups.iter() {
        groups.push(bound(rt, group.port.address)?).ok()?;
    }
    Some(GatewayListeners { services, groups })
}

/// Serves services and nodes until the input ends, and returns the exit status: 1 if a port or a
/// thread wasn't to be had.
pub fn run_gateway<R, I: Read + Drop + Send>(
    rt: &R,
    alloc: Global,
    gateway: &Gateway,
    input: I,
) -> u8
where
    R: Threads + Platform + Sync,
{
    let Some(listeners) = listeners_of(rt, alloc, gateway) else {
        return 1;
    };
    let address = gateway.port.address;
    let _ = eprintln!(rt; "lra_gateway: listens on {address}");
    if run(rt, alloc, gateway, &listeners, input) {
        return 0;
    }
    let _ = eprintln!(rt; "lra_gateway: no thread can be had");
    1
}
