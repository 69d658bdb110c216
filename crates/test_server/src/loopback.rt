// What tests of running nodes need: journals in memory, an input that ends when a test says so, and
// requests over sockets.

use node_server::{Stores, Unopened};
use sqlite::{Connection, MemStore};
use std::alloc::Global;
use std::io::{ErrorKind, Read, Write};
use std::net::{Ipv4Addr, Net, SocketAddr, SocketAddrV4, TcpListener, TcpStream};
use std::sync::Arc;
use std::sync::atomic::{AtomicU64, Ordering};
use std::test::Fail;
use std::thread;
use std::time::{Clock, Duration};

/// The most milliseconds that a test waits for anything.
pub(crate) const MAX_TURNS: u32 = 20_000;

/// Journals in memory.
#[derive(Drop)]
pub(crate) struct InMemory {
    pub(crate) alloc: Global,
}

impl Stores for InMemory {
    type Store = MemStore;

    fn open(&self, _number: u8) -> Result<Connection<MemStore>, Unopened> {
        match Connection::open_in_memory(self.alloc) {
            Ok(connection) => Ok(connection),
            Err(_) => Err(Unopened::NoMemory),
        }
    }

    fn is_there(&self, _number: u8) -> Result<(), Unopened> {
        Ok(())
    }
}

/// An input that ends once a flag is set.
#[derive(Drop)]
pub(crate) struct Until<C: Clock> {
    pub(crate) clock: C,
    pub(crate) over: Arc<AtomicU64>,
}

impl<C: Clock> Read for Until<C> {
    fn read(&mut self, _buf: &mut [u8]) -> std::io::Result<usize> {
        for _turn in 0..MAX_TURNS {
            if self.over.load(Ordering::SeqCst) == 1 {
                return Ok(0);
            }
            thread::sleep(&self.clock, Duration::from_millis(1));
        }
        Ok(0)
    }
}

/// Fails the test if something isn't so.
pub(crate) fn needs(is_so: bool, what: &str) -> Result<(), Fail> {
    if is_so { Ok(()) } else { Err(Fail::new(what)) }
}

/// Returns a port of the loopback interface.
pub(crate) fn address(port: u16) -> SocketAddr {
    SocketAddr::V4(SocketAddrV4::new(Ipv4Addr::LOCALHOST, port))
}

/// Reads to the end, and returns whether these bytes arrived.
fn hears(stream: &mut TcpStream, wanted: &[u8]) -> Result<bool, Fail> {
    let mut place = 0usize;
    let mut piece = [0u8; 256];
    for _turn in 0..MAX_TURNS {
        let count = match stream.read(&mut piece) {
            Ok(count) => count,
            Err(error) if error.kind() == ErrorKind::Interrupted => 0,
            Err(error) => return Err(Fail::new(error)),
        };
        if count == 0 {
            return Ok(place == wanted.len());
        }
        for byte in piece[..count].iter() {
            if place < wanted.len() && wanted[place] == *byte {
                place += 1;
            } else {
                return Ok(false);
            }
        }
    }
    Ok(false)
}

/// Sends a request to a port, and returns whether the answer is exactly these bytes.
pub(crate) fn answers<R: Net<Stream = TcpStream>>(
    rt: &R,
    port: u16,
    request: &str,
    wanted: &str,
) -> Result<bool, Fail> {
    let mut stream = TcpStream::connect(rt, address(port))?;
    stream.write_all(request.as_bytes())?;
    hears(&mut stream, wanted.as_bytes())
}

/// Sends a request to a port, and returns whether the answer has one of the codes for success.
pub(crate) fn is_done<R: Net<Stream = TcpStream>>(
    rt: &R,
    port: u16,
    request: &str,
) -> Result<bool, Fail> {
    let mut stream = TcpStream::connect(rt, address(port))?;
    stream.write_all(request.as_bytes())?;
    let mut start = [0u8; 10];
    stream.read_exact(&mut start)?;
    Ok(start == *b"HTTP/1.1 2")
}

/// Whether a port takes connections.
fn is_up<R: Net<Stream = TcpStream>>(rt: &R, port: u16) -> bool {
    TcpStream::connect(rt, address(port)).is_ok()
}

/// Whether a request is eventually answered so.
pub(crate) fn comes_to<R: Net<Stream = TcpStream> + Clock>(
    rt: &R,
    port: u16,
    request: &str,
    wanted: &str,
) -> Result<bool, Fail> {
    for _turn in 0..2_000u32 {
        if is_up(rt, port) && answers(rt, port, request, wanted)? {
            return Ok(true);
        }
        thread::sleep(rt, Duration::from_millis(10));
    }
    Ok(false)
}

/// Opens a connection that sends this much and then nothing.
pub(crate) fn stopped<R: Net<Stream = TcpStream>>(
    rt: &R,
    port: u16,
    text: &str,
) -> Result<TcpStream, Fail> {
    let mut stream = TcpStream::connect(rt, address(port))?;
    stream.write_all(text.as_bytes())?;
    Ok(stream)
}

/// Takes one connection as a participant does, reads the head of its request, and answers that the
/// act is done. Returns whether a connection came.
pub(crate) fn take_part<R: Clock>(rt: &R, listener: &TcpListener) -> Result<bool, Fail> {
    listener.set_nonblocking(true)?;
    for _turn in 0..MAX_TURNS {
        if let Ok((mut stream, _)) = listener.accept() {
            let mut piece = [0u8; 512];
            let count = stream.read(&mut piece)?;
            stream.write_all(b"HTTP/1.1 204 No Content\r\n\r\n")?;
            return Ok(count > 0);
        }
        thread::sleep(rt, Duration::from_millis(1));
    }
    Ok(false)
}
