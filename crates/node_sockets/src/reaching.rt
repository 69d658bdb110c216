// Connects to one of several addresses within a time. The connections use the host's own handle,
// because `log`'s can neither connect within a time nor look up a name.
ghost use Rattle.std.specs.Iterator.{IsFinite};

use crate::signal::Signal;
use std::alloc::{AllocError, Global};
use std::io;
use std::io::{Error, ErrorKind};
use std::net::{Net, SocketAddr, TcpStream};
use std::sync::Wait;
use std::time::{Clock, Duration};

/// How long an attempt at one address may take in the first round over all addresses. It doubles
/// with each round.
const FIRST_TRY_MS: u64 = 500;

/// How long an attempt may take in a later round, so that the program's end needn't wait longer.
const LAST_TRY_MS: u64 = 1_500;

/// Connects to one address, for at most `time`, and not beyond `until`. Fails if the program is to
/// end.
fn connect_until<R: Wait + Clock + Net<Stream = TcpStream>>(
    rt: &R,
    signal: &Signal,
    address: &SocketAddr,
    time: Duration,
    until: Duration,
) -> io::Result<TcpStream> {
    let left = until.saturating_sub(rt.monotonic()?);
    if left.is_zero() || signal.has_ended(rt) {
        return Err(Error::from(ErrorKind::TimedOut));
    }
    TcpStream::connect_timeout(rt, address, left.min(time))
}

/// Makes one round: connects to the first of the addresses that answers. If none does and one was
/// silent, that is the error, because a longer attempt may reach it.
fn try_each<R: Wait + Clock + Net<Stream = TcpStream>>(
    rt: &R,
    signal: &Signal,
    addresses: &[SocketAddr],
    time: Duration,
    until: Duration,
) -> io::Result<TcpStream> {
    let mut last = Error::from(ErrorKind::NotFound);
    for address in addresses {
        match connect_until(rt, signal, address, time, until) {
            Ok(stream) => return Ok(stream),
            Err(error) if last.kind() == ErrorKind::TimedOut => drop(error),
            Err(error) => last = error,
        }
    }
    Err(last)
}

/// Collects all addresses.
fn all_of<A: Iterator<Item = SocketAddr>>(
    alloc: Global,
    addresses: A,
) -> Result<Vec<SocketAddr>, AllocError>
    requires { A.can_next addresses × IsFinite (A.remaining addresses) }
{
    let mut all = Vec::new(alloc);
    for address in addresses {
        all.push(address)?;
    }
    Ok(all)
}

/// Connects to the first of some addresses that answers. Each gets a short attempt, and those that
/// are silent a longer one after all have had theirs, until the time for all of them together is
/// over.
pub fn connect_to_one<R: Wait + Clock + Net<Stream = TcpStream>, A: Iterator<Item = SocketAddr>>(
    rt: &R,
    alloc: Global,
    signal: &Signal,
    addresses: A,
    time: Duration,
) -> io::Result<TcpStream>
    requires { A.can_next addresses × IsFinite (A.remaining addresses) }
{
    let until = rt.monotonic()?.saturating_add(time);
    let Ok(all) = all_of(alloc, addresses) else {
        return Err(Error::from(ErrorKind::OutOfMemory));
    };
    let mut try_ms = FIRST_TRY_MS;
    for _ in rt.forever() {
        let tried = try_each(rt, signal, &all, Duration::from_millis(try_ms), until);
        let is_over = signal.has_ended(rt) || rt.monotonic()? >= until;
        match tried {
            Err(error) if error.kind() == ErrorKind::TimedOut && !is_over => {}
            other => return other,
        }
        try_ms = try_ms.saturating_mul(2).min(LAST_TRY_MS);
    }
    unreachable!()
}
