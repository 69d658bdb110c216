// A request whose first half arrives in one run, and its second half in the next.

use crate::loopback::{is_done, needs, stopped};
use std::io::{Read, Write};
use std::net::{Net, TcpStream};
use std::test::Fail;

/// The number of pulls after which a run has certainly ended: it takes only sixteen.
const PULLS: u32 = 17;

/// A pull whose body is a byte of garbage, so it is refused.
const GARBAGE: &str = "POST /peer/pull HTTP/1.1\r\nHost: p\r\nContent-Length: 1\r\n\r\nx";

const HALF: &str = "GET /lra HT";

const REST: &str = "TP/1.1\r\nHost: p\r\n\r\n";

/// Sends half a request, makes the run end, and sends the rest: it is answered.
pub(crate) fn visit<R: Net<Stream = TcpStream>>(rt: &R, port: u16) -> Result<(), Fail> {
    let mut stream = stopped(rt, port, HALF)?;
    for _pull in 0..PULLS {
        let _is_done = is_done(rt, port, GARBAGE)?;
    }
    stream.write_all(REST.as_bytes())?;
    let mut start = [0u8; 10];
    stream.read_exact(&mut start)?;
    needs(start == *b"HTTP/1.1 2", "a change of run cuts a request")
}
