// The sockets of the host, by which nodes listen, connect, read and write.

use std::net::{Net, TcpListener, TcpStream};

/// A host whose sockets are std's.
pub trait Sockets: Net<Listener = TcpListener, Stream = TcpStream> {}

impl<R: Net<Listener = TcpListener, Stream = TcpStream>> Sockets for R {}
