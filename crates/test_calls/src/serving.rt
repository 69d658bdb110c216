// One request that a book's clerk serves, from memory to memory.
use crate::books::clerk;
use sqlite::Connection;
use state_book::Clerk;
use std::alloc::Global;
use std::test::Fail;
use wire_api::{Paths, ServeError, serve_one};
use wire_http::{OverRead, OverWrite};

/// Lets a clerk serve one request.
fn served<C: Clerk>(alloc: Global, paths: &Paths, clerk: &mut C) -> Result<(), ServeError> {
    let mut reader = OverRead::new(b"GET /lra HTTP/1.1\r\nHost: p\r\n\r\n".as_slice());
    let mut writer = OverWrite::new(Vec::new(alloc));
    serve_one(alloc, paths, &mut reader, &mut writer, clerk, 0)
}

#[test]
fn a_request_is_served(rt: HostRuntime) -> Result<(), Fail> {
    let alloc = rt.alloc();
    let paths = Paths::new(alloc)?;
    let mut clerk = clerk(alloc, Connection::open_in_memory(alloc)?)?;
    assert!(rt; served(alloc, &paths, &mut clerk).is_ok());
    Ok(())
}
