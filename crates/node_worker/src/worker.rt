// A worker: serves one connection after another.
ghost use Rattle.std.specs.Prelude.{◌≡◌};
ghost use Rattle.node_worker.specs.Working.{Serves, Works, ending_by, ending_of};

use crate::gated::Gated;
use crate::serving::serve_one;
use crate::{Addressee, Arrivals, Connection, Gate};
use state_book::Clerk;
use state_facts::Refusal;
use std::alloc::Global;
use std::sync::Wait;
use wire_api::{Paths, ServeError};
use wire_http::{Sink, Source};

/// Returns a refusal if it ends the run in which it came: E18 to E21.
pub fn ending_by(refusal: Refusal) -> Option<Refusal>
    ensures { result ≡ ending_by refusal }
{
    match refusal {
        Refusal::JournalFailed => Some(Refusal::JournalFailed),
        Refusal::Stopped => Some(Refusal::Stopped),
        Refusal::RunFull => Some(Refusal::RunFull),
        Refusal::TrailLost(number) => Some(Refusal::TrailLost(number)),
        _ => None,
    }
}

fn ending_of(outcome: Result<(), ServeError>) -> Option<Refusal>
    ensures { result ≡ ending_of outcome }
{
    match outcome {
        Err(ServeError::Refused(refusal)) => ending_by(refusal),
        _ => None,
    }
}

/// Serves one connection, and closes it. Returns the refusal that ends the run, if there was one.
fn serve<S: Source + Drop, W: Sink + Drop, C: Clerk>(
    alloc: Global,
    paths: &Paths,
    connection: Connection<S, W>,
    clerk: &mut C,
    addressee: &Addressee,
) -> Option<Refusal>
    ensures { Serves addressee.now S.Source W.Sink C.Clerk connection clerk.old clerk.new result }
{
    let Connection {
        mut reader,
        mut writer,
        now,
    } = connection;
    ending_of(serve_one(
        alloc,
        paths,
        addressee,
        &mut reader,
        &mut writer,
        clerk,
        now,
    ))
}

/// Serves each connection that `next` returns, in order, until it returns `None` or a refusal ends
/// the run, E18 to E21. Returns the clerk, and that refusal. The gate is asked before and after
/// each of the clerk's calls. A pull that is meant for another node than the addressee is refused
/// with status 421, and no call is made for it. If the addressee is one node, a request whose body
/// is wrong is refused with status 400, no call is made for it either, and the answer says why.
pub fn work<A: Arrivals, C: Clerk + Drop, G: Gate, R: Wait>(
    rt: &R,
    alloc: Global,
    paths: &Paths,
    connections: &mut A,
    clerk: C,
    gate: &G,
    addressee: &Addressee,
) -> (C, Option<Refusal>)
    ensures { Works addressee.now A.Arrivals.gives A.Reader.Source
        A.Writer.Sink C.Clerk connections.old clerk connections.new result.0 result.1 }
{
    let mut gated = Gated { clerk, gate };
    for _ in rt.forever() {
        let Some(connection) = connections.next() else {
            return (gated.clerk, None);
        };
        match serve(alloc, paths, connection, &mut gated, addressee) {
            None => {}
            Some(refusal) => return (gated.clerk, Some(refusal)),
        }
    }
    unreachable!()
}
