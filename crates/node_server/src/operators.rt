// The thread that serves a node's operators. It outlives the runs of its node, and never waits for
// a desk.

pub(crate) mod calls;
pub(crate) mod errand;
pub(crate) mod operator_clerk;
pub(crate) mod report;

use crate::operators::calls::OperatorCalls;
use crate::operators::operator_clerk::OperatorClerk;
use crate::operators::report::NodeReport;
use log::Log;
use node_sockets::{
    BufferedSocket, Cutoff, Limit, Readiness, SLICE_MS, SharedSocket, SocketReader, SocketWriter,
    Times, unix_millis,
};
use node_threads::Node;
use std::alloc::Global;
use std::net::TcpStream;
use std::rc::Rc;
use std::sync::Wait;
use std::time::{Clock, Duration};
use wire_api::{Paths, serve_fault};
use wire_http::Fault;
use wire_operators::serve_operator;

/// How long it may take to read a request of which everything is there.
const REQUEST_MS: u64 = 1_000;

/// How long it may take to write its answer. What the operator doesn't accept at once is sent
/// later, beside other requests.
const ANSWER_MS: u64 = 5_000;

/// How long it rests if nothing comes from any connection that waits.
const REST_MS: u64 = 2;

/// A reader and a writer over an operator's connection, and the socket that they share.
type Buffered<'a, R> = (SocketReader<'a, R>, SocketWriter<'a, R>, Rc<SharedSocket>);

/// Makes a reader and a writer over an operator's connection. A read waits for nothing.
fn buffered<'a, R: Wait + Clock>(
    rt: &'a R,
    alloc: Global,
    node: &'a Node,
    stream: TcpStream,
) -> Option<Buffered<'a, R>> {
    stream
        .set_read_timeout(Some(Duration::from_millis(SLICE_MS)))
        .ok()?;
    let times = Times {
        reading: Limit::of_whole(REQUEST_MS),
        writing: Limit::of_millis(ANSWER_MS),
    };
    let (signal, queue, cutoff) = (&node.signal, Some(&node.operators), Cutoff::ProgramEnd);
    let buffered = BufferedSocket::new(rt, alloc, signal, cutoff, queue, None, stream, times);
    let (reader, writer, socket) = buffered.ok()?.into_parts();
    Some((reader, writer, socket))
}

/// Refuses a long request, and reads nothing of it: one thread serves all operators, and none of
/// their calls is that long.
fn refuse_long<'a, R: Wait + Clock>(
    rt: &'a R,
    alloc: Global,
    node: &'a Node,
    stream: TcpStream,
) -> Option<()> {
    let Some((reader, mut writer, socket)) = buffered(rt, alloc, node, stream) else {
        return None;
    };
    let _served = serve_fault(alloc, &mut writer, Fault::BodyTooLong);
    drop(reader);
    drop(writer);
    node.operators.close(rt, socket);
    Some(())
}

/// Serves one operator, if there is memory for it.
fn serve_one<'a, R: Wait + Clock, L: Log>(
    rt: &'a R,
    log: &'a L,
    alloc: Global,
    node: &'a Node,
    paths: &'a Paths,
    errands: &'a OperatorCalls,
    stream: TcpStream,
) -> Option<()> {
    let Some((mut reader, mut writer, socket)) = buffered(rt, alloc, node, stream) else {
        return None;
    };
    let mut clerk = OperatorClerk::new(rt, log, alloc, node, errands);
    let cause = node.unready(rt);
    let known = NodeReport { rt, node, cause };
    let _served = serve_operator(
        alloc,
        paths,
        &known,
        &mut reader,
        &mut writer,
        &mut clerk,
        unix_millis(rt),
    );
    drop(reader);
    drop(writer);
    node.operators.close(rt, socket);
    Some(())
}

/// Serves operators, one after another, until the program is to end. An operator that sends
/// nothing, or accepts nothing, waits beside the others.
pub fn operate<R: Wait + Clock, L: Log>(
    rt: &R,
    log: &L,
    alloc: Global,
    node: &Node,
    paths: &Paths,
    errands: &OperatorCalls,
) {
    let mut silent = 0usize;
    for _ in rt.forever() {
        let Some(pending) = node.operators.take(rt) else {
            return;
        };
        match pending.look_at_once(rt) {
            Readiness::Pending(pending) | Readiness::Held(pending) => {
                silent = silent.saturating_add(1);
                if silent >= node.operators.put_back(rt, pending) {
                    node.operators.rest(rt, Duration::from_millis(REST_MS));
                    silent = 0;
                }
            }
            Readiness::Closed => {}
            Readiness::Long(stream) => {
                let _refused = refuse_long(rt, alloc, node, stream);
            }
            Readiness::Whole(stream) => {
                let _served = serve_one(rt, log, alloc, node, paths, errands, stream);
            }
        }
    }
}
