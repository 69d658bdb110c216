// If a run has several causes to end, the weightiest one stands, whatever their order.

use crate::loopback::needs;
use node_sockets::{Signal, StopReason};
use std::sync::Wait;
use std::test::Fail;

/// Returns the cause that stands after two are given in this order.
fn stands<R: Wait>(rt: &R, first: StopReason, second: StopReason) -> Option<StopReason> {
    let signal = Signal::new();
    let _first = signal.end(rt, first);
    let _second = signal.end(rt, second);
    signal.stop_reason(rt)
}

/// Whether the weightier of two causes stands, whichever is given first.
fn outweighs<R: Wait>(rt: &R, weightier: StopReason, other: StopReason) -> bool {
    stands(rt, weightier, other) == Some(weightier)
        && stands(rt, other, weightier) == Some(weightier)
}

#[test]
fn the_weightiest_cause_stands(rt: HostRuntime) -> Result<(), Fail> {
    needs(
        outweighs(&rt, StopReason::JournalFailed, StopReason::Full),
        "E18 beside an early end",
    )?;
    needs(
        outweighs(&rt, StopReason::Stopped, StopReason::RunFull),
        "E19 beside E20",
    )?;
    needs(
        outweighs(&rt, StopReason::JournalFailed, StopReason::TrailLost(7)),
        "E18 beside E21",
    )?;
    needs(
        outweighs(&rt, StopReason::JournalFailed, StopReason::Stopped),
        "E18 beside E19",
    )?;
    needs(
        outweighs(&rt, StopReason::Program, StopReason::JournalFailed),
        "the program's end beside E18",
    )
}
