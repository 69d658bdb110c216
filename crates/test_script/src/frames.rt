// Worlds of two nodes that send each other what they have.
use crate::scripts::plays;
use std::test::Fail;

/// Two nodes receive different answers from one participant, and agree on the failure once each has
/// the other's frame.
const FAILURE_AND_SUCCESS: [(&str, &str); 17] = [
    ("begin 1 0", "began 1.1"),
    (
        "join 1 1.1 compensate=http://p/c complete=http://p/k",
        "joined 1",
    ),
    ("close 1 1.1", "Closing"),
    ("send 1 0 0", "frame 1"),
    ("deliver 1 2", "took"),
    ("answer 1 1.1 1 complete 409", "Failed reported"),
    ("answer 2 1.1 1 complete 410", "Done reported"),
    ("show 1 1.1", "FailedToClose"),
    ("show 2 1.1", "Closed"),
    ("send 1 0 0", "frame 2"),
    ("send 2 0 0", "frame 3"),
    ("deliver 2 2", "took"),
    ("deliver 3 1", "took"),
    ("show 1 1.1", "FailedToClose"),
    ("show 2 1.1", "FailedToClose"),
    ("same 1 2", "same"),
    ("front 1", "front 4 1"),
];

/// A child that closed is shown cancelled by nodes that know that its parent is cancelling. A
/// restart changes nothing.
const A_CLOSED_CHILD_OF_A_CANCELLED_PARENT: [(&str, &str); 17] = [
    ("begin 1 0", "began 1.1"),
    ("begin 1 0 1.1", "began 1.2 member 1"),
    (
        "join 1 1.2 compensate=http://p/c complete=http://p/k",
        "joined 1",
    ),
    ("close 1 1.2", "Closing"),
    ("answer 1 1.2 1 complete 200", "Done reported"),
    ("send 1 0 0", "frame 1"),
    ("deliver 1 2", "took"),
    ("cancel 1 1.1", "Cancelling"),
    ("answer 1 1.2 1 compensate 200", "Done reported"),
    ("show 1 1.2", "Cancelled"),
    ("show 2 1.2", "Closed"),
    ("send 1 0 0", "frame 2"),
    ("deliver 2 2", "took"),
    ("show 2 1.2", "Cancelled"),
    ("same 1 2", "same"),
    ("restart 2", "restarted"),
    ("same 1 2", "same"),
];

/// Frames that arrive again and late change nothing.
const FRAMES_COME_AGAIN_AND_LATE: [(&str, &str); 10] = [
    ("begin 1 0", "began 1.1"),
    ("send 1 0 0", "frame 1"),
    ("close 1 1.1", "Closed"),
    ("send 1 0 0", "frame 2"),
    ("deliver 2 2", "took"),
    ("deliver 2 2", "took"),
    ("deliver 2 2", "took"),
    ("deliver 1 2", "took"),
    ("show 2 1.1", "Closed"),
    ("front 2", "front 2 0"),
];

/// A frame since a base that the receiver doesn't count is a gap, and so is a base that its sender
/// doesn't count.
const A_GAP: [(&str, &str); 12] = [
    ("begin 1 0", "began 1.1"),
    ("begin 1 0", "began 1.2"),
    ("begin 1 0", "began 1.3"),
    ("begin 1 0", "began 1.4"),
    ("send 1 0 0", "frame 1"),
    ("deliver 1 2", "took"),
    ("begin 1 0", "began 1.5"),
    ("begin 1 0", "began 1.6"),
    ("send 1 5 0", "frame 2"),
    ("deliver 2 2", "refused E15 Gap 4 0"),
    ("show 2 1.6", "refused E2 UnknownLra"),
    ("send 1 7 0", "refused E15 Gap 6 0"),
];

/// An old frame brings back nothing that was purged.
const NOTHING_PURGED_COMES_BACK: [(&str, &str); 12] = [
    ("begin 1 0", "began 1.1"),
    ("close 1 1.1", "Closed"),
    ("send 1 0 0", "frame 1"),
    ("deliver 1 2", "took"),
    ("send 2 0 0", "frame 2"),
    ("purge 1 1.1", "purged"),
    ("deliver 2 1", "took"),
    ("show 1 1.1", "refused E3 NotHeld"),
    ("send 1 2 0", "frame 3"),
    ("deliver 3 2", "took"),
    ("show 2 1.1", "refused E3 NotHeld"),
    ("same 1 2", "same"),
];

/// A node other than the home reports, and decides nothing.
const ANOTHER_NODE_REPORTS: [(&str, &str); 13] = [
    ("begin 1 0", "began 1.1"),
    (
        "join 1 1.1 compensate=http://p/c complete=http://p/k",
        "joined 1",
    ),
    ("send 1 0 0", "frame 1"),
    ("deliver 1 2", "took"),
    ("report 2 1.1 1 complete done", "refused E7 NotDue Active"),
    ("close 2 1.1", "refused E4 NotHome 1"),
    ("close 1 1.1", "Closing"),
    ("send 1 0 0", "frame 2"),
    ("deliver 2 2", "took"),
    ("report 2 1.1 1 complete done", "reported"),
    ("report 2 1.1 1 complete done", "known"),
    ("show 2 1.1", "Closed"),
    ("show 1 1.1", "Closing"),
];

/// Two nodes diverge, exchange frames and agree: the second example of the README.
const TWO_NODES_AGREE: [(&str, &str); 17] = [
    ("begin 1 0", "began 1.1"),
    (
        "join 1 1.1 compensate=http://hotels/cancel complete=http://hotels/confirm",
        "joined 1",
    ),
    ("close 1 1.1", "Closing"),
    ("send 1 0 0", "frame 1"),
    ("deliver 1 2 40", "refused E16 BadFrame 26"),
    ("deliver 1 2", "took"),
    ("answer 2 1.1 1 complete 200", "Done reported"),
    ("begin 1 0", "began 1.4"),
    ("show 1 1.1", "Closing"),
    ("show 2 1.1", "Closed"),
    ("same 1 2", "differ"),
    ("send 1 3 0", "frame 2"),
    ("send 2 3 0", "frame 3"),
    ("deliver 2 2", "took"),
    ("deliver 3 1", "took"),
    ("show 1 1.1", "Closed"),
    ("same 1 2", "same"),
];

#[test]
fn two_nodes_tell_each_other(rt: HostRuntime) -> Result<(), Fail> {
    let plans: [&[(&str, &str)]; 7] = [
        &FAILURE_AND_SUCCESS,
        &A_CLOSED_CHILD_OF_A_CANCELLED_PARENT,
        &FRAMES_COME_AGAIN_AND_LATE,
        &A_GAP,
        &NOTHING_PURGED_COMES_BACK,
        &ANOTHER_NODE_REPORTS,
        &TWO_NODES_AGREE,
    ];
    for steps in plans {
        assert!(rt; plays(rt.alloc(), 2, steps)?, "{steps:?}");
    }
    Ok(())
}
