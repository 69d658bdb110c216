// Nothing is stuck, and one round makes all nodes alike: one script for each.
use crate::scripts::plays;
use std::test::Fail;

/// A child was cancelled, its parent closes, and a listener waits. When the parent is closed, three
/// participants are not final, one gave a link to forget, and one has to be notified of the end. So
/// five answers lead to the purge, each to a call on the list.
const A_TREE_IS_ENDED_BY_ITS_DUTIES_ALONE: [(&str, &str); 28] = [
    ("begin 1 0", "began 1.1"),
    (
        "join 1 1.1 compensate=http://p/c complete=http://p/k",
        "joined 1",
    ),
    ("begin 1 0 1.1", "began 1.3 member 2"),
    (
        "join 1 1.3 compensate=http://p/c forget=http://p/f",
        "joined 1",
    ),
    ("join 1 1.3 compensate=http://p/c", "joined 2"),
    ("join 1 1.1 after=http://p/a", "joined 3"),
    ("cancel 1 1.3", "Cancelling"),
    ("close 1 1.1", "Closing"),
    ("duties 1", "complete 1.1 1, compensate 1.3 2"),
    ("answer 1 1.3 2 compensate 200", "Done reported"),
    ("duties 1", "complete 1.1 1, compensate 1.3 1"),
    ("answer 1 1.1 1 complete 503", "Again"),
    ("answer 1 1.1 1 complete 200", "Done reported"),
    ("show 1 1.1", "Closing"),
    ("duties 1", "compensate 1.3 1"),
    ("purge 1 1.1", "refused E8 NotEnded Closing"),
    ("answer 1 1.3 1 compensate 409", "Failed reported"),
    ("show 1 1.3", "FailedToCancel"),
    ("show 1 1.1", "Closed"),
    ("duties 1", "forget 1.3 1, after 1.1 3"),
    ("purge 1 1.1", "refused E10 StillToForget 1.3 1"),
    ("answer 1 1.3 1 forget 204", "Forgotten forgot"),
    ("duties 1", "after 1.1 3"),
    ("purge 1 1.1", "refused E24 StillToTell 1.1 3"),
    ("answer 1 1.1 3 after 200", "Told told"),
    ("duties 1", "none"),
    ("purge 1 1.1", "purged"),
    ("show 1 1.3", "refused E3 NotHeld"),
];

/// Three nodes diverge. Then each sends a frame since nothing to each other. One frame is cut at
/// first, one arrives twice, an old one arrives late, and node 3 sends its own when it has node
/// 2's.
const ONE_ROUND_AFTER_THREE_WAYS: [(&str, &str); 36] = [
    ("begin 1 0", "began 1.1"),
    (
        "join 1 1.1 compensate=http://p/c complete=http://p/k",
        "joined 1",
    ),
    (
        "join 1 1.1 compensate=http://p/c complete=http://p/k",
        "joined 2",
    ),
    ("close 1 1.1", "Closing"),
    ("send 1 0 0 0", "frame 1"),
    ("deliver 1 2", "took"),
    ("deliver 1 3", "took"),
    ("report 2 1.1 1 complete done", "reported"),
    ("report 3 1.1 2 complete failed", "reported"),
    ("begin 3 0", "began 3.2"),
    ("cancel 3 3.2", "Cancelled"),
    ("show 2 1.1", "Closing"),
    ("same 1 2", "differ"),
    ("same 1 3", "differ"),
    ("same 2 3", "differ"),
    ("send 1 0 0 0", "frame 2"),
    ("send 2 0 0 0", "frame 3"),
    ("deliver 3 3 40", "refused E16 BadFrame 34"),
    ("deliver 3 3", "took"),
    ("send 3 0 0 0", "frame 4"),
    ("deliver 4 2", "took"),
    ("deliver 4 1", "took"),
    ("deliver 3 1", "took"),
    ("deliver 2 3", "took"),
    ("deliver 1 2", "took"),
    ("deliver 2 2", "took"),
    ("deliver 3 1", "took"),
    ("same 1 2", "same"),
    ("same 1 3", "same"),
    ("same 2 3", "same"),
    ("show 1 1.1", "FailedToClose"),
    ("show 2 1.1", "FailedToClose"),
    ("show 3 1.1", "FailedToClose"),
    ("show 1 3.2", "Cancelled"),
    ("show 2 3.2", "Cancelled"),
    ("front 1", "front 4 1 3"),
];

// Only the home calls, according to its own set: another node shows Closing until it learns of the
// end.
const ANOTHER_NODE_LAGS_BEHIND_THE_HOME: [(&str, &str); 13] = [
    ("begin 1 0", "began 1.1"),
    (
        "join 1 1.1 compensate=http://p/c complete=http://p/k",
        "joined 1",
    ),
    ("close 1 1.1", "Closing"),
    ("send 1 0 0", "frame 1"),
    ("deliver 1 2", "took"),
    ("answer 1 1.1 1 complete 200", "Done reported"),
    ("show 1 1.1", "Closed"),
    ("show 2 1.1", "Closing"),
    ("duties 1", "none"),
    ("duties 2", "none"),
    ("send 1 0 0", "frame 2"),
    ("deliver 2 2", "took"),
    ("show 2 1.1", "Closed"),
];

#[test]
fn a_tree_and_its_duties(rt: HostRuntime) -> Result<(), Fail> {
    assert!(rt; plays(rt.alloc(), 1, &A_TREE_IS_ENDED_BY_ITS_DUTIES_ALONE)?);
    Ok(())
}

#[test]
fn what_another_node_shows(rt: HostRuntime) -> Result<(), Fail> {
    assert!(rt; plays(rt.alloc(), 2, &ANOTHER_NODE_LAGS_BEHIND_THE_HOME)?);
    Ok(())
}

#[test]
fn one_round_of_three_nodes(rt: HostRuntime) -> Result<(), Fail> {
    assert!(rt; plays(rt.alloc(), 3, &ONE_ROUND_AFTER_THREE_WAYS)?);
    Ok(())
}
