// Listeners, which are notified that an LRA has ended, and frames of version 1, which have no
// listeners.
use crate::scripts::{plays, prints};
use std::test::Fail;

const TOLD_BEFORE_THE_PURGE: [(&str, &str); 14] = [
    ("begin 1 0", "began 1.1"),
    ("join 1 1.1 after=http://p/a", "joined 1"),
    ("told 1 1.1 1", "refused E7 NotDue Active"),
    ("sendold 1 3", "refused E15 Gap 2"),
    ("sendold 1 0", "refused E23 NeedsVersion2"),
    ("sendold 1 2", "frame 1"),
    ("close 1 1.1", "Closed"),
    ("duties 1", "after 1.1 1"),
    ("purge 1 1.1", "refused E24 StillToTell 1.1 1"),
    ("answer 1 1.1 1 after 503", "Again"),
    ("answer 1 1.1 1 after 200", "Told told"),
    ("told 1 1.1 1", "known"),
    ("purge 1 1.1", "purged"),
    ("told 1 1.1 1", "refused E3 NotHeld"),
];

/// A closed child may still be cancelled as long as its root wants nothing, so its listener waits.
const TOLD_ONCE_THE_ROOT_IS_DECIDED: [(&str, &str); 9] = [
    ("begin 1 0", "began 1.1"),
    ("begin 1 0 1.1", "began 1.2 member 1"),
    ("join 1 1.2 after=http://p/a", "joined 1"),
    ("close 1 1.2", "Closed"),
    ("duties 1", "none"),
    ("cancel 1 1.1", "Cancelled"),
    ("member 1 1.2 1", "Compensated"),
    ("duties 1", "after 1.2 1"),
    ("told 1 1.2 1", "told"),
];

/// A participant of the saga may also listen. It is notified after everything else.
const A_PARTICIPANT_THAT_LISTENS: [(&str, &str); 10] = [
    ("begin 1 0", "began 1.1"),
    (
        "join 1 1.1 after=http://p/a compensate=http://p/c forget=http://p/f",
        "joined 1",
    ),
    ("cancel 1 1.1", "Cancelling"),
    ("duties 1", "compensate 1.1 1"),
    ("answer 1 1.1 1 after 200", "refused E7 NotDue Cancelling"),
    ("answer 1 1.1 1 compensate 409", "Failed reported"),
    ("duties 1", "forget 1.1 1, after 1.1 1"),
    ("answer 1 1.1 1 after broken", "Again"),
    ("answer 1 1.1 1 after 410", "Told told"),
    ("answer 1 1.1 1 after 204", "Told known"),
];

/// A participant takes two bytes less in version 1.
const FRAMES_OF_BOTH_LENGTHS: [(&str, &str); 9] = [
    ("begin 1 0", "began 1.1"),
    ("join 1 1.1 compensate=http://p/c", "joined 1"),
    ("send 1 0", "frame 1"),
    ("sendold 1 0", "frame 2"),
    ("deliver 1 1 86", "refused E1 BadText"),
    ("deliver 1 1 85", "took"),
    ("deliver 2 1 84", "refused E1 BadText"),
    ("deliver 2 1 83", "took"),
    ("deliver 2 1 82", "refused E16 BadFrame 82"),
];

/// Frames of either version bring a node the same.
const EITHER_VERSION_BRINGS_THE_SAME: [(&str, &str); 10] = [
    ("begin 1 0", "began 1.1"),
    ("join 1 1.1 compensate=http://p/c", "joined 1"),
    ("send 1 0 0 0", "frame 1"),
    ("sendold 1 0 0 0", "frame 2"),
    ("deliver 1 2", "took"),
    ("deliver 2 3 40", "refused E16 BadFrame 34"),
    ("deliver 2 3", "took"),
    ("same 1 2", "same"),
    ("same 1 3", "same"),
    ("same 2 3", "same"),
];

#[test]
fn listeners(rt: HostRuntime) -> Result<(), Fail> {
    let plans: [&[(&str, &str)]; 4] = [
        &TOLD_BEFORE_THE_PURGE,
        &TOLD_ONCE_THE_ROOT_IS_DECIDED,
        &A_PARTICIPANT_THAT_LISTENS,
        &FRAMES_OF_BOTH_LENGTHS,
    ];
    for steps in plans {
        assert!(rt; plays(rt.alloc(), 1, steps)?, "{steps:?}");
    }
    Ok(())
}

#[test]
fn frames_of_both_versions(rt: HostRuntime) -> Result<(), Fail> {
    assert!(rt; plays(rt.alloc(), 3, &EITHER_VERSION_BRINGS_THE_SAME)?);
    Ok(())
}

#[test]
fn lines_that_tell_no_listener(rt: HostRuntime) {
    let lines: [&[u8]; 12] = [
        b"told",
        b"told 1 1.1",
        b"told 1 1.1 0",
        b"told 1 1.1 33",
        b"told 1 1.1 1 1",
        b"sendold",
        b"sendold 1",
        b"sendold 1 0 0",
        b"join 1 1.1 status=http://p/s",
        b"join 1 1.1 after=http://p/a complete=http://p/k",
        b"join 1 1.1 after=http://p/a after=http://p/b",
        b"answer 1 1.1 1 After 200",
    ];
    for line in lines {
        assert!(rt;
            prints(rt.alloc(), line, b"refused E1 BadText\n"),
            "{line:?}"
        );
    }
}
