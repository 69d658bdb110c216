// Forgetting and purging, and what is shown after that.
use crate::scripts::plays;
use std::test::Fail;

const WHAT_WAS_PURGED_IS_NOT_HELD: [(&str, &str); 7] = [
    ("begin 1 0", "began 1.1"),
    ("join 1 1.1 compensate=http://p/c", "joined 1"),
    ("show 1 1.2", "refused E3 NotHeld"),
    ("close 1 1.1", "Closed"),
    ("purge 1 1.1", "purged"),
    ("show 1 1.1", "refused E3 NotHeld"),
    ("show 1 1.5", "refused E2 UnknownLra"),
];

const FORGOTTEN_BEFORE_THE_PURGE: [(&str, &str); 13] = [
    ("begin 1 0", "began 1.1"),
    ("begin 1 0 1.1", "began 1.2 member 1"),
    (
        "join 1 1.2 compensate=http://p/c forget=http://p/f",
        "joined 1",
    ),
    ("close 1 1.2", "Closed"),
    ("forgot 1 1.2 1", "refused E7 NotDue Closed"),
    ("purge 1 1.2", "refused E9 NotRoot"),
    ("purge 1 1.1", "refused E8 NotEnded Active"),
    ("close 1 1.1", "Closed"),
    ("purge 1 1.1", "refused E10 StillToForget 1.2 1"),
    ("forgot 1 1.2 1", "forgot"),
    ("forgot 1 1.2 1", "known"),
    ("purge 1 1.1", "purged"),
    ("show 1 1.2", "refused E3 NotHeld"),
];

const WORDS_THAT_PURGE_NOTHING: [(&str, &str); 6] = [
    ("begin 1 0", "began 1.1"),
    ("purge 1", "refused E1 BadText"),
    ("purge 1 1.1 1", "refused E1 BadText"),
    ("forgot 1 1.1", "refused E1 BadText"),
    ("forgot 1 1.1 0", "refused E1 BadText"),
    ("forgot 1 1.1 33", "refused E1 BadText"),
];

// A purge goes by what its home has learned: a failure that another node took is buried with it.
const A_PURGE_BURIES_A_FAILURE_FROM_ELSEWHERE: [(&str, &str); 20] = [
    ("begin 1 0", "began 1.1"),
    (
        "join 1 1.1 compensate=http://p/c complete=http://p/k forget=http://p/f",
        "joined 1",
    ),
    ("join 1 1.1 after=http://p/a", "joined 2"),
    ("close 1 1.1", "Closing"),
    ("send 1 0 0", "frame 1"),
    ("deliver 1 2", "took"),
    ("report 2 1.1 1 complete failed", "reported"),
    ("show 2 1.1", "FailedToClose"),
    ("answer 1 1.1 1 complete 200", "Done reported"),
    ("show 1 1.1", "Closed"),
    ("answer 1 1.1 2 after 200", "Told told"),
    ("purge 1 1.1", "purged"),
    ("show 1 1.1", "refused E3 NotHeld"),
    ("send 2 0 0", "frame 2"),
    ("deliver 2 1", "took"),
    ("show 1 1.1", "refused E3 NotHeld"),
    ("send 1 0 0", "frame 3"),
    ("deliver 3 2", "took"),
    ("show 2 1.1", "refused E3 NotHeld"),
    ("same 1 2", "same"),
];

#[test]
fn a_purge_before_a_report_comes(rt: HostRuntime) -> Result<(), Fail> {
    assert!(rt; plays(rt.alloc(), 2, &A_PURGE_BURIES_A_FAILURE_FROM_ELSEWHERE)?);
    Ok(())
}

#[test]
fn purges(rt: HostRuntime) -> Result<(), Fail> {
    let plans: [&[(&str, &str)]; 3] = [
        &WHAT_WAS_PURGED_IS_NOT_HELD,
        &FORGOTTEN_BEFORE_THE_PURGE,
        &WORDS_THAT_PURGE_NOTHING,
    ];
    for steps in plans {
        assert!(rt; plays(rt.alloc(), 1, steps)?, "{steps:?}");
    }
    Ok(())
}
