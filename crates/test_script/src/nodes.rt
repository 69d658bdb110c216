// Questions to nodes: fronts, and the effects of a tick.
use crate::scripts::{plays, prints};
use std::test::Fail;

const OVERDUE_LRAS_ARE_CANCELLED_ONE_A_TICK: [(&str, &str); 10] = [
    ("begin 1 1000", "began 1.1"),
    ("tick 1 999", "quiet"),
    ("tick 1 1000", "expired 1.1"),
    ("show 1 1.1", "Cancelled"),
    ("begin 1 1001", "began 1.3"),
    ("tick 1 1000", "quiet"),
    ("begin 1 0", "began 1.4"),
    ("tick 1 18446744073709551615", "expired 1.3"),
    ("tick 1 18446744073709551615", "quiet"),
    ("show 1 1.4", "Active"),
];

const OF_TWO_THAT_ARE_OVERDUE_THE_LESSER_NUMBER_IS_FIRST: [(&str, &str); 8] = [
    ("begin 1 7", "began 1.1"),
    ("begin 1 5", "began 1.2"),
    ("begin 1 6 1.1", "began 1.3 member 1"),
    ("tick 1 9", "expired 1.1"),
    ("show 1 1.3", "Cancelled"),
    ("tick 1 9", "expired 1.2"),
    ("tick 1 9", "quiet"),
    ("front 1", "front 5"),
];

const WHAT_IS_CLOSED_IS_NOT_OVERDUE: [(&str, &str); 6] = [
    ("tick 1 1", "quiet"),
    ("begin 1 5", "began 1.1"),
    (
        "join 1 1.1 compensate=http://p/c complete=http://p/k",
        "joined 1",
    ),
    ("close 1 1.1", "Closing"),
    ("tick 1 9", "quiet"),
    ("show 1 1.1", "Closing"),
];

const FRONTS_COUNT_WHAT_WAS_ENTERED: [(&str, &str); 7] = [
    ("front 1", "front 0"),
    ("same 1 1", "same"),
    ("begin 1 0", "began 1.1"),
    ("close 1 1.1", "Closed"),
    ("close 1 1.1", "refused E6 NotActive Closed"),
    ("front 1", "front 2"),
    ("same 1 1", "same"),
];

#[test]
fn lines_that_ask_nothing_of_a_node(rt: HostRuntime) {
    let lines: [&[u8]; 31] = [
        b"send",
        b"send 1",
        b"send 1 ",
        b"send 2 0",
        b"send 1 00",
        b"send 1 0 0",
        b"send 1 0 ",
        b"send 1 -1",
        b"send 1 18446744073709551616",
        b"deliver",
        b"deliver 1",
        b"deliver 1 1",
        b"deliver 0 1",
        b"deliver 1 2",
        b"deliver 1 1 01",
        b"deliver 1 1 5 5",
        b"restart",
        b"restart 2",
        b"restart 1 1",
        b"front",
        b"front 2",
        b"front 1 1",
        b"same 1",
        b"same 1 2",
        b"same 2 1",
        b"same 1 1 1",
        b"tick 1",
        b"tick 2 5",
        b"tick 1 05",
        b"tick 1 18446744073709551616",
        b"tick 1 5 5",
    ];
    for line in lines {
        assert!(rt;
            prints(rt.alloc(), line, b"refused E1 BadText\n"),
            "{line:?}"
        );
    }
}

#[test]
fn deadlines_and_fronts(rt: HostRuntime) -> Result<(), Fail> {
    let plans: [&[(&str, &str)]; 4] = [
        &OVERDUE_LRAS_ARE_CANCELLED_ONE_A_TICK,
        &OF_TWO_THAT_ARE_OVERDUE_THE_LESSER_NUMBER_IS_FIRST,
        &WHAT_IS_CLOSED_IS_NOT_OVERDUE,
        &FRONTS_COUNT_WHAT_WAS_ENTERED,
    ];
    for steps in plans {
        assert!(rt; plays(rt.alloc(), 1, steps)?, "{steps:?}");
    }
    Ok(())
}
