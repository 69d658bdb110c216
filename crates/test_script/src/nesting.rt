// Nested LRAs.
use crate::scripts::plays;
use std::test::Fail;

const EIGHT_LRAS_EACH_IN_THE_LAST: [(&str, &str); 10] = [
    ("begin 1 0", "began 1.1"),
    ("begin 1 0 1.1", "began 1.2 member 1"),
    ("begin 1 0 1.2", "began 1.3 member 1"),
    ("begin 1 0 1.3", "began 1.4 member 1"),
    ("begin 1 0 1.4", "began 1.5 member 1"),
    ("begin 1 0 1.5", "began 1.6 member 1"),
    ("begin 1 0 1.6", "began 1.7 member 1"),
    ("begin 1 0 1.7", "began 1.8 member 1"),
    ("begin 1 0 1.8", "refused E12 DepthFull"),
    ("begin 1 0 1.7", "began 1.9 member 2"),
];

const PARENTS_THAT_TAKE_NO_LRA: [(&str, &str); 8] = [
    ("begin 1 0 1.1", "refused E2 UnknownLra"),
    ("begin 1 0", "began 1.1"),
    ("close 1 1.1", "Closed"),
    ("begin 1 0 1.1", "refused E6 NotActive Closed"),
    ("begin 1 0 1.2", "refused E3 NotHeld"),
    ("begin 1 0 2.1", "refused E2 UnknownLra"),
    ("begin 1 0 1", "refused E1 BadText"),
    ("begin 1 0 1.1 1.1", "refused E1 BadText"),
];

const A_NESTED_LRA_IS_NO_PARTICIPANT: [(&str, &str); 10] = [
    ("begin 1 0", "began 1.1"),
    ("begin 1 0 1.1", "began 1.2 member 1"),
    ("leave 1 1.1 1", "refused E5 UnknownMember"),
    ("report 1 1.1 1 complete done", "refused E5 UnknownMember"),
    ("member 1 1.1 1", "refused E5 UnknownMember"),
    ("leave 1 1.3 1", "refused E2 UnknownLra"),
    ("member 1 1.1 0", "refused E1 BadText"),
    ("member 1 1.1 33", "refused E1 BadText"),
    ("report 1 1.1 1 close done", "refused E1 BadText"),
    ("report 1 1.1 1 complete failing", "refused E1 BadText"),
];

const A_DECISION_OF_THE_PARENT_IS_ONE_OF_THE_NESTED: [(&str, &str); 7] = [
    ("begin 1 0", "began 1.1"),
    ("begin 1 0 1.1", "began 1.2 member 1"),
    ("close 1 1.2", "Closed"),
    ("show 1 1.1", "Active"),
    ("cancel 1 1.1", "Cancelled"),
    ("show 1 1.2", "Cancelled"),
    ("close 1 1.2", "refused E6 NotActive Cancelled"),
];

#[test]
fn nested_lras(rt: HostRuntime) -> Result<(), Fail> {
    let plans: [&[(&str, &str)]; 4] = [
        &EIGHT_LRAS_EACH_IN_THE_LAST,
        &PARENTS_THAT_TAKE_NO_LRA,
        &A_NESTED_LRA_IS_NO_PARTICIPANT,
        &A_DECISION_OF_THE_PARENT_IS_ONE_OF_THE_NESTED,
    ];
    for steps in plans {
        assert!(rt; plays(rt.alloc(), 1, steps)?, "{steps:?}");
    }
    Ok(())
}
