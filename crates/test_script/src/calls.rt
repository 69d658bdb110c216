// Duties, and how answers to calls are interpreted.
use crate::scripts::{plays, prints};
use std::test::Fail;

const AN_ORDER_IS_COMPENSATED_LAST_TO_FIRST: [(&str, &str); 15] = [
    ("begin 1 0", "began 1.1"),
    ("join 1 1.1 compensate=http://flights/cancel", "joined 1"),
    (
        "join 1 1.1 compensate=http://hotels/cancel status=http://hotels/status",
        "joined 2",
    ),
    ("join 1 1.1 compensate=http://payments/refund", "joined 3"),
    ("cancel 1 1.1", "Cancelling"),
    ("duties 1", "compensate 1.1 3"),
    ("answer 1 1.1 3 compensate 200", "Done reported"),
    ("duties 1", "compensate 1.1 2"),
    ("answer 1 1.1 2 compensate 202", "Busy reported"),
    ("duties 1", "status 1.1 2"),
    ("answer 1 1.1 2 status 200 \"Compensated\"", "Done reported"),
    ("duties 1", "compensate 1.1 1"),
    ("answer 1 1.1 1 compensate 204", "Done reported"),
    ("duties 1", "none"),
    ("show 1 1.1", "Cancelled"),
];

const TWO_COMPLETIONS_WITH_A_STATUS_REQUEST: [(&str, &str); 11] = [
    ("begin 1 0", "began 1.1"),
    (
        "join 1 1.1 compensate=http://p/c complete=http://p/k",
        "joined 1",
    ),
    (
        "join 1 1.1 compensate=http://p/c complete=http://p/k status=http://p/s",
        "joined 2",
    ),
    ("close 1 1.1", "Closing"),
    ("duties 1", "complete 1.1 1, complete 1.1 2"),
    ("answer 1 1.1 1 complete 200", "Done reported"),
    ("answer 1 1.1 2 complete 202", "Busy reported"),
    ("member 1 1.1 2", "Completing"),
    ("duties 1", "status 1.1 2"),
    ("answer 1 1.1 2 status 200 \"Completed\"", "Done reported"),
    ("show 1 1.1", "Closed"),
];

const A_CHILD_THAT_IS_CANCELLED_ALONE: [(&str, &str); 11] = [
    ("begin 1 0", "began 1.1"),
    ("begin 1 0 1.1", "began 1.2 member 1"),
    (
        "join 1 1.1 compensate=http://p/c complete=http://p/k",
        "joined 2",
    ),
    ("join 1 1.2 compensate=http://p/c", "joined 1"),
    ("cancel 1 1.2", "Cancelling"),
    ("show 1 1.1", "Active"),
    ("close 1 1.1", "Closing"),
    ("answer 1 1.2 1 compensate 409", "Failed reported"),
    ("show 1 1.2", "FailedToCancel"),
    ("answer 1 1.1 2 complete 204", "Done reported"),
    ("show 1 1.1", "Closed"),
];

const A_SAGA_WITH_A_NESTED_LRA: [(&str, &str); 17] = [
    ("begin 1 0", "began 1.1"),
    ("join 1 1.1 compensate=http://p/c", "joined 1"),
    ("begin 1 0 1.1", "began 1.3 member 2"),
    ("join 1 1.3 compensate=http://p/c", "joined 1"),
    ("join 1 1.3 compensate=http://p/c", "joined 2"),
    ("join 1 1.1 compensate=http://p/c", "joined 3"),
    ("cancel 1 1.1", "Cancelling"),
    ("duties 1", "compensate 1.1 3"),
    ("answer 1 1.1 3 compensate 200", "Done reported"),
    ("duties 1", "compensate 1.3 2"),
    ("answer 1 1.3 2 compensate 200", "Done reported"),
    ("duties 1", "compensate 1.3 1"),
    ("answer 1 1.3 1 compensate 200", "Done reported"),
    ("duties 1", "compensate 1.1 1"),
    ("answer 1 1.1 1 compensate 200", "Done reported"),
    ("duties 1", "none"),
    ("show 1 1.1", "Cancelled"),
];

const A_CANCELLED_CHILD_OF_A_PARENT_THAT_IS_CANCELLED_LATER: [(&str, &str); 20] = [
    ("begin 1 0", "began 1.1"),
    ("join 1 1.1 compensate=http://p/c", "joined 1"),
    ("begin 1 0 1.1", "began 1.3 member 2"),
    ("join 1 1.3 compensate=http://p/c", "joined 1"),
    ("join 1 1.3 compensate=http://p/c", "joined 2"),
    ("join 1 1.1 compensate=http://p/c", "joined 3"),
    ("cancel 1 1.3", "Cancelling"),
    ("duties 1", "compensate 1.3 2"),
    ("answer 1 1.3 2 compensate 410", "Done reported"),
    ("duties 1", "compensate 1.3 1"),
    ("cancel 1 1.1", "Cancelling"),
    ("duties 1", "compensate 1.1 3"),
    ("answer 1 1.1 3 compensate 409", "Failed reported"),
    ("duties 1", "compensate 1.3 1"),
    ("answer 1 1.3 1 compensate 200", "Done reported"),
    ("show 1 1.3", "Cancelled"),
    ("duties 1", "compensate 1.1 1"),
    ("answer 1 1.1 1 compensate 200", "Done reported"),
    ("duties 1", "none"),
    ("show 1 1.1", "FailedToCancel"),
];

const TOLD_TO_FORGET_BEFORE_THE_PURGE: [(&str, &str); 15] = [
    ("begin 1 0", "began 1.1"),
    ("begin 1 0 1.1", "began 1.2 member 1"),
    (
        "join 1 1.2 compensate=http://p/c forget=http://p/f",
        "joined 1",
    ),
    ("close 1 1.2", "Closed"),
    ("purge 1 1.2", "refused E9 NotRoot"),
    ("purge 1 1.1", "refused E8 NotEnded Active"),
    ("duties 1", "none"),
    ("close 1 1.1", "Closed"),
    ("duties 1", "forget 1.2 1"),
    ("purge 1 1.1", "refused E10 StillToForget 1.2 1"),
    ("answer 1 1.2 1 forget 204", "Forgotten forgot"),
    ("forgot 1 1.2 1", "known"),
    ("answer 1 1.2 1 forget 200", "Forgotten known"),
    ("purge 1 1.1", "purged"),
    ("show 1 1.2", "refused E3 NotHeld"),
];

const A_FAILED_COMPENSATION_IS_FORGOTTEN: [(&str, &str); 10] = [
    ("begin 1 0", "began 1.1"),
    (
        "join 1 1.1 compensate=http://p/c forget=http://p/f",
        "joined 1",
    ),
    ("forgot 1 1.1 1", "refused E7 NotDue Active"),
    ("cancel 1 1.1", "Cancelling"),
    ("answer 1 1.1 1 compensate 409", "Failed reported"),
    ("duties 1", "forget 1.1 1"),
    ("answer 1 1.1 1 forget 503", "Again"),
    ("answer 1 1.1 1 forget 404", "Forgotten forgot"),
    ("duties 1", "none"),
    ("forgot 1 1.1 1", "known"),
];

const ANSWERS_THAT_ARE_REFUSED: [(&str, &str); 17] = [
    ("begin 1 0", "began 1.1"),
    (
        "join 1 1.1 compensate=http://p/c forget=http://p/f",
        "joined 1",
    ),
    ("answer 1 1.9 1 status 503", "refused E2 UnknownLra"),
    ("answer 1 1.2 1 status broken", "refused E3 NotHeld"),
    ("answer 1 1.1 2 status 503", "refused E5 UnknownMember"),
    ("answer 1 1.1 1 status 503", "refused E7 NotDue Active"),
    ("answer 1 1.9 1 complete 503", "Again"),
    ("answer 1 1.9 1 complete broken", "Again"),
    ("answer 1 1.9 1 complete 200", "refused E2 UnknownLra"),
    ("answer 1 1.1 1 compensate 200", "refused E7 NotDue Active"),
    ("answer 1 1.1 1 forget 200", "refused E7 NotDue Active"),
    ("close 1 1.1", "Closed"),
    ("answer 1 1.1 1 complete 200", "refused E7 NotDue Closed"),
    ("answer 1 1.1 1 status 410", "refused E7 NotDue Closed"),
    ("answer 1 1.1 1 status 404", "Again"),
    ("answer 1 1.1 1 forget 200", "refused E7 NotDue Closed"),
    ("front 1", "front 3"),
];

const A_BODY_IS_THE_REST_OF_THE_LINE: [(&str, &str); 14] = [
    ("begin 1 0", "began 1.1"),
    ("join 1 1.1 compensate=http://p/c", "joined 1"),
    ("cancel 1 1.1", "Cancelling"),
    ("answer 1 1.1 1 status 200", "Again"),
    ("answer 1 1.1 1 status 200 ", "Again"),
    ("answer 1 1.1 1 status 200 Completed", "Again"),
    ("answer 1 1.1 1 status 200 Compensated now", "Again"),
    ("answer 1 1.1 1 status 200 \"Compensated", "Again"),
    ("answer 1 1.1 1 status 202 Compensated", "Again"),
    ("answer 1 1.1 1 compensate broken 200 Compensated", "Again"),
    (
        "answer 1 1.1 1 status 200   \"Compensated\" \r",
        "Done reported",
    ),
    (
        "answer 1 1.1 1 status 200 FailedToCompensate",
        "Failed reported",
    ),
    ("answer 1 1.1 1 compensate 200 any body", "Done known"),
    ("show 1 1.1", "FailedToCancel"),
];

#[test]
fn duties_and_answers(rt: HostRuntime) -> Result<(), Fail> {
    let plans: [&[(&str, &str)]; 9] = [
        &AN_ORDER_IS_COMPENSATED_LAST_TO_FIRST,
        &TWO_COMPLETIONS_WITH_A_STATUS_REQUEST,
        &A_CHILD_THAT_IS_CANCELLED_ALONE,
        &A_SAGA_WITH_A_NESTED_LRA,
        &A_CANCELLED_CHILD_OF_A_PARENT_THAT_IS_CANCELLED_LATER,
        &TOLD_TO_FORGET_BEFORE_THE_PURGE,
        &A_FAILED_COMPENSATION_IS_FORGOTTEN,
        &ANSWERS_THAT_ARE_REFUSED,
        &A_BODY_IS_THE_REST_OF_THE_LINE,
    ];
    for steps in plans {
        assert!(rt; plays(rt.alloc(), 1, steps)?, "{steps:?}");
    }
    Ok(())
}

#[test]
fn lines_that_ask_for_no_duties_and_give_no_answer(rt: HostRuntime) {
    let lines: [&[u8]; 16] = [
        b"duties",
        b"duties 2",
        b"duties 1 1",
        b"answer",
        b"answer 1 1.1 1 complete",
        b"answer 1 1.1 1 complete ",
        b"answer 1 1.1 1 complete 65536",
        b"answer 1 1.1 1 complete 0200",
        b"answer 1 1.1 1 complete +200",
        b"answer 1 1.1 1 complete Broken",
        b"answer 1 1.1 1 complete  200",
        b"answer 1 1.1 1 Complete 200",
        b"answer 1 1.1 1 leave 200",
        b"answer 1 1.1 33 complete 200",
        b"answer 1 1.1 complete 200",
        b"answer 2 1.1 1 complete 200",
    ];
    for line in lines {
        assert!(rt;
            prints(rt.alloc(), line, b"refused E1 BadText\n"),
            "{line:?}"
        );
    }
    for line in [
        b"answer 1 1.1 1 complete 65535".as_slice(),
        b"answer 1 1.1 1 forget 0",
    ] {
        assert!(rt; prints(rt.alloc(), line, b"Again\n"), "{line:?}");
    }
}
