// Participants: joins, leaves and reports.
use crate::scripts::{plays, prints, run};
use std::alloc::{AllocError, Global};
use std::test::Fail;

const A_PARTICIPANT_WITHOUT_COMPLETE_IS_COMPLETED_AT_THE_CLOSE: [(&str, &str); 7] = [
    ("begin 1 0", "began 1.1"),
    ("join 1 1.1 compensate=http://p/c", "joined 1"),
    ("close 1 1.1", "Closed"),
    ("member 1 1.1 1", "Completed"),
    ("leave 1 1.1 1", "refused E6 NotActive Closed"),
    ("report 1 1.1 1 complete done", "refused E7 NotDue Closed"),
    ("leave 1 1.1 2", "refused E5 UnknownMember"),
];

#[test]
fn links_that_are_refused(rt: HostRuntime) -> Result<(), Fail> {
    let mut input = Vec::new(rt.alloc());
    input.extend_from_slice(b"begin 1 0\n")?;
    input.extend_from_slice(
        b"join 1 1.1 compensate=https://p/c\njoin 1 1.1 complete=http://p/k\n",
    )?;
    push_join(&mut input, 128)?;
    push_join(&mut input, 127)?;
    input.extend_from_slice(b"leave 1 1.1 1\njoin 1 1.1 compensate=http://p/c\n")?;
    let output =
        b"began 1.1\nrefused E1 BadText\nrefused E1 BadText\nrefused E1 BadText\njoined 1\nleft\njoined 2\n";
    assert!(rt; prints(rt.alloc(), &input, output));
    Ok(())
}

/// Appends the line of a join whose link has this many bytes.
fn push_join(input: &mut Vec<u8>, length: usize) -> Result<(), AllocError> {
    let start = b"http://p/";
    input.extend_from_slice(b"join 1 1.1 compensate=")?;
    input.extend_from_slice(start)?;
    for _ in start.len()..length {
        input.push(b'c')?;
    }
    input.push(b'\n')?;
    Ok(())
}

#[test]
fn as_many_members_as_an_lra_has(rt: HostRuntime) -> Result<(), Fail> {
    let text = text_after_joins(rt.alloc(), 33)?;
    assert!(rt;
        text.as_slice()
            .ends_with(b"joined 31\njoined 32\nrefused E11 MembersFull\n")
    );
    Ok(())
}

/// Returns what a script of a begin and this many joins prints.
fn text_after_joins(alloc: Global, joins: usize) -> Result<Vec<u8>, AllocError> {
    let mut input = Vec::new(alloc);
    input.extend_from_slice(b"begin 1 0\n")?;
    for _ in 0..joins {
        input.extend_from_slice(b"join 1 1.1 compensate=http://p/c\n")?;
    }
    let (_, text) = run(alloc, 1, &input);
    Ok(text)
}

const A_CLOSED_NESTED_LRA_IS_COMPENSATED_WHERE_ITS_PARENT_IS_CANCELLED: [(&str, &str); 12] = [
    ("begin 1 0", "began 1.1"),
    ("begin 1 0 1.1", "began 1.2 member 1"),
    (
        "join 1 1.2 compensate=http://p/c complete=http://p/k",
        "joined 1",
    ),
    ("close 1 1.2", "Closing"),
    ("report 1 1.2 1 complete done", "reported"),
    ("report 1 1.2 1 complete done", "known"),
    ("show 1 1.2", "Closed"),
    ("cancel 1 1.1", "Cancelling"),
    ("member 1 1.2 1", "Compensating"),
    ("report 1 1.2 1 compensate done", "reported"),
    ("show 1 1.2", "Cancelled"),
    ("show 1 1.1", "Cancelled"),
];

const REPORTS_BELOW_WHAT_WAS_HEARD_ARE_KNOWN: [(&str, &str); 10] = [
    ("begin 1 0", "began 1.1"),
    (
        "join 1 1.1 complete=http://p/k compensate=http://p/c",
        "joined 1",
    ),
    ("report 1 1.1 1 complete busy", "refused E7 NotDue Active"),
    ("close 1 1.1", "Closing"),
    ("report 1 1.1 1 complete busy", "reported"),
    ("report 1 1.1 1 complete failed", "reported"),
    ("report 1 1.1 1 complete done", "known"),
    (
        "report 1 1.1 1 compensate done",
        "refused E7 NotDue FailedToClose",
    ),
    ("member 1 1.1 1", "FailedToComplete"),
    ("begin 1 0", "began 1.6"),
];

const JOINS_AND_NESTED_LRAS_ARE_NUMBERED_TOGETHER: [(&str, &str); 10] = [
    ("begin 1 0", "began 1.1"),
    ("join 1 1.1 compensate=http://p/c", "joined 1"),
    ("begin 1 0 1.1", "began 1.3 member 2"),
    ("join 1 1.1 compensate=http://p/c", "joined 3"),
    ("leave 1 1.1 2", "refused E5 UnknownMember"),
    ("leave 1 1.1 1", "left"),
    ("member 1 1.1 1", "refused E5 UnknownMember"),
    ("close 1 1.1", "Closed"),
    (
        "join 1 1.1 compensate=http://p/c",
        "refused E6 NotActive Closed",
    ),
    ("begin 1 0 1.1", "refused E6 NotActive Closed"),
];

#[test]
fn joins_that_fit_no_form(rt: HostRuntime) {
    let lines: [&[u8]; 12] = [
        b"join 1 1.1 compensate=http://p/c compensate=http://p/c",
        b"join 1 1.1 compensate=http://p/c status=http://p/s status=http://p/t",
        b"join 1 1.1 compensate=http://p/c before=http://p/a",
        b"join 1 1.1 compensate=http://p/c http://p/k",
        b"join 1 1.1 compensate=http://p/c complete",
        b"join 1 1.1 compensate=http://p/c ",
        b"join 1 1.1 compensate= complete=http://p/k",
        b"join 1 1.1",
        b"join 1",
        b"join 2 1.1 compensate=http://p/c",
        b"join 1 1.1 compensate=http://p/\xff",
        b"join 1 1.1 compensate=http://p/c forget=\xc3\x28",
    ];
    for line in lines {
        assert!(rt;
            prints(rt.alloc(), line, b"refused E1 BadText\n"),
            "{line:?}"
        );
    }
}

const ALL_FOUR_LINKS_IN_ANY_ORDER: [(&str, &str); 5] = [
    ("begin 1 0", "began 1.1"),
    (
        "join 1 1.1 forget=http://p/f status=http://p/s complete=http://p/k compensate=http://p/c",
        "joined 1",
    ),
    ("join 1 1.2 compensate=http://p/c", "refused E3 NotHeld"),
    ("join 1 1.3 compensate=http://p/c", "refused E2 UnknownLra"),
    ("close 1 1.1", "Closing"),
];

#[test]
fn participants(rt: HostRuntime) -> Result<(), Fail> {
    let plans: [&[(&str, &str)]; 5] = [
        &A_PARTICIPANT_WITHOUT_COMPLETE_IS_COMPLETED_AT_THE_CLOSE,
        &A_CLOSED_NESTED_LRA_IS_COMPENSATED_WHERE_ITS_PARENT_IS_CANCELLED,
        &REPORTS_BELOW_WHAT_WAS_HEARD_ARE_KNOWN,
        &JOINS_AND_NESTED_LRAS_ARE_NUMBERED_TOGETHER,
        &ALL_FOUR_LINKS_IN_ANY_ORDER,
    ];
    for steps in plans {
        assert!(rt; plays(rt.alloc(), 1, steps)?, "{steps:?}");
    }
    Ok(())
}
