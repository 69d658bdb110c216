// What no clause says: the texts that outside examples give, and runs that end midway.
ghost use Rattle.std.specs.Prelude.{◌≤◌};

use script_lines::{Ended, ScriptFault, asked_nodes, script};
use std::alloc::{AllocError, Global};
use std::test::Fail;
use wire_http::{OverRead, OverWrite};

/// Runs a script of 1 to 8 nodes over memory.
pub(crate) fn run(alloc: Global, nodes: u8, input: &[u8]) -> (Result<(), ScriptFault>, Vec<u8>)
    requires some { 1 ≤ nodes }
    requires few { nodes ≤ 8 }
{
    let mut reader = OverRead::new(input);
    let mut writer = OverWrite::new(Vec::new(alloc));
    let outcome = script(alloc, &mut reader, &mut writer, nodes);
    (outcome, writer.into_inner())
}

/// Whether a script of one node prints this.
pub(crate) fn prints(alloc: Global, input: &[u8], output: &[u8]) -> bool {
    let (outcome, text) = run(alloc, 1, input);
    outcome.is_ok() && text.as_slice() == output
}

/// Whether a script of `nodes` nodes and of these lines prints these answers, one for each line.
pub(crate) fn plays(alloc: Global, nodes: u8, steps: &[(&str, &str)]) -> Result<bool, AllocError>
    requires some { 1 ≤ nodes }
    requires few { nodes ≤ 8 }
{
    let mut input = Vec::new(alloc);
    let mut output = Vec::new(alloc);
    for (line, answer) in steps {
        push_line(&mut input, line)?;
        push_line(&mut output, answer)?;
    }
    let (outcome, text) = run(alloc, nodes, &input);
    Ok(outcome.is_ok() && text.as_slice() == output.as_slice())
}

/// Appends a line.
fn push_line(text: &mut Vec<u8>, line: &str) -> Result<(), AllocError> {
    text.extend_from_slice(line.as_bytes())?;
    text.extend_from_slice(b"\n")
}

const ID_TEXTS: [(&str, &str); 3] = [
    ("text 3.7", "00000000-0000-8003-8000-000000000007"),
    ("read 00000000-0000-8003-8000-000000000007", "3.7"),
    (
        "read 00000000-0000-4003-8000-000000000007",
        "refused E1 BadText",
    ),
];

const CLOSE_THEN_CANCEL: [(&str, &str); 5] = [
    ("begin 1 0", "began 1.1"),
    ("show 1 1.1", "Active"),
    ("close 1 1.1", "Closed"),
    ("show 1 1.1", "Closed"),
    ("cancel 1 1.1", "refused E6 NotActive Closed"),
];

const A_REFUSED_COMMAND_SPENDS_NO_NUMBER: [(&str, &str); 7] = [
    ("close 1 1.1", "refused E2 UnknownLra"),
    ("begin 1 0", "began 1.1"),
    ("cancel 1 1.1", "Cancelled"),
    ("close 1 1.1", "refused E6 NotActive Cancelled"),
    ("begin 1 5", "began 1.3"),
    ("show 1 1.1", "Cancelled"),
    ("show 1 1.3", "Active"),
];

const IDS_THAT_NAME_NO_LRA: [(&str, &str); 7] = [
    ("begin 1 0", "began 1.1"),
    ("close 1 1.1", "Closed"),
    ("show 1 1.2", "refused E3 NotHeld"),
    ("cancel 1 1.2", "refused E3 NotHeld"),
    ("show 1 1.3", "refused E2 UnknownLra"),
    ("show 1 2.1", "refused E2 UnknownLra"),
    ("close 1 2.1", "refused E2 UnknownLra"),
];

#[test]
fn lines_that_fit_no_command(rt: HostRuntime) {
    let lines: [&[u8]; 22] = [
        b"foo",
        b" ",
        b"begin",
        b"begin 1",
        b"begin 1 ",
        b"begin 1 0 ",
        b"begin  1 0",
        b" begin 1 0",
        b"begin 1 00",
        b"begin 01 0",
        b"begin 2 0",
        b"begin 0 0",
        b"begin 1 +1",
        b"begin 1 18446744073709551616",
        b"begin 1 0\r",
        b"Begin 1 0",
        b"show 1 1",
        b"show 1 9.1",
        b"show 1 1.0",
        b"show 1 1.281474976710656",
        b"text 1.1 1.1",
        b"read \xff\xfe",
    ];
    for line in lines {
        assert!(rt;
            prints(rt.alloc(), line, b"refused E1 BadText\n"),
            "{line:?}"
        );
    }
    assert!(rt; prints(rt.alloc(), b"begin 1 18446744073709551615", b"began 1.1\n"));
}

#[test]
fn empty_lines_and_empty_inputs_print_nothing(rt: HostRuntime) {
    assert!(rt; prints(rt.alloc(), b"", b""));
    assert!(rt; prints(rt.alloc(), b"\n\n", b""));
    assert!(rt;
        prints(
            rt.alloc(),
            b"\nbegin 1 0\n\nshow 1 1.1",
            b"began 1.1\nActive\n"
        )
    );
}

#[test]
fn bytes_that_are_no_text(rt: HostRuntime) {
    assert!(rt;
        prints(
            rt.alloc(),
            b"\xc3\x28\nbegin 1 0\n",
            b"refused E1 BadText\nbegan 1.1\n"
        )
    );
}

#[test]
fn a_line_that_is_too_long_is_one_refusal(rt: HostRuntime) -> Result<(), Fail> {
    for length in [4096, 4097, 4098, 9000] {
        let mut input = vec![in rt.alloc(); b'x'; length]?;
        input.extend_from_slice(b"\nbegin 1 0\n")?;
        assert!(rt;
            prints(rt.alloc(), &input, b"refused E1 BadText\nbegan 1.1\n"),
            "{length}"
        );
    }
    Ok(())
}

#[test]
fn as_many_lras_as_a_home_holds(rt: HostRuntime) -> Result<(), Fail> {
    let (_, text) = run_after(
        rt.alloc(),
        256,
        b"begin 1 0\nclose 1 1.1\nbegin 1 0\nshow 1 1.256\n",
    )?;
    assert!(rt;
        text.as_slice().ends_with(
            b"began 1.256\nrefused E13 LrasFull\nClosed\nrefused E13 LrasFull\nActive\n"
        )
    );
    Ok(())
}

/// Runs a script of this many begins, followed by more lines.
fn run_after(
    alloc: Global,
    begins: usize,
    more: &[u8],
) -> Result<(Result<(), ScriptFault>, Vec<u8>), AllocError> {
    let mut input = Vec::new(alloc);
    for _ in 0..begins {
        input.extend_from_slice(b"begin 1 0\n")?;
    }
    input.extend_from_slice(more)?;
    Ok(run(alloc, 1, &input))
}

/// Returns the words of a text, which are separated by one space.
fn words_of(alloc: Global, text: &str) -> Result<Vec<String>, Fail> {
    let mut words = Vec::new(alloc);
    for word in text.split(' ') {
        words.push(String::from_str(alloc, word)?)?;
    }
    Ok(words)
}

/// Returns how a program with these words ends on an input, and what it writes.
fn ended(alloc: Global, words: &[String], input: &[u8]) -> (Ended, Vec<u8>) {
    let mut reader = OverRead::new(input);
    let mut writer = OverWrite::new(Vec::new(alloc));
    let ended = script_lines::run(alloc, words, &mut reader, &mut writer);
    (ended, writer.into_inner())
}

#[test]
fn words_that_ask_for_no_script_end_with_2(rt: HostRuntime) -> Result<(), Fail> {
    let alloc = rt.alloc();
    for text in [
        "script",
        "script 0",
        "script 9",
        "script 01",
        "script 1 1",
        "script  1",
        "Script 1",
        "serve 1",
        "",
    ] {
        let words = words_of(alloc, text)?;
        assert_eq!(rt; asked_nodes(&words), None);
        let (ended, text) = ended(alloc, &words, b"begin 1 0");
        assert_eq!(rt; ended, Ended::NotAsked);
        assert_eq!(rt; ended.status(), 2);
        assert!(rt; text.is_empty());
    }
    Ok(())
}

#[test]
fn a_script_that_is_asked_for_ends_with_0(rt: HostRuntime) -> Result<(), Fail> {
    let alloc = rt.alloc();
    for (text, nodes) in [("script 1", 1), ("script 8", 8)] {
        let words = words_of(alloc, text)?;
        assert_eq!(rt; asked_nodes(&words), Some(nodes));
        let (ended, text) = ended(alloc, &words, b"begin 1 0");
        assert_eq!(rt; ended, Ended::Ran);
        assert_eq!(rt; ended.status(), 0);
        assert!(rt; text.as_slice() == b"began 1.1\n".as_slice());
    }
    Ok(())
}

#[test]
fn scripts_of_one_node(rt: HostRuntime) -> Result<(), Fail> {
    let plans: [&[(&str, &str)]; 4] = [
        &ID_TEXTS,
        &CLOSE_THEN_CANCEL,
        &A_REFUSED_COMMAND_SPENDS_NO_NUMBER,
        &IDS_THAT_NAME_NO_LRA,
    ];
    for steps in plans {
        assert!(rt; plays(rt.alloc(), 1, steps)?, "{steps:?}");
    }
    Ok(())
}
