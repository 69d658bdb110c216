// Sagas of the greatest depth and width, and homes that are purged and filled again.
use crate::scripts::prints;
use std::alloc::{AllocError, Global};
use std::test::Fail;

/// A script, and what it has to print.
#[derive(Drop)]
struct Play {
    input: String,
    output: String,
}

impl Play {
    fn new(alloc: Global) -> Play {
        Play {
            input: String::new(alloc),
            output: String::new(alloc),
        }
    }

    /// Appends a line, and what it has to print.
    fn line(&mut self, line: &str, answer: &str) -> Result<(), AllocError> {
        self.input.push_str(line)?;
        self.input.push_str("\n")?;
        self.output.push_str(answer)?;
        self.output.push_str("\n")
    }

    /// Appends a join to an LRA, which has to give this member number.
    fn join(&mut self, alloc: Global, num: u16, member: u16) -> Result<(), AllocError> {
        let line = format!(in alloc; "join 1 1.{num} compensate=http://p/c")?;
        let answer = format!(in alloc; "joined {member}")?;
        self.line(&line, &answer)
    }

    /// Appends lines by which one compensation is due and is done.
    fn compensated(&mut self, alloc: Global, num: u16, member: u16) -> Result<(), AllocError> {
        let due = format!(in alloc; "compensate 1.{num} {member}")?;
        let line = format!(in alloc; "answer 1 1.{num} {member} compensate 200")?;
        self.line("duties 1", &due)?;
        self.line(&line, "Done reported")
    }

    fn is_printed(&self, alloc: Global) -> bool {
        prints(alloc, self.input.as_bytes(), self.output.as_bytes())
    }
}

#[test]
fn thirty_two_participants_compensate_one_after_another(rt: HostRuntime) -> Result<(), Fail> {
    let alloc = rt.alloc();
    let mut play = Play::new(alloc);
    play.line("begin 1 0", "began 1.1")?;
    for member in 1..33_u16 {
        play.join(alloc, 1, member)?;
    }
    play.line("cancel 1 1.1", "Cancelling")?;
    for done in 0..32_u16 {
        play.compensated(alloc, 1, 32 - done)?;
    }
    play.line("duties 1", "none")?;
    play.line("show 1 1.1", "Cancelled")?;
    assert!(rt; play.is_printed(alloc));
    Ok(())
}

/// Begins eight LRAs, each nested in the one before, the first as 1.1 and the others with odd
/// numbers. Each has a participant before and after the LRA that is nested in it.
fn push_eight(alloc: Global, play: &mut Play) -> Result<(), AllocError> {
    play.line("begin 1 0", "began 1.1")?;
    play.join(alloc, 1, 1)?;
    for level in 1..8_u16 {
        let (parent, num) = (2 * level - 1, 2 * level + 1);
        let line = format!(in alloc; "begin 1 0 1.{parent}")?;
        let answer = format!(in alloc; "began 1.{num} member 2")?;
        play.line(&line, &answer)?;
        play.join(alloc, num, 1)?;
    }
    for level in 1..8_u16 {
        play.join(alloc, 2 * level - 1, 3)?;
    }
    Ok(())
}

#[test]
fn eight_levels_compensate_from_the_end(rt: HostRuntime) -> Result<(), Fail> {
    let alloc = rt.alloc();
    let mut play = Play::new(alloc);
    push_eight(alloc, &mut play)?;
    play.line("cancel 1 1.1", "Cancelling")?;
    for level in 1..8_u16 {
        play.compensated(alloc, 2 * level - 1, 3)?;
    }
    for left in 0..8_u16 {
        play.compensated(alloc, 15 - 2 * left, 1)?;
    }
    play.line("duties 1", "none")?;
    play.line("show 1 1.15", "Cancelled")?;
    play.line("show 1 1.1", "Cancelled")?;
    assert!(rt; play.is_printed(alloc));
    Ok(())
}

#[test]
fn a_home_is_purged_and_filled_again(rt: HostRuntime) -> Result<(), Fail> {
    let alloc = rt.alloc();
    let mut play = Play::new(alloc);
    for num in 1..257_u16 {
        let began = format!(in alloc; "began 1.{num}")?;
        play.line("begin 1 0", &began)?;
    }
    play.line("begin 1 0", "refused E13 LrasFull")?;
    for num in 1..257_u16 {
        let close = format!(in alloc; "close 1 1.{num}")?;
        let purge = format!(in alloc; "purge 1 1.{num}")?;
        let began = format!(in alloc; "began 1.{}", 256 + 3 * num)?;
        play.line(&close, "Closed")?;
        play.line(&purge, "purged")?;
        play.line("begin 1 0", &began)?;
    }
    play.line("begin 1 0", "refused E13 LrasFull")?;
    play.line("front 1", "front 1024")?;
    assert!(rt; play.is_printed(alloc));
    Ok(())
}

#[test]
fn a_thousand_and_one_frames_are_kept(rt: HostRuntime) -> Result<(), Fail> {
    let alloc = rt.alloc();
    let mut play = Play::new(alloc);
    play.line("begin 1 0", "began 1.1")?;
    for number in 1..1_002_u16 {
        let sent = format!(in alloc; "frame {number}")?;
        play.line("send 1 0", &sent)?;
    }
    play.line("deliver 1001 1", "took")?;
    play.line("deliver 1 1", "took")?;
    play.line("deliver 1002 1", "refused E1 BadText")?;
    assert!(rt; play.is_printed(alloc));
    Ok(())
}

/// The offsets of the fields in the frame of a node that began an LRA and closed it; it is the only
/// node.
const FIELDS: [usize; 16] = [0, 4, 5, 9, 10, 18, 26, 34, 35, 37, 38, 46, 47, 55, 56, 64];

/// Returns the last field that begins at or before this offset.
fn field_at(offset: usize) -> usize {
    let mut last = 0;
    for field in FIELDS {
        if field <= offset {
            last = field;
        }
    }
    last
}

#[test]
fn a_frame_cut_at_each_length(rt: HostRuntime) -> Result<(), Fail> {
    let alloc = rt.alloc();
    let mut play = Play::new(alloc);
    play.line("begin 1 0", "began 1.1")?;
    play.line("close 1 1.1", "Closed")?;
    play.line("send 1 0", "frame 1")?;
    for kept in 0..65_usize {
        let place = field_at(kept);
        let line = format!(in alloc; "deliver 1 1 {kept}")?;
        let answer = format!(in alloc; "refused E16 BadFrame {place}")?;
        play.line(&line, &answer)?;
    }
    play.line("deliver 1 1 66", "refused E1 BadText")?;
    play.line("deliver 1 1 18446744073709551615", "refused E1 BadText")?;
    play.line("deliver 1 1 65", "took")?;
    play.line("deliver 1 1", "took")?;
    play.line("front 1", "front 2")?;
    assert!(rt; play.is_printed(alloc));
    Ok(())
}
