// Reading the marks of a participant in order.
ghost use Rattle.std.specs.Prelude.{◌≡◌};
ghost use Rattle.std.specs.Int.{w8};
ghost use Rattle.std.specs.Option.{option_copied};
ghost use Rattle.wire_frames.specs.FrameFields.{number_at};
ghost use Rattle.wire_frames.specs.Reading.{marks_at, outcome_of, told_at};
ghost use Rattle.wire_frames.specs.Rules.{is_mark_for, is_outcome_for};
ghost use Rattle.wire_frames.specs.Seen.{Reads};

use crate::fields::byte;
use crate::input::{Input, Stop};
use crate::version::Version;
use state_facts::{Link, Links};
use state_ids::Outcome;

/// The marks of a participant: what was heard of it, and what it was told.
#[derive(Clone, Copy, Debug, PartialEq, Eq)]
pub struct Marks {
    pub completed: Option<Outcome>,
    pub compensated: Option<Outcome>,
    pub forgotten: bool,
    pub told: bool,
}

fn outcome_of(mark: u8) -> Option<Outcome>
    ensures { result ≡ outcome_of mark }
{
    match mark {
        0 => None,
        1 => Some(Outcome::Busy),
        2 => Some(Outcome::Done),
        _ => Some(Outcome::Failed),
    }
}

/// Reads the mark of what was heard of an act, which is 0 without a link.
fn heard_of<I: Input>(link: Option<&Link>, input: &mut I) -> Result<u8, Stop>
    ensures { Reads (I.seen input.old) (I.seen input.new)
        (λ x. x) result (number_at w8 (is_outcome_for (option_copied link.entry))) }
{
    let place = input.place();
    let mark = byte(input)?;
    if !(mark <= 3 && (link.is_some() || mark == 0)) {
        return Err(Stop::Fault(place));
    }
    Ok(mark)
}

/// Reads the mark of being told to forget, or of the end, which is 0 without a link.
fn mark_of<I: Input>(link: Option<&Link>, input: &mut I) -> Result<u8, Stop>
    ensures { Reads (I.seen input.old) (I.seen input.new)
        (λ x. x) result (number_at w8 (is_mark_for (option_copied link.entry))) }
{
    let place = input.place();
    let mark = byte(input)?;
    if !(mark <= 1 && (link.is_some() || mark == 0)) {
        return Err(Stop::Fault(place));
    }
    Ok(mark)
}

/// Reads the mark of being told of the end, if the version has it.
#[tactic(auto, unfolding(crate::specs::Reading::told_at))]
fn told_of<I: Input>(version: Version, link: Option<&Link>, input: &mut I) -> Result<u8, Stop>
    ensures { Reads (I.seen input.old) (I.seen input.new) (λ x. x) result (told_at version (option_copied link.entry)) }
{
    match version {
        Version::One => Ok(0),
        Version::Two => mark_of(link, input),
    }
}

/// Reads the marks of a participant with these links.
#[tactic(auto, unfolding(crate::specs::Reading::marks_at))]
pub(crate) fn marks_of<I: Input>(
    version: Version,
    links: &Links,
    input: &mut I,
) -> Result<Marks, Stop>
    ensures { Reads (I.seen input.old) (I.seen input.new) (λ x. x) result (marks_at version links.now) }
{
    let completed = heard_of(links.complete(), input)?;
    let compensated = heard_of(links.compensate(), input)?;
    let forgotten = mark_of(links.forget(), input)?;
    let told = told_of(version, links.after(), input)?;
    Ok(Marks {
        completed: outcome_of(completed),
        compensated: outcome_of(compensated),
        forgotten: forgotten == 1,
        told: told == 1,
    })
}
