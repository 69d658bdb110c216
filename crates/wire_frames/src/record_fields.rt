// Reading the fields of a record in order.
ghost use Rattle.std.specs.Prelude.{[], ◌≡◌, ◌+◌, ◌-◌, ◌*◌, ◌≤◌, ◌<◌, ◌==◌, ℕ, length, true, false, is_none, is_some, Some, IfOk};
ghost use Rattle.std.specs.Int.{w8, w64};
ghost use Rattle.std.specs.List.{list_any};
ghost use Rattle.state_ids.specs.declared.TheConstants.{MAX_NODES};
ghost use Rattle.state_ids.specs.Fronts.{count};
ghost use Rattle.state_forest.specs.RecordMerges.{held_numbers};
ghost use Rattle.wire_frames.specs.Order.{Follows};
ghost use Rattle.wire_frames.specs.Seen.{Reads};
ghost use Rattle.wire_frames.specs.FrameFields.{each_at, many_at, number_at, vector_at, whole_at};
ghost use Rattle.wire_frames.specs.Frames.{is_beyond, live_at};
ghost use Rattle.wire_frames.specs.Rules.{are_stamps, at_most, is_among, is_home, is_length_for, is_next, is_number, may_be, may_be_after, needs_compensate, next_nested, told_context};
ghost use Rattle.wire_frames.specs.Reading.{after_at, decision_at, last_link_at, link_at, links_at, member_at, members_at, parent_at, participant_at, place_at, read_record_at};
ghost use Rattle.state_facts.specs.Links.{links_together};
ghost use Rattle.wire_frames.specs.declared.version.Version.TheVariants.{One, Two};

use crate::fields::{byte, number};
use crate::input::{Input, Stop};
use crate::links_read::LinksRead;
use crate::marks::marks_of;
use crate::order::Last;
use crate::version::Version;
use state_facts::{Link, Links, MAX_LINK_BYTES};
use state_forest::{Member, Members, Participant, Place, Record, Told};
use state_ids::{Front, NodeId, Verdict};
use std::alloc::Global;

#[tactic(auto, unfolding(crate::specs::Reading::place_at))]
fn place_of<I: Input>(num: u64, input: &mut I) -> Result<Place, Stop>
    ensures { Reads (I.seen input.old) (I.seen input.new) (λ x. x) result (place_at num) }
{
    let place = input.place();
    let above = number(input)?;
    if !(1 <= above && above < num) {
        return Err(Stop::Fault(place));
    }
    let place = input.place();
    let slot = byte(input)?;
    if !(1 <= slot && slot <= 32) {
        return Err(Stop::Fault(place));
    }
    Ok(Place {
        number: above,
        slot,
    })
}

#[tactic(auto, unfolding(crate::specs::Reading::parent_at, crate::specs::Reading::parent_by))]
fn parent_of<I: Input>(num: u64, input: &mut I) -> Result<Option<Place>, Stop>
    ensures { Reads (I.seen input.old) (I.seen input.new) (λ x. x) result (parent_at num) }
{
    let place = input.place();
    match byte(input)? {
        0 => Ok(None),
        1 => Ok(Some(place_of(num, input)?)),
        _ => Err(Stop::Fault(place)),
    }
}

#[tactic(auto, unfolding(crate::specs::Reading::decision_at))]
fn decision_of<I: Input>(input: &mut I) -> Result<Option<Verdict>, Stop>
    ensures { Reads (I.seen input.old) (I.seen input.new) (λ x. x) result decision_at }
{
    let place = input.place();
    match byte(input)? {
        0 => Ok(None),
        1 => Ok(Some(Verdict::Close)),
        2 => Ok(Some(Verdict::Cancel)),
        _ => Err(Stop::Fault(place)),
    }
}

// ---- links

fn is_length_for(needed: bool, allowed: bool, len: u8) -> bool
    ensures { result ≡ is_length_for needed allowed len }
{
    len <= 127 && (!needed || 1 <= len) && (allowed || len == 0)
}

/// Reads a link, which may be needed here, or not allowed.
#[tactic(auto, unfolding(crate::specs::Reading::link_at, crate::specs::Reading::text_at))]
fn link_of<I: Input>(
    alloc: Global,
    needed: bool,
    allowed: bool,
    links: &mut LinksRead,
    input: &mut I,
) -> Result<Option<Link>, Stop>
    ensures gives { Reads (I.seen input.old) (I.seen input.new)
        (λ x. x) result (link_at needed allowed) }
    ensures may { IfOk result (λ link. may_be needed allowed link ≡ true) }
{
    let place = input.place();
    let len = byte(input)?;
    if !is_length_for(needed, allowed, len) {
        return Err(Stop::Fault(place));
    }
    if len == 0 {
        return Ok(None);
    }
    let mut buffer = [0u8; MAX_LINK_BYTES];
    let text = &mut buffer[..len as usize];
    input.fill(place, text)?;
    match links.link(alloc, text)? {
        Some(link) => Ok(Some(link)),
        None => Err(Stop::Fault(place)),
    }
}

/// Reads the link for the end, if the version has it.
#[tactic(auto, unfolding(crate::specs::Reading::after_at))]
fn after_of<I: Input>(
    alloc: Global,
    version: Version,
    needed: bool,
    links: &mut LinksRead,
    input: &mut I,
) -> Result<Option<Link>, Stop>
    ensures gives { Reads (I.seen input.old) (I.seen input.new)
        (λ x. x) result (after_at version needed) }
    ensures may { IfOk result (λ link. may_be_after version needed link ≡ true) }
{
    match version {
        Version::One => Ok(None),
        Version::Two => link_of(alloc, needed, true, links, input),
    }
}

fn needs_compensate(version: Version, complete: &Option<Link>) -> bool
    ensures { result ≡ needs_compensate version complete.now }
{
    version == Version::One || complete.is_some()
}

/// Makes the links of a participant from these, each of which may be there as it is.
#[tactic(auto, using(crate::proofs::Together::links_are))]
fn links_of(
    version: Version,
    complete: Option<Link>,
    compensate: Option<Link>,
    status: Option<Link>,
    forget: Option<Link>,
    after: Option<Link>,
) -> Links
    requires compensate { may_be (needs_compensate version complete) true compensate ≡ true }
    requires status { may_be false (is_some compensate) status ≡ true }
    requires forget { may_be false (is_some compensate) forget ≡ true }
    requires after { may_be_after version (is_none compensate) after ≡ true }
    ensures links { Some result ≡ links_together complete compensate status forget after }
{
    match Links::of(complete, compensate, status, forget, after) {
        Some(links) => links,
        None => unreachable!(),
    }
}

/// Drops these links. Otherwise an early return that drops four links would have a separate end for
/// each that is given.
fn let_go(
    complete: Option<Link>,
    compensate: Option<Link>,
    status: Option<Link>,
    forget: Option<Link>,
) {}

/// Reads the link for the end, and returns these links together with it.
#[tactic(auto, unfolding(crate::specs::Reading::last_link_at))]
fn with_after<I: Input>(
    alloc: Global,
    version: Version,
    complete: Option<Link>,
    compensate: Option<Link>,
    status: Option<Link>,
    forget: Option<Link>,
    links: &mut LinksRead,
    input: &mut I,
) -> Result<Links, Stop>
    requires compensate { may_be (needs_compensate version complete) true compensate ≡ true }
    requires status { may_be false (is_some compensate) status ≡ true }
    requires forget { may_be false (is_some compensate) forget ≡ true }
    ensures { Reads (I.seen input.old) (I.seen input.new) (λ x. x) result
        (last_link_at version complete compensate status forget) }
{
    match after_of(alloc, version, compensate.is_none(), links, input) {
        Ok(after) => Ok(links_of(version, complete, compensate, status, forget, after)),
        Err(stop) => {
            let_go(complete, compensate, status, forget);
            Err(stop)
        }
    }
}

#[tactic(auto, unfolding(crate::specs::Reading::links_at))]
fn given_links<I: Input>(
    alloc: Global,
    version: Version,
    links: &mut LinksRead,
    input: &mut I,
) -> Result<Links, Stop>
    ensures { Reads (I.seen input.old) (I.seen input.new) (λ x. x) result (links_at version) }
{
    let complete = link_of(alloc, false, true, links, input)?;
    let needed = needs_compensate(version, &complete);
    let compensate = link_of(alloc, needed, true, links, input)?;
    let status = link_of(alloc, false, compensate.is_some(), links, input)?;
    let forget = link_of(alloc, false, compensate.is_some(), links, input)?;
    with_after(
        alloc, version, complete, compensate, status, forget, links, input,
    )
}

#[tactic(auto, unfolding(crate::specs::Reading::participant_at))]
fn participant_of<I: Input>(
    alloc: Global,
    version: Version,
    links: &mut LinksRead,
    input: &mut I,
) -> Result<Participant, Stop>
    ensures { Reads (I.seen input.old) (I.seen input.new) (λ x. x) result (participant_at version) }
{
    let given = given_links(alloc, version, links, input)?;
    let marks = marks_of(version, &given, input)?;
    Ok(Participant {
        links: given,
        completed: marks.completed,
        compensated: marks.compensated,
        forgotten: marks.forgotten,
        told: marks.told,
    })
}

// ---- members

/// Reads a member. The number of a nested LRA must be above the last one's and at most the stamp of
/// the home.
#[tactic(auto, unfolding(crate::specs::Reading::member_at, crate::specs::Reading::member_by))]
fn member_of<I: Input>(
    alloc: Global,
    version: Version,
    stamp: u64,
    last: u64,
    links: &mut LinksRead,
    input: &mut I,
) -> Result<Member, Stop>
    ensures { Reads (I.seen input.old) (I.seen input.new) (λ x. x) result (member_at version stamp last) }
{
    let place = input.place();
    match byte(input)? {
        0 => {
            let place = input.place();
            let nested = number(input)?;
            if !(last < nested && nested <= stamp) {
                return Err(Stop::Fault(place));
            }
            Ok(Member::Nested(nested))
        }
        1 => Ok(Member::Participant(participant_of(alloc, version, links, input)?)),
        2 => Ok(Member::Left),
        _ => Err(Stop::Fault(place)),
    }
}

fn next_nested(last: u64, member: &Member) -> u64
    ensures { result ≡ next_nested last member.now }
{
    match member {
        Member::Nested(nested) => *nested,
        Member::Participant(_) => last,
        Member::Left => last,
    }
}

fn each_member<I: Input>(
    alloc: Global,
    version: Version,
    stamp: u64,
    num: u64,
    count: u8,
    links: &mut LinksRead,
    input: &mut I,
) -> Result<Vec<Member>, Stop>
    ensures gives { Reads (I.seen input.old) (I.seen input.new)
        (λ x. x.items) result (each_at (member_at version stamp) next_nested count num) }
    ensures count { IfOk result (λ x. length x.items ≡ count) }
{
    let mut list = Vec::with_capacity(alloc, usize::from(count))?;
    let mut last = num;
    'members: for _ in 0..count {
        let member = member_of(alloc, version, stamp, last, links, input)?;
        last = next_nested(last, &member);
        list.push(member)?;
    }
    Ok(list)
}

#[tactic(auto, unfolding(crate::specs::Reading::members_at))]
fn members_of<I: Input>(
    alloc: Global,
    version: Version,
    stamp: u64,
    num: u64,
    links: &mut LinksRead,
    input: &mut I,
) -> Result<Members, Stop>
    ensures { Reads (I.seen input.old) (I.seen input.new) (λ x. x) result (members_at version stamp num) }
{
    let place = input.place();
    let count = byte(input)?;
    if !(count <= 32) {
        return Err(Stop::Fault(place));
    }
    let list = each_member(alloc, version, stamp, num, count, links, input)?;
    Ok(Members::from_vec(list))
}

// ---- vectors

/// Reads this many numbers, at most as many as there can be nodes.
fn each_number<I: Input>(count: u8, input: &mut I) -> Result<Front, Stop>
    requires some { 1 ≤ count }
    requires few { count ≤ MAX_NODES }
    ensures gives { Reads (I.seen input.old) (I.seen input.new)
        (λ x. x) result (each_at (λ (s : ℕ). whole_at w64) (λ (s x : ℕ). s) count 0) }
    ensures took { IfOk result
        (λ _. length (I.seen input.new).taken ≡ length (I.seen input.old).taken + 8 * count) }
{
    let mut numbers = [0u64; 8];
    'numbers: for place in 0..count {
        numbers[usize::from(place)] = number(input)?;
    }
    Ok(Front::from_counts(&numbers[..usize::from(count)]))
}

/// Reads a vector of this many numbers, which is one field.
#[tactic(auto, unfolding(crate::specs::FrameFields::many_at))]
pub(crate) fn many_of<I: Input>(count: u8, input: &mut I) -> Result<Front, Stop>
    requires some { 1 ≤ count }
    requires few { count ≤ MAX_NODES }
    ensures gives { Reads (I.seen input.old) (I.seen input.new) (λ x. x) result (many_at count) }
    ensures count { IfOk result (λ x. length x ≡ count) }
    ensures took { IfOk result
        (λ _. length (I.seen input.new).taken ≡ length (I.seen input.old).taken + 8 * count) }
{
    if input.lacks(8 * count as u64) {
        return Err(Stop::Fault(input.place()));
    }
    each_number(count, input)
}

/// Whether each number is at most the limit at its place.
pub(crate) fn at_most(limits: &[u64], ns: &[u64]) -> bool
    ensures { result ≡ at_most limits.now ns.now }
{
    ns.iter().zip(limits).all(|(n, limit)| *n <= *limit)
}

// ---- records

fn is_next(last: Last, home: u8, num: u64) -> bool
    ensures { result ≡ is_next last home num }
{
    if last.home == home {
        last.num < num && last.count < 256
    } else {
        true
    }
}

fn is_in(numbers: &[u64], num: u64) -> bool
    ensures { result ≡ list_any (λ n. n == num) numbers.now }
{
    numbers.iter().any(|n| *n == num)
}

fn is_told(told: &Told, num: u64) -> bool
    ensures { result ≡ is_among (held_numbers told.now.held) num }
{
    match &told.held {
        Some(numbers) => is_in(numbers, num),
        None => true,
    }
}

fn is_among(homes: &[Told], home: NodeId, num: u64) -> bool
    ensures { result ≡ is_among (live_at (told_context One [] [] homes.now).lives home) num }
{
    match homes.get(usize::from(home.number() - 1)) {
        Some(told) => is_told(told, num),
        None => true,
    }
}

fn is_number(front: &Front, homes: &[Told], last: Last, home: NodeId, num: u64) -> bool
    ensures { result ≡ is_number (told_context One [] front.now homes.now) last home num }
{
    1 <= num
        && num <= front.count(home)
        && is_next(last, home.number(), num)
        && is_among(homes, home, num)
}

fn home_of<I: Input>(nodes: usize, last: u8, input: &mut I) -> Result<NodeId, Stop>
    requires { nodes ≤ MAX_NODES }
    ensures gives { Reads (I.seen input.old) (I.seen input.new)
        (λ x. x) result (number_at w8 (is_home nodes last)) }
    ensures rule { IfOk result (λ home. is_home nodes last home ≡ true) }
{
    let place = input.place();
    let home = byte(input)?;
    if !(1 <= home && usize::from(home) <= nodes && last <= home) {
        return Err(Stop::Fault(place));
    }
    match NodeId::new(home) {
        Ok(home) => Ok(home),
        Err(_) => unreachable!(),
    }
}

fn num_of<I: Input>(
    front: &Front,
    homes: &[Told],
    last: Last,
    home: NodeId,
    input: &mut I,
) -> Result<u64, Stop>
    ensures gives { Reads (I.seen input.old) (I.seen input.new) (λ x. x) result
        (number_at w64 (is_number (told_context One [] front.now homes.now) last home)) }
    ensures rule { IfOk result (λ num. is_next last home num ≡ true) }
{
    let place = input.place();
    let num = number(input)?;
    if !is_number(front, homes, last, home, num) {
        return Err(Stop::Fault(place));
    }
    Ok(num)
}

fn is_beyond(base: &Front, counts: &Front) -> bool
    ensures { result ≡ is_beyond base.now counts.now }
{
    !counts.below(base)
}

fn are_stamps(base: &Front, front: &Front, home: NodeId, num: u64, stamps: &Front) -> bool
    ensures { result ≡ are_stamps (told_context One base.now front.now []) home num stamps.now }
{
    at_most(front.as_slice(), stamps.as_slice())
        && num <= stamps.count(home)
        && is_beyond(base, stamps)
}

#[tactic(auto, unfolding(crate::specs::FrameFields::vector_at))]
fn stamps_of<I: Input>(
    base: &Front,
    front: &Front,
    home: NodeId,
    num: u64,
    input: &mut I,
) -> Result<Front, Stop>
    ensures { Reads (I.seen input.old) (I.seen input.new) (λ x. x) result
        (vector_at (length front.now) (are_stamps (told_context One base.now front.now []) home num)) }
{
    let place = input.place();
    let stamps = many_of(front.nodes() as u8, input)?;
    if !are_stamps(base, front, home, num, &stamps) {
        return Err(Stop::Fault(place));
    }
    Ok(stamps)
}

/// Reads the record that follows the last one.
#[tactic(auto, unfolding(crate::specs::Reading::read_record_at))]
pub(crate) fn record_of<I: Input>(
    alloc: Global,
    version: Version,
    base: &Front,
    front: &Front,
    homes: &[Told],
    last: Last,
    links: &mut LinksRead,
    input: &mut I,
) -> Result<Record, Stop>
    ensures gives { Reads (I.seen input.old) (I.seen input.new)
        (λ x. x) result (read_record_at (told_context version base.now front.now homes.now) last) }
    ensures follows { IfOk result (λ x. Follows (length front.now) last x) }
{
    let home = home_of(front.nodes(), last.home, input)?;
    let num = num_of(front, homes, last, home, input)?;
    let parent = parent_of(num, input)?;
    let deadline = number(input)?;
    let decision = decision_of(input)?;
    let stamps = stamps_of(base, front, home, num, input)?;
    let members = members_of(alloc, version, stamps.count(home), num, links, input)?;
    Ok(Record {
        home,
        num,
        parent,
        deadline,
        decision,
        stamps,
        members,
    })
}
