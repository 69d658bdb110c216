// Reading the fields of a frame before and after its records.
ghost use Rattle.std.specs.Prelude.{[], ◌≡◌, ◌++◌, ◌∷◌, ◌+◌, ◌-◌, ◌*◌, ◌≤◌, ◌<◌, ◌==◌, ℕ, Option, length, slice_index, slice_set, IfOk, OnOk};
ghost use Rattle.std.specs.Int.{w8, w32, w64};
ghost use Rattle.state_ids.specs.declared.TheConstants.{MAX_NODES};
ghost use Rattle.state_forest.specs.RecordMerges.{held_numbers};
ghost use Rattle.state_forest.specs.declared.merging.Told.{Told};
ghost use Rattle.std.specs.List.{AllByRecursion};
ghost use Rattle.theory_history.specs.Merging.{AreToldFrom};
ghost use Rattle.theory_history.specs.Views.{records_at as records_of_home};
ghost use Rattle.wire_frames.specs.Seen.{Answers, Reads};
ghost use Rattle.wire_frames.specs.FrameFields.{each_at, number_at, vector_at};
ghost use Rattle.wire_frames.specs.Rules.{are_counts, at_most, is_frame_length, is_front, is_live_number, is_node_count, start, told_context, after as after_lem};
ghost use Rattle.wire_frames.specs.Reading.{body_at, frame_at, read_live_at, live_list_at, read_record_at, read_records_at};
ghost use Rattle.wire_frames.specs.Encoding.{magic};
ghost use Rattle.wire_frames.specs.Versions.{is_version, version_mark};
ghost use Rattle.wire_frames.specs.Order.{AreEmpty, ArePutAs, lists, live_of_place, next_place, records_told};

use crate::Delta;
use crate::fields::{byte, four_bytes, number, two_bytes};
use crate::input::{Input, Stop};
use crate::links_read::LinksRead;
use crate::order::Last;
use crate::record_fields::{at_most, many_of, record_of};
use crate::version::Version;
use state_forest::{Forest, Record, Told};
use state_ids::{Front, LAST_NUMBER, NodeId};
use std::alloc::{AllocError, Global};

// ---- vectors

fn are_counts(ns: &[u64]) -> bool
    ensures { result ≡ are_counts ns.now }
{
    ns.iter().all(|n| *n <= LAST_NUMBER)
}

#[tactic(auto, unfolding(crate::specs::FrameFields::vector_at))]
fn base_of<I: Input>(nodes: u8, input: &mut I) -> Result<Front, Stop>
    requires some { 1 ≤ nodes }
    requires few { nodes ≤ MAX_NODES }
    ensures gives { Reads (I.seen input.old) (I.seen input.new)
        (λ x. x) result (vector_at nodes are_counts) }
    ensures nodes { IfOk result (λ x. length x ≡ nodes) }
{
    let place = input.place();
    let counts = many_of(nodes, input)?;
    if !are_counts(counts.as_slice()) {
        return Err(Stop::Fault(place));
    }
    Ok(counts)
}

#[tactic(auto, unfolding(crate::specs::FrameFields::vector_at))]
fn front_of<I: Input>(nodes: u8, base: &Front, input: &mut I) -> Result<Front, Stop>
    requires some { 1 ≤ nodes }
    requires few { nodes ≤ MAX_NODES }
    ensures gives { Reads (I.seen input.old) (I.seen input.new)
        (λ x. x) result (vector_at nodes (is_front base.now)) }
    ensures nodes { IfOk result (λ x. length x ≡ nodes) }
{
    let place = input.place();
    let counts = many_of(nodes, input)?;
    if !(are_counts(counts.as_slice()) && at_most(counts.as_slice(), base.as_slice())) {
        return Err(Stop::Fault(place));
    }
    Ok(counts)
}

#[tactic(auto, unfolding(crate::specs::FrameFields::vector_at))]
fn purges_of<I: Input>(nodes: u8, front: &Front, input: &mut I) -> Result<Front, Stop>
    requires some { 1 ≤ nodes }
    requires few { nodes ≤ MAX_NODES }
    ensures gives { Reads (I.seen input.old) (I.seen input.new)
        (λ x. x) result (vector_at nodes (at_most front.now)) }
    ensures nodes { IfOk result (λ x. length x ≡ nodes) }
{
    let place = input.place();
    let counts = many_of(nodes, input)?;
    if !at_most(front.as_slice(), counts.as_slice()) {
        return Err(Stop::Fault(place));
    }
    Ok(counts)
}

// ---- live lists

fn live_number_of<I: Input>(top: u64, last: u64, input: &mut I) -> Result<u64, Stop>
    ensures { Reads (I.seen input.old) (I.seen input.new)
        (λ x. x) result (number_at w64 (is_live_number top last)) }
{
    let place = input.place();
    let num = number(input)?;
    if !(last < num && num <= top) {
        return Err(Stop::Fault(place));
    }
    Ok(num)
}

fn each_live_number<I: Input>(
    alloc: Global,
    top: u64,
    count: u16,
    input: &mut I,
) -> Result<Vec<u64>, Stop>
    ensures { Reads (I.seen input.old) (I.seen input.new) (λ x. x.items) result (each_at
        (λ last. number_at w64 (is_live_number top last)) (λ (last n : ℕ). n) count 0) }
{
    let mut list = Vec::new(alloc);
    let mut last = 0;
    'numbers: for _ in 0..count {
        let num = live_number_of(top, last, input)?;
        last = num;
        list.push(num)?;
    }
    Ok(list)
}

#[tactic(auto, unfolding(crate::specs::Reading::live_list_at))]
fn live_list_of<I: Input>(alloc: Global, top: u64, input: &mut I) -> Result<Vec<u64>, Stop>
    ensures { Reads (I.seen input.old) (I.seen input.new) (λ x. x.items) result (live_list_at top) }
{
    let place = input.place();
    let count = two_bytes(input)?;
    if !(count <= 256) {
        return Err(Stop::Fault(place));
    }
    each_live_number(alloc, top, count, input)
}

#[tactic(auto, unfolding(crate::specs::Reading::read_live_at, crate::specs::Reading::live_by))]
fn live_of<I: Input>(
    alloc: Global,
    base: u64,
    purge: u64,
    top: u64,
    input: &mut I,
) -> Result<Option<Vec<u64>>, Stop>
    ensures { Reads
        (I.seen input.old) (I.seen input.new) held_numbers result (read_live_at base purge top) }
{
    let place = input.place();
    let mark = byte(input)?;
    let wanted = if base < purge { 1 } else { 0 };
    if !(mark == wanted) {
        return Err(Stop::Fault(place));
    }
    if mark == 0 {
        return Ok(None);
    }
    Ok(Some(live_list_of(alloc, top, input)?))
}

fn home_at(place: u8) -> NodeId
    requires { place < MAX_NODES }
    ensures { result ≡ place + 1 }
{
    match NodeId::new(place + 1) {
        Ok(home) => home,
        Err(_) => unreachable!(),
    }
}

fn told_of<I: Input>(
    alloc: Global,
    place: u8,
    base: &Front,
    purges: &Front,
    front: &Front,
    input: &mut I,
) -> Result<Told, Stop>
    requires { place < MAX_NODES }
    ensures gives { Reads (I.seen input.old) (I.seen input.new)
        (λ (told : Told). held_numbers told.held) result (read_live_at
        (slice_index base.now place) (slice_index purges.now place) (slice_index front.now place)) }
    ensures home { IfOk result (λ told. (told.records.home ≡ place + 1)
        × (told.records.records ≡ [])) }
{
    let home = home_at(place);
    let (base, purge, top) = (base.count(home), purges.count(home), front.count(home));
    let held = live_of(alloc, base, purge, top, input)?;
    Ok(Told {
        records: Forest::new(alloc, home),
        held,
    })
}

fn each_home<I: Input>(
    alloc: Global,
    nodes: u8,
    base: &Front,
    purges: &Front,
    front: &Front,
    input: &mut I,
) -> Result<Vec<Told>, Stop>
    requires { nodes ≤ MAX_NODES }
    ensures gives { Reads (I.seen input.old) (I.seen input.new) (λ x. lists x.items) result
        (each_at (live_of_place base.now purges.now front.now) next_place nodes 0) }
    ensures empty { IfOk result (λ x. AreEmpty nodes x.items) }
{
    let mut list = Vec::new(alloc);
    'homes: for place in 0..nodes {
        let told = told_of(alloc, place, base, purges, front, input)?;
        list.push(told)?;
    }
    Ok(list)
}

// ---- records

fn after(last: Last, r: &Record) -> Last
    requires { last.count < 65535 }
    ensures { result ≡ after_lem last r.now }
{
    let count = if last.home == r.home.number() {
        last.count + 1
    } else {
        1
    };
    Last {
        home: r.home.number(),
        num: r.num,
        count,
    }
}

fn put_last(told: &mut Told, kept: Record) -> Result<(), AllocError>
    requires home { kept.home ≡ told.old.records.home }
    requires last { AllByRecursion (λ q. q.num < kept.num) told.old.records.records }
    ensures home { OnOk result (told.new.records.home ≡ told.old.records.home) }
    ensures held { OnOk result (told.new.held ≡ told.old.held) }
    ensures records { OnOk result (told.new.records.records
        ≡ told.old.records.records ++ kept ∷ []) }
{
    told.records.push_last(kept)
}

fn put_home(homes: &mut Vec<Told>, kept: Record) -> Result<(), AllocError>
    requires there { kept.home ≤ length homes.old.items }
    requires told { AreToldFrom 1 homes.old.items }
    requires last { AllByRecursion
        (λ q. q.num < kept.num) (records_of_home (records_told homes.old.items) kept.home) }
    ensures told { OnOk result (AreToldFrom 1 homes.new.items) }
    ensures held { OnOk result (lists homes.new.items ≡ lists homes.old.items) }
    ensures records { OnOk result (records_told homes.new.items
        ≡ slice_set (records_told homes.old.items)
        (kept.home - 1) (records_of_home (records_told homes.old.items) kept.home ++ kept ∷ [])) }
{
    let place = usize::from(kept.home.number()) - 1;
    put_last(&mut homes[place], kept)
}

fn each_record<I: Input>(
    alloc: Global,
    version: Version,
    base: &Front,
    front: &Front,
    homes: &mut Vec<Told>,
    count: u16,
    links: &mut LinksRead,
    input: &mut I,
) -> Result<(), Stop>
    requires { AreEmpty (length front.now) homes.old.items }
    ensures { ArePutAs (length front.now)
        (I.seen input.old) (I.seen input.new) homes.old.items homes.new.items result (each_at
        (read_record_at (told_context version base.now front.now homes.old.items)) after_lem count start) }
{
    let mut last = Last {
        home: 0,
        num: 0,
        count: 0,
    };
    'records: for _ in 0..count {
        let kept = record_of(
            alloc,
            version,
            base,
            front,
            homes.as_slice(),
            last,
            links,
            input,
        )?;
        last = after(last, &kept);
        // A record goes straight to its home: a list in between would move each record, of some 150
        // bytes, twice.
        put_home(homes, kept)?;
    }
    Ok(())
}

#[tactic(auto, unfolding(crate::specs::Reading::read_records_at))]
fn records_of<I: Input>(
    alloc: Global,
    version: Version,
    base: &Front,
    front: &Front,
    homes: &mut Vec<Told>,
    input: &mut I,
) -> Result<(), Stop>
    requires { AreEmpty (length front.now) homes.old.items }
    ensures { ArePutAs (length front.now) (I.seen input.old) (I.seen input.new) homes.old.items
        homes.new.items result (read_records_at (told_context version base.now front.now homes.old.items)) }
{
    let place = input.place();
    let count = two_bytes(input)?;
    if !(count as usize <= 256 * front.nodes()) {
        return Err(Stop::Fault(place));
    }
    let mut links = LinksRead::new(alloc);
    each_record(alloc, version, base, front, homes, count, &mut links, input)
}

// ---- the frame

fn nodes_of<I: Input>(input: &mut I) -> Result<u8, Stop>
    ensures gives { Reads (I.seen input.old) (I.seen input.new)
        (λ x. x) result (number_at w8 is_node_count) }
    ensures some { IfOk result (λ x. 1 ≤ x) }
    ensures few { IfOk result (λ x. x ≤ MAX_NODES) }
{
    let place = input.place();
    let nodes = byte(input)?;
    if !(1 <= nodes && nodes <= 8) {
        return Err(Stop::Fault(place));
    }
    Ok(nodes)
}

#[tactic(auto, unfolding(crate::specs::Reading::body_at))]
fn body_of<I: Input>(alloc: Global, version: Version, input: &mut I) -> Result<Delta, Stop>
    ensures { Reads (I.seen input.old) (I.seen input.new) (λ x. x) result (body_at version) }
{
    let nodes = nodes_of(input)?;
    let base = base_of(nodes, input)?;
    let front = front_of(nodes, &base, input)?;
    let purges = purges_of(nodes, &front, input)?;
    let mut homes = each_home(alloc, nodes, &base, &purges, &front, input)?;
    records_of(alloc, version, &base, &front, &mut homes, input)?;
    Ok(Delta::new(base, front, purges, homes))
}

fn magic_of<I: Input>(input: &mut I) -> Result<u32, Stop>
    ensures { Reads (I.seen input.old) (I.seen input.new)
        (λ x. x) result (number_at w32 (λ n. n == magic)) }
{
    let place = input.place();
    let letters = four_bytes(input)?;
    if !(letters == 0x4c52_4144) {
        return Err(Stop::Fault(place));
    }
    Ok(letters)
}

fn version_of<I: Input>(input: &mut I) -> Result<Version, Stop>
    ensures { Reads (I.seen input.old) (I.seen input.new)
        version_mark result (number_at w8 is_version) }
{
    let place = input.place();
    match byte(input)? {
        1 => Ok(Version::One),
        2 => Ok(Version::Two),
        _ => Err(Stop::Fault(place)),
    }
}

/// Reads the length, which is the number of bytes that follow it.
fn length_of<I: Input>(input: &mut I) -> Result<u32, Stop>
    ensures { Reads (I.seen input.old) (I.seen input.new)
        (λ x. x) result (number_at w32 is_frame_length) }
{
    let place = input.place();
    let len = four_bytes(input)?;
    if !(len <= 67_108_855) {
        return Err(Stop::Fault(place));
    }
    Ok(len)
}

/// Whether a place is this many bytes after a start.
fn ends(start: u64, len: u64, place: u64) -> bool
    ensures { result ≡ (place == start + len) }
{
    start <= place && place - start == len
}

/// Reads a frame, which must end where its length says, and that must be the end of the input.
#[tactic(auto, unfolding(crate::specs::Reading::frame_at, crate::specs::Reading::versioned_at, crate::specs::Reading::framed_at, crate::specs::Reading::ended_at))]
pub fn frame_of<I: Input>(alloc: Global, input: &mut I) -> Result<Delta, Stop>
    ensures answers { Answers (I.seen input.old) (I.seen input.new) (λ x. x) result frame_at }
    ensures whole { IfOk result (λ _. length (I.seen input.new).taken ≡ (I.seen input.old).limit) }
{
    let limit = input.limit();
    magic_of(input)?;
    let version = version_of(input)?;
    let len = length_of(input)? as u64;
    let start = input.place();
    input.bound(len);
    let delta = body_of(alloc, version, input)?;
    let place = input.place();
    if !ends(start, len, place) {
        return Err(Stop::Fault(place));
    }
    if !(place == limit) {
        return Err(Stop::Fault(place));
    }
    Ok(delta)
}
