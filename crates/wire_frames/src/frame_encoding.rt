// The encoding of a frame, one for each version, put field by field.
ghost use Rattle.std.specs.Prelude.{◌≡◌, ◌%◌, ◌^◌, ◌++◌, ◌⊎◌, ◌↔◌, Err, true, false, length, IfOk, IfErr};
ghost use Rattle.std.specs.List.{All, flat_map, list_any};
ghost use Rattle.state_facts.specs.declared.refusal.Refusal.TheVariants.{NeedsVersion2, NoMemory};
ghost use Rattle.state_forest.specs.declared.record.Record.{Record};
ghost use Rattle.state_forest.specs.declared.merging.Told.{Told};
ghost use Rattle.state_forest.specs.RecordMerges.{held_numbers};
ghost use Rattle.wire_frames.specs.Grammar.{IsOfGrammar};
ghost use Rattle.wire_frames.specs.Order.{lists, records_told};
ghost use Rattle.wire_frames.specs.Rules.{IsDelta, IsDeltaAs};
ghost use Rattle.wire_frames.specs.Encoding.{body, byte, flat, four_bytes, live, live_list, magic, record_text_as, records, encoding, encoding_as, two_bytes};
ghost use Rattle.wire_frames.specs.Versions.{needs_two, listens, version_mark};
ghost use Rattle.wire_frames.specs.declared.version.Version.TheVariants.{One, Two};
ghost use Rattle.wire_frames.specs.Typed.{IsTyped, IsTypedRecord};

use crate::Delta;
use crate::buffer::Buffer;
use crate::count::ByteCount;
use crate::output::Output;
use crate::record_encoding::{put_byte, put_front, put_numbers, put_record};
use crate::version::Version;
use state_facts::Refusal;
use state_forest::{Member, Record, Records, Told};
use std::alloc::{AllocError, Global};

/// Puts a count of two bytes.
#[tactic(auto, using(crate::proofs::Widths::in_two_bytes))]
fn put_count<O: Output>(out: &mut O, n: u64)
    ensures same { O.start out.new ≡ O.start out.old }
    ensures text { O.text out.new ≡ O.text out.old ++ two_bytes n }
{
    out.put(&((n % 65_536) as u16).to_be_bytes());
}

#[tactic(auto, unfolding(crate::specs::Encoding::live_list))]
fn put_live_list<O: Output>(out: &mut O, numbers: &[u64])
    ensures same { O.start out.new ≡ O.start out.old }
    ensures text { O.text out.new ≡ O.text out.old ++ live_list numbers.now }
{
    put_count(out, numbers.len() as u64);
    put_numbers(out, numbers);
}

#[tactic(auto, unfolding(crate::specs::Encoding::live))]
fn put_live<O: Output>(out: &mut O, told: &Told)
    ensures same { O.start out.new ≡ O.start out.old }
    ensures text { O.text out.new ≡ O.text out.old ++ live (held_numbers told.now.held) }
{
    match &told.held {
        None => put_byte(out, 0),
        Some(numbers) => {
            put_byte(out, 1);
            put_live_list(out, numbers);
        }
    }
}

fn put_each_live<O: Output>(out: &mut O, homes: &[Told])
    ensures same { O.start out.new ≡ O.start out.old }
    ensures text { O.text out.new
        ≡ O.text out.old ++ flat_map (λ (told : Told). live (held_numbers told.held)) homes.now }
{
    for told in homes {
        put_live(out, told);
    }
}

#[tactic(auto, using(crate::proofs::Put::lives_put))]
fn put_lives<O: Output>(out: &mut O, homes: &[Told])
    ensures same { O.start out.new ≡ O.start out.old }
    ensures text { O.text out.new ≡ O.text out.old ++ flat_map live (lists homes.now) }
{
    put_each_live(out, homes);
}

fn put_each_record<O: Output>(out: &mut O, version: Version, records: Records<'_>)
    ensures same { O.start out.new ≡ O.start out.old }
    ensures text { O.text out.new ≡ O.text out.old ++ flat_map (record_text_as version) records.entry }
    ensures typed { All IsTypedRecord records.entry }
{
    for kept in records {
        put_record(out, version, kept);
    }
}

fn put_each_home<O: Output>(out: &mut O, version: Version, homes: &[Told])
    ensures same { O.start out.new ≡ O.start out.old }
    ensures text { O.text out.new ≡ O.text out.old ++ flat_map
        (λ (told : Told). flat_map (record_text_as version) told.records.records) homes.now }
    ensures typed { All (λ (told : Told). All IsTypedRecord told.records.records) homes.now }
{
    for told in homes {
        put_each_record(out, version, told.records.records());
    }
}

#[tactic(auto, using(crate::proofs::Put::homes_typed))]
fn put_homes<O: Output>(out: &mut O, version: Version, homes: &[Told])
    ensures same { O.start out.new ≡ O.start out.old }
    ensures text { O.text out.new
        ≡ O.text out.old ++ flat_map (record_text_as version) (flat (records_told homes.now)) }
    ensures typed { All (All IsTypedRecord) (records_told homes.now) }
{
    put_each_home(out, version, homes);
}

fn record_count(homes: &[Told]) -> u64
    ensures { result ≡ length (flat (records_told homes.now)) % 2 ^ 64 }
{
    let mut count = 0u64;
    for told in homes {
        count = count.wrapping_add(told.records.len() as u64);
    }
    count
}

#[tactic(auto, unfolding(crate::specs::Encoding::records), using(crate::proofs::Widths::two_of_eight))]
fn put_records<O: Output>(out: &mut O, version: Version, homes: &[Told])
    ensures same { O.start out.new ≡ O.start out.old }
    ensures text { O.text out.new ≡ O.text out.old ++ records version (flat (records_told homes.now)) }
    ensures typed { All (All IsTypedRecord) (records_told homes.now) }
{
    put_count(out, record_count(homes));
    put_homes(out, version, homes);
}

#[tactic(auto, unfolding(crate::specs::Encoding::body))]
pub(crate) fn put_body<O: Output>(out: &mut O, version: Version, delta: &Delta)
    ensures same { O.start out.new ≡ O.start out.old }
    ensures text { O.text out.new ≡ O.text out.old ++ body version delta.now }
    ensures typed { IsTyped delta.now }
{
    let base = delta.base();
    put_byte(out, base.nodes() as u8);
    put_front(out, &base);
    put_front(out, &delta.front());
    put_front(out, &delta.purges());
    put_lives(out, delta.homes());
    put_records(out, version, delta.homes());
}

/// Returns how many bytes a frame has after its length, as a number of 64 bits.
fn body_length(version: Version, delta: &Delta) -> u64
    ensures { result ≡ length (body version delta.now) % 2 ^ 64 }
{
    let mut count = ByteCount::new();
    put_body(&mut count, version, delta);
    count.total()
}

#[tactic(auto, using(crate::proofs::Widths::in_four_bytes))]
fn put_header<O: Output>(out: &mut O, version: Version, len: u64)
    ensures same { O.start out.new ≡ O.start out.old }
    ensures text { O.text out.new
        ≡ O.text out.old ++ (four_bytes magic ++ (byte (version_mark version) ++ four_bytes len)) }
{
    out.put(&0x4c52_4144u32.to_be_bytes());
    out.put(&[version.number()]);
    out.put(&((len % 4_294_967_296) as u32).to_be_bytes());
}

/// Puts the bytes that encode what a node sends.
#[tactic(auto, using(crate::proofs::Widths::four_of_eight))]
pub fn put_frame<O: Output>(out: &mut O, version: Version, delta: &Delta)
    ensures same { O.start out.new ≡ O.start out.old }
    ensures text { O.text out.new ≡ O.text out.old ++ encoding_as version delta.now }
    ensures typed { IsTyped delta.now }
{
    put_header(out, version, body_length(version, delta));
    put_body(out, version, delta);
}

/// Encodes what a node sends, in version 2. If the delta keeps the rules that the frames of a
/// history's nodes keep, it also keeps those of a frame, so its bytes are read as the same delta
/// again.
pub fn encode(alloc: Global, delta: &Delta) -> Result<Vec<u8>, AllocError>
    ensures text { IfOk result (λ bytes. bytes.items ≡ encoding delta.now) }
    ensures frame { IsOfGrammar delta.now → IsDelta delta.now }
{
    let mut out = Buffer::new(alloc);
    put_frame(&mut out, Version::Two, delta);
    out.into_bytes()
}

fn listens(member: &Member) -> bool
    ensures { result ≡ listens member.now }
{
    match member {
        Member::Participant(participant) => participant.links.after().is_some(),
        _ => false,
    }
}

fn has_listener(kept: &Record) -> bool
    ensures { result ≡ list_any listens kept.now.members }
{
    kept.members.as_slice().iter().any(|member| listens(member))
}

fn have_listeners(mut records: Records<'_>) -> bool
    ensures { result ≡ list_any (λ (r : Record). list_any listens r.members) records.entry }
{
    records.any(|kept| has_listener(kept))
}

fn tells_listeners(told: &Told) -> bool
    ensures { result
        ≡ list_any (λ (r : Record). list_any listens r.members) told.now.records.records }
{
    have_listeners(told.records.records())
}

fn any_tells(homes: &[Told]) -> bool
    ensures { result ≡ list_any (λ (told : Told).
        list_any (λ (r : Record). list_any listens r.members) told.records.records) homes.now }
{
    homes.iter().any(|told| tells_listeners(told))
}

#[tactic(auto, using(crate::proofs::Put::any_told))]
fn needs_two(delta: &Delta) -> bool
    ensures { result ≡ needs_two delta.now }
{
    any_tells(delta.homes())
}

/// Encodes what a node sends in version 1, for nodes that know no other version. Errors: E23 if and
/// only if a record has a link for the end of its LRA; E17.
pub fn encode_v1(alloc: Global, delta: &Delta) -> Result<Vec<u8>, Refusal>
    ensures text { IfOk result (λ bytes. bytes.items ≡ encoding_as One delta.now) }
    ensures refused { IfErr result (λ refusal. (refusal ≡ NoMemory) ⊎ (refusal ≡ NeedsVersion2)) }
    ensures needs { result ≡ Err NeedsVersion2 ↔ (needs_two delta.now ≡ true) }
    ensures frame { IsOfGrammar delta.now → needs_two delta.now ≡ false → IsDeltaAs One delta.now }
{
    if needs_two(delta) {
        return Err(Refusal::NeedsVersion2);
    }
    Ok(encoded_first(alloc, delta)?)
}

fn encoded_first(alloc: Global, delta: &Delta) -> Result<Vec<u8>, AllocError>
    ensures text { IfOk result (λ bytes. bytes.items ≡ encoding_as One delta.now) }
    ensures frame { IsOfGrammar delta.now → needs_two delta.now ≡ false → IsDeltaAs One delta.now }
{
    let mut out = Buffer::new(alloc);
    put_frame(&mut out, Version::One, delta);
    out.into_bytes()
}
