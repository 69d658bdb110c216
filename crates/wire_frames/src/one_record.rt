// The encoding of one record, as the journal keeps it.
ghost use Rattle.std.specs.Prelude.{◌≡◌, ℕ, List, IfOk, Ok};
ghost use Rattle.state_forest.specs.declared.record.Record.{Record};
ghost use Rattle.wire_frames.specs.Answer.{Decodes};
ghost use Rattle.wire_frames.specs.OneRecord.{KeepsRulesUnder, IsRecordUnder, IsRecordUnderAs, alone_at, record_in_as};
ghost use Rattle.wire_frames.specs.Seen.{Answers};
ghost use Rattle.wire_frames.specs.Encoding.{record_text, record_text_as};
ghost use Rattle.wire_frames.specs.declared.version.Version.TheVariants.{Two};

use crate::buffer::Buffer;
use crate::input::{Input, Stop};
use crate::links_read::LinksRead;
use crate::order::Last;
use crate::record_encoding::put_record;
use crate::record_fields::record_of;
use crate::slice::Slice;
use crate::version::Version;
use state_facts::Refusal;
use state_forest::Record;
use state_ids::Front;
use std::alloc::{AllocError, Global};

#[tactic(auto, unfolding(crate::specs::OneRecord::alone_at))]
fn alone_of<I: Input>(
    alloc: Global,
    version: Version,
    front: &Front,
    links: &mut LinksRead,
    input: &mut I,
) -> Result<Record, Stop>
    ensures { Answers (I.seen input.old) (I.seen input.new) (λ x. x) result (alone_at version front.now) }
{
    let limit = input.limit();
    let base = Front::zero(front.nodes());
    let last = Last {
        home: 0,
        num: 0,
        count: 0,
    };
    let kept = record_of(alloc, version, &base, front, &[], last, links, input)?;
    let place = input.place();
    if !(place == limit) {
        return Err(Stop::Fault(place));
    }
    Ok(kept)
}

/// Returns the record that all of the bytes encode.
fn record_in_slice(
    alloc: Global,
    bytes: &[u8],
    front: &Front,
    version: Version,
    links: &mut LinksRead,
) -> Result<Record, Refusal>
    ensures { Decodes result (record_in_as version front.now bytes.now) }
{
    let mut input = Slice::new(bytes);
    match alone_of(alloc, version, front, links, &mut input) {
        Ok(kept) => Ok(kept),
        Err(Stop::Fault(place)) => Err(Refusal::BadFrame(place)),
        Err(Stop::Cut) => unreachable!(),
        Err(Stop::ReadFault) => unreachable!(),
        Err(Stop::Memory) => Err(Refusal::NoMemory),
    }
}

/// Decodes all of the bytes as a record of a version, with base zero and no live list, under a
/// front. E16 at the place of the first field that isn't whole or breaks its rule.
pub fn decode_record(
    alloc: Global,
    bytes: &[u8],
    front: &Front,
    version: Version,
) -> Result<Record, Refusal>
    // The exact place.
    ensures exact { Decodes result (record_in_as version front.now bytes.now) }
    // What is read keeps the rules and has this encoding.
    ensures found { IfOk result (λ kept. IsRecordUnderAs version front.now kept
        × (bytes.now ≡ record_text_as version kept)) }
    // What has this encoding is read, unless memory runs out.
    ensures only { (kept : Record) →
        IsRecordUnderAs version front.now kept →
        bytes.now ≡ record_text_as version kept → Decodes result (Ok kept) }
{
    decode_record_with(alloc, bytes, front, version, &mut LinksRead::new(alloc))
}

/// Like `decode_record`, for one record of many: each of its links that was read lately is copied.
pub fn decode_record_with(
    alloc: Global,
    bytes: &[u8],
    front: &Front,
    version: Version,
    links: &mut LinksRead,
) -> Result<Record, Refusal>
    ensures exact { Decodes result (record_in_as version front.now bytes.now) }
    ensures found { IfOk result (λ kept. IsRecordUnderAs version front.now kept
        × (bytes.now ≡ record_text_as version kept)) }
    ensures only { (kept : Record) →
        IsRecordUnderAs version front.now kept →
        bytes.now ≡ record_text_as version kept → Decodes result (Ok kept) }
{
    record_in_slice(alloc, bytes, front, version, links)
}

/// Encodes a record in version 2. Under a front where the record fits, its bytes are read as the
/// same record again.
pub fn encode_record(alloc: Global, kept: &Record) -> Result<Vec<u8>, AllocError>
    ensures text { IfOk result (λ bytes. bytes.items ≡ record_text kept.now) }
    ensures rules { (front : List ℕ) →
        KeepsRulesUnder front kept.now → IsRecordUnder front kept.now }
{
    let mut out = Buffer::new(alloc);
    put_record(&mut out, Version::Two, kept);
    out.into_bytes()
}
