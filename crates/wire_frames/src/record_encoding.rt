// The encoding of a record, one for each version, put field by field.
ghost use Rattle.std.specs.Prelude.{◌≡◌, ◌++◌, ◌≤◌, Some, length};
ghost use Rattle.std.specs.List.{All, flat_map};
ghost use Rattle.std.specs.Option.{option_copied};
ghost use Rattle.wire_frames.specs.Rules.{IsLink};
ghost use Rattle.wire_frames.specs.Encoding.{after_link, byte, counted, decision_mark, flag_mark, link_text, links_text, member, members, number, outcome_mark, parent, participant, record_text_as, told_mark, vector};
ghost use Rattle.wire_frames.specs.Typed.{AreLinks, HasLinks, IsTypedRecord};

use crate::output::Output;
use crate::version::Version;
use state_facts::{Link, Links};
use state_forest::{Member, Members, Participant, Place, Record};
use state_ids::{Front, Outcome, Verdict};

/// Puts a number of one byte.
pub(crate) fn put_byte<O: Output>(out: &mut O, n: u8)
    ensures same { O.start out.new ≡ O.start out.old }
    ensures text { O.text out.new ≡ O.text out.old ++ byte n }
{
    out.put(&[n]);
}

/// Puts a number of eight bytes.
pub(crate) fn put_number<O: Output>(out: &mut O, n: u64)
    ensures same { O.start out.new ≡ O.start out.old }
    ensures text { O.text out.new ≡ O.text out.old ++ number n }
{
    out.put(&n.to_be_bytes());
}

#[tactic(auto, unfolding(crate::specs::Encoding::parent, crate::specs::Encoding::place))]
fn put_parent<O: Output>(out: &mut O, p: Option<Place>)
    ensures same { O.start out.new ≡ O.start out.old }
    ensures text { O.text out.new ≡ O.text out.old ++ parent p }
{
    match p {
        None => put_byte(out, 0),
        Some(p) => {
            put_byte(out, 1);
            put_number(out, p.number);
            put_byte(out, p.slot);
        }
    }
}

fn decision_mark(decision: Option<Verdict>) -> u8
    ensures { result ≡ decision_mark decision }
{
    match decision {
        None => 0,
        Some(Verdict::Close) => 1,
        Some(Verdict::Cancel) => 2,
    }
}

fn outcome_mark(outcome: Option<Outcome>) -> u8
    ensures { result ≡ outcome_mark outcome }
{
    match outcome {
        None => 0,
        Some(Outcome::Busy) => 1,
        Some(Outcome::Done) => 2,
        Some(Outcome::Failed) => 3,
    }
}

#[tactic(auto, unfolding(crate::specs::Encoding::counted))]
fn put_text<O: Output>(out: &mut O, text: &[u8])
    requires { length text.now ≤ 127 }
    ensures same { O.start out.new ≡ O.start out.old }
    ensures text { O.text out.new ≡ O.text out.old ++ counted text.now }
{
    put_byte(out, text.len() as u8);
    out.put(text);
}

/// Puts a link, which can be read again.
#[tactic(auto, using(crate::proofs::Fitted::kept_is_link))]
fn put_link<O: Output>(out: &mut O, link: &Link)
    ensures same { O.start out.new ≡ O.start out.old }
    ensures text { O.text out.new ≡ O.text out.old ++ counted link.now }
    ensures link { IsLink (Some link.now) }
{
    put_text(out, link.as_bytes());
}

fn put_link_or_none<O: Output>(out: &mut O, link: Option<&Link>)
    ensures same { O.start out.new ≡ O.start out.old }
    ensures text { O.text out.new ≡ O.text out.old ++ counted (link_text (option_copied link.entry)) }
    ensures link { IsLink (option_copied link.entry) }
{
    match link {
        None => put_text(out, &[]),
        Some(link) => put_link(out, link),
    }
}

/// Puts the link for the end, if the version has it. What its type says of it is ensured in any
/// case.
fn put_after<O: Output>(out: &mut O, version: Version, link: Option<&Link>)
    ensures same { O.start out.new ≡ O.start out.old }
    ensures text { O.text out.new ≡ O.text out.old ++ after_link version (option_copied link.entry) }
    ensures link { IsLink (option_copied link.entry) }
{
    match version {
        Version::One => {
            if let Some(link) = link {
                is_link(link);
            }
        }
        Version::Two => put_link_or_none(out, link),
    }
}

#[tactic(auto, using(crate::proofs::Fitted::kept_is_link))]
fn is_link(link: &Link)
    ensures { IsLink (Some link.now) }
{
    let _ = link.as_bytes();
}

fn flag(marked: bool) -> u8
    ensures { result ≡ flag_mark marked }
{
    if marked { 1 } else { 0 }
}

fn put_told<O: Output>(out: &mut O, version: Version, told: bool)
    ensures same { O.start out.new ≡ O.start out.old }
    ensures text { O.text out.new ≡ O.text out.old ++ told_mark version told }
{
    if let Version::Two = version {
        put_byte(out, flag(told));
    }
}

#[tactic(auto, unfolding(crate::specs::Encoding::links_text))]
fn put_links<O: Output>(out: &mut O, version: Version, links: &Links)
    ensures same { O.start out.new ≡ O.start out.old }
    ensures text { O.text out.new ≡ O.text out.old ++ links_text version links.now }
    ensures links { AreLinks links.now }
{
    put_link_or_none(out, links.complete());
    put_link_or_none(out, links.compensate());
    put_link_or_none(out, links.status());
    put_link_or_none(out, links.forget());
    put_after(out, version, links.after());
}

#[tactic(auto, unfolding(crate::specs::Encoding::participant, crate::specs::Encoding::marks_text))]
fn put_participant<O: Output>(out: &mut O, version: Version, p: &Participant)
    ensures same { O.start out.new ≡ O.start out.old }
    ensures text { O.text out.new ≡ O.text out.old ++ participant version p.now }
    ensures links { AreLinks p.now.links }
{
    put_links(out, version, &p.links);
    put_byte(out, outcome_mark(p.completed));
    put_byte(out, outcome_mark(p.compensated));
    put_byte(out, flag(p.forgotten));
    put_told(out, version, p.told);
}

#[tactic(auto, unfolding(crate::specs::Encoding::member))]
fn put_member<O: Output>(out: &mut O, version: Version, m: &Member)
    ensures same { O.start out.new ≡ O.start out.old }
    ensures text { O.text out.new ≡ O.text out.old ++ member version m.now }
    ensures links { HasLinks m.now }
{
    match m {
        Member::Nested(n) => {
            put_byte(out, 0);
            put_number(out, *n);
        }
        Member::Participant(p) => {
            put_byte(out, 1);
            put_participant(out, version, p);
        }
        Member::Left => put_byte(out, 2),
    }
}

fn put_each_member<O: Output>(out: &mut O, version: Version, ms: &[Member])
    ensures same { O.start out.new ≡ O.start out.old }
    ensures text { O.text out.new ≡ O.text out.old ++ flat_map (member version) ms.now }
    ensures links { All HasLinks ms.now }
{
    for m in ms {
        put_member(out, version, m);
    }
}

#[tactic(auto, unfolding(crate::specs::Encoding::members))]
fn put_members<O: Output>(out: &mut O, version: Version, ms: &Members)
    ensures same { O.start out.new ≡ O.start out.old }
    ensures text { O.text out.new ≡ O.text out.old ++ members version ms.now }
    ensures links { All HasLinks ms.now }
{
    let list = ms.as_slice();
    put_byte(out, list.len() as u8);
    put_each_member(out, version, list);
}

/// Puts numbers, one after another.
pub(crate) fn put_numbers<O: Output>(out: &mut O, ns: &[u64])
    ensures same { O.start out.new ≡ O.start out.old }
    ensures text { O.text out.new ≡ O.text out.old ++ flat_map number ns.now }
{
    for n in ns {
        put_number(out, *n);
    }
}

/// Puts the counts of a front.
pub(crate) fn put_front<O: Output>(out: &mut O, front: &Front)
    ensures same { O.start out.new ≡ O.start out.old }
    ensures text { O.text out.new ≡ O.text out.old ++ vector front.now }
{
    put_numbers(out, front.as_slice());
}

/// Puts a record. It also ensures what the types say of the record's numbers and links.
#[tactic(auto, unfolding(crate::specs::Encoding::record_text_as))]
pub(crate) fn put_record<O: Output>(out: &mut O, version: Version, r: &Record)
    ensures same { O.start out.new ≡ O.start out.old }
    ensures text { O.text out.new ≡ O.text out.old ++ record_text_as version r.now }
    ensures typed { IsTypedRecord r.now }
{
    put_byte(out, r.home.number());
    put_number(out, r.num);
    put_parent(out, r.parent);
    put_number(out, r.deadline);
    put_byte(out, decision_mark(r.decision));
    put_front(out, &r.stamps);
    put_members(out, version, &r.members);
}
