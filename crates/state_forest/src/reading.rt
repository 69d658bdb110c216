// Makes a record of what a list of facts says of one LRA.
ghost use Rattle.std.specs.Prelude.{◌≡◌, ◌+◌, ◌<◌, ◌≤◌, ◌&&◌, ◌==◌, ◌^◌, IfOk, Some, None, map, find, nat_lt, if◌then◌else◌};
ghost use Rattle.std.specs.List.{AllByRecursion};
ghost use Rattle.std.specs.Option.{option_copied};
ghost use Rattle.state_ids.specs.declared.TheConstants.{MAX_NODES};
ghost use Rattle.state_ids.specs.Ids.{Id};
ghost use Rattle.state_facts.specs.Sets.{begins, begins_held, begun_by, gives_number, is_begin, member_number, parent_of, IsNumbered, NamesEarlier};
ghost use Rattle.state_facts.specs.Duties.{has_forgot, has_told, is_forgot, is_told_of};
ghost use Rattle.state_forest.specs.Records.{deadline_given, deadline_of, decision_of, is_about, is_named, member_by, members_of, nodes_to, place_in, record_of, stamp};
ghost use Rattle.state_forest.specs.Gathering.{giver_at, least_above, lesser_number, next_giver, number_above, IsRecordable};

use crate::{MAX_MEMBERS, Member, Members, Participant, Place, Record};
use state_facts::{Body, Fact, plain};
use state_ids::{Act, Front, LraId, NodeId, Verdict};
use std::alloc::{AllocError, Global};

fn deadline_given(fact: &Fact) -> u64
    ensures { result ≡ deadline_given fact.now.body }
{
    match &fact.body {
        Body::Begin { deadline, .. } => *deadline,
        _ => 0,
    }
}

fn deadline(facts: &[Fact], id: LraId) -> u64
    ensures { result ≡ deadline_of facts.now id }
{
    for fact in facts {
        if plain::begins_lra(id, fact) {
            return deadline_given(fact);
        }
    }
    0
}

fn gives_before(id: LraId, num: u64, fact: &Fact) -> bool
    ensures { result ≡ (gives_number id fact.now.body && nat_lt fact.now.num num) }
{
    plain::gives_number(id, fact) && fact.num < num
}

fn given_before(facts: &[Fact], id: LraId, num: u64) -> usize
    ensures { result + 1 ≡ member_number facts.now id num }
{
    let mut before = 0;
    for fact in facts {
        if gives_before(id, num, fact) {
            before += 1;
        }
    }
    before
}

fn member_number(facts: &[Fact], id: LraId, num: u64) -> u8
    ensures { member_number facts.now id num < 2 ^ 8 → result ≡ member_number facts.now id num }
{
    let before = given_before(facts, id, num);
    if before < usize::from(u8::MAX) {
        before as u8 + 1
    } else {
        u8::MAX
    }
}

fn place(facts: &[Fact], id: LraId) -> Option<Place>
    ensures { ((p : Id) → member_number facts.now p id.num < 2 ^ 8) →
        result ≡ place_in facts.now id.num (parent_of facts.now id) }
{
    let parent = plain::parent(facts, id)?;
    Some(Place {
        number: parent.num(),
        slot: member_number(facts, parent, id.num()),
    })
}

fn decision(facts: &[Fact], id: LraId) -> Option<Verdict>
    ensures { result ≡ decision_of facts.now id }
{
    if plain::decided(facts, Verdict::Cancel, id) {
        Some(Verdict::Cancel)
    } else if plain::decided(facts, Verdict::Close, id) {
        Some(Verdict::Close)
    } else {
        None
    }
}

fn names(id: LraId, fact: &Fact) -> bool
    ensures { result ≡ is_named id fact.now.body }
{
    match &fact.body {
        Body::Begin { parent, .. } => *parent == Some(id),
        Body::Join { id: named, .. } => *named == id,
        Body::Leave { id: named, .. } => *named == id,
        Body::Decide { id: named, .. } => *named == id,
        Body::Report { id: named, .. } => *named == id,
        Body::Forgot { id: named, .. } => *named == id,
        Body::Told { id: named, .. } => *named == id,
        Body::Purge { .. } => false,
    }
}

/// Returns the number of a fact if it is one of this node's facts about the LRA, otherwise 0.
fn number_about(id: LraId, node: NodeId, fact: &Fact) -> u64
    ensures { result
        ≡ (if (fact.now.origin == node) && is_about id fact.now then fact.now.num else 0) }
{
    if fact.origin == node && (plain::begins_lra(id, fact) || names(id, fact)) {
        fact.num
    } else {
        0
    }
}

fn stamp(facts: &[Fact], id: LraId, node: NodeId) -> u64
    ensures { result ≡ stamp facts.now id node }
{
    let mut greatest = 0;
    for fact in facts {
        greatest = number_about(id, node, fact).max(greatest);
    }
    greatest
}

fn tells_forgot(id: LraId, member: u8, fact: &Fact) -> bool
    ensures { result ≡ is_forgot id member fact.now.body }
{
    match &fact.body {
        Body::Forgot {
            id: told,
            member: number,
        } => *told == id && *number == member,
        _ => false,
    }
}

fn has_forgot(facts: &[Fact], id: LraId, member: u8) -> bool
    ensures { result ≡ has_forgot facts.now id member }
{
    facts.iter().any(|fact| tells_forgot(id, member, fact))
}

fn tells_end(id: LraId, member: u8, fact: &Fact) -> bool
    ensures { result ≡ is_told_of id member fact.now.body }
{
    match &fact.body {
        Body::Told {
            id: told,
            member: number,
        } => *told == id && *number == member,
        _ => false,
    }
}

fn has_told(facts: &[Fact], id: LraId, member: u8) -> bool
    ensures { result ≡ has_told facts.now id member }
{
    facts.iter().any(|fact| tells_end(id, member, fact))
}

fn member(facts: &[Fact], id: LraId, fact: &Fact) -> Result<Member, AllocError>
    ensures { IfOk result (λ member. member ≡ member_by facts.now id fact.now.num fact.now.body) }
{
    let Body::Join { member, links, .. } = &fact.body else {
        return Ok(Member::Nested(fact.num));
    };
    if plain::left(facts, id, *member) {
        return Ok(Member::Left);
    }
    Ok(Member::Participant(Participant {
        links: links.clone()?,
        completed: plain::greatest_report(facts, id, *member, Act::Complete),
        compensated: plain::greatest_report(facts, id, *member, Act::Compensate),
        forgotten: has_forgot(facts, id, *member),
        told: has_told(facts, id, *member),
    }))
}

fn lesser_number(a: Option<u64>, b: Option<u64>) -> Option<u64>
    ensures { result ≡ lesser_number a b }
{
    match (a, b) {
        (None, b) => b,
        (a, None) => a,
        (Some(a), Some(b)) => if b < a { Some(b) } else { Some(a) },
    }
}

fn number_above(id: LraId, after: u64, fact: &Fact) -> Option<u64>
    ensures { result ≡ number_above after id fact.now }
{
    if plain::gives_number(id, fact) && after < fact.num {
        Some(fact.num)
    } else {
        None
    }
}

fn least_above(facts: &[Fact], id: LraId, after: u64) -> Option<u64>
    ensures { result ≡ least_above after id facts.now }
{
    let mut least = None;
    for fact in facts {
        least = lesser_number(least, number_above(id, after, fact));
    }
    least
}

fn giver_at(facts: &[Fact], id: LraId, num: u64) -> Option<&Fact>
    ensures { option_copied result ≡ giver_at id facts.now num }
{
    facts
        .iter()
        .find(|fact| plain::gives_number(id, fact) && fact.num == num)
}

fn next_giver(facts: &[Fact], id: LraId, after: u64) -> Option<&Fact>
    ensures { option_copied result ≡ next_giver after id facts.now }
{
    match least_above(facts, id, after) {
        Some(num) => giver_at(facts, id, num),
        None => None,
    }
}

/// Returns the members of an LRA in order of their numbers. It reads the facts twice for each
/// member.
#[tactic(auto, using(crate::proofs::MembersAndStamps::next_some, crate::proofs::MembersAndStamps::next_none))]
fn members(alloc: Global, facts: &[Fact], id: LraId) -> Result<Members, AllocError>
    requires numbered { AllByRecursion IsNumbered facts.now }
    ensures { IsRecordable facts.now → IfOk result (λ members. members ≡ members_of facts.now id) }
{
    let mut members = Members::new(alloc);
    let mut after = 0;
    'places: for _ in 0..MAX_MEMBERS {
        let Some(fact) = next_giver(facts, id, after) else {
            return Ok(members);
        };
        members.push(member(facts, id, fact)?)?;
        after = fact.num;
    }
    Ok(members)
}

fn stamps(facts: &[Fact], id: LraId, nodes: usize) -> Front
    requires some { 1 ≤ nodes }
    requires few { nodes ≤ MAX_NODES }
    ensures { result ≡ map (stamp facts.now id) (nodes_to nodes) }
{
    let mut front = Front::zero(nodes);
    'nodes: for place in 0..nodes {
        let Ok(node) = NodeId::new(place as u8 + 1) else {
            return front;
        };
        front.set(node, stamp(facts, id, node));
    }
    front
}

/// Makes one record of what facts say of an LRA.
pub fn record_of(
    alloc: Global,
    facts: &[Fact],
    id: LraId,
    nodes: usize,
) -> Result<Record, AllocError>
    requires some { 1 ≤ nodes }
    requires few { nodes ≤ MAX_NODES }
    requires numbered { AllByRecursion IsNumbered facts.now }
    ensures home { IfOk result (λ entry. entry.home ≡ id.home) }
    ensures entry { IsRecordable facts.now →
        IfOk result (λ entry. entry ≡ record_of nodes facts.now id) }
{
    Ok(Record {
        home: id.home(),
        num: id.num(),
        parent: place(facts, id),
        deadline: deadline(facts, id),
        decision: decision(facts, id),
        stamps: stamps(facts, id, nodes),
        members: members(alloc, facts, id)?,
    })
}

fn is_begin(fact: &Fact) -> bool
    ensures { result ≡ is_begin fact.now.body }
{
    matches!(&fact.body, Body::Begin { .. })
}

/// Returns the LRA that a fact begins, if it is of this home and is held.
pub fn held_begin(facts: &[Fact], home: NodeId, fact: &Fact) -> Option<LraId>
    requires earlier { AllByRecursion NamesEarlier facts.now }
    requires numbered { IsNumbered fact.now }
    ensures { result
        ≡ (if begins_held facts.now home fact.now then Some (begun_by fact.now) else None) }
{
    let Ok(id) = LraId::new(fact.origin, fact.num) else {
        return None;
    };
    if is_begin(fact) && fact.origin == home && plain::holds(facts, id) {
        Some(id)
    } else {
        None
    }
}
