//! Slow evaluators of what a list of facts says. Each call reads every fact and takes no memory.
ghost use Rattle.std.specs.Prelude.{◌≡◌, ◌↔◌, IsTrue, ◌+◌, ◌&&◌, is_some};
ghost use mathlib.Core.Bool.{not};
ghost use Rattle.std.specs.List.{list_any, AllByRecursion};
ghost use Rattle.std.specs.Option.{option_copied};
ghost use Rattle.state_facts.specs.Sets.{IsNumbered, NamesEarlier, begins, begins_held, is_begun, parent_of, parent_named, links_of, joined_links, member_status, demands, is_demanded, gives_number, numbers_given, depth, chain, held_at, is_decided, is_decision, want, is_under, is_held, is_purged_root, is_purge, has_left, is_leave, heard, reported, status_by, joined_status, shows, some_shows, shows_now, is_open, status};
ghost use Rattle.state_ids.specs.States.{same_member_status, shown};

use crate::{Body, Fact, Links};
use state_ids::{Act, LAST_NUMBER, LraId, LraStatus, MemberStatus, NodeId, Outcome, Verdict};

/// Whether the evaluators may read a list: each fact has a number that a node can give, and each
/// nested LRA is begun at its parent's home, after its parent. Callers can't know this, so it is
/// tested.
pub fn are_in_order(facts: &[Fact]) -> bool
    ensures { IsTrue result ↔ (AllByRecursion NamesEarlier facts.now
        × AllByRecursion IsNumbered facts.now) }
{
    facts
        .iter()
        .all(|fact| is_numbered(fact) && names_earlier(fact))
}

fn is_numbered(fact: &Fact) -> bool
    ensures { IsTrue result ↔ IsNumbered fact.now }
{
    1 <= fact.num && fact.num <= LAST_NUMBER
}

fn names_earlier(fact: &Fact) -> bool
    ensures { IsTrue result ↔ NamesEarlier fact.now }
{
    match named_parent(fact) {
        Some(parent) => parent.home() == fact.origin && parent.num() < fact.num,
        None => true,
    }
}

/// Whether a fact begins this LRA.
pub fn begins_lra(id: LraId, fact: &Fact) -> bool
    ensures { result ≡ begins id fact.now }
{
    match &fact.body {
        Body::Begin { .. } => fact.origin == id.home() && fact.num == id.num(),
        _ => false,
    }
}

fn begun(facts: &[Fact], id: LraId) -> bool
    ensures { result ≡ is_begun facts.now id }
{
    facts.iter().any(|fact| begins_lra(id, fact))
}

fn named_parent(fact: &Fact) -> Option<LraId>
    ensures { result ≡ parent_named fact.now.body }
{
    match &fact.body {
        Body::Begin { parent, .. } => *parent,
        _ => None,
    }
}

/// Returns the parent of an LRA, if the LRA was begun and is nested.
pub fn parent(facts: &[Fact], id: LraId) -> Option<LraId>
    ensures { result ≡ parent_of facts.now id }
{
    for fact in facts {
        if begins_lra(id, fact) {
            return named_parent(fact);
        }
    }
    None
}

fn decides(id: LraId, verdict: Verdict, fact: &Fact) -> bool
    ensures { result ≡ is_decision id verdict fact.now.body }
{
    match &fact.body {
        Body::Decide {
            id: decided,
            verdict: given,
        } => *decided == id && *given == verdict,
        _ => false,
    }
}

/// Whether the LRA itself has a decision with this verdict.
pub fn decided(facts: &[Fact], verdict: Verdict, id: LraId) -> bool
    ensures { result ≡ is_decided facts.now verdict id }
{
    facts.iter().any(|fact| decides(id, verdict, fact))
}

#[tactic(auto, using(crate::proofs::Chains::parent_lesser, crate::proofs::Chains::chain_any))]
fn decided_above(facts: &[Fact], verdict: Verdict, id: LraId) -> bool
    requires { AllByRecursion NamesEarlier facts.now }
    ensures { result ≡ list_any (is_decided facts.now verdict) (chain facts.now id) }
{
    let mut at = id;
    'above: loop {
        if decided(facts, verdict, at) {
            return true;
        }
        match parent(facts, at) {
            Some(above) => at = above,
            None => return false,
        }
    }
}

/// Returns what an LRA wants: Cancel if it or an ancestor is cancelled, otherwise Close if it or an
/// ancestor is closed.
pub fn want_of(facts: &[Fact], id: LraId) -> Option<Verdict>
    requires { AllByRecursion NamesEarlier facts.now }
    ensures { result ≡ want facts.now id }
{
    if decided_above(facts, Verdict::Cancel, id) {
        Some(Verdict::Cancel)
    } else if decided_above(facts, Verdict::Close, id) {
        Some(Verdict::Close)
    } else {
        None
    }
}

#[tactic(auto, using(crate::proofs::Chains::parent_lesser, crate::proofs::Chains::chain_any))]
fn under(facts: &[Fact], id: LraId, inner: LraId) -> bool
    requires { AllByRecursion NamesEarlier facts.now }
    ensures { result ≡ is_under facts.now id inner }
{
    let mut at = inner;
    'above: loop {
        if id == at {
            return true;
        }
        match parent(facts, at) {
            Some(above) => at = above,
            None => return false,
        }
    }
}

fn purged(facts: &[Fact], id: LraId) -> bool
    ensures { result ≡ list_any (λ f. is_purge id f.body) facts.now }
{
    facts.iter().any(|fact| matches!(&fact.body, Body::Purge { root } if *root == id))
}

#[tactic(auto, using(crate::proofs::Chains::parent_lesser, crate::proofs::Chains::chain_any))]
fn root_purged(facts: &[Fact], id: LraId) -> bool
    requires { AllByRecursion NamesEarlier facts.now }
    ensures { result ≡ list_any (is_purged_root facts.now) (chain facts.now id) }
{
    let mut at = id;
    'above: loop {
        match parent(facts, at) {
            Some(above) => at = above,
            None => return purged(facts, at),
        }
    }
}

/// Whether an LRA is held: it was begun, and its root was not purged.
pub fn holds(facts: &[Fact], id: LraId) -> bool
    requires { AllByRecursion NamesEarlier facts.now }
    ensures { result ≡ is_held facts.now id }
{
    begun(facts, id) && !root_purged(facts, id)
}

fn begins_held(facts: &[Fact], home: NodeId, fact: &Fact) -> bool
    requires earlier { AllByRecursion NamesEarlier facts.now }
    requires numbered { IsNumbered fact.now }
    ensures { result ≡ begins_held facts.now home fact.now }
{
    match (&fact.body, LraId::new(fact.origin, fact.num)) {
        (Body::Begin { .. }, Ok(id)) => fact.origin == home && holds(facts, id),
        _ => false,
    }
}

/// Returns the number of LRAs of a home that are held. It also requires that all numbers are in
/// range.
pub fn held_at(facts: &[Fact], home: NodeId) -> usize
    requires earlier { AllByRecursion NamesEarlier facts.now }
    requires numbered { AllByRecursion IsNumbered facts.now }
    ensures { result ≡ held_at facts.now home }
{
    let mut count = 0;
    for fact in facts {
        if begins_held(facts, home, fact) {
            count += 1;
        }
    }
    count
}

fn leaves(id: LraId, member: u8, fact: &Fact) -> bool
    ensures { result ≡ is_leave id member fact.now.body }
{
    match &fact.body {
        Body::Leave {
            id: left,
            member: number,
        } => *left == id && *number == member,
        _ => false,
    }
}

/// Whether a participant left its LRA.
pub fn left(facts: &[Fact], id: LraId, member: u8) -> bool
    ensures { result ≡ has_left facts.now id member }
{
    facts.iter().any(|fact| leaves(id, member, fact))
}

fn report_of(id: LraId, member: u8, act: Act, fact: &Fact) -> Option<Outcome>
    ensures { result ≡ reported id member act fact.now.body }
{
    match &fact.body {
        Body::Report {
            id: of,
            member: number,
            act: done,
            outcome,
        } => {
            if *of == id && *number == member && *done == act {
                Some(*outcome)
            } else {
                None
            }
        }
        _ => None,
    }
}

/// Returns the greatest outcome that was reported of an act of a participant.
pub fn greatest_report(facts: &[Fact], id: LraId, member: u8, act: Act) -> Option<Outcome>
    ensures { result ≡ heard facts.now id member act }
{
    let mut greatest = None;
    for fact in facts {
        greatest = Outcome::or_greater(greatest, report_of(id, member, act, fact));
    }
    greatest
}

/// Returns the status of a participant, by what its LRA wants, by its links, and by what was heard
/// of it.
pub fn status_for(
    want: Option<Verdict>,
    links: &Links,
    completed: Option<Outcome>,
    compensated: Option<Outcome>,
) -> MemberStatus
    ensures { result ≡ status_by want links.now completed compensated }
{
    match want {
        None => MemberStatus::Active,
        Some(Verdict::Close) => {
            if links.complete().is_none() {
                return MemberStatus::Completed;
            }
            match completed {
                None | Some(Outcome::Busy) => MemberStatus::Completing,
                Some(Outcome::Done) => MemberStatus::Completed,
                Some(Outcome::Failed) => MemberStatus::FailedToComplete,
            }
        }
        Some(Verdict::Cancel) => {
            if links.compensate().is_none() {
                return MemberStatus::Compensated;
            }
            match compensated {
                None | Some(Outcome::Busy) => MemberStatus::Compensating,
                Some(Outcome::Done) => MemberStatus::Compensated,
                Some(Outcome::Failed) => MemberStatus::FailedToCompensate,
            }
        }
    }
}

fn participant_status(facts: &[Fact], id: LraId, member: u8, links: &Links) -> MemberStatus
    requires { AllByRecursion NamesEarlier facts.now }
    ensures { result ≡ joined_status facts.now id member links.now }
{
    let completed = greatest_report(facts, id, member, Act::Complete);
    let compensated = greatest_report(facts, id, member, Act::Compensate);
    status_for(want_of(facts, id), links, completed, compensated)
}

fn links_joined(id: LraId, member: u8, fact: &Fact) -> Option<&Links>
    ensures { option_copied result ≡ joined_links id member fact.now.body }
{
    match &fact.body {
        Body::Join {
            id: joined,
            member: number,
            links,
        } => {
            if *joined == id && *number == member {
                Some(links)
            } else {
                None
            }
        }
        _ => None,
    }
}

/// Returns the status of a participant, if the LRA is held and the participant joined and didn't
/// leave.
pub fn member_of(facts: &[Fact], id: LraId, member: u8) -> Option<MemberStatus>
    requires { AllByRecursion NamesEarlier facts.now }
    ensures { result ≡ member_status facts.now id member }
{
    if !holds(facts, id) || left(facts, id, member) {
        return None;
    }
    for fact in facts {
        if let Some(links) = links_joined(id, member, fact) {
            return Some(participant_status(facts, id, member, links));
        }
    }
    None
}

fn shows_open(facts: &[Fact], id: LraId, fact: &Fact) -> bool
    requires { AllByRecursion NamesEarlier facts.now }
    ensures { result ≡ shows is_open facts.now id fact.now.body }
{
    match &fact.body {
        Body::Join {
            id: inner,
            member,
            links,
        } => {
            under(facts, id, *inner)
                && !left(facts, *inner, *member)
                && is_open(participant_status(facts, *inner, *member, links))
        }
        _ => false,
    }
}

/// Whether a participant with this status still has something to do.
pub fn is_open(status: MemberStatus) -> bool
    ensures { result ≡ is_open status }
{
    matches!(
        status,
        MemberStatus::Active | MemberStatus::Completing | MemberStatus::Compensating
    )
}

fn shows_failed(facts: &[Fact], id: LraId, failed: MemberStatus, fact: &Fact) -> bool
    requires { AllByRecursion NamesEarlier facts.now }
    ensures { result ≡ shows (same_member_status failed) facts.now id fact.now.body }
{
    match &fact.body {
        Body::Join {
            id: inner,
            member,
            links,
        } => {
            under(facts, id, *inner)
                && !left(facts, *inner, *member)
                && participant_status(facts, *inner, *member, links) == failed
        }
        _ => false,
    }
}

fn open_under(facts: &[Fact], id: LraId) -> bool
    requires { AllByRecursion NamesEarlier facts.now }
    ensures { result ≡ some_shows is_open facts.now id }
{
    facts.iter().any(|fact| shows_open(facts, id, fact))
}

fn failed_under(facts: &[Fact], id: LraId, failed: MemberStatus) -> bool
    requires { AllByRecursion NamesEarlier facts.now }
    ensures { result ≡ some_shows (same_member_status failed) facts.now id }
{
    facts
        .iter()
        .any(|fact| shows_failed(facts, id, failed, fact))
}

/// Returns the status of an LRA, by what it wants and by the state of the participants under it.
pub fn shown_status(
    want: Option<Verdict>,
    unsettled: bool,
    incomplete: bool,
    uncompensated: bool,
) -> LraStatus
    ensures { result ≡ shown want (is_some want && not unsettled) incomplete uncompensated }
{
    match want {
        None => LraStatus::Active,
        Some(Verdict::Close) => {
            if unsettled {
                LraStatus::Closing
            } else if incomplete {
                LraStatus::FailedToClose
            } else {
                LraStatus::Closed
            }
        }
        Some(Verdict::Cancel) => {
            if unsettled {
                LraStatus::Cancelling
            } else if uncompensated {
                LraStatus::FailedToCancel
            } else {
                LraStatus::Cancelled
            }
        }
    }
}

/// Returns the status of an LRA that is held.
pub fn shows_now(facts: &[Fact], id: LraId) -> LraStatus
    requires { AllByRecursion NamesEarlier facts.now }
    ensures { result ≡ shows_now facts.now id }
{
    let unsettled = open_under(facts, id);
    let incomplete = failed_under(facts, id, MemberStatus::FailedToComplete);
    let uncompensated = failed_under(facts, id, MemberStatus::FailedToCompensate);
    shown_status(want_of(facts, id), unsettled, incomplete, uncompensated)
}

/// Returns the status of an LRA, if it is held.
pub fn status_of(facts: &[Fact], id: LraId) -> Option<LraStatus>
    requires { AllByRecursion NamesEarlier facts.now }
    ensures { result ≡ status facts.now id }
{
    if !holds(facts, id) {
        return None;
    }
    Some(shows_now(facts, id))
}

/// Whether a fact gives a member number of an LRA.
pub fn gives_number(id: LraId, fact: &Fact) -> bool
    ensures { result ≡ gives_number id fact.now.body }
{
    match &fact.body {
        Body::Join { id: joined, .. } => *joined == id,
        Body::Begin {
            parent: Some(parent),
            ..
        } => *parent == id,
        _ => false,
    }
}

/// Returns the number of member numbers of an LRA that were given.
pub fn numbers_given(facts: &[Fact], id: LraId) -> usize
    ensures { result ≡ numbers_given facts.now id }
{
    facts.iter().filter(|fact| gives_number(id, fact)).count()
}

/// Returns the depth of an LRA: 1 for a root, and one more for each LRA above it.
#[tactic(auto, using(crate::proofs::Chains::parent_lesser, crate::proofs::Chains::depth_is))]
pub fn depth_of(facts: &[Fact], id: LraId) -> u64
    requires { AllByRecursion NamesEarlier facts.now }
    ensures { result ≡ depth facts.now id }
{
    let _num = id.num();
    let mut at = id;
    let mut depth = 1;
    'above: loop {
        match parent(facts, at) {
            Some(above) => at = above,
            None => return depth,
        }
        depth += 1;
    }
}

fn links(facts: &[Fact], id: LraId, member: u8) -> Option<&Links>
    ensures { option_copied result ≡ links_of facts.now id member }
{
    for fact in facts {
        if let Some(links) = links_joined(id, member, fact) {
            return Some(links);
        }
    }
    None
}

/// Whether a want demands this act of a participant with these links.
pub fn demands(want: Option<Verdict>, links: &Links, act: Act) -> bool
    ensures { result ≡ demands want links.now act }
{
    match (want, act) {
        (Some(Verdict::Close), Act::Complete) => links.complete().is_some(),
        (Some(Verdict::Cancel), Act::Compensate) => links.compensate().is_some(),
        _ => false,
    }
}

/// Whether what an LRA wants demands this act of its participant.
pub fn is_demanded(facts: &[Fact], id: LraId, member: u8, act: Act) -> bool
    requires { AllByRecursion NamesEarlier facts.now }
    ensures { result ≡ is_demanded facts.now id member act }
{
    match links(facts, id, member) {
        Some(links) => demands(want_of(facts, id), links, act),
        None => false,
    }
}
