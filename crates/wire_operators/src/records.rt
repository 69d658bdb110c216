// Writes everything that is held of an LRA, as JSON.
ghost use Rattle.std.specs.Prelude.{◌≡◌, ◌++◌, ◌<◌, IfOk, OnOk, codes};
ghost use Rattle.std.specs.Option.{option_copied};
ghost use Rattle.state_forest.specs.declared.record.TheConstants.{MAX_MEMBERS};
ghost use Rattle.wire_operators.specs.Json.{named, opened};
ghost use Rattle.wire_operators.specs.Records.{head_text, left_text, link_or_null, links_text, member_text, nested_at, nested_text, outcome_name_of, parent_of, participant_text, purge_text, record_body, row_at, row_text, rows_text, said_text, status_name_of, verdict_name_of};

use crate::json::{
    add_id, add_name, add_number_or_null, add_truth, add_word, open_id, open_number, push,
    push_key, push_opening, push_quoted, push_word,
};
use state_book::Holding;
use state_facts::{CommandReply, Link, Links};
use state_forest::{MAX_MEMBERS, Member, Participant, Place};
use state_ids::{LraId, MemberStatus, Outcome, Verdict};
use std::alloc::{AllocError, Global};

/// Returns the LRA with this number at the home of another.
fn nested_at(id: LraId, number: u64) -> Option<LraId>
    ensures { result ≡ nested_at id number }
{
    match LraId::new(id.home(), number) {
        Ok(nested) => Some(nested),
        Err(_) => None,
    }
}

fn parent_of(id: LraId, place: Option<Place>) -> Option<LraId>
    ensures { result ≡ parent_of id place }
{
    match place {
        Some(place) => nested_at(id, place.number),
        None => None,
    }
}

fn verdict_name_of(verdict: Option<Verdict>) -> Option<&'static str>
    ensures { option_copied result ≡ verdict_name_of verdict }
{
    match verdict {
        Some(verdict) => Some(verdict.name()),
        None => None,
    }
}

fn outcome_name_of(outcome: Option<Outcome>) -> Option<&'static str>
    ensures { option_copied result ≡ outcome_name_of outcome }
{
    match outcome {
        Some(outcome) => Some(outcome.name()),
        None => None,
    }
}

fn status_name_of(status: Option<MemberStatus>) -> Option<&'static str>
    ensures { option_copied result ≡ status_name_of status }
{
    match status {
        Some(status) => Some(status.name()),
        None => None,
    }
}

fn push_link(body: &mut Vec<u8>, link: Option<&Link>) -> Result<(), AllocError>
    ensures { OnOk result (body.new.items ≡ body.old.items ++ link_or_null (option_copied link.entry)) }
{
    match link {
        Some(link) => push_quoted(body, link.as_str()),
        None => push(body, "null"),
    }
}

#[tactic(auto, unfolding(crate::specs::Json::opened))]
fn open_link(body: &mut Vec<u8>, name: &str, link: Option<&Link>) -> Result<(), AllocError>
    ensures { OnOk result (body.new.items ≡ body.old.items ++ opened name.now (link_or_null (option_copied link.entry))) }
{
    push_opening(body, name)?;
    push_link(body, link)
}

#[tactic(auto, unfolding(crate::specs::Json::named))]
fn add_link(body: &mut Vec<u8>, name: &str, link: Option<&Link>) -> Result<(), AllocError>
    ensures { OnOk result (body.new.items ≡ body.old.items ++ named name.now (link_or_null (option_copied link.entry))) }
{
    push_key(body, name)?;
    push_link(body, link)
}

#[tactic(auto, unfolding(crate::specs::Records::links_text))]
fn push_links(body: &mut Vec<u8>, links: &Links) -> Result<(), AllocError>
    ensures { OnOk result (body.new.items ≡ body.old.items ++ links_text links.now) }
{
    open_link(body, "compensate", links.compensate())?;
    add_link(body, "complete", links.complete())?;
    add_link(body, "status", links.status())?;
    add_link(body, "forget", links.forget())?;
    add_link(body, "after", links.after())?;
    push(body, "}")
}

#[tactic(auto, unfolding(crate::specs::Json::named))]
fn add_links(body: &mut Vec<u8>, links: &Links) -> Result<(), AllocError>
    ensures { OnOk result (body.new.items ≡ body.old.items ++ named (codes "links") (links_text links.now)) }
{
    push_key(body, "links")?;
    push_links(body, links)
}

/// Writes the outcomes that were learned from a participant, and what it was notified of.
#[tactic(auto, unfolding(crate::specs::Records::said_text))]
fn push_said(body: &mut Vec<u8>, participant: &Participant) -> Result<(), AllocError>
    ensures { OnOk result (body.new.items ≡ body.old.items ++ said_text participant.now) }
{
    add_name(body, "completed", outcome_name_of(participant.completed))?;
    add_name(
        body,
        "compensated",
        outcome_name_of(participant.compensated),
    )?;
    add_truth(body, "forgotten", participant.forgotten)?;
    add_truth(body, "told", participant.told)?;
    push(body, "}")
}

#[tactic(auto, unfolding(crate::specs::Records::participant_text))]
fn push_participant(
    body: &mut Vec<u8>,
    participant: &Participant,
    status: Option<MemberStatus>,
) -> Result<(), AllocError>
    ensures { OnOk result (body.new.items ≡ body.old.items ++ participant_text participant.now status) }
{
    add_word(body, "kind", "participant")?;
    add_name(body, "status", status_name_of(status))?;
    add_links(body, &participant.links)?;
    push_said(body, participant)
}

#[tactic(auto, unfolding(crate::specs::Records::nested_text))]
fn push_nested(body: &mut Vec<u8>, id: Option<LraId>) -> Result<(), AllocError>
    ensures { OnOk result (body.new.items ≡ body.old.items ++ nested_text id) }
{
    add_word(body, "kind", "lra")?;
    add_id(body, "lra", id)?;
    push(body, "}")
}

#[tactic(auto, unfolding(crate::specs::Records::left_text))]
fn push_left(body: &mut Vec<u8>) -> Result<(), AllocError>
    ensures { OnOk result (body.new.items ≡ body.old.items ++ left_text) }
{
    add_word(body, "kind", "left")?;
    push(body, "}")
}

/// Writes what stands behind the number of a member of an LRA.
fn push_member(
    body: &mut Vec<u8>,
    id: LraId,
    member: &Member,
    status: Option<MemberStatus>,
) -> Result<(), AllocError>
    ensures { OnOk result (body.new.items ≡ body.old.items ++ member_text id member.now status) }
{
    match member {
        Member::Participant(participant) => push_participant(body, participant, status),
        Member::Nested(number) => push_nested(body, nested_at(id, *number)),
        Member::Left => push_left(body),
    }
}

#[tactic(auto, unfolding(crate::specs::Records::row_text))]
fn push_row(
    alloc: Global,
    body: &mut Vec<u8>,
    id: LraId,
    place: usize,
    member: &Member,
    status: Option<MemberStatus>,
) -> Result<(), AllocError>
    requires { place < MAX_MEMBERS }
    ensures { OnOk result (body.new.items ≡ body.old.items ++ row_text id place member.now status) }
{
    push(body, if place == 0 { "" } else { "," })?;
    open_number(alloc, body, "member", place as u64 + 1)?;
    push_member(body, id, member, status)
}

/// Writes the member at a place, if there is one.
fn push_row_at(
    alloc: Global,
    body: &mut Vec<u8>,
    holding: &Holding,
    place: usize,
) -> Result<(), AllocError>
    requires { place < MAX_MEMBERS }
    ensures { OnOk result (body.new.items ≡ body.old.items ++ row_at holding.now place) }
{
    let members = holding.record.members.as_slice();
    match (members.get(place), holding.members.as_slice().get(place)) {
        (Some(member), Some(status)) => {
            push_row(alloc, body, holding.id, place, member, *status)
        }
        _ => Ok(()),
    }
}

/// Writes all members, in order of their numbers.
#[tactic(auto, unfolding(crate::specs::Records::rows_text))]
fn push_rows(alloc: Global, body: &mut Vec<u8>, holding: &Holding) -> Result<(), AllocError>
    ensures { OnOk result (body.new.items ≡ body.old.items ++ rows_text holding.now) }
{
    for place in 0..MAX_MEMBERS {
        push_row_at(alloc, body, holding, place)?;
    }
    Ok(())
}

/// Writes how a purge would be answered: `due`, or the refusal.
fn push_purge(alloc: Global, body: &mut Vec<u8>, purge: CommandReply) -> Result<(), AllocError>
    ensures { OnOk result (body.new.items ≡ body.old.items ++ purge_text purge) }
{
    match purge {
        CommandReply::Refused(refusal) => {
            let text = refusal.to_string(alloc)?;
            push_word(body, text.as_str())
        }
        _ => push_word(body, "due"),
    }
}

#[tactic(auto, unfolding(crate::specs::Json::named))]
fn add_purge(alloc: Global, body: &mut Vec<u8>, purge: CommandReply) -> Result<(), AllocError>
    ensures { OnOk result (body.new.items ≡ body.old.items ++ named (codes "purge") (purge_text purge)) }
{
    push_key(body, "purge")?;
    push_purge(alloc, body, purge)
}

/// Writes what stands before the members.
#[tactic(auto, unfolding(crate::specs::Records::head_text))]
fn push_head(alloc: Global, body: &mut Vec<u8>, holding: &Holding) -> Result<(), AllocError>
    ensures { OnOk result (body.new.items ≡ body.old.items ++ head_text holding.now) }
{
    let record = &holding.record;
    open_id(body, "lra", holding.id)?;
    add_word(body, "status", holding.status.name())?;
    add_id(body, "parent", parent_of(holding.id, record.parent))?;
    add_number_or_null(alloc, body, "deadline", record.deadline)?;
    add_name(body, "decision", verdict_name_of(record.decision))?;
    add_purge(alloc, body, holding.purge)
}

/// Makes the body with everything that is held of an LRA.
#[tactic(auto, unfolding(crate::specs::Records::record_body))]
pub(crate) fn record_body(alloc: Global, holding: &Holding) -> Result<Vec<u8>, AllocError>
    ensures { IfOk result (λ body. body.items ≡ record_body holding.now) }
{
    let mut body = Vec::new(alloc);
    push_head(alloc, &mut body, holding)?;
    push_key(&mut body, "members")?;
    push(&mut body, "[")?;
    push_rows(alloc, &mut body, holding)?;
    push(&mut body, "]}")?;
    Ok(body)
}
