// Writes a list of LRAs, as JSON.
ghost use Rattle.std.specs.Prelude.{◌≡◌, ◌++◌, IfOk, OnOk, false};
ghost use Rattle.wire_operators.specs.Surveys.{next_of, shown_text, summary_text, survey_body};
ghost use Rattle.wire_operators.specs.Surveys as spec;

use crate::Filter;
use crate::json::{add_id, add_number, add_number_or_null, add_word, open_id, push, push_opening};
use state_book::{Summary, Survey};
use state_ids::LraId;
use std::alloc::{AllocError, Global};

fn parent_of(summary: &Summary) -> Option<LraId>
    ensures { result ≡ spec.parent_of summary.now }
{
    let Some(number) = summary.parent else {
        return None;
    };
    match LraId::new(summary.id.home(), number) {
        Ok(parent) => Some(parent),
        Err(_) => None,
    }
}

#[tactic(auto, unfolding(crate::specs::Surveys::summary_text))]
fn push_summary(alloc: Global, body: &mut Vec<u8>, summary: &Summary) -> Result<(), AllocError>
    ensures { OnOk result (body.new.items ≡ body.old.items ++ summary_text summary.now) }
{
    open_id(body, "lra", summary.id)?;
    add_word(body, "status", summary.status.name())?;
    add_id(body, "parent", parent_of(summary))?;
    add_number(alloc, body, "members", summary.members as u64)?;
    add_number_or_null(alloc, body, "deadline", summary.deadline)?;
    push(body, "}")
}

/// Writes the rows that a filter shows, each behind a comma, except the very first.
fn push_shown(
    alloc: Global,
    body: &mut Vec<u8>,
    filter: &Filter,
    rows: &[Summary],
) -> Result<(), AllocError>
    ensures { OnOk result (body.new.items ≡ body.old.items ++ shown_text filter.now false rows.now) }
{
    let mut is_behind = false;
    for row in rows {
        if filter.shows(row) {
            push(body, if is_behind { "," } else { "" })?;
            push_summary(alloc, body, row)?;
            is_behind = true;
        }
    }
    Ok(())
}

fn next_of(survey: &Survey) -> Option<LraId>
    ensures { result ≡ next_of survey.now }
{
    if !survey.more() {
        return None;
    }
    match survey.rows().last() {
        Some(row) => Some(row.id),
        None => None,
    }
}

/// Makes the body that lists the rows of a survey that a filter shows, and names the LRA beyond
/// which the next survey goes on.
#[tactic(auto, unfolding(crate::specs::Surveys::survey_body))]
pub(crate) fn survey_body(
    alloc: Global,
    filter: &Filter,
    survey: &Survey,
) -> Result<Vec<u8>, AllocError>
    ensures { IfOk result (λ body. body.items ≡ survey_body filter.now survey.now) }
{
    let mut body = Vec::new(alloc);
    push_opening(&mut body, "lras")?;
    push(&mut body, "[")?;
    push_shown(alloc, &mut body, filter, survey.rows())?;
    push(&mut body, "]")?;
    add_id(&mut body, "next", next_of(survey))?;
    push(&mut body, "}")?;
    Ok(body)
}
