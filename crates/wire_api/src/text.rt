// Writes the bodies of answers. JSON is written as text in pieces, because nothing in it needs an
// escape.
ghost use Rattle.std.specs.Prelude.{◌≡◌, ◌++◌, IfOk, OnOk};
ghost use Rattle.std.specs.Fmt.{decimal};
ghost use Rattle.state_ids.specs.Ids.{text_of};
ghost use Rattle.wire_api.specs.Texts.{member_body, more_rows, next_of, next_text, of_lra, of_status, page_body, recovery_path, refusal_body, rows_text, status_body, urn, why_body};
ghost use Rattle.wire_api.specs.Texts as spec;

use state_ids::{LraId, LraStatus, MemberStatus};
use state_replica::{Page, Row};
use std::alloc::{AllocError, Global};

fn push(body: &mut Vec<u8>, text: &str) -> Result<(), AllocError>
    ensures { OnOk result (body.new.items ≡ body.old.items ++ text.now) }
{
    body.extend_from_slice(text.as_bytes())
}

fn push_id(body: &mut Vec<u8>, id: LraId) -> Result<(), AllocError>
    ensures { OnOk result (body.new.items ≡ body.old.items ++ text_of id) }
{
    body.extend_from_slice(&id.to_text())
}

#[tactic(auto, unfolding(crate::specs::Texts::of_lra))]
fn push_lra(body: &mut Vec<u8>, id: LraId) -> Result<(), AllocError>
    ensures { OnOk result (body.new.items ≡ body.old.items ++ of_lra id) }
{
    push(body, "{\"lra\":\"")?;
    push_id(body, id)?;
    push(body, "\"")
}

#[tactic(auto, unfolding(crate::specs::Texts::of_status))]
fn push_name(body: &mut Vec<u8>, name: &str) -> Result<(), AllocError>
    ensures { OnOk result (body.new.items ≡ body.old.items ++ of_status name.now) }
{
    push(body, ",\"status\":\"")?;
    push(body, name)?;
    push(body, "\"}")
}

#[tactic(auto, unfolding(crate::specs::Texts::status_body))]
fn push_status(body: &mut Vec<u8>, id: LraId, status: LraStatus) -> Result<(), AllocError>
    ensures { OnOk result (body.new.items ≡ body.old.items ++ status_body id status) }
{
    push_lra(body, id)?;
    push_name(body, status.name())
}

/// Makes the body that says what an LRA shows.
pub fn status_body(alloc: Global, id: LraId, status: LraStatus) -> Result<Vec<u8>, AllocError>
    ensures { IfOk result (λ body. body.items ≡ status_body id status) }
{
    let mut body = Vec::new(alloc);
    push_status(&mut body, id, status)?;
    Ok(body)
}

fn push_number(alloc: Global, body: &mut Vec<u8>, number: u8) -> Result<(), AllocError>
    ensures { OnOk result (body.new.items ≡ body.old.items ++ decimal number) }
{
    let digits = number.to_string(alloc)?;
    push(body, digits.as_str())
}

/// Makes the body that says what a participant shows.
#[tactic(auto, unfolding(crate::specs::Texts::member_body))]
pub fn member_body(
    alloc: Global,
    id: LraId,
    member: u8,
    status: MemberStatus,
) -> Result<Vec<u8>, AllocError>
    ensures { IfOk result (λ body. body.items ≡ member_body id member status) }
{
    let mut body = Vec::new(alloc);
    push_lra(&mut body, id)?;
    push(&mut body, ",\"member\":")?;
    push_number(alloc, &mut body, member)?;
    push_name(&mut body, status.name())?;
    Ok(body)
}

#[tactic(auto, unfolding(crate::specs::Texts::recovery_path))]
fn push_recovery(alloc: Global, body: &mut Vec<u8>, id: LraId, member: u8) -> Result<(), AllocError>
    ensures { OnOk result (body.new.items ≡ body.old.items ++ recovery_path id member) }
{
    push(body, "/lra/")?;
    push_id(body, id)?;
    push(body, "/member/")?;
    push_number(alloc, body, member)
}

/// Makes the path at which the coordinator describes a participant.
pub fn recovery_path(alloc: Global, id: LraId, member: u8) -> Result<Vec<u8>, AllocError>
    ensures { IfOk result (λ path. path.items ≡ recovery_path id member) }
{
    let mut path = Vec::new(alloc);
    push_recovery(alloc, &mut path, id, member)?;
    Ok(path)
}

/// Makes the body that gives a participant its number.
#[tactic(auto, unfolding(crate::specs::Texts::join_body))]
pub fn join_body(alloc: Global, id: LraId, member: u8) -> Result<Vec<u8>, AllocError>
    ensures { IfOk result (λ body. body.items ≡ spec.join_body id member) }
{
    let mut body = Vec::new(alloc);
    push(&mut body, "{\"member\":")?;
    push_number(alloc, &mut body, member)?;
    push(&mut body, ",\"recovery\":\"")?;
    push_recovery(alloc, &mut body, id, member)?;
    push(&mut body, "\"}")?;
    Ok(body)
}

/// Makes the URN of an LRA.
#[tactic(auto, unfolding(crate::specs::Texts::urn))]
pub fn urn(alloc: Global, id: LraId) -> Result<Vec<u8>, AllocError>
    ensures { IfOk result (λ text. text.items ≡ urn id) }
{
    let mut text = Vec::new(alloc);
    push(&mut text, "urn:uuid:")?;
    push_id(&mut text, id)?;
    Ok(text)
}

fn push_more_rows(body: &mut Vec<u8>, rows: &[Row]) -> Result<(), AllocError>
    ensures { OnOk result (body.new.items ≡ body.old.items ++ more_rows rows.now) }
{
    for row in rows {
        push(body, ",")?;
        push_status(body, row.id, row.status)?;
    }
    Ok(())
}

fn push_rows(body: &mut Vec<u8>, rows: &[Row]) -> Result<(), AllocError>
    ensures { OnOk result (body.new.items ≡ body.old.items ++ rows_text rows.now) }
{
    match rows.split_first() {
        Some((first, rest)) => {
            push_status(body, first.id, first.status)?;
            push_more_rows(body, rest)
        }
        None => Ok(()),
    }
}

fn next_of(page: &Page) -> Option<LraId>
    ensures { result ≡ next_of page.now }
{
    if !page.more() {
        return None;
    }
    match page.rows().last() {
        Some(row) => Some(row.id),
        None => None,
    }
}

fn push_next(body: &mut Vec<u8>, next: Option<LraId>) -> Result<(), AllocError>
    ensures { OnOk result (body.new.items ≡ body.old.items ++ next_text next) }
{
    match next {
        Some(id) => {
            push(body, "\"")?;
            push_id(body, id)?;
            push(body, "\"")
        }
        None => push(body, "null"),
    }
}

/// Makes the body that lists a page.
#[tactic(auto, unfolding(crate::specs::Texts::page_body))]
pub fn page_body(alloc: Global, page: &Page) -> Result<Vec<u8>, AllocError>
    ensures { IfOk result (λ body. body.items ≡ page_body page.now) }
{
    let mut body = Vec::new(alloc);
    push(&mut body, "{\"lras\":[")?;
    push_rows(&mut body, page.rows())?;
    push(&mut body, "],\"next\":")?;
    push_next(&mut body, next_of(page))?;
    push(&mut body, "}")?;
    Ok(body)
}

/// Makes the body that names a refusal.
#[tactic(auto, unfolding(crate::specs::Texts::refusal_body))]
pub fn refusal_body(alloc: Global, text: &str) -> Result<Vec<u8>, AllocError>
    ensures { IfOk result (λ body. body.items ≡ refusal_body text.now) }
{
    let mut body = Vec::new(alloc);
    push(&mut body, "{\"refused\":\"")?;
    push(&mut body, text)?;
    push(&mut body, "\"}")?;
    Ok(body)
}

/// Makes the body that names E1, and says why a request's body is refused.
#[tactic(auto, unfolding(crate::specs::Texts::why_body))]
pub fn why_body(alloc: Global, why: &str) -> Result<Vec<u8>, AllocError>
    ensures { IfOk result (λ body. body.items ≡ why_body why.now) }
{
    let mut body = Vec::new(alloc);
    push(&mut body, "{\"refused\":\"E1 BadText\",\"why\":\"")?;
    push(&mut body, why)?;
    push(&mut body, "\"}")?;
    Ok(body)
}
