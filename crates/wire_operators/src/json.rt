// Writes pieces of JSON.
ghost use Rattle.std.specs.Prelude.{◌≡◌, ◌++◌, OnOk};
ghost use Rattle.std.specs.Fmt.{decimal};
ghost use Rattle.state_ids.specs.Ids.{text_of};
ghost use Rattle.std.specs.Option.{option_copied};
ghost use Rattle.wire_operators.specs.Json.{escaped, id_or_null, key, name_or_null, named, number_or_null, opened, opening, quoted, quoted_bytes, truth, word};

use state_ids::LraId;
use std::alloc::{AllocError, Global};

pub(crate) fn push(body: &mut Vec<u8>, text: &str) -> Result<(), AllocError>
    ensures { OnOk result (body.new.items ≡ body.old.items ++ text.now) }
{
    body.extend_from_slice(text.as_bytes())
}

fn push_id(body: &mut Vec<u8>, id: LraId) -> Result<(), AllocError>
    ensures { OnOk result (body.new.items ≡ body.old.items ++ text_of id) }
{
    body.extend_from_slice(&id.to_text())
}

/// Writes a quoted word in which nothing must be escaped.
#[tactic(auto, unfolding(crate::specs::Json::word))]
pub(crate) fn push_word(body: &mut Vec<u8>, text: &str) -> Result<(), AllocError>
    ensures { OnOk result (body.new.items ≡ body.old.items ++ word text.now) }
{
    push(body, "\"")?;
    push(body, text)?;
    push(body, "\"")
}

/// Writes a member's name behind the object's brace.
#[tactic(auto, unfolding(crate::specs::Json::opening))]
pub(crate) fn push_opening(body: &mut Vec<u8>, name: &str) -> Result<(), AllocError>
    ensures { OnOk result (body.new.items ≡ body.old.items ++ opening name.now) }
{
    push(body, "{\"")?;
    push(body, name)?;
    push(body, "\":")
}

/// Writes a member's name behind another member.
#[tactic(auto, unfolding(crate::specs::Json::key))]
pub(crate) fn push_key(body: &mut Vec<u8>, name: &str) -> Result<(), AllocError>
    ensures { OnOk result (body.new.items ≡ body.old.items ++ key name.now) }
{
    push(body, ",\"")?;
    push(body, name)?;
    push(body, "\":")
}

fn push_name_or_null(body: &mut Vec<u8>, name: Option<&'static str>) -> Result<(), AllocError>
    ensures { OnOk result (body.new.items ≡ body.old.items ++ name_or_null (option_copied name.entry)) }
{
    match name {
        Some(name) => push_word(body, name),
        None => push(body, "null"),
    }
}

#[tactic(auto, unfolding(crate::specs::Json::word))]
fn push_quoted_id(body: &mut Vec<u8>, id: LraId) -> Result<(), AllocError>
    ensures { OnOk result (body.new.items ≡ body.old.items ++ word (text_of id)) }
{
    push(body, "\"")?;
    push_id(body, id)?;
    push(body, "\"")
}

fn push_id_or_null(body: &mut Vec<u8>, id: Option<LraId>) -> Result<(), AllocError>
    ensures { OnOk result (body.new.items ≡ body.old.items ++ id_or_null id) }
{
    match id {
        Some(id) => push_quoted_id(body, id),
        None => push(body, "null"),
    }
}

fn push_number(alloc: Global, body: &mut Vec<u8>, number: u64) -> Result<(), AllocError>
    ensures { OnOk result (body.new.items ≡ body.old.items ++ decimal number) }
{
    let digits = number.to_string(alloc)?;
    push(body, digits.as_str())
}

/// Writes a number, or null if it is 0.
fn push_number_or_null(alloc: Global, body: &mut Vec<u8>, number: u64) -> Result<(), AllocError>
    ensures { OnOk result (body.new.items ≡ body.old.items ++ number_or_null number) }
{
    if number == 0 {
        return push(body, "null");
    }
    push_number(alloc, body, number)
}

fn push_truth(body: &mut Vec<u8>, is_so: bool) -> Result<(), AllocError>
    ensures { OnOk result (body.new.items ≡ body.old.items ++ truth is_so) }
{
    push(body, if is_so { "true" } else { "false" })
}

fn push_byte(body: &mut Vec<u8>, byte: u8) -> Result<(), AllocError>
    ensures { OnOk result (body.new.items ≡ body.old.items ++ escaped byte) }
{
    if byte == b'"' || byte == b'\\' {
        body.extend_from_slice(&[b'\\', byte])
    } else {
        body.extend_from_slice(&[byte])
    }
}

fn push_escaped(body: &mut Vec<u8>, bytes: &[u8]) -> Result<(), AllocError>
    ensures { OnOk result (body.new.items ≡ body.old.items ++ quoted_bytes bytes.now) }
{
    for byte in bytes {
        push_byte(body, *byte)?;
    }
    Ok(())
}

/// Writes a text without control characters as a string: each quote and backslash follows a
/// backslash.
#[tactic(auto, unfolding(crate::specs::Json::quoted))]
pub(crate) fn push_quoted(body: &mut Vec<u8>, text: &str) -> Result<(), AllocError>
    ensures { OnOk result (body.new.items ≡ body.old.items ++ quoted text.now) }
{
    push(body, "\"")?;
    push_escaped(body, text.as_bytes())?;
    push(body, "\"")
}

#[tactic(auto, unfolding(crate::specs::Json::opened))]
pub(crate) fn open_id(body: &mut Vec<u8>, name: &str, id: LraId) -> Result<(), AllocError>
    ensures { OnOk result (body.new.items ≡ body.old.items ++ opened name.now (word (text_of id))) }
{
    push_opening(body, name)?;
    push_quoted_id(body, id)
}

#[tactic(auto, unfolding(crate::specs::Json::opened))]
pub(crate) fn open_number(
    alloc: Global,
    body: &mut Vec<u8>,
    name: &str,
    number: u64,
) -> Result<(), AllocError>
    ensures { OnOk result (body.new.items ≡ body.old.items ++ opened name.now (decimal number)) }
{
    push_opening(body, name)?;
    push_number(alloc, body, number)
}

#[tactic(auto, unfolding(crate::specs::Json::opened))]
pub(crate) fn open_truth(body: &mut Vec<u8>, name: &str, is_so: bool) -> Result<(), AllocError>
    ensures { OnOk result (body.new.items ≡ body.old.items ++ opened name.now (truth is_so)) }
{
    push_opening(body, name)?;
    push_truth(body, is_so)
}

#[tactic(auto, unfolding(crate::specs::Json::named))]
pub(crate) fn add_word(body: &mut Vec<u8>, name: &str, text: &str) -> Result<(), AllocError>
    ensures { OnOk result (body.new.items ≡ body.old.items ++ named name.now (word text.now)) }
{
    push_key(body, name)?;
    push_word(body, text)
}

#[tactic(auto, unfolding(crate::specs::Json::named))]
pub(crate) fn add_name(
    body: &mut Vec<u8>,
    name: &str,
    text: Option<&'static str>,
) -> Result<(), AllocError>
    ensures { OnOk result (body.new.items ≡ body.old.items ++ named name.now (name_or_null (option_copied text.entry))) }
{
    push_key(body, name)?;
    push_name_or_null(body, text)
}

#[tactic(auto, unfolding(crate::specs::Json::named))]
pub(crate) fn add_id(body: &mut Vec<u8>, name: &str, id: Option<LraId>) -> Result<(), AllocError>
    ensures { OnOk result (body.new.items ≡ body.old.items ++ named name.now (id_or_null id)) }
{
    push_key(body, name)?;
    push_id_or_null(body, id)
}

#[tactic(auto, unfolding(crate::specs::Json::named))]
pub(crate) fn add_number(
    alloc: Global,
    body: &mut Vec<u8>,
    name: &str,
    number: u64,
) -> Result<(), AllocError>
    ensures { OnOk result (body.new.items ≡ body.old.items ++ named name.now (decimal number)) }
{
    push_key(body, name)?;
    push_number(alloc, body, number)
}

#[tactic(auto, unfolding(crate::specs::Json::named))]
pub(crate) fn add_number_or_null(
    alloc: Global,
    body: &mut Vec<u8>,
    name: &str,
    number: u64,
) -> Result<(), AllocError>
    ensures { OnOk result (body.new.items ≡ body.old.items ++ named name.now (number_or_null number)) }
{
    push_key(body, name)?;
    push_number_or_null(alloc, body, number)
}

#[tactic(auto, unfolding(crate::specs::Json::named))]
pub(crate) fn add_truth(body: &mut Vec<u8>, name: &str, is_so: bool) -> Result<(), AllocError>
    ensures { OnOk result (body.new.items ≡ body.old.items ++ named name.now (truth is_so)) }
{
    push_key(body, name)?;
    push_truth(body, is_so)
}
