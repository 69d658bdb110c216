// Ids of LRAs, as nodes and services write them.
ghost use Rattle.std.specs.Prelude.{◌≡◌, IfOk, MatchOption, string_bytes};
ghost use Rattle.percent_encoding.specs.Percent.{percent_decode};
ghost use Rattle.state_ids.specs.Ids.{Id, IsId, IsTextOf, text_of};
ghost use Rattle.wire_narayana.specs.Naming.{IsBaseUrl, Names, is_parting, last_part, path_of, recovery_of, url_of, without_slashes};

use percent_encoding::percent_decode;
use state_ids::LraId;
use std::alloc::{AllocError, Global};

/// Returns an id as text: a UUID of 36 bytes, in lower case with hyphens.
pub fn text_of(alloc: Global, id: LraId) -> Result<String, AllocError>
    ensures value { IfOk result (λ text. string_bytes text ≡ text_of id) }
    ensures read { IfOk result (λ _. IsId id × IsTextOf (text_of id) id) }
{
    let bytes = id.to_text();
    match str::from_utf8(&bytes) {
        Ok(text) => String::from_str(alloc, text),
        Err(_) => unreachable!(),
    }
}

/// Returns an id as services know it, `BASE/lra-coordinator/UUID`. Every service must be able to
/// reach the base, such as `http://lra:8080`.
pub fn url_of(alloc: Global, base: &str, id: LraId) -> Result<String, AllocError>
    ensures value { IfOk result (λ text. string_bytes text ≡ url_of base.now id) }
    // The URL is read back as the same id.
    ensures read { IsBaseUrl base.now → IfOk result (λ text. Names (string_bytes text) id) }
{
    let id = text_of(alloc, id)?;
    format!(in alloc; "{base}/lra-coordinator/{id}")
}

/// Returns the URL at which services find a participant.
pub fn recovery_of(alloc: Global, base: &str, id: LraId, member: u8) -> Result<String, AllocError>
    ensures { IfOk result (λ text. string_bytes text ≡ recovery_of base.now id member) }
{
    let id = text_of(alloc, id)?;
    format!(in alloc; "{base}/lra-coordinator/recovery/{id}/{member}")
}

/// Returns the part of a URL before its query.
fn path_of(text: &[u8]) -> &[u8]
    ensures { result.now ≡ path_of text.now }
{
    for place in 0..text.len() {
        if text[place] == b'?' {
            return &text[..place];
        }
    }
    text
}

fn without_slashes(path: &[u8]) -> &[u8]
    ensures { result.now ≡ without_slashes path.now }
{
    let mut rest = path;
    while let [before @ .., b'/'] = rest {
        rest = before;
    }
    rest
}

fn is_parting(byte: u8) -> bool
    ensures { result ≡ is_parting byte }
{
    byte == b'/' || byte == b':'
}

/// Returns the part behind the last slash or colon.
fn last_part(path: &[u8]) -> &[u8]
    ensures { result.now ≡ last_part path.now }
{
    let mut start = 0;
    for place in 0..path.len() {
        if !is_parting(path[place]) {
            continue;
        }
        start = place + 1;
    }
    &path[start..]
}

/// Returns these bytes with their escapes decoded (RFC 3986, section 2.1).
fn decoded(alloc: Global, bytes: &[u8]) -> Result<Vec<u8>, AllocError>
    ensures { IfOk result (λ plain. plain.items ≡ percent_decode bytes.now) }
{
    let mut plain = Vec::new(alloc);
    percent_decode(bytes).append_to(&mut plain)?;
    Ok(plain)
}

/// Returns the id that a text names: the last part of a path, a URL or a URN. It may be unescaped,
/// escaped once by a client, or escaped once more by the client's HTTP library. Returns `None` if
/// that is no id of ours.
pub fn id_in(alloc: Global, text: &[u8]) -> Result<Option<LraId>, AllocError>
    ensures { IfOk result (λ it. MatchOption it ((id : Id) → Names text.now id → ⊥)
        (λ id. Names text.now id)) }
{
    let once = decoded(alloc, text)?;
    let twice = decoded(alloc, once.as_slice())?;
    match LraId::from_ascii(last_part(without_slashes(path_of(twice.as_slice())))) {
        Ok(id) => Ok(Some(id)),
        Err(_) => Ok(None),
    }
}
