// The links with which a service joins: a `Link` field, or one URL for all of them.
ghost use Rattle.std.specs.Prelude.{◌≡◌, ◌≢◌, ◌++◌, ◌≤◌, ℕ, List, IfOk, IfSome, IsSomeAnd, OnOk, codes, length, map};
ghost use Rattle.std.specs.Str.{trim};
ghost use Rattle.wire_narayana.specs.Links.{AreGiven, IsBase, IsEnd, IsGiven, of_base, said_by};

use crate::LinkKind;
use crate::short::behind;
use std::alloc::{AllocError, Global};

/// A link that a service gave.
#[derive(Drop)]
pub struct GivenLink {
    pub kind: LinkKind,
    pub url: String,
}

/// Returns the place of the first comma outside quotes, or the length of the text if there is none.
fn comma_in(text: &[u8]) -> usize
    ensures { result ≤ length text.now }
{
    let mut is_quoted = false;
    for place in 0..text.len() {
        if text[place] == b'"' {
            is_quoted = !is_quoted;
        }
        if text[place] == b',' && !is_quoted {
            return place;
        }
    }
    text.len()
}

/// Returns the value of a parameter, if it has this name.
fn said<'a>(parameter: &'a str, name: &str) -> Option<&'a str> {
    let (key, value) = parameter.split_once('=')?;
    if key.trim() != name {
        return None;
    }
    Some(value.trim().trim_matches('"'))
}

/// Returns the kind that the parameters of a link name.
fn kind_in(parameters: &str) -> Option<LinkKind> {
    for parameter in parameters.split(';') {
        if let Some(rel) = said(parameter, "rel") {
            return LinkKind::from_name(rel);
        }
    }
    None
}

fn has(links: &[GivenLink], kind: LinkKind) -> bool {
    for link in links {
        if link.kind == kind {
            return true;
        }
    }
    false
}

/// Splits off the first link: returns its URL, its parameters, and the text behind it.
fn first_in(text: &str) -> Option<(&str, &str, &str)>
    ensures { IfSome result (λ p. IsGiven text.now p.0.now × IsEnd text.now p.2.now) }
{
    let (url, tail) = behind("<", text.trim_start())?.split_once('>')?;
    let place = comma_in(tail.as_bytes());
    let (parameters, rest) = tail.split_at_checked(place)?;
    let Some(after) = behind(",", rest) else {
        return Some((url, parameters, rest));
    };
    Some((url, parameters, after))
}

fn made(alloc: Global, kind: LinkKind, base: &str, tail: &str) -> Result<GivenLink, AllocError>
    ensures { IfOk result (λ link. said_by link ≡ (kind, base.now ++ tail.now)) }
{
    let url = format!(in alloc; "{base}{tail}")?;
    Ok(GivenLink { kind, url })
}

/// Adds a link, unless it has no kind or there is already a link of its kind.
fn add(
    alloc: Global,
    links: &mut Vec<GivenLink>,
    kind: Option<LinkKind>,
    url: &str,
) -> Result<(), AllocError>
    ensures { (text : List ℕ) → IsGiven text url.now → AreGiven text links.old.items →
        OnOk result (AreGiven text links.new.items) }
{
    let Some(kind) = kind else {
        return Ok(());
    };
    if has(links, kind) {
        return Ok(());
    }
    let url = String::from_str(alloc, url)?;
    links.push(GivenLink { kind, url })?;
    Ok(())
}

/// Reads a text that lists links.
fn listed(alloc: Global, text: &str) -> Result<Option<Vec<GivenLink>>, AllocError>
    ensures { IfOk result (λ it. IfSome it (λ links. AreGiven text.now links.items)) }
{
    let mut links = Vec::new(alloc);
    let mut rest = text;
    for _turn in 0..text.len() {
        if rest.trim().is_empty() {
            break;
        }
        let Some((url, parameters, after)) = first_in(rest) else {
            return Ok(None);
        };
        add(alloc, &mut links, kind_in(parameters), url)?;
        rest = after;
    }
    if links.is_empty() {
        return Ok(None);
    }
    Ok(Some(links))
}

/// Returns the links that a plain URL stands for.
fn of_base(alloc: Global, base: &str) -> Result<Vec<GivenLink>, AllocError>
    ensures { IfOk result (λ links. map said_by links.items ≡ of_base base.now) }
{
    let compensate = made(alloc, LinkKind::Compensate, base, "/compensate")?;
    let complete = made(alloc, LinkKind::Complete, base, "/complete")?;
    let status = made(alloc, LinkKind::Status, base, "")?;
    let forget = made(alloc, LinkKind::Forget, base, "")?;
    let mut links = Vec::new(alloc);
    links.push(compensate)?;
    links.push(complete)?;
    links.push(status)?;
    links.push(forget)?;
    Ok(links)
}

/// Returns a URL without the slash at its end.
fn base_of(url: &str) -> &str
    ensures { IsBase url.now result.now }
{
    let Some(base) = url.strip_suffix("/") else {
        return url;
    };
    base
}

/// Returns the links of a `Link` field (RFC 8288, section 3), the first of each kind, or `None` if
/// the field can't be read or names no kind. Parameters may be quoted or bare, in any order, and
/// unknown ones are ignored. A plain URL U stands for U/compensate, U/complete, and U itself for
/// status and forget.
pub fn links_of(alloc: Global, text: &str) -> Result<Option<Vec<GivenLink>>, AllocError>
    ensures plain { (tail : List ℕ) → trim text.now ≡ codes "http://" ++ tail →
        IfOk result (λ it. IsSomeAnd it (λ links. (base : List ℕ) × IsBase (trim text.now) base × (map said_by links.items ≡ of_base base))) }
    ensures given { ((tail : List ℕ) → trim text.now ≢ codes "http://" ++ tail) →
        IfOk result (λ it. IfSome it (λ links. AreGiven (trim text.now) links.items)) }
{
    let text = text.trim();
    let Some(_) = behind("http://", text) else {
        return listed(alloc, text);
    };
    let links = of_base(alloc, base_of(text))?;
    Ok(Some(links))
}
