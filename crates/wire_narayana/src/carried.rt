// Links that carry a participant's own link, with a seal: http://VIA/KSEAL/REST.
ghost use Rattle.std.specs.Prelude.{◌≡◌, ◌≢◌, ◌≤◌, ◌+◌, ◌++◌, ℕ, List, IfErr, IfOk, IfSome, MatchOption, None, Some, Err, ◌∷◌, length, option_map, string_bytes};
ghost use Rattle.url.specs.Parts.{Parts, serialize};
ghost use Rattle.wire_narayana.specs.Kinds.{query_text};
ghost use Rattle.wire_narayana.specs.Opening.{IsOpened};
ghost use Rattle.wire_narayana.specs.Carrying.{Carries, IsCarrying, IsOwn, IsWritten, address_of, host_for, is_plain};
ghost use Rattle.wire_narayana.specs.declared.link_kind.LinkKind.{LinkKind};
ghost use Rattle.wire_narayana.specs.declared.link_kind.Query.TheVariants.{Own, Jakarta, Javax};
ghost use Rattle.wire_narayana.specs.declared.carried.TheConstants.{MOST_LINK};
ghost use Rattle.wire_narayana.specs.declared.carried.Uncarried.TheVariants as uncarried;

use crate::seal::{Key, is_same, seal_of};
use crate::short::{Short, behind, shortened, spelled};
use crate::{LinkKind, Query};
use sha2::{Digest, Sha256};
use state_ids::LraId;
use std::alloc::{AllocError, Global};
use url::{ParseError, Position, Url};

/// The most bytes of a link that a node stores.
pub const MOST_LINK: usize = 127;

/// The number of bytes between the first two slashes of a target: the letter, and the eight of the
/// seal.
const HEAD: usize = 9;

/// The address at which nodes reach the gateway.
#[derive(Drop)]
pub struct Via {
    /// The host. If `None`, each host of participants has its own address of the loopback
    /// interface, because a node gives each host its turn.
    pub host: Option<String>,
    pub port: u16,
}

/// Why a link isn't carried.
#[derive(Clone, Copy, PartialEq, Eq, Debug)]
pub enum Uncarried {
    /// Memory ran out.
    NoMemory,
    /// It is no URL, or no URL at which a participant can be called.
    Unfit,
    /// The carried link would exceed 127 bytes by this many.
    TooLong(usize),
    /// The short forms are ambiguous, or `url` would write the carried link differently.
    Unwritten,
}

/// A participant's own link, read back out of a carried link.
#[derive(Drop)]
pub struct Opened {
    pub kind: LinkKind,
    /// The link as `url` writes it.
    pub link: String,
}

fn is_plain(url: &Url) -> bool
    ensures { result ≡ is_plain url.now }
{
    url.scheme() == "http"
        && url.username().is_empty()
        && url.password().is_none()
        && url.fragment().is_none()
        && !url.as_str().as_bytes().contains(&b'\\')
}

/// Parses a participant's link as a URL at which it can be called.
fn own_of(alloc: Global, link: &str) -> Result<Url, Uncarried>
    ensures own { IfOk result (λ own. IsOwn link.now own) }
    ensures refused { IfErr result (λ e. e ≢ uncarried.NoMemory →
        (e ≡ uncarried.Unfit) × ((own : Parts) → IsOwn link.now own → ⊥)) }
{
    match Url::parse(alloc, link) {
        Ok(url) if is_plain(&url) => Ok(url),
        Err(ParseError::OutOfMemory | ParseError::Overflow) => Err(Uncarried::NoMemory),
        _ => Err(Uncarried::Unfit),
    }
}

/// Returns the form of a link's query, and the link without the query that this form adds.
fn form_of(kind: LinkKind, link: &str) -> (Query, &str)
    ensures parts { link.now ≡ result.1.now ++ query_text kind result.0 }
    ensures own { result.0 ≡ Own → (front : List ℕ) →
        (link.now ≢ front ++ query_text kind Jakarta) × (link.now ≢ front ++ query_text kind Javax) }
{
    if let Some(front) = link.strip_suffix(kind.query(Query::Jakarta)) {
        return (Query::Jakarta, front);
    }
    if let Some(front) = link.strip_suffix(kind.query(Query::Javax)) {
        return (Query::Javax, front);
    }
    (Query::Own, link)
}

/// Returns the host at which a node reaches the gateway for a participant's host.
fn host_for(alloc: Global, named: &Option<String>, host: &str) -> Result<String, AllocError>
    ensures { IfOk result (λ text. string_bytes text ≡ host_for (option_map string_bytes named.now) host.now) }
{
    if let Some(name) = named {
        return String::from_str(alloc, name.as_str());
    }
    let digest = Sha256::digest(host.as_bytes());
    let (a, b, c) = (digest[0], digest[1], digest[2] % 254 + 1);
    format!(in alloc; "127.{a}.{b}.{c}")
}

/// Returns the target that carries a link, or `None` if the short forms are ambiguous.
fn target_of(
    alloc: Global,
    key: &Key,
    shorts: &[Short],
    kind: LinkKind,
    id: LraId,
    link: &str,
) -> Result<Option<String>, AllocError>
    ensures { IfOk result (λ target. IfSome target
        (λ text. Carries key.now.bytes shorts.now id (string_bytes text) kind link.now)) }
{
    let Some(whole) = behind("http://", link) else {
        return Ok(None);
    };
    let (form, long) = form_of(kind, whole);
    let rest = shortened(alloc, shorts, long)?;
    let same = spelled(alloc, shorts, rest.as_str())?;
    if !is_same(same.as_bytes(), long.as_bytes()) {
        return Ok(None);
    }
    let seal = seal_of(alloc, key, kind, id, link)?;
    let (letter, seal, rest) = (kind.letter(form), seal.as_str(), rest.as_str());
    let target = format!(in alloc; "/{letter}{seal}/{rest}")?;
    Ok(Some(target))
}

/// Returns why a carried link can't be given to a node, or `None` if it can.
fn fault_in(alloc: Global, text: &str) -> Option<Uncarried>
    ensures good { result ≡ None → (length text.now ≤ MOST_LINK) × IsWritten text.now }
    ensures long { (bytes : ℕ) → result ≡ Some (uncarried.TooLong bytes) →
        (length text.now ≡ MOST_LINK + bytes) × (1 ≤ bytes) }
    ensures unwritten { result ≡ Some uncarried.Unwritten → IsWritten text.now → ⊥ }
    ensures fit { result ≢ Some uncarried.Unfit }
{
    if text.len() > MOST_LINK {
        return Some(Uncarried::TooLong(text.len() - MOST_LINK));
    }
    // A node stores a link as `url` writes it, so the link must already be written that way.
    match Url::parse(alloc, text) {
        Ok(url) if is_same(url.as_str().as_bytes(), text.as_bytes()) => None,
        Err(ParseError::OutOfMemory | ParseError::Overflow) => Some(Uncarried::NoMemory),
        _ => Some(Uncarried::Unwritten),
    }
}

/// Returns a carried link, whether or not a node can store it, or `None` if the short forms are
/// ambiguous.
fn written(
    alloc: Global,
    key: &Key,
    via: &Via,
    shorts: &[Short],
    kind: LinkKind,
    id: LraId,
    own: &Url,
) -> Result<Option<String>, AllocError>
    ensures { IfOk result (λ text. IfSome text (λ text. (target : List ℕ) ×
        Carries key.now.bytes shorts.now id target kind (serialize own.now)
        × (string_bytes text ≡ address_of (option_map string_bytes via.now.host) via.now.port own.now ++ target))) }
{
    let Some(target) = target_of(alloc, key, shorts, kind, id, own.as_str())? else {
        return Ok(None);
    };
    let named = own.slice(Position::BeforeHost, Position::AfterPort);
    let host = host_for(alloc, &via.host, named)?;
    let (host, port, target) = (host.as_str(), via.port, target.as_str());
    let text = format!(in alloc; "http://{host}:{port}{target}")?;
    Ok(Some(text))
}

/// Returns the link that a node is given in place of a participant's own link of this kind, in this
/// LRA. It has at most 127 bytes, and `url` writes it unchanged, because a node stores what `url`
/// writes. The first short form that fits is taken, so list the longest first.
pub fn carry(
    alloc: Global,
    key: &Key,
    via: &Via,
    shorts: &[Short],
    kind: LinkKind,
    id: LraId,
    link: &str,
) -> Result<String, Uncarried>
    ensures carried { IfOk result (λ text. IsCarrying key.now.bytes (option_map string_bytes via.now.host) via.now.port
        shorts.now kind id link.now (string_bytes text)) }
    ensures short { IfOk result (λ text. length (string_bytes text) ≤ MOST_LINK) }
    ensures written { IfOk result (λ text. IsWritten (string_bytes text)) }
    // The number in `TooLong` says by how much the carried link is too long.
    ensures long { (bytes : ℕ) → result ≡ Err (uncarried.TooLong bytes) → (1 ≤ bytes) × ((text : List ℕ)
        × IsCarrying key.now.bytes (option_map string_bytes via.now.host) via.now.port shorts.now kind id link.now text
        × (length text ≡ MOST_LINK + bytes)) }
    ensures unfit { result ≡ Err uncarried.Unfit → (own : Parts) → IsOwn link.now own → ⊥ }
    ensures fit { IfOk result (λ _. (own : Parts) × IsOwn link.now own) }
{
    let own = own_of(alloc, link)?;
    let Ok(carried) = written(alloc, key, via, shorts, kind, id, &own) else {
        return Err(Uncarried::NoMemory);
    };
    let Some(text) = carried else {
        return Err(Uncarried::Unwritten);
    };
    match fault_in(alloc, text.as_str()) {
        Some(fault) => Err(fault),
        None => Ok(text),
    }
}

/// Splits a target into the letter, the seal and the rest. Returns `None` if it doesn't have these
/// parts.
fn parts_of(target: &str) -> Option<(u8, &[u8], &str)>
    ensures { MatchOption result ((letter : ℕ) (seal rest : List ℕ) → length seal ≡ 8 →
        target.now ≢ 47 ∷ letter ∷ (seal ++ 47 ∷ rest))
        (λ p. (target.now ≡ 47 ∷ p.0 ∷ (p.1.now ++ 47 ∷ p.2.now)) × (length p.1.now ≡ 8)) }
{
    let Some(after) = behind("/", target) else {
        return None;
    };
    let Some((head, tail)) = after.split_at_checked(HEAD) else {
        return None;
    };
    let Some(rest) = behind("/", tail) else {
        return None;
    };
    let head = head.as_bytes();
    Some((head[0], &head[1..], rest))
}

/// Returns the participant's own link that a target carries, sealed by this key for this LRA.
/// Returns `None` if it carries none; then the call isn't forwarded. It is proved that a target
/// opens if and only if it is one that `carry` makes of that link under this key, for this LRA and
/// with the seal that belongs to it. It isn't proved that nobody can write that seal without the
/// key: that is an assumption about HMAC.
///
/// The seal is over the whole link, so a target can't lead elsewhere after the table of short forms
/// has changed: it is refused.
pub fn open(
    alloc: Global,
    key: &Key,
    shorts: &[Short],
    id: LraId,
    target: &str,
) -> Result<Option<Opened>, AllocError>
    ensures sealed { IfOk result (λ it. IfSome it (λ it.
        Carries key.now.bytes shorts.now id target.now it.kind (string_bytes it.link))) }
    ensures opens { (kind : LinkKind) (link : List ℕ) → Carries key.now.bytes shorts.now id target.now kind link →
        IfOk result (λ it. IsOpened it kind link) }
{
    let Some((letter, seal, rest)) = parts_of(target) else {
        return Ok(None);
    };
    let Some((kind, form)) = LinkKind::from_letter(letter) else {
        return Ok(None);
    };
    let long = spelled(alloc, shorts, rest)?;
    let (long, query) = (long.as_str(), kind.query(form));
    let link = format!(in alloc; "http://{long}{query}")?;
    let wanted = seal_of(alloc, key, kind, id, link.as_str())?;
    if !is_same(seal, wanted.as_bytes()) {
        return Ok(None);
    }
    Ok(Some(Opened { kind, link }))
}
