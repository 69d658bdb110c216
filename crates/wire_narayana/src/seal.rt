// Seals of carried links.
ghost use Rattle.std.specs.Prelude.{◌≡◌, ◌↔◌, ◌++◌, IfOk, IsTrue, string_bytes};
ghost use Rattle.sha2.specs.Sha256.{sha256};
ghost use Rattle.wire_narayana.specs.Seals.{hmac, pad, seal, sealed_text};

use crate::LinkKind;
use crate::ids::text_of;
use base64::engine::general_purpose::URL_SAFE_NO_PAD;
use sha2::{Digest, Sha256};
use state_ids::LraId;
use std::alloc::{AllocError, Global};

/// The number of bytes of a digest that a seal has.
const SEAL_BYTES: usize = 6;

/// The key shared by all gateways of a group: 32 bytes that nobody else knows.
#[derive(Clone, Copy)]
pub struct Key {
    pub bytes: [u8; 32],
}

/// Returns the key as a block of SHA-256, masked.
fn pad(alloc: Global, key: &[u8; 32], mask: u8) -> Result<Vec<u8>, AllocError>
    ensures { IfOk result (λ block. block.items ≡ pad mask key.now) }
{
    let mut block = Vec::new(alloc);
    for byte in key.iter() {
        block.push(*byte ^ mask)?;
    }
    block.extend_from_slice(&[mask; 32])?;
    Ok(block)
}

/// Returns the digest of the masked key and a message.
fn digest_of(
    alloc: Global,
    key: &[u8; 32],
    mask: u8,
    message: &[u8],
) -> Result<[u8; 32], AllocError>
    ensures { IfOk result (λ digest. digest ≡ sha256 (pad mask key.now ++ message.now)) }
{
    let block = pad(alloc, key, mask)?;
    let mut hasher = Sha256::new();
    hasher.update(block.as_slice());
    hasher.update(message);
    Ok(hasher.finalize())
}

/// Computes HMAC (RFC 2104) over SHA-256.
#[tactic(auto, unfolding(crate::specs::Seals::hmac))]
fn hmac(alloc: Global, key: &Key, message: &[u8]) -> Result<[u8; 32], AllocError>
    ensures { IfOk result (λ digest. digest ≡ hmac key.now.bytes message.now) }
{
    let inner = digest_of(alloc, &key.bytes, 0x36, message)?;
    digest_of(alloc, &key.bytes, 0x5c, &inner)
}

/// Returns the text that is sealed.
fn sealed_text(alloc: Global, kind: LinkKind, id: LraId, link: &str) -> Result<String, AllocError>
    ensures { IfOk result (λ text. string_bytes text ≡ sealed_text kind id link.now) }
{
    let name = kind.name();
    let id = text_of(alloc, id)?;
    format!(in alloc; "{name}\n{id}\n{link}")
}

/// Returns the seal of a participant's link, its kind and its LRA: the first six bytes of
/// HMAC-SHA256, as eight letters of base64 for URLs (RFC 4648, section 5).
///
/// A seal is short because a node stores no more than 127 bytes of a link, so every letter leaves
/// one less for the participant's own. Its 48 bits can only be guessed by asking: each guess is one
/// request to a port that only nodes reach, and must also match the LRA that the request names. One
/// right guess, after 2^47 requests on average, gives access to one link in one LRA.
#[tactic(auto, unfolding(crate::specs::Seals::seal))]
pub(crate) fn seal_of(
    alloc: Global,
    key: &Key,
    kind: LinkKind,
    id: LraId,
    link: &str,
) -> Result<String, AllocError>
    ensures { IfOk result (λ text. string_bytes text ≡ seal key.now.bytes kind id link.now) }
{
    let text = sealed_text(alloc, kind, id, link)?;
    let digest = hmac(alloc, key, text.as_bytes())?;
    URL_SAFE_NO_PAD.encode(alloc, &digest[..SEAL_BYTES])
}

/// Whether two texts are equal, in a time that depends only on their lengths: nobody can learn from
/// the time of an answer how many letters of a guess are right.
pub(crate) fn is_same(one: &[u8], other: &[u8]) -> bool
    ensures { IsTrue result ↔ (one.now ≡ other.now) }
{
    if one.len() != other.len() {
        return false;
    }
    let mut differ = 0;
    for place in 0..one.len() {
        differ += usize::from(one[place] != other[place]);
    }
    differ == 0
}
