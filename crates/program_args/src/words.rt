// Single words of the command line.
ghost use Rattle.std.specs.Prelude.{◌≡◌, ◌≢◌, ◌<◌, ◌≤◌, ◌^◌, ◌∷◌, [], ◌++◌, ℕ, List, false, IsTrue, MatchBool, MatchOption, MatchResult, Some, length, slice_index};
ghost use Rattle.std.specs.Fmt.{decimal};
ghost use Rattle.program_args.specs.Arguments.{IsHost, SaysPeer, has, host_text, reached};
ghost use Rattle.program_args.specs.declared.words.ArgsError.TheVariants as unasked;

use node_sockets::Peer;
use std::alloc::Global;

/// Why the words of a command line ask for nothing that can be run.
#[derive(Clone, Copy, PartialEq, Eq, Debug)]
pub enum ArgsError {
    OtherWords,
    NoMemory,
}

/// Returns the number that a word spells in decimal, if it has no sign and no leading zero and is
/// below 2 ^ 64.
pub fn number_of(word: &str) -> Option<u64>
    ensures { MatchOption result ((n : ℕ) → n < 2 ^ 64 → word.now ≡ decimal n → ⊥)
        (λ n. word.now ≡ decimal n) }
{
    state_ids::number_of(word.as_bytes())
}

/// Returns the port that a word spells.
pub fn port_of(word: &str) -> Option<u16>
    ensures { MatchOption result ((port : ℕ) → 1 ≤ port → port < 2 ^ 16 → word.now ≡ decimal port → ⊥)
        (λ port. (1 ≤ port) × (word.now ≡ decimal port)) }
{
    let Some(number) = number_of(word) else {
        return None;
    };
    if number == 0 || number > u64::from(u16::MAX) {
        return None;
    }
    Some(number as u16)
}

pub(crate) fn has(text: &str, byte: u8) -> bool
    ensures { result ≡ has byte text.now }
{
    text.as_bytes().contains(&byte)
}

fn is_host(text: &str) -> bool
    ensures { MatchBool result (IsHost text.now) (IsHost text.now → ⊥) }
{
    !text.is_empty() && !has(text, b'=') && !has(text, b'[') && !has(text, b']')
}

/// Returns the text inside the brackets, if the text stands in brackets.
fn in_brackets(text: &str) -> Option<&str>
    ensures { MatchOption result ((host : List ℕ) → text.now ≡ 91 ∷ (host ++ 93 ∷ []) → ⊥)
        (λ host. text.now ≡ 91 ∷ (host.now ++ 93 ∷ [])) }
{
    let Some(rest) = text.strip_prefix('[') else {
        return None;
    };
    rest.strip_suffix(']')
}

/// Returns the host of a text, without the brackets around an IPv6 address.
pub fn host_of(text: &str) -> Option<&str>
    ensures { MatchOption result ((host : List ℕ) → IsHost host → text.now ≡ host_text host → ⊥)
        (λ host. IsHost host.now × (text.now ≡ host_text host.now)) }
{
    let Some(host) = in_brackets(text) else {
        if has(text, b':') || !is_host(text) {
            return None;
        }
        return Some(text);
    };
    if !has(host, b':') || !is_host(host) {
        return None;
    }
    Some(host)
}

/// Returns what stands before and after the last colon.
fn at_last_colon(word: &str) -> Option<(&str, &str)>
    ensures { MatchOption result (has 58 word.now ≡ false)
        (λ parts. (word.now ≡ parts.0.now ++ 58 ∷ parts.1.now) × (has 58 parts.1.now ≡ false)) }
{
    word.rsplit_once(':')
}

/// Returns the host and the port that a word names.
fn parts_of(word: &str) -> Option<(&str, u16)>
    ensures { MatchOption result ((peer : List ℕ × ℕ) → SaysPeer word.now peer → ⊥)
        (λ parts. SaysPeer word.now (parts.0.now, parts.1)) }
{
    let Some((before, behind)) = at_last_colon(word) else {
        return None;
    };
    let Some(host) = host_of(before) else {
        return None;
    };
    let Some(port) = port_of(behind) else {
        return None;
    };
    Some((host, port))
}

/// Returns the address that a word names.
pub fn peer_of(alloc: Global, word: &str) -> Result<Peer, ArgsError>
    ensures { MatchResult result (λ peer. SaysPeer word.now (reached peer))
        (λ fault. fault ≡ unasked.OtherWords → (peer : List ℕ × ℕ) → SaysPeer word.now peer → ⊥) }
{
    let Some((host, port)) = parts_of(word) else {
        return Err(ArgsError::OtherWords);
    };
    match String::from_str(alloc, host) {
        Ok(host) => Ok(Peer { host, port }),
        Err(_) => Err(ArgsError::NoMemory),
    }
}
