// Reading what is asked about nodes.
ghost use Rattle.std.specs.Prelude.{◌≡◌, ◌≤◌, ℕ, List, Option, codes, map, IfSome, MatchOption};
ghost use Rattle.std.specs.Fmt.{decimal};
ghost use Rattle.state_ids.specs.declared.TheConstants.{MAX_NODES};
ghost use Rattle.script_lines.specs.Asks.{IsBaseOf, IsNumber, ReadsArguments, kept_words};

use crate::asking::Ask;
use crate::words::{Words, node_of};
use state_ids::{Front, number_of};

pub fn front_of(mut words: Words<'_>, nodes: u8) -> Option<Ask>
    requires { nodes ≤ MAX_NODES }
    ensures { ReadsArguments nodes (codes "front") words.entry result }
{
    let node = node_of(words.next()?, nodes)?;
    if !words.is_done() {
        return None;
    }
    Some(Ask::Front { node })
}

pub fn duties_of(mut words: Words<'_>, nodes: u8) -> Option<Ask>
    requires { nodes ≤ MAX_NODES }
    ensures { ReadsArguments nodes (codes "duties") words.entry result }
{
    let node = node_of(words.next()?, nodes)?;
    if !words.is_done() {
        return None;
    }
    Some(Ask::Duties { node })
}

pub fn same_of(mut words: Words<'_>, nodes: u8) -> Option<Ask>
    requires { nodes ≤ MAX_NODES }
    ensures { ReadsArguments nodes (codes "same") words.entry result }
{
    let node = node_of(words.next()?, nodes)?;
    let other = node_of(words.next()?, nodes)?;
    if !words.is_done() {
        return None;
    }
    Some(Ask::Same { node, other })
}

pub fn tick_of(mut words: Words<'_>, nodes: u8) -> Option<Ask>
    requires { nodes ≤ MAX_NODES }
    ensures { ReadsArguments nodes (codes "tick") words.entry result }
{
    let node = node_of(words.next()?, nodes)?;
    let now = number_of(words.next()?)?;
    if !words.is_done() {
        return None;
    }
    Some(Ask::Tick { node, now })
}

pub fn restart_of(mut words: Words<'_>, nodes: u8) -> Option<Ask>
    requires { nodes ≤ MAX_NODES }
    ensures { ReadsArguments nodes (codes "restart") words.entry result }
{
    let node = node_of(words.next()?, nodes)?;
    if !words.is_done() {
        return None;
    }
    Some(Ask::Restart { node })
}

pub fn deliver_of(mut words: Words<'_>, nodes: u8) -> Option<Ask>
    requires { nodes ≤ MAX_NODES }
    ensures { ReadsArguments nodes (codes "deliver") words.entry result }
{
    let frame = number_of(words.next()?)?;
    let node = node_of(words.next()?, nodes)?;
    let kept = kept_of(words)?;
    Some(Ask::Deliver { frame, node, kept })
}

/// Returns how many bytes of a frame the last words of a deliver state. If there are no words left,
/// they state no count.
fn kept_of(mut words: Words<'_>) -> Option<Option<u64>>
    ensures { MatchOption result ((kept : Option ℕ) → IfSome kept IsNumber → words.entry
        ≡ kept_words kept → ⊥) (λ kept. IfSome kept IsNumber × (words.entry ≡ kept_words kept)) }
{
    let Some(word) = words.next() else {
        return Some(None);
    };
    let count = number_of(word)?;
    if !words.is_done() {
        return None;
    }
    Some(Some(count))
}

pub fn send_of(mut words: Words<'_>, nodes: u8) -> Option<Ask>
    requires { nodes ≤ MAX_NODES }
    ensures { ReadsArguments nodes (codes "send") words.entry result }
{
    let node = node_of(words.next()?, nodes)?;
    let base = base_of(words, nodes)?;
    Some(Ask::Send { node, base })
}

pub fn send_old_of(mut words: Words<'_>, nodes: u8) -> Option<Ask>
    requires { nodes ≤ MAX_NODES }
    ensures { ReadsArguments nodes (codes "sendold") words.entry result }
{
    let node = node_of(words.next()?, nodes)?;
    let base = base_of(words, nodes)?;
    Some(Ask::SendOld { node, base })
}

fn base_of(mut words: Words<'_>, nodes: u8) -> Option<Front>
    requires some { 1 ≤ nodes }
    requires few { nodes ≤ MAX_NODES }
    ensures { MatchOption result ((base : List ℕ) → IsBaseOf nodes base → words.entry
        ≡ map decimal base → ⊥) (λ base. IsBaseOf nodes base × (words.entry ≡ map decimal base)) }
{
    let nodes = usize::from(nodes);
    let mut counts = [0; 8];
    for place in 0..nodes {
        counts[place] = number_of(words.next()?)?;
    }
    if !words.is_done() {
        return None;
    }
    Some(Front::from_counts(&counts[..nodes]))
}
