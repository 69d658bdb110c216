// Reading what is asked about LRAs.
ghost use Rattle.std.specs.Prelude.{◌≡◌, ◌≤◌, ℕ, List, [], ◌∷◌, codes, Option, IfSome, MatchOption};
ghost use Rattle.std.specs.Fmt.{decimal};
ghost use Rattle.state_ids.specs.declared.TheConstants.{MAX_NODES};
ghost use Rattle.state_ids.specs.Ids.{Id, IsId, id_text};
ghost use Rattle.state_ids.specs.Names.{verdict_name};
ghost use Rattle.script_lines.specs.Asks.{IsNodeOf, ReadsArguments, parent_words};

use crate::asking::Ask;
use crate::words::{Words, id_of, node_of};
use state_facts::Command;
use state_ids::{LraId, NodeId, Verdict, number_of};

pub fn begin_of(mut words: Words<'_>, nodes: u8) -> Option<Ask>
    requires { nodes ≤ MAX_NODES }
    ensures { ReadsArguments nodes (codes "begin") words.entry result }
{
    let node = node_of(words.next()?, nodes)?;
    let deadline = number_of(words.next()?)?;
    let parent = parent_of(words)?;
    let command = Command::Begin { parent, deadline };
    Some(Ask::Enter { node, command })
}

fn parent_of(mut words: Words<'_>) -> Option<Option<LraId>>
    ensures { MatchOption result ((parent : Option Id) →
        IfSome parent IsId → words.entry ≡ parent_words parent →
        ⊥) (λ parent. IfSome parent IsId × (words.entry ≡ parent_words parent)) }
{
    let Some(word) = words.next() else {
        return Some(None);
    };
    let id = id_of(word)?;
    if !words.is_done() {
        return None;
    }
    Some(Some(id))
}

pub fn decide_of(words: Words<'_>, nodes: u8, verdict: Verdict) -> Option<Ask>
    requires { nodes ≤ MAX_NODES }
    ensures { ReadsArguments nodes (verdict_name verdict) words.entry result }
{
    let (node, id) = node_and_id(words, nodes)?;
    let command = Command::Decide { id, verdict };
    Some(Ask::Enter { node, command })
}

pub fn purge_of(words: Words<'_>, nodes: u8) -> Option<Ask>
    requires { nodes ≤ MAX_NODES }
    ensures { ReadsArguments nodes (codes "purge") words.entry result }
{
    let (node, root) = node_and_id(words, nodes)?;
    let command = Command::Purge { root };
    Some(Ask::Enter { node, command })
}

pub fn show_of(words: Words<'_>, nodes: u8) -> Option<Ask>
    requires { nodes ≤ MAX_NODES }
    ensures { ReadsArguments nodes (codes "show") words.entry result }
{
    let (node, id) = node_and_id(words, nodes)?;
    Some(Ask::Show { node, id })
}

fn node_and_id(mut words: Words<'_>, nodes: u8) -> Option<(NodeId, LraId)>
    requires { nodes ≤ MAX_NODES }
    ensures { MatchOption result ((node : ℕ) (id : Id) →
        IsNodeOf nodes node → IsId id → words.entry ≡ decimal node ∷ id_text id ∷ [] →
        ⊥) (λ p. IsNodeOf nodes p.0 × IsId p.1 × (words.entry ≡ decimal p.0 ∷ id_text p.1 ∷ [])) }
{
    let node_and_id = next_node_and_id(&mut words, nodes)?;
    if !words.is_done() {
        return None;
    }
    Some(node_and_id)
}

/// Returns the node and the id that the next two words spell.
pub fn next_node_and_id(words: &mut Words<'_>, nodes: u8) -> Option<(NodeId, LraId)>
    requires { nodes ≤ MAX_NODES }
    ensures { MatchOption result ((node : ℕ) (id : Id) (rest : List (List ℕ)) →
        IsNodeOf nodes node → IsId id → words.old ≡ decimal node ∷ id_text id ∷ rest → ⊥)
        (λ p. IsNodeOf nodes p.0 × IsId p.1 × (words.old ≡ decimal p.0 ∷ id_text p.1 ∷ words.new)) }
{
    let node = node_of(words.next()?, nodes)?;
    let id = id_of(words.next()?)?;
    Some((node, id))
}

pub fn text_of(mut words: Words<'_>) -> Option<Ask>
    ensures { (nodes : ℕ) → ReadsArguments nodes (codes "text") words.entry result }
{
    let id = id_of(words.next()?)?;
    if !words.is_done() {
        return None;
    }
    Some(Ask::Text(id))
}

pub fn read_of(mut words: Words<'_>) -> Option<Ask>
    ensures { (nodes : ℕ) → ReadsArguments nodes (codes "read") words.entry result }
{
    let text = words.next()?;
    if !words.is_done() {
        return None;
    }
    match LraId::from_ascii(text) {
        Ok(id) => Some(Ask::Read(id)),
        Err(_) => None,
    }
}
