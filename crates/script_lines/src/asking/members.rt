// Reading what is asked about participants.
ghost use Rattle.std.specs.Prelude.{◌≡◌, ◌≤◌, ℕ, List, [], ◌∷◌, codes, MatchOption};
ghost use Rattle.std.specs.Fmt.{decimal};
ghost use Rattle.state_ids.specs.declared.TheConstants.{MAX_NODES};
ghost use Rattle.state_ids.specs.Ids.{Id, IsId, id_text};
ghost use Rattle.state_ids.specs.declared.outcome.Act.{Act};
ghost use Rattle.state_ids.specs.declared.outcome.Outcome.{Outcome};
ghost use Rattle.state_ids.specs.Names.{act_name, outcome_name};
ghost use Rattle.script_lines.specs.Asks.{IsMemberNumber, IsNodeOf, ReadsArguments};

use super::lras::next_node_and_id;
use crate::asking::Ask;
use crate::words::{Words, member_number_of};
use state_facts::Command;
use state_ids::{Act, LraId, NodeId, Outcome};

pub fn leave_of(words: Words<'_>, nodes: u8) -> Option<Ask>
    requires { nodes ≤ MAX_NODES }
    ensures { ReadsArguments nodes (codes "leave") words.entry result }
{
    let (node, id, member) = participant_of(words, nodes)?;
    let command = Command::Leave { id, member };
    Some(Ask::Enter { node, command })
}

pub fn forgot_of(words: Words<'_>, nodes: u8) -> Option<Ask>
    requires { nodes ≤ MAX_NODES }
    ensures { ReadsArguments nodes (codes "forgot") words.entry result }
{
    let (node, id, member) = participant_of(words, nodes)?;
    let command = Command::Forgot { id, member };
    Some(Ask::Enter { node, command })
}

pub fn told_of(words: Words<'_>, nodes: u8) -> Option<Ask>
    requires { nodes ≤ MAX_NODES }
    ensures { ReadsArguments nodes (codes "told") words.entry result }
{
    let (node, id, member) = participant_of(words, nodes)?;
    let command = Command::Told { id, member };
    Some(Ask::Enter { node, command })
}

pub fn member_of(words: Words<'_>, nodes: u8) -> Option<Ask>
    requires { nodes ≤ MAX_NODES }
    ensures { ReadsArguments nodes (codes "member") words.entry result }
{
    let (node, id, member) = participant_of(words, nodes)?;
    Some(Ask::Member { node, id, member })
}

pub fn report_of(mut words: Words<'_>, nodes: u8) -> Option<Ask>
    requires { nodes ≤ MAX_NODES }
    ensures { ReadsArguments nodes (codes "report") words.entry result }
{
    let (node, id, member) = next_participant(&mut words, nodes)?;
    let (act, outcome) = act_and_outcome(words)?;
    let command = Command::Report {
        id,
        member,
        act,
        outcome,
    };
    Some(Ask::Enter { node, command })
}

fn participant_of(mut words: Words<'_>, nodes: u8) -> Option<(NodeId, LraId, u8)>
    requires { nodes ≤ MAX_NODES }
    ensures { MatchOption result ((node : ℕ) (id : Id) (m : ℕ) → IsNodeOf nodes node →
        IsId id → IsMemberNumber m → words.entry ≡ decimal node ∷ id_text id ∷ decimal m ∷ [] →
        ⊥) (λ p. IsNodeOf nodes p.0 × IsId p.1
        × IsMemberNumber p.2 × (words.entry ≡ decimal p.0 ∷ id_text p.1 ∷ decimal p.2 ∷ [])) }
{
    let participant = next_participant(&mut words, nodes)?;
    if !words.is_done() {
        return None;
    }
    Some(participant)
}

/// Returns the node, the id and the member number that the next three words spell.
pub fn next_participant(words: &mut Words<'_>, nodes: u8) -> Option<(NodeId, LraId, u8)>
    requires { nodes ≤ MAX_NODES }
    ensures { MatchOption result ((node : ℕ) (id : Id) (m : ℕ) (rest : List (List ℕ)) →
        IsNodeOf nodes node → IsId id → IsMemberNumber m → words.old
        ≡ decimal node ∷ id_text id ∷ decimal m ∷ rest → ⊥) (λ p. IsNodeOf nodes p.0 × IsId p.1
        × IsMemberNumber p.2 × (words.old ≡ decimal p.0 ∷ id_text p.1 ∷ decimal p.2 ∷ words.new)) }
{
    let (node, id) = next_node_and_id(words, nodes)?;
    let member = member_number_of(words.next()?)?;
    Some((node, id, member))
}

fn act_and_outcome(mut words: Words<'_>) -> Option<(Act, Outcome)>
    ensures { MatchOption result ((act : Act) (outcome : Outcome) →
        words.entry ≡ act_name act ∷ outcome_name outcome ∷ [] →
        ⊥) (λ p. words.entry ≡ act_name p.0 ∷ outcome_name p.1 ∷ []) }
{
    let act = act_of(words.next()?)?;
    let outcome = outcome_of(words.next()?)?;
    if !words.is_done() {
        return None;
    }
    Some((act, outcome))
}

fn act_of(word: &[u8]) -> Option<Act>
    ensures { MatchOption result ((act : Act) → word.now ≡ act_name act → ⊥)
        (λ act. word.now ≡ act_name act) }
{
    match word {
        b"complete" => Some(Act::Complete),
        b"compensate" => Some(Act::Compensate),
        _ => None,
    }
}

fn outcome_of(word: &[u8]) -> Option<Outcome>
    ensures { MatchOption result ((outcome : Outcome) →
        word.now ≡ outcome_name outcome → ⊥) (λ outcome. word.now ≡ outcome_name outcome) }
{
    match word {
        b"busy" => Some(Outcome::Busy),
        b"done" => Some(Outcome::Done),
        b"failed" => Some(Outcome::Failed),
        _ => None,
    }
}
