// Reading what a participant answered.
ghost use Rattle.std.specs.Prelude.{◌≡◌, ◌≤◌, ◌<◌, ℕ, List, ◌∷◌, codes, IfOk, MatchOption};
ghost use Rattle.std.specs.Fmt.{decimal};
ghost use Rattle.state_ids.specs.declared.TheConstants.{MAX_NODES};
ghost use Rattle.state_ids.specs.Ids.{Id, IsId, id_text};
ghost use Rattle.wire_callbacks.specs.declared.answer.Answer.{Answer};
ghost use Rattle.wire_callbacks.specs.declared.answer.Kind.{Kind};
ghost use Rattle.wire_callbacks.specs.CallWords.{kind_name};
ghost use Rattle.script_lines.specs.Asks.{IsMemberNumber, IsNodeOf, ReadsArguments};
ghost use Rattle.script_lines.specs.CallLines.{IsAnswerInRange, GivesAnswer};

use super::members::next_participant;
use crate::asking::Ask;
use crate::words::{Words, code_of};
use state_ids::{LraId, NodeId};
use std::alloc::{AllocError, Global};
use wire_callbacks::{Answer, Kind};
use wire_http::Bytes;

pub fn hear_of(alloc: Global, mut words: Words<'_>, nodes: u8) -> Result<Option<Ask>, AllocError>
    requires { nodes ≤ MAX_NODES }
    ensures { IfOk result (ReadsArguments nodes (codes "answer") words.entry) }
{
    let Some((node, id, member, kind)) = next_call(&mut words, nodes) else {
        return Ok(None);
    };
    let Some(answer) = answer_of(alloc, words)? else {
        return Ok(None);
    };
    Ok(Some(Ask::Hear {
        node,
        id,
        member,
        kind,
        answer,
    }))
}

fn next_call(words: &mut Words<'_>, nodes: u8) -> Option<(NodeId, LraId, u8, Kind)>
    requires { nodes ≤ MAX_NODES }
    ensures { MatchOption result ((node : ℕ) (id : Id) (m : ℕ)
        (kind : Kind) (rest : List (List ℕ)) → IsNodeOf nodes node → IsId id → IsMemberNumber m →
        words.old ≡ decimal node ∷ id_text id ∷ decimal m ∷ kind_name kind ∷ rest →
        ⊥) (λ p. IsNodeOf nodes p.0 × IsId p.1 × IsMemberNumber p.2
        × (words.old ≡ decimal p.0 ∷ id_text p.1 ∷ decimal p.2 ∷ kind_name p.3 ∷ words.new)) }
{
    let (node, id, member) = next_participant(words, nodes)?;
    let kind = kind_of(words.next()?)?;
    Some((node, id, member, kind))
}

fn kind_of(word: &[u8]) -> Option<Kind>
    ensures { MatchOption result ((kind : Kind) → word.now ≡ kind_name kind → ⊥)
        (λ kind. word.now ≡ kind_name kind) }
{
    match word {
        b"complete" => Some(Kind::Complete),
        b"compensate" => Some(Kind::Compensate),
        b"status" => Some(Kind::Status),
        b"forget" => Some(Kind::Forget),
        b"after" => Some(Kind::After),
        _ => None,
    }
}

fn answer_of(alloc: Global, mut words: Words<'_>) -> Result<Option<Answer>, AllocError>
    ensures { IfOk result (λ found. MatchOption found ((answer : Answer) →
        IsAnswerInRange answer → GivesAnswer words.entry answer →
        ⊥) (λ answer. IsAnswerInRange answer × GivesAnswer words.entry answer)) }
{
    let Some(word) = words.next() else {
        return Ok(None);
    };
    if word == b"broken".as_slice() {
        return Ok(Some(Answer::Broken));
    }
    let Some(code) = code_of(word) else {
        return Ok(None);
    };
    let body = Bytes::new(words.rest().to_vec(alloc)?);
    Ok(Some(Answer::Code(code, body)))
}
