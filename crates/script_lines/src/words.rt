// The words of a line: the verb that it begins with, and what the others spell.
ghost use Rattle.std.specs.Prelude.{◌≡◌, [], ◌∷◌, ◌↔◌, IsTrue, MatchOption, ◌≢◌, ◌+◌, ◌<◌, ◌≤◌, ◌^◌, ℕ, length, slice_index};
ghost use Rattle.state_ids.specs.declared.TheConstants.{MAX_NODES};
ghost use Rattle.script_lines.specs.CallLines.{IsRestOf};
ghost use Rattle.script_lines.specs.LineParts.{words_of};
ghost use Rattle.script_lines.specs.declared.words.Verb.{Verb as TheVerb};
ghost use Rattle.script_lines.specs.Verbs.{verb_name};
ghost use Rattle.std.specs.Fmt.{decimal};
ghost use Rattle.state_ids.specs.Ids.{Id, IsId, id_text};
ghost use Rattle.script_lines.specs.Asks.{IsMemberNumber, IsNodeOf};

use state_forest::MAX_MEMBERS;
use state_ids::{LraId, MAX_NODES, NodeId, number_of};
use std::marker::Model;

/// The words of a line that are still to be read. Words are separated by one space.
#[derive(Drop)]
pub struct Words<'a> {
    rest: Option<&'a [u8]>,
}

impl<'a> Model for Words<'a> {
    ghost use Rattle.std.specs.Prelude.{List, ℕ, []};
    ghost use Rattle.std.specs.Option.{option_map_or};
    ghost use Rattle.script_lines.specs.LineParts.{words_of};

    ghost Value = { List (List ℕ) };

    ghost view = { λ w. option_map_or (λ text. words_of text.now) w.rest [] };
}

impl<'a> Words<'a> {
    /// Returns all words of a line.
    pub fn of(line: &'a [u8]) -> Words<'a>
        ensures { result ≡ words_of line.now }
    {
        Words { rest: Some(line) }
    }

    /// Reads the next word.
    pub fn next(&mut self) -> Option<&'a [u8]>
        ensures { MatchOption result ((self.old ≡ []) × (self.new ≡ []))
            (λ word. self.old ≡ word.now ∷ self.new) }
    {
        let text = self.rest?;
        let (word, rest) = first_word(text);
        self.rest = rest;
        Some(word)
    }

    /// Returns the same words, to be read once more.
    pub fn again(&self) -> Words<'a>
        ensures { result ≡ self.now }
    {
        Words { rest: self.rest }
    }

    /// Returns the rest of the line behind the space that follows the words that were read. It is
    /// empty if all words were read.
    pub fn rest(&self) -> &'a [u8]
        ensures { IsRestOf self.now result.now }
    {
        match self.rest {
            Some(text) => text,
            None => &[],
        }
    }

    /// Whether all words have been read.
    pub fn is_done(&self) -> bool
        ensures { IsTrue result ↔ (self.now ≡ []) }
    {
        self.rest.is_none()
    }
}

fn first_word(text: &[u8]) -> (&[u8], Option<&[u8]>)
    ensures { MatchOption result.1 (words_of text.now ≡ result.0.now ∷ [])
        (λ rest. words_of text.now ≡ result.0.now ∷ words_of rest.now) }
{
    for place in 0..text.len() {
        if text[place] == b' ' {
            return (&text[..place], Some(&text[place + 1..]));
        }
    }
    (text, None)
}

/// What a line asks for, by its first word.
#[derive(Clone, Copy)]
pub enum Verb {
    Answer,
    Begin,
    Cancel,
    Close,
    Deliver,
    Duties,
    Forgot,
    Front,
    Join,
    Leave,
    Member,
    Purge,
    Read,
    Report,
    Restart,
    Same,
    Send,
    SendOld,
    Show,
    Text,
    Tick,
    Told,
}

impl Verb {
    /// Returns the verb of this name.
    pub fn from_name(name: &[u8]) -> Option<Verb>
        ensures { MatchOption result ((verb : TheVerb) → name.now ≡ verb_name verb → ⊥)
            (λ verb. name.now ≡ verb_name verb) }
    {
        match name {
            b"answer" => Some(Verb::Answer),
            b"begin" => Some(Verb::Begin),
            b"cancel" => Some(Verb::Cancel),
            b"close" => Some(Verb::Close),
            b"deliver" => Some(Verb::Deliver),
            b"duties" => Some(Verb::Duties),
            b"forgot" => Some(Verb::Forgot),
            b"front" => Some(Verb::Front),
            b"join" => Some(Verb::Join),
            b"leave" => Some(Verb::Leave),
            b"member" => Some(Verb::Member),
            b"purge" => Some(Verb::Purge),
            b"read" => Some(Verb::Read),
            b"report" => Some(Verb::Report),
            b"restart" => Some(Verb::Restart),
            b"same" => Some(Verb::Same),
            b"send" => Some(Verb::Send),
            b"sendold" => Some(Verb::SendOld),
            b"show" => Some(Verb::Show),
            b"text" => Some(Verb::Text),
            b"tick" => Some(Verb::Tick),
            b"told" => Some(Verb::Told),
            _ => None,
        }
    }
}

/// Returns the node that a word spells, in a world of `nodes` nodes.
pub fn node_of(word: &[u8], nodes: u8) -> Option<NodeId>
    requires { nodes ≤ MAX_NODES }
    ensures { MatchOption result ((node : ℕ) → IsNodeOf nodes node →
        word.now ≡ decimal node → ⊥) (λ node. IsNodeOf nodes node × (word.now ≡ decimal node)) }
{
    let number = number_of(word)?;
    if number > u64::from(nodes) {
        return None;
    }
    match NodeId::new(number as u8) {
        Ok(node) => Some(node),
        Err(_) => None,
    }
}

/// Returns the member number that a word spells.
pub fn member_number_of(word: &[u8]) -> Option<u8>
    ensures { MatchOption result ((m : ℕ) → IsMemberNumber m →
        word.now ≡ decimal m → ⊥) (λ m. IsMemberNumber m × (word.now ≡ decimal m)) }
{
    let number = number_of(word)?;
    if number == 0 || number > MAX_MEMBERS as u64 {
        return None;
    }
    Some(number as u8)
}

/// Returns the code of an answer that a word spells: at most 65,535.
pub fn code_of(word: &[u8]) -> Option<u16>
    ensures { MatchOption result ((n : ℕ) → n < 2 ^ 16 → word.now ≡ decimal n → ⊥)
        (λ n. word.now ≡ decimal n) }
{
    let number = number_of(word)?;
    if number > u64::from(u16::MAX) {
        return None;
    }
    Some(number as u16)
}

/// Returns the id that a word spells: its home, which has one digit, and its number, separated by a
/// point.
pub fn id_of(word: &[u8]) -> Option<LraId>
    ensures { MatchOption result ((id : Id) → IsId id → word.now ≡ id_text id → ⊥)
        (λ id. IsId id × (word.now ≡ id_text id)) }
{
    if word.len() < 2 || word[1] != b'.' {
        return None;
    }
    let (Some(home), Some(num)) = (node_of(&word[..1], MAX_NODES), number_of(&word[2..])) else {
        return None;
    };
    match LraId::new(home, num) {
        Ok(id) => Some(id),
        Err(_) => None,
    }
}
