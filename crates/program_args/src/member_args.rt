// What the words of the command line ask for.
ghost use Rattle.std.specs.Prelude.{◌≡◌, ◌≢◌, ◌≤◌, ◌<◌, ◌+◌, ℕ, List, Option, Some, None, IfErr, IfOk, IfSome, IsOkAnd, MatchBool, MatchOption, MatchResult, length, map, option_copied, option_map, string_bytes, vec_len};
ghost use Rattle.std.specs.List.{AllPairs, Contains};
ghost use Rattle.state_ids.specs.declared.TheConstants.{MAX_NODES};
ghost use Rattle.program_args.specs.Arguments.{AskMembers, AskNodes, Choices, HaveCopies, HavePorts, Mean, SayPeers, SaysNodes, choices_of, reached};
ghost use Rattle.program_args.specs.Readings.{IsOneOrTwo, IsUnnamed, chosen, texts_in};
ghost use Rattle.program_args.specs.Refusals.{AreParts, Fit, HasChoices, IsMisfit, IsTwice, IsWrong, IsWrongAddress, IsWrongCopies, IsWrongGroup, OnWrong};

use crate::choices::{Chosen, choices_of};
use crate::member_texts::{MemberTexts, given_by};
use crate::words::{ArgsError, peer_of};
use crate::wrong_word::{WrongWord, not_address};
use node_sockets::Peer;
use state_ids::MAX_NODES;
use std::alloc::{AllocError, Global};
use std::net::SocketAddr;

/// The members that the words ask for: the first and the last node, the folder with their journals,
/// their options, and the addresses of all nodes.
#[derive(Drop)]
pub struct MemberArgs {
    pub first: u8,
    pub last: u8,
    pub folder: String,
    /// The address for clients and other nodes, and the address for operators.
    pub listen: Option<SocketAddr>,
    pub operate: Option<SocketAddr>,
    /// The names that operators may ask by, separated by commas. Empty if none are given.
    pub names: String,
    /// How many milliseconds roots that ended are kept, and roots that failed to end well.
    pub ended: Option<u64>,
    pub failed: Option<u64>,
    /// The name of the group.
    pub group: Option<String>,
    /// How many other nodes must have a fact before it is acknowledged, and how many milliseconds
    /// an answer waits for that.
    pub copies: Option<u64>,
    pub patience: Option<u64>,
    /// Whether an answer is withheld if the copies don't come in that time.
    pub strict: bool,
    /// Whether the node waits at its start until it has heard from all others.
    pub anew: bool,
    pub peers: Vec<Peer>,
}

/// Why there are no members: a word is wrong, or memory was refused.
#[derive(Clone, Copy, Debug)]
pub enum MemberError<'a> {
    Wrong(WrongWord<'a>),
    NoMemory,
}

/// Returns the bytes by which a word names nodes: one byte, or two separated by a hyphen.
fn one_or_two(word: &[u8]) -> Option<(u8, u8)>
    ensures one { (first last : ℕ) → IsOneOrTwo word.now first last → result ≡ Some (first, last) }
    ensures is { IfSome result (λ pair. IsOneOrTwo word.now pair.0 pair.1) }
{
    if word.len() == 1 {
        return Some((word[0], word[0]));
    }
    if word.len() == 3 && word[1] == b'-' {
        return Some((word[0], word[2]));
    }
    None
}

/// Returns the node that a digit names.
fn node_of(digit: u8) -> Option<u8>
    ensures { MatchOption result ((node : ℕ) → 1 ≤ node → node ≤ MAX_NODES → digit ≡ 48 + node → ⊥)
        (λ node. (1 ≤ node) × (node ≤ MAX_NODES) × (digit ≡ 48 + node)) }
{
    if digit < b'1' || digit > b'8' {
        return None;
    }
    Some(digit - b'0')
}

/// Returns the first and the last node that a word names.
fn nodes_of(word: &[u8]) -> Option<(u8, u8)>
    ensures one { (first last : ℕ) → 1 ≤ first → first ≤ last → last ≤ MAX_NODES → SaysNodes word.now first last →
        result ≡ Some (first, last) }
    ensures are { IfSome result (λ nodes. (1 ≤ nodes.0) × (nodes.0 ≤ nodes.1) × (nodes.1 ≤ MAX_NODES)
        × SaysNodes word.now nodes.0 nodes.1) }
{
    let Some((first, last)) = one_or_two(word) else {
        return None;
    };
    let Some(first) = node_of(first) else {
        return None;
    };
    let Some(last) = node_of(last) else {
        return None;
    };
    if first > last {
        return None;
    }
    Some((first, last))
}

/// Whether each of these nodes has a port for operators, if the first node's is given.
fn have_ports(first: u8, last: u8, operate: Option<SocketAddr>) -> bool
    ensures { MatchBool result (HavePorts first last operate) (HavePorts first last operate → ⊥) }
{
    let Some(address) = operate else {
        return true;
    };
    u32::from(address.port()) + u32::from(last) <= u32::from(u16::MAX) + u32::from(first)
}

/// Whether these options for copies fit together: fewer copies than nodes, and one node alone in
/// its process. Without `copies` there are no `patience` and no `strict`.
fn have_copies(
    first: u8,
    last: u8,
    nodes: usize,
    copies: Option<u64>,
    patience: Option<u64>,
    strict: bool,
) -> bool
    ensures { MatchBool result (HaveCopies first last nodes copies patience strict)
        (HaveCopies first last nodes copies patience strict → ⊥) }
{
    match copies {
        Some(count) => count < nodes as u64 && last <= first,
        None => patience.is_none() && !strict,
    }
}

/// Whether the nodes from `first` to `last` are among `count` nodes. Several nodes can't listen at
/// one given address.
fn is_group(first: u8, last: u8, listen: Option<SocketAddr>, count: usize) -> bool
    ensures { MatchBool result ((last ≤ count) × (count ≤ MAX_NODES) × (first < last → listen ≡ None))
        ((last ≤ count) × (count ≤ MAX_NODES) × (first < last → listen ≡ None) → ⊥) }
{
    if usize::from(last) > count || count > usize::from(MAX_NODES) {
        return false;
    }
    !(first < last && listen.is_some())
}

/// The words of a command line, taken apart.
#[derive(Clone, Copy)]
struct Reading<'a> {
    nodes: &'a str,
    first: u8,
    last: u8,
    folder: &'a str,
    given: MemberTexts<'a>,
    choices: Chosen<'a>,
}

/// Returns what the words ask for, except the addresses.
fn reading_of(words: &[String]) -> Result<Reading<'_>, WrongWord<'_>>
    ensures are { MatchResult result (λ it. AreParts (map string_bytes words.now) it.nodes.now it.first it.last it.folder.now
        (texts_in it.given) (map string_bytes it.given.addresses.now) × Mean (texts_in it.given) (chosen it.choices))
        (λ wrong. IsWrong (map string_bytes words.now) wrong) }
    ensures one { (first last : ℕ) (choices : Choices) (folder : List ℕ) (addresses : List (List ℕ)) →
        IsUnnamed addresses → AskNodes (map string_bytes words.now) first last choices folder addresses →
        IsOkAnd result (λ it. (it.first ≡ first) × (it.last ≡ last) × HasChoices choices (chosen it.choices)
        × (map string_bytes it.given.addresses.now ≡ addresses)) }
{
    let Some((nodes, rest)) = words.split_first() else {
        return Err(WrongWord::NoNodes);
    };
    let Some((first, last)) = nodes_of(nodes.as_bytes()) else {
        return Err(WrongWord::Nodes(nodes.as_str()));
    };
    let Some((folder, rest)) = rest.split_first() else {
        return Err(WrongWord::NoFolder);
    };
    let given = given_by(rest);
    let choices = match choices_of(given) {
        Ok(choices) => choices,
        Err(wrong) => return Err(wrong),
    };
    Ok(Reading {
        nodes: nodes.as_str(),
        first,
        last,
        folder: folder.as_str(),
        given,
        choices,
    })
}

/// Returns why the nodes can't be run together.
fn wrong_group<'a>(reading: Reading<'a>) -> WrongWord<'a>
    requires means { Mean (texts_in reading.given) (chosen reading.choices) }
    requires apart { (reading.last ≤ length reading.given.addresses.now)
        × (length reading.given.addresses.now ≤ MAX_NODES)
        × (reading.first < reading.last → reading.choices.listen ≡ None) → ⊥ }
    ensures { IsWrongGroup reading.entry.nodes.now reading.entry.first reading.entry.last
        (texts_in reading.entry.given) (map string_bytes reading.entry.given.addresses.now) result }
{
    let count = reading.given.addresses.len();
    if count == 0 {
        return WrongWord::NoAddresses;
    }
    if count > usize::from(MAX_NODES) {
        return WrongWord::NinthNode(reading.given.addresses[usize::from(MAX_NODES)].as_str());
    }
    if usize::from(reading.last) > count {
        return WrongWord::NoSuchNode(reading.nodes);
    }
    WrongWord::SharedListen(reading.given.listen.unwrap_or(""))
}

/// Returns why the options for copies don't fit so many nodes.
fn wrong_copies<'a>(reading: Reading<'a>, nodes: usize) -> WrongWord<'a>
    requires means { Mean (texts_in reading.given) (chosen reading.choices) }
    requires unfit { HaveCopies reading.first reading.last nodes reading.choices.copies
        reading.choices.patience reading.choices.strict → ⊥ }
    ensures { IsWrongCopies reading.entry.first reading.entry.last nodes (texts_in reading.entry.given)
        (chosen reading.entry.choices) result }
{
    let Some(count) = reading.choices.copies else {
        return match reading.given.patience {
            Some(text) => WrongWord::PatienceAlone(text),
            None => WrongWord::StrictAlone,
        };
    };
    let text = reading.given.copies.unwrap_or("");
    if count >= nodes as u64 {
        return WrongWord::FewNodes(text);
    }
    WrongWord::SharedCopies(text)
}

/// Returns why the options don't fit the nodes, if they don't.
fn misfit_of<'a>(reading: Reading<'a>) -> Option<WrongWord<'a>>
    requires { Mean (texts_in reading.given) (chosen reading.choices) }
    ensures { MatchOption result (Fit reading.entry.first reading.entry.last (chosen reading.entry.choices)
        (map string_bytes reading.entry.given.addresses.now))
        (λ wrong. (Fit reading.entry.first reading.entry.last (chosen reading.entry.choices)
        (map string_bytes reading.entry.given.addresses.now) → ⊥)
        × IsMisfit reading.entry.nodes.now reading.entry.first reading.entry.last (texts_in reading.entry.given)
        (chosen reading.entry.choices) (map string_bytes reading.entry.given.addresses.now) wrong) }
{
    let (first, last) = (reading.first, reading.last);
    let choices = reading.choices;
    let nodes = reading.given.addresses.len();
    if !is_group(first, last, choices.listen, nodes) {
        return Some(wrong_group(reading));
    }
    if !have_ports(first, last, choices.operate) {
        return Some(WrongWord::NoPorts(reading.given.operate.unwrap_or("")));
    }
    if !have_copies(
        first,
        last,
        nodes,
        choices.copies,
        choices.patience,
        choices.strict,
    ) {
        return Some(wrong_copies(reading, nodes));
    }
    None
}

/// Whether a word stands among some words.
fn stands_in(word: &str, words: &[String]) -> bool
    ensures { MatchBool result (Contains (map string_bytes words.now) word.now)
        (Contains (map string_bytes words.now) word.now → ⊥) }
{
    for other in words {
        if other.as_str() == word {
            return true;
        }
    }
    false
}

/// Returns the first word that stands twice.
fn twice_in(words: &[String]) -> Option<&str>
    ensures { MatchOption result (AllPairs (λ v w. v ≢ w) (map string_bytes words.now))
        (λ word. IsTwice (map string_bytes words.now) word.now
        × (AllPairs (λ v w. v ≢ w) (map string_bytes words.now) → ⊥)) }
{
    for place in 0..words.len() {
        let word = words[place].as_str();
        if stands_in(word, &words[..place]) {
            return Some(word);
        }
    }
    None
}

/// Returns the addresses that the words name. All of them differ.
fn peers_of<'a>(alloc: Global, words: &'a [String]) -> Result<Vec<Peer>, MemberError<'a>>
    ensures { MatchResult result (λ peers. SayPeers (map string_bytes words.now) (map reached peers.items))
        (λ fault. OnWrong fault (λ wrong. IsWrongAddress (map string_bytes words.now) wrong
        × ((peers : List (List ℕ × ℕ)) → SayPeers (map string_bytes words.now) peers → ⊥))) }
{
    let mut peers = Vec::new(alloc);
    for word in words {
        let word = word.as_str();
        match peer_of(alloc, word) {
            Ok(peer) => {
                if peers.push(peer).is_err() {
                    return Err(MemberError::NoMemory);
                }
            }
            Err(ArgsError::OtherWords) => return Err(MemberError::Wrong(not_address(word))),
            Err(ArgsError::NoMemory) => return Err(MemberError::NoMemory),
        }
    }
    if let Some(word) = twice_in(words) {
        return Err(MemberError::Wrong(WrongWord::Twice(word)));
    }
    Ok(peers)
}

/// Copies a text, if there is one.
fn own(alloc: Global, text: Option<&str>) -> Result<Option<String>, AllocError>
    ensures { IfOk result (λ own. option_map string_bytes own ≡ option_copied text.entry) }
{
    let Some(text) = text else {
        return Ok(None);
    };
    match String::from_str(alloc, text) {
        Ok(own) => Ok(Some(own)),
        Err(_) => Err(AllocError),
    }
}

/// Returns the members that the words ask for, or the word that is wrong. It looks at the nodes, the
/// folder, the options, the addresses, and last at whether the options fit the nodes.
pub fn asked_by<'a>(alloc: Global, words: &'a [String]) -> Result<MemberArgs, MemberError<'a>>
    ensures asks { MatchResult result (λ asked. AskMembers (map string_bytes words.now) asked.first asked.last
        (choices_of asked) (map reached asked.peers.items) (string_bytes asked.folder))
        (λ fault. OnWrong fault (λ _. (first last : ℕ) (choices : Choices) (peers : List (List ℕ × ℕ))
        (folder : List ℕ) → AskMembers (map string_bytes words.now) first last choices peers folder → ⊥)) }
    ensures wrong { IfErr result (λ fault. OnWrong fault (λ wrong. IsWrong (map string_bytes words.now) wrong)) }
    ensures few { IfOk result (λ asked. (1 ≤ vec_len asked.peers) × (vec_len asked.peers ≤ MAX_NODES)) }
{
    let reading = match reading_of(words) {
        Ok(reading) => reading,
        Err(wrong) => return Err(MemberError::Wrong(wrong)),
    };
    let peers = match peers_of(alloc, reading.given.addresses) {
        Ok(peers) => peers,
        Err(fault) => return Err(fault),
    };
    if let Some(wrong) = misfit_of(reading) {
        return Err(MemberError::Wrong(wrong));
    }
    let Ok(folder) = String::from_str(alloc, reading.folder) else {
        return Err(MemberError::NoMemory);
    };
    let Ok(names) = String::from_str(alloc, reading.choices.names) else {
        return Err(MemberError::NoMemory);
    };
    let Ok(group) = own(alloc, reading.choices.group) else {
        return Err(MemberError::NoMemory);
    };
    Ok(MemberArgs {
        first: reading.first,
        last: reading.last,
        folder,
        listen: reading.choices.listen,
        operate: reading.choices.operate,
        names,
        ended: reading.choices.ended,
        failed: reading.choices.failed,
        group,
        copies: reading.choices.copies,
        patience: reading.choices.patience,
        strict: reading.choices.strict,
        anew: reading.choices.anew,
        peers,
    })
}
