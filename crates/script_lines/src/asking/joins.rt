// Reading the links of a join. The words are read once for each of five links, as in the
// definition; a single pass would need an invariant over five answers.
ghost use Rattle.std.specs.Prelude.{◌≡◌, ◌≤◌, codes, drop, length, true, IfOk, MatchOption};
ghost use Rattle.std.specs.List.{list_all, list_any};
ghost use Rattle.std.specs.Option.{option_copied};
ghost use Rattle.state_ids.specs.declared.TheConstants.{MAX_NODES};
ghost use Rattle.state_facts.specs.Links.{Links, kept_links};
ghost use Rattle.script_lines.specs.Asks.{ReadsArguments};
ghost use Rattle.script_lines.specs.Joins.{GivesLinks, IsTextUnder, are_link_words, gives, is_link_word, is_once, mark_of, text_under};

use super::lras::next_node_and_id;
use crate::asking::Ask;
use crate::words::Words;
use state_facts::{Command, Links, Refusal};
use std::alloc::{AllocError, Global};
use std::str;

/// The name of a link.
#[derive(Clone, Copy, Debug, PartialEq, Eq)]
pub enum LinkName {
    Complete,
    Compensate,
    Status,
    Forget,
    After,
}

impl LinkName {
    fn mark(self) -> &'static str
        ensures { result.now ≡ mark_of self }
    {
        match self {
            LinkName::Complete => "complete=",
            LinkName::Compensate => "compensate=",
            LinkName::Status => "status=",
            LinkName::Forget => "forget=",
            LinkName::After => "after=",
        }
    }
}

pub fn join_of(alloc: Global, mut words: Words<'_>, nodes: u8) -> Result<Option<Ask>, AllocError>
    requires { nodes ≤ MAX_NODES }
    ensures { IfOk result (ReadsArguments nodes (codes "join") words.entry) }
{
    let Some((node, id)) = next_node_and_id(&mut words, nodes) else {
        return Ok(None);
    };
    let Some(links) = links_of(alloc, &words)? else {
        return Ok(None);
    };
    let command = Command::Join { id, links };
    Ok(Some(Ask::Enter { node, command }))
}

fn links_of(alloc: Global, words: &Words<'_>) -> Result<Option<Links>, AllocError>
    ensures { IfOk result (λ found. MatchOption found
        ((links : Links) → GivesLinks words.now links → ⊥) (GivesLinks words.now)) }
{
    if !are_link_words(words) {
        return Ok(None);
    }
    let Some(complete) = text_given(words, LinkName::Complete) else {
        return Ok(None);
    };
    let Some(compensate) = text_given(words, LinkName::Compensate) else {
        return Ok(None);
    };
    let Some(status) = text_given(words, LinkName::Status) else {
        return Ok(None);
    };
    let Some(forget) = text_given(words, LinkName::Forget) else {
        return Ok(None);
    };
    let Some(after) = text_given(words, LinkName::After) else {
        return Ok(None);
    };
    links_from_texts(alloc, complete, compensate, status, forget, after)
}

fn links_from_texts(
    alloc: Global,
    complete: Option<&str>,
    compensate: Option<&str>,
    status: Option<&str>,
    forget: Option<&str>,
    after: Option<&str>,
) -> Result<Option<Links>, AllocError>
    ensures { IfOk result
        (λ found. found ≡ kept_links (option_copied complete.entry) (option_copied compensate.entry)
        (option_copied status.entry) (option_copied forget.entry) (option_copied after.entry)) }
{
    match Links::read(alloc, complete, compensate, status, forget, after) {
        Ok(links) => Ok(Some(links)),
        Err(Refusal::BadText) => Ok(None),
        Err(_) => Err(AllocError),
    }
}

fn are_link_words(words: &Words<'_>) -> bool
    ensures { result ≡ are_link_words words.now }
{
    each_gives(words)
        && is_once(words, LinkName::Complete)
        && is_once(words, LinkName::Compensate)
        && is_once(words, LinkName::Status)
        && is_once(words, LinkName::Forget)
        && is_once(words, LinkName::After)
}

fn each_gives(words: &Words<'_>) -> bool
    ensures { result ≡ list_all is_link_word words.now }
{
    let mut rest = words.again();
    'words: loop {
        let Some(word) = rest.next() else {
            return true;
        };
        if !is_link_word(word) {
            return false;
        }
    }
}

fn is_link_word(word: &[u8]) -> bool
    ensures { result ≡ is_link_word word.now }
{
    gives(LinkName::Complete, word)
        || gives(LinkName::Compensate, word)
        || gives(LinkName::Status, word)
        || gives(LinkName::Forget, word)
        || gives(LinkName::After, word)
}

fn gives(name: LinkName, word: &[u8]) -> bool
    ensures { result ≡ gives name word.now }
{
    word.starts_with(name.mark().as_bytes())
}

/// Whether at most one word gives the link of this name.
fn is_once(words: &Words<'_>, name: LinkName) -> bool
    ensures { result ≡ is_once name words.now }
{
    let mut rest = words.again();
    'words: loop {
        let Some(word) = rest.next() else {
            return true;
        };
        if gives(name, word) {
            return !is_given(&rest, name);
        }
    }
}

fn is_given(words: &Words<'_>, name: LinkName) -> bool
    ensures { result ≡ list_any (gives name) words.now }
{
    let mut rest = words.again();
    'words: loop {
        let Some(word) = rest.next() else {
            return false;
        };
        if gives(name, word) {
            return true;
        }
    }
}

fn text_given<'a>(words: &Words<'a>, name: LinkName) -> Option<Option<&'a str>>
    ensures { MatchOption result (IsTextUnder name words.now → ⊥)
        (λ text. IsTextUnder name words.now × (option_copied text ≡ text_under name words.now)) }
{
    let Some(text) = text_under(words, name) else {
        return Some(None);
    };
    match str::from_utf8(text) {
        Ok(text) => Some(Some(text)),
        Err(_) => None,
    }
}

/// Returns the bytes that are given under this name.
fn text_under<'a>(words: &Words<'a>, name: LinkName) -> Option<&'a [u8]>
    ensures { option_copied result ≡ text_under name words.now }
{
    let mut rest = words.again();
    'words: loop {
        let word = rest.next()?;
        if gives(name, word) {
            return Some(behind(name, word));
        }
    }
}

fn behind<'a>(name: LinkName, word: &'a [u8]) -> &'a [u8]
    requires { gives name word.now ≡ true }
    ensures { result.now ≡ drop (length (mark_of name)) word.now }
{
    &word[name.mark().len()..]
}
