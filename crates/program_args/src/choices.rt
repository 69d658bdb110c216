// The options: the words between the folder and the addresses.
ghost use Rattle.std.specs.Prelude.{◌≡◌, ℕ, List, Option, Some, MatchResult, option_copied};
ghost use Rattle.std.specs.List.{list_all};
ghost use Rattle.std.specs.declared.net.socket_addr.SocketAddr.{SocketAddr as TheAddress};
ghost use Rattle.program_args.specs.Arguments.{IsGroup, IsListen, IsNames, IsTime, Mean, are_names, is_group_name, is_name_byte, is_names_byte};
ghost use Rattle.program_args.specs.Readings.{chosen, texts_in};
ghost use Rattle.program_args.specs.Refusals.{IsWrongText};

use crate::member_texts::MemberTexts;
use crate::words::number_of;
use crate::wrong_word::WrongWord;
use std::net::SocketAddr;

/// Reads the address of a text, if there is a text. Returns the text if it is no socket address
/// with a port.
fn address_of(text: Option<&str>) -> Result<Option<SocketAddr>, &str>
    ensures { MatchResult result (λ address. IsListen (option_copied text.entry) address)
        (λ wrong. (option_copied text.entry ≡ Some wrong.now)
        × ((address : Option TheAddress) → IsListen (option_copied text.entry) address → ⊥)) }
{
    let Some(text) = text else {
        return Ok(None);
    };
    let Ok(address) = text.parse::<SocketAddr>() else {
        return Err(text);
    };
    if address.port() == 0 {
        return Err(text);
    }
    Ok(Some(address))
}

/// Reads the number of a text, such as milliseconds, if there is a text. Returns the text if it is
/// no number.
fn time_of(text: Option<&str>) -> Result<Option<u64>, &str>
    ensures { MatchResult result (λ time. IsTime (option_copied text.entry) time)
        (λ wrong. (option_copied text.entry ≡ Some wrong.now)
        × ((time : Option ℕ) → IsTime (option_copied text.entry) time → ⊥)) }
{
    let Some(text) = text else {
        return Ok(None);
    };
    let Some(time) = number_of(text) else {
        return Err(text);
    };
    Ok(Some(time))
}

fn is_name_byte(byte: u8) -> bool
    ensures { result ≡ is_name_byte byte }
{
    byte.is_ascii_alphanumeric() || byte == b'.' || byte == b'_' || byte == b'-'
}

fn is_names_byte(byte: u8) -> bool
    ensures { result ≡ is_names_byte byte }
{
    is_name_byte(byte) || byte == b','
}

fn are_names_bytes(bytes: &[u8]) -> bool
    ensures { result ≡ list_all is_names_byte bytes.now }
{
    bytes.iter().all(|byte| is_names_byte(*byte))
}

fn are_name_bytes(bytes: &[u8]) -> bool
    ensures { result ≡ list_all is_name_byte bytes.now }
{
    bytes.iter().all(|byte| is_name_byte(*byte))
}

/// Whether a text is a list of names separated by commas.
fn are_names(text: &str) -> bool
    ensures { result ≡ are_names text.now }
{
    let bytes = text.as_bytes();
    if bytes.len() < 1 {
        return false;
    }
    are_names_bytes(bytes)
}

/// Whether a text may name a group.
fn is_group_name(text: &str) -> bool
    ensures { result ≡ is_group_name text.now }
{
    let bytes = text.as_bytes();
    if bytes.len() < 1 || bytes.len() > 64 {
        return false;
    }
    are_name_bytes(bytes)
}

/// Returns the list of names in a text, empty if there is no text; the text if it is no such list.
fn names_of(text: Option<&str>) -> Result<&str, &str>
    ensures { MatchResult result (λ names. IsNames (option_copied text.entry) names.now)
        (λ wrong. (option_copied text.entry ≡ Some wrong.now)
        × ((names : List ℕ) → IsNames (option_copied text.entry) names → ⊥)) }
{
    let Some(names) = text else {
        return Ok("");
    };
    if !are_names(names) {
        return Err(names);
    }
    Ok(names)
}

/// Returns the group's name, if there is one; the text if it is no such name.
fn group_of(text: Option<&str>) -> Result<Option<&str>, &str>
    ensures { MatchResult result (λ group. IsGroup (option_copied text.entry) (option_copied group))
        (λ wrong. (option_copied text.entry ≡ Some wrong.now)
        × ((group : Option (List ℕ)) → IsGroup (option_copied text.entry) group → ⊥)) }
{
    let Some(name) = text else {
        return Ok(None);
    };
    if !is_group_name(name) {
        return Err(name);
    }
    Ok(Some(name))
}

/// The options.
#[derive(Clone, Copy)]
pub(crate) struct Chosen<'a> {
    pub listen: Option<SocketAddr>,
    pub operate: Option<SocketAddr>,
    pub names: &'a str,
    pub ended: Option<u64>,
    pub failed: Option<u64>,
    pub group: Option<&'a str>,
    pub copies: Option<u64>,
    pub patience: Option<u64>,
    pub strict: bool,
    pub anew: bool,
}

/// Returns what the texts of the options mean, or the first text that means nothing.
pub(crate) fn choices_of<'a>(given: MemberTexts<'a>) -> Result<Chosen<'a>, WrongWord<'a>>
    ensures { MatchResult result (λ it. Mean (texts_in given.entry) (chosen it))
        (λ wrong. IsWrongText (texts_in given.entry) wrong) }
{
    let listen = match address_of(given.listen) {
        Ok(listen) => listen,
        Err(text) => return Err(WrongWord::Listen(text)),
    };
    let operate = match address_of(given.operate) {
        Ok(operate) => operate,
        Err(text) => return Err(WrongWord::Operate(text)),
    };
    let names = match names_of(given.names) {
        Ok(names) => names,
        Err(text) => return Err(WrongWord::Names(text)),
    };
    let ended = match time_of(given.ended) {
        Ok(ended) => ended,
        Err(text) => return Err(WrongWord::Keep(text)),
    };
    let failed = match time_of(given.failed) {
        Ok(failed) => failed,
        Err(text) => return Err(WrongWord::KeepFailed(text)),
    };
    let group = match group_of(given.group) {
        Ok(group) => group,
        Err(text) => return Err(WrongWord::Group(text)),
    };
    let copies = match time_of(given.copies) {
        Ok(copies) => copies,
        Err(text) => return Err(WrongWord::Copies(text)),
    };
    let patience = match time_of(given.patience) {
        Ok(patience) => patience,
        Err(text) => return Err(WrongWord::Patience(text)),
    };
    Ok(Chosen {
        listen,
        operate,
        names,
        ended,
        failed,
        group,
        copies,
        patience,
        strict: given.strict,
        anew: given.anew,
    })
}
