// Why the words of the command line ask for no gateway.

use program_args::ArgsError;
use std::fmt;

/// The beginnings of words.
const OPTIONS: [&[u8]; 10] = [
    b"listen=", b"base=", b"calls=", b"via=", b"limit=", b"wait=", b"again=", b"allow=", b"short=",
    b"group=",
];

/// The wrong word, its name apart, and what is wrong with it.
#[derive(Clone, Copy, Debug)]
pub struct WrongArg<'a> {
    name: &'static str,
    text: &'a str,
    why: &'static str,
}

impl fmt::Display for WrongArg<'_> {
    fn fmt<W: fmt::Write>(&self, f: &mut fmt::Formatter<W>) -> fmt::Result {
        write!(f, "{}{}: {}", self.name, self.text, self.why)
    }
}

/// Why there is no gateway: a word is wrong, or memory was refused.
#[derive(Clone, Copy, Debug)]
pub enum GatewayError<'a> {
    Wrong(WrongArg<'a>),
    NoMemory,
}

/// Says what is wrong with a word.
pub(crate) fn wrong<'a>(name: &'static str, text: &'a str, why: &'static str) -> GatewayError<'a> {
    GatewayError::Wrong(WrongArg { name, text, why })
}

/// Says the same if the fault is the word's.
pub(crate) fn wrong_unless_full<'a>(
    fault: ArgsError,
    name: &'static str,
    text: &'a str,
    why: &'static str,
) -> GatewayError<'a> {
    match fault {
        ArgsError::NoMemory => GatewayError::NoMemory,
        ArgsError::OtherWords => wrong(name, text, why),
    }
}

/// Says what is wrong with a word that stands where it doesn't belong.
pub(crate) fn stray(word: &str) -> GatewayError<'_> {
    let bytes = word.as_bytes();
    if OPTIONS.iter().any(|name| bytes.starts_with(name)) {
        return wrong("", word, "given twice, or not in the order below");
    }
    wrong("", word, "no such option")
}
