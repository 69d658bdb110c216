// Why a command line asks for no members.
ghost use Rattle.std.specs.Prelude.{◌≡◌};
ghost use Rattle.program_args.specs.Refusals.{IsNoAddress, has_option_name};

use crate::words::has;
use std::fmt;

/// The word of a command line for which it asks for no members, and why; or what is missing. Each
/// text is the word, or what follows the name of an option.
#[derive(Clone, Copy, Debug)]
pub enum WrongWord<'a> {
    /// The first word is missing: it says which nodes the process runs.
    NoNodes,
    /// The first word names no nodes.
    Nodes(&'a str),
    /// The folder is missing.
    NoFolder,
    /// An option whose text isn't of its form; so are those below.
    Listen(&'a str),
    Operate(&'a str),
    Names(&'a str),
    Keep(&'a str),
    KeepFailed(&'a str),
    Group(&'a str),
    Copies(&'a str),
    Patience(&'a str),
    /// An option that is given twice, or that stands behind a later one or an address.
    Misplaced(&'a str),
    /// No option has this name.
    Unknown(&'a str),
    /// Not the address of a node.
    Address(&'a str),
    /// An address that an earlier node has.
    Twice(&'a str),
    /// No address is given.
    NoAddresses,
    /// The ninth address.
    NinthNode(&'a str),
    /// The word of the nodes, of which the last has no address.
    NoSuchNode(&'a str),
    /// `listen` in a process of several nodes.
    SharedListen(&'a str),
    /// The `operate` port leaves no room above it for the other nodes of the process.
    NoPorts(&'a str),
    /// `copies` asks for more nodes than there are.
    FewNodes(&'a str),
    /// `copies` in a process of several nodes.
    SharedCopies(&'a str),
    /// `patience` without `copies`.
    PatienceAlone(&'a str),
    /// `strict` without `copies`.
    StrictAlone,
}

impl<'a> WrongWord<'a> {
    /// Returns the name of the option, if it is one, the rest of the word, and what is wrong.
    fn parts(self) -> (&'static str, &'a str, &'static str) {
        match self {
            WrongWord::NoNodes => ("I or I-J", "", "has to be given"),
            WrongWord::Nodes(text) => (
                "",
                text,
                "I has to be a number from 1 to 8, and I-J two of them in order",
            ),
            WrongWord::NoFolder => ("DIR", "", "has to be given"),
            WrongWord::Listen(text) => ("listen=", text, "has to be IP:PORT"),
            WrongWord::Operate(text) => ("operate=", text, "has to be IP:PORT"),
            WrongWord::Names(text) => (
                "names=",
                text,
                "NAME has to be letters, digits, dots, underscores and hyphens",
            ),
            WrongWord::Keep(text) => ("keep=", text, "MS has to be a number of milliseconds"),
            WrongWord::KeepFailed(text) => (
                "keep-failed=",
                text,
                "MS has to be a number of milliseconds",
            ),
            WrongWord::Group(text) => (
                "group=",
                text,
                "NAME has to be 1 to 64 letters, digits, dots, underscores and hyphens",
            ),
            WrongWord::Copies(text) => ("copies=", text, "K has to be a number"),
            WrongWord::Patience(text) => (
                "patience=",
                text,
                "MS has to be a number of milliseconds",
            ),
            WrongWord::Misplaced(text) => ("", text, "given twice, or not in the order below"),
            WrongWord::Unknown(text) => ("", text, "no such option"),
            WrongWord::Address(text) => ("", text, "has to be HOST:PORT"),
            WrongWord::Twice(text) => ("", text, "each node needs an address of its own"),
            WrongWord::NoAddresses => ("HOST:PORT", "", "has to be given"),
            WrongWord::NinthNode(text) => ("", text, "a group has at most 8 nodes"),
            WrongWord::NoSuchNode(text) => ("", text, "HOST:PORT has to be given for each node"),
            WrongWord::SharedListen(text) => ("listen=", text, "not allowed with several nodes"),
            WrongWord::NoPorts(text) => (
                "operate=",
                text,
                "the last node's port would be above 65535",
            ),
            WrongWord::FewNodes(text) => (
                "copies=",
                text,
                "K has to be less than the number of nodes",
            ),
            WrongWord::SharedCopies(text) => ("copies=", text, "not allowed with several nodes"),
            WrongWord::PatienceAlone(text) => ("patience=", text, "needs copies=K"),
            WrongWord::StrictAlone => ("strict", "", "needs copies=K"),
        }
    }
}

impl fmt::Display for WrongWord<'_> {
    fn fmt<W: fmt::Write>(&self, f: &mut fmt::Formatter<W>) -> fmt::Result {
        let (name, text, why) = self.parts();
        write!(f, "{}{}: {}", name, text, why)
    }
}

/// Whether a word begins with the name of an option.
fn has_option_name(word: &str) -> bool
    ensures { result ≡ has_option_name word.now }
{
    let bytes = word.as_bytes();
    bytes.starts_with(b"listen=")
        || bytes.starts_with(b"operate=")
        || bytes.starts_with(b"names=")
        || bytes.starts_with(b"keep=")
        || bytes.starts_with(b"keep-failed=")
        || bytes.starts_with(b"group=")
        || bytes.starts_with(b"copies=")
        || bytes.starts_with(b"patience=")
}

/// Returns why a word is no address.
pub(crate) fn not_address(word: &str) -> WrongWord<'_>
    ensures { IsNoAddress word.now result }
{
    if word == "strict" || word == "anew" || has_option_name(word) {
        return WrongWord::Misplaced(word);
    }
    if has(word, b'=') {
        return WrongWord::Unknown(word);
    }
    WrongWord::Address(word)
}
