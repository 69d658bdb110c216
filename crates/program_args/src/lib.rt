//! The words of command lines: which members of a group to run, where their journals lie, their
//! options, and where all nodes are reached; and which build a program is.
#![tactic(auto)]

mod choices;
mod member_args;
mod member_texts;
mod version;
mod words;
mod wrong_word;

pub use member_args::{MemberArgs, MemberError, asked_by};
pub use member_texts::{said_by, text_of};
pub use version::{COMMIT, KIT, VERSION, is_version};
pub use words::{ArgsError, host_of, number_of, peer_of, port_of};
pub use wrong_word::WrongWord;
