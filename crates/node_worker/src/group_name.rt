// The names of groups of nodes.
ghost use Rattle.std.specs.Prelude.{◌≡◌, string_bytes, IsFalse, IsTrue, MatchOption};
ghost use Rattle.std.specs.List.{list_all};
ghost use Rattle.node_worker.specs.Groups.{is_group_name, is_name_byte};

use std::marker::Model;

fn is_name_byte(byte: u8) -> bool
    ensures { result ≡ is_name_byte byte }
{
    byte.is_ascii_alphanumeric() || byte == b'.' || byte == b'_' || byte == b'-'
}

fn are_name_bytes(bytes: &[u8]) -> bool
    ensures { result ≡ list_all is_name_byte bytes.now }
{
    bytes.iter().all(|byte| is_name_byte(*byte))
}

/// Whether a text may name a group: it has 1 to 64 bytes, of letters, digits, `.`, `_` and `-`.
pub fn is_group_name(text: &str) -> bool
    ensures { result ≡ is_group_name text.now }
{
    let bytes = text.as_bytes();
    if bytes.len() < 1 || bytes.len() > 64 {
        return false;
    }
    are_name_bytes(bytes)
}

/// The name of a group of nodes: 1 to 64 bytes, of letters, digits, `.`, `_` and `-`.
#[derive(Drop)]
pub struct GroupName {
    text: String,
}

impl Model for GroupName {
    ghost use Rattle.std.specs.Prelude.{List, ℕ, IsTrue, string_bytes};
    ghost use Rattle.node_worker.specs.Groups.{is_group_name};

    ghost Value = { List ℕ };

    ghost view = { λ n. string_bytes n.text };

    ghost invariant = { λ n. IsTrue (is_group_name (string_bytes n.text)) };
}

impl GroupName {
    /// Returns this name, if it may name a group.
    pub fn new(text: String) -> Option<GroupName>
        ensures { MatchOption result (IsFalse (is_group_name (string_bytes text)))
            (λ name. name ≡ string_bytes text) }
    {
        if !is_group_name(text.as_str()) {
            return None;
        }
        Some(GroupName { text })
    }

    /// Returns the name as a `str`.
    pub fn as_str(&self) -> &str
        ensures value { result.now ≡ self.now }
        ensures name { IsTrue (is_group_name self.now) }
    {
        self.text.as_str()
    }
}
