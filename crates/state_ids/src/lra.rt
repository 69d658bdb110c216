// The ids of LRAs and their texts.
ghost use Rattle.std.specs.Prelude.{◌≡◌, ◌↔◌, Some, IfOk, IfErr, IsTrue, IsUtf8, MatchResult, length, take, codes};
ghost use Rattle.state_ids.specs.Ids.{Id, IsNodeNumber, IsFactNumber, IsId, IsTextOf, id_text, layout, text_of};

use crate::{BadText, LAST_NUMBER, NodeId};
use std::fmt;
use std::marker::Model;
use uuid::Uuid;

/// The id of an LRA: its home node, and the number of its begin there. Ids are ordered by home, and
/// then by number.
#[derive(Clone, Copy, Debug, PartialEq, Eq)]
pub struct LraId {
    home: NodeId,
    num: u64,
}

impl Model for LraId {
    ghost use Rattle.state_ids.specs.Ids.{Id, IsNodeNumber, IsFactNumber};

    ghost Value = { Id };

    ghost view = { λ l. record { home = l.home; num = l.num } };

    ghost invariant = { λ l. IsNodeNumber l.home × IsFactNumber l.num };

    ghost inverse = { λ d. record { home = d.home; num = d.num } };
}

impl LraId {
    /// Returns the id of the LRA that this home began with its fact of this number. The number must
    /// be from 1 to 281,474,976,710,655.
    pub fn new(home: NodeId, num: u64) -> Result<LraId, BadText>
        ensures value { IfOk result (λ id. (id.home ≡ home) × (id.num ≡ num)) }
        ensures exact { MatchResult result (λ _. IsFactNumber num) (λ _. IsFactNumber num → ⊥) }
    {
        if num == 0 || num > LAST_NUMBER {
            return Err(BadText);
        }
        home.is_a_node();
        Ok(LraId { home, num })
    }

    /// Returns the home: the node that began the LRA.
    pub fn home(self) -> NodeId
        ensures value { result ≡ self.home }
        ensures range { IsId self }
    {
        self.home
    }

    /// Returns the number of the LRA's begin.
    pub fn num(self) -> u64
        ensures value { result ≡ self.num }
        ensures range { IsId self }
    {
        self.num
    }

    /// Returns the id's bytes as a UUID of version 8 (RFC 9562, section 5.8).
    pub fn to_bytes(self) -> [u8; 16]
        ensures bytes { result ≡ layout self }
        ensures range { IsId self }
    {
        bytes_of(self.home.number(), self.num)
    }

    /// Returns the id's text as a UUID: 36 bytes, in lower case with hyphens.
    pub fn to_text(self) -> [u8; 36]
        ensures text { result ≡ text_of self }
        ensures utf8 { IsUtf8 result }
        ensures read_back { IsTextOf result self }
        ensures range { IsId self }
    {
        let uuid = Uuid::from_bytes(self.to_bytes());
        let mut buffer = Uuid::encode_buffer();
        let text = uuid.hyphenated().encode_lower(&mut buffer);
        let mut out = [0u8; 36];
        out.copy_from_slice(text.as_bytes());
        out
    }

    /// Reads any of the four text forms of a UUID: hyphenated, simple, in braces, or after
    /// `urn:uuid:`. The digits may be in either case, but the prefix must be in lower case. A UUID
    /// of another layout is refused. The code tests the prefix's case itself, because `uuid`
    /// accepts either case.
    pub fn from_text(text: &str) -> Result<LraId, BadText>
        ensures found { IfOk result (λ id. IsId id × IsTextOf text.now id) }
        ensures refused { IfErr result (λ _. (id : Id) → IsId id → IsTextOf text.now id → ⊥) }
    {
        LraId::from_ascii(text.as_bytes())
    }

    /// Reads the same forms as `from_text`, from bytes that may not be valid text, such as those of
    /// a script's line.
    pub fn from_ascii(text: &[u8]) -> Result<LraId, BadText>
        ensures found { IfOk result (λ id. IsId id × IsTextOf text.now id) }
        ensures refused { IfErr result (λ _. (id : Id) → IsId id → IsTextOf text.now id → ⊥) }
    {
        let Ok(uuid) = Uuid::try_parse_ascii(text) else {
            return Err(BadText);
        };
        if !is_prefix_lower(text) {
            return Err(BadText);
        }
        from_bytes(uuid.into_bytes())
    }
}

impl fmt::Display for LraId {
    ghost output = { λ id. Some (id_text id) };

    fn fmt<W: fmt::Write>(&self, f: &mut fmt::Formatter<W>) -> fmt::Result {
        let home = self.home.number();
        let num = self.num;
        write!(f, "{home}.{num}")
    }
}

fn is_prefix_lower(text: &[u8]) -> bool
    ensures { IsTrue result ↔ (length text.now ≡ 45 → take 9 text.now ≡ codes "urn:uuid:") }
{
    text.len() != 45 || text.starts_with(b"urn:uuid:")
}

/// Returns the id with these bytes. It lays out the id that it read again and compares the bytes,
/// so it accepts no other layout.
fn from_bytes(bytes: [u8; 16]) -> Result<LraId, BadText>
    ensures found { IfOk result (λ id. IsId id × (bytes ≡ layout id)) }
    ensures refused { IfErr result (λ _. (id : Id) → IsId id → bytes ≡ layout id → ⊥) }
{
    let home = NodeId::new(bytes[7])?;
    let low = u64::from_be_bytes([
        bytes[8], bytes[9], bytes[10], bytes[11], bytes[12], bytes[13], bytes[14], bytes[15],
    ]);
    let id = LraId::new(home, low % 0x4000_0000_0000_0000)?;
    if id.to_bytes() != bytes {
        return Err(BadText);
    }
    Ok(id)
}

/// Returns the bytes of the id with this home and number.
fn bytes_of(home: u8, num: u64) -> [u8; 16]
    requires home { IsNodeNumber home }
    requires num { IsFactNumber num }
    ensures { result ≡ layout (record { home = home; num = num }) }
{
    let high = (0x8000 + u16::from(home)).to_be_bytes();
    let low = (0x8000_0000_0000_0000 + num).to_be_bytes();
    [
        0, 0, 0, 0, 0, 0, high[0], high[1], low[0], low[1], low[2], low[3], low[4], low[5], low[6],
        low[7],
    ]
}
