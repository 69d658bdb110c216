// A link, and the text that is kept of it.
ghost use Rattle.std.specs.Prelude.{◌≡◌, ◌≤◌, ◌<◌, Err, IfOk, None, Some, true, if◌then◌else◌, length};
ghost use Rattle.state_facts.specs.declared.refusal.Refusal.TheVariants.{BadText};
ghost use Rattle.state_facts.specs.LinkTexts.{Reads, is_kept, is_link, kept_text};

use crate::Refusal;
use std::alloc::{AllocError, Global};
use std::marker::Model;
use std::sync::ArcStr;
use url::{ParseError, Url};

/// The greatest length of a link, in bytes.
pub const MAX_LINK_BYTES: usize = 127;

/// A link: an http URL of at most 127 bytes, kept in its serialised form.
#[derive(Debug, Drop)]
pub struct Link {
    text: ArcStr,
}

impl Model for Link {
    ghost use Rattle.std.specs.Prelude.{List, ℕ, Some, length, ◌≡◌, ◌≤◌};
    ghost use Rattle.std.specs.Arc.{arc_str_bytes};
    ghost use Rattle.state_facts.specs.LinkTexts.{kept_text};

    ghost Value = { List ℕ };

    ghost view = { λ link. arc_str_bytes link.text };

    ghost invariant = { λ link. (length (arc_str_bytes link.text) ≤ 127)
        × (kept_text (arc_str_bytes link.text) ≡ Some (arc_str_bytes link.text)) };
}

fn is_link(url: &Url) -> bool
    ensures { result ≡ is_link url.now }
{
    url.scheme() == "http"
        && url.username().is_empty()
        && url.password().is_none()
        && url.fragment().is_none()
        && url.as_str().len() <= MAX_LINK_BYTES
}

impl Link {
    /// Reads a link, and keeps the serialised text of its URL. Reading that text again gives the
    /// same text. A text that is no link is E1. If it has more than 127 bytes, refusing it needs no
    /// memory.
    pub fn read(alloc: Global, text: &str) -> Result<Link, Refusal>
        ensures answer { Reads (kept_text text.now) result }
        ensures long { 127 < length text.now → result ≡ Err BadText }
        ensures kept { IfOk result (λ link. kept_text link ≡ Some link) }
    {
        if text.len() > MAX_LINK_BYTES {
            return Err(Refusal::BadText);
        }
        match Url::parse(alloc, text) {
            Ok(url) if is_link(&url) => Ok(Link {
                text: ArcStr::from_str(alloc, url.as_str())?,
            }),
            // An overflow also counts as out of memory. For a short text that is no link the
            // contract allows E17, because the parser may need memory before it can tell.
            Err(ParseError::OutOfMemory | ParseError::Overflow) => Err(Refusal::NoMemory),
            _ => Err(Refusal::BadText),
        }
    }

    /// Returns the link that is kept as these bytes, or `None` if they aren't the kept text of a
    /// link.
    #[tactic(auto, unfolding(crate::specs::LinkTexts::is_kept))]
    pub fn from_kept(alloc: Global, text: &[u8]) -> Result<Option<Link>, AllocError>
        ensures { IfOk result (λ link. link ≡ (if is_kept text.now then Some text.now else None)) }
    {
        let Ok(text) = str::from_utf8(text) else {
            return Ok(None);
        };
        match Link::read(alloc, text) {
            Ok(link) if link.as_str() == text => Ok(Some(link)),
            Err(Refusal::NoMemory) => Err(AllocError),
            _ => Ok(None),
        }
    }

    /// Returns the kept text. Reading it again gives the same text.
    pub fn as_str(&self) -> &str
        ensures text { result.now ≡ self.now }
        ensures kept { kept_text self.now ≡ Some self.now }
    {
        self.text.as_str()
    }

    /// Returns the bytes of the kept text, of which there are at most 127.
    pub fn as_bytes(&self) -> &[u8]
        ensures text { result.now ≡ self.now }
        ensures short { length result.now ≤ 127 }
        ensures kept { is_kept self.now ≡ true }
    {
        self.as_str().as_bytes()
    }
}

impl PartialEq for Link {
    ghost use Rattle.std.specs.Cmp.{partial_equiv_from_equiv};
    ghost use Rattle.std.specs.Cmp.Lexicographic.{nat_list_eq_equiv};
    ghost use Rattle.std.specs.Str.{bytes_eq};

    ghost eq = { bytes_eq };

    ghost laws = { partial_equiv_from_equiv nat_list_eq_equiv };

    fn eq(&self, other: &Link) -> bool {
        self.text == other.text
    }
}

impl Clone for Link {
    ghost use Rattle.std.specs.Prelude.{◌≡◌};

    ghost is_clone = { λ x y. y ≡ x };

    fn clone(&self) -> Result<Link, AllocError> {
        Ok(Link {
            text: self.text.clone()?,
        })
    }
}
