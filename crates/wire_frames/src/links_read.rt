// The links that were read lately.
ghost use Rattle.std.specs.Prelude.{◌≡◌, IfOk, IfSome, None, Some, if◌then◌else◌};
ghost use Rattle.state_facts.specs.LinkTexts.{is_kept};

use state_facts::Link;
use std::alloc::{AllocError, Global};

/// The greatest number of links that are remembered.
const MOST: usize = 16;

/// Returns a copy of the link with this text, if it is among these.
fn copy_among(links: &[Link], text: &[u8]) -> Result<Option<Link>, AllocError>
    ensures { IfOk result (λ copy. IfSome copy
        (λ link. Some link ≡ (if is_kept text.now then Some text.now else None))) }
{
    for link in links {
        if link.as_bytes() == text {
            return Ok(Some(link.clone()?));
        }
    }
    Ok(None)
}

/// The links that were read lately, at most 16. A service gives the same few to each LRA, and
/// copying a link costs a small part of parsing its text again. What is remembered changes no
/// answer.
#[derive(Drop)]
pub struct LinksRead {
    links: Vec<Link>,
    replaced: usize,
}

impl LinksRead {
    /// Makes an empty list.
    pub fn new(alloc: Global) -> LinksRead {
        LinksRead {
            links: Vec::new(alloc),
            replaced: 0,
        }
    }

    /// Remembers a copy of a link, if there is memory for it. If there are 16 already, it replaces
    /// the one that was remembered first.
    fn remember(&mut self, link: &Link) {
        let Ok(copy) = link.clone() else {
            return;
        };
        if self.links.len() < MOST {
            let _ = self.links.push(copy);
            return;
        }
        if let Some(first) = self.links.get_mut(self.replaced % MOST) {
            *first = copy;
        }
        self.replaced = self.replaced.wrapping_add(1);
    }

    /// Returns the link that is kept as these bytes, if there is one. It copies a remembered link,
    /// or else parses the bytes.
    pub(crate) fn link(&mut self, alloc: Global, text: &[u8]) -> Result<Option<Link>, AllocError>
        ensures { IfOk result (λ link. link ≡ (if is_kept text.now then Some text.now else None)) }
    {
        let copy = copy_among(&self.links, text)?;
        if copy.is_some() {
            return Ok(copy);
        }
        let read = Link::from_kept(alloc, text)?;
        if let Some(link) = &read {
            self.remember(link);
        }
        Ok(read)
    }
}
