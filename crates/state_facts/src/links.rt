// The links at which a participant is called.
ghost use Rattle.std.specs.Prelude.{◌≡◌, Err, IfOk, None, Some, false, true, is_some};
ghost use Rattle.std.specs.Option.{option_copied};
ghost use Rattle.state_facts.specs.declared.refusal.Refusal.TheVariants.{BadText};
ghost use Rattle.state_facts.specs.Links.{are_links, are_together, kept_if_given, kept_links, links_together};
ghost use Rattle.state_facts.specs.LinkTexts.{Reads};

use crate::{Link, Refusal};
use std::alloc::{AllocError, Global};
use std::marker::Model;

/// The links of a participant: to complete, to compensate, to ask for its status, to tell it to
/// forget, and to tell it that its LRA has ended. A participant without a link to compensate has
/// only the last one. That rule is the type's invariant, so no layer above requires it.
#[derive(Debug, PartialEq, Drop)]
pub struct Links {
    complete: Option<Link>,
    compensate: Option<Link>,
    status: Option<Link>,
    forget: Option<Link>,
    after: Option<Link>,
}

impl Model for Links {
    ghost use Rattle.std.specs.Prelude.{◌≡◌, true};
    ghost use Rattle.state_facts.specs.Links.{Links, are_together};

    ghost Value = { Links };

    ghost view = { λ l. record {
      complete = l.complete;
      compensate = l.compensate;
      status = l.status;
      forget = l.forget;
      after = l.after;
    } };

    ghost invariant = { λ l.
        are_together l.complete l.compensate l.status l.forget l.after ≡ true };

    ghost inverse = { λ d. record {
      complete = d.complete;
      compensate = d.compensate;
      status = d.status;
      forget = d.forget;
      after = d.after;
    } };
}

fn are_together(
    complete: &Option<Link>,
    compensate: &Option<Link>,
    status: &Option<Link>,
    forget: &Option<Link>,
    after: &Option<Link>,
) -> bool
    ensures { result
        ≡ are_together complete.now compensate.now status.now forget.now after.now }
{
    compensate.is_some()
        || after.is_some() && !(complete.is_some() || status.is_some() || forget.is_some())
}

impl Links {
    /// Reads the links of a participant: one to compensate with any others, or only one for the
    /// end. Before it reads any link, it checks which ones are given. Errors: E1; NoMemory only if
    /// the given links may stand together.
    pub fn read(
        alloc: Global,
        complete: Option<&str>,
        compensate: Option<&str>,
        status: Option<&str>,
        forget: Option<&str>,
        after: Option<&str>,
    ) -> Result<Links, Refusal>
        ensures answer { Reads
            (kept_links (option_copied complete.entry) (option_copied compensate.entry)
            (option_copied status.entry) (option_copied forget.entry)
            (option_copied after.entry)) result }
        ensures missing { are_together (option_copied complete.entry)
            (option_copied compensate.entry) (option_copied status.entry)
            (option_copied forget.entry) (option_copied after.entry) ≡ false → result ≡ Err BadText }
    {
        if !are_given(complete, compensate, status, forget, after) {
            return Err(Refusal::BadText);
        }
        let complete = read_if_given(alloc, complete)?;
        let compensate = read_if_given(alloc, compensate)?;
        let status = read_if_given(alloc, status)?;
        let forget = read_if_given(alloc, forget)?;
        let after = read_if_given(alloc, after)?;
        Ok(Links {
            complete,
            compensate,
            status,
            forget,
            after,
        })
    }

    /// Returns these links if a participant may have them together: one to compensate with any
    /// others, or only one for the end.
    pub fn of(
        complete: Option<Link>,
        compensate: Option<Link>,
        status: Option<Link>,
        forget: Option<Link>,
        after: Option<Link>,
    ) -> Option<Links>
        ensures { result ≡ links_together complete compensate status forget after }
    {
        if !are_together(&complete, &compensate, &status, &forget, &after) {
            return None;
        }
        Some(Links {
            complete,
            compensate,
            status,
            forget,
            after,
        })
    }

    /// Returns the link at which the participant is asked to complete.
    pub fn complete(&self) -> Option<&Link>
        ensures link { option_copied result ≡ self.now.complete }
    {
        self.complete.as_ref()
    }

    /// Returns the link at which the participant is asked to compensate.
    pub fn compensate(&self) -> Option<&Link>
        ensures link { option_copied result ≡ self.now.compensate }
    {
        self.compensate.as_ref()
    }

    /// Returns the link at which the participant is asked for its status.
    pub fn status(&self) -> Option<&Link>
        ensures link { option_copied result ≡ self.now.status }
    {
        self.status.as_ref()
    }

    /// Returns the link at which the participant is told that it may forget.
    pub fn forget(&self) -> Option<&Link>
        ensures link { option_copied result ≡ self.now.forget }
    {
        self.forget.as_ref()
    }

    /// Returns the link at which the participant is told that its LRA has ended. A participant
    /// without this link has one to compensate.
    pub fn after(&self) -> Option<&Link>
        ensures link { option_copied result ≡ self.now.after }
        ensures together { are_links self.now ≡ true }
    {
        self.after.as_ref()
    }
}

fn are_given(
    complete: Option<&str>,
    compensate: Option<&str>,
    status: Option<&str>,
    forget: Option<&str>,
    after: Option<&str>,
) -> bool
    ensures { result ≡ are_together (option_copied complete.entry) (option_copied compensate.entry)
        (option_copied status.entry) (option_copied forget.entry) (option_copied after.entry) }
{
    compensate.is_some()
        || after.is_some() && !(complete.is_some() || status.is_some() || forget.is_some())
}

fn read_if_given(alloc: Global, text: Option<&str>) -> Result<Option<Link>, Refusal>
    ensures answer { Reads (kept_if_given (option_copied text.entry)) result }
    ensures given { IfOk result (λ link. is_some link ≡ is_some (option_copied text.entry)) }
{
    match text {
        Some(text) => Ok(Some(Link::read(alloc, text)?)),
        None => Ok(None),
    }
}

impl Clone for Links {
    ghost use Rattle.std.specs.Prelude.{◌≡◌};

    ghost is_clone = { λ x y. y ≡ x };

    fn clone(&self) -> Result<Links, AllocError> {
        Ok(Links {
            complete: self.complete.clone()?,
            compensate: self.compensate.clone()?,
            status: self.status.clone()?,
            forget: self.forget.clone()?,
            after: self.after.clone()?,
        })
    }
}
