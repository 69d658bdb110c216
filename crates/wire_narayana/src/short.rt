// Short forms for the beginnings of long links.
ghost use Rattle.std.specs.Prelude.{◌≡◌, ◌≢◌, ◌++◌, ◌∷◌, ℕ, List, [], IfOk, MatchOption, option_copied, string_bytes};
ghost use Rattle.wire_narayana.specs.Carrying.{behind, shortened, spelled};

use std::alloc::{AllocError, Global};

/// A short form for the beginning of long links: `~NAME/` stands for `HOST:PORT/PATH/`. The
/// configuration gives the names.
#[derive(Drop)]
pub struct Short {
    pub short: String,
    pub long: String,
}

impl Short {
    /// Makes the short form `~NAME/` of what links have behind `http://`, such as
    /// `booking.travel.svc.cluster.local:8080/lra-participant`, without the slash at its end.
    pub fn new(alloc: Global, name: &str, long: &str) -> Result<Short, AllocError>
        ensures { IfOk result (λ it. (string_bytes it.short ≡ 126 ∷ (name.now ++ 47 ∷ []))
            × (string_bytes it.long ≡ long.now ++ 47 ∷ [])) }
    {
        let short = format!(in alloc; "~{name}/")?;
        let long = format!(in alloc; "{long}/")?;
        Ok(Short { short, long })
    }
}

/// Returns what follows `front`, if the text begins with it.
#[tactic(auto, using(crate::proofs::Shorts::behind_by))]
pub(crate) fn behind<'a>(front: &str, text: &'a str) -> Option<&'a str>
    ensures value { option_copied result ≡ behind front.now text.now }
    ensures whole { MatchOption result ((tail : List ℕ) → text.now ≢ front.now ++ tail)
        (λ tail. text.now ≡ front.now ++ tail.now) }
{
    text.strip_prefix(front)
}

/// Returns a rest with its long form in place of the short form, if it begins with a short form.
#[tactic(auto, unfolding(crate::specs::Carrying::spelled))]
pub(crate) fn spelled(alloc: Global, shorts: &[Short], rest: &str) -> Result<String, AllocError>
    ensures { IfOk result (λ text. string_bytes text ≡ spelled shorts.now rest.now) }
{
    for short in shorts {
        if let Some(tail) = behind(short.short.as_str(), rest) {
            let long = short.long.as_str();
            return format!(in alloc; "{long}{tail}");
        }
    }
    String::from_str(alloc, rest)
}

/// Returns a rest with its short form in place of the long form, if it begins with a long form.
#[tactic(auto, unfolding(crate::specs::Carrying::shortened))]
pub(crate) fn shortened(alloc: Global, shorts: &[Short], rest: &str) -> Result<String, AllocError>
    ensures { IfOk result (λ text. string_bytes text ≡ shortened shorts.now rest.now) }
{
    for short in shorts {
        if let Some(tail) = behind(short.long.as_str(), rest) {
            let front = short.short.as_str();
            return format!(in alloc; "{front}{tail}");
        }
    }
    String::from_str(alloc, rest)
}
