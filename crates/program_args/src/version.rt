// Which build this is, and whether the words ask for that.
ghost use Rattle.std.specs.Prelude.{◌≡◌, ◌∷◌, [], codes, map, MatchBool, string_bytes};

use crate::member_texts::flag_of;

/// The version of the release, by semantic versioning. Its interface is what HTTP.md, FORMATS.md,
/// GATEWAY.md and OPERATING.md say. After a release it is the next version, with `-dev`.
pub const VERSION: &str = "0.10.0-dev";

/// The commit from which the release was cut. Its crates are these, except for this file, which
/// `tools/release.py cut` writes.
pub const COMMIT: &str = "unknown";

/// The kit that proved the release.
pub const KIT: &str = "rattle-kit-13f";

/// Whether the words of a command line ask for the version alone.
pub fn is_version(words: &[String]) -> bool
    ensures { MatchBool result (map string_bytes words.now ≡ codes "--version" ∷ [])
        (map string_bytes words.now ≡ codes "--version" ∷ [] → ⊥) }
{
    let (is_said, others) = flag_of("--version", words);
    is_said && others.is_empty()
}
