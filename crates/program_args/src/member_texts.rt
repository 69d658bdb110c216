// Words of the form `name=text`, and single words such as `strict`.
ghost use Rattle.std.specs.Prelude.{◌≡◌, ◌++◌, ◌∷◌, ℕ, Bool, List, Option, MatchOption, map, option_copied, string_bytes};
ghost use Rattle.program_args.specs.Arguments.{Texts, flagged, in_words, said};
ghost use Rattle.program_args.specs.Readings.{IsNotFirst, IsNotSaid, IsUnnamed, texts_in};

/// Returns the text after a name in the first of some words, and the remaining words; `None` if the
/// first word doesn't begin with the name.
pub fn said_by<'a>(name: &str, words: &'a [String]) -> Option<(&'a str, &'a [String])>
    ensures { MatchOption result (IsNotSaid name.now (map string_bytes words.now))
        (λ parts. map string_bytes words.now ≡ (name.now ++ parts.0.now) ∷ map string_bytes parts.1.now) }
{
    let Some((first, others)) = words.split_first() else {
        return None;
    };
    let Some(text) = first.as_str().strip_prefix(name) else {
        return None;
    };
    Some((text, others))
}

/// Does the same, and returns all words if the first one doesn't begin with the name.
pub fn text_of<'a>(name: &str, words: &'a [String]) -> (Option<&'a str>, &'a [String])
    ensures one { (text : Option (List ℕ)) (others : List (List ℕ)) → IsNotSaid name.now others →
        map string_bytes words.now ≡ said name.now text ++ others →
        (option_copied result.0 ≡ text) × (map string_bytes result.1.now ≡ others) }
    ensures is { map string_bytes words.now
        ≡ said name.now (option_copied result.0) ++ map string_bytes result.1.now }
{
    let Some((text, others)) = said_by(name, words) else {
        return (None, words);
    };
    (Some(text), others)
}

/// Whether the first of some words is this word; also returns the words that follow it.
pub(crate) fn flag_of<'a>(word: &str, words: &'a [String]) -> (bool, &'a [String])
    ensures one { (flag : Bool) (others : List (List ℕ)) → IsNotFirst word.now others →
        map string_bytes words.now ≡ flagged word.now flag ++ others →
        (result.0 ≡ flag) × (map string_bytes result.1.now ≡ others) }
    ensures is { map string_bytes words.now ≡ flagged word.now result.0 ++ map string_bytes result.1.now }
{
    let Some((first, others)) = words.split_first() else {
        return (false, words);
    };
    if first.as_str() != word {
        return (false, words);
    }
    (true, others)
}

/// The text after the name of each option, whether `strict` and `anew` are there, and the words
/// with the addresses.
#[derive(Clone, Copy)]
pub(crate) struct MemberTexts<'a> {
    pub listen: Option<&'a str>,
    pub operate: Option<&'a str>,
    pub names: Option<&'a str>,
    pub ended: Option<&'a str>,
    pub failed: Option<&'a str>,
    pub group: Option<&'a str>,
    pub copies: Option<&'a str>,
    pub patience: Option<&'a str>,
    pub strict: bool,
    pub anew: bool,
    pub addresses: &'a [String],
}

/// Takes the options apart from the words that follow the folder.
pub(crate) fn given_by(words: &[String]) -> MemberTexts<'_>
    ensures one { (texts : Texts) (addresses : List (List ℕ)) → IsUnnamed addresses →
        map string_bytes words.now ≡ in_words texts addresses →
        (texts_in result ≡ texts) × (map string_bytes result.addresses.now ≡ addresses) }
    ensures are { map string_bytes words.now
        ≡ in_words (texts_in result) (map string_bytes result.addresses.now) }
{
    let (listen, rest) = text_of("listen=", words);
    let (operate, rest) = text_of("operate=", rest);
    let (names, rest) = text_of("names=", rest);
    let (ended, rest) = text_of("keep=", rest);
    let (failed, rest) = text_of("keep-failed=", rest);
    let (group, rest) = text_of("group=", rest);
    let (copies, rest) = text_of("copies=", rest);
    let (patience, rest) = text_of("patience=", rest);
    let (strict, rest) = flag_of("strict", rest);
    let (anew, addresses) = flag_of("anew", rest);
    MemberTexts {
        listen,
        operate,
        names,
        ended,
        failed,
        group,
        copies,
        patience,
        strict,
        anew,
        addresses,
    }
}
