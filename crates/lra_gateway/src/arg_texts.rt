// The values of the command line's words.
ghost use Rattle.std.specs.Prelude.{◌≤◌, length};

use crate::wrong_arg::{GatewayError, wrong};
use program_args::{said_by, text_of};

/// The value of each named word, and the words of short forms and of groups.
#[derive(Clone, Copy)]
pub(crate) struct GatewayTexts<'a> {
    pub listen: &'a str,
    pub base: &'a str,
    pub calls: &'a str,
    pub via: Option<&'a str>,
    pub limit: Option<&'a str>,
    pub wait: Option<&'a str>,
    pub again: Option<&'a str>,
    pub allow: Option<&'a str>,
    pub shorts: &'a [String],
    pub groups: &'a [String],
}

/// Returns how many words from the first on begin with a name.
fn count_of(name: &str, words: &[String]) -> usize
    ensures { result ≤ length words.now }
{
    for place in 0..words.len() {
        if !words[place].as_str().starts_with(name) {
            return place;
        }
    }
    words.len()
}

/// Returns the values of the words, which begin with `listen=`, `base=` and `calls=`.
pub(crate) fn given_by(words: &[String]) -> Result<GatewayTexts<'_>, GatewayError<'_>> {
    let Some((listen, rest)) = said_by("listen=", words) else {
        return Err(wrong("listen=", "IP:PORT", "has to be the first word"));
    };
    let Some((base, rest)) = said_by("base=", rest) else {
        return Err(wrong("base=", "URL", "has to be the second word"));
    };
    let Some((calls, rest)) = said_by("calls=", rest) else {
        return Err(wrong("calls=", "PORT", "has to be the third word"));
    };
    let (via, rest) = text_of("via=", rest);
    let (limit, rest) = text_of("limit=", rest);
    let (wait, rest) = text_of("wait=", rest);
    let (again, rest) = text_of("again=", rest);
    let (allow, rest) = text_of("allow=", rest);
    let (shorts, groups) = rest.split_at(count_of("short=", rest));
    Ok(GatewayTexts {
        listen,
        base,
        calls,
        via,
        limit,
        wait,
        again,
        allow,
        shorts,
        groups,
    })
}
