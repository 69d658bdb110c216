// The query of a service's request.

/// The most digits of a time.
const MAX_DIGITS: usize = 15;

/// Returns the value of a name in a query, empty if there is none.
pub fn said<'a>(query: &'a str, name: &str) -> &'a str {
    for pair in query.split('&') {
        if let Some((key, value)) = pair.split_once('=') {
            if key == name {
                return value;
            }
        }
    }
    ""
}

/// Returns the number of milliseconds that a text states; an empty text states 0.
pub fn time_in(text: &str) -> Option<u64> {
    if text.is_empty() {
        return Some(0);
    }
    if text.starts_with('+') || text.len() > MAX_DIGITS {
        return None;
    }
    text.parse::<u64>().ok()
}
