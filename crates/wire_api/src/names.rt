// Reads the ids and member numbers in requests.
ghost use Rattle.std.specs.Prelude.{◌≡◌};
ghost use Rattle.wire_api.specs.Names.{id_of, member_of};

use state_forest::MAX_MEMBERS;
use state_ids::LraId;

/// Returns the id that a text is, in any of the four forms of a UUID.
pub fn id_of(text: &str) -> Option<LraId>
    ensures { result ≡ id_of text.now }
{
    match LraId::from_text(text) {
        Ok(id) => Some(id),
        Err(_) => None,
    }
}

/// Returns the member number that a text is: 1 to 32 in decimal, without leading zeros.
pub fn member_of(text: &str) -> Option<u8>
    ensures { result ≡ member_of text.now }
{
    match *text.as_bytes() {
        [d] if b'1' <= d && d <= b'9' => Some(d - b'0'),
        [t, d] if b'1' <= t && t <= b'3' && b'0' <= d && d <= b'9' => {
            let number = 10 * (t - b'0') + (d - b'0');
            if number <= MAX_MEMBERS as u8 {
                Some(number)
            } else {
                None
            }
        }
        _ => None,
    }
}
