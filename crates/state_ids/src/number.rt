// Numbers as words spell them.
ghost use Rattle.std.specs.Prelude.{◌≡◌, ◌≢◌, ◌<◌, ◌^◌, ℕ, IsTrue, MatchOption, length, slice_index};
ghost use Rattle.std.specs.Fmt.{decimal};

use std::str;

/// Returns the number that a word spells in decimal, if it has no sign and no leading zero and is
/// below 2 ^ 64.
pub fn number_of(word: &[u8]) -> Option<u64>
    ensures { MatchOption result ((n : ℕ) → n < 2 ^ 64 → word.now ≡ decimal n → ⊥)
        (λ n. word.now ≡ decimal n) }
{
    if !is_canonical(word) {
        return None;
    }
    let Ok(text) = str::from_utf8(word) else {
        return None;
    };
    match text.parse::<u64>() {
        Ok(number) => Some(number),
        Err(_) => None,
    }
}

fn is_canonical(word: &[u8]) -> bool
    ensures plain { IsTrue result →
        (slice_index word.now 0 ≡ 43 → ⊥) × (slice_index word.now 0 ≡ 48 → length word.now ≡ 1) }
    ensures odd { (IsTrue result → ⊥) → (slice_index word.now 0 ≡ 43 → length word.now ≡ 0) →
        (slice_index word.now 0 ≡ 48) × (length word.now ≢ 1) }
{
    if word.is_empty() {
        return true;
    }
    word[0] != b'+' && (word[0] != b'0' || word.len() == 1)
}
