// The key in its written form.
ghost use Rattle.std.specs.Prelude.{◌≡◌, ◌≤◌, ◌<◌, ℕ, List, MatchOption};
ghost use Rattle.std.specs.Char.{digit_value};
ghost use Rattle.lra_gateway.specs.Keys.{SpellByte, SpellKey};

use wire_narayana::Key;

/// The number of hexadecimal digits of a key.
const DIGITS: usize = 64;

/// Returns the number that a hexadecimal digit stands for.
fn digit_of(byte: u8) -> Option<u8>
    ensures { MatchOption result (16 ≤ digit_value byte) (λ digit. (digit < 16) × (digit ≡ digit_value byte)) }
{
    match byte {
        b'0'..=b'9' => Some(byte - b'0'),
        b'a'..=b'f' => Some(byte - b'a' + 10),
        b'A'..=b'F' => Some(byte - b'A' + 10),
        _ => None,
    }
}

/// Returns the byte that two hexadecimal digits spell.
fn byte_of(high: u8, low: u8) -> Option<u8>
    ensures { MatchOption result ((byte : ℕ) → SpellByte high low byte → ⊥) (λ byte. SpellByte high low byte) }
{
    let Some(high) = digit_of(high) else {
        return None;
    };
    let Some(low) = digit_of(low) else {
        return None;
    };
    Some(high * 16 + low)
}

/// Returns the key that 64 hexadecimal digits spell.
pub fn key_of(text: &str) -> Option<Key>
    ensures { MatchOption result ((key : List ℕ) → SpellKey text.now key → ⊥) (λ key. SpellKey text.now key.bytes) }
{
    let digits = text.as_bytes();
    if digits.len() != DIGITS {
        return None;
    }
    let mut bytes = [0u8; 32];
    for place in 0..32 {
        let Some(byte) = byte_of(digits[2 * place], digits[2 * place + 1]) else {
            return None;
        };
        bytes[place] = byte;
    }
    Some(Key { bytes })
}
