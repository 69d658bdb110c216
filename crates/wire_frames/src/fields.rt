// Reading the numbers of a frame.
ghost use Rattle.std.specs.Prelude.{◌≡◌, ◌+◌, length, IfOk};
ghost use Rattle.std.specs.Int.{w8, w16, w32, w64};
ghost use Rattle.wire_frames.specs.FrameFields.{whole_at};
ghost use Rattle.wire_frames.specs.Seen.{Reads};

use crate::input::{Input, Stop};

/// Reads a number of one byte.
pub fn byte<I: Input>(input: &mut I) -> Result<u8, Stop>
    ensures gives { Reads (I.seen input.old) (I.seen input.new) (λ x. x) result (whole_at w8) }
    ensures took { IfOk result
        (λ _. length (I.seen input.new).taken ≡ length (I.seen input.old).taken + 1) }
{
    let mut buffer = [0u8; 1];
    let place = input.place();
    input.fill(place, &mut buffer)?;
    Ok(u8::from_be_bytes(buffer))
}

/// Reads a number of two bytes.
pub fn two_bytes<I: Input>(input: &mut I) -> Result<u16, Stop>
    ensures gives { Reads (I.seen input.old) (I.seen input.new) (λ x. x) result (whole_at w16) }
    ensures took { IfOk result
        (λ _. length (I.seen input.new).taken ≡ length (I.seen input.old).taken + 2) }
{
    let mut buffer = [0u8; 2];
    let place = input.place();
    input.fill(place, &mut buffer)?;
    Ok(u16::from_be_bytes(buffer))
}

/// Reads a number of four bytes.
pub fn four_bytes<I: Input>(input: &mut I) -> Result<u32, Stop>
    ensures gives { Reads (I.seen input.old) (I.seen input.new) (λ x. x) result (whole_at w32) }
    ensures took { IfOk result
        (λ _. length (I.seen input.new).taken ≡ length (I.seen input.old).taken + 4) }
{
    let mut buffer = [0u8; 4];
    let place = input.place();
    input.fill(place, &mut buffer)?;
    Ok(u32::from_be_bytes(buffer))
}

/// Reads a number of eight bytes.
pub fn number<I: Input>(input: &mut I) -> Result<u64, Stop>
    ensures gives { Reads (I.seen input.old) (I.seen input.new) (λ x. x) result (whole_at w64) }
    ensures took { IfOk result
        (λ _. length (I.seen input.new).taken ≡ length (I.seen input.old).taken + 8) }
{
    let mut buffer = [0u8; 8];
    let place = input.place();
    input.fill(place, &mut buffer)?;
    Ok(u64::from_be_bytes(buffer))
}
