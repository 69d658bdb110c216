// The length of an encoding, if it fits a number of 64 bits.
ghost use Rattle.std.specs.Prelude.{◌≡◌, ◌≤◌, ◌^◌, length, IfNone, IfSome};
ghost use Rattle.wire_frames.specs.Encoding.{body, encoding};
ghost use Rattle.wire_frames.specs.declared.version.Version.TheVariants.{Two};

use crate::Delta;
use crate::count::ByteCount;
use crate::frame_encoding::put_body;
use crate::version::Version;

/// Returns how many bytes a frame of version 2 has after its length, if that fits a number of 64
/// bits.
fn body_size(delta: &Delta) -> Option<u64>
    ensures some { IfSome result (λ n. n ≡ length (body Two delta.now)) }
    ensures none { IfNone result (2 ^ 64 ≤ length (body Two delta.now)) }
{
    let mut count = ByteCount::new();
    put_body(&mut count, Version::Two, delta);
    count.exact()
}

impl Delta {
    /// Returns the length of this delta's encoding in version 2, or `None` if that doesn't fit a
    /// number of 64 bits. It takes no memory.
    pub fn length(&self) -> Option<u64>
        ensures some { IfSome result (λ n. n ≡ length (encoding self.now)) }
        ensures none { IfNone result (2 ^ 64 ≤ length (encoding self.now)) }
    {
        match body_size(self) {
            Some(size) => size.checked_add(9),
            None => None,
        }
    }
}
