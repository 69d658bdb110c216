// Decoding frames from bytes.
ghost use Rattle.std.specs.Prelude.{◌≡◌, Ok, IfOk};
ghost use Rattle.wire_frames.specs.Answer.{Decodes};
ghost use Rattle.wire_frames.specs.Frames.{Frame};
ghost use Rattle.wire_frames.specs.Reading.{frame_in};
ghost use Rattle.wire_frames.specs.Rules.{IsDeltaAs};
ghost use Rattle.wire_frames.specs.Encoding.{encoding_as};
ghost use Rattle.wire_frames.specs.declared.version.Version.{Version};

use crate::Delta;
use crate::frame_fields::frame_of;
use crate::input::Stop;
use crate::slice::Slice;
use state_facts::Refusal;
use std::alloc::Global;

/// Returns the frame that all of the bytes encode.
fn frame_in_slice(alloc: Global, bytes: &[u8]) -> Result<Delta, Refusal>
    ensures { Decodes result (frame_in bytes.now) }
{
    let mut input = Slice::new(bytes);
    match frame_of(alloc, &mut input) {
        Ok(delta) => Ok(delta),
        Err(Stop::Fault(place)) => Err(Refusal::BadFrame(place)),
        Err(Stop::Cut) => unreachable!(),
        Err(Stop::ReadFault) => unreachable!(),
        Err(Stop::Memory) => Err(Refusal::NoMemory),
    }
}

impl Delta {
    /// Decodes all of the bytes as a frame of version 1 or 2. E16 at the place of the first field
    /// that isn't whole or breaks its rule.
    pub fn decode(alloc: Global, bytes: &[u8]) -> Result<Delta, Refusal>
        // The exact place.
        ensures exact { Decodes result (frame_in bytes.now) }
        // What is read keeps the rules and has this encoding.
        ensures found { IfOk result (λ delta. (version : Version)
            × IsDeltaAs version delta × (bytes.now ≡ encoding_as version delta)) }
        // What has this encoding is read, unless memory runs out.
        ensures only { (version : Version) (frame : Frame) → IsDeltaAs version frame →
            bytes.now ≡ encoding_as version frame → Decodes result (Ok frame) }
    {
        frame_in_slice(alloc, bytes)
    }
}
