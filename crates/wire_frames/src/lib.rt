//! Frames, which carry what a node sends another that has the facts counted by a base: their value,
//! their bytes, and what happens when one is taken.
#![tactic(auto)]

mod buffer;
mod clones;
mod count;
mod decoding;
mod delta;
mod fields;
mod frame_encoding;
mod frame_fields;
mod input;
pub mod laws;
mod links_read;
mod marks;
mod one_record;
mod order;
mod output;
mod preparing;
mod reading;
mod record_encoding;
mod record_fields;
mod sameness;
mod scan;
mod since;
mod size;
mod slice;
mod stream;
mod version;
mod writing;

pub use buffer::Buffer;
pub use count::ByteCount;
pub use delta::Delta;
pub use frame_encoding::{encode, encode_v1, put_frame};
pub use input::{Input, Stop};
pub use links_read::LinksRead;
pub use one_record::{decode_record, decode_record_with, encode_record};
pub use output::Output;
pub use preparing::prepare;
pub use slice::Slice;
pub use version::Version;
