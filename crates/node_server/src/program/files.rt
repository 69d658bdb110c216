// What a program assumes about the files that it opens.

use sqlite::Start;
use std::fs::File;

/// Nothing is known about what a file held, and a torn write is assumed to leave each byte either
/// old or new. The kit's `Unknown` says the same, but can't be copied. A start is a type, and one
/// serves all files and openings.
#[derive(Clone, Copy, Drop)]
pub struct UnknownFiles;

impl Start for UnknownFiles {
    ghost use Rattle.std.specs.Prelude.{[], true};

    ghost log = { [] };

    ghost db = { [] };

    ghost is_mixing = { true };

    fn mixes() -> bool {
        true
    }
}

/// Opens `/dev/null`, so that no connection gets the number of a standard stream that was closed
/// before the start: otherwise what is written to standard error would go to a client.
pub fn open_null(rt: &HostRuntime) -> Option<File> {
    File::open(rt, "/dev/null").ok()
}
