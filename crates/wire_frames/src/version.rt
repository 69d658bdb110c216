// Versions of frames.
ghost use Rattle.std.specs.Prelude.{◌≡◌};
ghost use Rattle.wire_frames.specs.Versions.{version_mark};

/// A version of frames and of the records in them. Version 1 has no link for the end of an LRA, and
/// a record in version 1 means that there is none.
#[derive(Clone, Copy, Debug, PartialEq, Eq)]
pub enum Version {
    One,
    Two,
}

impl Version {
    /// Returns the version's number in a frame.
    pub fn number(self) -> u8
        ensures { result ≡ version_mark self }
    {
        match self {
            Version::One => 1,
            Version::Two => 2,
        }
    }
}
