// Which build of the program runs.
ghost use Rattle.std.specs.Prelude.{◌≡◌, IfOk, string_bytes};

use std::alloc::{AllocError, Global};

/// Which build of the program runs: the version of its release, the commit that it was made from,
/// and the kit that proved it. (It owns its texts: the borrow checker doesn't cover the threads of
/// a run if what they share names `'static`.)
#[derive(Drop)]
pub struct Build {
    pub version: String,
    pub commit: String,
    pub kit: String,
}

impl Build {
    /// Makes the description of a build from these texts.
    pub fn said(alloc: Global, version: &str, commit: &str, kit: &str) -> Result<Build, AllocError>
        ensures { IfOk result (λ build. (string_bytes build.version ≡ version.now)
            × (string_bytes build.commit ≡ commit.now) × (string_bytes build.kit ≡ kit.now)) }
    {
        Ok(Build {
            version: String::from_str(alloc, version)?,
            commit: String::from_str(alloc, commit)?,
            kit: String::from_str(alloc, kit)?,
        })
    }

    /// Copies it for another node.
    pub fn copied(&self, alloc: Global) -> Result<Build, AllocError>
        ensures { IfOk result (λ build. (string_bytes build.version ≡ string_bytes self.now.version)
            × (string_bytes build.commit ≡ string_bytes self.now.commit)
            × (string_bytes build.kit ≡ string_bytes self.now.kit)) }
    {
        Build::said(
            alloc,
            self.version.as_str(),
            self.commit.as_str(),
            self.kit.as_str(),
        )
    }
}
