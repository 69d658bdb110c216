// The reasons why a message wasn't read whole.

use std::alloc::{AllocError, AllocFailed};

/// Why a message wasn't read whole.
#[derive(Clone, Copy, PartialEq, Eq, Debug)]
pub enum Broken {
    /// It was cut off, is malformed, or is too long.
    Bad,
    NoMemory,
}

impl From<AllocError> for Broken {
    ghost use Rattle.std.specs.Prelude.{⊤};

    ghost from_gives = { λ _ _. ⊤ };

    fn from(_: AllocError) -> Broken {
        Broken::NoMemory
    }
}

impl<T: Drop> From<AllocFailed<T>> for Broken {
    ghost use Rattle.std.specs.Prelude.{⊤};

    ghost from_gives = { λ _ _. ⊤ };

    fn from(_: AllocFailed<T>) -> Broken {
        Broken::NoMemory
    }
}

impl From<wire_http::ReadFault> for Broken {
    ghost use Rattle.std.specs.Prelude.{⊤};

    ghost from_gives = { λ _ _. ⊤ };

    fn from(_: wire_http::ReadFault) -> Broken {
        Broken::Bad
    }
}
