// Why a simulation ended early.

use state_facts::Refusal;
use state_ids::BadText;
use std::alloc::{AllocError, AllocFailed};

/// Why a simulation ended early.
#[derive(Debug, Drop)]
pub enum Halt {
    /// Something that has to be so isn't.
    Found(String),
    /// The simulator itself can't go on.
    Stuck(&'static str),
}

impl From<AllocError> for Halt {
    fn from(_: AllocError) -> Halt {
        Halt::Stuck("out of memory")
    }
}

impl<T: Drop> From<AllocFailed<T>> for Halt {
    fn from(_: AllocFailed<T>) -> Halt {
        Halt::Stuck("out of memory")
    }
}

impl From<BadText> for Halt {
    fn from(_: BadText) -> Halt {
        Halt::Stuck("a name is malformed")
    }
}

impl From<Refusal> for Halt {
    fn from(_: Refusal) -> Halt {
        Halt::Stuck("a refusal that can't be")
    }
}
