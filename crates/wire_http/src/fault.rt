// Why a message was not read or not written.
ghost use Rattle.std.specs.Prelude.{◌≡◌, Some};
ghost use Rattle.wire_http.specs.Faults.{fault_name};
ghost use Rattle.wire_http.specs.declared.fault.Fault.TheVariants.{NoMemory, ReadFault, WriteFault};

use std::alloc::{AllocError, AllocFailed};
use std::fmt;

/// Why a message was not read or not written.
#[derive(Clone, Copy, Debug, PartialEq, Eq)]
pub enum Fault {
    /// The input ended before the message did.
    Cut,
    /// A read failed, or 1,024 reads were interrupted.
    ReadFault,
    /// A write failed, or 1,024 writes were interrupted.
    WriteFault,
    /// The head, or all heads of a response together, has more than 16,384 bytes or 64 field lines.
    HeadTooLong,
    /// The stated length of the body is over the limit.
    BodyTooLong,
    /// The bytes are not a head, or its fields contradict one another.
    BadHead,
    /// A response doesn't say how long its body is.
    LengthNeeded,
    /// The body has a transfer coding.
    NotOffered,
    /// Memory was refused.
    NoMemory,
}

impl Fault {
    /// Returns the fault's name, which is its text in a refusal.
    pub fn name(self) -> &'static str
        ensures { result.now ≡ fault_name self }
    {
        match self {
            Fault::Cut => "Cut",
            Fault::ReadFault => "ReadFault",
            Fault::WriteFault => "WriteFault",
            Fault::HeadTooLong => "HeadTooLong",
            Fault::BodyTooLong => "BodyTooLong",
            Fault::BadHead => "BadHead",
            Fault::LengthNeeded => "LengthNeeded",
            Fault::NotOffered => "NotOffered",
            Fault::NoMemory => "NoMemory",
        }
    }
}

impl fmt::Display for Fault {
    ghost output = { λ fault. Some (fault_name fault) };

    fn fmt<W: fmt::Write>(&self, f: &mut fmt::Formatter<W>) -> fmt::Result {
        f.write_str(self.name())
    }
}

impl<T: Drop> From<AllocFailed<T>> for Fault {
    ghost from_gives = { λ _ e. e ≡ NoMemory };

    fn from(_: AllocFailed<T>) -> Fault {
        Fault::NoMemory
    }
}

impl From<AllocError> for Fault {
    ghost from_gives = { λ _ e. e ≡ NoMemory };

    fn from(_: AllocError) -> Fault {
        Fault::NoMemory
    }
}

impl From<crate::ReadFault> for Fault {
    ghost from_gives = { λ _ e. e ≡ ReadFault };

    fn from(_: crate::ReadFault) -> Fault {
        Fault::ReadFault
    }
}

impl From<crate::WriteFault> for Fault {
    ghost from_gives = { λ _ e. e ≡ WriteFault };

    fn from(_: crate::WriteFault) -> Fault {
        Fault::WriteFault
    }
}
