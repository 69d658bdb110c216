// Why a pull returns no delta.
ghost use Rattle.std.specs.Prelude.{Some};
ghost use Rattle.wire_pulls.specs.Errors.{error_text};

use std::fmt;
use wire_http::Fault;

/// Why a pull returns no delta.
#[derive(Clone, Copy, Debug, PartialEq, Eq)]
pub enum PullError {
    /// The request was not written, or no whole response was read. It is also `NotOffered` if the
    /// status is neither 200 nor 421, and `NoMemory` if memory ran out elsewhere in the call.
    Fault(Fault),
    /// E16: the body of the response is not a frame, whatever follows. The place is that of its
    /// first field that isn't whole within the stated length or breaks its rule.
    BadFrame(u64),
    /// The status of the response is 421: another node answered than the one that was asked.
    Misdirected,
}

impl fmt::Display for PullError {
    ghost output = { λ error. Some (error_text error) };

    fn fmt<W: fmt::Write>(&self, f: &mut fmt::Formatter<W>) -> fmt::Result {
        match *self {
            PullError::Fault(fault) => f.write_str(fault.name()),
            PullError::BadFrame(place) => write!(f, "E16 BadFrame {place}"),
            PullError::Misdirected => f.write_str("Misdirected"),
        }
    }
}
