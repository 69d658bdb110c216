// How hosts answer.

/// How a host answered its last call. The call counts as heard if the answer counted for something;
/// otherwise it failed.
#[derive(Clone, Copy, Debug, PartialEq, Eq)]
pub enum Pace {
    /// No call to it is over yet.
    Unknown,
    /// The call was heard quickly.
    Quick,
    /// The call was heard slowly.
    Slow,
    /// The call failed quickly.
    Refusing,
    /// The call failed slowly.
    Hanging,
}
