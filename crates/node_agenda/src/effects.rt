// The effects of a call at the desk, which the threads go on with.

use node_schedule::Called;
use state_ids::LraId;

/// Whether other participants may be due after a call.
#[derive(Clone, Copy, Debug, PartialEq, Eq)]
pub enum NewlyDue {
    /// No participant is due that wasn't before.
    Nobody,
    /// One may be due if it was the last to complete: a completion was reported.
    OfCompletion,
    /// Some may be due.
    Others,
}

/// What a call changed of an LRA.
#[derive(Clone, Copy, Debug, PartialEq, Eq)]
pub enum Became {
    /// Nothing that matters here.
    Nothing,
    /// An LRA was begun.
    Begun,
    /// An LRA couldn't be begun, because the home was full.
    Full,
    /// An LRA may have ended.
    Ended,
    /// An LRA was purged, with those that are nested in it.
    Removed,
}

/// The effects of a call at the desk, which the threads go on with.
#[derive(Clone, Copy)]
pub struct Effects {
    pub news: NewlyDue,
    pub became: Became,
    /// The LRA of which a participant was notified as it was to be, or is said to have been.
    pub freed: Option<LraId>,
    /// The participant that reported its outcome, or whose outcome was reported: a list of duties
    /// that was asked for earlier doesn't call it.
    pub heard: Option<Called>,
    /// Whether a frame was taken: a participant of any LRA may have been notified.
    pub took: bool,
}
