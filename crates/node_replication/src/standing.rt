// The standing of an answer or a list that waits.

/// The standing of an answer, or of a list of duties, that waits until other nodes have what it may
/// show.
#[derive(Clone, Copy, Debug, PartialEq, Eq)]
pub enum Standing {
    /// The other nodes have it.
    Copied,
    /// They don't, and it waits no longer.
    Late,
    /// It goes on waiting.
    Waits,
}

/// What is done with a held pull.
#[derive(Clone, Copy, Debug, PartialEq, Eq)]
pub enum PullDecision {
    /// It is served now.
    Serve,
    /// There is news for its asker, which got a frame just now: it is served within 50 ms.
    Soon,
    /// It waits for news.
    Later,
}

/// What happens to participants that wait to be called.
#[derive(Clone, Copy, Debug, PartialEq, Eq)]
pub enum CallbackFate {
    /// They go on waiting, or none wait.
    OnHold,
    /// They go on waiting, and their list is too old from now on: they are late, and calls are
    /// strict.
    Outdated,
    /// The participants on their list are called. `asks_again` says whether a new list is asked for
    /// too.
    Called { asks_again: bool },
    /// Their list is too old: a new one is asked for.
    Asked,
}
