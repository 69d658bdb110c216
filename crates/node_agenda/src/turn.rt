// Decides which kind of task has its turn.
ghost use Rattle.std.specs.Prelude.{◌≡◌};
ghost use Rattle.node_agenda.specs.Tasks.{after};

/// How many kinds of tasks there are.
pub(crate) const KINDS: u8 = 7;

/// The kinds of tasks, by which the last turn is remembered.
#[derive(Clone, Copy, PartialEq, Eq)]
pub(crate) enum Turn {
    OfDeadlines,
    OfCount,
    OfLetters,
    OfTelling,
    OfDuties,
    OfChores,
    OfErrand,
}

impl Turn {
    /// Returns the kind whose turn comes after this one's.
    pub(crate) fn next(self) -> Turn
        ensures { result ≡ after self }
    {
        match self {
            Turn::OfDeadlines => Turn::OfCount,
            Turn::OfCount => Turn::OfLetters,
            Turn::OfLetters => Turn::OfTelling,
            Turn::OfTelling => Turn::OfDuties,
            Turn::OfDuties => Turn::OfChores,
            Turn::OfChores => Turn::OfErrand,
            Turn::OfErrand => Turn::OfDeadlines,
        }
    }
}
