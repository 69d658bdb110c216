// The call that operators want: one at a time, by number.
ghost use Rattle.std.specs.Prelude.{◌≡◌, is_some};
ghost use Rattle.node_server.specs.Errands.{after_answer, after_give_up, after_hand_back, asked_by, end_of, is_awaited, nothing, numbered, taken};

use std::marker::Model;

/// A call that is wanted, and its number.
#[derive(Drop)]
pub(crate) struct Numbered<W: Drop> {
    pub(crate) number: u64,
    pub(crate) wanted: W,
}

/// How the wait for a call ends.
#[derive(Drop)]
pub(crate) enum ErrandEnd<A: Drop> {
    /// It was made meanwhile.
    Answered(A),
    /// It was withdrawn before anybody took it.
    Withdrawn,
    /// It was taken, so nobody knows whether it is made.
    Unknown,
}

/// The call that operators want: `W` is the call, and `A` what it results in. They want one at a time,
/// and wait for the last alone.
#[derive(Drop)]
pub(crate) struct Errand<W: Drop, A: Drop> {
    /// The number of the last call that was wanted.
    number: u64,
    wanted: Option<W>,
    /// Whether nobody waits for it any more.
    is_given_up: bool,
    answer: Option<A>,
}

impl<W: Drop, A: Drop> Model for Errand<W, A> {
    ghost use Rattle.node_server.specs.Errands.{Asked};

    ghost Value = { Asked W A };

    ghost view = { λ e. record {
      number = e.number;
      wanted = e.wanted;
      is_given_up = e.is_given_up;
      answer = e.answer;
    } };
}

impl<W: Drop, A: Drop> Errand<W, A> {
    /// Makes the state in which nothing was wanted.
    pub(crate) fn new() -> Errand<W, A>
        ensures { result ≡ nothing }
    {
        Errand {
            number: 0,
            wanted: None,
            is_given_up: false,
            answer: None,
        }
    }

    /// Records that a call is wanted, under the next number. What was wanted before is no longer.
    pub(crate) fn want(&mut self, wanted: W)
        ensures { self.new ≡ asked_by wanted self.old }
    {
        self.number = self.number.saturating_add(1);
        self.answer = None;
        self.is_given_up = false;
        self.wanted = Some(wanted);
    }

    /// Returns the call that is wanted and that nobody took yet.
    pub(crate) fn wanted(&self) -> &Option<W>
        ensures { result.now ≡ self.now.wanted }
    {
        &self.wanted
    }

    /// Takes the call that is wanted, to make it. Each is taken at most once.
    pub(crate) fn take(&mut self) -> Option<Numbered<W>>
        ensures result { result ≡ numbered self.old }
        ensures taken { self.new ≡ taken self.old }
    {
        let wanted = self.wanted.take()?;
        Some(Numbered {
            number: self.number,
            wanted,
        })
    }

    /// Hands back what the call with this number resulted in. Returns whether somebody still waits for
    /// it: otherwise another is wanted by now, or it was given up.
    pub(crate) fn hand_back(&mut self, number: u64, answer: A) -> bool
        ensures awaited { result ≡ is_awaited number self.old }
        ensures handed { self.new ≡ after_hand_back number answer self.old }
    {
        if number != self.number || self.is_given_up {
            return false;
        }
        self.answer = Some(answer);
        true
    }

    /// Whether the last call that was wanted was made.
    pub(crate) fn is_answered(&self) -> bool
        ensures { result ≡ is_some self.now.answer }
    {
        self.answer.is_some()
    }

    /// Takes what the last call that was wanted resulted in, if it was made.
    pub(crate) fn answer(&mut self) -> Option<A>
        ensures answer { result ≡ self.old.answer }
        ensures taken { self.new ≡ after_answer self.old }
    {
        self.answer.take()
    }

    /// Ends the wait for the last call that was wanted. `is_back` says that its turn hadn't come, so it
    /// isn't made any more.
    pub(crate) fn give_up(&mut self, is_back: bool) -> ErrandEnd<A>
        ensures end { result ≡ end_of is_back self.old }
        ensures given_up { self.new ≡ after_give_up is_back self.old }
    {
        if let Some(answer) = self.answer.take() {
            return ErrandEnd::Answered(answer);
        }
        if is_back {
            self.wanted = None;
            return ErrandEnd::Withdrawn;
        }
        self.is_given_up = true;
        ErrandEnd::Unknown
    }
}
