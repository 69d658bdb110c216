// How much of a run is used up.
ghost use Rattle.std.specs.Prelude.{◌≡◌};
ghost use Rattle.node_core.specs.Tallies.{begun, counted, failed, is_spent, unused};

use std::marker::Model;

/// Counts the calls of a run, and those that moved a frame.
#[derive(Drop)]
pub struct RunTally {
    max_calls: u64,
    max_moves: u64,
    calls: u64,
    moves: u64,
    has_stored: bool,
    has_failed: bool,
}

impl Model for RunTally {
    ghost use Rattle.node_core.specs.Tallies.{Tally};

    ghost Value = { Tally };

    ghost view = { λ t. record {
      max_calls = t.max_calls;
      max_moves = t.max_moves;
      calls = t.calls;
      moves = t.moves;
      has_stored = t.has_stored;
      has_failed = t.has_failed;
    } };
}

impl RunTally {
    /// Makes the tally of runs that end early, after this many calls or this many moves of a frame.
    pub fn new(max_calls: u64, max_moves: u64) -> RunTally
        ensures { result ≡ unused max_calls max_moves }
    {
        RunTally {
            max_calls,
            max_moves,
            calls: 0,
            moves: 0,
            has_stored: false,
            has_failed: false,
        }
    }

    /// Begins a run. Whether the journal failed outlives runs.
    pub fn begin(&mut self)
        ensures { self.new ≡ begun self.old }
    {
        self.calls = 0;
        self.moves = 0;
        self.has_stored = false;
    }

    /// Counts a call that was recorded, as `calls` calls: whether it moved a frame, and whether a
    /// fact was stored.
    pub fn count(&mut self, calls: u64, is_move: bool, is_stored: bool)
        ensures { self.new ≡ counted calls is_move is_stored self.old }
    {
        self.calls = self.calls.saturating_add(calls);
        self.moves = self.moves.saturating_add(u64::from(is_move));
        self.has_stored = self.has_stored || is_stored;
        self.has_failed = self.has_failed && !is_stored;
    }

    /// Records that the journal failed.
    pub fn note_failure(&mut self)
        ensures { self.new ≡ failed self.old }
    {
        self.has_failed = true;
    }

    /// Whether the journal failed since a fact was last stored.
    pub fn has_failed(&self) -> bool
        ensures { result ≡ self.now.has_failed }
    {
        self.has_failed
    }

    /// Whether the run is to end now, so that no client runs into its end.
    pub fn is_spent(&self) -> bool
        ensures { result ≡ is_spent self.now }
    {
        self.calls >= self.max_calls || self.moves >= self.max_moves
    }

    /// Whether a fact was stored in this run.
    pub fn has_stored(&self) -> bool
        ensures { result ≡ self.now.has_stored }
    {
        self.has_stored
    }
}
