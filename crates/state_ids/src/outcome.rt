// Acts that a participant is asked for, outcomes that it reports, and verdicts on an LRA.
ghost use Rattle.std.specs.Prelude.{◌≡◌, ◌≢◌, Some, IfErr, IfOk, nat_le};
ghost use Rattle.state_ids.specs.declared.outcome.Act.{Act};
ghost use Rattle.state_ids.specs.declared.outcome.Outcome.{Outcome};
ghost use Rattle.state_ids.specs.declared.outcome.Verdict.{Verdict};
ghost use Rattle.state_ids.specs.Names.{act_name, outcome_name, verdict_name};
ghost use Rattle.state_ids.specs.States.{greater, level};

use crate::BadText;
use std::fmt;

/// An act that a participant is asked for: to complete if its LRA is closed, or to compensate if it
/// is cancelled.
#[derive(Clone, Copy, Debug, PartialEq, Eq)]
pub enum Act {
    Complete,
    Compensate,
}

impl Act {
    /// Returns the act's word in commands and requests.
    pub fn name(self) -> &'static str
        ensures { result.now ≡ act_name self }
    {
        match self {
            Act::Complete => "complete",
            Act::Compensate => "compensate",
        }
    }

    /// Returns the act with this name. Any other text is refused.
    pub fn from_name(name: &str) -> Result<Act, BadText>
        ensures found { IfOk result (λ act. name.now ≡ act_name act) }
        ensures refused { IfErr result (λ _. (act : Act) → name.now ≢ act_name act) }
    {
        match name {
            "complete" => Ok(Act::Complete),
            "compensate" => Ok(Act::Compensate),
            _ => Err(BadText),
        }
    }
}

impl fmt::Display for Act {
    ghost output = { λ act. Some (act_name act) };

    fn fmt<W: fmt::Write>(&self, f: &mut fmt::Formatter<W>) -> fmt::Result {
        f.write_str(self.name())
    }
}

/// The reported outcome of an act. Of several outcomes the greatest is shown, in the order Busy,
/// Done, Failed.
#[derive(Clone, Copy, Debug, PartialEq, Eq, PartialOrd, Ord)]
pub enum Outcome {
    Busy,
    Done,
    Failed,
}

impl Outcome {
    /// Returns the outcome's word in commands and requests.
    pub fn name(self) -> &'static str
        ensures { result.now ≡ outcome_name self }
    {
        match self {
            Outcome::Busy => "busy",
            Outcome::Done => "done",
            Outcome::Failed => "failed",
        }
    }

    /// Returns the greater of two outcomes. `None` is the least.
    pub fn or_greater(own: Option<Outcome>, heard: Option<Outcome>) -> Option<Outcome>
        ensures { result ≡ greater own heard }
    {
        match (own, heard) {
            (own, None) => own,
            (Some(Outcome::Failed), _) => own,
            (Some(Outcome::Done), Some(Outcome::Busy | Outcome::Done)) => own,
            (_, heard) => heard,
        }
    }

    /// Whether this outcome is equal to the other or greater.
    pub fn is_at_least(self, other: Outcome) -> bool
        ensures { result ≡ nat_le (level (Some other)) (level (Some self)) }
    {
        other <= self
    }

    /// Returns the outcome with this name. Any other text is refused.
    pub fn from_name(name: &str) -> Result<Outcome, BadText>
        ensures found { IfOk result (λ outcome. name.now ≡ outcome_name outcome) }
        ensures refused { IfErr result (λ _. (outcome : Outcome) →
            name.now ≢ outcome_name outcome) }
    {
        match name {
            "busy" => Ok(Outcome::Busy),
            "done" => Ok(Outcome::Done),
            "failed" => Ok(Outcome::Failed),
            _ => Err(BadText),
        }
    }
}

impl fmt::Display for Outcome {
    ghost output = { λ outcome. Some (outcome_name outcome) };

    fn fmt<W: fmt::Write>(&self, f: &mut fmt::Formatter<W>) -> fmt::Result {
        f.write_str(self.name())
    }
}

/// The decision on an LRA.
#[derive(Clone, Copy, Debug, PartialEq, Eq)]
pub enum Verdict {
    Close,
    Cancel,
}

impl Verdict {
    /// Returns the verdict's word in commands and requests.
    pub fn name(self) -> &'static str
        ensures { result.now ≡ verdict_name self }
    {
        match self {
            Verdict::Close => "close",
            Verdict::Cancel => "cancel",
        }
    }

    /// Returns the verdict with this name. Any other text is refused.
    pub fn from_name(name: &str) -> Result<Verdict, BadText>
        ensures found { IfOk result (λ verdict. name.now ≡ verdict_name verdict) }
        ensures refused { IfErr result (λ _. (verdict : Verdict) →
            name.now ≢ verdict_name verdict) }
    {
        match name {
            "close" => Ok(Verdict::Close),
            "cancel" => Ok(Verdict::Cancel),
            _ => Err(BadText),
        }
    }
}

impl fmt::Display for Verdict {
    ghost output = { λ verdict. Some (verdict_name verdict) };

    fn fmt<W: fmt::Write>(&self, f: &mut fmt::Formatter<W>) -> fmt::Result {
        f.write_str(self.name())
    }
}
