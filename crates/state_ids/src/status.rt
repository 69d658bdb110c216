// The statuses of LRAs and participants, with the names that MicroProfile LRA 2.0 gives them.
ghost use Rattle.std.specs.Prelude.{◌≡◌, ◌≢◌, Some, IfErr, IfOk};
ghost use Rattle.state_ids.specs.declared.status.LraStatus.{LraStatus};
ghost use Rattle.state_ids.specs.declared.status.MemberStatus.{MemberStatus};
ghost use Rattle.state_ids.specs.Names.{lra_name, member_name};
ghost use Rattle.state_ids.specs.States.{rank};

use crate::BadText;
use std::fmt;

/// The status of an LRA (MicroProfile LRA 2.0, `LRAStatus`).
#[derive(Clone, Copy, Debug, PartialEq, Eq)]
pub enum LraStatus {
    Active,
    Closing,
    Closed,
    FailedToClose,
    Cancelling,
    Cancelled,
    FailedToCancel,
}

impl LraStatus {
    /// Returns the status's place in the order in which an LRA's statuses follow each other: from 0
    /// for Active to 6 for FailedToCancel.
    pub fn rank(self) -> u8
        ensures { result ≡ rank self }
    {
        match self {
            LraStatus::Active => 0,
            LraStatus::Closing => 1,
            LraStatus::Closed => 2,
            LraStatus::FailedToClose => 3,
            LraStatus::Cancelling => 4,
            LraStatus::Cancelled => 5,
            LraStatus::FailedToCancel => 6,
        }
    }

    /// Returns the standard's name of this status.
    pub fn name(self) -> &'static str
        ensures { result.now ≡ lra_name self }
    {
        match self {
            LraStatus::Active => "Active",
            LraStatus::Closing => "Closing",
            LraStatus::Closed => "Closed",
            LraStatus::FailedToClose => "FailedToClose",
            LraStatus::Cancelling => "Cancelling",
            LraStatus::Cancelled => "Cancelled",
            LraStatus::FailedToCancel => "FailedToCancel",
        }
    }

    /// Returns the LRA status with this name. Any other text is refused.
    pub fn from_name(name: &str) -> Result<LraStatus, BadText>
        ensures found { IfOk result (λ status. name.now ≡ lra_name status) }
        ensures refused { IfErr result (λ _. (status : LraStatus) → name.now ≢ lra_name status) }
    {
        match name {
            "Active" => Ok(LraStatus::Active),
            "Closing" => Ok(LraStatus::Closing),
            "Closed" => Ok(LraStatus::Closed),
            "FailedToClose" => Ok(LraStatus::FailedToClose),
            "Cancelling" => Ok(LraStatus::Cancelling),
            "Cancelled" => Ok(LraStatus::Cancelled),
            "FailedToCancel" => Ok(LraStatus::FailedToCancel),
            _ => Err(BadText),
        }
    }
}

impl fmt::Display for LraStatus {
    ghost output = { λ status. Some (lra_name status) };

    fn fmt<W: fmt::Write>(&self, f: &mut fmt::Formatter<W>) -> fmt::Result {
        f.write_str(self.name())
    }
}

/// The status of a participant (MicroProfile LRA 2.0, `ParticipantStatus`).
#[derive(Clone, Copy, Debug, PartialEq, Eq)]
pub enum MemberStatus {
    Active,
    Completing,
    Completed,
    FailedToComplete,
    Compensating,
    Compensated,
    FailedToCompensate,
}

impl MemberStatus {
    /// Returns the standard's name of this status.
    pub fn name(self) -> &'static str
        ensures { result.now ≡ member_name self }
    {
        match self {
            MemberStatus::Active => "Active",
            MemberStatus::Completing => "Completing",
            MemberStatus::Completed => "Completed",
            MemberStatus::FailedToComplete => "FailedToComplete",
            MemberStatus::Compensating => "Compensating",
            MemberStatus::Compensated => "Compensated",
            MemberStatus::FailedToCompensate => "FailedToCompensate",
        }
    }

    /// Returns the participant status with this name. Any other text is refused.
    pub fn from_name(name: &str) -> Result<MemberStatus, BadText>
        ensures found { IfOk result (λ status. name.now ≡ member_name status) }
        ensures refused { IfErr result (λ _. (status : MemberStatus) →
            name.now ≢ member_name status) }
    {
        match name {
            "Active" => Ok(MemberStatus::Active),
            "Completing" => Ok(MemberStatus::Completing),
            "Completed" => Ok(MemberStatus::Completed),
            "FailedToComplete" => Ok(MemberStatus::FailedToComplete),
            "Compensating" => Ok(MemberStatus::Compensating),
            "Compensated" => Ok(MemberStatus::Compensated),
            "FailedToCompensate" => Ok(MemberStatus::FailedToCompensate),
            _ => Err(BadText),
        }
    }
}

impl fmt::Display for MemberStatus {
    ghost output = { λ status. Some (member_name status) };

    fn fmt<W: fmt::Write>(&self, f: &mut fmt::Formatter<W>) -> fmt::Result {
        f.write_str(self.name())
    }
}
