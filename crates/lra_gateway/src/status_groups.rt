// Groups of statuses, by which services ask for LRAs.
ghost use Rattle.std.specs.Prelude.{◌≡◌};
ghost use Rattle.lra_gateway.specs.StatusGroups.{goes_so, is_cancelled, is_closed, is_failed, is_recovering, is_to_end};

use state_ids::LraStatus;

/// Whether an LRA is on its way to its end.
pub fn is_to_end(status: LraStatus) -> bool
    ensures { result ≡ is_to_end status }
{
    matches!(status, LraStatus::Closing | LraStatus::Cancelling)
}

/// Whether an LRA failed to close or to cancel.
pub fn is_failed(status: LraStatus) -> bool
    ensures { result ≡ is_failed status }
{
    matches!(status, LraStatus::FailedToClose | LraStatus::FailedToCancel)
}

/// Whether the interface calls an LRA recovering: it is on its way to its end, or failed there.
pub fn is_recovering(status: LraStatus) -> bool
    ensures { result ≡ is_recovering status }
{
    is_to_end(status) || is_failed(status)
}

fn is_closed(status: LraStatus) -> bool
    ensures { result ≡ is_closed status }
{
    matches!(
        status,
        LraStatus::Closing | LraStatus::Closed | LraStatus::FailedToClose
    )
}

fn is_cancelled(status: LraStatus) -> bool
    ensures { result ≡ is_cancelled status }
{
    matches!(
        status,
        LraStatus::Cancelling | LraStatus::Cancelled | LraStatus::FailedToCancel
    )
}

/// Whether an LRA goes the way that a close, or a cancel, asks for.
pub fn goes_so(closes: bool, status: LraStatus) -> bool
    ensures { result ≡ goes_so closes status }
{
    if closes {
        is_closed(status)
    } else {
        is_cancelled(status)
    }
}
