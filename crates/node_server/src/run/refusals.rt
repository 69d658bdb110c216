// Which refusals end a run.
ghost use Rattle.std.specs.Prelude.{◌≡◌};
ghost use Rattle.node_server.specs.Ending.{met, reason_of};

use node_sockets::StopReason;
use state_facts::Refusal;

/// Returns the reason of a run that ends because a call met this refusal.
pub fn stop_reason_of(refusal: Refusal) -> StopReason
    ensures { result ≡ reason_of refusal }
{
    match refusal {
        Refusal::JournalFailed => StopReason::JournalFailed,
        Refusal::Stopped => StopReason::Stopped,
        Refusal::TrailLost(number) => StopReason::TrailLost(number),
        _ => StopReason::RunFull,
    }
}

/// Returns the refusal that a call met, if a run ended because of one.
pub fn refusal_of(reason: StopReason) -> Option<Refusal>
    ensures { result ≡ met reason }
{
    match reason {
        StopReason::JournalFailed => Some(Refusal::JournalFailed),
        StopReason::Stopped => Some(Refusal::Stopped),
        StopReason::RunFull => Some(Refusal::RunFull),
        StopReason::TrailLost(number) => Some(Refusal::TrailLost(number)),
        StopReason::Program | StopReason::Full | StopReason::Starved => None,
    }
}
