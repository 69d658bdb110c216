// How many facts of each node this one has at least.
ghost use Rattle.state_ids.specs.declared.TheConstants.{MAX_NODES};
ghost use Rattle.std.specs.Prelude.{◌≡◌, ◌≤◌, ◌&&◌, false, replicate};
ghost use Rattle.node_agenda.specs.Moments.{IsAfter, is_by};
ghost use Rattle.node_agenda.specs.Mail.{learnt};
ghost use Rattle.node_schedule.specs.Slips.{at_once};

use state_ids::Front;
use std::time::Duration;

/// How often, at most, the journal is asked how many facts the node has, in milliseconds.
const COUNT_MS: u64 = 50;

/// How many facts of each node this one has at least, and whether that is to be asked.
#[derive(Drop)]
pub(crate) struct KnownFronts {
    pub(crate) front: Front,
    /// Whether it is known how many facts of its own the node had at some moment since its start.
    pub(crate) is_counted: bool,
    /// Whether that number is to be asked for.
    pub(crate) is_to_count: bool,
    /// It isn't asked for before this moment.
    pub(crate) counts_at: Duration,
}

impl KnownFronts {
    pub(crate) fn new(nodes: u8, is_to_count: bool) -> KnownFronts
        requires { (1 ≤ nodes) × (nodes ≤ MAX_NODES) }
        ensures { result ≡ record { front = replicate nodes 0; is_counted = false; is_to_count = is_to_count; counts_at = at_once } }
    {
        KnownFronts {
            front: Front::zero(usize::from(nodes)),
            is_counted: false,
            is_to_count,
            counts_at: Duration::ZERO,
        }
    }

    /// Records that this node has at least these facts of each node.
    pub(crate) fn learn(&mut self, front: &Front)
        ensures { self.new ≡ learnt front.now self.old }
    {
        if self.front.nodes() == front.nodes() {
            self.front = self.front.join(front);
        }
    }

    /// Whether it is time to ask how many facts the node has.
    pub(crate) fn is_due(&self, now: Duration) -> bool
        ensures { result ≡ (self.now.is_to_count && is_by now self.now.counts_at) }
    {
        self.is_to_count && self.counts_at.as_nanos() <= now.as_nanos()
    }

    /// Records that this is asked at this moment, and not again for a while.
    pub(crate) fn begin(&mut self, now: Duration)
        ensures at { IsAfter 50 now self.new.counts_at }
        ensures rest { self.new ≡ record { front = self.old.front; is_counted = self.old.is_counted; is_to_count = false; counts_at = self.new.counts_at } }
    {
        self.is_to_count = false;
        self.counts_at = now.saturating_add(Duration::from_millis(COUNT_MS));
    }
}
