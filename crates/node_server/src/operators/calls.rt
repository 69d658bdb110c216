// Calls that a node's operators want, and that the writer thread makes.
ghost use Rattle.std.specs.Prelude.{◌≡◌, IfSome, true};
ghost use Rattle.node_server.specs.Entering.{fits};

use crate::operators::errand::{Errand, ErrandEnd, Numbered};
use node_agenda::OperatorWant;
use node_effects::enters;
use node_threads::Node;
use state_book::{Call, Reply};
use state_facts::Refusal;
use std::sync::{Condvar, CondvarTimeouts, Mutex, Wait};
use std::time::{Clock, Duration};

/// How long one wait for a call takes.
const SLICE_MS: u64 = 100;

/// How often that is waited: five seconds in all.
const SLICES: u32 = 50;

/// A call that is to be made at a moment.
#[derive(Drop)]
pub(crate) struct OperatorCall {
    pub(crate) call: Call,
    pub(crate) now: u64,
}

/// The result of a call.
type Outcome = Result<Reply, Refusal>;

/// Whether a call may be made for operators who want a call of this kind: if they want a question,
/// none that may store something.
fn fits(wanted: OperatorWant, call: &Call) -> bool
    ensures { result ≡ fits wanted call.now }
{
    match wanted {
        OperatorWant::Nothing => false,
        OperatorWant::Question => !enters(call),
        OperatorWant::Command => true,
    }
}

/// Takes the call that is to be made, if it is of this kind; any other is left.
fn next_of(
    errand: &mut Errand<OperatorCall, Outcome>,
    wanted: OperatorWant,
) -> Option<Numbered<OperatorCall>>
    ensures { IfSome result (λ errand. fits wanted errand.wanted.call ≡ true) }
{
    match errand.wanted() {
        Some(asked) if fits(wanted, &asked.call) => errand.take(),
        _ => None,
    }
}

/// Where the thread that serves operators asks for calls, and the writer thread makes them. The
/// operators' thread never waits at the desk: a call that isn't made in time is withdrawn, or its
/// reply is dropped.
#[derive(Drop)]
pub struct OperatorCalls {
    errand: Mutex<Errand<OperatorCall, Outcome>>,
    made: Condvar,
}

impl OperatorCalls {
    pub fn new() -> OperatorCalls {
        OperatorCalls {
            errand: Mutex::new(Errand::new()),
            made: Condvar::new(),
        }
    }

    /// Asks for a call to be made.
    pub(crate) fn want<R: Wait>(&self, rt: &R, call: Call, now: u64) {
        self.errand.lock(rt).want(OperatorCall { call, now });
    }

    // Returns the result of the last call that was wanted, if it is made within a slice.
    fn wait_a_slice<R: Wait + Clock>(&self, rt: &R) -> Option<Outcome> {
        let time = Duration::from_millis(SLICE_MS);
        let (mut errand, _) = self.made.wait_timeout_while(
            rt,
            self.errand.lock(rt),
            time,
            |errand| !errand.is_answered(),
        );
        errand.answer()
    }

    /// Waits for the result of the last call that was wanted. If it isn't made in time, a call
    /// waits too long at the desk, the node's journal is closed meanwhile, or the program is to
    /// end, the call is withdrawn (E19); or, if it is too late for that, it is unknown whether it
    /// is made (E18).
    pub(crate) fn wait<R: Wait + Clock>(&self, rt: &R, node: &Node) -> Outcome {
        for _slice in 0..SLICES {
            if let Some(outcome) = self.wait_a_slice(rt) {
                return outcome;
            }
            if node.core.is_stuck(rt) || node.signal.has_ended(rt) {
                break;
            }
        }
        let is_back = node.core.take_back(rt);
        let end = self.errand.lock(rt).give_up(is_back);
        match end {
            ErrandEnd::Answered(outcome) => outcome,
            ErrandEnd::Withdrawn => Err(Refusal::Stopped),
            ErrandEnd::Unknown => Err(Refusal::JournalFailed),
        }
    }

    /// Takes the call that is to be made, if there is one of this kind.
    pub(crate) fn next<R: Wait>(
        &self,
        rt: &R,
        wanted: OperatorWant,
    ) -> Option<Numbered<OperatorCall>>
        ensures { IfSome result (λ errand. fits wanted errand.wanted.call ≡ true) }
    {
        next_of(&mut self.errand.lock(rt), wanted)
    }

    /// Reports the result of a call. Returns whether somebody still waits for it.
    pub(crate) fn hand_back<R: Wait>(&self, rt: &R, number: u64, outcome: Outcome) -> bool {
        let is_awaited = self.errand.lock(rt).hand_back(number, outcome);
        if is_awaited {
            self.made.notify_all();
        }
        is_awaited
    }
}
