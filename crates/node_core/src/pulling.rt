// What other nodes' pulls say, and what they send.
ghost use Rattle.std.specs.Prelude.{◌≡◌};
ghost use Rattle.node_core.specs.Peers.{is_silent};
ghost use Rattle.node_core.specs.Pulls.{IsJudged, IsPutBy, IsReceived, after_told, asked_by, heard_asking, is_ahead, is_newer_than, meaning, refused_as, taken_back, was_silent, with_end_of};

use crate::node_state::NodeState;
use node_inbox::Telling;
use node_replication::PullDecision;
use state_ids::{Front, LAST_NUMBER, NodeId};
use std::time::Duration;

/// A pull of another node.
#[derive(Clone, Copy)]
pub struct AskedPull {
    pub from: NodeId,
    /// How many facts of each node that node has.
    pub front: Front,
    /// Whether it waits until there is something new.
    pub waits: bool,
    /// Since when it has been held; `None` if it is heard for the first time.
    pub since: Option<Duration>,
}

/// What a telling of another node means.
#[derive(Clone, Copy, Debug, PartialEq, Eq)]
pub enum Receipt {
    /// It is of a group of another size.
    Unanswered,
    /// It has facts of this node, whose journal is new, and nobody said that the old one is lost.
    Lost,
    /// It is from before the other node began anew.
    Outdated,
    /// It has more facts of this node than this node knows of. A node knows of every fact that it
    /// gave.
    Newer,
    /// The other node has fewer facts of its own than it sent before.
    Older,
    /// Nothing in it is new.
    Nothing,
    /// It waits to be taken. So many tellings of the other node had ended when it came.
    Waits { ended: u64 },
}

/// Returns what a telling means that counts.
fn meaning(is_newer: bool, is_older: bool, is_new: bool, ended: u64) -> Receipt
    ensures { result ≡ meaning is_newer is_older is_new ended }
{
    if is_newer {
        Receipt::Newer
    } else if is_older {
        Receipt::Older
    } else if is_new {
        Receipt::Waits { ended }
    } else {
        Receipt::Nothing
    }
}

impl NodeState {
    /// Records that another node asks, and what it says of itself and of this node: it is alive, it
    /// has stored so many facts of this node, it counts so many of its own, and if it claims to have
    /// more facts of this node than there are here, a start waits for them. One that asks as if it
    /// had everything that there can be claims nothing. Returns whether the last pull from it had
    /// failed.
    fn hear_asker(&mut self, pull: &AskedPull, now: Duration) -> bool
        ensures was { result ≡ is_silent pull.now.from self.old.peers }
        ensures heard { self.new ≡ heard_asking pull.now now self.old }
    {
        let (from, front) = (pull.from, pull.front);
        let was_silent = self.peers.note_asked(from, pull.waits);
        let (theirs, ours) = (front.count(self.me), self.mail.front().count(self.me));
        let is_behind = !self.mail.is_open();
        let _covered = self.followers.hear(from, theirs, ours, is_behind, now);
        self.asks.hear(from, front.count(from));
        if theirs > ours && theirs < LAST_NUMBER {
            self.mail.hear_claim(from, theirs);
        }
        was_silent
    }

    /// Returns what happens to a pull: it is held while its node is owed facts of its own, and
    /// otherwise served unless it waits and there is nothing new for it.
    fn judge(&mut self, pull: &AskedPull, now: Duration) -> PullDecision
        ensures { IsJudged pull.now now self.old self.new result }
    {
        let (from, front) = (pull.from, pull.front);
        if self.mail.is_owed(from, &front) {
            return PullDecision::Later;
        }
        if !pull.waits {
            return PullDecision::Serve;
        }
        let lacks_others = !self.mail.front().below(&front);
        self.followers
            .judge(from, front.count(self.me), lacks_others, pull.since, now)
    }

    /// Hears what a pull says of its node, unless it was heard before. Returns whether the last pull
    /// from that node had failed, so that it is asked again at once.
    fn hear_if_first(&mut self, pull: &AskedPull, now: Duration) -> bool
        ensures was { result ≡ was_silent pull.now self.old }
        ensures heard { self.new ≡ asked_by pull.now now self.old }
    {
        if pull.since.is_some() {
            return false;
        }
        self.hear_asker(pull, now)
    }

    /// Hears a pull of another node, the first time or again. Returns what happens to it, and whether
    /// the last pull from that node had failed, so that it is asked again at once. A pull of a node
    /// that is owed facts of its own is held, however long that takes.
    pub fn hear_pull(&mut self, pull: &AskedPull, now: Duration) -> (PullDecision, bool)
        ensures judged { IsJudged pull.now now (asked_by pull.now now self.old) self.new result.0 }
        ensures was { result.1 ≡ was_silent pull.now self.old }
    {
        let was_silent = self.hear_if_first(pull, now);
        (self.judge(pull, now), was_silent)
    }

    /// Whether a node that asks with this front has more facts of another node than this one, which
    /// is asked then: so a pull also announces what its asker has.
    pub fn is_ahead(&self, other: NodeId, front: &Front) -> bool
        ensures { result ≡ is_ahead other front.now self.now }
    {
        other != self.me && self.mail.front().count(other) < front.count(other)
    }

    /// Records what another node sent. If that has facts of this node that this one never gave, two
    /// processes may have its number: if copies are wanted, nothing is stored from here on. A node
    /// that has stored nothing yet takes them back instead: they were on their way when it ended.
    fn hear_told(&mut self, telling: &Telling, is_newer: bool)
        requires { is_newer ≡ is_newer_than telling.now self.old }
        ensures { self.new ≡ after_told telling.now self.old }
    {
        let doubts = self.followers.wants_any() && self.has_entered;
        let was_open = self.mail.is_open();
        self.mail.note_heard(telling.from(), telling);
        if doubts && (is_newer && was_open) {
            self.mail.wait_for_own(LAST_NUMBER);
            self.followers.doubt();
        }
    }

    /// Returns what a telling means that doesn't count, or `None` if it does.
    fn refusal(&self, asked: &Front, seen: u64, telling: &Telling) -> Option<Receipt>
        ensures { result ≡ refused_as asked.now seen telling.now self.now }
    {
        let (from, told) = (telling.from(), telling.front());
        if told.nodes() != asked.nodes() {
            return Some(Receipt::Unanswered);
        }
        if self.is_lost(&told) {
            return Some(Receipt::Lost);
        }
        if self.asks.is_of_before(from, seen, told.count(from)) {
            return Some(Receipt::Outdated);
        }
        None
    }

    /// Puts a telling to be taken, if anything in it is new. Returns whether it is, and the telling
    /// that isn't kept, if there is one.
    fn put(&mut self, telling: Telling) -> (bool, Option<Telling>)
        ensures { IsPutBy telling self.old self.new result.0 result.1 }
    {
        match self.mail.put_telling(telling) {
            Ok(left) => (true, left),
            Err(telling) => (false, Some(telling)),
        }
    }

    /// Receives what another node sent, which was asked with the front `asked` and had begun anew
    /// `seen` times then. Returns what it means; and the telling that isn't kept, if there is one,
    /// because it may be long to drop. What is from before the other node began anew doesn't count.
    pub fn receive(
        &mut self,
        asked: &Front,
        seen: u64,
        telling: Telling,
    ) -> (Receipt, Option<Telling>)
        ensures { IsReceived asked.now seen telling self.old self.new result.0 result.1 }
    {
        if let Some(refused) = self.refusal(asked, seen, &telling) {
            return (refused, Some(telling));
        }
        let (from, told) = (telling.from(), telling.front());
        let is_newer = told.count(self.me) > self.mail.front().count(self.me);
        let is_older = told.count(from) < asked.count(from);
        let ended = self.mail.ended(from);
        self.hear_told(&telling, is_newer);
        let (is_new, left) = self.put(telling);
        (meaning(is_newer, is_older, is_new, ended), left)
    }

    /// Records that a frame was taken that has this many facts of this node, which its journal
    /// lacked. Others may lack the last of them, so answers that show them wait as if it had been
    /// stored just now.
    fn take_back(&mut self, own: u64)
        ensures { self.new ≡ taken_back own self.old }
    {
        self.followers.note_count(own);
        if self.followers.wants_any() {
            self.followers.begin();
            let _ticket = self.followers.end(true);
            self.has_news = true;
        }
    }

    /// Records the end of the telling that is being taken, which has this front: it was taken, or is
    /// given up. `known` is the number of this node's own facts before that.
    pub fn end_telling(&mut self, front: &Front, known: u64, is_taken: bool)
        ensures { self.new ≡ with_end_of is_taken front.now known self.old }
    {
        self.mail.end_telling(front, is_taken);
        let own = front.count(self.me);
        if is_taken && known < own {
            self.take_back(own);
        }
    }
}
