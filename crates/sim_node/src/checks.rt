// The checks after each step: whether what a node says and does agrees with its facts and the
// definitions.

use crate::call_summary::{CallSummary, purged_root};
use crate::due::{are_same, named_on};
use crate::node::SimNode;
use sim_env::{DueCall, Halt, KnownFacts, Shown};
use sim_runs::Runs;
use state_book::{Holding, Reply};
use state_facts::{CommandReply, Refusal};
use state_forest::MAX_HELD;
use state_ids::{Front, LraId, LraStatus, NodeId};
use state_replica::{Page, Row};
use std::alloc::Global;
use wire_callbacks::Duties;
use wire_frames::Delta;

/// The most LRAs that a page lists.
const ROWS: usize = 64;

/// Whether a refusal of a command agrees with the facts of a node. `status` is what the LRA that
/// the command names shows, and `is_covered` says whether the node has its begin.
fn is_refused_so(refusal: Refusal, status: Option<LraStatus>, is_covered: bool) -> bool {
    match refusal {
        Refusal::NotActive(shown) | Refusal::NotDue(shown) | Refusal::NotEnded(shown) => status
            == Some(shown),
        Refusal::UnknownLra => !is_covered,
        Refusal::NotHeld => is_covered && status.is_none(),
        _ => true,
    }
}

/// Returns how many LRAs of its own a node shows.
fn held_at_home(me: NodeId, shown: &[Shown]) -> usize {
    let mut count = 0usize;
    for one in shown {
        if one.id.home() == me {
            count = count.saturating_add(1);
        }
    }
    count
}

/// Whether an LRA has the number of the fact that a node stored last, is shown, and had room.
fn is_begun_so(me: NodeId, known: &KnownFacts, id: LraId) -> bool {
    if id.num() != known.own() || known.status_of(id).is_none() {
        return false;
    }
    held_at_home(me, known.shown()) <= MAX_HELD
}

/// Whether a reply to a command on this LRA agrees with the facts of a node.
fn is_replied_so(
    me: NodeId,
    known: &KnownFacts,
    named: Option<LraId>,
    reply: &CommandReply,
) -> bool {
    let (status, is_covered) = match named {
        Some(id) => (known.status_of(id), known.front().covers(id)),
        None => (None, false),
    };
    match reply {
        CommandReply::Joined(id, member) => known.model().members(*id) == usize::from(*member),
        CommandReply::Began(id, _) => is_begun_so(me, known, *id),
        CommandReply::Decided(_, shown) => status == Some(*shown),
        CommandReply::Refused(Refusal::LrasFull) => held_at_home(me, known.shown()) >= MAX_HELD,
        CommandReply::Refused(refusal) => is_refused_so(*refusal, status, is_covered),
        _ => true,
    }
}

/// Checks that the rows of a page are the first that a node shows.
fn see_rows(alloc: Global, me: NodeId, rows: &[Row], all: &[Shown]) -> Result<(), Halt> {
    for (row, shown) in rows.iter().zip(all.iter()) {
        if row.id != shown.id || row.status != shown.status {
            let (id, status, other, wanted) = (row.id, row.status, shown.id, shown.status);
            let words = format!(in alloc;
                "node {me} shows {id} as {status}, but by its facts {other} is {wanted}"
            )?;
            return Err(Halt::Found(words));
        }
    }
    Ok(())
}

/// Checks that a page is the first that a node shows.
fn see_page(alloc: Global, me: NodeId, page: &Page, all: &[Shown]) -> Result<(), Halt> {
    let count = all.len();
    see_rows(alloc, me, page.rows(), all)?;
    if page.rows().len() != count.min(ROWS) || page.more() != (count > ROWS) {
        return Err(Halt::Found(format!(in alloc;
            "node {me} doesn't list exactly the {count} LRAs of its facts"
        )?));
    }
    Ok(())
}

fn swept_early(alloc: Global, root: LraId, status: LraStatus, since: u64) -> Result<Halt, Halt> {
    Ok(Halt::Found(format!(in alloc;
        "{root}, which showed {status} since {since}, is purged before its time"
    )?))
}

fn is_failure(status: LraStatus) -> bool {
    matches!(status, LraStatus::FailedToClose | LraStatus::FailedToCancel)
}

fn not_held(alloc: Global, root: LraId) -> Result<Halt, Halt> {
    Ok(Halt::Found(format!(in alloc; "{root} is purged that isn't held")?))
}

fn not_so_held(alloc: Global, id: LraId, reply: &Reply) -> Result<Halt, Halt> {
    Ok(Halt::Found(format!(in alloc; "{id} is held otherwise than its facts say: {reply:?}")?))
}

fn not_so_replied(alloc: Global, reply: &CommandReply) -> Result<Halt, Halt> {
    Ok(Halt::Found(format!(in alloc;
        "a command is answered {reply:?}, which its facts contradict"
    )?))
}

fn not_so_due(alloc: Global, listed: &[DueCall], wanted: &[DueCall]) -> Result<Halt, Halt> {
    Ok(Halt::Found(format!(in alloc;
        "the listed duties are {listed:?}, but by the facts they are {wanted:?}"
    )?))
}

fn not_told(alloc: Global, me: NodeId, has: Front) -> Result<Halt, Halt> {
    Ok(Halt::Found(format!(in alloc; "node {me} has the front {has}, but answers another one")?))
}

fn not_the_next(alloc: Global, had: Front, has: Front) -> Result<Halt, Halt> {
    Ok(Halt::Found(format!(in alloc;
        "a run ended with the front {had}, but the next one begins with {has}"
    )?))
}

fn overdue(alloc: Global, me: NodeId) -> Result<Halt, Halt> {
    Ok(Halt::Found(format!(in alloc; "an LRA of node {me} is overdue, but isn't cancelled")?))
}

fn found(alloc: Global, id: LraId, what: &str) -> Result<Halt, Halt> {
    Ok(Halt::Found(format!(in alloc; "{id}{what}")?))
}

impl<R: Runs> SimNode<R> {
    /// Checks that an LRA that is cancelled for its deadline is overdue.
    pub fn see_expiry(&self, reply: &Reply, now: u64) -> Result<(), Halt> {
        let Reply::Expired(id) = reply else {
            return Ok(());
        };
        if !self.known.model().is_overdue(*id, self.unix(now)) {
            return Err(found(self.alloc, *id, " is cancelled before its deadline")?);
        }
        Ok(())
    }

    /// Checks that no LRA of this node is overdue.
    pub fn see_quiet(&self, now: u64) -> Result<(), Halt> {
        let first = self.known.model().first_overdue(self.me, self.unix(now));
        if first.is_some() {
            return Err(overdue(self.alloc, self.me)?);
        }
        Ok(())
    }

    /// Checks that an LRA that is purged on its own showed this status for as long as that status
    /// is kept.
    fn see_kept(&self, id: LraId, status: LraStatus, since: u64, now: u64) -> Result<(), Halt> {
        let is_due = match self.time_of(status) {
            Some(time) => now.saturating_sub(since) >= time,
            None => false,
        };
        if !is_due {
            return Err(swept_early(self.alloc, id, status, since)?);
        }
        Ok(())
    }

    /// Returns the LRA in the tree of a root that was the first to show a failure, if any shows
    /// one.
    fn first_failure(&self, root: LraId) -> Result<Option<Shown>, Halt> {
        let mut first: Option<Shown> = None;
        for id in &self.known.model().tree(root)? {
            if let Some(shown) = self.known.shown_of(*id) {
                let is_first = match &first {
                    Some(before) => shown.since < before.since,
                    None => true,
                };
                if is_failure(shown.status) && is_first {
                    first = Some(shown);
                }
            }
        }
        Ok(first)
    }

    /// Checks that a root that is purged on its own showed the same status for as long as that
    /// status is kept. If something failed in its tree, the time for what failed applies to both.
    fn see_swept(&self, root: LraId, began_at: u64, now: u64) -> Result<(), Halt> {
        let Some(shown) = self.known.shown_of(root) else {
            return Err(not_held(self.alloc, root)?);
        };
        let since = shown.since.max(began_at);
        match self.first_failure(root)? {
            Some(failed) => {
                self.see_kept(root, failed.status, since, now)?;
                self.see_kept(failed.id, failed.status, failed.since.max(began_at), now)
            }
            None => self.see_kept(root, shown.status, since, now),
        }
    }

    /// Checks that no participant is still to be notified of a root that is purged and, if its home
    /// purges it on its own, that the root showed the same status for as long as that status is
    /// kept.
    pub fn see_purge(&self, asked: &CallSummary, reply: &Reply, now: u64) -> Result<(), Halt> {
        let Some(root) = purged_root(asked, reply) else {
            return Ok(());
        };
        if !self.known.model().may_be_purged(root) {
            return Err(found(
                self.alloc,
                root,
                " is purged, but someone must still be notified",
            )?);
        }
        match &self.life {
            Some(life) if asked.is_sweep => self.see_swept(root, life.began_at(), now),
            _ => Ok(()),
        }
    }

    /// Checks that nothing is stored before the others have been heard from or, after a second,
    /// while one of them has more facts of this node.
    pub fn see_opening(&self, place: usize, now: u64) -> Result<(), Halt> {
        let Some(life) = &self.life else {
            return Ok(());
        };
        let count = usize::from(self.nodes);
        if count > 1 && !life.may_enter(self.known.own(), place, count, now) {
            return Err(Halt::Found(format!(in self.alloc;
                "a node stores a fact before it has heard from the others"
            )?));
        }
        Ok(())
    }

    /// Checks that a command on an LRA is answered as its facts demand, including those that the
    /// command stored.
    pub fn see_reply(&self, named: Option<LraId>, reply: &Reply) -> Result<(), Halt> {
        let Reply::Command(reply) = reply else {
            return Ok(());
        };
        if is_replied_so(self.me, &self.known, named, reply) {
            return Ok(());
        }
        Err(not_so_replied(self.alloc, reply)?)
    }

    /// Checks that the first page, if there is one, agrees with the facts.
    pub fn see_listed(&self, reply: &Option<Reply>) -> Result<(), Halt> {
        match reply {
            Some(Reply::Listed(page)) => see_page(self.alloc, self.me, page, self.known.shown()),
            None => Ok(()),
            _ => Err(Halt::Found(format!(in self.alloc;
                "a call for a page has another kind of reply"
            )?)),
        }
    }

    fn is_held_so(&self, id: LraId, holding: &Holding) -> bool {
        self.known.is_record(id, &holding.record)
    }

    /// Checks that the record of an LRA, if there is one, agrees with its facts.
    pub fn see_held(&self, id: LraId, reply: &Option<Reply>) -> Result<(), Halt> {
        let is_so = match reply {
            None => true,
            Some(Reply::Held(holding)) => self.is_held_so(id, holding),
            Some(_) => false,
        };
        match reply {
            Some(reply) if !is_so => Err(not_so_held(self.alloc, id, reply)?),
            _ => Ok(()),
        }
    }

    /// Checks that the node sends all that it has.
    pub fn see_told(&self, delta: &Delta) -> Result<(), Halt> {
        let has = self.front();
        if delta.front() != has {
            return Err(not_told(self.alloc, self.me, has)?);
        }
        Ok(())
    }

    /// Checks that the duties are those that the node's facts demand. Returns the calls on the
    /// list.
    pub fn see_duties(&self, duties: &Duties) -> Result<Vec<DueCall>, Halt> {
        let (wanted, listed) = (self.known.dues()?, named_on(self.alloc, duties)?);
        if !are_same(&listed, &wanted) {
            return Err(not_so_due(self.alloc, &listed, &wanted)?);
        }
        Ok(listed)
    }

    /// Checks that the book of a run has what that of the last run had.
    pub fn see_next_run(&self, had: Front, has: Front) -> Result<(), Halt> {
        if had != has {
            return Err(not_the_next(self.alloc, had, has)?);
        }
        Ok(())
    }
}
