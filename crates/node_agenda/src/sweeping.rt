// Which roots of a node's home have ended and are to be purged with their trees, and how full the
// home is. This outlives the runs of the node; a start begins anew.
ghost use Rattle.std.specs.Prelude.{◌≡◌, ◌++◌, ◌∷◌, [], MatchBool, None, false, filter, map, true};
ghost use Rattle.std.specs.List.{list_any};
ghost use Rattle.std.specs.Option.{option_map};
ghost use Rattle.node_schedule.specs.Slips.{at_once};
ghost use Rattle.node_agenda.specs.declared.looking.TheConstants.{MANY};
ghost use Rattle.node_agenda.specs.Censuses.{none_counted};
ghost use Rattle.node_agenda.specs.Looks.{Begins, is_to_look};
ghost use Rattle.node_agenda.specs.Noted.{with_became};
ghost use Rattle.node_agenda.specs.Sweeps.{IsAdded, IsNextChore, IsNoted, IsSeen, before_home, begun, fill_of, first_due, freed, hastened, is_chore, is_found, is_root, kept_of, left_by, looked, newcomer, purges, put_off_if, seen_as, sweeps, turned, unfound, with_ended, with_full, without};

use crate::census::{Census, STATUSES};
use crate::effects::Became;
use crate::looking::Looking;
use crate::ripe::Ripe;
use crate::sweep::{Chore, EndedRoot, Fill, Keep, Purged};
use state_forest::MAX_HELD;
use state_ids::{LAST_NUMBER, LraId, LraStatus, NodeId};
use std::alloc::Global;
use std::marker::Model;
use std::time::Duration;

/// Records what the tree of an LRA shows, which may be one of these.
fn see_each(ended: &mut [EndedRoot], id: LraId, seen: LraStatus, now: Duration)
    ensures { ended.new ≡ map (seen_as id seen now) ended.old }
{
    for root in ended.iter_mut() {
        root.see(id, seen, now);
    }
}

/// Records that a look begins, which has found none of these yet.
fn unfind_each(ended: &mut [EndedRoot])
    ensures { ended.new ≡ map unfound ended.old }
{
    for root in ended.iter_mut() {
        root.unfind();
    }
}

/// Records the result of a refused purge.
fn put_off_each(ended: &mut [EndedRoot], id: LraId, purged: &Purged, now: Duration)
    ensures { ended.new ≡ map (put_off_if id purged.now now) ended.old }
{
    for root in ended.iter_mut() {
        root.put_off(id, purged, now);
    }
}

/// Makes the roots that waited for a participant of this LRA be tried at once.
fn free_each(ended: &mut [EndedRoot], id: LraId)
    ensures { ended.new ≡ map (freed id) ended.old }
{
    for root in ended.iter_mut() {
        root.free(id);
    }
}

/// Makes the roots that wait for a participant of any LRA be tried within a second.
fn hasten_each(ended: &mut [EndedRoot], now: Duration)
    ensures { ended.new ≡ map (hastened now) ended.old }
{
    for root in ended.iter_mut() {
        root.hasten(now);
    }
}

/// Whether an LRA is among these.
fn has(ended: &[EndedRoot], id: LraId) -> bool
    ensures { result ≡ list_any (is_root id) ended.now }
{
    ended.iter().any(|root| root.is(id))
}

/// Forgets an LRA.
fn forget(ended: &mut Vec<EndedRoot>, id: LraId)
    ensures { ended.new.items ≡ without id ended.old.items }
{
    ended.retain(|root| !root.is(id));
}

/// Forgets the roots that the look didn't find.
fn forget_missing(ended: &mut Vec<EndedRoot>)
    ensures { ended.new.items ≡ filter is_found ended.old.items }
{
    ended.retain(|root| root.is_found());
}

/// Adds a root that has ended. Returns false if there is no room for it.
fn add(ended: &mut Vec<EndedRoot>, id: LraId, seen: LraStatus, now: Duration) -> bool
    ensures { MatchBool result
        (ended.new.items ≡ ended.old.items ++ newcomer id seen now ∷ [])
        (ended.new.items ≡ ended.old.items) }
{
    if ended.len() >= MAX_HELD {
        return false;
    }
    ended.push(EndedRoot::new(id, seen, now)).is_ok()
}

/// Returns the first root that is to be purged at this moment.
fn due(ended: &[EndedRoot], keep: &Keep, now: Duration) -> Option<Ripe>
    ensures { result ≡ option_map kept_of (first_due keep.now now ended.now) }
{
    for root in ended {
        if root.is_due(keep, now) {
            return Some(root.as_ripe());
        }
    }
    None
}

/// Purges roots a while after they were first seen to have ended, or never; and knows how full the
/// home is, if anybody wants to know.
#[derive(Drop)]
pub struct Sweeping {
    me: NodeId,
    keep: Keep,
    ended: Vec<EndedRoot>,
    /// The LRA beyond which the look goes on, or `None` if there is no look.
    beyond: Option<LraId>,
    looks: bool,
    looking: Looking,
    /// Whether an LRA couldn't be begun, because the home was full, since this was last asked.
    is_full: bool,
    census: Census,
}

impl Model for Sweeping {
    ghost use Rattle.node_agenda.specs.Sweeps.{Sweeps};

    ghost Value = { Sweeps };

    ghost view = { λ s. record {
      number = s.me;
      keep = s.keep;
      ended = s.ended.items;
      beyond = s.beyond;
      looks = s.looks;
      looking = s.looking;
      is_full = s.is_full;
      counts = s.census;
    } };
}

impl Sweeping {
    /// Makes the sweep of a node that keeps its roots as `keep` says. `counts` says whether it is
    /// to know how full the home is, and `is_watched` whether it is to know what the home's LRAs
    /// show.
    pub fn new(alloc: Global, me: NodeId, keep: Keep, counts: bool, is_watched: bool) -> Sweeping
        ensures { result ≡ record { number = me; keep = keep; ended = []; beyond = None; looks = false; looking = record { counts = counts; is_watched = is_watched; is_stirred = true; begun = MANY; has_purged = false; has_missed = false; taken = 0; looks_at = at_once; counts_at = at_once }; is_full = false; counts = none_counted } }
    {
        Sweeping {
            me,
            keep,
            ended: Vec::new(alloc),
            beyond: None,
            looks: false,
            looking: Looking::new(counts, is_watched),
            is_full: false,
            census: Census::new(),
        }
    }

    /// Returns the LRA before all those of the home in the order of pages, if there can be one.
    fn before_home(&self) -> Option<LraId>
        ensures { result ≡ before_home self.now.number }
    {
        let Ok(home) = NodeId::new(self.me.number() - 1) else {
            return None;
        };
        LraId::new(home, LAST_NUMBER).ok()
    }

    /// Records what a call changed of an LRA.
    pub(crate) fn note_call(&mut self, became: Became)
        ensures { self.new ≡ with_became became self.old }
    {
        match became {
            Became::Nothing => {}
            Became::Begun => self.looking.note_begun(),
            Became::Full => self.is_full = true,
            Became::Ended => self.looking.stir(),
            Became::Removed => self.looking.note_purged(),
        }
    }

    /// Whether there is ever a chore.
    fn sweeps(&self) -> bool
        ensures { result ≡ sweeps self.now }
    {
        self.looking.counts || self.keep.purges()
    }

    /// Whether to look through the home at this moment.
    fn is_to_look(&self, now: Duration) -> bool
        ensures { result ≡ is_to_look now (purges self.now.keep) self.now.looking }
    {
        self.looking.is_to_look(self.keep.purges(), now)
    }

    /// Whether there is a chore at this moment.
    pub(crate) fn is_due(&self, now: Duration) -> bool
        ensures { result ≡ is_chore now self.now }
    {
        self.sweeps()
            && (self.looks || (due(&self.ended, &self.keep, now).is_some() || self.is_to_look(now)))
    }

    /// Begins a look.
    fn begin(&mut self, now: Duration)
        ensures begun { self.new ≡ begun self.new.looking self.old }
        ensures next { Begins now self.old.looking self.new.looking }
    {
        unfind_each(&mut self.ended);
        self.beyond = self.before_home();
        self.looks = true;
        self.looking.begin(now);
        self.census.begin();
    }

    /// Ends a look. Roots that it didn't find are forgotten. Another look follows if there was no
    /// room for a root.
    fn end(&mut self)
        ensures { self.new ≡ looked self.old }
    {
        self.looks = false;
        self.looking.end(self.census.counted());
        self.census.end();
        forget_missing(&mut self.ended);
    }

    /// Returns the next chore, if there is one: a look that has begun is finished first, and then
    /// roots that are due are purged.
    pub fn next(&mut self, now: Duration) -> Option<Chore>
        ensures { IsNextChore now self.old self.new result }
    {
        if !self.sweeps() {
            return None;
        }
        if self.looks {
            return Some(Chore::List(self.beyond));
        }
        if let Some(ripe) = due(&self.ended, &self.keep, now) {
            return Some(Chore::Purge(ripe));
        }
        if !self.is_to_look(now) {
            return None;
        }
        self.begin(now);
        Some(Chore::List(self.beyond))
    }

    /// Remembers a root whose tree shows this, and which isn't remembered yet. If there is no room
    /// for it, another look follows this one.
    fn add(&mut self, now: Duration, id: LraId, seen: LraStatus)
        ensures { IsAdded id seen now self.old self.new }
    {
        if !add(&mut self.ended, id, seen, now) {
            self.looking.note_missed();
        }
    }

    /// Records what the tree of an LRA shows at this moment. Its root is remembered if trees that
    /// show this are ever purged.
    fn note(&mut self, now: Duration, id: LraId, seen: LraStatus)
        ensures { IsNoted now id seen self.old self.new }
    {
        if self.keep.time_of(seen).is_none() {
            forget(&mut self.ended, id);
        } else if has(&self.ended, id) {
            see_each(&mut self.ended, id, seen, now);
        } else {
            self.add(now, id, seen);
        }
    }

    /// Shows the sweep an LRA on a page: what it shows, and what its tree shows, which is the LRA
    /// with all that is nested in it.
    pub fn see(&mut self, now: Duration, id: LraId, shown: LraStatus, seen: LraStatus)
        ensures { IsSeen now id shown seen self.old self.new }
    {
        self.beyond = Some(id);
        if !self.looks {
            return;
        }
        if id.home() == self.me {
            self.census.count(shown);
            self.note(now, id, seen);
        } else {
            self.end();
        }
    }

    /// Tells the sweep that the page is over, and whether more pages follow.
    pub fn turn(&mut self, more: bool)
        ensures { self.new ≡ turned more self.old }
    {
        if self.looks && !more {
            self.end();
        }
    }

    /// Tells the sweep the result of a purge.
    pub fn purged(&mut self, now: Duration, id: LraId, purged: Purged)
        ensures { self.new ≡ left_by purged id now self.old }
    {
        match purged {
            Purged::Gone | Purged::Missing => forget(&mut self.ended, id),
            Purged::Changed => {
                put_off_each(&mut self.ended, id, &purged, now);
                self.looking.stir();
            }
            _ => put_off_each(&mut self.ended, id, &purged, now),
        }
    }

    /// Tells the sweep that a participant of an LRA was notified as it was to be: roots that waited
    /// for that are tried at once.
    pub(crate) fn free(&mut self, id: LraId)
        ensures { self.new ≡ with_ended (map (freed id) self.old.ended) self.old }
    {
        free_each(&mut self.ended, id);
    }

    /// Tells the sweep that another node sent something: roots that wait for a participant of any
    /// LRA are tried within a second.
    pub(crate) fn hasten(&mut self, now: Duration)
        ensures { self.new ≡ with_ended (map (hastened now) self.old.ended) self.old }
    {
        hasten_each(&mut self.ended, now);
    }

    /// Returns how many LRAs of the home showed each status at the last look, in the order of their
    /// ranks.
    pub fn held(&self) -> [u64; STATUSES]
        ensures { result ≡ self.now.counts.held }
    {
        self.census.held()
    }

    /// Returns how full the home is, and whether an LRA couldn't be begun because of that since
    /// this was last asked.
    pub fn fill(&mut self) -> Fill
        ensures fill { result ≡ fill_of self.old }
        ensures told { self.new ≡ with_full false self.old }
    {
        let is_refused = self.is_full;
        self.is_full = false;
        Fill {
            taken: self.looking.taken,
            is_refused,
        }
    }
}
