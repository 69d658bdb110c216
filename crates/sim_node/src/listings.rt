// The lists of duties of a node, as the checks know them: the calls on each, and how many facts of
// the node it may show.

use crate::due::{is_among, is_same};
use node_core::Readied;
use sim_env::DueCall;
use std::alloc::Global;

/// The calls on a list, and how many facts of its node it may show.
#[derive(Drop)]
struct Listing {
    calls: Vec<DueCall>,
    own: u64,
}

/// What became of a list that was put at once, or waits no longer.
#[derive(Clone, Copy)]
pub enum Release {
    /// Its participants are called. It may show `own` facts of its node.
    Called { own: u64, is_late: bool },
    /// A new one is asked for in its place.
    AskedAgain,
    /// It is gone, and nothing is asked for.
    Dropped,
    /// The participants on a list are called, and none waited.
    Unknown,
}

/// The newest list that was put, and the one that waits until other nodes have what it may show.
#[derive(Drop)]
pub(crate) struct Listings {
    /// The calls of the newest list whose participants haven't answered since, or whose answers
    /// aren't stored yet.
    put: Vec<DueCall>,
    waiting: Option<Listing>,
    /// What became of a list, until that is checked.
    release: Option<Release>,
}

impl Listings {
    pub(crate) fn new(alloc: Global) -> Listings {
        Listings {
            put: Vec::new(alloc),
            waiting: None,
            release: None,
        }
    }

    /// Whether the newest list has this call.
    pub(crate) fn has(&self, who: &DueCall) -> bool {
        is_among(&self.put, who)
    }

    /// Records that the answer of a participant is stored.
    pub(crate) fn end(&mut self, who: &DueCall) {
        self.put.retain(|listed| !is_same(listed, who));
    }

    /// Records a list with these calls, which may show `own` facts, and whether it was put at once.
    pub(crate) fn keep(&mut self, calls: Vec<DueCall>, own: u64, is_put: bool) {
        let listing = Listing { calls, own };
        if is_put {
            self.call(listing, false);
        } else {
            self.waiting = Some(listing);
        }
    }

    fn call(&mut self, listing: Listing, is_late: bool) {
        let Listing { calls, own } = listing;
        self.put = calls;
        self.release = Some(Release::Called { own, is_late });
    }

    /// Records what was readied: whether a list was on hold before that and isn't now, and whether
    /// one went on although it was late.
    pub(crate) fn note_ready(&mut self, readied: &Readied, is_let_go: bool, is_late: bool) {
        if !readied.is_put && !readied.asks_again && !is_let_go {
            return;
        }
        match self.waiting.take() {
            Some(listing) if readied.is_put => self.call(listing, is_late),
            _ if readied.is_put => self.release = Some(Release::Unknown),
            _ if readied.asks_again => self.release = Some(Release::AskedAgain),
            _ => self.release = Some(Release::Dropped),
        }
    }

    /// Takes the release that isn't checked yet.
    pub(crate) fn take_release(&mut self) -> Option<Release> {
        self.release.take()
    }
}
