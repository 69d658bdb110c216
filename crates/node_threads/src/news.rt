// How the nodes of a program announce to one another that one has something new.

use std::sync::{Condvar, CondvarTimeouts, Mutex, Wait};
use std::time::{Clock, Duration};

/// How often each of eight nodes announced that it has something new.
#[derive(Clone, Copy)]
pub(crate) struct NewsCounts {
    each: [u64; 8],
}

impl NewsCounts {
    /// Makes the counts with no announcement.
    pub(crate) fn new() -> NewsCounts {
        NewsCounts { each: [0; 8] }
    }

    /// Returns how often a node announced news.
    pub(crate) fn of(&self, number: u8) -> u64 {
        match self.each.get(usize::from(number.saturating_sub(1))) {
            Some(count) => *count,
            None => 0,
        }
    }

    /// Sets how often a node announced news.
    pub(crate) fn set(&mut self, number: u8, count: u64) {
        if let Some(place) = self.each.get_mut(usize::from(number.saturating_sub(1))) {
            *place = count;
        }
    }

    // Whether another node has announced news more often than was seen.
    fn exceeds(&self, seen: &NewsCounts, me: u8) -> bool {
        for number in 1..=8u8 {
            if number != me && self.of(number) > seen.of(number) {
                return true;
            }
        }
        false
    }
}

// What the lock guards.
#[derive(Drop)]
struct Board {
    counts: NewsCounts,
    ended: bool,
}

/// Where the nodes of a program announce to one another that they have something new, so that the
/// others pull it at once.
#[derive(Drop)]
pub struct News {
    told: Mutex<Board>,
    came: Condvar,
}

impl News {
    pub fn new() -> News {
        News {
            told: Mutex::new(Board {
                counts: NewsCounts::new(),
                ended: false,
            }),
            came: Condvar::new(),
        }
    }

    /// Announces that a node has something new.
    pub(crate) fn announce<R: Wait>(&self, rt: &R, number: u8) {
        let mut told = self.told.lock(rt);
        let count = told.counts.of(number).saturating_add(1);
        told.counts.set(number, count);
        self.came.notify_all();
    }

    /// Ends all waiting: the program is to end.
    pub fn end<R: Wait>(&self, rt: &R) {
        self.told.lock(rt).ended = true;
        self.came.notify_all();
    }

    /// Waits for at most this long until node `other` has announced news more often than was seen.
    /// Returns how often it has, or `None` once the program is to end.
    pub(crate) fn wait_for<R: Wait + Clock>(
        &self,
        rt: &R,
        other: u8,
        seen: u64,
        time: Duration,
    ) -> Option<u64> {
        let (told, _) = self
            .came
            .wait_timeout_while(rt, self.told.lock(rt), time, |told| {
                !told.ended && told.counts.of(other) <= seen
            });
        if told.ended {
            return None;
        }
        Some(told.counts.of(other))
    }

    /// Waits for at most this long until another node has announced more than was seen. Returns
    /// what all have announced, or `None` once the program is to end.
    pub(crate) fn wait<R: Wait + Clock>(
        &self,
        rt: &R,
        me: u8,
        seen: &NewsCounts,
        time: Duration,
    ) -> Option<NewsCounts> {
        let (told, _) = self
            .came
            .wait_timeout_while(rt, self.told.lock(rt), time, |told| {
                !told.ended && !told.counts.exceeds(seen, me)
            });
        if told.ended {
            return None;
        }
        Some(told.counts)
    }
}
