//! Wait queues: a waiter is notified that what it waits for may be there.

ghost use Rattle.std.specs.Prelude.{IfOk, length};

use rme_words::NoMemory;
use std::alloc::Global;
use std::sync::atomic::{AtomicU32, AtomicU64, Ordering};
use std::sync::{Condvar, Mutex, Wait};
use std::time::{Clock, Duration};

/// A wait queue. A waiter misses no notification after it was registered.
///
/// A waiter for a lock has a rank: the number of levels of the lock's tree that its worker holds. It is trying, or it
/// sleeps. A notification wakes a waiter of the highest rank, since whoever blocks one of a lower rank holds more levels;
/// and it wakes none if one of at least that rank is trying, which then tries once more. A waiter that was woken in vain
/// is blocked by a worker that will notify the queue.
#[derive(Drop)]
pub(crate) struct WaitQueue {
    /// The number of waiters.
    waiting: AtomicU64,
    /// The number of trying waiters of each rank.
    trying: Vec<AtomicU32>,
    state: Mutex<QueueState>,
    /// One for each rank.
    rung: Vec<Condvar>,
}

#[derive(Drop)]
struct QueueState {
    /// The number of notifications.
    rings: u64,
    /// The number of sleeping waiters of each rank.
    sleeping: Vec<u32>,
}

impl QueueState {
    /// Counts one more notification, and answers the highest rank that has a sleeping waiter.
    fn ring(&mut self) -> Option<usize> {
        self.rings = self.rings.wrapping_add(1);
        self.sleeping.iter().rposition(|sleeping| *sleeping > 0)
    }

    /// Counts one more sleeping waiter of a rank.
    fn begin_sleep(&mut self, rank: usize) {
        if let Some(sleeping) = self.sleeping.get_mut(rank) {
            *sleeping = sleeping.saturating_add(1);
        }
    }

    /// Counts one sleeping waiter of a rank less.
    fn end_sleep(&mut self, rank: usize) {
        if let Some(sleeping) = self.sleeping.get_mut(rank) {
            *sleeping = sleeping.saturating_sub(1);
        }
    }
}

impl WaitQueue {
    /// A queue without waiters, for this number of ranks.
    pub(crate) fn new(alloc: Global, ranks: u32) -> Result<WaitQueue, NoMemory> {
        let mut trying = Vec::new(alloc);
        let mut sleeping = Vec::new(alloc);
        let mut rung = Vec::new(alloc);
        for _ in 0..ranks {
            if trying.push(AtomicU32::new(0)).is_err()
                || sleeping.push(0).is_err()
                || rung.push(Condvar::new()).is_err()
            {
                return Err(NoMemory);
            }
        }
        Ok(WaitQueue {
            waiting: AtomicU64::new(0),
            trying,
            state: Mutex::new(QueueState { rings: 0, sleeping }),
            rung,
        })
    }

    /// Wakes a waiter of the highest rank, if none of at least that rank is trying.
    pub(crate) fn notify<R: Wait>(&self, rt: &R) {
        if self.waiting.load(Ordering::SeqCst) == 0 {
            return;
        }
        let mut state = self.state.lock(rt);
        let Some(rank) = state.ring() else {
            return;
        };
        if self.is_trying_from(rank) {
            return;
        }
        drop(state);
        if let Some(rung) = self.rung.get(rank) {
            rung.notify_one();
        }
    }

    /// Whether a waiter of at least this rank is trying.
    fn is_trying_from(&self, rank: usize) -> bool {
        self.trying
            .iter()
            .skip(rank)
            .any(|trying| trying.load(Ordering::SeqCst) > 0)
    }

    /// Wakes all waiters.
    pub(crate) fn notify_all<R: Wait>(&self, rt: &R) {
        if self.waiting.load(Ordering::SeqCst) == 0 {
            return;
        }
        let _rank = self.state.lock(rt).ring();
        for rung in &self.rung {
            rung.notify_all();
        }
    }

    /// Registers a waiter of this rank, which is trying.
    pub(crate) fn register<R: Wait>(&self, rt: &R, rank: u32) -> Waiter<'_> {
        self.waiting.fetch_add(1, Ordering::SeqCst);
        let rank = self.rank_within(rank);
        self.begin_try(rank);
        Waiter {
            queue: self,
            rank,
            heard: self.state.lock(rt).rings,
        }
    }

    /// The rank, or the highest that there is.
    fn rank_within(&self, rank: u32) -> usize {
        self.rung.len().saturating_sub(1).min(rank as usize)
    }

    /// Counts one more trying waiter of a rank.
    fn begin_try(&self, rank: usize) {
        if let Some(trying) = self.trying.get(rank) {
            trying.fetch_add(1, Ordering::SeqCst);
        }
    }

    /// Counts one trying waiter of a rank less.
    fn end_try(&self, rank: usize) {
        if let Some(trying) = self.trying.get(rank) {
            trying.fetch_sub(1, Ordering::SeqCst);
        }
    }
}

/// A waiter, for the release of a lock or the detach of a worker. If it is registered first, and the condition is then
/// looked at before `wait`, no notification is missed.
pub struct Waiter<'a> {
    queue: &'a WaitQueue,
    rank: usize,
    /// The number of notifications when the waiter last looked.
    heard: u64,
}

impl Waiter<'_> {
    /// Waits at a rank for a notification since the waiter last looked, at most this long. Answers whether there was one.
    /// A rank that the queue does not have counts as its highest.
    pub fn wait<R: Wait + Clock>(&mut self, rt: &R, rank: u32, most: Duration) -> bool {
        let rank = self.queue.rank_within(rank);
        let Some(rung) = self.queue.rung.get(rank) else {
            return false;
        };
        let heard = self.heard;
        let mut state = self.queue.state.lock(rt);
        state.begin_sleep(rank);
        self.queue.end_try(self.rank);
        let (mut state, waited) = rung.wait_timeout_while(
            rt,
            state,
            most,
            |state| state.rings == heard,
        );
        state.end_sleep(rank);
        self.queue.begin_try(rank);
        self.rank = rank;
        self.heard = state.rings;
        !waited.timed_out()
    }

    /// Ends the waiting, and wakes another waiter, to which what this one heard may be of use.
    pub fn end<R: Wait>(self, rt: &R) {
        let queue = self.queue;
        drop(self);
        queue.notify(rt);
    }
}

impl Drop for Waiter<'_> {
    fn drop(self) {
        self.queue.end_try(self.rank);
        self.queue.waiting.fetch_sub(1, Ordering::SeqCst);
        let Waiter {
            queue: _,
            rank: _,
            heard: _,
        } = self;
    }
}
