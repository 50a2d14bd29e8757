//! Gates of the rows.

use rme::supervisor::Gate;
use std::sync::atomic::{AtomicU64, Ordering};
use std::thread;

/// The number of checks of a gate that waits. It yields each time, so that the test also passes on a loaded machine.
const MOST_TURNS: u32 = 1_000_000;

/// A flag: something has happened, or not yet.
#[derive(Drop)]
pub struct RaisedFlag {
    raised: AtomicU64,
}

impl RaisedFlag {
    pub fn new() -> RaisedFlag {
        RaisedFlag {
            raised: AtomicU64::new(0),
        }
    }

    fn raise(&self) {
        self.raised.store(1, Ordering::SeqCst);
    }

    /// Waits until it has happened, but not forever. Answers whether it has.
    fn is_raised_in_time(&self) -> bool {
        for _ in 0..MOST_TURNS {
            if self.raised.load(Ordering::SeqCst) == 1 {
                return true;
            }
            thread::yield_now();
        }
        false
    }
}

/// Worker 1 is let into its section of lock 1 once worker 0 is at the gate. If worker 0 waits too, it is let into its
/// section of lock 0 once worker 1 has left lock 1: so both are inside at the same time, or one waits in vain.
#[derive(Drop)]
pub struct CrossingGate {
    waits: bool,
    asked: RaisedFlag,
    left: RaisedFlag,
}

impl CrossingGate {
    pub fn new(waits: bool) -> CrossingGate {
        CrossingGate {
            waits,
            asked: RaisedFlag::new(),
            left: RaisedFlag::new(),
        }
    }
}

impl Gate for CrossingGate {
    fn inside(&self, worker: u32, lock: u32) -> bool {
        if worker == 0 {
            self.asked.raise();
            return !self.waits || self.left.is_raised_in_time();
        }
        lock != 1 || self.asked.is_raised_in_time()
    }

    fn over(&self, worker: u32, lock: u32, number: u32) {
        if (worker, lock, number) == (1, 1, 1) {
            self.left.raise();
        }
    }
}

/// Lets all in or none, and counts its calls.
#[derive(Drop)]
pub struct CountingGate {
    lets: bool,
    asked: AtomicU64,
    over: AtomicU64,
}

impl CountingGate {
    pub fn new(lets: bool) -> CountingGate {
        CountingGate {
            lets,
            asked: AtomicU64::new(0),
            over: AtomicU64::new(0),
        }
    }

    /// The number of requests to enter, and of jobs that were reported as over.
    pub fn counts(&self) -> (u64, u64) {
        (
            self.asked.load(Ordering::SeqCst),
            self.over.load(Ordering::SeqCst),
        )
    }
}

impl Gate for CountingGate {
    fn inside(&self, _worker: u32, _lock: u32) -> bool {
        self.asked.fetch_add(1, Ordering::SeqCst);
        self.lets
    }

    fn over(&self, _worker: u32, _lock: u32, _number: u32) {
        self.over.fetch_add(1, Ordering::SeqCst);
    }
}
