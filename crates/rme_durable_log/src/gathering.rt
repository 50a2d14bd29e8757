//! Waiting a little before a slow write, so that it has the lines of all threads that are about to ask for one.
//!
//! Each client has one request in flight. While a write is under way, the clients whose lines it has wait for it, and the
//! lines of the others come in. If the next write began at once, it would have these only, and the clients would stay two
//! groups that wait for each other's writes. So a write to a shared store, which takes milliseconds, first waits for a
//! part of one, until as many threads ask for it as the last write answered and found waiting. This is the delay of group
//! commit (DeWitt and others 1984).

use std::sync::Wait;
use std::sync::atomic::{AtomicU64, Ordering};
use std::time::Duration;

/// The most times that a write looks whether the expected threads have asked.
const LOOKS: u32 = 4;

/// The most time from look to look, in microseconds.
const PAUSE: u64 = 100;

/// How many threads ask for a write, and how many are expected to.
#[derive(Drop)]
pub(crate) struct Gathering {
    /// Whether writes wait.
    is_on: bool,
    /// The number of threads that asked since the last write took its lines. The write that waits sleeps on it.
    asking: AtomicU64,
    /// The number of threads that the last write had lines of.
    answered: AtomicU64,
    /// The number of threads that are expected to ask before the next write.
    expected: AtomicU64,
}

impl Gathering {
    /// Writes that wait for other threads, or that do not.
    pub(crate) fn new(is_on: bool) -> Gathering {
        Gathering {
            is_on,
            asking: AtomicU64::new(0),
            answered: AtomicU64::new(0),
            expected: AtomicU64::new(0),
        }
    }

    /// A thread asks for a write. The last of the expected threads wakes the write that waits.
    pub(crate) fn asked(&self) {
        if self.is_on {
            let others = self.asking.fetch_add(1, Ordering::SeqCst);
            if others.saturating_add(1) == self.expected.load(Ordering::SeqCst) {
                self.asking.wake_one();
            }
        }
    }

    /// Waits until the expected threads have asked, for less than a millisecond.
    pub(crate) fn wait<R: Wait>(&self, rt: &R) {
        let looks = if self.is_on { LOOKS } else { 0 };
        let expected = self.expected.load(Ordering::SeqCst);
        for _ in 0..looks {
            let asking = self.asking.load(Ordering::SeqCst);
            if asking >= expected {
                return;
            }
            // It does not sleep if more have asked since; the low 32 bits tell.
            let seen = (asking & u64::from(u32::MAX)) as u32;
            self.asking
                .park_timeout(rt, seen, Duration::from_micros(PAUSE));
        }
    }

    /// A write has taken its lines.
    pub(crate) fn taken(&self) {
        if self.is_on {
            let asking = self.asking.swap(0, Ordering::SeqCst);
            self.answered.store(asking, Ordering::SeqCst);
        }
    }

    /// A write is done. The threads that it answers, and those that asked meanwhile, are expected before the next.
    pub(crate) fn written(&self) {
        if self.is_on {
            let answered = self.answered.load(Ordering::SeqCst);
            let asking = self.asking.load(Ordering::SeqCst);
            self.expected
                .store(answered.saturating_add(asking), Ordering::SeqCst);
        }
    }
}
