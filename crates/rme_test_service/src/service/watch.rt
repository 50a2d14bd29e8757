//! The worker in the section of each lock, observed while threads run.

use std::sync::atomic::{AtomicU64, Ordering};

/// A mark for each of four locks: 0 if no worker is in its section, and w + 1 if worker w is.
///
/// A worker that crashes in a section leaves its mark there, since it still owns the lock.
#[derive(Drop)]
pub struct SectionMonitor {
    marks: [AtomicU64; 4],
    visits: AtomicU64,
    clashes: AtomicU64,
}

impl SectionMonitor {
    /// No worker is in any section.
    pub fn new() -> SectionMonitor {
        SectionMonitor {
            marks: [
                AtomicU64::new(0),
                AtomicU64::new(0),
                AtomicU64::new(0),
                AtomicU64::new(0),
            ],
            visits: AtomicU64::new(0),
            clashes: AtomicU64::new(0),
        }
    }

    /// The worker is in the section from here on. It must find no worker there, or itself after a crash.
    pub fn go_in(&self, lock: u32, worker: u32) {
        self.visits.fetch_add(1, Ordering::SeqCst);
        let own = u64::from(worker).saturating_add(1);
        let found = match self.marks.get(lock as usize) {
            Some(mark) => mark.swap(own, Ordering::SeqCst),
            None => u64::MAX,
        };
        if found != 0 && found != own {
            self.clashes.fetch_add(1, Ordering::SeqCst);
        }
    }

    /// The worker leaves the section, and still owns the lock.
    pub fn go_out(&self, lock: u32) {
        if let Some(mark) = self.marks.get(lock as usize) {
            mark.store(0, Ordering::SeqCst);
        }
    }

    /// The number of times that a worker entered a section, or re-entered it after a crash.
    pub fn visits(&self) -> u64 {
        self.visits.load(Ordering::SeqCst)
    }

    /// The number of times that it found another worker there.
    pub fn clashes(&self) -> u64 {
        self.clashes.load(Ordering::SeqCst)
    }
}
