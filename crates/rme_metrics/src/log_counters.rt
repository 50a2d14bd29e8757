//! The counters of logs.

use crate::snapshot::LogMetrics;
use crate::time_counter::TimeCounter;
use std::alloc::{AllocError, Global};
use std::sync::atomic::{AtomicU64, Ordering};

/// The counters of the logs of a server. Threads share them by reference: adding takes no lock and no memory.
#[derive(Drop)]
pub struct LogCounters {
    writes: TimeCounter,
    checkpoints: AtomicU64,
    checkpoint_micros: AtomicU64,
}

impl LogCounters {
    /// Counters of 0.
    pub fn new() -> LogCounters {
        LogCounters {
            writes: TimeCounter::new(),
            checkpoints: AtomicU64::new(0),
            checkpoint_micros: AtomicU64::new(0),
        }
    }

    /// Counts this number of writes to a log, each of which took about this number of microseconds.
    pub fn written(&self, micros: u64, writes: u64) {
        self.writes.add(micros, writes);
    }

    /// Counts a checkpoint that took this number of microseconds.
    pub fn replaced(&self, micros: u64) {
        self.checkpoints.fetch_add(1, Ordering::SeqCst);
        self.checkpoint_micros.fetch_add(micros, Ordering::SeqCst);
    }

    /// What they tell now.
    pub fn told(&self, alloc: Global) -> Result<LogMetrics, AllocError> {
        Ok(LogMetrics {
            write_times: self.writes.histogram(alloc)?,
            checkpoints: self.checkpoints.load(Ordering::SeqCst),
            checkpoint_micros: self.checkpoint_micros.load(Ordering::SeqCst),
        })
    }
}
