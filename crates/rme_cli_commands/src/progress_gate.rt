//! The progress of supervised workers, shown while they run.

ghost use Rattle.std.specs.Prelude.{◌<◌};

use rme_supervisor::Gate;
use std::io::Eprint;
use std::sync::atomic::{AtomicU64, Ordering};

/// The line is written at most about this number of times in a run.
const MOST_LINES: u64 = 1000;

/// Admits every worker, and shows on the standard error how many of the jobs are over.
#[derive(Drop)]
pub struct ProgressGate<'a, R> {
    rt: &'a R,
    jobs: u64,
    over: AtomicU64,
}

impl<'a, R> ProgressGate<'a, R> {
    pub fn new(rt: &'a R, jobs: u64) -> ProgressGate<'a, R> {
        ProgressGate {
            rt,
            jobs,
            over: AtomicU64::new(0),
        }
    }

    /// The number of jobs after which the line is written again.
    fn every(&self) -> u64
        ensures { 0 < result }
    {
        (self.jobs / MOST_LINES).max(1)
    }
}

impl<R: Eprint> ProgressGate<'_, R> {
    /// Ends the line, if it was begun, before other output.
    pub fn end(&self) {
        if self.over.load(Ordering::SeqCst) >= self.every() {
            let _ = eprintln!(self.rt; "");
        }
    }
}

impl<R: Eprint> Gate for ProgressGate<'_, R> {
    fn inside(&self, _worker: u32, _lock: u32) -> bool {
        true
    }

    fn over(&self, _worker: u32, _lock: u32, _number: u32) {
        let over = self.over.fetch_add(1, Ordering::SeqCst).saturating_add(1);
        if over % self.every() == 0 || over == self.jobs {
            // A failed write is ignored.
            let _ = eprint!(self.rt; "\r{over} of {} jobs", self.jobs);
        }
    }
}
