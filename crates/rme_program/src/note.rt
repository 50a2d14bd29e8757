//! The note of a step, and the record of a finished section.

use rme_script::Script;

/// The value of the word `Place` of a worker whose last number was withdrawn: it has no receipt. No section has this
/// place.
pub const WITHDRAWN_PLACE: u64 = u64::MAX;

/// The receipt of one job: the worker and its number, the lock, the place among that lock's sections (from 0), and the
/// reply of the script.
#[derive(Clone, Copy, PartialEq, Eq)]
pub struct Receipt {
    pub worker: u32,
    pub lock: u32,
    pub number: u32,
    pub place: u32,
    pub reply: u64,
}

/// One finished section: its receipt, and the script that was run.
#[derive(Clone, Copy)]
pub struct Entry {
    pub receipt: Receipt,
    pub script: Script,
}

/// The observable effect of one step of a worker.
#[derive(Clone, Copy, PartialEq, Eq)]
pub enum Note {
    /// Nothing observable.
    Quiet,
    /// The job has this number, and the worker waits for its lock.
    Asked(u32),
    /// The other side holds the worker's node, and the worker keeps its stage.
    Blocked,
    /// The worker owns this lock.
    Entered(u32),
    /// The worker found that it has owned this lock since before its crash.
    Reentered(u32),
    /// The job is finished.
    Finished(Receipt),
    /// The lock is free.
    Left(u32),
    /// The worker may be given a job.
    Ready,
    /// The job of this number is withdrawn.
    Withdrew(u32),
}
