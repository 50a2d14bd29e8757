//! The session view between two orders.

use crate::planned_crash::PlannedCrash;
use rme_program::Receipt;
use rme_script::Job;

/// A worker that is ready for a job.
#[derive(Clone, Copy)]
pub struct ReadyWorker {
    pub worker: u32,
    /// Its last number, finished or withdrawn, or 0.
    pub number: u32,
    /// The outcome of that number: `None` if it was withdrawn, or there was none.
    pub last: Option<Receipt>,
}

/// A worker with a job that is not finished.
#[derive(Clone, Copy)]
pub struct PendingWorker {
    pub worker: u32,
    /// The job's number.
    pub number: u32,
    /// The job, as it was submitted.
    pub draft: Option<Job>,
}

/// The stance of a session's worker.
#[derive(Clone, Copy)]
pub enum Session {
    /// The session has no worker.
    Nobody,
    /// The worker is ready for a job.
    Ready(ReadyWorker),
    /// The worker's job waits for its lock.
    Climb(PendingWorker),
    /// The worker owns its job's lock, and the job is not finished.
    Held(PendingWorker),
}

/// The view of a session between two orders: its worker's stance, and the planned crash.
#[derive(Clone, Copy)]
pub struct SessionView {
    pub session: Session,
    pub planned: PlannedCrash,
}
