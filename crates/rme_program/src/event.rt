//! The events of a world, and their answers.

use crate::note::Note;
use rme_script::Job;
use rme_words::Refusal;

/// A request for one worker.
#[derive(Clone, Copy, PartialEq, Eq)]
pub enum Event {
    /// Submits a job to the worker.
    Submit(u32, Job),
    /// Executes one own step of the worker.
    Step(u32),
    /// Crashes the worker: its private state is lost.
    Crash(u32),
    /// Restarts the worker, which begins its recovery.
    Restart(u32),
    /// Makes the waiting worker withdraw its job.
    Withdraw(u32),
}

/// The answer to an event.
#[derive(Clone, Copy, PartialEq, Eq)]
pub enum Answer {
    /// The job is submitted and will have this number.
    Handed(u32),
    /// One own step was made.
    Stepped(Note),
    Crashed,
    Restarted,
    Withdrawing,
    /// Refused; nothing has changed.
    Refused(Refusal),
}
