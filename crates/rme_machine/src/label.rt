//! The steps of the abstract machine.

use rme_program::Receipt;
use rme_script::Job;

/// One step of a worker in the abstract machine.
#[derive(Clone, Copy)]
pub enum Act {
    /// Is given a job that will have this number.
    Hand(u32, Job),
    /// Asks for the lock, under this number.
    Ask(u32),
    /// Takes the lock, which is free.
    Take(u32),
    /// Finishes its job.
    Finish(Receipt),
    /// Leaves the lock.
    Leave(u32),
    /// Withdraws the job of this number.
    Withdraw(u32),
    /// Crashes.
    Crash,
    /// Restarts.
    Restart,
    /// Re-enters its section after a crash.
    Reenter(u32),
    /// Makes a step that is not observable.
    Still,
    /// Is blocked, and still waits.
    Wait,
}

/// The label of a step: no step, or a worker's step.
#[derive(Clone, Copy)]
pub enum Label {
    Nothing,
    Of(u32, Act),
}
