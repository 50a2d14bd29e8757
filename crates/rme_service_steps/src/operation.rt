//! What threads do to the shared words. Laws use this type; no value of it is made at run time.

use rme_script::Job;

/// An operation on the words, or a change before a call's first own step. The numbers are those of workers.
#[derive(Clone, Copy)]
pub enum Operation {
    /// A reader's load, which changes nothing.
    Look,
    /// The worker, inside this lock and before its first own step there, reads the number of finished sections.
    ReadSection(u32, u32),
    /// The worker crashed, and restarts.
    Restart(u32),
    /// The worker is given a job.
    Submit(u32, Job),
    /// The worker begins to give up its job.
    Withdraw(u32),
    /// The worker's own step.
    Step(u32),
}
