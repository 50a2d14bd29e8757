//! The stance of a worker: the state of its job.

use rme_script::Job;

/// The state of a worker's job, in the abstract machine. The numbers are those of its jobs.
#[derive(Clone, Copy)]
pub enum JobStance {
    /// Has no job.
    Idle,
    /// Was given a job, which has no number yet.
    Handed(Job),
    /// Waits for the job's lock.
    Waiting(u32, Job),
    /// Owns the job's lock, and the job isn't finished.
    Inside(u32, Job),
    /// Owns the job's lock, and the job is finished.
    Finished(u32, Job),
}
