//! The stance of a worker.

/// The stance of a worker, as a process that attaches to its number would find it.
#[derive(Clone, Copy, Debug, PartialEq, Eq)]
pub enum FileStance {
    /// It has no job.
    Ready,
    /// It waits for this lock.
    Climb(u32),
    /// It is inside this lock.
    Held(u32),
}
