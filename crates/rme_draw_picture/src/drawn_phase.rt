//! The phases in which a worker is drawn.

/// The phase of a worker, as far as the machine and its events show it.
#[derive(Clone, Copy)]
pub enum DrawnPhase {
    /// May be given a job.
    Ready,
    /// Has a job, and logs it.
    Post,
    /// Waits for its lock.
    Enter,
    /// Owns its lock, and its job is not finished.
    Section,
    /// Releases nodes, or gives up its job.
    Exit,
    /// Restarted after a crash, and no note has shown yet where it continues.
    Recover,
    /// Crashed.
    Down,
}
