//! A job: the request of a worker to a lock.

use crate::script::Script;

/// A script to be run on the cells of a lock while that lock is held.
#[derive(Clone, Copy, PartialEq, Eq)]
pub struct Job {
    /// The lock's number.
    pub lock: u32,
    /// The operations on the lock's cells.
    pub script: Script,
}
