//! Times jobs of a running service, for the benchmark `bench/threads`.
//!
//! A job is the script `Add(0, 1)` on a lock of one cell. Each thread is a worker, and makes the given number of jobs,
//! on one shared lock or on a lock of its own. The nanoseconds per job are printed, over all jobs of all threads, from
//! the release of the threads to the end of the last.

mod life;
mod run;

pub use life::live;
pub use run::{JobsRun, time_of};
