//! Calls that take memory, each made once more if it was refused, for `scripts/try-memory`.
//!
//! A call that is refused must say so, and leave its arguments unchanged. Then the second call answers what the first
//! would have answered. A line `refused` is printed for each refused call, and then a line of the result.

mod close;
mod run;
mod slots;
mod supervise;

pub use close::close_service;
pub use run::run_world;
pub use slots::slot_workers;
pub use supervise::supervise_workers;
