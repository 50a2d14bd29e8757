//! Tests of the log of a durable server and of its file, over stores and files in memory.
//!
//! The crate has only tests: group commit in two threads, the first bad line of a file, the fault that tells it, the
//! writes of a file and their checksums, the lines of a file by its version, those that are written of a new state and of
//! crashes, that a failed executor stays failed, and that a state grows when memory is available. It stands on the crates
//! that it tests, so that none of them is proved a second time with its tests. Begin with `log.rt`, then `recovery.rt`.
#![tactic(auto)]

#[cfg(test)]
mod contents;
#[cfg(test)]
mod executor;
#[cfg(test)]
mod growing;
#[cfg(test)]
mod log;
#[cfg(test)]
mod log_lines;
#[cfg(test)]
mod recovery;
#[cfg(test)]
mod shared_log;
#[cfg(test)]
mod state_file;
#[cfg(test)]
mod writes;
