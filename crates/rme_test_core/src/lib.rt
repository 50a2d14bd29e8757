//! Tests by calls, in one thread: values worked out by hand, worlds and histories, images, and the checker's machine.
//!
//! The crate has only tests: that the definitions of the crates below say what was meant, and that calls succeed which no
//! line makes. Whole runs are rows by lines, in the folder `rows/`, and transcripts there show which steps the machine
//! has; texts and streams are in rme_test_lines. It stands on the crates that it tests, so that none of them is proved a
//! second time with its tests. Begin with `parts/words.rt`.
#![tactic(auto)]

#[cfg(test)]
mod checker;
#[cfg(test)]
mod images;
#[cfg(test)]
mod mapped;
#[cfg(test)]
mod parts;
#[cfg(test)]
mod session_world;
#[cfg(test)]
mod world;
