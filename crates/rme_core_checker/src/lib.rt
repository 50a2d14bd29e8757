//! The abstract machine as a checker of runs: it takes events with their answers, one pair after another, and decides
//! for each whether the machine has that step.
//!
//! A transcript of a world, or of anything that claims to be one, can be checked without trusting its writer. The
//! machine and its labels are those of rme_machine, and nothing is defined anew: `specs/Admitting.antt` states by them
//! the answer of `admits`. The crate also stands on rme_history, whose fold advances by one entry, so that the cost of
//! a pair does not grow with the transcript, apart from its script. The crates above use the contract of
//! `Machine::admits`: it answers true only for a step of the machine, which it makes. Begin with `machine.rt`, and for
//! how a step is decided with `specs/Deciding.antt`.
#![tactic(auto)]

mod checked_worker;
mod checker_state;
mod label;
mod machine;
mod stances;

pub use checked_worker::CheckedWorker;
pub use machine::Machine;
