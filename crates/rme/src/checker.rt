//! The abstract machine, which checks runs.
//!
//! `Machine` takes events with their answers, one pair after another, and says of each pair whether the machine has
//! that step. `check_lines` does so with the lines of a transcript.

pub use rme_core_checker::Machine;
pub use rme_line_check::{Verdict, check_lines};
