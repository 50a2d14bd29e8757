//! The phases of a worker on the shared words: Recover, Post, Enter, Section and Exit, each as straight-line code.
//!
//! Each function here makes the own steps of one phase, or of a part of one, by a worker's seat: one operation on one
//! word after another, with a question to the Chance before each. The code reads as the algorithm's text; what the
//! worker knows at each step is in the seat's record, in proofs only. The crate stands on rme_service_steps. The crates
//! above use that each phase without a crash makes a known number of the core's own steps and ends at a known stage
//! (`CallProgress`), and that a crash leaves fewer (`CallFell`); both are in rme_service_steps' `specs/CallSteps.antt`.
//! Begin with `climbing.rt`, the shortest.
#![tactic(auto)]

mod climbing;
mod copying;
mod leaving;
mod logging;
mod open_section;
mod posting;
mod reading;
mod recovering;
mod section;

pub use climbing::{Climbed, climb};
pub use leaving::{clear, leave, withdraw};
pub use posting::post;
pub use reading::read_script;
pub use recovering::{RecoveredWorker, ResumePoint, recover};
pub use section::perform;
