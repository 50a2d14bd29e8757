//! The engines over lines: the answers and the transcript of a world.
//!
//! The crate stands on rme_wire, which cuts lines and parses their requests, on rme_line_text, which writes the
//! answers, on rme_world, whose calls execute them, and on rme_history, whose tally `report` answers. The program uses
//! three contracts. `run_lines` writes, for the lines that were read, the answer of each in order and nothing else
//! (`LineRun` of rme_line_io). `transcript_lines` writes the events of each in place of its answer
//! (`specs/Transcripts.antt`). `answer_lines` does as `run_lines` over an `Engine`, which may begin with a saved world
//! and whose world can be saved at the end.
//!
//! A caller without lines has `TalliedWorld`, whose `obey` executes a command and whose `walk` makes many steps. Begin
//! with `run.rt`, then `engine.rt`, and then `obey.rt`, which has the effect of each command.
#![tactic(auto)]

mod engine;
mod event_lines;
pub mod laws;
mod loaded;
mod obey;
mod opened_world;
mod run;
mod tallied;
mod walk;

pub use engine::Engine;
pub use run::{answer_lines, run_lines, transcript_lines};
pub use tallied::TalliedWorld;
