//! The commands of `rme` that only read and write lines, `run`, `check` and `explain`, each over the standard streams.
//!
//! The crate stands on rme_line_engine, whose engines it runs, on rme_line_check, which checks transcripts, on
//! rme_cli_options for the tasks, and on rme_cli_messages for the output of `explain` and for the texts and statuses of
//! faults. It is a separate crate so that these commands are checked without the crates of threads, sockets and
//! pictures. A run that begins or ends with a saved world is in `image.rt`, and `saving.rt` replaces an image file.
//! Begin with `command.rt`.
#![tactic(auto)]

mod check;
mod command;
mod image;
mod lines;
mod saving;

pub use check::{print_verdict, verdict_status};
pub use command::perform_lines;
