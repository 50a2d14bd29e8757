//! The command `rme look`: the contents of a file, whether or not a process uses it.
//!
//! The file of a state is read as by the start of a server, and a file of words as its bytes are; nothing is changed.
//! The crate stands on rme_durable_format, which recovers a state, on rme_durable_epochs and rme_durable_lookups,
//! which make its status, on rme_process_file and rme_waiting, which read words, on rme_cli_options for the
//! request, and on rme_cli_messages for faults. Its calls are `run_look`, and `print_logged_state` for one in a log.
//! Begin with `look.rt`, then `state_file.rt` and `words_file.rt`.
#![tactic(auto)]

mod claims;
mod holders;
mod look;
mod rows;
mod state_file;
mod table;
mod words_file;

pub use look::{print_logged_state, run_look};
