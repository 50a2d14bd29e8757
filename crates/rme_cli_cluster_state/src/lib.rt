//! A state whose log lies in an etcd cluster: `rme look` of it, and `rme move` of a state from a file to a log, or back.
//!
//! The bytes of a log are those of a state file. A look prints them, and whether a server leads the log. A move copies
//! the lines that a start accepts, as one write. The crate stands on rme_cli_cluster for the log and its faults, on
//! rme_cli_look, which prints a state, on rme_durable_file, which locks and makes files, on rme_durable_writes and
//! rme_durable_epochs, which make a write and read a state, and on rme_replica, whose store replaces all bytes of a log
//! at one moment. Its calls are `run_any_look`, which also looks at files, and `run_move`. Begin with `cluster_look.rt`
//! and `moving.rt`, then `file_to_log.rt` and `log_to_file.rt`.
#![tactic(auto)]

mod cluster_look;
mod file_to_log;
mod leader_line;
mod log_to_file;
mod move_fault;
mod moved_state;
mod moving;

pub use cluster_look::run_any_look;
pub use moving::run_move;
