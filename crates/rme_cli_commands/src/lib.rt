//! The commands `serve` without a state, `threads` and `draw`, each over the standard streams.
//!
//! rme_cli_lines has the commands that only read and write lines, rme_cli_look has `look`, and rme_cli_durable has
//! `serve --state`. This crate stands on rme_supervisor, with which `threads.rt` runs workers in threads, on rme_server
//! and rme_cli_listen, with which `serve.rt` serves workers to clients, and on rme_draw_history, with which `draw.rt`
//! draws a transcript; `final_report.rt` has the report at the end of a service. Begin with `threads.rt`.
#![tactic(auto)]

mod draw;
mod final_report;
mod progress_gate;
mod serve;
mod threads;

pub use draw::run_draw;
pub use serve::run_serve;
pub use threads::run_threads;
