//! `rme serve --state`: the durable server.
//!
//! A start first decides everything, then listens, and only then writes (`serve_durable.rt`): it reads the keys, if
//! there are some, and the file, or plans a new one, or what is to be added to it (`requested_state.rt`), binds its
//! addresses, and opens the log. `serving.rt` serves a state wherever it lies: rme_cli_replica uses it too.
//! `state_pages.rt` has what is shown over HTTP. The crate stands on rme_durable_server
//! and the crates below it, on rme_durable_file for the file, on rme_cli_listen for the keys, on rme_cli_listen and
//! rme_cli_listen for the addresses, and on rme_cli_options and rme_cli_messages.
#![tactic(auto)]

mod log_of_state;
mod opening;
mod requested_state;
mod serve_durable;
mod server_request;
mod serving;
mod state_pages;
mod state_watch;

pub use log_of_state::{ServedLog, state_and_log};
pub use opening::open_grown;
pub use requested_state::{Growth, ServerConfig, first_lines, growth_of, usual_lines};
pub use serve_durable::run_serve_durable;
pub use server_request::{limits_of, setting_of, split_task};
pub use serving::{StateSite, serve_logged};
pub use state_watch::StateWatch;
