//! Where the program's servers listen, who may use them, and what they tell of themselves.
//!
//! - **Addresses**: `bound_addresses.rt` binds a port, a Unix socket or both, and prints them; `socket.rt` creates the
//!   socket's file, which never replaces another server's, and removes it at the end.
//! - **Messages**: `stderr_observer.rt` reports on the standard error what a server does not serve, and logs there what
//!   happens to its workers, by the sentences of `event_line.rt`.
//! - **Keys**: a `KeysFile` (`keys_file.rt`) is the file of `--keys`, read at a server's start, and again when the file
//!   has changed; it is a `KeySource` of rme_session_keys.
//! - **HTTP**: `HttpPort` is the port of `--http`. `serve_metered` (`metered_server.rt`) serves sessions as `serve` of
//!   rme_session_server does, counts what they are answered, and serves `Pages` on the HTTP port beside. `ServicePages`
//!   are those of a server without a state; rme_cli_durable and rme_cli_spaces have those of the others, whose status is
//!   asked for as by a client (`look_up.rt`).
//!
//! The crate stands on rme_session_server, whose listeners it makes, on rme_keys and rme_session_keys, on rme_http,
//! rme_metrics and rme_session_metrics, on rme_ask_client, which reads a status, on rme_cli_options for the request, on
//! rme_cli_messages for texts, and on jiff for times. Begin with `bound_addresses.rt`.
#![tactic(auto)]

mod bound_addresses;
mod event_line;
mod http_port;
pub mod key_laws;
mod key_opening;
mod keys_fault;
mod keys_file;
mod look_up;
mod metered_server;
mod service_pages;
mod socket;
mod state_metrics;
mod stderr_observer;

pub use bound_addresses::{BoundAddresses, BoundServer, listen};
pub use http_port::HttpPort;
pub use key_opening::{RefusedKeys, keyed, open_keys};
pub use keys_fault::KeysFault;
pub use keys_file::KeysFile;
pub use look_up::look_up_status;
pub use metered_server::{HTTP_STACK, MeteredSite, serve_metered};
pub use service_pages::ServicePages;
pub use state_metrics::{StatusText, state_metrics_text};
pub use stderr_observer::StderrObserver;
