//! A durable server: sessions over one world, whose events are logged to a file.
//!
//! The sessions share one world. An order is a batch of events of the world, applied under one lock. It is answered once
//! the lines of the batch are in the log. One session commits the lines of all sessions that wait (group commit). A
//! session begins a new epoch where a checkpoint is due.
//!
//! The crate stands on rme_durable_checkpoint, whose executor applies the orders and logs them, on rme_durable_log, which
//! appends and commits the lines, on rme_durable_lookups, which answers look-ups, and on rme_session_loop, whose
//! `session` takes `DurableServer` as a backend. Crates above use `DurableServer`.
//!
//! Begin with `specs/ServerHistories.antt`, the history of a server's life, and `durable_executor.rt`, whose invariant it
//! is. Then read `durable_server.rt`, `order_attempts.rt`, where an order is tried, and `checkpoints.rt`.
#![tactic(auto)]

mod backend;
mod checkpoints;
mod durable_executor;
mod durable_server;
mod order_attempts;
mod session;
mod waiting_jobs;
mod worker_choice;

pub use durable_server::{DurableServer, ServerSetting, StateAndLog};
pub use rme_durable_log::{LogStore, NotDurable};
pub use rme_durable_lookups::LeaderNote;
pub use session::ServerTag;
pub use waiting_jobs::WaitingJobs;
