//! `rme serve --state etcd:NAME`: the durable server over a log in an etcd cluster, with standby and take-over.
//!
//! A server stands by while another one leads the log (`standby.rt`), and claims the log once that one is quiet
//! (`serve_replicated.rt`). Then it serves as a server with a file does: rme_cli_durable has the rest. `noted_engine.rt`
//! notes why the log was lost, which `lead_watch.rt` reports at the end. The crate stands on rme_replica_state for the
//! state in a log, on rme_cli_cluster for the cluster, and on rme_cli_durable for serving. Begin with
//! `serve_replicated.rt`.
#![tactic(auto)]

mod cluster_log;
mod creating;
mod fencing;
mod lead_note;
mod lead_watch;
mod noted_engine;
mod serve_replicated;
mod standby;

pub use serve_replicated::run_serve_replicated;
