//! A log in an etcd cluster, as the commands of the program have it: opened, looked at, and its faults.
//!
//! `open_cluster` makes the engine of a log from the words of the command line; `LeaderView` tells whether a server
//! leads the log; each fault becomes one `ClusterFault`, with a text and an exit status. The crate stands on rme_etcd,
//! whose engine it opens, on rme_replica for heads, on rme_cli_options for the request and on rme_cli_messages for the
//! faults that files have too. Begin with `opening.rt`, then `cluster_fault.rt`.
#![tactic(auto)]

mod cluster_fault;
mod leader_view;
mod opening;
mod unfinished_move;

pub use cluster_fault::{ClusterFault, LogFault, end_of_command};
pub use leader_view::LeaderView;
pub use opening::{asking_limits, new_writer, open_cluster, storing_limits};
pub use unfinished_move::{MOVER, is_unfinished_move};
