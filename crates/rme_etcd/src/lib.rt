//! The log engine over etcd, by its JSON gateway.
//!
//! Each call is one request, which is sent again with the same bytes, at the next endpoint, until a whole answer came
//! or the call's time is over. The crate stands on rme_etcd_requests, which makes the bodies and reads the answers, on
//! rme_replica, whose `LogEngine` it implements, and on http1. Of a cluster no contract knows the log. Begin with
//! `connection.rt`, then `etcd_calls.rt` and `etcd_engine.rt`.
#![tactic(auto)]

mod connection;
mod endpoint;
mod etcd_calls;
mod etcd_engine;
mod etcd_fault;
mod gateway_request;
mod try_deadline;

pub use endpoint::Endpoint;
pub use etcd_calls::{CallLimits, EtcdUser};
pub use etcd_engine::EtcdEngine;
pub use etcd_fault::EtcdFault;
