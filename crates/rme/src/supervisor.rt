//! Workers that a supervisor restarts by plans, each life in a thread of its own.
//!
//! `supervise` takes a service, the Downs of all its workers and a plan for each, and answers a `Report` once all have
//! ended; `attend` gives the Downs back, and leaves the service open. A `Gate` is notified of each section; `Free` lets
//! all pass.

pub use rme_supervisor::{
    Attended, End, Fault, Free, Gate, Report, RunContext, Schedule, Unattended, WorkerPlan, attend,
    supervise,
};
