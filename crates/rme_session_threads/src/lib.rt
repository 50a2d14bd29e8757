//! The sessions of the running service: how a session attaches a worker, executes orders with it, and releases it.
//!
//! `slots.rt` has a slot for each worker, under a lock whose type names the service: it has the worker while no session
//! does, and counts the worker's lives. A session takes a worker out of its slot (`stand.rt`) and executes orders with it
//! (`orders.rt`); a client can plan a crash, to see its effect. The crate stands on rme_session_protocol, which defines
//! the effect of an order, on rme_table, whose values the sessions hold, and on crossbeam_utils for the pause after a
//! blocked sweep. The crates above use the contract of `obey` (`specs/ThreadSteps.antt`). Begin with `stand.rt`, then
//! `orders.rt`.
#![tactic(auto)]

mod crash_plan;
mod orders;
mod refusal;
mod slots;
mod stand;
mod work;
mod worker_slot;

pub use crash_plan::CrashPlan;
pub use orders::{detach_session, obey};
pub use rme_session_protocol::PlannedCrash;
pub use slots::Slots;
pub use stand::{Holding, Stand};
pub use worker_slot::TakenWorker;
