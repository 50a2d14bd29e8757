//! The orders of sessions, executed as events of a world.
//!
//! A session over a world executes orders by the same definition as one over the running service: its view of a worker
//! comes from the abstract state of the world, and each order is a list of events of that one worker, among them its
//! submission, own steps and crash. So whatever holds after any list of events holds after any orders, and a log of the
//! events is enough to rebuild the same world.
//!
//! The crate stands on rme_session_protocol, which defines the effect of an order, and on rme_world, whose calls are
//! the events. The crates above use `Executor` and the clauses of its calls (`executor.rt`, `specs/Executors.antt`).
//! Begin there, then `orders.rt`, which applies an order, and `running.rt`, where a worker makes its own steps.
#![tactic(auto)]

mod at_rest;
mod event_batch;
mod executor;
mod orders;
mod refusal;
mod running;
mod session_of_worker;
mod work;

pub use event_batch::{BatchStart, EventBatch};
pub use executor::{ExecutedOrder, Executor, SessionState};
