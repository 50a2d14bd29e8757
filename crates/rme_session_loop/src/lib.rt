//! Sessions over lines, for any backend: a client attaches a worker, submits numbered jobs to it, and detaches it.
//!
//! A `session` has each line answered by a `Backend`. The crate knows no world and no running service: a backend
//! defines how it answers a line, and the contract of `session` is that each line is answered as the backend defines,
//! in order, and that nothing else is written. `OrderRun` is the one loop in which an order waits, and
//! `SessionRegistry` has the claims of the workers and the wait queues. The crate stands on rme_session_protocol, which
//! reads the orders and writes the answers, on rme_line_io, which cuts lines, and on crossbeam_utils. Begin with
//! `backend.rt` and `session_loop.rt`, then `order_run.rt`.
#![tactic(auto)]

mod attempt_error;
mod backend;
mod buffers;
mod client;
mod order_attempts;
mod order_run;
mod session_event;
mod session_loop;
mod session_registry;
mod wait_backoff;
mod wait_queue;

pub use attempt_error::{AnswerError, AttemptError};
pub use backend::Backend;
pub use buffers::{Buffers, push_reply_line};
pub use client::{Client, CloseHandle, LocalClient, NoCloseHandle};
pub use order_attempts::{FirstReply, OrderAttempts, OrderRequest};
pub use order_run::OrderRun;
pub use session_event::SessionEvent;
pub use session_loop::{SessionContext, SessionEnd, answer_lines, session};
pub use session_registry::{ReleaseCause, SessionRegistry, WorkerClaim, is_take_over};
