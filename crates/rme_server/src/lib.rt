//! The running service as a backend of sessions.
//!
//! `ServiceBackend` is a backend of rme_session_loop: a session executes one order a line with the worker that it
//! took out of its slot; a job that waits for its lock is tried again when the lock may have been released; however a
//! session ends, its worker crashes and the worker's Down is back in the slot. The crate stands on rme_session_loop and
//! rme_session_server, whose public names it re-exports, and on rme_session_threads, whose `obey` it calls. Its one contract is that of
//! `Backend::answer`: each line is answered by the reply of `obey`. Begin with `service_backend.rt`.
#![tactic(auto)]

mod service_backend;
mod worker_choice;

pub use rme_line_io::{LineReader, ServeFault};
pub use rme_session_loop::{
    AnswerError, AttemptError, Backend, Buffers, Client, CloseHandle, FirstReply, LocalClient,
    NoCloseHandle, OrderAttempts, OrderRun, ReleaseCause, SessionEvent, SessionRegistry,
    WorkerClaim, session,
};
pub use rme_session_server::{
    Acceptor, Closer, Connection, Listener, Listeners, ServerLimits, ServerObserver, serve,
};
pub use rme_session_threads::{CrashPlan, Holding, PlannedCrash, Slots, Stand, TakenWorker, obey};
pub use service_backend::ServiceBackend;
