//! Sessions: a client attaches a worker, submits numbered jobs to it, and detaches it.
//!
//! `Slots` has the Downs of the workers that no session has, and `SessionRegistry` the claims of the others; a
//! `ServiceBackend` is all that sessions share, and the `Backend` that answers their lines. `session` answers the lines
//! of one client, from any reader to any writer; `serve` does so for connections over TCP and Unix sockets; `obey`
//! executes one order by a call, without lines.

pub use rme_line_diagnose::Reason;
pub use rme_line_text::ClientReceipt;
pub use rme_server::{
    Acceptor, AnswerError, AttemptError, Backend, Buffers, Client, CloseHandle, Closer, Connection,
    FirstReply, Holding, Listener, Listeners, LocalClient, NoCloseHandle, OrderAttempts, OrderRun,
    PlannedCrash, ServeFault, ServerLimits, ServerObserver, ServiceBackend, SessionEvent,
    SessionRegistry, Slots, Stand, TakenWorker, obey, serve, session,
};
pub use rme_session_protocol::{
    Attachment, ChoiceRequest, ClientLabel, ClientOutcome, ClientPendingJob, ClientReply,
    ClientToken, FencingToken, JobOutcome, Order, Patience, PendingJob, SERVICE_NUMBERS,
    SessionReply, SessionStance, Submission, WORLD_NUMBERS, WorkerChoice, parse_order,
    push_session_reply,
};
