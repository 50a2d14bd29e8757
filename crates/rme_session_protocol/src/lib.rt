//! The protocol of a session: the order of each line, the effect of an order on the session view, and the texts of the
//! answers.
//!
//! The crate knows no server, and its definitions specify every server of sessions: a server defines the view of its
//! session, and proves that each order is a step of that view (`SessionStep` of `specs/SessionSteps.antt`) and that
//! each line is answered by the text of that step's reply (`specs/SessionLines.antt`). The crate stands on rme_wire,
//! whose readers of a value's members it uses, on rme_line_text for the texts of receipts and refusals, and on
//! rme_line_io for lines.
//!
//! Begin with `order.rt`, the order of a line; then `view.rt`, the session view between two orders, and
//! `specs/SessionSteps.antt`; then `reply.rt`, the texts. `attempts.rt` executes an order try by try, `refusal.rt` has
//! the refusals that need no worker, and `fast_path.rt` reads the usual lines token by token.
#![tactic(auto)]

mod attempts;
mod client_label;
mod client_reply;
mod fast_path;
mod order;
mod planned_crash;
mod refusal;
mod reply;
mod tokens;
mod view;
mod worker_choice;

pub use attempts::{
    is_client_waiting, is_still_waiting, merge_client_replies, merge_replies, order_patience,
    retry_order, with_tries,
};
pub use client_label::ClientLabel;
pub use client_reply::{ClientOutcome, ClientPendingJob, ClientReply, ClientToken};
pub use order::{
    Attachment, Order, Patience, SERVICE_NUMBERS, Submission, WORLD_NUMBERS, parse_order,
};
pub use planned_crash::{Countdown, PlannedCrash};
pub use refusal::{SubmissionKind, classify_submission, pending_refusal};
pub use reply::{
    FencingToken, JobOutcome, PendingJob, SessionReply, SessionStance, push_session_reply,
};
pub use view::{PendingWorker, ReadyWorker, Session, SessionView};
pub use worker_choice::{ChoiceRequest, WorkerChoice, parse_worker_choice, push_choice_reply};
