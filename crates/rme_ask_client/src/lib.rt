//! A client of a server: the requests that it sends, the lines of a conversation, and what the answers say.
//!
//! A `Conversation` sends one line and receives one, over any two streams. The crate stands on rme_line_io, which cuts
//! and writes lines, and on serde_json, which reads the answers; it knows no world and no server. Its contracts: the
//! lines that are sent are those of the requests (`specs/RequestTexts.antt`), an answer is the line that was received
//! (`specs/Conversations.antt`), each number and name of an answer is that of its member (`specs/JobAnswers.antt`,
//! `specs/StatusAnswers.antt`, `specs/SpaceAnswers.antt`), and an answer is refused only where it lacks one
//! (`specs/Members.antt`). Begin with `conversation.rt`, then `request.rt` and `answer.rt`.
#![tactic(auto)]

mod answer;
mod client_error;
mod conversation;
mod job_answers;
mod members;
mod request;
mod space_answers;
mod status_answer;

pub use answer::{RefusedAnswer, ServerAnswer};
pub use client_error::ClientError;
pub use conversation::Conversation;
pub use job_answers::{
    AttachedWorker, ReportedJob, ReportedOutcome, ReportedReceipt, ReportedStance, attached_worker,
    job_outcome, last_receipt, pending_job, withdrawn_number,
};
pub use request::{ClientRequest, CreateRequest, push_request};
pub use space_answers::{SpacesPage, spaces_page};
pub use status_answer::{
    CellsAnswer, ReportedLeader, ReportedLock, ReportedWorker, ServerStatus, cells_answer,
    owner_answer, server_status,
};
