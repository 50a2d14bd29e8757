//! The output texts: notes, receipts, entries and whole answers.
//!
//! Each text is compact JSON with sorted keys. The crate stands on rme_program and rme_script, whose notes, entries and
//! scripts it writes, on rme_history for the list of entries, on rme_words for the refusals, on rme_line_io, whose
//! public names it re-exports, and on hex, which encodes bytes; it parses nothing. The crates above use the contract of
//! each `push_` function: the text that it appends is the one of `specs/Replies.antt`. Begin with `reply.rt`.
#![tactic(auto)]

mod answer;
mod client_receipt;
mod event;
mod reply;
mod texts;
mod walked;

pub use answer::{Acknowledgement, TallyReport, push_last, push_refusal};
pub use client_receipt::{ClientReceipt, client_receipt_of};
pub use event::{EventLine, HandedJob, push_event, push_opening};
pub use reply::{Reply, push_reply};
pub use rme_line_io::{Image, Names, is_name};
pub use texts::{lock_name, push_note, push_ops, push_receipt};
pub use walked::{WalkEnd, WalkNotes, Walked};
