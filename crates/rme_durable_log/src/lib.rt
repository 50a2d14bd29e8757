//! A write-ahead log with group commit, and the proof that what was committed was in the store.
//!
//! A thread that changes state under the executor's lock appends its lines there, and then holds a position: a prefix
//! of the log. One thread at a time writes all pending lines to the store, for all that wait. `GroupCommit::commit`
//! answers that a prefix is durable only if there was a moment at which the store held exactly that prefix, perhaps
//! with lines after it.
//!
//! The log as a list exists only in proofs (`logbook`); threads share two numbers, the count of appended entries and
//! the count of durable ones. The crate stands on nothing else of this repository. The crates above use `LogStore`,
//! which they implement, `OpenLog`, which opens a log, `LogAppender`, which is under their lock, and `GroupCommit`.
//! Begin with `log_store.rt` and `specs/Logs.antt`, then `log_appender.rt`, `log_writer.rt` and `group_commit.rt`.
#![tactic(auto)]

mod durable_up_to;
mod gathering;
mod group_commit;
mod log_appender;
mod log_author;
mod log_entry;
mod log_position;
mod log_rule;
mod log_store;
mod log_writer;
mod open_log;
mod spinning;

pub use group_commit::{GroupCommit, PendingLines, QuickWrite};
pub use log_appender::{LogAppender, PendingBatch};
pub use log_author::LogAuthor;
pub use log_entry::LogEntry;
pub use log_position::LogPosition;
pub use log_rule::LogTag;
pub use log_store::{LogStore, NotDurable};
pub use log_writer::LogWriter;
pub use open_log::OpenLog;
pub use spinning::lock_with_spin;
