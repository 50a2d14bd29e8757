//! The log format of a durable server: the events of each order as lines, and recovery from them.
//!
//! Line 1 is a header with the base that earlier epochs left. Every other line is a command of `rme run`; the first of
//! them opens the world, and the events of an order are logged as the lines that ask for them. So the file is a run
//! that can be replayed, checked and drawn.
//!
//! The crate stands on rme_session_world, whose event batches it writes, on rme_wire and rme_line_engine, which parse
//! and execute a line, and on serde_json. The crates above use the contract of `append_batch`, by which the lines ask
//! for exactly the batch's events, and of `recover_log`, which recovers a world from the bytes of a file. Begin with
//! `batch_lines.rt`, then `recovery.rt`.
#![tactic(auto)]

mod batch_lines;
mod command_text;
mod command_writer;
mod fault;
mod file_lines;
mod header;
mod header_reader;
pub mod laws;
mod lives;
mod recovery;
mod requests;

pub use batch_lines::{append_batch, append_crashes};
pub use command_writer::CommandWriter;
pub use fault::{BadLog, LineFault};
pub use file_lines::{first_two_lines, whole_lines};
pub use header::{LastJob, LogHeader, push_header};
pub use lives::{count_batch, life_of};
pub use recovery::{NoProgress, RecoveredLog, RecoveryProgress, recover_log};
