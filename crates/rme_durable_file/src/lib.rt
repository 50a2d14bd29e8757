//! The log file of a durable server on the disk: made, locked for one server, read, appended to, and replaced.
//!
//! The crate stands on rme_durable_epochs, which reads the file's bytes, on rme_durable_log, whose `LogStore` it
//! implements, and on rme_cli_messages for its faults. The store and the start are proved over any `StateStorage`; only
//! `SystemFile`, the file of the system, is trusted, and rme_replica_state has a storage in a replicated log. The crates
//! above use `open_state_file`, `make_state`, `RecoveredFile::read`, `RecoveredFile::open` and `OpenedState::grow`.
//! Begin with `state_storage.rt`, then with `state_file.rt` and `start.rt`.
#![tactic(auto)]

mod cause;
mod contents;
mod faults;
mod growing;
mod making;
mod name;
mod reading;
mod replacing;
mod start;
mod state_file;
mod state_storage;
mod system_file;

pub use cause::Cause;
pub use contents::{ContentsError, FileContents, contents_fault, line_in_file, write_end};
pub use making::create_whole;
pub use name::StateName;
pub use reading::bad_log_fault;
pub use replacing::check_replaceable;
pub use start::{OpenedState, RecoveredFile};
pub use state_file::StateFile;
pub use state_storage::{FileReadError, StateStorage};
pub use system_file::{SystemFile, make_state, open_state_file};
