//! What a client may look up in a durable world: the owner and the cells of a lock, and the status of all.
//!
//! An answer is a function of the epoch, its base and its world, and, for a status, of who leads the log and of notes on
//! the workers, which a server keeps in memory. The crate stands on rme_durable_epochs, whose executor it reads, on
//! rme_line_json and rme_line_text, and on rme_waiting, which says whose node a worker waits for. The server and
//! `rme look` use `push_status`; the server also `parse_lookup`, `write_lookup` and `WorkerNotes`. Begin with `status.rt`,
//! whose text `specs/StatusTexts.antt` defines.
#![tactic(auto)]

mod lookup;
mod lookup_answer;
mod status;
mod status_notes;
mod worker_notes;

pub use lookup::{SessionLookup, parse_lookup};
pub use lookup_answer::write_lookup;
pub use status::{
    LockStatus, StatusSource, WorkerStance, WorkerStatus, clients_of, lock_status,
    push_cell_values, push_status, worker_stance, worker_status,
};
pub use status_notes::{LeaderNote, StatusNotes};
pub use worker_notes::{WorkerNote, WorkerNotes};
