//! The state of a durable server in a log on a replicated engine.
//!
//! `ReplicaState` is a `StateStorage` of rme_durable_file, beside the file of the system: each write is one record of
//! the log, closed by a checksum as in a file, so that the joined records are the bytes of a state's file. It claims the
//! log by the first lines that it appends. The crate stands on rme_replica for the log and on rme_durable_writes for the
//! checksums. The crates above use `ReplicaState::read` and `first_record`. Begin with `specs/SealedLogs.antt`, then
//! `replica_state.rt`.
#![tactic(auto)]

mod records;
mod replica_state;

pub use records::first_record;
pub use replica_state::{ReadFault, ReplicaState};
