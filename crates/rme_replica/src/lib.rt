//! A log store over any replicated engine, and the proof that a lost answer loses nothing.
//!
//! An engine keeps a log in more than one place, and adds to it only where its head is the one that the caller saw.
//! `ReplicaLog` adds lines through it, tries a lost add again, and takes no more lines once it was fenced: another
//! writer's head is then in the log.
//!
//! The crate stands on rme_durable_log alone, whose `LogStore` it implements. The crates above implement `LogEngine`,
//! and give a `ReplicaLog` to `OpenLog`; `MemoryEngine` is an engine whose log contracts know. Begin with `engine.rt`
//! and `specs/EngineLogs.antt`, then `tries.rt` and `replica_log.rt`; that an add is made at most once is in
//! `specs/Tries.antt`.
#![tactic(auto)]

mod engine;
mod head;
mod laws;
mod losses;
mod memory_engine;
mod memory_log;
mod named_bytes;
mod ownership;
mod parts;
mod replica_log;
mod rival;
mod tries;

pub use engine::{Added, LogEngine, Lost};
pub use head::Head;
pub use laws::lost_add_is_made_once;
pub use losses::Losses;
pub use memory_engine::MemoryEngine;
pub use ownership::Ownership;
pub use replica_log::{Claimant, ReplicaLog};
