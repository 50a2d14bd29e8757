//! The checkpoint of a long epoch: another epoch, in which clients see the same state.
//!
//! A new epoch is built from the old one by the same lines that recovery reads, and compared with it before it is
//! answered: what a server replaces its log by is known to show the same (`checkpointing.rt`, `specs/Checkpoints.antt`).
//! A growth is a new epoch of a larger shape (`growing.rt`, `specs/Growths.antt`). The crate stands on rme_durable_epochs,
//! whose executors it builds and compares, and on rme_durable_format, which writes and reads the lines. The crates above
//! use the contracts of `Checkpoint::of` and `Checkpoint::grown`. Begin with `checkpointing.rt`.
#![tactic(auto)]

mod alike;
mod checkpoint_builder;
mod checkpointing;
mod growing;
mod growth_validation;
mod outgoing;
mod setting;
mod validation;

pub use checkpoint_builder::CheckpointFailed;
pub use checkpointing::Checkpoint;
pub use setting::MOST_SET;
