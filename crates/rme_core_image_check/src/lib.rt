//! Decides which words and histories are those of a world with all workers down.
//!
//! The crate stands on rme_history, whose `replay` decides the entries of each lock, and on rme_machine, whose
//! `IsValidMemory` it decides. `is_valid_memory` answers true if and only if each clause of an image holds, from the
//! one on nodes to the one on entries: a reader of images calls it on the contents of the bytes. `slate` and
//! `is_pending` read one worker's job from the words. Begin with `validity.rt`, and then with `specs/Workers.antt` and
//! `specs/Locks.antt`, the conditions on one worker and on one lock.
#![tactic(auto)]

mod last_entry_lists;
mod locks;
mod receipts;
mod shadows;
mod slates;
mod trees;
mod validity;
mod workers;

pub use slates::{is_pending, slate};
pub use validity::is_valid_memory;
