//! One own step of one worker on shared atomic words, under the invariant that words and records are a world between
//! any two operations.
//!
//! The words are in a table of `atomic_table`. Each worker steps by a seat, whose ghost record says what the worker
//! knows. The rule of the table (`rule.rt`) is that all words and all records together are a world of rme_machine. The
//! crate stands on the laws of rme_machine. The crates above use that each operation of a seat is the core's step of
//! its worker. Begin with `specs/Rule.antt`, which states the rule, and then read `seat.rt`.
#![tactic(auto)]

mod chance;
mod closing;
mod effects;
pub mod laws;
pub mod layout;
mod local_changes;
mod opening;
mod operation;
mod rule;
mod seat;
mod seat_record;
mod word_table;

pub use chance::{Chance, Never};
pub use local_changes::{JobTag, LocalChange, NoChange, Restart, Submit, Withdraw};
pub use operation::Operation;
pub use seat::{Fell, WordSwap, WorkerSeat};
pub use seat_record::{Part, SeatRecord};
pub use word_table::WordTable;
