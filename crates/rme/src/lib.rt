//! A facade: it re-exports what a caller needs of the crates below.
//!
//! A caller names only this crate. The root has the types that all parts share: the sizes of a service, jobs and their
//! scripts, receipts, and the refusals. Each way to use the service has a module: a `world` whose every step the caller
//! decides, a running `service` whose workers are values that threads hold, a `supervisor` that restarts such workers,
//! `sessions` that give them to clients, `lines` in and out, and a `checker` for transcripts. The crate has no logic:
//! the contract and the README of the crate below say what each name promises. Its examples are the tests of
//! rme_test_caller. Begin with `world.rt`.
#![tactic(auto)]

pub mod checker;
pub mod lines;
pub mod service;
pub mod sessions;
pub mod supervisor;
pub mod world;

pub use rme_program::{Entry, Phase, Receipt};
pub use rme_script::{Job, MOST_OPERATIONS, Op, Row, Script};
pub use rme_words::{MOST_CELLS, MOST_JOBS, MOST_LOCKS, MOST_WORKERS, NoMemory, Refusal, Shape};
