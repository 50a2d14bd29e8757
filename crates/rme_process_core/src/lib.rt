//! The step machine of one worker of processes over one mapped file, with no input or output.
//!
//! A `CoreWorker` has a worker's private state; the shared words are elsewhere. `predict` answers the worker's next own
//! steps as plain actions on numbered words; the caller makes each of them in turn and records the value that it found;
//! `accept_values` takes these values and answers their outcome.
//!
//! The crate stands on `rme_program`, whose `next` and `after` it offers in batches, and on the crates below that. The
//! contracts are those of `worker.rt`: the actions of a batch are those of the worker's next own steps while the batch
//! continues (`Predicts` of `specs/Batches.antt`), and a value is accepted only if a world can have it (`ValuesTaken`
//! and `ValueDamaged` of `specs/Folds.antt`). `specs/Processes.antt` says what the calls and operations of one process
//! among many are. Begin with `flat.rt`, which has what C reads and writes. `batch.rt` predicts the steps, with
//! `runs.rt`, `loads.rt` and `stores.rt`; `accepting.rt` accepts the values, whole runs by `fast_forwarding.rt`.
#![tactic(auto)]

mod accepting;
mod actions;
mod answers;
mod batch;
mod expected_slate;
mod fast_forwarding;
mod flat;
mod loads;
mod notes;
mod prediction;
mod runs;
mod stores;
mod worker;

pub use answers::{BATCH_OUT, DAMAGED, NO_BATCH, NO_WORD};
pub use expected_slate::ExpectedSlate;
pub use flat::{Batch, BatchOutcome, FlatAction, FlatNote, FlatStance, MOST_ACTIONS};
pub use worker::CoreWorker;
