//! The calls by which C processes over one mapped file run the step machine of a worker: a static library.
//!
//! A worker's private state is in an opaque handle; the shared words stay with C. `next` answers the worker's next own
//! steps as plain actions on numbered words. C makes each of them in turn and records the value that it found; `after`
//! takes these values and answers their outcome. This crate touches no shared word, and C decides nothing.
//!
//! Each call is one of `rme_process_core`, for the worker of a handle. The contracts are those of `exports.rt`; the
//! clause `call` says which events of its worker a call makes, and `rme_laws` what calls and operations of many
//! processes make together. Begin with `flat.rt` of `rme_process_core`, which has what C reads and writes; then
//! `exports.rt`.
#![tactic(auto)]

mod exports;
mod handle;
mod raw_box;
#[cfg(test)]
mod tests;
mod words;
