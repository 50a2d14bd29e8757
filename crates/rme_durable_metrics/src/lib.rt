//! Counting the writes to a log, over any store.
//!
//! A `MeteredStore` stores exactly as the store below it, and counts how long writes and checkpoints took. It
//! takes no lock and no memory. The crate stands on rme_durable_log, which has the trait of stores, and on rme_metrics,
//! which has the counters.
#![tactic(auto)]

mod metered_store;

pub use metered_store::{MeteredStore, WriteSample};
