//! Tests of lines, in one thread: texts of JSON, names, orders and events, the lines of a file of keys, the orders on
//! spaces, and what the engines leave when a stream fails.
//!
//! The crate has only tests. Whole runs are rows by lines, in the folder `rows/`. It stands on the crates that it tests, so
//! that none of them is proved a second time with its tests. Begin with `texts/values.rt`, and for streams with
//! `streams/flaky.rt` and `streams/engines.rt`.
#![tactic(auto)]

#[cfg(test)]
mod keys;
#[cfg(test)]
mod spaces;
#[cfg(test)]
mod streams;
#[cfg(test)]
mod texts;
