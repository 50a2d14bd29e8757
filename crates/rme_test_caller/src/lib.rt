//! Examples, as tests of a caller that names rme and no crate below it: one file for each way to use the service.
//!
//! The crate has only tests: that rme is all that a caller needs, and that the calls of each example succeed when
//! memory is available. Documents quote these files. It stands only on rme. Begin with `examples/worlds.rt`.
#![tactic(auto)]

#[cfg(test)]
mod examples;
