//! Tests of the running service and of the supervisor over it, by public calls of rme.
//!
//! In `service/` and `supervisor/` each test is a list of calls or plans with the expected results, worked out by hand
//! from the model and never taken from a run. The crate has only tests: that public calls succeed when memory is
//! available, and what no clause says: the result after a crash at each own step, the result of concurrent threads, and
//! that two sections of different locks run at the same time. It stands only on rme. Begin with `test_values.rt`, which
//! has the values of both parts; then `service/calls.rt` and `supervisor/runs.rt`.
#![tactic(auto)]

#[cfg(test)]
mod service;
#[cfg(test)]
mod supervisor;
#[cfg(test)]
mod test_values;
