//! Supervised runs.

mod begun;
mod cuts;
mod faults;
mod gates;
mod rounds;
mod runs;
mod values;
