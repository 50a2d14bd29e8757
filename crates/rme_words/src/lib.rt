//! The words of a lock service: its shape, its addresses, and a bank of 64-bit words that survive a crash.
//!
//! This crate stands only on `std`, and every other crate stands on it. It defines the number of each word and the
//! effect of a store, and nothing about the meaning of words. The crates above use one contract, `StoreEffect` of
//! `specs/Words.antt`: after a store one address has the value, and every other address keeps its value. Begin with
//! `address.rt`, which gives the purpose of each word.
#![tactic(auto)]

mod address;
mod bank;
mod limits;
mod numbers;
mod refusal;
mod shape;

pub use address::Address;
pub use bank::Bank;
pub use limits::{MOST_CELLS, MOST_JOBS, MOST_LOCKS, MOST_WORKERS};
pub use refusal::{NoMemory, Refusal};
pub use shape::Shape;
