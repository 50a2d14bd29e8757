//! One operation on one word.

use rme_words::Address;

/// One own step of a worker: one operation on one shared word.
#[derive(Clone, Copy, PartialEq, Eq)]
pub enum Action {
    /// Reads the word.
    Load(Address),
    /// Stores this value into the word.
    Store(Address, u64),
    /// Compare-and-swap: stores the second value if the word has the first, and finds the value that the word had.
    Swap(Address, u64, u64),
}
