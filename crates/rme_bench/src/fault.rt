//! Why the program failed.

use rme_words::{NoMemory, Refusal};
use std::alloc::AllocError;
use std::io;

/// The words were wrong, the run could not be made, or it did not count each job once.
#[derive(Drop)]
pub struct BenchFailure;

impl From<Refusal> for BenchFailure {
    fn from(_refusal: Refusal) -> BenchFailure {
        BenchFailure
    }
}

impl From<NoMemory> for BenchFailure {
    fn from(_fault: NoMemory) -> BenchFailure {
        BenchFailure
    }
}

impl From<AllocError> for BenchFailure {
    fn from(_fault: AllocError) -> BenchFailure {
        BenchFailure
    }
}

impl From<io::Error> for BenchFailure {
    fn from(_fault: io::Error) -> BenchFailure {
        BenchFailure
    }
}
