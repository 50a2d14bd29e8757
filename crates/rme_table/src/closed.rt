//! The answers of a closed service.

use crate::down::Down;
use crate::service::Service;
use rme_program::Entry;
use rme_words::Refusal;

/// The locks of a closed service, in order.
#[derive(Drop)]
pub struct Closed {
    pub locks: Vec<ClosedLock>,
}

/// A lock of a closed service: its cells, the worker that owns it, whether the cells are settled (they are not if the
/// owner's section is unfinished), and its finished sections in the order of their places.
#[derive(Drop)]
pub struct ClosedLock {
    pub cells: Vec<u64>,
    pub owner: Option<u32>,
    pub settled: bool,
    pub entries: Vec<Entry>,
}

/// The locks of a service that was closed with counts, in order.
#[derive(Drop)]
pub struct CountedService {
    pub locks: Vec<CountedLock>,
}

/// A lock of a closed service as in `ClosedLock`, with only the number of its finished sections.
#[derive(Drop)]
pub struct CountedLock {
    pub cells: Vec<u64>,
    pub owner: Option<u32>,
    pub settled: bool,
    pub entries: u64,
}

/// The service was not closed; it and all given Downs come back unchanged. `why` is `NoWorker` if some worker's Down
/// was not given, otherwise `NoMemory`.
#[derive(Drop)]
pub struct Unclosed {
    pub why: Refusal,
    pub service: Service,
    pub downs: Vec<Down>,
}
