//! The keys of a log.

use std::alloc::{AllocError, Global};

/// The keys of the log of one name.
#[derive(Drop)]
pub struct LogKeys {
    head: String,
    beat: String,
    /// What the keys of all records begin with.
    records: String,
}

impl LogKeys {
    /// The keys of the log of this name.
    pub fn new(alloc: Global, name: &str) -> Result<LogKeys, AllocError> {
        Ok(LogKeys {
            head: format!(in alloc; "rme/{name}/head")?,
            beat: format!(in alloc; "rme/{name}/beat")?,
            records: format!(in alloc; "rme/{name}/e/")?,
        })
    }

    /// The key of the head.
    pub fn head(&self) -> &[u8] {
        self.head.as_bytes()
    }

    /// The key that tells that the writer runs.
    pub fn beat(&self) -> &[u8] {
        self.beat.as_bytes()
    }

    /// The first key that a record can have.
    pub fn first_record(&self) -> &[u8] {
        self.records.as_bytes()
    }

    /// A key behind those of all records.
    pub fn behind_records(&self, alloc: Global) -> Result<String, AllocError> {
        let records = self.records.as_str();
        format!(in alloc; "{records}g")
    }

    /// The first key that a record of this epoch can have.
    pub fn first_of_epoch(&self, alloc: Global, epoch: u64) -> Result<String, AllocError> {
        let records = self.records.as_str();
        format!(in alloc; "{records}{epoch:016x}/")
    }

    /// A key behind those of this epoch's records.
    pub fn behind_epoch(&self, alloc: Global, epoch: u64) -> Result<String, AllocError> {
        let records = self.records.as_str();
        format!(in alloc; "{records}{epoch:016x}0")
    }

    /// The key of a record. Keys of one epoch are in the order of their records.
    pub fn record(&self, alloc: Global, epoch: u64, sequence: u64) -> Result<String, AllocError> {
        let records = self.records.as_str();
        format!(in alloc; "{records}{epoch:016x}/{sequence:016x}")
    }
}
