//! The head of a log.

use std::alloc::{AllocError, Global};
use std::marker::Model;

/// The head of a log: what it does not name does not exist. In contracts it is its five values. No two heads are equal:
/// each run of a writer has a mark of its own, and each of its adds puts another number of records or another epoch.
#[derive(Drop)]
pub struct Head {
    address: String,
    epoch: u64,
    sequence: u64,
    term: u64,
    writer: [u8; 12],
}

impl Model for Head {
    ghost use Rattle.std.specs.Prelude.{string_bytes};
    ghost use Rattle.rme_replica.specs.EngineLogs.{HeadValue};

    ghost Value = { HeadValue };

    ghost view = { λ head. record {
      address = string_bytes head.address;
      epoch = head.epoch;
      sequence = head.sequence;
      term = head.term;
      writer = head.writer;
    } };
}

impl Head {
    ghost use Rattle.std.specs.Prelude.{◌≡◌, ◌≢◌, IfOk, MatchBool, string_bytes};
    ghost use Rattle.rme_replica.specs.EngineLogs.{placed};

    /// A head in the first epoch, before its first record.
    pub fn new(address: String, term: u64, writer: [u8; 12]) -> Head
        ensures address { result.address ≡ string_bytes address }
        ensures epoch { result.epoch ≡ 0 }
        ensures sequence { result.sequence ≡ 0 }
        ensures term { result.term ≡ term }
        ensures writer { result.writer ≡ writer }
    {
        Head {
            address,
            epoch: 0,
            sequence: 0,
            term,
            writer,
        }
    }

    /// A copy of the head.
    pub fn copy(&self, alloc: Global) -> Result<Head, AllocError>
        ensures { IfOk result (λ copy. copy ≡ self.now) }
    {
        Ok(Head {
            address: String::from_str(alloc, self.address.as_str())?,
            epoch: self.epoch,
            sequence: self.sequence,
            term: self.term,
            writer: self.writer,
        })
    }

    /// Where the writer is reached.
    pub fn address(&self) -> &str
        ensures { result.now ≡ self.now.address }
    {
        self.address.as_str()
    }

    /// The number of the epoch. Each replacement of all bytes begins one.
    pub fn epoch(&self) -> u64
        ensures { result ≡ self.now.epoch }
    {
        self.epoch
    }

    /// The number of the epoch's records that the head names.
    pub fn sequence(&self) -> u64
        ensures { result ≡ self.now.sequence }
    {
        self.sequence
    }

    /// The number of the writer's claim.
    pub fn term(&self) -> u64
        ensures { result ≡ self.now.term }
    {
        self.term
    }

    /// The mark of the writer's run.
    pub fn writer(&self) -> &[u8; 12]
        ensures { result.now ≡ self.now.writer }
    {
        &self.writer
    }

    /// Names this number of records of this epoch.
    pub fn set_place(&mut self, epoch: u64, sequence: u64)
        ensures { self.new ≡ placed self.old epoch sequence }
    {
        self.epoch = epoch;
        self.sequence = sequence;
    }

    /// Whether two heads are equal.
    pub fn is_same(&self, other: &Head) -> bool
        ensures { MatchBool result (self.now ≡ other.now) (self.now ≢ other.now) }
    {
        if self.address.as_str() != other.address.as_str() {
            return false;
        }
        if self.epoch != other.epoch || self.sequence != other.sequence {
            return false;
        }
        self.term == other.term && self.writer == other.writer
    }
}
