//! The outcome of the last call of a log, for the thread that reports the end of its server.

use rme_durable_server::LeaderNote;
use rme_etcd::EtcdFault;
use std::sync::Mutex;
use std::sync::atomic::{AtomicU64, Ordering};

/// The outcome of a call of a log.
#[derive(Clone, Copy, Debug, PartialEq, Eq)]
pub(crate) enum LeadOutcome {
    /// This server leads the log.
    Own,
    /// Another server has claimed the log.
    Overtaken,
    /// No answer came, for this reason.
    Lost(EtcdFault),
}

/// The outcome of the last call of a log, the term in which this server adds to it, and the number of its bytes. One
/// thread has the log and writes to it; every thread may read this note.
#[derive(Drop)]
pub(crate) struct LeadNote {
    /// It is locked for no longer than a copy takes.
    last: Mutex<LeadOutcome>,
    /// The term of the head that was read or put last; 0 before the first.
    term: AtomicU64,
    /// The bytes of the records that the head names.
    bytes: AtomicU64,
    /// The bytes of the parts that were staged for the next epoch.
    staged: AtomicU64,
}

impl LeadNote {
    pub(crate) fn new() -> LeadNote {
        LeadNote {
            last: Mutex::new(LeadOutcome::Own),
            term: AtomicU64::new(0),
            bytes: AtomicU64::new(0),
            staged: AtomicU64::new(0),
        }
    }

    /// Notes the outcome of a call. If another thread has the note at this moment, the earlier outcome stays.
    pub(crate) fn set(&self, outcome: LeadOutcome) {
        if let Some(mut last) = self.last.try_lock() {
            *last = outcome;
        }
    }

    /// What the last call answered.
    pub(crate) fn last(&self) -> LeadOutcome {
        match self.last.try_lock() {
            Some(last) => *last,
            None => LeadOutcome::Own,
        }
    }

    /// The leader of the log, once it is claimed: this server, which has this address.
    pub(crate) fn leader(&self, address: String) -> LeaderNote {
        LeaderNote {
            address,
            term: self.term(),
        }
    }

    /// The term of the head that was read or put last.
    pub(crate) fn term(&self) -> u64 {
        self.term.load(Ordering::SeqCst)
    }

    /// A head of this term was read or put.
    pub(crate) fn set_term(&self, term: u64) {
        self.term.store(term, Ordering::SeqCst);
    }

    /// The bytes of the log.
    pub(crate) fn bytes(&self) -> u64 {
        self.bytes.load(Ordering::SeqCst)
    }

    /// The log has this number of bytes.
    pub(crate) fn set_bytes(&self, bytes: usize) {
        self.bytes.store(bytes as u64, Ordering::SeqCst);
    }

    /// This number of bytes was staged for the next epoch.
    pub(crate) fn count_staged(&self, bytes: usize) {
        self.staged.fetch_add(bytes as u64, Ordering::SeqCst);
    }

    /// This number of bytes was added to the log, in the same epoch or behind the parts of the next one.
    pub(crate) fn count_added(&self, bytes: usize, is_same_epoch: bool) {
        let staged = self.staged.swap(0, Ordering::SeqCst);
        let before = if is_same_epoch { self.bytes() } else { staged };
        self.bytes
            .store(before.saturating_add(bytes as u64), Ordering::SeqCst);
    }
}
