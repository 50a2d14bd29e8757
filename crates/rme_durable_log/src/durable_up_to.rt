//! How far the log is durable, readable without a lock.

ghost use Rattle.std.specs.Prelude.{◌≡◌, false};

use crate::log_entry::LogEntry;
use crate::log_position::LogPosition;
use crate::log_rule::{LogRule, LogTag};
use crate::log_store::LogStore;
use crate::spinning::{ROUNDS, TURNS};
use logbook::Word;
use std::marker::PhantomData;
use std::sync::atomic::{AtomicBool, Ordering};
use std::{hint, thread};

/// How far the log is durable, readable without a lock.
#[derive(Drop)]
pub(crate) struct DurableUpTo<L: LogStore, J: LogTag> {
    /// The number of durable entries after the first.
    kept: Word<LogEntry, u64, LogRule<L>>,
    /// Whether a thread is writing.
    is_writing: AtomicBool,
    /// Whether the store is shared.
    is_shared: bool,
    of: PhantomData<J>,
    ghost kept_is: { (kept.tracked ≡ false) × (kept.book ≡ J.book) },
    ghost shared_is: { is_shared ≡ L.shared },
}

impl<L: LogStore, J: LogTag> DurableUpTo<L, J> {
    ghost use Rattle.std.specs.Prelude.{◌≡◌, IsTrue, false};
    ghost use Rattle.rme_durable_log.specs.Logs.{IsCommitted, IsLogDurable};

    /// The durable mark of this word, with no thread writing.
    pub(crate) fn new(kept: Word<LogEntry, u64, LogRule<L>>, is_shared: bool) -> DurableUpTo<L, J>
        requires kept { (kept.tracked ≡ false) × (kept.book ≡ J.book) }
        requires shared { is_shared ≡ L.shared }
    {
        DurableUpTo {
            kept,
            is_writing: AtomicBool::new(false),
            is_shared,
            of: PhantomData,
        }
    }

    /// A thread begins to write.
    pub(crate) fn begin_write(&self) {
        self.is_writing.store(true, Ordering::SeqCst);
    }

    /// Everything before this position is durable, and no thread is writing.
    pub(crate) fn end_write(&self, upto: &LogPosition<L, J>)
        requires { IsLogDurable L.holds upto.now }
    {
        upto.mark_durable(&self.kept);
        self.clear_writing();
    }

    /// No thread is writing.
    pub(crate) fn clear_writing(&self) {
        self.is_writing.store(false, Ordering::SeqCst);
    }

    /// Whether what an answer at this position waits for has come, as far as was noted.
    pub(crate) fn is_committed(&self, end: &LogPosition<L, J>) -> bool
        ensures { IsTrue result → IsCommitted L.shared L.holds end.now }
    {
        if self.is_shared {
            end.is_confirmed(&self.kept)
        } else {
            end.is_durable(&self.kept)
        }
    }

    /// Waits for a while as long as a thread writes and this position is not yet committed; not for long if the store is
    /// shared, since a write then takes milliseconds. Answers whether both are still so.
    pub(crate) fn is_behind(&self, end: &LogPosition<L, J>) -> bool {
        let rounds = if self.is_shared { 1 } else { ROUNDS };
        for _ in 0..rounds {
            if !self.stays_behind(end) {
                return false;
            }
            thread::yield_now();
        }
        true
    }

    /// Whether at each of `TURNS` checks a thread is writing and this position is not yet committed.
    fn stays_behind(&self, end: &LogPosition<L, J>) -> bool {
        for _ in 0..TURNS {
            if self.is_committed(end) || !self.is_writing.load(Ordering::SeqCst) {
                return false;
            }
            hint::spin_loop();
        }
        true
    }
}
