//! Opening a log.

use crate::durable_up_to::DurableUpTo;
use crate::group_commit::GroupCommit;
use crate::log_appender::LogAppender;
use crate::log_entry::LogEntry;
use crate::log_position::LogPosition;
use crate::log_rule::{LogRule, LogTag};
use crate::log_store::LogStore;
use crate::log_writer::LogWriter;
use logbook::{Seen, Start, Word};
use std::alloc::Global;
use std::marker::Model;

/// A store with a log that begins with its contents, and that has no tag yet. In contracts it is the log's book.
#[derive(Drop)]
pub struct OpenLog<L: LogStore> {
    store: L,
    head: Word<LogEntry, u64, LogRule<L>>,
    kept: Word<LogEntry, u64, LogRule<L>>,
    seen: Seen<LogEntry, u64, LogRule<L>>,
}

impl<L: LogStore> Model for OpenLog<L> {
    ghost use Rattle.logbook.specs.Pages.{Book, book_coded};
    ghost use Rattle.rme_durable_log.specs.LogRules.{OpenLogInvariant};

    ghost Value = { Book };

    ghost coded = { book_coded };

    ghost view = { λ opened. opened.seen.book };

    ghost invariant = { λ opened. OpenLogInvariant L.holds opened.store opened.head opened.kept opened.seen.book
        opened.seen.log };
}

impl<L: LogStore> OpenLog<L> {
    ghost use Rattle.std.specs.Prelude.{◌≡◌, ◌∷◌, [], List, true, ℕ};
    ghost use Rattle.rme_durable_log.specs.declared.log_entry.LogEntry.TheVariants.{Whole};

    /// Opens a log over a store.
    pub fn new(store: L) -> OpenLog<L>
        requires works { (L.holds store).works ≡ true }
        requires barriers { (L.holds store).barriers ≡ 0 }
    {
        let (seen, mut pens) = Seen::open_row::<L, LogRule<L>>(&store, Start::alone(), 1);
        let mut pen = pens.take();
        OpenLog {
            head: Word::tracked(0, &mut pen),
            kept: Word::hint(&seen),
            store,
            seen,
        }
    }

    /// The appender and the writer of a log with this tag.
    pub fn split<J: LogTag>(self, alloc: Global) -> (LogAppender<L, J>, GroupCommit<L, J>)
        requires { self ≡ J.book }
        ensures log { (bytes : List ℕ) × (result.0.log ≡ Whole bytes ∷ []) }
        ensures waits { result.0.waits ≡ [] }
    {
        let OpenLog {
            store,
            head,
            kept,
            seen,
        } = self;
        let first = LogPosition::first(seen);
        let held = LogWriter::new(store, first.again());
        let is_shared = held.is_shared();
        (
            LogAppender::new(alloc, head, first, is_shared),
            GroupCommit::new(alloc, held, DurableUpTo::new(kept, is_shared)),
        )
    }
}
