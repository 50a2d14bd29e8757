//! A position in the log.

use crate::log_entry::LogEntry;
use crate::log_rule::{AppendPlay, LogRule, LogTag, NoGain};
use crate::log_store::LogStore;
use logbook::{Offer, Plain, Seen, Word};
use std::marker::{Model, PhantomData};

/// A position in the log (an LSN). In contracts it is the prefix up to it: everything appended by some moment.
#[derive(Drop)]
pub struct LogPosition<L: LogStore, J: LogTag> {
    /// The number of entries appended after the first.
    count: u64,
    seen: Seen<LogEntry, u64, LogRule<L>>,
    of: PhantomData<J>,
}

impl<L: LogStore, J: LogTag> Model for LogPosition<L, J> {
    ghost use Rattle.std.specs.Prelude.{◌≡◌, List, suc, length};
    ghost use Rattle.rme_durable_log.specs.declared.log_entry.LogEntry.{LogEntry};

    ghost Value = { List LogEntry };

    ghost view = { λ end. end.seen.log };

    ghost invariant = { λ end. (length end.seen.log ≡ suc end.count) × (end.seen.book ≡ J.book) };
}

impl<L: LogStore, J: LogTag> LogPosition<L, J> {
    ghost use Rattle.std.specs.Prelude.{◌≡◌, ◌++◌, ◌∷◌, [], IfSome, IsTrue, MatchBool, None, false, length, suc};
    ghost use mathlib.Core.List.{IsPrefix};
    ghost use Rattle.rme_durable_log.specs.Logs.{IsLogConfirmed, IsLogDurable};
    ghost use Rattle.rme_durable_log.specs.LogRules.{log_head};

    /// The position after the first entry.
    pub(crate) fn first(seen: Seen<LogEntry, u64, LogRule<L>>) -> LogPosition<L, J>
        requires book { seen.book ≡ J.book }
        requires first { length seen.log ≡ 1 }
        ensures { result ≡ seen.log }
    {
        LogPosition {
            count: 0,
            seen,
            of: PhantomData,
        }
    }

    /// A copy.
    pub fn again(&self) -> LogPosition<L, J>
        ensures { result ≡ self.now }
    {
        LogPosition {
            count: self.count,
            seen: self.seen.again(),
            of: PhantomData,
        }
    }

    /// The number of entries appended after the first.
    pub(crate) fn count(&self) -> u64
        ensures { length self.now ≡ suc result }
    {
        self.count
    }

    /// The later of two positions.
    pub fn later(&self, other: &LogPosition<L, J>) -> LogPosition<L, J>
        ensures this { IsPrefix self.now result }
        ensures that { IsPrefix other.now result }
    {
        let mut both = self.seen.again();
        both.learn(&other.seen);
        if self.count < other.count {
            other.again()
        } else {
            self.again()
        }
    }

    /// Whether this position is not after another one. Of two positions of a log one is a prefix of the other.
    pub fn is_within(&self, other: &LogPosition<L, J>) -> bool
        ensures { MatchBool result (IsPrefix self.now other.now) (IsPrefix other.now self.now) }
    {
        let mut both = self.seen.again();
        both.learn(&other.seen);
        self.count <= other.count
    }

    /// Whether two positions are equal.
    pub(crate) fn is_same(&self, other: &LogPosition<L, J>) -> bool
        ensures { IsTrue result → self.now ≡ other.now }
    {
        let mut both = self.seen.again();
        both.learn(&other.seen);
        self.count == other.count
    }

    /// Appends an entry here, by the word that counts the entries. `None` if others were already appended here.
    pub(crate) fn append_entry<X, M: Plain<X, LogEntry, u64>>(
        &self,
        head: &Word<LogEntry, u64, LogRule<L>>,
        about: &X,
    ) -> Option<LogPosition<L, J>>
        requires head { head.now ≡ log_head J.book }
        requires new { M.state about.now ≡ None }
        ensures { IfSome result (λ end. end ≡ self.now ++ M.ask about.now ∷ []) }
    {
        if self.count == u64::MAX {
            return None;
        }
        let next = self.count + 1;
        let mut seen = self.seen.again();
        let mut offer: Offer<LogEntry, u64, LogRule<L>, NoGain> = seen.plain::<NoGain, X, M>(about);
        let mut pen = seen.no_pen();
        let found = head.compare_exchange::<AppendPlay, NoGain>(
            self.count, next, &mut seen, &mut offer, &mut pen,
        );
        if found != self.count {
            return None;
        }
        Some(LogPosition {
            count: next,
            seen,
            of: PhantomData,
        })
    }

    /// The value of the durable mark.
    pub(crate) fn load_mark(&self, mark: &Word<LogEntry, u64, LogRule<L>>) -> u64
        requires mark { (mark.now.tracked ≡ false) × (mark.now.book ≡ J.book) }
    {
        let mut seen = self.seen.again();
        mark.load_hint(&mut seen)
    }

    /// Whether the durable mark covers everything before this position.
    pub(crate) fn is_durable(&self, mark: &Word<LogEntry, u64, LogRule<L>>) -> bool
        requires mark { (mark.now.tracked ≡ false) × (mark.now.book ≡ J.book) }
        ensures { IsTrue result → IsLogDurable L.holds self.now }
    {
        let mut seen = self.seen.again();
        mark.load_hint(&mut seen) >= self.count
    }

    /// Whether the durable mark covers an entry after this position, too.
    pub(crate) fn is_confirmed(&self, mark: &Word<LogEntry, u64, LogRule<L>>) -> bool
        requires mark { (mark.now.tracked ≡ false) × (mark.now.book ≡ J.book) }
        ensures durable { IsTrue result → IsLogDurable L.holds self.now }
        ensures confirmed { IsTrue result → IsLogConfirmed L.holds self.now }
    {
        let mut seen = self.seen.again();
        mark.load_hint(&mut seen) > self.count
    }

    /// Moves the durable mark to this position, before which everything is stored.
    pub(crate) fn mark_durable(&self, mark: &Word<LogEntry, u64, LogRule<L>>)
        requires mark { (mark.now.tracked ≡ false) × (mark.now.book ≡ J.book) }
        requires held { IsLogDurable L.holds self.now }
    {
        let before = self.load_mark(mark);
        mark.compare_exchange_hint(before, self.count, &self.seen);
    }
}
