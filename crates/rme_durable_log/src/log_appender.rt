//! The appender of the log, under the executor's lock.

use crate::log_author::LogAuthor;
use crate::log_entry::LogEntry;
use crate::log_position::LogPosition;
use crate::log_rule::{BarrierEntry, LinesEntry, LogRule, LogTag, WholeEntry};
use crate::log_store::LogStore;
use logbook::Word;
use std::alloc::Global;
use std::collections::BTreeMap;
use std::marker::Model;

/// The appender. It is under the executor's lock, beside the text of the pending lines. In contracts it is the log, the
/// lines that were appended and not yet taken, and the number of authors.
#[derive(Drop)]
pub struct LogAppender<L: LogStore, J: LogTag> {
    /// The number of appended entries. Nobody else appends, which no contract says.
    head: Word<LogEntry, u64, LogRule<L>>,
    taken: LogPosition<L, J>,
    told: LogPosition<L, J>,
    /// The number of authors.
    authors: u64,
    /// For each author that may append, the number of entries up to its last one.
    lasts: BTreeMap<u64, u64>,
    /// Whether the store is shared.
    is_shared: bool,
}

impl<L: LogStore, J: LogTag> Model for LogAppender<L, J> {
    ghost use Rattle.std.specs.Prelude.{◌≡◌};
    ghost use Rattle.rme_durable_log.specs.LogRules.{AppenderInvariant, AppenderState, entries_behind, entry_lines};

    ghost Value = { AppenderState };

    ghost view = { λ appender. record {
      log = appender.told;
      waits = entry_lines
          (entries_behind appender.taken appender.told);
      authors = appender.authors;
    } };

    ghost invariant = { λ appender. AppenderInvariant J.book appender.head appender.taken appender.told
        appender.authors appender.lasts × (appender.is_shared ≡ L.shared) };
}

/// A batch of lines, taken to be stored, with a barrier behind them if the store is shared.
#[derive(Drop)]
pub struct PendingBatch<L: LogStore, J: LogTag> {
    lines: String,
    from: LogPosition<L, J>,
    upto: LogPosition<L, J>,
}

impl<L: LogStore, J: LogTag> Model for PendingBatch<L, J> {
    ghost use Rattle.std.specs.Prelude.{List, string_bytes};
    ghost use Rattle.rme_durable_log.specs.LogRules.{IsBatch};
    ghost use Rattle.rme_durable_log.specs.declared.log_entry.LogEntry.{LogEntry};

    ghost Value = { List LogEntry };

    ghost view = { λ taken. taken.upto };

    ghost invariant = { λ taken. IsBatch L.shared taken.from taken.upto (string_bytes taken.lines) };
}

impl<L: LogStore, J: LogTag> LogAppender<L, J> {
    ghost use Rattle.std.specs.Prelude.{◌≡◌, ◌++◌, ◌∷◌, [], IfNone, IfSome, IsTrue, MatchBool, OnSome, string_bytes, suc};
    ghost use mathlib.Core.List.{IsPrefix};
    ghost use Rattle.rme_durable_log.specs.Logs.{GrowsByOthers};
    ghost use Rattle.rme_durable_log.specs.LogRules.{AreAuthorsBelow, log_as_taken, log_head};
    ghost use Rattle.rme_durable_log.specs.declared.log_entry.LogEntry.TheVariants.{Lines, Whole};

    /// The appender of a log with only its first entry, and without authors.
    pub(crate) fn new(
        alloc: Global,
        head: Word<LogEntry, u64, LogRule<L>>,
        told: LogPosition<L, J>,
        is_shared: bool,
    ) -> LogAppender<L, J>
        requires head { head ≡ log_head J.book }
        requires shared { is_shared ≡ L.shared }
        requires first { AreAuthorsBelow 0 told }
        ensures log { result.log ≡ told }
        ensures waits { result.waits ≡ [] }
    {
        LogAppender {
            head,
            taken: told.again(),
            told,
            authors: 0,
            lasts: BTreeMap::new(alloc),
            is_shared,
        }
    }

    /// The current end of the log.
    pub fn position(&self) -> LogPosition<L, J>
        ensures told { result ≡ self.now.log }
    {
        self.told.again()
    }

    /// The current end of the log, after an earlier position since which this author appended nothing. `None` if it did,
    /// or if it is no author any more. For the author's last position that cannot be, since lines by an author are
    /// appended only where its value is; the contract does not say so.
    pub fn position_after(
        &self,
        author: &LogAuthor<J>,
        earlier: &LogPosition<L, J>,
    ) -> Option<LogPosition<L, J>>
        ensures told { IfSome result (λ told. told ≡ self.now.log) }
        ensures others { OnSome result (GrowsByOthers author.now earlier.now self.now.log) }
    {
        let last = *self.lasts.get(&author.number())?;
        if last > earlier.count() || !earlier.is_within(&self.told) {
            return None;
        }
        Some(self.told.again())
    }

    /// A further author. Each entry of the log so far is by an author with a smaller number. `None` if memory was
    /// refused, or if there are 2^64 - 1 authors.
    pub fn new_author(&mut self) -> Option<LogAuthor<J>>
        ensures new { IfSome result (λ author. (author ≡ self.old.authors) × AreAuthorsBelow author self.old.log) }
        ensures authors { OnSome result (self.new.authors ≡ suc self.old.authors) }
        ensures log { self.new.log ≡ self.old.log }
        ensures waits { self.new.waits ≡ self.old.waits }
    {
        let number = self.authors;
        let authors = number.checked_add(1)?;
        let Ok(_) = self.lasts.insert(number, 0) else {
            return None;
        };
        self.authors = authors;
        Some(LogAuthor::new(number))
    }

    /// The author appends nothing any more.
    pub fn end_author(&mut self, author: LogAuthor<J>)
        ensures same { self.new ≡ self.old }
    {
        self.lasts.remove(&author.number());
    }

    /// Appends lines of an author to the log. Answers whether it did. It always does for an author that has not ended,
    /// since only the owner of this value appends; the contract does not say so. On false it is unchanged.
    pub fn append(&mut self, author: &LogAuthor<J>, lines: &[u8]) -> bool
        ensures { MatchBool result ((self.new.log ≡ self.old.log ++ Lines author.now lines.now ∷ [])
            × (self.new.waits ≡ self.old.waits ++ lines.now)) (self.new ≡ self.old) }
    {
        let number = author.number();
        let Some(last) = self.lasts.get_mut(&number) else {
            return false;
        };
        match self
            .told
            .append_entry::<(u64, &[u8]), LinesEntry>(&self.head, &(number, lines))
        {
            Some(told) => {
                *last = told.count();
                self.told = told;
                true
            }
            None => false,
        }
    }

    /// Whether the log ends at this position.
    pub(crate) fn is_at(&self, upto: &LogPosition<L, J>) -> bool
        ensures { IsTrue result → self.now.log ≡ upto.now }
    {
        self.told.is_same(upto)
    }

    /// Appends an entry that replaces all earlier bytes, and answers the new end of the log.
    pub(crate) fn replace_all(&mut self, bytes: &[u8]) -> Option<LogPosition<L, J>>
        ensures told { OnSome result ((self.new.log ≡ self.old.log ++ Whole bytes.now ∷ []) × (self.new.waits ≡ [])) }
        ensures is { IfSome result (λ told. told ≡ self.old.log ++ Whole bytes.now ∷ []) }
        ensures same { IfNone result (self.new ≡ self.old) }
    {
        let told = self
            .told
            .append_entry::<&[u8], WholeEntry>(&self.head, &bytes)?;
        self.taken = told.again();
        self.told = told.again();
        Some(told)
    }

    /// Takes the pending lines, of which this is the text, as a batch for the writer. It always does, since only the
    /// owner of this value appends; the contract does not say so. On `None` it is unchanged.
    pub fn take(&mut self, lines: String) -> Option<PendingBatch<L, J>>
        requires lines { string_bytes lines ≡ self.old.waits }
        ensures taken { IfSome result (λ taken. taken ≡ log_as_taken L.shared self.old.log) }
        ensures log { OnSome result (self.new.log ≡ log_as_taken L.shared self.old.log) }
        ensures waits { OnSome result (self.new.waits ≡ []) }
        ensures same { IfNone result (self.new ≡ self.old) }
    {
        let upto = self.end_of_batch()?;
        let from = self.taken.again();
        self.taken = upto.again();
        self.told = upto.again();
        Some(PendingBatch { lines, from, upto })
    }

    /// The end of a batch that has everything appended: behind it there is a barrier if the store is shared. `None` if
    /// others were already appended here.
    fn end_of_batch(&self) -> Option<LogPosition<L, J>>
        ensures { IfSome result (λ end. end ≡ log_as_taken L.shared self.now.log) }
    {
        if self.is_shared {
            self.told.append_entry::<(), BarrierEntry>(&self.head, &())
        } else {
            Some(self.told.again())
        }
    }
}

impl<L: LogStore, J: LogTag> PendingBatch<L, J> {
    ghost use Rattle.std.specs.Prelude.{◌≡◌};
    ghost use Rattle.rme_durable_log.specs.LogRules.{IsBatch};

    /// The position before the batch, its lines, and the position after it.
    pub(crate) fn parts(&self) -> (&LogPosition<L, J>, &[u8], &LogPosition<L, J>)
        ensures upto { result.2.now ≡ self.now }
        ensures since { IsBatch L.shared result.0.now result.2.now result.1.now }
    {
        (&self.from, self.lines.as_bytes(), &self.upto)
    }

    /// An empty text, with room for as many lines.
    pub fn into_empty(self) -> String {
        let PendingBatch { lines, .. } = self;
        let mut lines = lines;
        lines.clear();
        lines
    }
}
