//! The writer of the log: the store, and the position up to which it is stored.

use crate::log_appender::{LogAppender, PendingBatch};
use crate::log_position::LogPosition;
use crate::log_rule::LogTag;
use crate::log_store::LogStore;
use std::marker::Model;

/// A store with the position up to which it holds the log. In contracts it is that prefix of the log.
#[derive(Drop)]
pub struct LogWriter<L: LogStore, J: LogTag> {
    store: L,
    upto: LogPosition<L, J>,
}

impl<L: LogStore, J: LogTag> Model for LogWriter<L, J> {
    ghost use Rattle.std.specs.Prelude.{List};
    ghost use Rattle.rme_durable_log.specs.Logs.{IsLogDurable, StoreHolds};
    ghost use Rattle.rme_durable_log.specs.declared.log_entry.LogEntry.{LogEntry};

    ghost Value = { List LogEntry };

    ghost view = { λ held. held.upto };

    ghost invariant = { λ held. StoreHolds (L.holds held.store) held.upto × IsLogDurable L.holds held.upto };
}

impl<L: LogStore, J: LogTag> LogWriter<L, J> {
    ghost use Rattle.std.specs.Prelude.{◌≡◌, ◌++◌, ◌∷◌, [], IfOk, IfErr, MatchBool, false, true};
    ghost use Rattle.rme_durable_log.specs.Logs.{IsLogDurable};
    ghost use Rattle.rme_durable_log.specs.LogRules.{known_bytes};
    ghost use Rattle.rme_durable_log.specs.declared.log_entry.LogEntry.TheVariants.{Whole};

    /// The writer of a store whose contents begin the log.
    pub(crate) fn new(store: L, first: LogPosition<L, J>) -> LogWriter<L, J>
        requires works { (L.holds store).works ≡ true }
        requires barriers { (L.holds store).barriers ≡ 0 }
        requires first { first ≡ Whole (known_bytes (L.holds store).bytes) ∷ [] }
        ensures { result ≡ first }
    {
        LogWriter { store, upto: first }
    }

    /// The position up to which the store holds the log.
    pub fn position(&self) -> &LogPosition<L, J>
        ensures upto { result.now ≡ self.now }
        ensures held { IsLogDurable L.holds self.now }
    {
        &self.upto
    }

    /// Whether the store is shared.
    pub(crate) fn is_shared(&self) -> bool
        ensures { result ≡ L.shared }
    {
        self.store.is_shared()
    }

    /// Whether storing lines takes no longer than waking another thread for it.
    pub(crate) fn is_quick(&self) -> bool {
        self.store.is_quick()
    }

    /// Stores these lines. After an error the store takes no more, and the caller drops it.
    pub fn append(self, taken: &PendingBatch<L, J>) -> Result<LogWriter<L, J>, L>
        ensures held { IfOk result (λ held. held ≡ taken.now) }
        ensures stops { IfErr result (λ store. (L.holds store).works ≡ false) }
    {
        let LogWriter { store, upto } = self;
        let mut store = store;
        // Only the owner of the writer takes lines, so these are the next ones.
        let (from, lines, told) = taken.parts();
        if !from.is_same(&upto) {
            store.fail();
            return Err(store);
        }
        match store.append(lines) {
            Ok(()) => Ok(LogWriter {
                store,
                upto: told.again(),
            }),
            Err(_) => Err(store),
        }
    }

    /// Replaces all bytes of the store, and appends the entry of that, once everything appended is in the store.
    /// Answers whether it did. If the entry could not be appended, the store takes no more lines, and the caller drops
    /// it.
    pub fn replace(
        self,
        appender: &mut LogAppender<L, J>,
        bytes: &[u8],
    ) -> Result<(LogWriter<L, J>, bool), L>
        ensures is { IfOk result (λ now. MatchBool now.1 (now.0 ≡ appender.new.log) (now.0 ≡ self)) }
        ensures told { IfOk result (λ now. MatchBool now.1
            ((appender.new.log ≡ appender.old.log ++ Whole bytes.now ∷ []) × (appender.new.waits ≡ []))
            (appender.new ≡ appender.old)) }
        ensures lost { IfErr result (λ store. appender.new ≡ appender.old) }
        ensures stops { IfErr result (λ store. (L.holds store).works ≡ false) }
    {
        if !appender.is_at(&self.upto) {
            return Ok((self, false));
        }
        let LogWriter { store, upto } = self;
        let mut store = store;
        let Ok(()) = store.replace(bytes) else {
            return Ok((LogWriter { store, upto }, false));
        };
        match appender.replace_all(bytes) {
            Some(told) => Ok((LogWriter { store, upto: told }, true)),
            None => {
                store.fail();
                Err(store)
            }
        }
    }

    /// An event could not be written as a line: the store takes no more, and the caller drops it.
    pub fn fail(self) -> L
        ensures stops { (L.holds result).works ≡ false }
    {
        let LogWriter { store, upto: _ } = self;
        let mut store = store;
        store.fail();
        store
    }
}
