//! The log as threads share it.

use crate::log_entry::LogEntry;
use crate::log_store::LogStore;
use logbook::{Gain, Opening, Plain, Play, Rule};
use std::marker::{Brand, PhantomData};

/// The rule of the log.
pub(crate) struct LogRule<L: LogStore>(PhantomData<L>);

impl<L: LogStore> Rule<LogEntry, u64> for LogRule<L> {
    ghost use Rattle.std.specs.Prelude.{[]};
    ghost use base.Fml.{ftrue};
    ghost use Rattle.rme_durable_log.specs.LogRules.{IsLogState, IsDurableMark};

    ghost holds = { λ cells log. IsLogState cells log };

    ghost first = { [] };

    ghost hinted = { λ count log. IsDurableMark L.holds count log };

    ghost shows = { λ log. [] };

    ghost keeps = { λ names log. ftrue };

    ghost moves = { λ ask before after answer. Unit {0} };
}

/// The log begins with the store's contents.
impl<L: LogStore> Opening<L, LogEntry> for LogRule<L> {
    ghost use Rattle.std.specs.Prelude.{[], ◌∷◌};
    ghost use Rattle.rme_durable_log.specs.LogRules.{known_bytes};
    ghost use Rattle.rme_durable_log.specs.declared.log_entry.LogEntry.TheVariants.{Whole};

    ghost log = { λ count store. Whole (known_bytes (L.holds store).bytes) ∷ [] };
}

/// An append trades nothing.
pub(crate) struct NoGain;

impl Gain<LogEntry, u64> for NoGain {
    ghost use base.Fml.{ftrue};

    ghost after = { λ names about answer. ftrue };
}

/// A step that appends an entry.
pub(crate) struct AppendPlay;

impl Play<LogEntry, u64> for AppendPlay {
    ghost use Rattle.rme_durable_log.specs.LogRules.{AppendsEntry};

    ghost then = { AppendsEntry };
}

/// Bytes that an author appends as lines.
pub(crate) struct LinesEntry;

impl<'a> Plain<(u64, &'a [u8]), LogEntry, u64> for LinesEntry {
    ghost use Rattle.std.specs.Prelude.{None};
    ghost use Rattle.rme_durable_log.specs.declared.log_entry.LogEntry.TheVariants.{Lines};

    ghost ask = { λ lines. Lines lines.0 lines.1.now };

    ghost state = { λ lines. None };
}

/// Bytes that are appended as a replacement of all earlier ones.
pub(crate) struct WholeEntry;

impl<'a> Plain<&'a [u8], LogEntry, u64> for WholeEntry {
    ghost use Rattle.std.specs.Prelude.{None};
    ghost use Rattle.rme_durable_log.specs.declared.log_entry.LogEntry.TheVariants.{Whole};

    ghost ask = { λ bytes. Whole bytes.now };

    ghost state = { λ bytes. None };
}

/// A barrier.
pub(crate) struct BarrierEntry;

impl Plain<(), LogEntry, u64> for BarrierEntry {
    ghost use Rattle.std.specs.Prelude.{None};
    ghost use Rattle.rme_durable_log.specs.declared.log_entry.LogEntry.TheVariants.{Barrier};

    ghost ask = { λ _. Barrier };

    ghost state = { λ _. None };
}

/// The identity of a log. Each call of a program chooses it.
pub trait LogTag {
    ghost use Rattle.logbook.specs.Pages.{Book};

    ghost book: { Book };
}

impl LogTag for Brand {
    ghost book = { record { number = 0; log_name = 0; cells_name = 0 } };
}
