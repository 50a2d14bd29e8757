//! Why a line could not be written, and why a file could not be recovered.

ghost use Rattle.std.specs.Prelude.{◌≡◌};
ghost use Rattle.rme_durable_format.specs.declared.fault.BadLog.TheVariants as BadLog;
ghost use Rattle.rme_durable_format.specs.declared.fault.LineFault.TheVariants as LineFault;

use rme_line_io::EngineFault;
use rme_words::NoMemory;
use std::alloc::AllocError;

/// Why an event could not be written as a line.
#[derive(Clone, Copy, Debug, PartialEq, Eq)]
pub enum LineFault {
    /// Memory for the line was refused.
    NoMemory,
    /// No line asks for it: its lock has no name, or its script has more operations than fit a line.
    NoLine,
}

/// Why the bytes of a file could not be recovered.
#[derive(Clone, Copy, Debug, PartialEq, Eq)]
pub enum BadLog {
    /// Memory was refused.
    NoMemory,
    /// This line, counted from 1, is not valid, or was refused.
    Line(u64),
}

impl From<AllocError> for LineFault {
    ghost from_gives = { λ _ fault. fault ≡ LineFault.NoMemory };

    fn from(_refused: AllocError) -> LineFault {
        LineFault::NoMemory
    }
}

impl From<NoMemory> for BadLog {
    ghost from_gives = { λ _ fault. fault ≡ BadLog.NoMemory };

    fn from(_refused: NoMemory) -> BadLog {
        BadLog::NoMemory
    }
}

impl From<AllocError> for BadLog {
    ghost from_gives = { λ _ fault. fault ≡ BadLog.NoMemory };

    fn from(_refused: AllocError) -> BadLog {
        BadLog::NoMemory
    }
}

impl From<EngineFault> for BadLog {
    ghost from_gives = { λ _ fault. fault ≡ BadLog.NoMemory };

    /// Reading bytes in memory cannot fail, so a fault means that memory was refused.
    fn from(_fault: EngineFault) -> BadLog {
        BadLog::NoMemory
    }
}
