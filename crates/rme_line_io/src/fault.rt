//! Why an engine over lines, or a server of sessions, ended.

ghost use Rattle.std.specs.Prelude.{◌≡◌};
ghost use Rattle.rme_line_io.specs.declared.fault.EngineFault.TheVariants.{NoMemory};

use rme_words::NoMemory;
use std::alloc::{AllocError, AllocFailed};
use thiserror::Error;

/// Why an engine over lines ended. The answers to earlier lines were written completely, except after `WriteFailed`,
/// where a prefix of them was. The world of that run is lost.
#[derive(Clone, Copy, Debug, PartialEq, Eq, Error)]
pub enum EngineFault {
    /// The reader failed, or 1,000,000,000 reads were made.
    #[error("read failed")]
    ReadFailed,
    /// The writer failed or took no byte.
    #[error("write failed")]
    WriteFailed,
    /// Memory for a buffer, a line's value or an answer's text was refused.
    #[error("no memory")]
    NoMemory,
}

/// The first fault of a server of sessions with a connection. The server continued, and when it answers each worker is
/// back in its slot.
#[derive(Clone, Copy, Debug, PartialEq, Eq, Error)]
pub enum ServeFault {
    /// A connection could not be accepted.
    #[error("socket failed")]
    SocketFailed,
    /// No thread could be started for a connection, which was closed.
    #[error("no thread")]
    NoThread,
    /// Memory for a connection was refused.
    #[error("no memory")]
    NoMemory,
}

impl From<NoMemory> for EngineFault {
    ghost from_gives = { λ _ fault. fault ≡ NoMemory };

    fn from(_refused: NoMemory) -> EngineFault {
        EngineFault::NoMemory
    }
}

impl From<AllocError> for EngineFault {
    ghost from_gives = { λ _ fault. fault ≡ NoMemory };

    fn from(_refused: AllocError) -> EngineFault {
        EngineFault::NoMemory
    }
}

impl<T: Drop> From<AllocFailed<T>> for EngineFault {
    ghost from_gives = { λ _ fault. fault ≡ NoMemory };

    fn from(_refused: AllocFailed<T>) -> EngineFault {
        EngineFault::NoMemory
    }
}
