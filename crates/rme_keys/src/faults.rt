//! Why a file of keys is refused.

ghost use Rattle.std.specs.Prelude.{◌≡◌};
ghost use Rattle.rme_keys.specs.KeyFiles.{at_line};

use std::alloc::{AllocError, AllocFailed};
use std::error::Error;
use std::fmt;

/// Why a file of keys is refused.
#[derive(Clone, Copy, Debug, PartialEq, Eq)]
pub enum KeyFileError {
    /// Memory was refused.
    NoMemory,
    /// The words of a line are not those of a new key.
    BadLine {
        /// The number of the first bad line, counted from 1.
        line: u64,
        /// Why that line is bad.
        why: BadKeyLine,
    },
}

/// Why a line is bad.
#[derive(Clone, Copy, Debug, PartialEq, Eq)]
pub enum BadKeyLine {
    /// The line does not have three or four words.
    Words,
    /// The name is not UTF-8.
    Name,
    /// The digest does not have 64 hexadecimal digits.
    Digest,
    /// The workers are not `*`, `-`, or numbers and ranges from 0 to 255 with commas between.
    Workers,
    /// The spaces are not names or prefixes of names with commas between.
    Spaces,
    /// An earlier line has this name.
    SameName,
    /// An earlier line has this digest.
    SameDigest,
}

/// Why no key is read from a line.
#[derive(Clone, Copy, Debug, PartialEq, Eq)]
pub(crate) enum LineError {
    NoMemory,
    Bad(BadKeyLine),
}

impl LineError {
    /// The error of a file for that of its line of this number.
    pub(crate) fn at_line(self, line: u64) -> KeyFileError
        ensures { result ≡ at_line line self }
    {
        match self {
            LineError::NoMemory => KeyFileError::NoMemory,
            LineError::Bad(why) => KeyFileError::BadLine { line, why },
        }
    }
}

impl fmt::Display for BadKeyLine {
    fn fmt<W: fmt::Write>(&self, f: &mut fmt::Formatter<W>) -> fmt::Result {
        f.write_str(match self {
            BadKeyLine::Words => "not NAME SHA256 WORKERS [SPACES]",
            BadKeyLine::Name => "the name is not UTF-8",
            BadKeyLine::Digest => "the SHA-256 is not 64 hexadecimal digits",
            BadKeyLine::Workers => "the workers are not *, -, or numbers and ranges from 0 to 255",
            BadKeyLine::Spaces => "the spaces are not names or prefixes of names",
            BadKeyLine::SameName => "an earlier line has this name",
            BadKeyLine::SameDigest => "an earlier line has this SHA-256",
        })
    }
}

impl fmt::Display for KeyFileError {
    fn fmt<W: fmt::Write>(&self, f: &mut fmt::Formatter<W>) -> fmt::Result {
        match self {
            KeyFileError::NoMemory => f.write_str("no memory"),
            KeyFileError::BadLine { line, why } => write!(f, "line {line}: {why}"),
        }
    }
}

impl Error for KeyFileError {}

impl From<AllocError> for KeyFileError {
    ghost use Rattle.std.specs.Prelude.{◌≡◌};
    ghost use Rattle.rme_keys.specs.declared.faults.KeyFileError.TheVariants.{NoMemory};

    ghost from_gives = { λ _ error. error ≡ NoMemory };

    fn from(_refused: AllocError) -> KeyFileError {
        KeyFileError::NoMemory
    }
}

impl<T: Drop> From<AllocFailed<T>> for KeyFileError {
    ghost use Rattle.std.specs.Prelude.{◌≡◌};
    ghost use Rattle.rme_keys.specs.declared.faults.KeyFileError.TheVariants.{NoMemory};

    ghost from_gives = { λ _ error. error ≡ NoMemory };

    fn from(_refused: AllocFailed<T>) -> KeyFileError {
        KeyFileError::NoMemory
    }
}

impl From<AllocError> for LineError {
    ghost use Rattle.std.specs.Prelude.{◌≡◌};
    ghost use Rattle.rme_keys.specs.declared.faults.LineError.TheVariants.{NoMemory};

    ghost from_gives = { λ _ error. error ≡ NoMemory };

    fn from(_refused: AllocError) -> LineError {
        LineError::NoMemory
    }
}

impl<T: Drop> From<AllocFailed<T>> for LineError {
    ghost use Rattle.std.specs.Prelude.{◌≡◌};
    ghost use Rattle.rme_keys.specs.declared.faults.LineError.TheVariants.{NoMemory};

    ghost from_gives = { λ _ error. error ≡ NoMemory };

    fn from(_refused: AllocFailed<T>) -> LineError {
        LineError::NoMemory
    }
}
