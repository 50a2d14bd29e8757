//! Why bytes are no file of words.

use thiserror::Error;

/// Why bytes are no file of words.
#[derive(Clone, Copy, Debug, PartialEq, Eq, Error)]
pub enum FileDefect {
    /// They do not begin with `rmewords`.
    #[error("it does not begin as a file of words")]
    NoMagic,
    /// There are fewer than 4096.
    #[error("it is shorter than its first page")]
    TooShort,
    /// Their numbers are not little-endian.
    #[error("its byte order is that of another machine")]
    ByteOrder,
    /// They are of another version of the format.
    #[error("its version is neither 1 nor 2")]
    Version,
    /// A size of the shape is outside the limits.
    #[error("its shape is outside the limits")]
    Limits,
    /// The number of words is not that of the shape.
    #[error("its size is not that of its shape")]
    Size,
    /// A lock has no name, or that of another.
    #[error("its locks do not have names")]
    Names,
    /// The page has a byte other than 0 after the names of the locks, and not in a life.
    #[error("its first page has more than there is to say")]
    Rest,
    /// The mark of a renewal is neither 0 nor 1: a renewal was not finished, or the mark is invalid.
    #[error("its renewal was not finished, which the next rme_renew does, or its mark of a renewal is none")]
    Moved,
    /// Memory was refused.
    #[error("no memory")]
    NoMemory,
}
