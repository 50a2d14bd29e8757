//! Why a file of keys cannot be used.

use rme_keys::KeyFileError;
use std::io::ErrorKind;
use std::{fmt, io};

/// Why a file of keys cannot be used.
#[derive(Drop)]
pub enum KeysFault {
    /// It cannot be opened or read.
    Unread(io::Error),
    /// It is a folder, a device, or another thing that is no regular file.
    NoFile,
    /// Its mode lets other users read or write it.
    OpenToOthers,
    /// A line is no key, or memory was refused.
    Keys(KeyFileError),
}

impl KeysFault {
    /// The exit status of a server that it keeps from starting: 3 if the file cannot be read, 5 if memory was refused,
    /// else 2.
    pub(crate) fn exit_status(&self) -> u8 {
        match self {
            KeysFault::Unread(error) if error.kind() == ErrorKind::OutOfMemory => 5,
            KeysFault::Unread(_) => 3,
            KeysFault::Keys(KeyFileError::NoMemory) => 5,
            _ => 2,
        }
    }
}

impl fmt::Display for KeysFault {
    fn fmt<W: fmt::Write>(&self, f: &mut fmt::Formatter<W>) -> fmt::Result {
        match self {
            KeysFault::Unread(error) => write!(f, "{error}"),
            KeysFault::NoFile => f.write_str("it is not a regular file"),
            KeysFault::OpenToOthers => {
                f.write_str("other users can read or write it; `chmod o-rw` mends that")
            }
            KeysFault::Keys(error) => write!(f, "{error}"),
        }
    }
}

impl From<io::Error> for KeysFault {
    fn from(error: io::Error) -> KeysFault {
        KeysFault::Unread(error)
    }
}

impl From<KeyFileError> for KeysFault {
    fn from(error: KeyFileError) -> KeysFault {
        KeysFault::Keys(error)
    }
}
