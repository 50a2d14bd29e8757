//! Why a file could not be written or replaced.

use rme_durable_writes::SealError;
use std::alloc::AllocError;
use std::{fmt, io};

/// Why a file could not be written or replaced. It is `Copy`, so that another thread can report it later.
#[derive(Clone, Copy, Debug, PartialEq, Eq)]
pub enum Cause {
    /// An error number of the system.
    System(u32),
    NoMemory,
    /// The file's name names another file, or nothing has it.
    NameLost,
    /// Another program has locked the new file.
    Locked,
    /// The disk may not have the name of the new file.
    NameUnsure,
    /// What is under the name `FILE.renewal` was not made by a server.
    NotOurs,
    /// The lines can't be given a checksum.
    NotLines,
    /// The system gave no error number.
    Unknown,
}

impl From<io::Error> for Cause {
    fn from(error: io::Error) -> Cause {
        if error.kind() == io::ErrorKind::OutOfMemory {
            return Cause::NoMemory;
        }
        match error.raw_os_error().map(u32::try_from) {
            Some(Ok(number)) => Cause::System(number),
            _ => Cause::Unknown,
        }
    }
}

impl From<AllocError> for Cause {
    ghost use Rattle.std.specs.Prelude.{◌≡◌};
    ghost use Rattle.rme_durable_file.specs.declared.cause.Cause.TheVariants.{NoMemory};

    ghost from_gives = { λ _ cause. cause ≡ NoMemory };

    fn from(_refused: AllocError) -> Cause {
        Cause::NoMemory
    }
}

impl From<SealError> for Cause {
    fn from(why: SealError) -> Cause {
        match why {
            SealError::NoMemory => Cause::NoMemory,
            SealError::NotLines | SealError::TooMany => Cause::NotLines,
        }
    }
}

impl fmt::Display for Cause {
    fn fmt<W: fmt::Write>(&self, f: &mut fmt::Formatter<W>) -> fmt::Result {
        match self {
            Cause::System(number) => {
                let error = io::Error::from_raw_os_error(i32::try_from(*number).unwrap_or(0));
                write!(f, "{error}")
            }
            Cause::NoMemory => f.write_str("no memory"),
            Cause::NameLost => f.write_str("its name is another file's by now, or nobody's"),
            Cause::Locked => f.write_str("another program has locked it"),
            Cause::NameUnsure => f.write_str("the disk may not have its name"),
            Cause::NotOurs => f.write_str("what is there was not made by a server"),
            Cause::NotLines => f.write_str("its lines can't be given a checksum"),
            Cause::Unknown => f.write_str("the system does not say why"),
        }
    }
}
