//! What writes are made with, and found with.

ghost use Rattle.std.specs.Prelude.{◌≡◌};
ghost use Rattle.rme_durable_writes.specs.Writes.{sum_mark};

use crate::crc::Crc32c;
use memchr::memmem::Finder;
use std::alloc::{AllocError, Global};

/// How a last line begins behind the newline before it.
const MARK: &[u8] = b"\n{\"kept\":";

/// What writes are made with, and found with. It is made once for a log, since both of its fields take longer to make
/// than a write.
#[derive(Drop)]
pub(crate) struct WriteCodec {
    /// The table of checksums.
    pub(crate) crc: Crc32c,
    /// What finds the beginning of a last line.
    pub(crate) marks: Finder<'static>,
    ghost marks_are: { marks ≡ sum_mark },
}

impl WriteCodec {
    /// It allocates the table of checksums, 8 KiB, and nothing afterwards.
    pub(crate) fn new(alloc: Global) -> Result<WriteCodec, AllocError> {
        Ok(WriteCodec {
            crc: Crc32c::new(alloc)?,
            marks: Finder::new(MARK),
        })
    }
}
