//! The bytes of a state's file as lines: of version 1 as they are, of version 2 without the last lines of its writes.

use crate::faults::changed_fault;
use rme_cli_messages::CliFault;
use rme_durable_epochs::version_of;
use rme_durable_writes::{FoundWrites, ReadError, WriteSealer, read_writes};
use std::alloc::{AllocError, Global};

/// The version whose writes end with a checksum.
const SEALED: u64 = 2;

/// The start of the last line of a write.
const SUM_START: &[u8] = b"{\"kept\":";

/// The bytes of a state's file.
#[derive(Drop)]
pub struct FileContents {
    /// The lines of the log. In version 1 they may end with a torn line.
    pub lines: Vec<u8>,
    /// The number of bytes of the file that hold these lines. What follows was never known to be with the disk.
    pub length: usize,
    /// The number of bytes behind them, up to the last one that is not zero. Zeros at the end of a file are room for
    /// further writes.
    pub torn: usize,
    /// How the next write is made.
    pub(crate) form: WriteForm,
}

/// How lines are written.
#[derive(Drop)]
pub(crate) enum WriteForm {
    /// As they are, in a file of version 1.
    Plain,
    /// Closed by a checksum, in a file of version 2.
    Sealed(WriteSealer),
}

/// Why the bytes of a state's file are not read as lines.
#[derive(Clone, Copy, Debug, PartialEq, Eq)]
pub enum ContentsError {
    NoMemory,
    /// The write that ends at this line, counted from 1, was with the disk, and has changed.
    Changed(u64),
}

impl From<AllocError> for ContentsError {
    fn from(_refused: AllocError) -> ContentsError {
        ContentsError::NoMemory
    }
}

impl FileContents {
    /// The contents of a file with these bytes. A file of any version but 2 is all lines.
    pub fn of(alloc: Global, bytes: &[u8]) -> Result<FileContents, ContentsError> {
        match version_of(alloc, bytes) {
            Ok(Some(SEALED)) => {}
            Ok(_) => return FileContents::plain(alloc, bytes),
            Err(_) => return Err(ContentsError::NoMemory),
        }
        match read_writes(alloc, bytes) {
            Ok(
                FoundWrites {
                    lines,
                    length,
                    sealer,
                },
            ) => Ok(FileContents {
                lines,
                length,
                torn: without_zeros(bytes).saturating_sub(length),
                form: WriteForm::Sealed(sealer),
            }),
            Err(ReadError::NoMemory) => Err(ContentsError::NoMemory),
            Err(ReadError::Changed(length)) => Err(ContentsError::Changed(write_end(
                bytes, length,
            ))),
        }
    }

    fn plain(alloc: Global, bytes: &[u8]) -> Result<FileContents, ContentsError> {
        Ok(FileContents {
            lines: bytes.to_vec(alloc)?,
            length: bytes.len(),
            torn: 0,
            form: WriteForm::Plain,
        })
    }
}

/// The number of these bytes without the zeros at their end.
fn without_zeros(bytes: &[u8]) -> usize {
    match bytes.iter().rposition(|byte| *byte != 0) {
        Some(last) => last.saturating_add(1),
        None => 0,
    }
}

/// The number of lines of the bytes up to the last line of the write that begins behind this number of bytes; of all
/// bytes if that write has no last line.
pub fn write_end(bytes: &[u8], length: usize) -> u64 {
    let (mut count, mut place): (u64, usize) = (0, 0);
    for line in bytes.split_inclusive(|byte| *byte == b'\n') {
        count = count.saturating_add(1);
        if place >= length && line.starts_with(SUM_START) {
            return count;
        }
        place = place.saturating_add(line.len());
    }
    count
}

/// The number, among all lines of a file, of the line with this number among those of its log.
pub fn line_in_file(alloc: Global, bytes: &[u8], number: u64) -> u64 {
    match version_of(alloc, bytes) {
        Ok(Some(SEALED)) => line_among_sealed(bytes, number),
        _ => number,
    }
}

/// The same for a file of version 2.
fn line_among_sealed(bytes: &[u8], number: u64) -> u64 {
    let (mut count, mut logged): (u64, u64) = (0, 0);
    for line in bytes.split_inclusive(|byte| *byte == b'\n') {
        count = count.saturating_add(1);
        if !line.starts_with(SUM_START) {
            logged = logged.saturating_add(1);
        }
        if logged == number {
            return count;
        }
    }
    number
}

/// The fault of a file whose bytes are not read as lines.
pub fn contents_fault(
    rt: &HostRuntime,
    path: &str,
    why: ContentsError,
) -> Result<CliFault, CliFault> {
    match why {
        ContentsError::NoMemory => Ok(CliFault::NoMemory),
        ContentsError::Changed(line) => changed_fault(rt, path, line),
    }
}
