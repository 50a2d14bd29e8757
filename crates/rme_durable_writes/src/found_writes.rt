//! Reading the writes of a log: all that are whole and right, and whether what follows them may be cut off.

ghost use Rattle.std.specs.Prelude.{◌≡◌, ◌↔◌, ℕ, List, IfErr, IfOk, IfSome, IfNone, IsTrue, suc};
ghost use Rattle.rme_durable_writes.specs.Reading.{IsKeptByFirst, IsKeptWithin, IsWhyUnread, ReadsWrites, SkipsLine};
ghost use Rattle.rme_durable_writes.specs.Writes.{IsWrite, Write, write_text};

use crate::sum_line::{SumFront, push_front, read_front, sum_line};
use crate::write_codec::WriteCodec;
use crate::write_sealer::WriteSealer;
use memchr::memchr;
use std::alloc::{AllocError, Global};

/// The writes of a log that are whole and right, and behind which nothing that was durable is missing.
#[derive(Drop)]
pub struct FoundWrites {
    /// The lines of all writes.
    pub lines: Vec<u8>,
    /// The number of bytes of all writes. What follows was never known to be with the disk.
    pub length: usize,
    /// The sealer of the next write.
    pub sealer: WriteSealer,
}

/// Why bytes are not read.
#[derive(Clone, Copy, Debug, PartialEq, Eq)]
pub enum ReadError {
    NoMemory,
    /// What was with the disk has changed: the write that begins behind this number of bytes is not whole, or not
    /// right, and it is the first of the log, or the last line of a write, from there on, tells that it was with the
    /// disk.
    Changed(usize),
}

impl From<AllocError> for ReadError {
    ghost use Rattle.std.specs.Prelude.{◌≡◌};
    ghost use Rattle.rme_durable_writes.specs.declared.found_writes.ReadError.TheVariants.{NoMemory};

    ghost from_gives = { λ _ error. error ≡ NoMemory };

    fn from(_refused: AllocError) -> ReadError {
        ReadError::NoMemory
    }
}

/// A write at the front of some bytes.
#[derive(Clone, Copy)]
struct FirstWrite<'a> {
    front: SumFront,
    lines: &'a [u8],
    /// The bytes behind it.
    rest: &'a [u8],
}

/// What finds writes in bytes.
#[derive(Drop)]
struct WriteFinder {
    alloc: Global,
    codec: WriteCodec,
}

/// Reads the writes of a log up to the first that is not whole, not right, or not the next in order.
///
/// `Changed` if that is the first write of all, or a last line behind it tells that it was with the disk; `NoMemory` if
/// memory was refused.
pub fn read_writes(alloc: Global, bytes: &[u8]) -> Result<FoundWrites, ReadError>
    ensures ok { IfOk result (λ found. ReadsWrites bytes.now found.lines.items found.length found.sealer.number
        found.sealer.kept) }
    ensures err { IfErr result (IsWhyUnread bytes.now) }
{
    let finder = WriteFinder {
        alloc,
        codec: WriteCodec::new(alloc)?,
    };
    let mut lines = Vec::new(alloc);
    let mut rest = bytes;
    let mut last = SumFront { kept: 1, number: 0 };
    while let Some(write) = finder.next_write(rest, last.number)? {
        lines.extend_from_slice(write.lines)?;
        rest = write.rest;
        last = SumFront {
            kept: last.kept.max(write.front.kept),
            number: write.front.number,
        };
    }
    let length = bytes.len() - rest.len();
    if last.number == 0 {
        return Err(ReadError::Changed(length));
    }
    if finder.is_kept_behind(rest, last.number)? {
        return Err(ReadError::Changed(length));
    }
    Ok(FoundWrites {
        lines,
        length,
        sealer: WriteSealer::after(finder.codec, last.number, last.kept),
    })
}

impl WriteFinder {
    ghost use Rattle.std.specs.Prelude.{◌≡◌, ◌++◌, ◌<◌, ◌^◌, ◌↔◌, ℕ, List, IfOk, IfSome, IsSomeAnd, IsTrue, suc};
    ghost use Rattle.rme_durable_writes.specs.Finding.{IsFoundAt, IsThisWrite};
    ghost use Rattle.rme_durable_writes.specs.Reading.{IsKeptWithin};
    ghost use Rattle.rme_durable_writes.specs.Writes.{IsWrite, Write, write_text};

    /// The write at the front of some bytes, if that is the next one behind the write with this number.
    fn next_write<'a>(
        &self,
        bytes: &'a [u8],
        number: u64,
    ) -> Result<Option<FirstWrite<'a>>, AllocError>
        ensures is { IfOk result (λ found. IfSome found (IsFoundAt bytes.now (suc number))) }
        ensures all { (write : Write) (rest : List ℕ) → suc number < 2 ^ 64 → IsWrite write
            → bytes.now ≡ write_text (suc number) write ++ rest
            → IfOk result (λ found. IsSomeAnd found (IsThisWrite (suc number) write rest)) }
    {
        match self.first_write(bytes)? {
            Some(write) if number.checked_add(1) == Some(write.front.number) => Ok(Some(write)),
            _ => Ok(None),
        }
    }

    /// The write at the front of some bytes, whatever its number; `None` if they do not begin with a write.
    fn first_write<'a>(&self, bytes: &'a [u8]) -> Result<Option<FirstWrite<'a>>, AllocError>
        ensures is { IfOk result (λ found. IfSome found (λ write. IsFoundAt bytes.now write.front.number write)) }
        ensures all { (number : ℕ) (write : Write) (rest : List ℕ) → number < 2 ^ 64 → IsWrite write
            → bytes.now ≡ write_text number write ++ rest
            → IfOk result (λ found. IsSomeAnd found (IsThisWrite number write rest)) }
    {
        let Some(at) = self.codec.marks.find(bytes) else {
            return Ok(None);
        };
        let (lines, tail) = bytes.split_at(at + 1);
        let Some(front) = read_front(tail) else {
            return Ok(None);
        };
        let line = sum_line(self.alloc, &self.codec.crc, lines, front)?;
        if !tail.starts_with(line.as_slice()) {
            return Ok(None);
        }
        Ok(Some(FirstWrite {
            front,
            lines,
            rest: &tail[line.len()..],
        }))
    }

    /// Whether a line in these bytes tells that a write behind this number was with the disk.
    fn is_kept_behind(&self, bytes: &[u8], number: u64) -> Result<bool, AllocError>
        ensures { IfOk result (λ is. IsTrue is ↔ IsKeptWithin bytes.now (suc number)) }
    {
        if is_kept_by_first(self.alloc, bytes, number)? {
            return Ok(true);
        }
        let mut rest = bytes;
        while let Some(behind) = behind_line(rest) {
            if is_kept_by_first(self.alloc, behind, number)? {
                return Ok(true);
            }
            rest = behind;
        }
        Ok(false)
    }
}

/// Whether the first line of these bytes tells that a write behind this number was with the disk.
fn is_kept_by_first(alloc: Global, bytes: &[u8], number: u64) -> Result<bool, AllocError>
    ensures { IfOk result (λ is. IsTrue is ↔ IsKeptByFirst bytes.now (suc number)) }
{
    let Some(front) = read_front(bytes) else {
        return Ok(false);
    };
    let mut text = Vec::new(alloc);
    push_front(front, &mut text)?;
    if !bytes.starts_with(text.as_slice()) {
        return Ok(false);
    }
    Ok(front.kept > number)
}

/// The bytes behind the first line.
fn behind_line(bytes: &[u8]) -> Option<&[u8]>
    ensures some { IfSome result (λ rest. SkipsLine bytes.now rest.now) }
    ensures none { IfNone result ((rest : List ℕ) → SkipsLine bytes.now rest → ⊥) }
{
    match memchr(b'\n', bytes) {
        Some(end) => Some(&bytes[end + 1..]),
        None => None,
    }
}
