//! Making writes: lines, closed by a last line with their checksum.

ghost use Rattle.std.specs.Prelude.{◌≡◌, IfErr, OnOk};
ghost use Rattle.rme_durable_writes.specs.Sealing.{IsWhyNotLines};
ghost use Rattle.rme_durable_writes.specs.Writes.{AreWriteLines, write_text};

use crate::sum_line::{SumFront, push_end, push_front};
use crate::write_codec::WriteCodec;
use std::alloc::{AllocError, Global};
use std::marker::Model;

/// Why bytes are not made a write.
#[derive(Clone, Copy, Debug, PartialEq, Eq)]
pub enum SealError {
    NoMemory,
    /// They are not whole lines, or one of them begins as the last line of a write does.
    NotLines,
    /// There were 2^64 - 1 writes.
    TooMany,
}

impl From<AllocError> for SealError {
    ghost use Rattle.std.specs.Prelude.{◌≡◌};
    ghost use Rattle.rme_durable_writes.specs.declared.write_sealer.SealError.TheVariants.{NoMemory};

    ghost from_gives = { λ _ error. error ≡ NoMemory };

    fn from(_refused: AllocError) -> SealError {
        SealError::NoMemory
    }
}

/// Makes the writes of one log, in order.
#[derive(Drop)]
pub struct WriteSealer {
    codec: WriteCodec,
    /// The number of the last write; 0 before the first.
    number: u64,
    /// The number of the last write that is known to be with the disk; 0 before one is.
    kept: u64,
}

impl Model for WriteSealer {
    ghost use Rattle.std.specs.Prelude.{◌<◌, ◌^◌};
    ghost use Rattle.rme_durable_writes.specs.Sealing.{SealerState};

    ghost Value = { SealerState };

    ghost view = { λ sealer. record {
      number = sealer.number;
      kept = sealer.kept;
    } };

    ghost invariant = { λ sealer. (sealer.number < 2 ^ 64) × (sealer.kept < 2 ^ 64) };
}

impl WriteSealer {
    ghost use Rattle.std.specs.Prelude.{◌≡◌, IfErr, IfOk, OnErr, OnOk, suc};
    ghost use Rattle.rme_durable_writes.specs.Sealing.{IsSealed, IsWhyNotSealed, new_log};

    /// The sealer of a log without writes. It allocates the table of its checksums, 8 KiB, and nothing afterwards.
    pub fn new(alloc: Global) -> Result<WriteSealer, AllocError>
        ensures { IfOk result (λ sealer. sealer ≡ new_log) }
    {
        Ok(WriteSealer::after(WriteCodec::new(alloc)?, 0, 0))
    }

    /// The sealer of a log whose last write has this number, if the write `kept` is the last that is known to be with
    /// the disk.
    pub(crate) fn after(codec: WriteCodec, number: u64, kept: u64) -> WriteSealer
        ensures number { result.number ≡ number }
        ensures kept { result.kept ≡ kept }
    {
        WriteSealer {
            codec,
            number,
            kept,
        }
    }

    /// Replaces the bytes of `write` by the next write, with these lines. It allocates only where they have no room.
    ///
    /// After an error there was no write, and `write` has any bytes. `NotLines` if these bytes are not whole lines, or
    /// one of them begins as the last line of a write does; `TooMany` after 2^64 - 1 writes; `NoMemory` if memory was
    /// refused.
    pub fn seal(&mut self, lines: &[u8], write: &mut Vec<u8>) -> Result<(), SealError>
        ensures sealed { OnOk result (IsSealed self.old lines.now write.new.items) }
        ensures number { OnOk result (self.new.number ≡ suc self.old.number) }
        ensures kept { self.new.kept ≡ self.old.kept }
        ensures same { OnErr result (self.new ≡ self.old) }
        ensures why { IfErr result (IsWhyNotSealed self.old lines.now) }
    {
        let Some(number) = self.number.checked_add(1) else {
            return Err(SealError::TooMany);
        };
        let front = SumFront {
            kept: self.kept,
            number,
        };
        make_write(&self.codec, front, lines, write)?;
        self.number = number;
        Ok(())
    }

    /// Replaces the bytes of `write` by the first write of another log, with these lines. This log stays as it is:
    /// `begin_log` goes on with the other one.
    ///
    /// After an error `write` has any bytes. `NotLines` and `NoMemory` as for `seal`.
    pub fn seal_first(&self, lines: &[u8], write: &mut Vec<u8>) -> Result<(), SealError>
        ensures sealed { OnOk result (IsSealed new_log lines.now write.new.items) }
        ensures why { IfErr result (IsWhyNotSealed new_log lines.now) }
    {
        let front = SumFront { kept: 0, number: 1 };
        make_write(&self.codec, front, lines, write)
    }

    /// Goes on with a log whose first write is with the disk, and which has no other yet.
    pub fn begin_log(&mut self)
        ensures number { self.new.number ≡ 1 }
        ensures kept { self.new.kept ≡ 1 }
    {
        self.number = 1;
        self.kept = 1;
    }

    /// All writes so far are with the disk.
    pub fn mark_durable(&mut self)
        ensures number { self.new.number ≡ self.old.number }
        ensures kept { self.new.kept ≡ self.old.number }
    {
        self.kept = self.number;
    }
}

/// Replaces the bytes of `write` by a write of these lines whose last line begins with this front.
fn make_write(
    codec: &WriteCodec,
    front: SumFront,
    lines: &[u8],
    write: &mut Vec<u8>,
) -> Result<(), SealError>
    ensures lines { OnOk result (AreWriteLines lines.now) }
    ensures bytes { OnOk result
        (write.new.items ≡ write_text front.number record { kept = front.kept; lines = lines.now }) }
    ensures why { IfErr result (IsWhyNotLines lines.now) }
{
    if !lines.ends_with(b"\n") {
        return Err(SealError::NotLines);
    }
    if codec.marks.find(lines).is_some() {
        return Err(SealError::NotLines);
    }
    write.clear();
    write.extend_from_slice(lines)?;
    push_front(front, write)?;
    let sum = codec.crc.of(write.as_slice());
    push_end(sum, write)?;
    Ok(())
}
