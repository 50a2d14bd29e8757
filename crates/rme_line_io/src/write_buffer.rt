//! Buffered bytes, to be written together.

ghost use Rattle.std.specs.Prelude.{◌≡◌};

use crate::fault::EngineFault;
use crate::put::put_all;
use crate::stream::Sink;
use std::alloc::{AllocError, Global};
use std::marker::Model;

/// The greatest number of buffered bytes.
const MOST_PENDING: usize = 65_536;

/// Bytes that are not yet written: at most 64 KiB, in memory that is taken once.
#[derive(Drop)]
pub struct WriteBuffer {
    bytes: Vec<u8>,
}

impl Model for WriteBuffer {
    ghost use Rattle.std.specs.Prelude.{ℕ, List};

    ghost Value = { List ℕ };

    ghost view = { λ pending. pending.bytes.items };
}

impl WriteBuffer {
    ghost use Rattle.std.specs.Prelude.{◌≡◌, ◌≢◌, ◌++◌, [], IfOk, IfErr, OnOk, OnErr, IsTrue, IsFalse};
    ghost use Rattle.std.specs.Io.KnownBytes.{Appends};
    ghost use Rattle.rme_line_io.specs.BufferedWrites.{WritesPrefix, BufferedWrite};
    ghost use Rattle.rme_line_io.specs.StreamEvents.{LastWriteFailed, WritesMade};

    /// An empty buffer.
    pub fn new(alloc: Global) -> Result<WriteBuffer, AllocError>
        ensures { IfOk result (λ pending. pending ≡ []) }
    {
        let bytes = Vec::with_capacity(alloc, MOST_PENDING)?;
        Ok(WriteBuffer { bytes })
    }

    /// Whether the buffer is empty.
    pub fn is_empty(&self) -> bool
        ensures none { IsTrue result → self.now ≡ [] }
        ensures some { IsFalse result → self.now ≢ [] }
    {
        self.bytes.is_empty()
    }

    /// Writes the whole buffer. After `WriteFailed` a prefix of it was written.
    pub fn flush_to<W: Sink>(&mut self, writer: &mut W) -> Result<(), EngineFault>
        ensures none_kept { OnOk result (self.new ≡ []) }
        ensures whole { OnOk result (Appends (W.contents writer.old) (W.contents writer.new) self.old) }
        ensures front { OnErr result (WritesPrefix (W.contents writer.old) (W.contents writer.new) self.old) }
        ensures kind { IfErr result (λ fault. fault ≡ EngineFault.WriteFailed) }
        ensures writes { WritesMade (W.took writer.old) (W.took writer.new) }
        ensures broke { OnErr result (LastWriteFailed (W.took writer.old) (W.took writer.new)) }
    {
        match put_all(writer, self.bytes.as_slice()) {
            Ok(()) => {}
            Err(fault) => return Err(fault),
        }
        self.bytes.clear();
        Ok(())
    }

    /// Buffers further bytes; if there is no room for them, the buffer is written first. Bytes that do not fit an empty
    /// buffer are written at once. After `WriteFailed` a prefix of all these was written.
    pub fn write_buffered<W: Sink>(
        &mut self,
        bytes: &[u8],
        writer: &mut W,
    ) -> Result<(), EngineFault>
        ensures gathers { OnOk result (BufferedWrite (W.contents writer.old) self.old bytes.now (W.contents writer.new)
            self.new) }
        ensures front { OnErr result (WritesPrefix (W.contents writer.old) (W.contents writer.new)
            (self.old ++ bytes.now)) }
        ensures kind { IfErr result (λ fault. fault ≡ EngineFault.WriteFailed) }
        ensures writes { WritesMade (W.took writer.old) (W.took writer.new) }
        ensures broke { OnErr result (LastWriteFailed (W.took writer.old) (W.took writer.new)) }
    {
        if self.try_push(bytes) {
            return Ok(());
        }
        match self.flush_to(writer) {
            Ok(()) => {}
            Err(fault) => return Err(fault),
        }
        if self.try_push(bytes) {
            return Ok(());
        }
        match put_all(writer, bytes) {
            Ok(()) => Ok(()),
            Err(fault) => Err(fault),
        }
    }

    /// Buffers further bytes if there is room for them, and answers whether there was.
    fn try_push(&mut self, bytes: &[u8]) -> bool
        ensures kept { IsTrue result → self.new ≡ self.old ++ bytes.now }
        ensures unchanged { IsFalse result → self.new ≡ self.old }
    {
        if bytes.len() > MOST_PENDING.saturating_sub(self.bytes.len()) {
            return false;
        }
        self.bytes.extend_from_slice(bytes).is_ok()
    }
}
