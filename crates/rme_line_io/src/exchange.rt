//! Lines that are taken, and answers that are buffered until they are written.

use crate::cut::Cut;
use crate::fault::EngineFault;
use crate::lines::LineReader;
use crate::stream::{Sink, Source};
use crate::write_buffer::WriteBuffer;
use std::alloc::{AllocError, Global};

/// The last line taken, and the answers that are not yet written, to it and to earlier lines.
///
/// Call `next_line` and `answer` in turn until no line is left or a call fails, and then `give_up` for the fault that
/// ends the exchange. Answers are written together: all of them before the reader is read again, and otherwise when
/// they reach 64 KiB.
#[derive(Drop)]
pub struct Exchange {
    line: Vec<u8>,
    pending: WriteBuffer,
}

impl Exchange {
    ghost use Rattle.std.specs.Prelude.{◌≡◌, ◌≢◌, ◌++◌, ◌<◌, ◌≤◌, [], false, IfOk, IfErr, OnOk, OnErr, IsTrue, IsFalse};
    ghost use Rattle.std.specs.Io.KnownBytes.{Appends};
    ghost use Rattle.rme_line_io.specs.Cuts.{LineCut};
    ghost use Rattle.rme_line_io.specs.Pieces.{WholeLineTaken};
    ghost use Rattle.rme_line_io.specs.BufferedWrites.{WritesPrefix, BufferedWrite};
    ghost use Rattle.rme_line_io.specs.StreamEvents.{LastWriteFailed, WritesMade};
    ghost use Rattle.rme_line_io.specs.Readers.{ReaderEnded, BufferWrittenSince, bytes_left, reader_has_ended, most_lines};
    ghost use Rattle.rme_line_io.specs.StreamCalls.{CallReads, CallWrites};
    ghost use Rattle.rme_line_io.specs.LineRuns.{RunEndsOnFault, FaultBeforeLine, run_moment};

    /// No line was taken, and no answer is buffered.
    pub fn new(alloc: Global) -> Result<Exchange, AllocError>
        ensures { IfOk result (λ exchange. exchange.pending ≡ []) }
    {
        Ok(Exchange {
            line: Vec::new(alloc),
            pending: WriteBuffer::new(alloc)?,
        })
    }

    /// The last line taken.
    pub fn line(&self) -> &[u8]
        ensures { result.now ≡ self.now.line.items }
    {
        self.line.as_slice()
    }

    /// Whether answers are buffered.
    pub fn has_unwritten(&self) -> bool
        ensures some { IsTrue result → self.now.pending ≢ [] }
        ensures none { IsFalse result → self.now.pending ≡ [] }
    {
        !self.pending.is_empty()
    }

    /// Takes the next line. If no whole line is buffered, all buffered answers are written before the reader is read,
    /// so that a client that waits for its answers has them.
    ///
    /// After `ReadFailed` all answers were written, and after `WriteFailed` a prefix of them; after `NoMemory` answers
    /// that were not written are still buffered.
    pub fn next_line<R: Source + Drop, W: Sink>(
        &mut self,
        lines: &mut LineReader<R>,
        writer: &mut W,
    ) -> Result<Cut, EngineFault>
        ensures cut { IfOk result (λ cut. LineCut (bytes_left R.remaining lines.old) (bytes_left R.remaining lines.new)
            cut self.new.line.items) }
        ensures whole { OnOk result (reader_has_ended lines.new ≡ false
            → WholeLineTaken (bytes_left R.remaining lines.old) (bytes_left R.remaining lines.new)) }
        ensures gathers { OnOk result (BufferedWrite (W.contents writer.old) self.old.pending [] (W.contents writer.new)
            self.new.pending) }
        ensures none_kept { IfOk result (λ cut. cut ≡ Cut.End
            → Appends (W.contents writer.old) (W.contents writer.new) self.old.pending) }
        ensures err { IfErr result (λ fault. FaultBeforeLine fault
            (run_moment R.remaining lines.old (W.contents writer.old) self.old.pending)
            (run_moment R.remaining lines.new (W.contents writer.new) self.new.pending)) }
        ensures fewer { IfOk result (λ cut. cut ≢ Cut.End → most_lines lines.new < most_lines lines.old) }
        ensures end { IfOk result (λ cut. cut ≡ Cut.End → ReaderEnded lines.new) }
        ensures reads { CallReads R.gave R.moments lines.old lines.new
            (BufferWrittenSince (bytes_left R.remaining lines.old) (W.contents writer.old) self.old.pending) result }
        ensures writes { CallWrites (W.took writer.old) (W.took writer.new) result }
    {
        match lines.take_line(&mut self.line) {
            Ok(Some(cut)) => return Ok(cut),
            Ok(None) => {}
            Err(_) => return Err(EngineFault::NoMemory),
        }
        match self.pending.flush_to(writer) {
            Ok(()) => {}
            Err(fault) => return Err(fault),
        }
        lines.next_line(&mut self.line, writer)
    }

    /// Buffers an answer after the others; if there is no room for it, they are written first. After `WriteFailed` a
    /// prefix of all these was written.
    pub fn answer<W: Sink>(&mut self, bytes: &[u8], writer: &mut W) -> Result<(), EngineFault>
        ensures gathers { OnOk result (BufferedWrite (W.contents writer.old) self.old.pending bytes.now
            (W.contents writer.new) self.new.pending) }
        ensures front { OnErr result (WritesPrefix (W.contents writer.old) (W.contents writer.new)
            (self.old.pending ++ bytes.now)) }
        ensures kind { IfErr result (λ fault. fault ≡ EngineFault.WriteFailed) }
        ensures writes { WritesMade (W.took writer.old) (W.took writer.new) }
        ensures broke { OnErr result (LastWriteFailed (W.took writer.old) (W.took writer.new)) }
    {
        self.pending.write_buffered(bytes, writer)
    }

    /// Writes all buffered answers, for use when the next answer will take long. After `WriteFailed` a prefix of them
    /// was written.
    pub fn write<W: Sink>(&mut self, writer: &mut W) -> Result<(), EngineFault>
        ensures none_kept { OnOk result (self.new.pending ≡ []) }
        ensures whole { OnOk result (Appends (W.contents writer.old) (W.contents writer.new) self.old.pending) }
        ensures front { OnErr result (WritesPrefix (W.contents writer.old) (W.contents writer.new) self.old.pending) }
        ensures kind { IfErr result (λ fault. fault ≡ EngineFault.WriteFailed) }
        ensures writes { WritesMade (W.took writer.old) (W.took writer.new) }
        ensures broke { OnErr result (LastWriteFailed (W.took writer.old) (W.took writer.new)) }
    {
        self.pending.flush_to(writer)
    }

    /// The fault that ends the exchange: after refused memory the buffered answers are still written, which may fail.
    pub fn give_up<W: Sink>(&mut self, fault: EngineFault, writer: &mut W) -> EngineFault
        ensures gives_up { RunEndsOnFault fault (W.contents writer.old) self.old.pending (W.contents writer.new)
            result }
        ensures writes { WritesMade (W.took writer.old) (W.took writer.new) }
        ensures broke { fault ≢ EngineFault.WriteFailed → result ≡ EngineFault.WriteFailed
            → LastWriteFailed (W.took writer.old) (W.took writer.new) }
        ensures kept { fault ≢ EngineFault.NoMemory → writer.new ≡ writer.old }
        ensures read { result ≡ EngineFault.ReadFailed → fault ≡ EngineFault.ReadFailed }
    {
        if fault != EngineFault::NoMemory {
            return fault;
        }
        match self.write(writer) {
            Ok(()) => EngineFault::NoMemory,
            Err(failed) => failed,
        }
    }
}
