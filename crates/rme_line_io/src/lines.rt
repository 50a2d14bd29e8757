//! The lines of a reader's bytes.

ghost use Rattle.std.specs.Prelude.{◌≡◌, ◌+◌, ◌<◌, ◌≤◌, IfOk, true, vec_len};

use crate::cut::{Cut, cut_of, extend_line, last_cut_of};
use crate::fault::EngineFault;
use crate::stream::{Sink, Source, is_interrupted};
use memchr::memchr;
use std::alloc::{AllocError, Global};

/// The greatest number of reads of one reader.
const READS: u32 = 1_000_000_000;

/// The number of bytes of one read.
const CHUNK: usize = 65_536;

/// Cuts the bytes of a reader into lines.
///
/// A line is the bytes up to a newline; a last piece without a newline is a line if it is not empty. Memory is bounded
/// for every input: a line that is too long is read to its newline and not stored. Nothing is read after a read that
/// gave no byte: a terminal or a socket might give more then, or fail.
#[derive(Drop)]
pub struct LineReader<R> {
    reader: R,
    chunk: Vec<u8>,
    start: usize,
    end: usize,
    /// The number of reads that may still be made.
    reads: u32,
    /// Whether a read gave no byte.
    ended: bool,
    ghost within: { (start ≤ end) × (end ≤ vec_len chunk) × (vec_len chunk ≡ 65536) × (reads ≤ 1000000000) },
    ghost used_up: { ended ≡ true → end ≤ start },
}

/// The buffer for reads.
fn empty_chunk(alloc: Global) -> Result<Vec<u8>, AllocError>
    ensures { IfOk result (λ chunk. vec_len chunk ≡ 65536) }
{
    vec![in alloc; 0u8; CHUNK]
}

impl<R: Source + Drop> LineReader<R> {
    ghost use Rattle.std.specs.Prelude.{◌≡◌, ◌≢◌, ◌<◌, ◌≤◌, IfOk, IfErr, IfSome, None, OnErr, OnSome, true, false};
    ghost use Rattle.std.specs.Io.KnownBytes.{IsAtEnd, Keeps};
    ghost use Rattle.rme_line_io.specs.Pieces.{IsPiece, PieceMoved, PieceTaken, WholeLineTaken};
    ghost use Rattle.rme_line_io.specs.Cuts.{LineCut};
    ghost use Rattle.rme_line_io.specs.Readers.{ReadFailure, ReaderEnded, NoNewlineSince, LastReadFailed, SomeReadsMade, ReadsMadeAt, NothingRead, ChunkConsumed, buffered_bytes, bytes_left, reader_has_ended, most_lines, reads_left};

    /// A reader of lines. It makes no read yet, and at most 1,000,000,000.
    pub fn new(alloc: Global, reader: R) -> Result<LineReader<R>, AllocError>
        ensures bytes { IfOk result (λ lines. Keeps (R.remaining reader) (bytes_left R.remaining lines)) }
        ensures reads { IfOk result (λ lines. reads_left lines ≡ 1000000000) }
    {
        let chunk = empty_chunk(alloc)?;
        Ok(LineReader {
            reader,
            chunk,
            start: 0,
            end: 0,
            reads: READS,
            ended: false,
        })
    }

    /// Makes a read if the chunk is used up, and answers whether a byte is present or may still come.
    fn fill<W: Sink>(&mut self, writer: &W) -> Result<bool, EngineFault>
        ensures kept { Keeps (bytes_left R.remaining self.old) (bytes_left R.remaining self.new) }
        ensures end { IfOk result (λ more. more ≡ false
            → IsAtEnd (bytes_left R.remaining self.new) × (self.new.ended ≡ true)) }
        ensures ended { self.old.ended ≡ true → NothingRead self.old self.new }
        ensures reads { self.new.reads ≤ self.old.reads }
        ensures most { most_lines self.new ≤ most_lines self.old }
        ensures fewer { IfOk result (λ more. more ≡ true → self.new.end ≤ self.new.start
            → most_lines self.new < most_lines self.old) }
        ensures kind { IfErr result (λ fault. fault ≡ EngineFault.ReadFailed) }
        ensures failed { IfErr result (λ _. ReadFailure self.old self.new) }
        ensures asks { SomeReadsMade R.gave self.old self.new }
        ensures shown { ReadsMadeAt R.moments self.old self.new
            (NoNewlineSince (bytes_left R.remaining self.old) (W.contents writer.now)) }
        ensures broke { OnErr result (LastReadFailed R.gave self.old self.new) }
    {
        if self.start < self.end {
            return Ok(true);
        }
        if self.ended {
            return Ok(false);
        }
        if self.reads == 0 {
            return Err(EngineFault::ReadFailed);
        }
        self.reads -= 1;
        match self.reader.read_some(&mut self.chunk[..], writer) {
            Ok(count) => {
                self.start = 0;
                self.end = count;
                self.ended = count == 0;
                Ok(count > 0)
            }
            Err(error) => {
                if is_interrupted(&error) {
                    return Ok(true);
                }
                Err(EngineFault::ReadFailed)
            }
        }
    }

    /// Moves the chunk's bytes up to its next newline to the line, which stores at most one byte more than the limit,
    /// and answers whether the newline was found.
    fn take_piece(&mut self, line: &mut Vec<u8>) -> Result<bool, AllocError>
        ensures takes { IfOk result (λ found. PieceMoved (bytes_left R.remaining self.old)
            (bytes_left R.remaining self.new) found
            line.old.items line.new.items) }
        ensures on { ChunkConsumed self.old self.new }
        ensures lost { OnErr result (Keeps (bytes_left R.remaining self.old) (bytes_left R.remaining self.new)) }
        ensures used { IfOk result (λ _. self.old.start < self.old.end → self.old.start < self.new.start) }
    {
        let bytes = &self.chunk[self.start..self.end];
        match memchr(b'\n', bytes) {
            Some(at) => {
                extend_line(line, &bytes[..at])?;
                self.start += at + 1;
                Ok(true)
            }
            None => {
                extend_line(line, bytes)?;
                self.start = self.end;
                Ok(false)
            }
        }
    }

    /// Cuts the next line off the bytes that were already read, and copies it as `next_line` does. Nothing is read.
    ///
    /// `None` if no whole line is buffered: the reader has to be read for more, or is at its end. An error means that
    /// memory for the line's copy was refused; the line is then not taken.
    pub fn take_line(&mut self, line: &mut Vec<u8>) -> Result<Option<Cut>, AllocError>
        ensures cut { IfOk result (λ taken. IfSome taken
            (λ cut. LineCut (bytes_left R.remaining self.old) (bytes_left R.remaining self.new) cut line.new.items)) }
        ensures some { IfOk result (λ taken. IfSome taken (λ cut. cut ≢ Cut.End)) }
        ensures whole { IfOk result (λ taken. OnSome taken
            (WholeLineTaken (bytes_left R.remaining self.old) (bytes_left R.remaining self.new))) }
        ensures none { IfOk result (λ taken. taken ≡ None → IsPiece (buffered_bytes self.old)) }
        ensures kept { IfOk result (λ taken. taken ≡ None
            → Keeps (bytes_left R.remaining self.old) (bytes_left R.remaining self.new)) }
        ensures on { ChunkConsumed self.old self.new }
        ensures lost { OnErr result (Keeps (bytes_left R.remaining self.old) (bytes_left R.remaining self.new)) }
        ensures fewer { IfOk result (λ taken. OnSome taken (most_lines self.new < most_lines self.old)) }
    {
        line.clear();
        let bytes = &self.chunk[self.start..self.end];
        let Some(at) = memchr(b'\n', bytes) else {
            return Ok(None);
        };
        let taken = at + 1;
        extend_line(line, &bytes[..at])?;
        self.start += taken;
        Ok(Some(cut_of(line)))
    }

    /// Cuts the next line and copies it into `line`, whose earlier contents are dropped. Of a line that is too long
    /// only the front is copied.
    ///
    /// An interrupted read is repeated. `ReadFailed` if the reader fails or all its reads are used up, and `NoMemory`
    /// if memory for the line's copy was refused; the bytes taken of the current line are then lost, none of which is a
    /// newline. After a read that gave no byte the reader is not read again. Each read is shown the writer; if nothing
    /// is to be written, pass a writer that stores nothing.
    pub fn next_line<W: Sink>(&mut self, line: &mut Vec<u8>, writer: &W) -> Result<Cut, EngineFault>
        ensures cut { IfOk result (λ cut. LineCut (bytes_left R.remaining self.old) (bytes_left R.remaining self.new)
            cut line.new.items) }
        ensures whole { IfOk result (λ _. reader_has_ended self.new ≡ false
            → WholeLineTaken (bytes_left R.remaining self.old) (bytes_left R.remaining self.new)) }
        ensures end { IfOk result (λ cut. cut ≡ Cut.End → ReaderEnded self.new) }
        ensures ended { ReaderEnded self.old → NothingRead self.old self.new }
        ensures reads { reads_left self.new ≤ reads_left self.old }
        ensures fewer { IfOk result (λ cut. cut ≢ Cut.End → most_lines self.new < most_lines self.old) }
        ensures kind { IfErr result (λ fault. fault ≢ EngineFault.WriteFailed) }
        ensures failed { IfErr result (λ fault. fault ≡ EngineFault.ReadFailed → ReadFailure self.old self.new) }
        ensures lost { OnErr result (PieceTaken (bytes_left R.remaining self.old) (bytes_left R.remaining self.new)) }
        ensures asks { SomeReadsMade R.gave self.old self.new }
        ensures shown { ReadsMadeAt R.moments self.old self.new
            (NoNewlineSince (bytes_left R.remaining self.old) (W.contents writer.now)) }
        ensures broke { IfErr result (λ fault. fault ≡ EngineFault.ReadFailed
            → LastReadFailed R.gave self.old self.new) }
    {
        line.clear();
        loop {
            match self.fill(writer) {
                Ok(true) => {}
                Ok(false) => return Ok(last_cut_of(line)),
                Err(fault) => return Err(fault),
            }
            match self.take_piece(line) {
                Ok(true) => return Ok(cut_of(line)),
                Ok(false) => {}
                Err(_) => return Err(EngineFault::NoMemory),
            }
        }
    }
}
