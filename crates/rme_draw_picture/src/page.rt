//! The page on which a picture's text is put.

ghost use Rattle.std.specs.Prelude.{◌≡◌, [], false, IfOk};

use crate::piece::Piece;
use itoa::Buffer;
use rme_line_io::{EngineFault, Sink, WriteBuffer};
use std::alloc::{AllocError, Global};

/// A buffered writer, with 64 KiB that are allocated once.
///
/// `put` has no result: after a write that failed, nothing more is written, and `finish` answers the failure. Only
/// `new` allocates, so that a text that was begun never ends for lack of memory.
#[derive(Drop)]
pub struct Page {
    pub pending: WriteBuffer,
    /// Whether a write failed.
    pub failed: bool,
}

impl Page {
    ghost use Rattle.std.specs.Prelude.{◌≡◌, [], false, IfOk, IfErr, OnOk, OnErr};
    ghost use Rattle.std.specs.Io.KnownBytes.{Appends};
    ghost use Rattle.rme_draw_picture.specs.Pages.{LastPageWriteFailed, TextPut, SomeTextPut, page_state};

    /// An empty page.
    pub fn new(alloc: Global) -> Result<Page, AllocError>
        ensures empty { IfOk result (λ page. page.pending ≡ []) }
        ensures going { IfOk result (λ page. page.failed ≡ false) }
    {
        let pending = WriteBuffer::new(alloc)?;
        Ok(Page {
            pending,
            failed: false,
        })
    }

    /// Appends pieces.
    pub fn put<W: Sink>(&mut self, writer: &mut W, pieces: &[Piece])
        ensures { SomeTextPut W.contents W.took self.old writer.old self.new writer.new }
    {
        for piece in pieces {
            self.put_piece(writer, *piece);
        }
    }

    fn put_piece<W: Sink>(&mut self, writer: &mut W, piece: Piece)
        ensures { SomeTextPut W.contents W.took self.old writer.old self.new writer.new }
    {
        match piece {
            Piece::Text(text) => self.put_bytes(writer, text.as_bytes()),
            Piece::Number(number) => {
                let mut digits = Buffer::new();
                self.put_bytes(writer, digits.format(number).as_bytes());
            }
        }
    }

    /// Appends bytes.
    fn put_bytes<W: Sink>(&mut self, writer: &mut W, bytes: &[u8])
        ensures { TextPut bytes.now (page_state W.contents W.took self.old writer.old)
            (page_state W.contents W.took self.new writer.new) }
    {
        if self.failed {
            return;
        }
        match self.pending.write_buffered(bytes, writer) {
            Ok(()) => {}
            Err(_) => self.failed = true,
        }
    }

    /// Writes the rest of the buffer. After `WriteFailed`, a prefix of all that was put was written.
    pub fn finish<W: Sink>(&mut self, writer: &mut W) -> Result<(), EngineFault>
        ensures going { OnOk result (self.old.failed ≡ false) }
        ensures whole { OnOk result (Appends (W.contents writer.old) (W.contents writer.new) self.old.pending) }
        ensures kind { IfErr result (λ fault. fault ≡ EngineFault.WriteFailed) }
        ensures broke { OnErr result (LastPageWriteFailed self.old.failed (W.took writer.old) (W.took writer.new)) }
    {
        if self.failed {
            return Err(EngineFault::WriteFailed);
        }
        match self.pending.flush_to(writer) {
            Ok(()) => Ok(()),
            Err(fault) => Err(fault),
        }
    }
}
