//! The two ends of a stream, each with a list of the results of its calls.

ghost use Rattle.std.specs.Prelude.{◌≡◌, ◌≢◌, ℕ, List, [], ◌∷◌, Option, IfOk, IfErr, IsTrue, IsFalse};
ghost use Rattle.std.specs.IoError.{error_kind};
ghost use Rattle.std.specs.Io.{ReadsAtMost, WritesAtMost};
ghost use Rattle.std.specs.Io.KnownBytes.{ReadConsumes, WriteAppends};
ghost use Rattle.rme_line_io.specs.StreamEvents.{StreamEvent, ListGrows, StreamMoment, broke, interrupted, read_event, write_event};

use std::io::{Error, ErrorKind, Read, Result, Write};

/// A source of bytes: any `Read`, or a stream that also records its reads.
///
/// A caller over any source cannot distinguish them, so its contract about recorded reads holds for every reader.
pub trait Source {
    // The bytes that later reads will give, if they are known.
    ghost remaining: { Self → Option (List ℕ) };

    // The results of the reads so far, in order, if the source records them.
    ghost gave: { Self → Option (List StreamEvent) };

    // The moments of the reads so far, in order, if the source records them.
    ghost moments: { Self → Option (List StreamMoment) };

    /// Makes one read, as `Read::read` does. The writer of the answers is passed so that its contents can be recorded
    /// with each read.
    fn read_some<W: Sink>(&mut self, buf: &mut [u8], writer: &W) -> Result<usize>
        ensures bound { ReadsAtMost result buf.new }
        ensures bytes { ReadConsumes (remaining self.old) (remaining self.new) result buf.new }
        ensures shown { ListGrows (moments self.old) (moments self.new)
            (record { left = remaining self.old; held = W.contents writer.now } ∷ []) }
        ensures moved { IfOk result (λ count. ListGrows (gave self.old) (gave self.new)
            (read_event count buf.new ∷ [])) }
        ensures interrupted { IfErr result (λ error. error_kind error ≡ ErrorKind.Interrupted
            → ListGrows (gave self.old) (gave self.new) (interrupted ∷ [])) }
        ensures broke { IfErr result (λ error. error_kind error ≢ ErrorKind.Interrupted
            → ListGrows (gave self.old) (gave self.new) (broke ∷ [])) };
}

/// A sink of bytes: any `Write`, or a stream that also records its writes.
pub trait Sink {
    // The bytes that it received, if they are known.
    ghost contents: { Self → Option (List ℕ) };

    // The results of the writes so far, in order, if the sink records them.
    ghost took: { Self → Option (List StreamEvent) };

    /// Makes one write, as `Write::write` does.
    fn write_some(&mut self, buf: &[u8]) -> Result<usize>
        ensures bound { WritesAtMost result buf.now }
        ensures bytes { WriteAppends (contents self.old) (contents self.new) result buf.now }
        ensures moved { IfOk result (λ count. ListGrows (took self.old) (took self.new)
            (write_event count buf.now ∷ [])) }
        ensures interrupted { IfErr result (λ error. error_kind error ≡ ErrorKind.Interrupted
            → ListGrows (took self.old) (took self.new) (interrupted ∷ [])) }
        ensures broke { IfErr result (λ error. error_kind error ≢ ErrorKind.Interrupted
            → ListGrows (took self.old) (took self.new) (broke ∷ [])) };
}

/// A reader records nothing.
impl<R: Read> Source for R {
    ghost use Rattle.std.specs.Prelude.{None};

    ghost remaining = { R.Read.remaining };

    ghost gave = { λ _. None };

    ghost moments = { λ _. None };

    fn read_some<W: Sink>(&mut self, buf: &mut [u8], _writer: &W) -> Result<usize> {
        self.read(buf)
    }
}

/// A writer records nothing.
impl<W: Write> Sink for W {
    ghost use Rattle.std.specs.Prelude.{None};

    ghost contents = { W.Write.contents };

    ghost took = { λ _. None };

    fn write_some(&mut self, buf: &[u8]) -> Result<usize> {
        self.write(buf)
    }
}

/// Whether a call transferred nothing because it was interrupted, and is to be repeated.
pub fn is_interrupted(error: &Error) -> bool
    ensures yes { IsTrue result → error_kind error.now ≡ ErrorKind.Interrupted }
    ensures no { IsFalse result → error_kind error.now ≢ ErrorKind.Interrupted }
{
    error.kind() == ErrorKind::Interrupted
}
