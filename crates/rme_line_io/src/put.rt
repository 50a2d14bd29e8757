//! Writing all of some bytes.

ghost use Rattle.std.specs.Prelude.{◌≡◌, OnOk, OnErr, IfErr};
ghost use Rattle.std.specs.Io.KnownBytes.{Appends};
ghost use Rattle.rme_line_io.specs.BufferedWrites.{WritesPrefix};
ghost use Rattle.rme_line_io.specs.StreamEvents.{LastWriteFailed, WritesMade};

use crate::fault::EngineFault;
use crate::stream::{Sink, is_interrupted};

/// Writes all of the bytes.
///
/// An interrupted write is repeated. `WriteFailed` if the writer fails or takes no byte; it has then received a prefix
/// of the bytes, or all of them.
pub fn put_all<W: Sink>(writer: &mut W, bytes: &[u8]) -> Result<(), EngineFault>
    ensures whole { OnOk result (Appends (W.contents writer.old) (W.contents writer.new) bytes.now) }
    ensures front { OnErr result (WritesPrefix (W.contents writer.old) (W.contents writer.new) bytes.now) }
    ensures kind { IfErr result (λ fault. fault ≡ EngineFault.WriteFailed) }
    ensures writes { WritesMade (W.took writer.old) (W.took writer.new) }
    ensures broke { OnErr result (LastWriteFailed (W.took writer.old) (W.took writer.new)) }
{
    let mut at = 0;
    for _ in 0..u64::MAX {
        if at == bytes.len() {
            return Ok(());
        }
        match writer.write_some(&bytes[at..]) {
            Ok(0) => return Err(EngineFault::WriteFailed),
            Ok(count) => at += count,
            Err(error) if is_interrupted(&error) => {}
            Err(_) => return Err(EngineFault::WriteFailed),
        }
    }
    Err(EngineFault::WriteFailed)
}
