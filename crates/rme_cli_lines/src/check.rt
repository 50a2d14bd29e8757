//! The output of `rme check`.

ghost use Rattle.std.specs.Prelude.{◌≡◌, ◌≢◌, IfOk, IfErr, OnOk, OnErr, string_bytes};
ghost use Rattle.std.specs.Io.KnownBytes.{Appends};
ghost use Rattle.rme_line_io.specs.BufferedWrites.{WritesPrefix};
ghost use Rattle.rme_line_io.specs.Readers.{bytes_left};
ghost use Rattle.rme_cli_lines.specs.VerdictStatuses.{CheckCommandOutput, verdict_status, verdict_line_text};

use rme_cli_messages::CliFault;
use rme_line_check::{Verdict, check_lines};
use rme_wire::{LineReader, put_all};
use std::alloc::{AllocError, Global};
use std::io;
use std::io::{Read, Write};

/// Checks the transcript on the standard input, prints its verdict, and answers the status.
pub fn check(rt: &HostRuntime) -> Result<u8, CliFault> {
    let mut lines = LineReader::new(rt.alloc(), rt.stdin())?;
    check_stream(rt.alloc(), &mut lines, &mut io::writer(rt))
}

/// Checks the transcript of a reader, writes the line of its verdict, and answers the status.
///
/// After any fault but `WriteFailed` nothing was written.
fn check_stream<R: Read + Drop, W: Write>(
    alloc: Global,
    lines: &mut LineReader<R>,
    writer: &mut W,
) -> Result<u8, CliFault>
    ensures found { IfOk result (CheckCommandOutput (bytes_left R.remaining lines.old) (W.contents writer.old)
        (W.contents writer.new)) }
    ensures unwritten { IfErr result (λ fault. fault ≢ CliFault.WriteFailed
        → W.contents writer.new ≡ W.contents writer.old) }
{
    let verdict = check_lines(alloc, lines)?;
    print_verdict(alloc, writer, verdict)
}

/// Writes the line of a verdict, and answers the exit status.
///
/// After `WriteFailed` a prefix of the line was written, and after `NoMemory` nothing.
pub fn print_verdict<W: Write>(
    alloc: Global,
    writer: &mut W,
    verdict: Verdict,
) -> Result<u8, CliFault>
    ensures told { OnOk result (Appends (W.contents writer.old) (W.contents writer.new) (verdict_line_text verdict)) }
    ensures status { IfOk result (λ status. status ≡ verdict_status verdict) }
    ensures front { OnErr result (WritesPrefix (W.contents writer.old) (W.contents writer.new)
        (verdict_line_text verdict)) }
    ensures unwritten { IfErr result (λ fault. fault ≢ CliFault.WriteFailed
        → W.contents writer.new ≡ W.contents writer.old) }
{
    let text = verdict_line_text(alloc, verdict)?;
    put_all(writer, text.as_str().as_bytes())?;
    Ok(verdict_status(verdict))
}

/// The line of a verdict.
fn verdict_line_text(alloc: Global, verdict: Verdict) -> Result<String, AllocError>
    ensures { IfOk result (λ text. string_bytes text ≡ verdict_line_text verdict) }
{
    match verdict {
        Verdict::Yes => String::from_str(alloc, "yes\n"),
        Verdict::No(line) => format!(in alloc; "no {line}\n"),
        Verdict::Bad(line) => format!(in alloc; "bad {line}\n"),
    }
}

/// The exit status after a verdict.
pub fn verdict_status(verdict: Verdict) -> u8
    ensures { result ≡ verdict_status verdict }
{
    match verdict {
        Verdict::Yes => 0,
        _ => 1,
    }
}
