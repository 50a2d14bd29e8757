//! The output of `rme draw`.

ghost use Rattle.std.specs.Prelude.{◌≡◌, IfOk, OnErr, OnOk, string_bytes};
ghost use Rattle.std.specs.Io.KnownBytes.{Appends};
ghost use Rattle.rme_line_io.specs.BufferedWrites.{WritesPrefix};
ghost use Rattle.rme_line_io.specs.Readers.{bytes_left};
ghost use Rattle.rme_cli_commands.specs.Drawn.{DrawCommandOutput, cut_text, draw_status, is_cut, last_lines_text, no_such_lines_text, told_text};
ghost use Rattle.rme_cli_lines.specs.VerdictStatuses.{verdict_line_text};

use rme_cli_lines::{print_verdict, verdict_status};
use rme_cli_messages::CliFault;
use rme_cli_options::DrawTask;
use rme_draw_history::{DrawAnswer, DrawRequest, DrawnLines, draw_lines};
use rme_line_check::Verdict;
use rme_wire::{LineReader, put_all};
use std::alloc::{AllocError, Global};
use std::io;
use std::io::{Read, Write};

/// Draws the transcript on the standard input, and answers the status. If the machine does not have the transcript, or
/// the transcript does not have the lines of the task, it prints that on the standard error, and no picture.
pub fn run_draw(rt: &HostRuntime, task: DrawTask) -> Result<u8, CliFault> {
    let mut lines = LineReader::new(rt.alloc(), rt.stdin())?;
    let request = DrawRequest {
        from: task.from,
        to: task.to,
        has_checkpoint_worker: task.is_of_state,
    };
    draw_stream(
        rt.alloc(),
        &mut lines,
        &mut io::writer(rt),
        &mut rt.stderr(),
        request,
    )
}

/// Draws the transcript of a reader, prints what is to be told of it, and answers the status.
fn draw_stream<R: Read + Drop, W: Write, E: Write>(
    alloc: Global,
    lines: &mut LineReader<R>,
    writer: &mut W,
    errors: &mut E,
    request: DrawRequest,
) -> Result<u8, CliFault>
    ensures drawn { IfOk result (DrawCommandOutput request (bytes_left R.remaining lines.old)
        (W.contents writer.old) (W.contents writer.new) (E.contents errors.old) (E.contents errors.new)) }
{
    let answer = draw_lines(alloc, lines, writer, request)?;
    print_told(alloc, errors, &request, answer);
    Ok(draw_status(answer))
}

/// The exit status after an answer.
fn draw_status(answer: DrawAnswer) -> u8
    ensures { result ≡ draw_status answer }
{
    match answer {
        DrawAnswer::Drawn(_) => 0,
        DrawAnswer::NoSuchLines(_) => 2,
        DrawAnswer::Refused(verdict) => verdict_status(verdict),
    }
}

/// Prints what is to be told of an answer. The picture or the status has it too, so a failed write changes nothing.
fn print_told<W: Write>(alloc: Global, writer: &mut W, request: &DrawRequest, answer: DrawAnswer)
    ensures { WritesPrefix (W.contents writer.old) (W.contents writer.new) (told_text request.now answer) }
{
    match answer {
        DrawAnswer::Drawn(drawn) => print_cut(alloc, writer, request, drawn),
        DrawAnswer::NoSuchLines(lines) => print_no_such_lines(alloc, writer, lines),
        DrawAnswer::Refused(verdict) => print_verdict_line(alloc, writer, verdict),
    }
}

/// Prints which lines were drawn, if these are not all and no line was named.
fn print_cut<W: Write>(alloc: Global, writer: &mut W, request: &DrawRequest, drawn: DrawnLines)
    ensures { WritesPrefix (W.contents writer.old) (W.contents writer.new) (cut_text request.now drawn) }
{
    if is_cut(request, drawn) {
        print_last_lines(alloc, writer, drawn);
    }
}

/// Whether no line was named, and not all lines were drawn.
fn is_cut(request: &DrawRequest, drawn: DrawnLines) -> bool
    ensures { result ≡ is_cut request.now drawn }
{
    match (request.from, request.to) {
        (None, None) => 1 < drawn.first,
        _ => false,
    }
}

/// Writes which lines were drawn. An error says nothing of the picture, which was written before.
fn write_last_lines<W: Write>(
    alloc: Global,
    writer: &mut W,
    drawn: DrawnLines,
) -> Result<(), CliFault>
    ensures whole { OnOk result (Appends (W.contents writer.old) (W.contents writer.new) (last_lines_text drawn)) }
    ensures front { OnErr result (WritesPrefix (W.contents writer.old) (W.contents writer.new)
        (last_lines_text drawn)) }
{
    let text = last_lines_text(alloc, drawn)?;
    put_all(writer, text.as_str().as_bytes())?;
    Ok(())
}

/// Writes that the transcript has only this number of lines.
fn write_no_such_lines<W: Write>(alloc: Global, writer: &mut W, lines: u64) -> Result<(), CliFault>
    ensures whole { OnOk result (Appends (W.contents writer.old) (W.contents writer.new) (no_such_lines_text lines)) }
    ensures front { OnErr result (WritesPrefix (W.contents writer.old) (W.contents writer.new)
        (no_such_lines_text lines)) }
{
    let text = no_such_lines_text(alloc, lines)?;
    put_all(writer, text.as_str().as_bytes())?;
    Ok(())
}

/// Prints that the transcript has only this number of lines.
fn print_no_such_lines<W: Write>(alloc: Global, writer: &mut W, lines: u64)
    ensures { WritesPrefix (W.contents writer.old) (W.contents writer.new) (no_such_lines_text lines) }
{
    let _ = write_no_such_lines(alloc, writer, lines);
}

fn print_last_lines<W: Write>(alloc: Global, writer: &mut W, drawn: DrawnLines)
    ensures { WritesPrefix (W.contents writer.old) (W.contents writer.new) (last_lines_text drawn) }
{
    let _ = write_last_lines(alloc, writer, drawn);
}

fn last_lines_text(alloc: Global, drawn: DrawnLines) -> Result<String, AllocError>
    ensures { IfOk result (λ text. string_bytes text ≡ last_lines_text drawn) }
{
    format!(in alloc;
        "rme: lines {} to {} of {} are drawn: --from LINE and --to LINE draw others\n",
        drawn.first, drawn.last, drawn.lines
    )
}

fn no_such_lines_text(alloc: Global, lines: u64) -> Result<String, AllocError>
    ensures { IfOk result (λ text. string_bytes text ≡ no_such_lines_text lines) }
{
    format!(in alloc;
        "fault: bad arguments\n  the transcript ends at line {lines}, before the LINE of --from or --to\n"
    )
}

/// Prints a verdict.
fn print_verdict_line<W: Write>(alloc: Global, writer: &mut W, verdict: Verdict)
    ensures { WritesPrefix (W.contents writer.old) (W.contents writer.new) (verdict_line_text verdict) }
{
    let _ = print_verdict(alloc, writer, verdict);
}
