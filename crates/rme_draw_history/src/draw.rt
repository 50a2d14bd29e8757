//! Drawing a transcript.

ghost use Rattle.std.specs.Prelude.{◌≡◌, ◌≢◌, IfOk, IfErr};
ghost use Rattle.rme_line_io.specs.Readers.{ReadFailure, ReaderEnded, LastReadFailed, SomeReadsMade, NothingRead, bytes_left};
ghost use Rattle.rme_line_io.specs.StreamEvents.{LastWriteFailed};
ghost use Rattle.rme_draw_picture.specs.Pictures.{IsSvg};
ghost use Rattle.rme_draw_history.specs.PictureBuilding.{AnswerGiven, DrawAnswered, picture_state_of};

use crate::drawn_lines::{DrawAnswer, DrawRequest};
use crate::picture_builder::PictureBuilder;
use rme_draw_picture::{Paint, Svg};
use rme_line_check::{Verdict, watch_lines};
use rme_wire::{EngineFault, LineReader, Sink, Source};
use std::alloc::Global;

/// Checks a transcript as `check_lines` does, and draws the lines of the request if the verdict is yes: a timeline in
/// SVG, with a row for each worker and for each lock, and a column for each line. If the request names no line, the
/// last 2,000 lines are drawn.
///
/// After any other answer than `Drawn` nothing is written, nor after any fault but `WriteFailed`, after which a prefix
/// of the picture was written. `NoMemory` means that there was no room for a line, the machine or the drawing, all of
/// which grow with the transcript; the picture's text is written as it is made.
pub fn draw_lines<R: Source + Drop, W: Sink>(
    alloc: Global,
    lines: &mut LineReader<R>,
    writer: &mut W,
    request: DrawRequest,
) -> Result<DrawAnswer, EngineFault>
    ensures answered { IfOk result (DrawAnswered IsSvg request (bytes_left R.remaining lines.old)
        (W.contents writer.old) (W.contents writer.new)) }
    ensures unwritten { IfErr result (λ fault. fault ≢ EngineFault.WriteFailed
        → W.contents writer.new ≡ W.contents writer.old) }
    ensures ended { ReaderEnded lines.old → NothingRead lines.old lines.new }
    ensures failed { IfErr result (λ fault. fault ≡ EngineFault.ReadFailed → ReadFailure lines.old lines.new) }
    ensures reads { SomeReadsMade R.gave lines.old lines.new }
    ensures read_broke { IfErr result (λ fault. fault ≡ EngineFault.ReadFailed
        → LastReadFailed R.gave lines.old lines.new) }
    ensures write_broke { IfErr result (λ fault. fault ≡ EngineFault.WriteFailed
        → LastWriteFailed (W.took writer.old) (W.took writer.new)) }
{
    draw_with(alloc, lines, writer, request, &Svg)
}

/// Does as `draw_lines` does, with the text of a painter.
pub fn draw_with<R: Source + Drop, W: Sink, P: Paint>(
    alloc: Global,
    lines: &mut LineReader<R>,
    writer: &mut W,
    request: DrawRequest,
    painter: &P,
) -> Result<DrawAnswer, EngineFault>
    ensures answered { IfOk result (DrawAnswered P.paints request (bytes_left R.remaining lines.old)
        (W.contents writer.old) (W.contents writer.new)) }
    ensures unwritten { IfErr result (λ fault. fault ≢ EngineFault.WriteFailed
        → W.contents writer.new ≡ W.contents writer.old) }
    ensures ended { ReaderEnded lines.old → NothingRead lines.old lines.new }
    ensures failed { IfErr result (λ fault. fault ≡ EngineFault.ReadFailed → ReadFailure lines.old lines.new) }
    ensures reads { SomeReadsMade R.gave lines.old lines.new }
    ensures read_broke { IfErr result (λ fault. fault ≡ EngineFault.ReadFailed
        → LastReadFailed R.gave lines.old lines.new) }
    ensures write_broke { IfErr result (λ fault. fault ≡ EngineFault.WriteFailed
        → LastWriteFailed (W.took writer.old) (W.took writer.new)) }
{
    let mut follower = PictureBuilder::new(alloc, request);
    match watch_lines(alloc, lines, &mut follower) {
        Ok(verdict) => write_answer(verdict, &mut follower, writer, painter),
        Err(fault) => Err(fault),
    }
}

/// Writes the picture of the lines to draw after the verdict yes, and nothing after another.
fn write_answer<W: Sink, P: Paint>(
    verdict: Verdict,
    follower: &mut PictureBuilder,
    writer: &mut W,
    painter: &P,
) -> Result<DrawAnswer, EngineFault>
    ensures given { IfOk result (AnswerGiven P.paints verdict (picture_state_of follower.old) (W.contents writer.old)
        (W.contents writer.new)) }
    ensures unwritten { IfErr result (λ fault. fault ≢ EngineFault.WriteFailed
        → W.contents writer.new ≡ W.contents writer.old) }
    ensures kind { IfErr result (λ fault. fault ≢ EngineFault.ReadFailed) }
    ensures write_broke { IfErr result (λ fault. fault ≡ EngineFault.WriteFailed
        → LastWriteFailed (W.took writer.old) (W.took writer.new)) }
{
    match verdict {
        Verdict::Yes => {}
        Verdict::No(line) => return Ok(DrawAnswer::Refused(Verdict::No(line))),
        Verdict::Bad(line) => return Ok(DrawAnswer::Refused(Verdict::Bad(line))),
    }
    let Some(drawn) = follower.drawn_lines() else {
        return Ok(DrawAnswer::NoSuchLines(follower.lines));
    };
    match follower.write(drawn, writer, painter) {
        Ok(()) => Ok(DrawAnswer::Drawn(drawn)),
        Err(fault) => Err(fault),
    }
}
