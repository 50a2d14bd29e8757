//! The lines of a transcript that are drawn.

ghost use Rattle.std.specs.Prelude.{◌≡◌};
ghost use Rattle.rme_draw_history.specs.DrawnLines as spec;

use rme_line_check::Verdict;

/// The greatest number of lines that are drawn if no line is named: the last ones.
const USUAL_LINES: u64 = 2_000;

/// What of a transcript is to be drawn. Lines are counted from 1.
#[derive(Clone, Copy)]
pub struct DrawRequest {
    /// The first line to draw, if one is named.
    pub from: Option<u64>,
    /// The last line to draw, if one is named.
    pub to: Option<u64>,
    /// Whether the last worker is the checkpoint worker of a durable server.
    pub has_checkpoint_worker: bool,
}

/// The lines that are drawn, from the first to the last, of a transcript with this number of lines.
#[derive(Clone, Copy)]
pub struct DrawnLines {
    pub first: u64,
    pub last: u64,
    pub lines: u64,
}

/// What was drawn of a transcript.
#[derive(Clone, Copy)]
pub enum DrawAnswer {
    /// These lines were drawn.
    Drawn(DrawnLines),
    /// Nothing was drawn: the transcript has this number of lines, and not all lines of the request.
    NoSuchLines(u64),
    /// Nothing was drawn: the verdict on the transcript is this one, which is not yes.
    Refused(Verdict),
}

/// The lines that are drawn of a transcript with this number of lines; `None` if it does not have all lines of the
/// request, or the first one comes after the last.
pub fn drawn_lines(request: &DrawRequest, lines: u64) -> Option<DrawnLines>
    ensures { result ≡ spec.drawn_lines request.now lines }
{
    let first = first_drawn(request, lines);
    let last = last_drawn(request.to, lines);
    if first == 0 || last < first || lines < last {
        return None;
    }
    Some(DrawnLines { first, last, lines })
}

fn first_drawn(request: &DrawRequest, lines: u64) -> u64
    ensures { result ≡ spec.first_drawn request.now.from request.now.to lines }
{
    match (request.from, request.to) {
        (Some(from), _) => from,
        (None, Some(_)) => 1,
        (None, None) => lines.saturating_sub(USUAL_LINES - 1).max(1),
    }
}

fn last_drawn(to: Option<u64>, lines: u64) -> u64
    ensures { result ≡ spec.last_drawn to lines }
{
    match to {
        Some(to) => to,
        None => lines,
    }
}

/// Whether a line is none of those after the last line to draw.
pub fn is_up_to(to: Option<u64>, line: u64) -> bool
    ensures { result ≡ spec.is_up_to to line }
{
    match to {
        Some(to) => line <= to,
        None => true,
    }
}
