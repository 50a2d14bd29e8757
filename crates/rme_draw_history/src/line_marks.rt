//! The event of a line of a transcript.

ghost use Rattle.std.specs.Prelude.{◌≡◌, ◌++◌, OnOk};
ghost use Rattle.rme_draw_history.specs.LineMarks as spec;

use rme_draw_picture::{Mark, MarkKind};
use rme_line_text::EventLine;
use rme_program::Note;
use std::alloc::AllocError;

/// Adds the mark of a line, if it has one. If the worker is blocked, `blocker` is the one that blocks it, if known.
pub fn push_mark(
    marks: &mut Vec<Mark>,
    event_line: &EventLine,
    blocker: Option<u32>,
    line: u64,
) -> Result<(), AllocError>
    ensures { OnOk result (marks.new.items ≡ marks.old.items ++ spec.marks_at event_line.now blocker line) }
{
    let worker = line_worker(event_line);
    match mark_kind_of(event_line, blocker) {
        Some(kind) => {
            marks.push(Mark { line, worker, kind })?;
            Ok(())
        }
        None => Ok(()),
    }
}

/// The event of a line, for its worker; a quiet step has none.
fn mark_kind_of(line: &EventLine, blocker: Option<u32>) -> Option<MarkKind>
    ensures { result ≡ spec.mark_kind_of line.now blocker }
{
    match line {
        EventLine::Submit(handed) => Some(MarkKind::Submit(handed.number)),
        EventLine::Crash(_) => Some(MarkKind::Crash),
        EventLine::Restart(_) => Some(MarkKind::Restart),
        EventLine::Withdraw(_) => Some(MarkKind::Withdraw),
        EventLine::Note(_, note) => mark_kind_of_note(note, blocker),
    }
}

fn mark_kind_of_note(note: &Note, blocker: Option<u32>) -> Option<MarkKind>
    ensures { result ≡ spec.mark_kind_of_note note.now blocker }
{
    match note {
        Note::Quiet => None,
        Note::Asked(number) => Some(MarkKind::Asked(*number)),
        Note::Blocked => Some(MarkKind::Blocked(blocker)),
        Note::Entered(_) => Some(MarkKind::Entered),
        Note::Reentered(_) => Some(MarkKind::Reentered),
        Note::Finished(receipt) => Some(MarkKind::Finished(receipt.number)),
        Note::Left(_) => Some(MarkKind::Left),
        Note::Ready => Some(MarkKind::Ready),
        Note::Withdrew(number) => Some(MarkKind::Withdrew(*number)),
    }
}

/// The worker of a line.
pub fn line_worker(line: &EventLine) -> u32
    ensures { result ≡ spec.line_worker line.now }
{
    match line {
        EventLine::Submit(handed) => handed.worker,
        EventLine::Crash(worker) => *worker,
        EventLine::Restart(worker) => *worker,
        EventLine::Withdraw(worker) => *worker,
        EventLine::Note(worker, _) => *worker,
    }
}

/// The job number of a line, or 0.
pub fn line_job_number(event_line: &EventLine) -> u32
    ensures { result ≡ spec.line_job_number event_line.now }
{
    match event_line {
        EventLine::Submit(handed) => handed.number,
        _ => 0,
    }
}

/// The line, if by it the worker withdrew its job.
pub fn withdrawal_line(event_line: &EventLine, line: u64) -> Option<u64>
    ensures { result ≡ spec.withdrawal_line event_line.now line }
{
    match event_line {
        EventLine::Note(_, note) => withdrawal_line_of_note(note, line),
        _ => None,
    }
}

fn withdrawal_line_of_note(note: &Note, line: u64) -> Option<u64>
    ensures { result ≡ spec.withdrawal_line_of_note note.now line }
{
    match note {
        Note::Withdrew(_) => Some(line),
        _ => None,
    }
}

/// Whether by it the worker became ready.
pub fn is_ready_line(event_line: &EventLine) -> bool
    ensures { result ≡ spec.is_ready_line event_line.now }
{
    match event_line {
        EventLine::Note(_, note) => is_ready_note(note),
        _ => false,
    }
}

fn is_ready_note(note: &Note) -> bool
    ensures { result ≡ spec.is_ready_note note.now }
{
    matches!(note, Note::Ready)
}
