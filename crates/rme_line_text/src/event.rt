//! The lines of a transcript: their events, and their texts.

ghost use Rattle.std.specs.Prelude.{◌≡◌, ◌++◌, OnOk, string_bytes};
ghost use Rattle.rme_line_text.specs.Events as spec;

use crate::texts::{lock_name, push_names, push_note, push_ops, push_script_end};
use rme_line_io::Names;
use rme_program::{Answer, Event, Note};
use rme_script::Job;
use rme_words::Shape;
use std::alloc::AllocError;

/// A job that was submitted to a worker, and the number that it will have.
#[derive(Clone, Copy)]
pub struct HandedJob {
    pub worker: u32,
    pub job: Job,
    pub number: u32,
}

/// The event of a transcript's line, which a world accepted, with its answer.
#[derive(Clone, Copy)]
pub enum EventLine {
    /// A job was submitted to a worker.
    Submit(HandedJob),
    /// This worker crashed.
    Crash(u32),
    /// This worker restarted, and recovers.
    Restart(u32),
    /// This worker, which waited, began to withdraw its job.
    Withdraw(u32),
    /// This worker made one own step, with this note.
    Note(u32, Note),
}

impl EventLine {
    /// The request to the worker.
    pub fn event(self) -> Event
        ensures { result ≡ spec.line_event self }
    {
        match self {
            EventLine::Submit(handed) => Event::Submit(handed.worker, handed.job),
            EventLine::Crash(worker) => Event::Crash(worker),
            EventLine::Restart(worker) => Event::Restart(worker),
            EventLine::Withdraw(worker) => Event::Withdraw(worker),
            EventLine::Note(worker, _) => Event::Step(worker),
        }
    }

    /// Its answer.
    pub fn answer(self) -> Answer
        ensures { result ≡ spec.line_answer self }
    {
        match self {
            EventLine::Submit(handed) => Answer::Handed(handed.number),
            EventLine::Crash(_) => Answer::Crashed,
            EventLine::Restart(_) => Answer::Restarted,
            EventLine::Withdraw(_) => Answer::Withdrawing,
            EventLine::Note(_, note) => Answer::Stepped(note),
        }
    }
}

/// Appends the line of an event, as `{"do":"note","note":["asked",1],"worker":0}`, without its newline.
///
/// Locks are written as their names, a number of no lock as the empty text. An error means that memory was refused; the
/// text is then of no use.
pub fn push_event(out: &mut String, names: &Names, line: EventLine) -> Result<(), AllocError>
    ensures { OnOk result (string_bytes out.new ≡ string_bytes out.old ++ spec.event_text names.now line) }
{
    match line {
        EventLine::Submit(handed) => push_handed(out, names, handed),
        EventLine::Crash(worker) => write!(out, "{{\"do\":\"crash\",\"worker\":{worker}}}"),
        EventLine::Restart(worker) => write!(out, "{{\"do\":\"restart\",\"worker\":{worker}}}"),
        EventLine::Withdraw(worker) => write!(out, "{{\"do\":\"withdraw\",\"worker\":{worker}}}"),
        EventLine::Note(worker, note) => push_note_line(out, names, worker, note),
    }
}

fn push_handed(out: &mut String, names: &Names, handed: HandedJob) -> Result<(), AllocError>
    ensures { OnOk result (string_bytes out.new ≡ string_bytes out.old ++ spec.handed_text names.now handed) }
{
    push_handed_front(out, lock_name(names, handed.job.lock), handed.number)?;
    push_ops(out, &handed.job.script)?;
    push_script_end(out, handed.worker)?;
    Ok(())
}

/// Appends the text of a submission before its script's operations.
fn push_handed_front(out: &mut String, name: &str, number: u32) -> Result<(), AllocError>
    ensures { OnOk result (string_bytes out.new ≡ string_bytes out.old ++ spec.handed_front name.now number) }
{
    write!(
        out,
        "{{\"do\":\"submit\",\"lock\":\"{name}\",\"number\":{number},\"script\":["
    )
}

fn push_note_line(
    out: &mut String,
    names: &Names,
    worker: u32,
    note: Note,
) -> Result<(), AllocError>
    ensures { OnOk result (string_bytes out.new ≡ string_bytes out.old ++ spec.note_line_text names.now worker note) }
{
    out.push_str("{\"do\":\"note\",\"note\":")?;
    push_note(out, names, note)?;
    push_worker_end(out, worker)?;
    Ok(())
}

/// Appends the text of a note's line after the note.
fn push_worker_end(out: &mut String, worker: u32) -> Result<(), AllocError>
    ensures { OnOk result (string_bytes out.new ≡ string_bytes out.old ++ spec.worker_end worker) }
{
    write!(out, ",\"worker\":{worker}}}")
}

/// Appends the line that opens a world of this shape, whose locks have these names, without its newline.
///
/// There must be a name for each lock of the shape. An error means that memory was refused; the text is then of no use.
pub fn push_opening(out: &mut String, names: &Names, shape: Shape) -> Result<(), AllocError>
    ensures { OnOk result (string_bytes out.new ≡ string_bytes out.old ++ spec.opening_text names.now shape) }
{
    push_opening_front(out, shape.cells, shape.jobs)?;
    push_names(out, names)?;
    push_opening_end(out, shape.workers)?;
    Ok(())
}

/// Appends the text of an opening before its names.
fn push_opening_front(out: &mut String, cells: u32, jobs: u32) -> Result<(), AllocError>
    ensures { OnOk result (string_bytes out.new ≡ string_bytes out.old ++ spec.opening_front cells jobs) }
{
    write!(
        out,
        "{{\"cells\":{cells},\"do\":\"open\",\"jobs\":{jobs},\"locks\":["
    )
}

/// Appends the text of an opening after its names.
fn push_opening_end(out: &mut String, workers: u32) -> Result<(), AllocError>
    ensures { OnOk result (string_bytes out.new ≡ string_bytes out.old ++ spec.opening_end workers) }
{
    write!(out, "],\"workers\":{workers}}}")
}
