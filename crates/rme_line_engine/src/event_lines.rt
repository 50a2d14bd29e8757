//! The transcript of a command.

ghost use Rattle.std.specs.Prelude.{◌≡◌, ◌++◌, OnOk, string_bytes};
ghost use Rattle.rme_line_text.specs.Events.{event_text, opening_text};
ghost use Rattle.rme_line_engine.specs.Lines.{with_newline};
ghost use Rattle.rme_line_engine.specs.Transcripts as spec;

use crate::tallied::TalliedWorld;
use rme_line_text::{EventLine, HandedJob, Reply, push_event, push_opening};
use rme_program::Note;
use rme_wire::{Command, Names};
use rme_words::Shape;
use std::alloc::AllocError;

/// Appends the lines of a command's events, from its reply: none for a refused command, and none for a look-up.
pub fn push_events(
    out: &mut String,
    names: &Names,
    command: Command,
    reply: &Reply,
) -> Result<(), AllocError>
    ensures { OnOk result (string_bytes out.new ≡ string_bytes out.old ++ spec.events_text names.now
        (spec.transcript_events_of command reply.now)) }
{
    match (command, reply) {
        (Command::Submit(worker, job), Reply::Handed(number)) => {
            let handed = HandedJob {
                worker,
                job,
                number: *number,
            };
            push_line(out, names, EventLine::Submit(handed))
        }
        (Command::Step(worker), Reply::Stepped(note)) => push_notes(out, names, worker, &[*note]),
        (Command::Walk(walk), Reply::Walked(walked)) => {
            push_notes(out, names, walk.worker, walked.notes.as_slice())
        }
        (Command::Crash(worker), Reply::Done(_)) => {
            push_line(out, names, EventLine::Crash(worker))
        }
        (Command::Restart(worker), Reply::Done(_)) => {
            push_line(out, names, EventLine::Restart(worker))
        }
        (Command::Withdraw(worker), Reply::Done(_)) => {
            push_line(out, names, EventLine::Withdraw(worker))
        }
        _ => Ok(()),
    }
}

/// Appends the line of an opening, if the reply is one.
pub fn push_opened(
    out: &mut String,
    names: &Names,
    world: &Option<TalliedWorld>,
    reply: &Reply,
) -> Result<(), AllocError>
    ensures { OnOk result (string_bytes out.new ≡ string_bytes out.old ++ spec.opening_line_text names.now world.now
        reply.now) }
{
    match (world, reply) {
        (Some(opened), Reply::Done(_)) => push_opening_line(out, names, opened.world.shape()),
        _ => Ok(()),
    }
}

/// Appends the lines of a worker's steps with these notes, without the quiet ones.
fn push_notes(
    out: &mut String,
    names: &Names,
    worker: u32,
    notes: &[Note],
) -> Result<(), AllocError>
    ensures { OnOk result (string_bytes out.new ≡ string_bytes out.old ++ spec.events_text names.now
        (spec.note_events worker notes.now)) }
{
    for note in notes {
        match *note {
            Note::Quiet => {}
            note => push_line(out, names, EventLine::Note(worker, note))?,
        }
    }
    Ok(())
}

fn push_line(out: &mut String, names: &Names, line: EventLine) -> Result<(), AllocError>
    ensures { OnOk result (string_bytes out.new ≡ string_bytes out.old ++ with_newline (event_text names.now line)) }
{
    push_event(out, names, line)?;
    out.push_str("\n")
}

fn push_opening_line(out: &mut String, names: &Names, shape: Shape) -> Result<(), AllocError>
    ensures { OnOk result (string_bytes out.new ≡ string_bytes out.old ++ with_newline (opening_text names.now shape)) }
{
    push_opening(out, names, shape)?;
    out.push_str("\n")
}
