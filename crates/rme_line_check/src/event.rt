//! The lines of a transcript.

ghost use Rattle.std.specs.Prelude.{◌≡◌, IfOk, option_map, option_and_then};
ghost use Rattle.rme_line_json.specs.View.{value_view};
ghost use Rattle.rme_line_check.specs.EventLines as spec;

use rme_line_text::{EventLine, HandedJob, Names};
use rme_program::{Note, Receipt};
use rme_script::Job;
use rme_wire::{
    Value, ValueReader, ValueStorage, do_member, script_of_value, whole_u32, worker_member,
};
use rme_words::NoMemory;

/// The event and the answer of a transcript's line, or `None` if it is no event line.
///
/// The names are those of the transcript's first line; a line with another lock name is no event line. `NoMemory` if
/// memory for the line's value was refused.
pub fn event_of_line(
    values: &mut ValueReader,
    names: &Names,
    line: &[u8],
) -> Result<Option<EventLine>, NoMemory>
    ensures { IfOk result (λ event. event ≡ spec.event_of_line names.now line.now) }
{
    let mut room = ValueStorage::new();
    match values.read(&mut room, line)? {
        None => Ok(None),
        Some(value) => Ok(event_of_value(names, &value)),
    }
}

#[tactic(auto, unfolding(crate::specs::EventLines::event_of_value))]
fn event_of_value(names: &Names, value: &Value<'_>) -> Option<EventLine>
    ensures { result ≡ spec.event_of_value names.now (value_view value.now) }
{
    let count = value.key_count()?;
    let word = do_member(value)?;
    event_named(names, word, count, value)
}

/// The event line of a value whose member `do` is this word and that has this number of members.
#[tactic(auto, unfolding(crate::specs::EventLines::event_named))]
fn event_named(names: &Names, word: &str, count: usize, value: &Value<'_>) -> Option<EventLine>
    ensures { result ≡ spec.event_named names.now word.now count (value_view value.now) }
{
    match word {
        "submit" => handed_line_of(names, count, value),
        "note" => note_line_of(names, count, value),
        _ => worker_event(word, count, value),
    }
}

/// A text that is the name of a lock.
fn lock_of_name(names: &Names, value: &Value<'_>) -> Option<u32>
    ensures { result ≡ spec.lock_of_name names.now (value_view value.now) }
{
    names.number(value.as_str()?)
}

/// A submission and its number.
#[tactic(auto, unfolding(crate::specs::EventLines::handed_line_of))]
fn handed_line_of(names: &Names, count: usize, value: &Value<'_>) -> Option<EventLine>
    ensures { result ≡ spec.handed_line_of names.now count (value_view value.now) }
{
    if count != 5 {
        return None;
    }
    let worker = worker_member(value)?;
    let number = whole_u32(value.get("number")?)?;
    let lock = lock_of_name(names, value.get("lock")?)?;
    let script = script_of_value(value.get("script")?)?;
    Some(EventLine::Submit(HandedJob {
        worker,
        job: Job { lock, script },
        number,
    }))
}

/// An event that only names a worker.
#[tactic(auto, unfolding(crate::specs::EventLines::worker_event))]
fn worker_event(word: &str, count: usize, value: &Value<'_>) -> Option<EventLine>
    ensures { result ≡ spec.worker_event word.now count (value_view value.now) }
{
    if count != 2 {
        return None;
    }
    let worker = worker_member(value)?;
    event_by(word, worker)
}

/// The event of this word for a worker.
fn event_by(word: &str, worker: u32) -> Option<EventLine>
    ensures { result ≡ spec.event_by word.now worker }
{
    match word {
        "crash" => Some(EventLine::Crash(worker)),
        "restart" => Some(EventLine::Restart(worker)),
        "withdraw" => Some(EventLine::Withdraw(worker)),
        _ => None,
    }
}

/// A step, by its note.
#[tactic(auto, unfolding(crate::specs::EventLines::note_line_of))]
fn note_line_of(names: &Names, count: usize, value: &Value<'_>) -> Option<EventLine>
    ensures { result ≡ spec.note_line_of names.now count (value_view value.now) }
{
    if count != 3 {
        return None;
    }
    let worker = worker_member(value)?;
    let note = note_of_value(names, worker, value.get("note")?)?;
    Some(EventLine::Note(worker, note))
}

/// A note of a worker: its name, and its values.
#[tactic(auto, unfolding(crate::specs::EventLines::note_of_value))]
fn note_of_value(names: &Names, worker: u32, value: &Value<'_>) -> Option<Note>
    ensures { result ≡ spec.note_of_value names.now worker (value_view value.now) }
{
    let count = value.item_count()?;
    let word = value.at(0)?.as_str()?;
    if count == 1 {
        return bare_note(word);
    }
    if count == 2 {
        return note_with_value(names, word, value.at(1)?);
    }
    if count == 5 && word == "finished" {
        return finished_note_of(names, worker, value);
    }
    None
}

/// A note with only a name.
#[tactic(auto, unfolding(crate::specs::EventLines::bare_note))]
fn bare_note(word: &str) -> Option<Note>
    ensures { result ≡ spec.bare_note word.now }
{
    match word {
        "quiet" => Some(Note::Quiet),
        "blocked" => Some(Note::Blocked),
        "ready" => Some(Note::Ready),
        _ => None,
    }
}

/// A note of a job's number or of a lock.
#[tactic(auto, unfolding(crate::specs::EventLines::note_with_value))]
fn note_with_value(names: &Names, word: &str, value: &Value<'_>) -> Option<Note>
    ensures { result ≡ spec.note_with_value names.now word.now (value_view value.now) }
{
    match word {
        "asked" => Some(Note::Asked(whole_u32(value)?)),
        "withdrew" => Some(Note::Withdrew(whole_u32(value)?)),
        "entered" => Some(Note::Entered(lock_of_name(names, value)?)),
        "reentered" => Some(Note::Reentered(lock_of_name(names, value)?)),
        "left" => Some(Note::Left(lock_of_name(names, value)?)),
        _ => None,
    }
}

/// The note of a finished job: its lock, number, place and reply.
#[tactic(auto, unfolding(crate::specs::EventLines::finished_note_of))]
fn finished_note_of(names: &Names, worker: u32, value: &Value<'_>) -> Option<Note>
    ensures { result ≡ spec.finished_note_of names.now worker (value_view value.now) }
{
    let lock = lock_of_name(names, value.at(1)?)?;
    let number = whole_u32(value.at(2)?)?;
    let place = whole_u32(value.at(3)?)?;
    let reply = value.at(4)?.as_u64()?;
    Some(Note::Finished(Receipt {
        worker,
        lock,
        number,
        place,
        reply,
    }))
}
