//! Steps of one worker, up to the first that ends them.

ghost use Rattle.std.specs.Prelude.{◌≡◌, ◌≢◌, ◌<◌, ◌++◌, Result, Bool, length};
ghost use Rattle.rme_program.specs.declared.note.Note.TheVariants.{Quiet};
ghost use Rattle.rme_words.specs.declared.refusal.Refusal.{Refusal};
ghost use Rattle.rme_world.specs.Calls.{ReadyContract};
ghost use Rattle.rme_line_engine.specs.WorldWalks as spec;

use crate::tallied::TalliedWorld;
use rme_line_text::{WalkEnd, WalkNotes, Walked};
use rme_program::Note;
use rme_wire::{Until, Walk};
use rme_words::Refusal;
use rme_world::World;

impl TalliedWorld {
    ghost use Rattle.rme_line_engine.specs.WorldWalks.{WalkEffect};

    /// Steps the worker until a step ends the walk: the first one whose note has the wanted kind, that leaves the
    /// worker ready or that is blocked, or the last one of the walk's greatest number. The tally sees each step.
    ///
    /// Answers why the walk ended, and the notes that are not quiet. Refused as the first step is; a refusal changes
    /// nothing. Takes no memory.
    pub fn walk(&mut self, walk: Walk) -> Result<Walked, Refusal>
        ensures { WalkEffect self.old walk result self.new }
    {
        let mut notes = WalkNotes::new();
        for _ in 0..walk.max {
            let note = match self.step(walk.worker) {
                Ok(note) => note,
                Err(refusal) => return Err(refusal),
            };
            push_if_not_quiet(&mut notes, note);
            if let Some(end) = walk_end_after(&self.world, walk, note) {
                return Ok(Walked { end, notes });
            }
        }
        Ok(Walked {
            end: WalkEnd::Max,
            notes,
        })
    }
}

/// Adds a note that is not quiet.
fn push_if_not_quiet(notes: &mut WalkNotes, note: Note)
    requires { note ≢ Quiet → length notes.old < 5 }
    ensures { notes.new ≡ notes.old ++ spec.walk_notes_of note }
{
    if note != Note::Quiet {
        notes.push(note);
    }
}

/// Why the walk ends after a step with this note, apart from its number of steps.
fn walk_end_after(world: &World, walk: Walk, note: Note) -> Option<WalkEnd>
    ensures { (ready : Result Bool Refusal) × ReadyContract world.now walk.worker ready
        × (result ≡ spec.walk_end_after walk.until note ready) }
{
    let ready = world.ready(walk.worker);
    if meets_until(walk.until, until_kind(note)) {
        return Some(WalkEnd::Until);
    }
    if is_true(ready) {
        return Some(WalkEnd::Ready);
    }
    if is_blocked(note) {
        return Some(WalkEnd::Blocked);
    }
    None
}

fn is_true(answer: Result<bool, Refusal>) -> bool
    ensures { result ≡ spec.is_true answer }
{
    match answer {
        Ok(answer) => answer,
        Err(_) => false,
    }
}

fn is_blocked(note: Note) -> bool
    ensures { result ≡ spec.is_blocked note }
{
    note == Note::Blocked
}

/// Whether a note of this kind, if any, has the wanted kind, if any.
fn meets_until(wanted: Option<Until>, kind: Option<Until>) -> bool
    ensures { result ≡ spec.meets_until wanted kind }
{
    match wanted {
        None => false,
        Some(wanted) => match kind {
            None => false,
            Some(kind) => wanted == kind,
        },
    }
}

/// The kind of a note that may end a walk.
fn until_kind(note: Note) -> Option<Until>
    ensures { result ≡ spec.until_kind note }
{
    match note {
        Note::Quiet | Note::Blocked => None,
        Note::Asked(_) => Some(Until::Asked),
        Note::Entered(_) => Some(Until::Entered),
        Note::Reentered(_) => Some(Until::Reentered),
        Note::Finished(_) => Some(Until::Finished),
        Note::Left(_) => Some(Until::Left),
        Note::Ready => Some(Until::Ready),
        Note::Withdrew(_) => Some(Until::Withdrew),
    }
}
