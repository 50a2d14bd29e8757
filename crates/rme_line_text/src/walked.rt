//! The result of a walk.

ghost use Rattle.std.specs.Prelude.{◌≡◌, ◌<◌, [], ◌∷◌, ◌++◌, length};
ghost use Rattle.rme_line_text.specs.Replies as spec;

use rme_program::Note;
use std::marker::Model;

/// The greatest number of notes of a walk, one of each of these kinds: asked, entered, finished, left and ready.
const MOST_NOTES: usize = 5;

/// Why a walk ended.
#[derive(Clone, Copy, PartialEq, Eq)]
pub enum WalkEnd {
    /// The note has the wanted kind.
    Until,
    /// The worker is ready.
    Ready,
    /// The step was blocked.
    Blocked,
    /// The greatest number of steps was made.
    Max,
}

impl WalkEnd {
    /// The word of the walk's end in an answer.
    pub(crate) fn word(self) -> &'static str
        ensures { result.now ≡ spec.end_word self }
    {
        match self {
            WalkEnd::Until => "until",
            WalkEnd::Ready => "ready",
            WalkEnd::Blocked => "blocked",
            WalkEnd::Max => "max",
        }
    }
}

/// The notes of a walk in order, without the quiet ones: at most five, so that they need no memory.
#[derive(Drop)]
pub struct WalkNotes {
    notes: [Note; MOST_NOTES],
    count: usize,
}

impl Model for WalkNotes {
    ghost use Rattle.std.specs.Prelude.{◌≡◌, ◌≤◌, List, length, take};
    ghost use Rattle.rme_program.specs.declared.note.Note.{Note};

    ghost Value = { List Note };

    ghost view = { λ notes. take notes.count notes.notes };

    ghost invariant = { λ notes. (length notes.notes ≡ 5) × (notes.count ≤ 5) };
}

impl WalkNotes {
    /// No notes yet.
    pub fn new() -> WalkNotes
        ensures { result ≡ [] }
    {
        WalkNotes {
            notes: [Note::Quiet; MOST_NOTES],
            count: 0,
        }
    }

    /// Adds a note, if there are fewer than five.
    pub fn push(&mut self, note: Note)
        requires { length self.old < 5 }
        ensures { self.new ≡ self.old ++ note ∷ [] }
    {
        self.notes[self.count] = note;
        self.count += 1;
    }

    /// The notes, in order.
    pub fn as_slice(&self) -> &[Note]
        ensures { result.now ≡ self.now }
    {
        &self.notes[..self.count]
    }
}

/// A walk that was not refused.
#[derive(Drop)]
pub struct Walked {
    pub end: WalkEnd,
    pub notes: WalkNotes,
}
