//! The contents of a picture: the stays of each worker, the owners of each lock, and the events and finished sections.

use crate::drawn_phase::DrawnPhase;
use crate::mark_kind::MarkKind;
use rme_program::Receipt;
use rme_script::Row;
use std::alloc::Global;

/// A worker's stay in a phase, from one line of the transcript to another.
#[derive(Clone, Copy)]
pub struct DrawnStay {
    pub worker: u32,
    pub phase: DrawnPhase,
    /// The lock of the worker's job at the start of the stay, if it had one.
    pub lock: Option<u32>,
    pub from: u64,
    pub to: u64,
}

/// An interval in which a lock had one owner, which was up, or down, throughout.
#[derive(Clone, Copy)]
pub struct Hold {
    pub lock: u32,
    pub owner: u32,
    pub is_up: bool,
    pub from: u64,
    pub to: u64,
}

/// An event of a worker, from one line.
#[derive(Clone, Copy)]
pub struct Mark {
    pub line: u64,
    pub worker: u32,
    pub kind: MarkKind,
}

/// A finished section, and the cells of its lock after it.
#[derive(Clone, Copy)]
pub struct Finish {
    pub line: u64,
    pub receipt: Receipt,
    pub cells: Row,
}

/// The contents of a picture.
#[derive(Drop)]
pub struct Drawing {
    /// The number of workers.
    pub workers: u32,
    /// Whether the last worker is the checkpoint worker of a durable server.
    pub has_checkpoint_worker: bool,
    /// The locks' names, in order.
    pub names: Vec<String>,
    /// The first line that is drawn.
    pub first: u64,
    /// The last line that is drawn.
    pub last: u64,
    /// The number of lines of the transcript.
    pub lines: u64,
    /// The greatest number of a job.
    pub number: u32,
    pub stays: Vec<DrawnStay>,
    pub holds: Vec<Hold>,
    pub marks: Vec<Mark>,
    pub finishes: Vec<Finish>,
}

impl Drawing {
    ghost use Rattle.std.specs.Prelude.{◌≡◌};
    ghost use Rattle.rme_draw_picture.specs.Pictures.{empty_picture, picture_of_drawing};

    /// The empty drawing.
    pub fn new(alloc: Global) -> Drawing
        ensures { picture_of_drawing result ≡ empty_picture }
    {
        Drawing {
            workers: 0,
            has_checkpoint_worker: false,
            names: Vec::new(alloc),
            first: 1,
            last: 0,
            lines: 0,
            number: 0,
            stays: Vec::new(alloc),
            holds: Vec::new(alloc),
            marks: Vec::new(alloc),
            finishes: Vec::new(alloc),
        }
    }
}
