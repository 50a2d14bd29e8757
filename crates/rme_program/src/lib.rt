//! The next step of one worker: its private state, and the rows of the step table.
//!
//! A worker goes through Recover, Post, Enter, Section and Exit, with one operation on one shared word per step. `next`
//! answers the operation of the next step; `after` takes the value that it loaded or found, updates the private state
//! and answers the note. This is a sans-I/O core: nothing here holds a memory, and the caller executes the operation.
//!
//! The crate stands on rme_words, rme_tree and rme_script. The crates above use one contract: `next` and `after` walk
//! the rows of the step table of `specs/Table.antt`, as `specs/Stays.antt` defines it, and `left` is its column.
//! `specs/Steps.antt` has their values at each stage. Begin with `stage.rt`, which says what a worker knows before each
//! kind of step, and then read the table.
#![tactic(auto)]

mod action;
mod event;
mod kinds;
pub mod laws;
mod masks;
mod note;
mod phases;
mod private;
mod progress;
mod stage;
mod steps;

pub use action::Action;
pub use event::{Answer, Event};
pub use kinds::Phase;
pub use masks::{first_cell, mask_of};
pub use note::{Entry, Note, Receipt, WITHDRAWN_PLACE};
pub use private::Private;
pub use progress::{left, phase};
pub use stage::{Ascent, Departure, Log, Parity, Recovery, Redo, Slate, Stage, Visit};
pub use steps::{after, next};
