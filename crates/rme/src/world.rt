//! A world of workers and locks in one thread, in which one call is one event.
//!
//! `World` makes single steps, runs lists of events, and is saved as bytes and loaded from them. `TalliedWorld` is a
//! world that also walks, up to a wanted note or until the worker is ready, and records the greatest number of steps of
//! each phase. `replay` says whether a list of entries is a legal history, and which cells it leaves.

pub use rme_history::{EntryList, ReplayFault, Tally, by_place, replay};
pub use rme_line_engine::TalliedWorld;
pub use rme_line_text::{WalkEnd, WalkNotes, Walked};
pub use rme_program::{Answer, Event, Note};
pub use rme_wire::{Until, Walk};
pub use rme_world::World;
