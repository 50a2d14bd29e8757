//! The core: a world of workers and locks, in which one call is one event.
//!
//! A world holds the words that survive a crash and the private state of each worker that is up. `step` executes one
//! own step of one worker, an operation on one word. `submit`, `crash`, `restart` and `withdraw` are the other events.
//! A list of events is one interleaving of the workers.
//!
//! The refinement theorem is the contract of `World::run`: for every list of events, the answers, the owners and the
//! cells are those of a run of the abstract machine. A world can be saved as an image, and the world of an image
//! continues from there (`specs/Images.antt`).
//!
//! The crate stands on rme_program, whose `next` and `after` decide each step; on rme_words, which executes it; on the
//! laws of rme_machine, by which each step is a step of the abstract machine; and on rme_core_image and
//! rme_core_image_check, which read, write and check images. Begin with `world.rt`, and for the proved claims with
//! `specs/Refinement.antt`.
#![tactic(auto)]

mod counts;
mod events;
mod images;
mod known;
mod perform;
mod phases;
mod queries;
mod run;
mod step;
mod world;

pub use counts::Counts;
pub use step::StepReport;
pub use world::World;
