//! The running lock service: threads hold the values of workers and step them, each own step being one operation on one
//! shared word.
//!
//! A worker is one of five values: `Down`, `Ready`, `Climb`, `Held` or `Leave`. A call takes the value and answers the
//! next one, or a `Down` if the worker crashed; the three that may own a node cannot be dropped. A new service comes
//! with a Down of each worker, and a close answers the final state of each lock. The crate stands on
//! rme_service_phases, whose functions make the own steps of a phase, and on rme_service_steps, whose rule is that
//! words and records always are those of a world. The crates above use the contracts of the calls (`specs/Calls.antt`)
//! and of a close (`specs/Closing.antt`). Begin with `kinds.rt`.
#![tactic(auto)]

mod admitted;
mod climb;
mod close_room;
mod closed;
mod closing;
mod counting;
mod down;
mod driving;
mod exit_form;
mod filling;
mod held;
mod job;
mod kinds;
mod leave;
mod opening;
mod owned_down;
mod ready;
mod recovery;
mod service;

pub use admitted::Admitted;
pub use closed::{Closed, ClosedLock, CountedLock, CountedService, Unclosed};
pub use counting::CountRoom;
pub use down::Down;
pub use driving::{Driven, Free, Gate, Shut, SweepTries};
pub use kinds::{Climb, Held, Leave, Posted, Ready, Stance, Sweep};
pub use owned_down::{OwnedDown, Tag, fill_with_downs};
pub use rme_service_steps::{Chance, Never};
pub use service::Service;
