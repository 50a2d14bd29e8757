//! The abstract machine, and the proof that each step of a worker refines it.
//!
//! In the machine a lock is free or owned by one worker, any waiting worker may take a free lock, a crash releases
//! nothing, and a section counts once. `specs/Machine.antt` has the machine, `specs/AbstractState.antt` the abstraction
//! function, and `specs/Invariant.antt` the invariant of every world. The contracts of the module `laws` say that each
//! own step and each event preserves the invariant and is a step of the machine, what follows from the invariant, and
//! the theorems of the machine. The crates above use these laws, and cite their lemmas and those on histories and lists
//! in `proofs/`. The crate stands on rme_program. Begin with `specs/Machine.antt`.
#![tactic(auto)]

mod label;
pub mod laws;
mod stance;

pub use label::{Act, Label};
pub use stance::JobStance;
