//! Which spaces of a server are open, and the sessions that use them, over any backend.
//!
//! A `SpacedBackend` has the orders on spaces executed by a `SpaceDirectory`, and passes every other line on to the
//! backend below it. An order `use` that succeeds finishes that part of the session: its caller goes on with the
//! backend of the space. `NoSpace` is the backend of a session that uses no space yet. So the backend of a space, and
//! its proofs, know no other spaces.
//!
//! Each open space has an entry. `SpaceRegistry::enter` begins a visit to a space, and waits until the space is open;
//! whoever serves spaces gets what is to be done by `next_task`, serves each space in a thread of its own, and tells
//! its entry how that goes. A session that begins its visit is handed over to that thread as a guest. No lock is held
//! while a space opens or a session runs. The registry knows no sessions: a guest is any value.
//!
//! The crate stands on rme_space_orders, which reads the lines and has the names, on rme_session_loop, which has the
//! trait of backends, and on rme_session_server, over whose connections `NoSpace` is held. Begin with
//! `specs/SpacedAnswers.antt` and `spaced_backend.rt`, then `entry.rt` and `registry.rt`.
#![tactic(auto)]

mod directory;
mod entry;
mod no_space;
mod registry;
mod spaced_backend;
mod visit;

pub use directory::{SpaceDirectory, SpacePage};
pub use entry::{Arrival, SpaceEntry};
pub use no_space::NoSpace;
pub use registry::{SpaceRegistry, SpaceTask};
pub use spaced_backend::{SpacedBackend, SpacedStand};
pub use visit::SpaceVisit;
