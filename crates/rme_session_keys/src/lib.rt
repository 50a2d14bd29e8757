//! Sessions that begin with a secret, over any backend.
//!
//! A `KeyedBackend` answers the lines of a session that has no key yet, and passes a line on to the backend below it
//! only if the session's key allows the worker that the line asks for. So that backend, and its proofs, know no keys.
//! The crate stands on rme_keys, which decides what a key allows, on rme_session_loop, which has the trait of
//! backends, and on rme_session_protocol, which reads the lines. Begin with `specs/KeyedAnswers.antt`, and then
//! `keyed_backend.rt`; `hello.rt` reads the line that begins a session, and `asked_worker.rt` the worker that a line asks
//! for.
#![tactic(auto)]

mod asked_space;
mod asked_worker;
mod hello;
mod key_source;
mod keyed_backend;
mod laws;

pub use key_source::KeySource;
pub use keyed_backend::{Access, KeyedBackend, KeyedStand};
pub use laws::attachment_asks_worker;
