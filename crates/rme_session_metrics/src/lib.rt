//! Counting what the sessions of a server are answered, over any backend.
//!
//! A `MeteredBackend` answers each line exactly as the backend below it, and counts what the answer says, and how long
//! it took. It parses no order, takes no lock and no memory. The crate stands on rme_metrics, which has the counters,
//! on rme_session_loop, which has the trait of backends, on rme_wire for names and writers, and on memchr. Begin with
//! `metered_backend.rt`; `answer_text.rt` reads what an answer says.
#![tactic(auto)]

mod answer_text;
mod metered_backend;

pub use answer_text::{CountedAnswer, counted_answer};
pub use metered_backend::MeteredBackend;
