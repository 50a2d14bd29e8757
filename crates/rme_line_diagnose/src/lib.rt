//! Why a line is answered `BadLine`: the diagnosis of `--why`.
//!
//! It is separate from the parsers of rme_wire and rme_session_protocol, which are proved and only answer that a line
//! is none; `scripts/try-explain why` tests that the two agree. The crate stands on rme_wire for the values of members,
//! and on serde_json. Begin with `words.rt`, the table of all words and keys, then `diagnosis.rt`;
//! `diagnosed_reader.rt` is a reader whose lines are diagnosed as they come.
#![tactic(auto)]

mod diagnosed_reader;
mod diagnosis;
mod reasons;
mod words;

pub use diagnosed_reader::{DiagnosedReader, ReasonObserver};
pub use diagnosis::reason;
pub use reasons::Reason;
pub use words::{KeyKind, LineKey, SessionWords, Vocabulary};
