//! The bytes of a saved world: encoding and parsing its words and its history.
//!
//! This crate stands on `rme_words`, `rme_script`, `rme_program` and `rme_history`, of which it uses the shape, the
//! operations, the entries and their list. It knows the size and the order of each part; it does not know which words
//! are those of a world. The crates above use the definition `BytesEncodeImage` of `specs/Images.antt`: `encode` writes
//! an image of the given words and entries, and `parse` answers exactly the contents of the bytes, in version 2 and in
//! the older version 1. Begin with `specs/Images.antt`, and then `encoding.rt`.
#![tactic(auto)]

mod encoding;
mod entries;
mod header;
mod numbers;
mod parsing;
mod words;

pub use encoding::encode;
pub use parsing::{Parsed, parse};
