//! The JSON value of a line's bytes.
//!
//! A service reads short lines, one after another, and for each of them a JSON library clears, copies and allocates
//! longer than it parses. So a `ValueReader` reuses its memory from line to line, and a `Value` borrows the texts of
//! its line. The crate stands on json, whose tokens it reads, and on serde_json, whose values define its own; it knows
//! no command. The crates above use the contract of `ValueReader::read`: the value is the one that `specs/Values.antt`
//! defines from the bytes. Begin with `value.rt`, then `reader.rt`.
#![tactic(auto)]

mod lent;
mod members;
mod number;
mod reader;
mod tree;
mod value;

pub use lent::lend;
pub use number::whole_number;
pub use reader::{ValueReader, ValueStorage};
pub use value::Value;
