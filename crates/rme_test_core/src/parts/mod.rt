//! Calls of single crates. Each module is named after the crate whose public calls it makes.

mod program;
mod script;
mod tree;
mod waiting;
mod words;
