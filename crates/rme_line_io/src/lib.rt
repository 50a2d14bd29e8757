//! Bytes, lines and names: cutting a reader's bytes into lines, taking and answering lines in turn, and the names of
//! locks.
//!
//! The crate stands on memchr, which finds newlines, on indexmap, which stores names in order, and on rme_words for
//! limits and refused memory; it does not parse lines. The crates above use three contracts: that of
//! `LineReader::next_line`, which cuts off exactly the first line of the bytes left; those of `Exchange`, by which the
//! answers to all lines are written, in order and each once (`specs/LineRuns.antt`); and those of `Names`. Begin with
//! `lines.rt`, then `exchange.rt`, then `names.rt`.
#![tactic(auto)]

mod cut;
mod exchange;
mod fault;
mod image;
mod lines;
mod names;
mod put;
mod stream;
mod write_buffer;

pub use cut::Cut;
pub use exchange::Exchange;
pub use fault::{EngineFault, ServeFault};
pub use image::Image;
pub use lines::LineReader;
pub use names::{Names, is_name};
pub use put::put_all;
pub use stream::{Sink, Source};
pub use write_buffer::WriteBuffer;
