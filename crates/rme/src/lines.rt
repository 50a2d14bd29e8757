//! Lines of JSON in, and lines out: a world by lines, its transcript, and what both are made of.
//!
//! `run_lines` answers each line of a reader, and `transcript_lines` writes the events of each line instead of its
//! answer. `answer_lines` answers over an `Engine`, which may begin with a saved world. `LineReader` cuts a reader's
//! bytes into lines, and `Names` are the names of locks.

pub use rme_line_engine::{Engine, answer_lines, run_lines, transcript_lines};
pub use rme_line_text::{Acknowledgement, Reply, push_reply};
pub use rme_wire::{
    Command, Cut, EngineFault, GivenNames, Image, LineReader, Loading, Names, Opening, Request,
    Sink, Source, ValueReader, is_name, put_all, request_of,
};
