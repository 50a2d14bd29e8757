//! What a seat at the table knows. Only proofs use these types: no value of them is made.

use rme_program::{Entry, Note, Private};
use rme_script::Job;
use rme_words::Shape;
use std::collections::LinkedList;

/// What is known of one worker: its number and its private state, the job that it posted last, its finished sections in
/// order, the number of its own steps, the note of the last one, and the number of finished sections of its lock, if
/// the worker read it while it was inside.
pub struct Part {
    pub worker: u32,
    pub private: Private,
    pub draft: Option<Job>,
    pub entries: LinkedList<Entry>,
    pub steps: u64,
    pub note: Note,
    pub section: Option<u64>,
}

/// The record of a seat: the shape, and the parts of some workers.
pub struct SeatRecord {
    pub shape: Shape,
    pub parts: LinkedList<Part>,
}
