//! Why words that clap takes are no task. Unlike clap's error a mistake is a small value, which is checked fast.

use clap::error::ErrorKind;
use std::alloc::AllocError;

/// Why words are no task.
#[derive(Clone, Copy)]
pub(crate) enum Mistake<'a> {
    /// There is no memory for the task.
    NoMemory,
    /// The words are wrong, and this is what to say of them.
    Words { kind: ErrorKind, text: &'a str },
}

impl Mistake<'_> {
    /// Words that do not go together.
    pub(crate) fn conflict(text: &str) -> Mistake<'_> {
        Mistake::Words {
            kind: ErrorKind::ArgumentConflict,
            text,
        }
    }

    /// Words after `ask` that do not go together.
    pub(crate) fn ask_words(text: &str) -> Mistake<'_> {
        Mistake::Words {
            kind: ErrorKind::WrongNumberOfValues,
            text,
        }
    }
}

impl From<AllocError> for Mistake<'_> {
    fn from(_: AllocError) -> Self {
        Mistake::NoMemory
    }
}
