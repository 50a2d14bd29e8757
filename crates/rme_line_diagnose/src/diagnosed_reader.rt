//! A reader whose lines are diagnosed as they come.

use crate::diagnosis::reason;
use crate::reasons::Reason;
use crate::words::Vocabulary;
use std::alloc::Global;
use std::io::{Read, Result};

/// The greatest length of a line in bytes; a longer one is no `BadLine`.
const MOST_BYTES: usize = 65_536;

/// An observer of the reasons of `BadLine` answers.
pub trait ReasonObserver {
    /// The line of this number, counted from 1, is a bad line for this reason.
    fn reason_found(&self, line: u64, why: &Reason);
}

/// A reader that passes on the bytes of another, and diagnoses each line if an observer is set, which is called before
/// the line is answered. If memory for the diagnosis is refused, the observer is not called.
#[derive(Drop)]
pub struct DiagnosedReader<R, T> {
    reader: R,
    look: Option<LineDiagnosis<T>>,
}

/// The line that is being read.
#[derive(Drop)]
struct LineDiagnosis<T> {
    alloc: Global,
    vocabulary: Vocabulary,
    observer: T,
    line: Vec<u8>,
    /// Whether the line is not stored.
    is_lost: bool,
    /// The number of earlier lines.
    lines: u64,
}

impl<R: Drop, T: Drop> DiagnosedReader<R, T> {
    /// A reader of lines of this vocabulary, with this observer; without one the lines are not diagnosed.
    pub fn new(
        alloc: Global,
        reader: R,
        vocabulary: Vocabulary,
        observer: Option<T>,
    ) -> DiagnosedReader<R, T> {
        let look = match observer {
            None => None,
            Some(observer) => Some(LineDiagnosis {
                alloc,
                vocabulary,
                observer,
                line: Vec::new(alloc),
                is_lost: false,
                lines: 0,
            }),
        };
        DiagnosedReader { reader, look }
    }
}

impl<R: Read + Drop, T: ReasonObserver + Drop> Read for DiagnosedReader<R, T> {
    fn read(&mut self, buf: &mut [u8]) -> Result<usize> {
        let count = self.reader.read(buf)?;
        if let Some(look) = &mut self.look {
            look.inspect_bytes(&buf[..count]);
        }
        Ok(count)
    }
}

impl<T: ReasonObserver + Drop> LineDiagnosis<T> {
    /// Looks at the bytes of a read; no bytes are the end.
    fn inspect_bytes(&mut self, bytes: &[u8]) {
        if bytes.is_empty() {
            if self.is_lost || !self.line.is_empty() {
                self.end_line();
            }
            return;
        }
        let mut is_first = true;
        for piece in bytes.split(|byte| *byte == b'\n') {
            if !is_first {
                self.end_line();
            }
            is_first = false;
            self.push_piece(piece);
        }
    }

    /// Stores a piece of the line.
    fn push_piece(&mut self, piece: &[u8]) {
        let room = MOST_BYTES.saturating_sub(self.line.len());
        if self.is_lost || piece.len() > room || self.line.extend_from_slice(piece).is_err() {
            self.is_lost = true;
            self.line.clear();
        }
    }

    /// Reports the reason if the line is bad, and begins the next one.
    fn end_line(&mut self) {
        self.lines = self.lines.saturating_add(1);
        if !self.is_lost {
            if let Ok(Some(why)) = reason(self.alloc, self.vocabulary, self.line.as_slice()) {
                self.observer.reason_found(self.lines, &why);
            }
        }
        self.line.clear();
        self.is_lost = false;
    }
}
