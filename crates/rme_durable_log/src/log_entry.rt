//! An entry of the log.

use std::collections::LinkedList;

/// An entry of the log. The list of entries exists only in proofs.
pub enum LogEntry {
    /// Lines by this author, which come after all earlier bytes.
    Lines(u64, LinkedList<u8>),
    /// Bytes, which replace all earlier ones.
    Whole(LinkedList<u8>),
    /// No bytes: behind it the writer asks a shared store whether the log is still its own.
    Barrier,
}
