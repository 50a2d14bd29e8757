//! Whether a store still takes lines.

/// Whether a store takes lines, and why not.
#[derive(Clone, Copy, Debug, PartialEq, Eq)]
pub enum Ownership {
    /// It takes lines.
    Owner,
    /// Another writer's head is in the log.
    Fenced,
    /// The answer of an add stayed lost: it was made or not.
    Unreachable,
    /// The head can count no more records or epochs.
    Full,
    /// An event could not be written as a line, or memory for a claim was refused.
    Stopped,
}
