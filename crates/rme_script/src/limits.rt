//! The sizes of a script and its slate.

/// The greatest number of operations of one script.
pub const MOST_OPERATIONS: usize = 8;

/// The words of one operation on a slate: its kind, and two more.
pub const OPERATION_WORDS: usize = 3;

/// The words of a slate.
pub const SLATE_WORDS: usize = 24;
