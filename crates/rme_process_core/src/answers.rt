//! What the calls answer: 0, the number of a refusal, or one of these.

/// C passed a value that no world can have.
pub const DAMAGED: u32 = 100;

/// Values were passed with no batch outstanding, or more than were asked for.
pub const NO_BATCH: u32 = 101;

/// The values of a batch have not come back yet.
pub const BATCH_OUT: u32 = 102;

/// The shape has no such word.
pub const NO_WORD: u32 = 103;
