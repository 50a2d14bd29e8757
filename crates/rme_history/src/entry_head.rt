//! The head of a finished section in a list.

use rme_program::Receipt;

/// A finished section: its receipt, and the start of its script's operations in a list of operations. They end where
/// those of the next section start.
#[derive(Clone, Copy)]
pub(crate) struct EntryHead {
    pub(crate) receipt: Receipt,
    pub(crate) start: u64,
}
