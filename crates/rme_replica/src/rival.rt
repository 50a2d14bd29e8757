//! Another writer, which takes over a log in memory.

use crate::head::Head;

/// Another writer, which takes a log over.
#[derive(Drop)]
pub(crate) struct Rival {
    /// The number of calls before it comes.
    pub(crate) calls: u32,
    /// The head that it puts.
    pub(crate) head: Head,
}
