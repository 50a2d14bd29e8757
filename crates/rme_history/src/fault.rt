//! Why a replay failed.

/// Why a list of entries was not replayed to its end.
#[derive(Clone, Copy, Debug, PartialEq, Eq)]
pub enum ReplayFault {
    /// The first entry that does not follow from those before it, numbered from 0.
    Broken(usize),
    /// Memory was refused.
    NoMemory,
}
