//! The operations of a script.

/// One operation on a row of cells, which it names by their numbers.
///
/// The value of an operation is the value of its last-named cell afterwards.
#[derive(Clone, Copy, PartialEq, Eq)]
pub enum Op {
    /// Reads a cell.
    Get(u32),
    /// Sets a cell to a value.
    Set(u32, u64),
    /// Adds a value to a cell, modulo 2^64.
    Add(u32, u64),
    /// Sets the second cell to the value of the first.
    Copy(u32, u32),
    /// Exchanges the values of two cells.
    Swap(u32, u32),
}
