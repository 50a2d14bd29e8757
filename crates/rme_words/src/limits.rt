//! The limits of a shape, each with its reason.

/// The greatest number of workers: a tree then has at most eight levels.
pub const MOST_WORKERS: u32 = 256;

/// The greatest number of locks of one service.
pub const MOST_LOCKS: u32 = 16;

/// The greatest number of cells of one lock: a mask of cells and a row of them stay small.
pub const MOST_CELLS: u32 = 16;

/// The greatest number of jobs of one worker: with the most workers, every place in a lock's order fits 32 bits.
pub const MOST_JOBS: u32 = 1_000_000;
