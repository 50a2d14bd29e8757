//! The engines over bytes in memory, and over readers and writers that fail, are interrupted or move few bytes.

mod engines;
mod flaky;
mod memory;
