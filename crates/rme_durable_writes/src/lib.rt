//! The bytes of a log as a disk has them: each write ends with its number and its checksum.
//!
//! A write is some whole lines, and a last line with its number, its checksum, and the number of the last write that
//! was known to be with the disk. So a start can tell an end that never was durable, which it cuts off, from a change
//! of what was durable, which it refuses. The crate stands on hex, itoa and memchr, and on no crate of this repository.
//! The crates above use `WriteSealer`, which makes writes, and `read_writes`. Begin with `specs/Writes.antt` and
//! `specs/Reading.antt`.
#![tactic(auto)]

mod crc;
mod found_writes;
mod sum_line;
mod write_codec;
mod write_sealer;

pub use found_writes::{FoundWrites, ReadError, read_writes};
pub use write_sealer::{SealError, WriteSealer};
