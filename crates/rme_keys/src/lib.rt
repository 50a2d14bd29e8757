//! The keys of a server: what the holder of a secret may do there.
//!
//! A file of keys has the SHA-256 of each secret. It does not have the secret. `Keys::parse` reads the file, and
//! `Keys::find` finds the key of a secret. A `Key` tells which workers may be attached and which spaces may be used.
//! The crate does no input or output. It stands on hex and sha2. Begin with `specs/Allowing.antt`, then read
//! `specs/KeyFiles.antt`.
#![tactic(auto)]

mod digests;
mod faults;
mod key;
mod key_lines;
mod keys;
mod pieces;
mod spaces;
mod workers;

pub use faults::{BadKeyLine, KeyFileError};
pub use key::Key;
pub use keys::Keys;
