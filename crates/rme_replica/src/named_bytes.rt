//! A head that was put, with the bytes that it names.

use crate::head::Head;

/// A head that was put, with the bytes that it names.
#[derive(Drop)]
pub(crate) struct NamedBytes {
    pub(crate) head: Head,
    pub(crate) bytes: Vec<u8>,
}
