//! Compares and cuts bytes.

ghost use Rattle.std.specs.Prelude.{◌≡◌, ◌↔◌, ◌==◌, ◌<◌, ◌+◌, IfOk, IfSome, IsTrue, drop, length, map, position, take};
ghost use Rattle.std.specs.List.{slice_split};
ghost use Rattle.rme_keys.specs.KeyLines.{before_comment, is_blank, words_of};

use std::alloc::{AllocError, Global};

/// Whether the bytes are equal to these.
pub(crate) fn are_bytes(bytes: &[u8], wanted: &[u8]) -> bool
    ensures { IsTrue result ↔ (bytes.now ≡ wanted.now) }
{
    bytes == wanted
}

/// The index of the first byte of this value.
pub(crate) fn place_of(bytes: &[u8], wanted: u8) -> Option<usize>
    ensures first { result ≡ position (λ byte. byte == wanted) bytes.now }
    ensures within { IfSome result (λ at. at < length bytes.now) }
{
    bytes.iter().position(|byte| *byte == wanted)
}

/// The bytes before an index.
pub(crate) fn bytes_before(bytes: &[u8], at: usize) -> &[u8]
    requires { at < length bytes.now }
    ensures { result.now ≡ take at bytes.now }
{
    &bytes[..at]
}

/// The bytes after an index.
pub(crate) fn bytes_after(bytes: &[u8], at: usize) -> &[u8]
    requires { at < length bytes.now }
    ensures { result.now ≡ drop (at + 1) bytes.now }
{
    &bytes[at + 1..]
}

/// The parts between the bytes of this value, which may be empty.
pub(crate) fn pieces_of(alloc: Global, bytes: &[u8], cut: u8) -> Result<Vec<&[u8]>, AllocError>
    ensures { IfOk result
        (λ pieces. map (λ piece. piece.now) pieces.items ≡ slice_split (λ byte. byte == cut) bytes.now) }
{
    bytes.split(|byte| *byte == cut).collect(alloc)
}

/// The bytes of a line before its comment.
pub(crate) fn before_comment(line: &[u8]) -> &[u8]
    ensures { result.now ≡ before_comment line.now }
{
    match place_of(line, b'#') {
        Some(at) => bytes_before(line, at),
        None => line,
    }
}

/// Whether a byte separates words.
fn is_blank(byte: u8) -> bool
    ensures { result ≡ is_blank byte }
{
    matches!(byte, b' ' | b'\t')
}

/// The words of a line.
pub(crate) fn words_of(alloc: Global, line: &[u8]) -> Result<Vec<&[u8]>, AllocError>
    ensures { IfOk result (λ words. map (λ word. word.now) words.items ≡ words_of line.now) }
{
    line.split(|byte| is_blank(*byte))
        .filter(|word| !word.is_empty())
        .collect(alloc)
}
