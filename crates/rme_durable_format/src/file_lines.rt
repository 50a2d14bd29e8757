//! The bytes of a file as lines: its whole lines, and its first two.

ghost use Rattle.rme_durable_format.specs.WholeLines.{AreFirstTwoLines, AreWholeLinesOf};

use memchr::{memchr, memrchr};

/// The bytes up to and with the last newline: the whole lines. What follows is a torn line.
pub fn whole_lines(bytes: &[u8]) -> &[u8]
    ensures { AreWholeLinesOf bytes.now result.now }
{
    match memrchr(b'\n', bytes) {
        Some(at) => &bytes[..=at],
        None => &[],
    }
}

/// The first two lines, or all bytes if there are fewer lines.
pub fn first_two_lines(bytes: &[u8]) -> &[u8]
    ensures { AreFirstTwoLines bytes.now result.now }
{
    let Some(first) = memchr(b'\n', bytes) else {
        return bytes;
    };
    match memchr(b'\n', &bytes[first + 1..]) {
        Some(second) => &bytes[..first + second + 2],
        None => bytes,
    }
}
