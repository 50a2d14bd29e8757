//! The last line of a write: written, and read.

ghost use Rattle.std.specs.Prelude.{◌≡◌, ◌++◌, ◌∷◌, ◌<◌, ◌^◌, ℕ, List, Some, IfOk, IfSome, IsSomeAnd, OnOk, codes};
ghost use Rattle.std.specs.Fmt.{decimal};
ghost use Rattle.rme_durable_writes.specs.Finding.{IsNumberRead};
ghost use Rattle.rme_durable_writes.specs.Writes as spec;

use crate::crc::Crc32c;
use itoa::Buffer;
use memchr::memchr;
use std::alloc::{AllocError, Global};
use std::str;

/// The text before the number of the last durable write.
const KEPT: &[u8] = b"{\"kept\":";

/// The text before the number of the write.
const SEQ: &[u8] = b"\"seq\":";

/// What the last line of a write tells before its checksum.
#[derive(Clone, Copy, Debug, PartialEq, Eq)]
pub(crate) struct SumFront {
    /// The number of the last write that was known to be with the disk when this one was made.
    pub(crate) kept: u64,
    /// The number of the write.
    pub(crate) number: u64,
}

/// A number that was read, and the bytes behind it.
#[derive(Clone, Copy)]
struct ReadNumber<'a> {
    number: u64,
    rest: &'a [u8],
}

/// The last line of a write with these lines.
pub(crate) fn sum_line(
    alloc: Global,
    crc: &Crc32c,
    lines: &[u8],
    front: SumFront,
) -> Result<Vec<u8>, AllocError>
    ensures { IfOk result (λ line. line.items ≡ spec.sum_line front.kept front.number lines.now) }
{
    let mut line = Vec::new(alloc);
    push_front(front, &mut line)?;
    let sum = crc.of_parts(lines, line.as_slice());
    push_end(sum, &mut line)?;
    Ok(line)
}

/// Appends the last line of a write up to its checksum.
pub(crate) fn push_front(front: SumFront, text: &mut Vec<u8>) -> Result<(), AllocError>
    ensures { OnOk result (text.new.items ≡ text.old.items ++ spec.sum_front front.kept front.number) }
{
    text.extend_from_slice(KEPT)?;
    push_number(front.kept, text)?;
    text.extend_from_slice(b",\"seq\":")?;
    push_number(front.number, text)?;
    text.extend_from_slice(b",\"sum\":\"")?;
    Ok(())
}

/// Appends the end of a write's last line: the checksum, and the text after the checksum.
pub(crate) fn push_end(sum: u32, text: &mut Vec<u8>) -> Result<(), AllocError>
    ensures { OnOk result (text.new.items ≡ text.old.items ++ (spec.sum_digits sum ++ codes "\"}\n")) }
{
    let mut digits = [0; 8];
    match hex::encode_to_slice(sum.to_be_bytes().as_slice(), &mut digits) {
        Ok(()) => {}
        // Four bytes have eight digits.
        Err(_) => unreachable!(),
    }
    text.extend_from_slice(digits.as_slice())?;
    text.extend_from_slice(b"\"}\n")?;
    Ok(())
}

/// Appends the decimal digits of a number.
fn push_number(number: u64, text: &mut Vec<u8>) -> Result<(), AllocError>
    ensures { OnOk result (text.new.items ≡ text.old.items ++ decimal number) }
{
    text.extend_from_slice(Buffer::new().format(number).as_bytes())
}

/// What a last line tells before its checksum; perhaps `None` for any other line.
pub(crate) fn read_front(line: &[u8]) -> Option<SumFront>
    ensures fits { IfSome result (λ front. (front.kept < 2 ^ 64) × (front.number < 2 ^ 64)) }
    ensures all { (kept number : ℕ) (rest : List ℕ) → kept < 2 ^ 64 → number < 2 ^ 64
        → line.now ≡ spec.sum_front kept number ++ rest
        → result ≡ Some (record { kept = kept; number = number }) }
{
    let kept = number_behind(line, KEPT)?;
    let number = number_behind(kept.rest, SEQ)?;
    Some(SumFront {
        kept: kept.number,
        number: number.number,
    })
}

/// The number between this label and the next comma; perhaps `None` if anything else stands there.
fn number_behind<'a>(bytes: &'a [u8], label: &[u8]) -> Option<ReadNumber<'a>>
    ensures { (n : ℕ) (rest : List ℕ) → n < 2 ^ 64 → bytes.now ≡ label.now ++ (decimal n ++ 44 ∷ rest)
        → IsSomeAnd result (IsNumberRead n rest) }
{
    if !bytes.starts_with(label) {
        return None;
    }
    let digits = &bytes[label.len()..];
    let Some(end) = memchr(b',', digits) else {
        return None;
    };
    match number_of(&digits[..end]) {
        Some(number) => Some(ReadNumber {
            number,
            rest: &digits[end + 1..],
        }),
        None => None,
    }
}

/// The number of this text; perhaps `None` for a text other than the decimal digits of a `u64`.
fn number_of(text: &[u8]) -> Option<u64>
    ensures { (n : ℕ) → n < 2 ^ 64 → text.now ≡ decimal n → result ≡ Some n }
{
    let Ok(text) = str::from_utf8(text) else {
        return None;
    };
    text.parse::<u64>().ok()
}
