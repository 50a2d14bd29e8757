//! CRC-32C, eight bytes at a time by a table (Kounavis and Berry 2005).

ghost use Rattle.std.specs.Prelude.{◌≡◌, ◌<◌, length, vec_len};
ghost use Rattle.rme_durable_writes.specs.Checksums.{AreRemainders, remainder_at, shift_bit, shift_bits};

use std::alloc::{AllocError, Global};

/// The polynomial of Castagnoli, its bits reversed.
const POLYNOMIAL: u32 = 0x82f6_3b78;

/// The number of values of a byte.
const BYTES: u32 = 256;

/// The number of entries of the table: one for each byte and for each of the eight places at which it can stand.
const ENTRIES: u32 = 8 * BYTES;

/// The remainder before any byte.
const FIRST: u32 = 0xffff_ffff;

/// A table for CRC-32C: entry `256 * behind + byte` is the remainder of a byte and of `behind` zero bytes behind it. It
/// lies on the heap, since its owner is moved from stack to stack, and a thread's stack is small.
#[derive(Drop)]
pub(crate) struct Crc32c {
    remainders: Vec<u32>,
    ghost long: { vec_len remainders ≡ 2048 },
    ghost remainders_are: { AreRemainders remainders.items 2048 },
}

impl Crc32c {
    ghost use Rattle.std.specs.Prelude.{◌≡◌, ◌++◌, ◌<◌, ◌≤◌, ◌+◌, ◌*◌, ◌%◌, IfOk};
    ghost use Rattle.rme_durable_writes.specs.Checksums.{crc_after, crc32c, next_crc, shift_bits};

    /// The table.
    pub(crate) fn new(alloc: Global) -> Result<Crc32c, AllocError> {
        let mut remainders = Vec::with_capacity(alloc, ENTRIES as usize)?;
        for entry in 0..ENTRIES {
            let remainder = next_remainder(remainders.as_slice(), entry);
            remainders.push(remainder)?;
        }
        Ok(Crc32c { remainders })
    }

    /// The checksum of some bytes.
    pub(crate) fn of(&self, bytes: &[u8]) -> u32
        ensures { result ≡ crc32c bytes.now }
    {
        self.after(FIRST, bytes) ^ FIRST
    }

    /// The checksum of two parts, one behind the other.
    pub(crate) fn of_parts(&self, front: &[u8], behind: &[u8]) -> u32
        ensures { result ≡ crc32c (front.now ++ behind.now) }
    {
        self.after(self.after(FIRST, front), behind) ^ FIRST
    }

    /// The remainder after more bytes.
    fn after(&self, crc: u32, bytes: &[u8]) -> u32
        ensures { result ≡ crc_after crc bytes.now }
    {
        let mut crc = crc;
        let mut rest = bytes;
        while let [a, b, c, d, e, f, g, h, behind @ ..] = rest {
            let last = self.remainder(3, u32::from(*e))
                ^ (self.remainder(2, u32::from(*f))
                    ^ (self.remainder(1, u32::from(*g)) ^ self.remainder(0, u32::from(*h))));
            crc = self.remainder(7, crc ^ u32::from(*a))
                ^ (self.remainder(6, crc / 0x100 ^ u32::from(*b))
                    ^ (self.remainder(5, crc / 0x1_0000 ^ u32::from(*c))
                        ^ (self.remainder(4, crc / 0x100_0000 ^ u32::from(*d)) ^ last)));
            rest = behind;
        }
        self.after_each(crc, rest)
    }

    /// The remainder after more bytes, one at a time.
    fn after_each(&self, crc: u32, bytes: &[u8]) -> u32
        ensures { result ≡ crc_after crc bytes.now }
    {
        let mut crc = crc;
        for byte in bytes {
            crc = self.remainder(0, crc ^ u32::from(*byte)) ^ (crc / 0x100);
        }
        crc
    }

    /// The remainder of the low byte of a number, and of this number of zero bytes behind it.
    fn remainder(&self, behind: u32, number: u32) -> u32
        requires { behind < 8 }
        ensures { result ≡ shift_bits (8 * (behind + 1)) (number % 256) }
    {
        self.remainders[(BYTES * behind + number % BYTES) as usize]
    }
}

/// The entry behind the first `entry` entries of a table.
fn next_remainder(entries: &[u32], entry: u32) -> u32
    requires long { length entries.now ≡ entry }
    requires are { AreRemainders entries.now entry }
    ensures { result ≡ remainder_at entry }
{
    if entry < BYTES {
        return shifted(entry, 8);
    }
    // That of the same byte, with one zero byte less behind it.
    shifted(entries[(entry - BYTES) as usize], 8)
}

/// The remainder after this number of bits.
fn shifted(crc: u32, bits: u32) -> u32
    ensures { result ≡ shift_bits bits crc }
{
    let mut crc = crc;
    for _ in 0..bits {
        crc = shifted_once(crc);
    }
    crc
}

/// The remainder after one more bit.
fn shifted_once(crc: u32) -> u32
    ensures { result ≡ shift_bit crc }
{
    if crc % 2 == 1 {
        (crc / 2) ^ POLYNOMIAL
    } else {
        crc / 2
    }
}
